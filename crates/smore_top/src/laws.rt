//! What follows from the grammar of frames, from the table of statuses, and from what an opening does. These functions
//! do nothing: their contracts are the theorems.

ghost use Rattle.smore_top.specs.Laws.{FramesAreApart, RepliesAreApart, EndsAreApart, ImagesReopen, KeptReopen};
ghost use Rattle.smore_top.specs.Words.{OneCommand};

use zone_bay::Bay;

/// Bytes begin with one frame of a request at most, and it asks for one thing. So however a stream is cut, it is the
/// same requests.
pub fn frames_are_apart()
    ensures { FramesAreApart }
{}

/// No two replies share a frame.
pub fn replies_are_apart()
    ensures { RepliesAreApart }
{}

/// Words spell one command at most.
pub fn words_spell_one_command()
    ensures { OneCommand }
{}

/// No two ends share a status.
pub fn ends_are_apart()
    ensures { EndsAreApart }
{}

/// What is left of an image, whatever devices but drive 0 are missing, can be opened with no call failing, and gives the
/// objects that the image recovers to. A stop in that opening leaves them too.
pub fn images_reopen<B: Bay>()
    ensures { ImagesReopen ⟦<B as Bay>⟧ }
{}

/// A bay that keeps some objects is opened to them, with no call failing, and a stop in that opening leaves them too. So what
/// `format` made can be opened, and what a run gave back.
pub fn kept_arrays_reopen<B: Bay>()
    ensures { KeptReopen ⟦<B as Bay>⟧ }
{}
