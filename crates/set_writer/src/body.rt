ghost use Rattle.std.specs.Prelude.{◌≡◌, ◌<◌, ◌+◌};

use rs_code::{Code, Coded};

/// A payload with its fragments, as they stand in a buffer one behind the other, in order of index.
#[derive(Clone, Copy)]
pub(crate) struct Pieces<'a> {
    pub(crate) fragments: &'a [u8],
    /// Bytes of the payload.
    pub(crate) payload: usize,
    /// Bytes of each fragment.
    pub(crate) fragment: usize,
}

/// Where the fragments of a record's payload are had from.
#[derive(Clone, Copy)]
pub(crate) enum Body<'a> {
    /// A record without a payload.
    Empty,
    Whole(&'a Coded),
    Pieces(Pieces<'a>),
}

impl<'a> Body<'a> {
    ghost use Rattle.gf_field.specs.Field.{AreBytes};
    ghost use Rattle.set_writer.specs.Entry.{fragment};
    ghost use Rattle.set_writer.specs.Body.{payload_of, IsBody};

    /// The fragment of that index.
    pub(crate) fn fragment(self, code: &Code, index: u8) -> &'a [u8]
        requires body { IsBody code.now.k code.now.p self }
        requires index { index < code.now.k + code.now.p }
        ensures bytes { AreBytes (payload_of self.entry) }
        ensures fragment { result.now ≡ fragment code.now.k (payload_of self.entry) index }
    {
        match self {
            Body::Empty => &[],
            Body::Whole(coded) => coded.fragment(index),
            Body::Pieces(pieces) => {
                let from = index as usize * pieces.fragment;
                &pieces.fragments[from..from + pieces.fragment]
            }
        }
    }
}
