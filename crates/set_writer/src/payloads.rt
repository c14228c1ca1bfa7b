//! What is read of the zones of a set, once its records were written. These functions do nothing: their contracts are the
//! theorems.

ghost use Rattle.set_writer.specs.PayloadLaws.{FragmentsAreOfPayload, CarriersHaveOnePayload, CarriersHavePayloads, CarriersGiveRecords, RecordsAreCoded, CutZoneBegins, WrittenIsRead, AgreedIsRead, LinesAreOfRecords, DigestHasLines, DigestListsRecords};
ghost use Rattle.set_writer.specs.SetReadLaws.{SetImageIsRead, OpenedImageIsRead, OpeningIsRead, NextIsRead, ImageIsRead, SetImageHasPayloads, OpenedImageHasPayloads, ImageHasPayloads, MembersAreCarriers, WholeIsRead, DigestIsRead, OpeningIsReady, OpenedStands, ClosedIsSettled, LiveMembersAreCarried, CallsHold};

use zone_bay::Bay;

/// The fragments on the members are those of the payloads, so all that have a record have one payload of it.
pub fn members_have_one_payload()
    ensures code { FragmentsAreOfPayload }
    ensures one { CarriersHaveOnePayload }
    ensures all { CarriersHavePayloads }
{}

/// Any k carriers that have the records give them with their payloads, also where a crash cut the zones off behind them.
pub fn written_records_are_read()
    ensures carriers { CarriersGiveRecords }
    ensures coded { RecordsAreCoded }
    ensures cut { CutZoneBegins }
    ensures written { WrittenIsRead }
    ensures agreed { AgreedIsRead }
{}

/// The digest of a closed set, joined and read, is the spelled list of its records.
pub fn digest_lists_the_records()
    ensures lines { LinesAreOfRecords }
    ensures parts { DigestHasLines }
    ensures lists { DigestListsRecords }
{}

/// What a crash left of a set is read as it was written, where k of its members are there: the first of its records, be it
/// opened, written or closed.
pub fn images_are_read<B: Bay>()
    ensures set { SetImageIsRead }
    ensures opened { OpenedImageIsRead }
    ensures opening { (old new : B) → OpeningIsRead (B.state old) (B.state new) }
    ensures next { (old new : B) → NextIsRead (B.state old) (B.state new) }
{}

/// The carriers that are found of a set in what a crash left of it have fragments of one payload of each record that they
/// agree on, be it opened, written or closed.
pub fn images_have_payloads()
    ensures set { SetImageHasPayloads }
    ensures opened { OpenedImageHasPayloads }
    ensures written { ImageHasPayloads }
{}

/// So the plain scan reads the records of a set as they were written, also from what a crash left of it. Where k of its
/// members are there, an opened set stands, and a closed one is settled.
pub fn sets_are_read()
    ensures image { ImageIsRead }
    ensures members { MembersAreCarriers }
    ensures whole { WholeIsRead }
    ensures digest { DigestIsRead }
    ensures ready { OpeningIsReady }
    ensures opened { OpenedStands }
    ensures closed { ClosedIsSettled }
    ensures live { LiveMembersAreCarried }
{}

/// What each call says of the writer, the table and the bay is what these laws ask of what drives hold.
pub fn calls_hold<B: Bay>()
    ensures { (bay : B) → CallsHold (B.state bay) }
{}
