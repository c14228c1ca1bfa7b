ghost use Rattle.std.specs.Prelude.{◌≡◌, ◌+◌, ◌<◌, ◌^◌, Some};
ghost use Rattle.marker_format.specs.Zone.{blocks_of, may_stand, has_kind};
ghost use Rattle.marker_format.specs.declared.kind.Kind.TheVariants as kinds;
ghost use Rattle.zone_parse.specs.Walk.{before_of, behind, foot_seen};

use marker_format::{Foot, Kind, Marker};
use smore_base::CONTENT_BYTES;

/// What the rules of a zone ask of the record before another one.
#[derive(Clone, Copy, Debug)]
pub(crate) struct Last {
    kind: u8,
    index: u8,
    set: u64,
    position: u16,
    part: u32,
    parts: u32,
}

/// Where the first digest record stands.
#[derive(Clone, Copy, Debug)]
pub(crate) struct FirstDigest {
    position: u16,
    block: u32,
}

/// A place behind records that stand one behind the other from a zone's first block on.
#[derive(Clone, Copy, Debug)]
pub(crate) struct Walk {
    /// The last of the records, where there is one.
    pub(crate) last: Option<Last>,
    /// The first digest record among them, where there is one.
    pub(crate) digest: Option<FirstDigest>,
    /// The block behind them.
    pub(crate) block: u32,
}

/// How many blocks the record takes.
pub(crate) fn blocks_of(marker: &Marker) -> u32
    ensures count { result ≡ blocks_of marker.now }
    ensures few { result < 2 ^ 16 }
{
    1 + u32::from(marker.fragment).div_ceil(CONTENT_BYTES)
}

fn has_kind(marker: &Marker, kind: Kind) -> bool
    ensures { result ≡ has_kind kind marker.now }
{
    marker.kind == kind.number()
}

impl Walk {
    /// At a zone's first block.
    pub(crate) const START: Walk = Walk {
        last: None,
        digest: None,
        block: 0,
    };

    /// The walk behind one more record.
    pub(crate) fn behind(self, marker: &Marker) -> Walk
        requires { self.block + blocks_of marker.now < 2 ^ 32 }
        ensures { result ≡ behind self marker.now }
    {
        let digest = match self.digest {
            Some(first) => Some(first),
            None if has_kind(marker, Kind::Digest) => Some(FirstDigest {
                position: marker.position,
                block: self.block,
            }),
            None => None,
        };
        let last = Last {
            kind: marker.kind,
            index: marker.index,
            set: marker.set,
            position: marker.position,
            part: marker.part,
            parts: marker.parts,
        };
        Walk {
            last: Some(last),
            digest,
            block: self.block + blocks_of(marker),
        }
    }

    /// Whether the record may stand behind those of the walk.
    pub(crate) fn may_go_on_with(&self, marker: &Marker) -> bool
        ensures { result ≡ may_stand (before_of self.now) marker.now }
    {
        match self.last {
            None => has_kind(marker, Kind::Head),
            Some(last) => last.may_be_before(marker),
        }
    }

    /// The foot that may follow the records of the walk.
    pub(crate) fn foot(&self) -> Option<Foot>
        ensures { result ≡ foot_seen self.now.digest self.now.last }
    {
        let first = self.digest?;
        let last = self.last?;
        if last.ends_digest() {
            Some(Foot {
                set: last.set,
                index: last.index,
                position: first.position,
                block: first.block,
                count: last.parts,
            })
        } else {
            None
        }
    }
}

impl Last {
    ghost use Rattle.std.specs.Prelude.{◌&&◌, ◌==◌};
    ghost use Rattle.marker_format.specs.Zone.{shares_zone, keeps_digest};
    ghost use Rattle.marker_format.specs.Kind.{code_of};
    ghost use Rattle.zone_parse.specs.Walk.{as_marker};

    fn is_digest(&self) -> bool
        ensures { result ≡ (self.now.kind == code_of kinds.Digest) }
    {
        self.kind == Kind::Digest.number()
    }

    fn ends_digest(&self) -> bool
        ensures { result ≡ ((self.now.kind == code_of kinds.Digest) && (self.now.part + 1 == self.now.parts)) }
    {
        self.is_digest() && u64::from(self.part) + 1 == u64::from(self.parts)
    }

    /// Whether the position is the one above the record's.
    pub(crate) fn is_right_before(&self, position: u16) -> bool
        ensures { result ≡ (position == self.now.position + 1) }
    {
        u32::from(position) == u32::from(self.position) + 1
    }

    /// Whether the marker is of the zone of this record.
    pub(crate) fn shares_zone(&self, marker: &Marker) -> bool
        ensures { result ≡ shares_zone (as_marker self.now) marker.now }
    {
        self.set == marker.set && self.index == marker.index
    }

    /// Whether a digest goes on with the marker, or none does.
    fn keeps_digest(&self, marker: &Marker) -> bool
        ensures { result ≡ keeps_digest (as_marker self.now) marker.now }
    {
        if self.is_digest() {
            has_kind(marker, Kind::Digest)
                && u64::from(marker.part) == u64::from(self.part) + 1
                && marker.parts == self.parts
        } else if has_kind(marker, Kind::Digest) {
            marker.part == 0
        } else {
            true
        }
    }

    /// Whether the record may stand right behind this one.
    fn may_be_before(&self, marker: &Marker) -> bool
        ensures { result ≡ may_stand (Some (as_marker self.now)) marker.now }
    {
        !has_kind(marker, Kind::Head)
            && !has_kind(marker, Kind::Trailer)
            && self.is_right_before(marker.position)
            && self.shares_zone(marker)
            && self.keeps_digest(marker)
    }
}
