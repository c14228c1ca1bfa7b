ghost use Rattle.std.specs.Prelude.{◌≡◌, ◌*◌, ◌+◌, ◌<◌, ◌≤◌, ◌^◌, ◌==◌, nat_le, ℕ, List, length, Some, None, Ok, IfSome, IfNone, IfOk, OnOk, IfErr, OnErr, IsErr};
ghost use Rattle.zone_bay.specs.Stretch.{OnlyReads, ReadsAtMost, FailsReading};
ghost use Rattle.zone_bay.specs.Outside.{HasCause};
ghost use Rattle.marker_format.specs.Block.{marker_in_block, foot_block};
ghost use Rattle.marker_format.specs.Zone.{belongs, blocks_of, begun, is_rebuilt, whole_records, has_foot, stands_at};
ghost use Rattle.zone_parse.specs.Walk.{records_behind, end_of, foot_at, trailer_at, ends_zone, shown, before_of, holds_foot, place_behind};

use crate::lost::Lost;
use crate::walk::{Walk, blocks_of};
use marker_format::{Foot, Kind, Marker, read_marker_block, write_foot_block};
use smore_base::{BLOCK_BYTES, Geometry};
use zone_bay::Bay;

/// Bytes of a block, as an index.
const BLOCK: usize = BLOCK_BYTES as usize;

/// A zone, and what its records are to be like.
#[derive(Clone, Copy, Debug)]
struct Source {
    device: u8,
    zone: u16,
    /// Bytes that the zone holds.
    written: u32,
    geometry: Geometry,
    array: [u8; 16],
}

/// How far a reader has come.
#[derive(Clone, Copy, Debug)]
enum Progress {
    /// Nothing was read.
    Fresh,
    /// Behind records of a zone that was written once.
    Walking(Walk),
    /// Behind records of a rebuilt zone that were read a second time: so many are left, and whether a foot follows.
    Again(Walk, u32, bool),
    /// Behind all records, and whether a foot follows.
    Ended(bool),
}

/// Reads the whole records of a zone, one marker at a time.
#[derive(Debug, Drop)]
pub struct ZoneReader {
    source: Source,
    progress: Progress,
}

fn marker_in(block: &[u8]) -> Option<Marker>
    ensures { result ≡ marker_in_block block.now }
{
    read_marker_block(block)
}

/// Whether the block holds the foot, where there is one.
fn is_foot_in(foot: Option<Foot>, block: &[u8]) -> bool
    ensures { result ≡ holds_foot foot block.now }
{
    match foot {
        None => false,
        Some(foot) => {
            let mut spelled = [0; BLOCK];
            write_foot_block(&foot, &mut spelled);
            block == spelled.as_slice()
        }
    }
}

/// Whether a head has the rebuilt mark.
fn has_rebuilt_mark(head: &Marker) -> bool
    ensures { result ≡ (head.now.part == 1) }
{
    head.part == 1
}

/// The end of a walk: the walk behind its last record, how many records it came to, and the block behind them.
#[derive(Clone, Copy, Debug)]
struct End {
    walk: Walk,
    records: u32,
    block: [u8; BLOCK],
}

impl Source {
    ghost use Rattle.zone_parse.specs.ZoneReader.{array_of, held_at, IsIn, OnlyReadsOf, record_in, IsEndOf, rebuilt_end};

    /// Whether the marker is of this array.
    fn owns(&self, marker: &Marker) -> bool
        ensures { result ≡ belongs (array_of self.now) marker.now }
    {
        let geometry = &self.geometry;
        marker.k == geometry.k
            && u16::from(marker.n) == u16::from(geometry.k) + u16::from(geometry.p)
            && marker.array == self.array
            && u64::from(marker.payload) <= u64::from(geometry.k) * u64::from(geometry.shard)
    }

    /// Whether all blocks of a record lie within the zone, whose first is this one.
    fn has_all(&self, block: u32, marker: &Marker) -> bool
        ensures within { result ≡ nat_le (BLOCK * (block + blocks_of marker.now)) self.now.written }
        ensures few { self.now.written < 2 ^ 32 }
    {
        let written = u64::from(self.written);
        (u64::from(block) + u64::from(blocks_of(marker))) * BLOCK as u64 <= written
    }

    /// The record that the block holds, where it goes on with the walk.
    fn record_in(&self, walk: &Walk, block: &[u8]) -> Option<Marker>
        ensures record { result ≡ record_in self.now walk.now block.now }
        ensures few { IfSome result (λ _. self.now.written < 2 ^ 32) }
    {
        let marker = marker_in(block)?;
        if self.owns(&marker) && walk.may_go_on_with(&marker) && self.has_all(walk.block, &marker) {
            Some(marker)
        } else {
            None
        }
    }

    /// Whether the block holds the trailer of a zone with the walk's records.
    fn is_trailer_in(&self, walk: &Walk, block: &[u8]) -> bool
        ensures { result ≡ ends_zone (array_of self.now) walk.now.last (marker_in_block block.now) }
    {
        match (walk.last, marker_in(block)) {
            (Some(last), Some(marker)) => {
                marker.kind == Kind::Trailer.number()
                    && self.owns(&marker)
                    && last.is_right_before(marker.position)
                    && last.shares_zone(&marker)
            }
            _ => false,
        }
    }

    /// A block of the zone, or zeros where it isn't written whole.
    fn block<B: Bay>(&self, bay: &mut B, block: u32) -> Result<[u8; BLOCK], Lost>
        requires { IsIn (B.state bay.old) self.now }
        ensures shown { IfSome (held_at self.now (B.state bay.old))
            (λ bytes. IfOk result (λ out. out ≡ shown bytes block)) }
        ensures reads { OnlyReadsOf self.now (B.state bay.old) (B.state bay.new) result }
        ensures once { ReadsAtMost 1 (B.state bay.old) (B.state bay.new) }
    {
        let mut out = [0; BLOCK];
        let at = u64::from(block) * BLOCK as u64;
        if at + BLOCK as u64 > u64::from(self.written) {
            return Ok(out);
        }
        match bay.read(self.device, self.zone, at as u32, &mut out) {
            Ok(()) => Ok(out),
            Err(_) => Err(Lost {
                device: self.device,
            }),
        }
    }

    /// Walks on to the end of the records.
    fn walk_to_end<B: Bay>(&self, bay: &mut B, from: Walk) -> Result<End, Lost>
        requires zone { IsIn (B.state bay.old) self.now }
        requires begins { BLOCK * from.block ≤ self.now.written }
        ensures end { IfSome (held_at self.now (B.state bay.old))
            (λ bytes. IfOk result (IsEndOf (array_of self.now) bytes from)) }
        ensures within { IfOk result (λ end. BLOCK * end.walk.block ≤ self.now.written) }
        ensures reads { OnlyReadsOf self.now (B.state bay.old) (B.state bay.new) result }
        ensures few { IfSome (held_at self.now (B.state bay.old))
            (λ bytes. ReadsAtMost (length (records_behind (array_of self.now) bytes from) + 1) (B.state bay.old) (B.state bay.new)) }
    {
        let mut walk = from;
        let mut records = 0;
        loop {
            let block = self.block(bay, walk.block)?;
            match self.record_in(&walk, &block) {
                Some(marker) => {
                    walk = walk.behind(&marker);
                    records += 1;
                }
                None => {
                    return Ok(End {
                        walk,
                        records,
                        block,
                    });
                }
            }
        }
    }

    /// The block behind the records, or behind their foot.
    fn block_behind<B: Bay>(&self, bay: &mut B, end: &End, foot: bool) -> Result<[u8; BLOCK], Lost>
        requires zone { IsIn (B.state bay.old) self.now }
        requires within { BLOCK * end.now.walk.block ≤ self.now.written }
        ensures shown { IfSome (held_at self.now (B.state bay.old))
            (λ bytes. end.now.block ≡ shown bytes end.now.walk.block → IfOk result (λ out. out ≡ shown bytes (place_behind end.now.walk foot))) }
        ensures reads { OnlyReadsOf self.now (B.state bay.old) (B.state bay.new) result }
        ensures once { ReadsAtMost 1 (B.state bay.old) (B.state bay.new) }
    {
        if foot {
            self.block(bay, end.walk.block + 1)
        } else {
            Ok(end.block)
        }
    }

    /// How many records of a rebuilt zone stand behind the walk, and whether a foot follows them. Nothing counts where no
    /// trailer ends the zone.
    fn rebuilt_end<B: Bay>(&self, bay: &mut B, from: Walk) -> Result<Option<(u32, bool)>, Lost>
        requires zone { IsIn (B.state bay.old) self.now }
        requires begins { BLOCK * from.block ≤ self.now.written }
        ensures end { IfSome (held_at self.now (B.state bay.old))
            (λ bytes. IfOk result (λ end. end ≡ rebuilt_end (array_of self.now) bytes from)) }
        ensures reads { OnlyReadsOf self.now (B.state bay.old) (B.state bay.new) result }
        ensures few { IfSome (held_at self.now (B.state bay.old))
            (λ bytes. ReadsAtMost (length (records_behind (array_of self.now) bytes from) + 2) (B.state bay.old) (B.state bay.new)) }
    {
        let end = self.walk_to_end(bay, from)?;
        let foot = is_foot_in(end.walk.foot(), &end.block);
        let behind = self.block_behind(bay, &end, foot)?;
        if self.is_trailer_in(&end.walk, &behind) {
            Ok(Some((end.records, foot)))
        } else {
            Ok(None)
        }
    }
}

impl ZoneReader {
    ghost use Rattle.zone_parse.specs.declared.zone_reader.Progress.TheVariants.{Fresh, Walking, Again};
    ghost use Rattle.zone_parse.specs.ZoneReader.{Reads, CanRead, bytes_in, device_of, faults_of, records_left, foot_left, reads_left, reads_for, bytes_left, IsEnded, Gives, Spends, SameZone, IsNext};

    /// A reader of the zone, which holds so many bytes. The geometry and the array are those of its label.
    pub fn new(
        device: u8,
        zone: u16,
        written: u32,
        geometry: Geometry,
        array: [u8; 16],
    ) -> ZoneReader
        ensures zone { Reads result device zone written (record { geometry = geometry; id = array }) }
        ensures records { (bytes : List ℕ) → records_left result bytes ≡ whole_records (record { geometry = geometry; id = array }) bytes }
        ensures foot { (bytes : List ℕ) → foot_left result bytes ≡ has_foot (record { geometry = geometry; id = array }) bytes }
        ensures reads { (bytes : List ℕ) → reads_left result bytes ≡ reads_for (begun (record { geometry = geometry; id = array }) bytes) }
    {
        let source = Source {
            device,
            zone,
            written,
            geometry,
            array,
        };
        ZoneReader {
            source,
            progress: Progress::Fresh,
        }
    }

    /// The marker of the next whole record, or `None` behind the last one. A reader that said `None` says it again.
    ///
    /// Each marker takes one read of one block. The first call in a rebuilt zone reads on to the trailer, without which no
    /// record counts; the next calls read the markers again.
    pub fn next<B: Bay>(&mut self, bay: &mut B) -> Result<Option<Marker>, Lost>
        requires { CanRead self.old (B.state bay.old) }

        // The next record is given where one is left, and else `None`, also as to what follows them.
        ensures gives { IfSome (bytes_in self.old (B.state bay.old))
            (λ bytes. IfOk result (λ found. Gives self.old self.new found bytes)) }
        ensures ended { IfOk result (λ found. IfNone found (IsEnded self.new)) }

        // Each record takes some of the bytes that are left, so records end, also where the bay doesn't tell what it holds.
        ensures nearer { IfOk result (λ found. IfSome found (λ _. bytes_left self.new < bytes_left self.old)) }

        // The device is lost only where its count of faults says so; a call on it failed over what was held, and the reader
        // is as it was.
        ensures cause { HasCause result (faults_of self.old (B.state bay.old)) (faults_of self.old (B.state bay.new)) }
        ensures device { IfErr result (λ lost. lost.device ≡ device_of self.old) }
        ensures over { OnErr result (FailsReading (device_of self.old) (B.state bay.old) (B.state bay.new)) }
        ensures kept { OnErr result (self.new ≡ self.old) }

        // Nothing but its own device is read, and no more often than the reader then takes less.
        ensures only { OnlyReads (B.state bay.old) (B.state bay.new) (λ d _. IsErr result × (d ≡ device_of self.old)) }
        ensures reads { IfSome (bytes_in self.old (B.state bay.old))
            (λ bytes. OnOk result (Spends self.old self.new (B.state bay.old) (B.state bay.new) bytes)) }
        ensures reads_lost { IfSome (bytes_in self.old (B.state bay.old))
            (λ bytes. OnErr result (ReadsAtMost (reads_left self.old bytes) (B.state bay.old) (B.state bay.new))) }
        ensures still { CanRead self.new (B.state bay.new) }
        ensures same { SameZone self.old self.new }
    {
        match self.progress {
            Progress::Fresh => self.first(bay),
            Progress::Walking(walk) => self.go_on(bay, walk),
            Progress::Again(walk, left, foot) => self.go_again(bay, walk, left, foot),
            Progress::Ended(_) => Ok(None),
        }
    }

    /// Whether a whole foot follows the whole records.
    pub fn has_foot(&self) -> bool
        requires { IsEnded self.now }
        ensures { (bytes : List ℕ) → result ≡ foot_left self.now bytes }
    {
        match self.progress {
            Progress::Ended(foot) => foot,
            _ => false,
        }
    }

    fn first<B: Bay>(&mut self, bay: &mut B) -> Result<Option<Marker>, Lost>
        requires zone { CanRead self.old (B.state bay.old) }
        requires fresh { self.old.progress ≡ Fresh }
        ensures { IsNext self.old self.new (B.state bay.old) (B.state bay.new) result }
    {
        let block = self.source.block(bay, 0)?;
        let Some(head) = self.source.record_in(&Walk::START, &block) else {
            self.progress = Progress::Ended(false);
            return Ok(None);
        };
        let walk = Walk::START.behind(&head);
        if !has_rebuilt_mark(&head) {
            self.progress = Progress::Walking(walk);
            return Ok(Some(head));
        }
        match self.source.rebuilt_end(bay, walk)? {
            Some((left, foot)) => {
                self.progress = Progress::Again(walk, left, foot);
                Ok(Some(head))
            }
            None => {
                self.progress = Progress::Ended(false);
                Ok(None)
            }
        }
    }

    fn go_on<B: Bay>(&mut self, bay: &mut B, walk: Walk) -> Result<Option<Marker>, Lost>
        requires zone { CanRead self.old (B.state bay.old) }
        requires place { self.old.progress ≡ Walking walk }
        ensures { IsNext self.old self.new (B.state bay.old) (B.state bay.new) result }
    {
        let block = self.source.block(bay, walk.block)?;
        match self.source.record_in(&walk, &block) {
            Some(marker) => {
                self.progress = Progress::Walking(walk.behind(&marker));
                Ok(Some(marker))
            }
            None => {
                self.progress = Progress::Ended(is_foot_in(walk.foot(), &block));
                Ok(None)
            }
        }
    }

    fn go_again<B: Bay>(
        &mut self,
        bay: &mut B,
        walk: Walk,
        left: u32,
        foot: bool,
    ) -> Result<Option<Marker>, Lost>
        requires zone { CanRead self.old (B.state bay.old) }
        requires place { self.old.progress ≡ Again walk left foot }
        ensures { IsNext self.old self.new (B.state bay.old) (B.state bay.new) result }
    {
        if left == 0 {
            self.progress = Progress::Ended(foot);
            return Ok(None);
        }
        let block = self.source.block(bay, walk.block)?;
        match self.source.record_in(&walk, &block) {
            Some(marker) => {
                self.progress = Progress::Again(walk.behind(&marker), left - 1, foot);
                Ok(Some(marker))
            }
            None => {
                self.progress = Progress::Ended(foot);
                Ok(None)
            }
        }
    }
}
