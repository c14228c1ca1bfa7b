//! The set that is written: the table of its array and its writer, as a program has them in memory.

ghost use Rattle.std.specs.Prelude.{◌≡◌, ◌<◌, ℕ, true};
ghost use Rattle.marker_format.specs.Marker.{is_well_formed};
ghost use Rattle.marker_format.proofs.MarkerRules.{Widths};
ghost use Rattle.set_writer.specs.Entry.{at_index};
ghost use Rattle.zone_bay.specs.Contents.{IsOfBay};
ghost use Rattle.set_writer.specs.Members.{IsOfCode};
ghost use Rattle.set_table.specs.Table.{array_of};
ghost use Rattle.set_writer.specs.Writer.{array_by, is_appended, IsAppended};
ghost use Rattle.set_writer.specs.Calls.{IsCuts};

use crate::set_answer::SetAnswer;
use crate::set_marker::{Part, Upload, of_note, of_part};
use crate::untold::UntoldBay;
use bay_memory::MemoryBay;
use marker_format::{COUNTER_END, Kind, Marker};
use row_player::{ARRAY, Fault, zone_of};
use rs_code::{Code, Coded};
use set_reader::{ReadRefusal, read_record};
use set_table::SetTable;
use set_writer::{MOST_CUTS, SetWriter, WriteRefusal, open_set};
use smore_base::{Geometry, MAX_FRAGMENTS, Name, Place};
use std::alloc::Global;
use zone_bay::Bay;

/// The first set zone of a drive.
const FIRST_ZONE: u16 = 2;

/// The set that is written.
#[derive(Drop)]
pub(crate) struct Life {
    table: SetTable,
    writer: SetWriter,
    /// Where each record that was put stands, of each set.
    places: Vec<Place>,
    upload: u64,
    /// How many parts the upload has so far, and how many bytes.
    parts: u32,
    length: u32,
    ghost array: { array_by writer ≡ array_of table },
}

/// Takes a zone of the table that holds anything.
fn take_written(table: &mut SetTable, bay: &MemoryBay, device: u8, zone: u16) {
    let geometry = *table.geometry();
    let is_set_zone = device < geometry.drives && zone >= FIRST_ZONE && zone < geometry.zones;
    if is_set_zone && !zone_of(bay, device, zone).is_empty() {
        table.take_zone(device, zone);
    }
}

/// The table of an array that is opened anew: of what its zones hold nothing is known.
fn fresh_table(alloc: Global, geometry: &Geometry, bay: &MemoryBay) -> Result<SetTable, Fault> {
    if geometry.check().is_err() {
        return Err(Fault::wanted(alloc, "a geometry within the limits"));
    }
    let mut table = SetTable::new(alloc, *geometry, ARRAY)?;
    for device in 0..geometry.drives {
        for zone in FIRST_ZONE..geometry.zones {
            take_written(&mut table, bay, device, zone);
        }
    }
    Ok(table)
}

/// The table of the array: that of the set that was written last, or a fresh one.
pub(crate) fn table_of(
    alloc: Global,
    geometry: &Geometry,
    bay: &MemoryBay,
    before: Option<Life>,
) -> Result<SetTable, Fault> {
    match before {
        Some(life) => {
            let Life { table, .. } = life;
            Ok(table)
        }
        None => fresh_table(alloc, geometry, bay),
    }
}

fn is_of_bay(table: &SetTable, bay: &UntoldBay) -> bool
    ensures { result ≡ true → IsOfBay table.now.geometry (⟦<UntoldBay as Bay>⟧.state bay.now).shape }
{
    let geometry = table.geometry();
    u32::from(geometry.drives) + 1 == u32::from(bay.devices())
        && geometry.zones == bay.zones()
        && geometry.blocks == bay.blocks()
}

/// Whether a set of this number may begin with the cuts.
fn are_cuts(set: u64, cuts: &[(u64, u16)]) -> bool
    ensures { result ≡ true → IsCuts set cuts.now }
{
    cuts.len() <= MOST_CUTS && cuts.iter().all(|cut| 1 <= cut.0 && cut.0 < set)
}

fn refused(refusal: WriteRefusal) -> Result<SetAnswer, Fault> {
    match refusal {
        WriteRefusal::Memory => Err(Fault::Memory),
        WriteRefusal::TooFew { live } => Ok(SetAnswer::TooFew(live)),
        WriteRefusal::NoFit { blocks, left } => Ok(SetAnswer::NoFit { blocks, left }),
        WriteRefusal::Short { set, missing } => Ok(SetAnswer::Short { set, missing }),
    }
}

/// Adds the places of the records that a set begins with, of a block each.
fn add_first(places: &mut Vec<Place>, set: u64, records: u16) -> Result<(), Fault> {
    for position in 0..records {
        places.push(Place {
            set,
            position,
            block: u32::from(position),
        })?;
    }
    Ok(())
}

/// Opens a set.
pub(crate) fn opened(
    alloc: Global,
    bay: &mut UntoldBay,
    mut table: SetTable,
    set: u64,
    least: u8,
    cuts: &[(u64, u16)],
) -> Result<(SetAnswer, Option<Life>), Fault> {
    if !is_of_bay(&table, bay) {
        return Ok((SetAnswer::Barred("another array's set"), None));
    }
    if set == 0 || set >= COUNTER_END {
        return Ok((SetAnswer::Barred("a set whose number is no set's"), None));
    }
    if table.contains(set) {
        return Ok((SetAnswer::Barred("a set that is there"), None));
    }
    if !are_cuts(set, cuts) {
        return Ok((
            SetAnswer::Barred("cuts of lower sets, more than 32 or of others"),
            None,
        ));
    }
    match open_set(alloc, bay, &mut table, set, least, cuts) {
        Ok(writer) => {
            let live = writer.live(&table);
            let mut places = Vec::new(alloc);
            add_first(&mut places, set, writer.records())?;
            let life = Life {
                table,
                writer,
                places,
                upload: 1,
                parts: 0,
                length: 0,
            };
            Ok((SetAnswer::Done { live }, Some(life)))
        }
        Err(refusal) => Ok((refused(refusal)?, None)),
    }
}

/// Whether the marker is well formed in the zone of each index.
fn is_well_formed(marker: &Marker) -> bool
    ensures { result ≡ true → (index : ℕ) → index < marker.now.n
        → is_well_formed (at_index index marker.now) ≡ true }
{
    for index in 0..marker.n {
        if !marker.at_index(index).is_well_formed() {
            return false;
        }
    }
    true
}

/// Whether it is the marker of a part or of a note.
fn is_known(marker: &Marker) -> bool
    ensures { result ≡ true → is_appended marker.now ≡ true }
{
    marker.kind == Kind::Part.number() || marker.kind == Kind::Put.number()
}

/// Whether the record is a part or a note, and the set's next one.
fn may_append(table: &SetTable, writer: &SetWriter, marker: &Marker, body: &Coded) -> bool
    requires array { array_by writer.now ≡ array_of table.now }
    requires widths { Widths marker.now }
    requires code { IsOfCode table.now.geometry body.now.k body.now.p }
    ensures { result ≡ true → IsAppended writer.now marker.now body.now }
{
    let geometry = table.geometry();
    if !is_known(marker) {
        return false;
    }
    if marker.k != geometry.k || marker.n != geometry.k + geometry.p {
        return false;
    }
    if marker.array != table.array() || marker.set != writer.set() {
        return false;
    }
    if marker.position != writer.records() || marker.payload as usize != body.payload_len() {
        return false;
    }
    marker.payload <= u32::from(geometry.k) * geometry.shard && is_well_formed(marker)
}

impl Life {
    /// The set's number.
    pub(crate) fn set(&self) -> u64 {
        self.writer.set()
    }

    /// Whether it is closed.
    pub(crate) fn is_closed(&self) -> bool {
        self.writer.closed()
    }

    pub(crate) fn records(&self) -> u16 {
        self.writer.records()
    }

    pub(crate) fn used(&self) -> u32 {
        self.writer.used()
    }

    pub(crate) fn live(&self) -> u8 {
        self.writer.live(&self.table)
    }

    /// Whether the set's records can be read.
    pub(crate) fn has_enough(&self) -> bool {
        self.live() >= self.table.geometry().k
    }

    /// The live drives that carry the set, a bit each.
    pub(crate) fn members(&self, set: u64) -> u32 {
        let mut drives = 0u32;
        for index in 0..MAX_FRAGMENTS {
            if let Some((device, _)) = self.table.carrier(set, index) {
                if device < 32 {
                    drives |= 1 << device;
                }
            }
        }
        drives
    }

    /// The devices that are lost, a bit each.
    pub(crate) fn lost(&self) -> u32 {
        self.table.lost()
    }

    fn done(&self) -> SetAnswer {
        SetAnswer::Done { live: self.live() }
    }

    /// The marker of the next part.
    pub(crate) fn part(&self, bytes: &[u8]) -> Marker
        ensures { Widths result }
    {
        let part = Part {
            upload: self.upload,
            part: self.parts,
            bytes: u32::try_from(bytes.len()).unwrap_or(u32::MAX),
        };
        of_part(
            self.table.geometry(),
            self.writer.set(),
            self.writer.records(),
            part,
        )
    }

    /// The marker of the upload's note.
    pub(crate) fn note(&self, name: Name) -> Marker
        ensures { Widths result }
    {
        let upload = Upload {
            upload: self.upload,
            parts: self.parts,
            length: self.length,
        };
        let position = self.writer.records();
        of_note(
            self.table.geometry(),
            self.writer.set(),
            position,
            upload,
            name,
        )
    }

    /// The upload goes on behind a part, and a new one begins behind a note.
    fn count(&mut self, marker: &Marker) {
        if marker.kind == Kind::Part.number() {
            self.parts = self.parts.saturating_add(1);
            self.length = self.length.saturating_add(marker.payload);
        } else {
            self.upload = self.upload.saturating_add(1);
            self.parts = 0;
            self.length = 0;
        }
    }

    /// Puts a part or a note.
    pub(crate) fn append(
        &mut self,
        alloc: Global,
        bay: &mut UntoldBay,
        marker: &Marker,
        payload: &[u8],
    ) -> Result<SetAnswer, Fault>
        requires { Widths marker.now }
    {
        if !is_of_bay(&self.table, bay) || self.writer.closed() {
            return Ok(SetAnswer::Barred("a set that is closed"));
        }
        let geometry = *self.table.geometry();
        let body = Coded::of(alloc, &Code::new(geometry.k, geometry.p), payload)?;
        self.writer.reserve(1)?;
        if !may_append(&self.table, &self.writer, marker, &body) {
            return Ok(SetAnswer::Barred("no record of a set"));
        }
        let place = Place {
            set: self.writer.set(),
            position: self.writer.records(),
            block: self.writer.used(),
        };
        let answer = match self
            .writer
            .append_record(bay, &mut self.table, marker, &body)
        {
            Ok(place) => SetAnswer::At(place),
            Err(refusal) => refused(refusal)?,
        };
        if !matches!(answer, SetAnswer::NoFit { .. }) {
            self.places.push(place)?;
            self.count(marker);
        }
        Ok(answer)
    }

    pub(crate) fn flush(&mut self, bay: &mut UntoldBay) -> Result<SetAnswer, Fault> {
        if !is_of_bay(&self.table, bay) {
            return Ok(SetAnswer::Barred("another array's set"));
        }
        match self.writer.flush(bay, &mut self.table) {
            Ok(()) => Ok(self.done()),
            Err(refusal) => refused(refusal),
        }
    }

    pub(crate) fn close(&mut self, bay: &mut UntoldBay) -> Result<SetAnswer, Fault> {
        if !is_of_bay(&self.table, bay) || self.writer.closed() {
            return Ok(SetAnswer::Barred("a set that is closed"));
        }
        match self.writer.close_with_digest(bay, &mut self.table) {
            Ok(()) => Ok(self.done()),
            Err(refusal) => refused(refusal),
        }
    }

    /// Finds room for so many records more.
    pub(crate) fn reserve(&mut self, records: usize) -> Result<SetAnswer, Fault> {
        self.writer.reserve(records)?;
        Ok(self.done())
    }

    /// Closes the set and opens the next one.
    pub(crate) fn next(
        &mut self,
        bay: &mut UntoldBay,
        set: u64,
        least: u8,
    ) -> Result<SetAnswer, Fault> {
        if !is_of_bay(&self.table, bay) {
            return Ok(SetAnswer::Barred("another array's set"));
        }
        if set == 0 || set >= COUNTER_END {
            return Ok(SetAnswer::Barred("a set whose number is no set's"));
        }
        if self.table.contains(set) {
            return Ok(SetAnswer::Barred("a set that is there"));
        }
        self.table.reserve(1)?;
        let answer = match self.writer.next_set(bay, &mut self.table, set, least) {
            Ok(()) => self.done(),
            Err(refusal) => refused(refusal)?,
        };
        if self.writer.set() == set {
            add_first(&mut self.places, set, self.writer.records())?;
        }
        Ok(answer)
    }

    fn place(&self, set: u64, position: u16) -> Option<Place> {
        for place in &self.places {
            if place.set == set && place.position == position {
                return Some(*place);
            }
        }
        None
    }

    /// Reads the record at this position of the set.
    pub(crate) fn read(
        &mut self,
        alloc: Global,
        bay: &mut UntoldBay,
        set: u64,
        position: u16,
    ) -> Result<SetAnswer, Fault> {
        let Some(place) = self.place(set, position) else {
            return Ok(SetAnswer::Barred("no record at the position"));
        };
        if !is_of_bay(&self.table, bay) || place.block >= self.table.geometry().blocks {
            return Ok(SetAnswer::Barred("another array's set"));
        }
        let mut bytes = Vec::new(alloc);
        match read_record(bay, &mut self.table, &place, &mut bytes) {
            Ok(()) => Ok(SetAnswer::Bytes(bytes)),
            Err(ReadRefusal::Memory) => Err(Fault::Memory),
            Err(ReadRefusal::TooFewFragments { missing, .. }) => Ok(SetAnswer::TooFew(missing)),
        }
    }
}
