//! What a scan answers.
ghost use Rattle.std.specs.Prelude.{◌≡◌, ◌+◌, ◌↔◌, ℕ, List, Some, option_map, IsTrue, IfSome, IfOk};
ghost use Rattle.std.specs.List.{slice_get};
ghost use Rattle.std.specs.Option.{option_copied};
ghost use Rattle.std.specs.FinMap as finmap;
ghost use Rattle.zone_bay.specs.Contents.{Shape, Contents};
ghost use Rattle.marker_format.specs.Zone.{Array};
ghost use Rattle.array_model.specs.Drives.{array_of, AreMixed, present};
ghost use Rattle.array_model.specs.Reading.{missing};
ghost use Rattle.array_scan.specs.Calls.{OnlyRead, lost_by};
ghost use Rattle.array_scan.specs.Drives.{SaySame, HasTwo};
ghost use Rattle.array_scan.specs.Judged.{Payloads, set_with};
ghost use Rattle.array_scan.specs.Enough.{EachKeepsOn};
ghost use Rattle.array_scan.specs.Objects.{Tells, value_by};
ghost use Rattle.array_scan.specs.Scan.{IsScanOf, IsInBay, array_read, map_read, placed_in, needed_read};

use crate::drives::Drives;
use crate::enough::keep_carriers;
use crate::needed::needed_of;
use crate::object::{Object, read_object};
use crate::objects::{What, map_by};
use crate::records::{ValidRecord, valid_records};
use crate::refusal::ScanRefusal;
use crate::set_read::SetRead;
use crate::sets::Sets;
use marker_format::Label;
use rs_code::Code;
use smore_base::Memory;
use std::alloc::Global;
use std::collections::BTreeMap;
use zone_bay::Bay;

/// What the bytes of an array say, where some of its devices are away: `docs/RULES.md`, "What is read of an array".
#[derive(Drop)]
pub struct Scan {
    pub drives: Drives,
    /// Of the array that the lowest present drive's label names: none without a label.
    pub sets: Sets,
}

impl Scan {
    /// The label of the lowest present drive, which says which array this is and its geometry.
    pub fn label(&self) -> Option<&Label>
        ensures { option_copied result ≡ slice_get self.now.drives.labels.items 0 }
    {
        self.drives.labels.first()
    }

    /// Whether two present drives say different things: not the same array, or not the same geometry.
    pub fn is_mixed(&self) -> bool
        ensures { (shape : Shape) (held : Contents) (away : List ℕ)
            → IsScanOf shape held away self.now → IsTrue result ↔ AreMixed shape held away }
    {
        is_mixed(&self.drives.labels)
    }

    /// What each name stands for, with the sizes of objects and none of their bytes: `docs/RULES.md`, "Why nothing
    /// deleted comes back".
    pub fn map(&self, alloc: Global) -> Result<BTreeMap<&[u8], What>, Memory>
        ensures { IfOk result (λ objects. (shape : Shape) (held : Contents) (away : List ℕ)
            → IsScanOf shape held away self.now → Tells objects (map_read shape held away)) }
    {
        let records = valid_records(alloc, &self.sets)?;
        map_by(alloc, &records)
    }

    /// What the name stands for, with the bytes of its object, which are read from the bay that was scanned. Where a device
    /// fails, it gives up.
    pub fn object<B: Bay>(
        &self,
        alloc: Global,
        bay: &mut B,
        name: &[u8],
    ) -> Result<Option<Object>, ScanRefusal>
        requires { IsInBay (B.state bay.old).shape self.now }
        ensures object { IfSome (B.state bay.old).contents (λ held. IfOk result (λ object. (away : List ℕ)
            → IsScanOf (B.state bay.old).shape held away self.now
            → option_map value_by object ≡ finmap.get (map_read (B.state bay.old).shape held away) name.now)) }
        ensures reads { OnlyRead (B.state bay.old) (B.state bay.new) (lost_by result) }
    {
        let Some(label) = self.label() else {
            return Ok(None);
        };
        let code = Code::new(label.geometry.k, label.geometry.p);
        let records = valid_records(alloc, &self.sets)?;
        read_object(alloc, bay, &code, &records, name)
    }

    /// The valid records that are needed, with no uploads in progress, by rising set and position: `docs/RULES.md`,
    /// "Why nothing deleted comes back". Payloads are read from the bay that was scanned, to find copies. Where a device fails, it gives up.
    pub fn needed<B: Bay>(
        &self,
        alloc: Global,
        bay: &mut B,
    ) -> Result<Vec<ValidRecord<'_>>, ScanRefusal>
        requires { IsInBay (B.state bay.old).shape self.now }
        ensures needed { IfSome (B.state bay.old).contents (λ held. IfOk result (λ needed. (away : List ℕ)
            → IsScanOf (B.state bay.old).shape held away self.now
            → placed_in (B.state bay.old).shape held away needed.items
            ≡ needed_read (B.state bay.old).shape held away)) }
        ensures reads { OnlyRead (B.state bay.old) (B.state bay.new) (lost_by result) }
    {
        let Some(label) = self.label() else {
            return Ok(Vec::new(alloc));
        };
        let code = Code::new(label.geometry.k, label.geometry.p);
        needed_of(alloc, bay, &code, &self.sets)
    }

    /// Whether each set that is read has k carriers on the drives that stay where these leave. Then they leave with enough
    /// (`docs/RULES.md`, "Enough"). It reads the bay that was scanned. Where a device fails, it gives up.
    pub fn keeps_carriers<B: Bay>(
        &self,
        alloc: Global,
        bay: &mut B,
        leaving: &[u8],
    ) -> Result<bool, ScanRefusal>
        requires { IsInBay (B.state bay.old).shape self.now }
        ensures kept { IfSome (B.state bay.old).contents (λ held. IfOk result (λ kept. (away : List ℕ)
            → let shape = (B.state bay.old).shape in IsScanOf shape held away self.now → IsTrue kept
            ↔ EachKeepsOn (array_read shape held away) shape held (present shape held away) leaving.now)) }
        ensures reads { OnlyRead (B.state bay.old) (B.state bay.new) (lost_by result) }
    {
        match self.label() {
            Some(label) => keep_carriers(
                alloc,
                bay,
                label,
                &self.sets,
                &self.drives.present,
                leaving,
            ),
            None => Ok(true),
        }
    }

    /// Of how many of its indexes the set has no carrier.
    pub fn missing(&self, set: &SetRead) -> usize
        ensures { (array : Array) → array_of self.now.drives.labels.items ≡ Some array
            → (payload : Payloads) → result ≡ missing array (set_with payload set.now) }
    {
        match self.label() {
            Some(label) => indexes_of(label).saturating_sub(set.carriers.len()),
            None => 0,
        }
    }
}

/// Whether the labels are of one array, with one geometry.
fn says_same(one: &Label, other: &Label) -> bool
    ensures { IsTrue result ↔ SaySame one.now other.now }
{
    one.array == other.array && one.geometry == other.geometry
}

/// Whether two of the labels are of different arrays or geometries.
fn is_mixed(labels: &[Label]) -> bool
    ensures { IsTrue result ↔ HasTwo labels.now }
{
    let Some(first) = labels.first() else {
        return false;
    };
    for label in labels {
        if !says_same(label, first) {
            return true;
        }
    }
    false
}

/// How many indexes a set has.
fn indexes_of(label: &Label) -> usize
    ensures { result ≡ label.now.geometry.k + label.now.geometry.p }
{
    usize::from(label.geometry.k) + usize::from(label.geometry.p)
}
