//! The plain scan.
ghost use Rattle.std.specs.Prelude.{◌≡◌, ◌<◌, IfSome, IfOk};
ghost use Rattle.std.specs.List.{AllByRecursion};
ghost use Rattle.smore_base.specs.Geometry.{IsWithinLimits};
ghost use Rattle.array_model.specs.Drives.{array_of};
ghost use Rattle.array_scan.specs.Calls.{OnlyRead, lost_by};
ghost use Rattle.array_scan.specs.Scan.{AreSetsOf, IsScanOf, AreInBay, IsInBay};

use crate::answers::Scan;
use crate::drives::read_drives;
use crate::heads::read_heads;
use crate::read_sets::read_sets;
use crate::refusal::ScanRefusal;
use crate::sets::Sets;
use marker_format::Label;
use std::alloc::Global;
use zone_bay::Bay;

/// Scans the bay without the devices that are `away`. It only reads. Where a device fails that isn't away, it gives up: the
/// caller may scan again without it.
pub fn scan<B: Bay>(alloc: Global, bay: &mut B, away: &[u8]) -> Result<Scan, ScanRefusal>
    ensures scan { IfSome (B.state bay.old).contents
        (λ held. IfOk result (IsScanOf (B.state bay.old).shape held away.now)) }
    ensures in_bay { IfOk result (IsInBay (B.state bay.old).shape) }
    ensures reads { OnlyRead (B.state bay.old) (B.state bay.new) (lost_by result) }
{
    let drives = read_drives(alloc, bay, away)?;
    let sets = scan_sets(alloc, bay, &drives.labels, &drives.present)?;
    Ok(Scan { drives, sets })
}

/// The sets on these drives, of the array that the first of the labels names.
fn scan_sets<B: Bay>(
    alloc: Global,
    bay: &mut B,
    labels: &[Label],
    drives: &[u8],
) -> Result<Sets, ScanRefusal>
    requires limits { AllByRecursion (λ l. IsWithinLimits l.geometry) labels.now }
    requires within { AllByRecursion (λ d. d < (B.state bay.old).shape.devices) drives.now }
    ensures sets { IfSome (B.state bay.old).contents (λ held. IfOk result
        (AreSetsOf (array_of labels.now) (B.state bay.old).shape held drives.now)) }
    ensures in_bay { IfOk result (AreInBay (array_of labels.now) (B.state bay.old).shape) }
    ensures reads { OnlyRead (B.state bay.old) (B.state bay.new) (lost_by result) }
{
    let Some(label) = labels.first() else {
        return Ok(Sets::of(alloc, 0, Vec::new(alloc))?);
    };
    let heads = read_heads(alloc, bay, label, drives)?;
    let read = read_sets(alloc, bay, label, &heads)?;
    Ok(Sets::of(alloc, label.geometry.k, read)?)
}
