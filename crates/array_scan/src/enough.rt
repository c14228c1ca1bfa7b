//! Whether each set keeps enough carriers where drives leave.
ghost use Rattle.std.specs.Prelude.{◌≡◌, ◌+◌, ◌<◌, ℕ, ◌↔◌, Some, IsTrue, IfSome, IfOk};
ghost use Rattle.std.specs.List.{AllByRecursion, list_all};
ghost use Rattle.smore_base.specs.Geometry.{IsWithinLimits};
ghost use Rattle.array_model.specs.Drives.{outside};
ghost use Rattle.array_scan.specs.declared.judge.SetScan.{SetScan};
ghost use Rattle.array_scan.specs.Calls.{OnlyRead, lost_by};
ghost use Rattle.array_scan.specs.SetRead.{array_by};
ghost use Rattle.array_scan.specs.Scan.{AreSetsOf};
ghost use Rattle.array_scan.specs.Enough.{keeps, EachKeepsOn};

use crate::heads::{HeadAt, find_carriers, read_heads};
use crate::judge::SetScan;
use crate::refusal::ScanRefusal;
use crate::sets::Sets;
use marker_format::Label;
use smore_base::Memory;
use std::alloc::Global;
use zone_bay::Bay;

/// The drives that don't leave.
fn outside(alloc: Global, leaving: &[u8], drives: &[u8]) -> Result<Vec<u8>, Memory>
    ensures drives { IfOk result (λ others. others.items ≡ outside leaving.now drives.now) }
    ensures within { (most : ℕ) → AllByRecursion (λ d. d < most) drives.now
        → IfOk result (λ others. AllByRecursion (λ d. d < most) others.items) }
{
    let mut others = Vec::new(alloc);
    for drive in drives {
        if !leaving.contains(drive) {
            others.push(*drive)?;
        }
    }
    Ok(others)
}

/// Whether each of the sets has k carriers among the heads.
fn keep_all(
    alloc: Global,
    heads: &[HeadAt],
    sets: &[SetScan],
    k: u8,
    indexes: u8,
) -> Result<bool, Memory>
    ensures { IfOk result (λ kept. kept ≡ list_all (λ (s : SetScan). keeps k indexes heads.now s.read.id) sets.now) }
{
    for set in sets {
        if find_carriers(alloc, heads, set.read.id, indexes)?.len() < k as usize {
            return Ok(false);
        }
    }
    Ok(true)
}

/// Whether each set that is read has k carriers on the drives that stay.
pub(crate) fn keep_carriers<B: Bay>(
    alloc: Global,
    bay: &mut B,
    label: &Label,
    sets: &Sets,
    drives: &[u8],
    leaving: &[u8],
) -> Result<bool, ScanRefusal>
    requires limits { IsWithinLimits label.now.geometry }
    requires within { AllByRecursion (λ d. d < (B.state bay.old).shape.devices) drives.now }
    ensures kept { IfSome (B.state bay.old).contents (λ held. IfOk result (λ kept.
        let array = Some (array_by label.now) in
        let shape = (B.state bay.old).shape in AreSetsOf array shape held drives.now sets.now
        → IsTrue kept ↔ EachKeepsOn array shape held drives.now leaving.now)) }
    ensures reads { OnlyRead (B.state bay.old) (B.state bay.new) (lost_by result) }
{
    let others = outside(alloc, leaving, drives)?;
    let heads = read_heads(alloc, bay, label, &others)?;
    let indexes = label.geometry.k + label.geometry.p;
    Ok(keep_all(alloc, &heads, &sets.list, label.geometry.k, indexes)?)
}
