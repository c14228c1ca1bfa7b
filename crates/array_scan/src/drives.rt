//! Which drives are present.
ghost use Rattle.std.specs.Prelude.{◌≡◌, ◌<◌, IfSome, IfOk};
ghost use Rattle.std.specs.List.{AllByRecursion};
ghost use Rattle.smore_base.specs.Geometry.{IsWithinLimits};
ghost use Rattle.array_model.specs.Drives.{label_on, present, labels};
ghost use Rattle.array_scan.specs.Calls.{OnlyRead, lost_by};
ghost use Rattle.array_scan.specs.Drives.{unlabelled};

use crate::refusal::ScanRefusal;
use label_reader::read_bay_label;
use marker_format::Label;
use std::alloc::Global;
use zone_bay::Bay;

/// The label with which the device begins, where it is one of this bay.
fn read_label<B: Bay>(bay: &mut B, device: u8) -> Result<Option<Label>, ScanRefusal>
    ensures label { IfSome (B.state bay.old).contents (λ held. IfOk result
        (λ found. found ≡ label_on (B.state bay.old).shape held device)) }
    ensures limits { IfOk result (λ found. IfSome found (λ l. IsWithinLimits l.geometry)) }
    ensures reads { OnlyRead (B.state bay.old) (B.state bay.new) (lost_by result) }
{
    match read_bay_label(bay, device) {
        Ok(label) => Ok(label),
        Err(_) => Err(ScanRefusal::Lost { device }),
    }
}

/// The drives of an array that a scan found.
#[derive(Drop)]
pub struct Drives {
    /// Those that are present, by number.
    pub present: Vec<u8>,
    /// Their labels.
    pub labels: Vec<Label>,
    /// Those that aren't away and have no label of this bay.
    pub unlabelled: Vec<u8>,
}

/// The drives of the bay, of which some are away.
pub(crate) fn read_drives<B: Bay>(
    alloc: Global,
    bay: &mut B,
    away: &[u8],
) -> Result<Drives, ScanRefusal>
    ensures present { IfSome (B.state bay.old).contents (λ held. IfOk result
        (λ drives. drives.present.items ≡ present (B.state bay.old).shape held away.now)) }
    ensures labels { IfSome (B.state bay.old).contents (λ held. IfOk result
        (λ drives. drives.labels.items ≡ labels (B.state bay.old).shape held away.now)) }
    ensures unlabelled { IfSome (B.state bay.old).contents (λ held. IfOk result
        (λ drives. drives.unlabelled.items ≡ unlabelled (B.state bay.old).shape held away.now)) }
    ensures within { IfOk result (λ drives.
        AllByRecursion (λ d. d < (B.state bay.old).shape.devices) drives.present.items) }
    ensures limits { IfOk result (λ drives.
        AllByRecursion (λ l. IsWithinLimits l.geometry) drives.labels.items) }
    ensures reads { OnlyRead (B.state bay.old) (B.state bay.new) (lost_by result) }
{
    let mut drives = Drives {
        present: Vec::new(alloc),
        labels: Vec::new(alloc),
        unlabelled: Vec::new(alloc),
    };
    for drive in 0..bay.devices().saturating_sub(1) {
        if away.contains(&drive) {
            continue;
        }
        match read_label(bay, drive)? {
            Some(label) => {
                drives.present.push(drive)?;
                drives.labels.push(label)?;
            }
            None => drives.unlabelled.push(drive)?,
        }
    }
    Ok(drives)
}
