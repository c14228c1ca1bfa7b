ghost use Rattle.std.specs.Prelude.{◌≡◌, ◌<◌, length, take, MatchOption, IfSome, IfOk, IsTrue};
ghost use Rattle.smore_base.specs.declared.limits.TheConstants.{BLOCK_BYTES};
ghost use Rattle.smore_base.specs.Geometry.{IsWithinLimits};
ghost use Rattle.marker_format.specs.Label.{IsLabel};
ghost use Rattle.array_model.specs.Drives.{is_label_of_bay, label_on};
ghost use Rattle.zone_bay.specs.OneDevice.{ReadsOn};
ghost use Rattle.label_reader.specs.Label.{label_in};
ghost use Rattle.zone_bay.specs.Contents.{IsOfBay};

use marker_format::{LABEL_VERSION, Label, read_label_block};
use smore_base::BLOCK_BYTES;
use zone_bay::{Bay, Failed};

/// Bytes of a block, as an index.
const BLOCK: usize = BLOCK_BYTES as usize;

/// Whether it is the label of this device of a bay of this shape.
fn is_label_of(label: &Label, device: u8, devices: u8, zones: u16, blocks: u32) -> bool
    ensures ours { result ≡ is_label_of_bay (record { devices = devices; zones = zones; blocks = blocks }) device label.now }
    ensures within { IsTrue result → IsWithinLimits label.now.geometry }
    ensures shape { IsTrue result → IsOfBay label.now.geometry (record { devices = devices; zones = zones; blocks = blocks }) }
{
    let geometry = &label.geometry;
    label.version == LABEL_VERSION
        && geometry.check().is_ok()
        && label.device == device
        && u16::from(geometry.drives) + 1 == u16::from(devices)
        && geometry.zones == zones
        && geometry.blocks == blocks
}

/// The first block of the device, or `None` where it holds fewer bytes.
fn first_block<B: Bay>(bay: &mut B, device: u8) -> Result<Option<[u8; BLOCK]>, Failed>
    requires device_in { device < (B.state bay.old).shape.devices }
    requires zone_in { 0 < (B.state bay.old).shape.zones }
    ensures block { IfSome (B.state bay.old).contents (λ held. IfOk result (λ block. MatchOption block
        (length (held device 0) < BLOCK_BYTES)
        (λ bytes. bytes ≡ take BLOCK_BYTES (held device 0)))) }
    ensures reads { ReadsOn device (B.state bay.old) (B.state bay.new) result }
{
    if bay.written(device, 0)? < BLOCK_BYTES {
        return Ok(None);
    }
    let mut block = [0; BLOCK];
    bay.read(device, 0, 0, &mut block)?;
    Ok(Some(block))
}

/// The label that the block holds.
fn label_in(block: &[u8; BLOCK]) -> Option<Label>
    ensures label { result ≡ label_in block.now }
    ensures fits { IfSome result IsLabel }
{
    read_label_block(block)
}

/// The label with which the device begins, of whatever array.
fn first_label<B: Bay>(bay: &mut B, device: u8) -> Result<Option<Label>, Failed>
    requires device_in { device < (B.state bay.old).shape.devices }
    requires zone_in { 0 < (B.state bay.old).shape.zones }
    ensures label { IfSome (B.state bay.old).contents
        (λ held. IfOk result (λ label. label ≡ label_in (take BLOCK_BYTES (held device 0)))) }
    ensures fits { IfOk result (λ label. IfSome label IsLabel) }
    ensures reads { ReadsOn device (B.state bay.old) (B.state bay.new) result }
{
    match first_block(bay, device)? {
        None => Ok(None),
        Some(block) => Ok(label_in(&block)),
    }
}

/// The label with which the device begins, where it is a label of this bay and this device.
pub fn read_bay_label<B: Bay>(bay: &mut B, device: u8) -> Result<Option<Label>, Failed>
    ensures label { IfSome (B.state bay.old).contents
        (λ held. IfOk result (λ label. label ≡ label_on (B.state bay.old).shape held device)) }
    ensures within { IfOk result (λ label. IfSome label (λ l. IsWithinLimits l.geometry)) }
    ensures shape { IfOk result (λ label. IfSome label (λ l. IsOfBay l.geometry (B.state bay.old).shape)) }
    ensures version { IfOk result (λ label. IfSome label (λ l. (l.version ≡ 1) × (l.device ≡ device))) }
    ensures reads { ReadsOn device (B.state bay.old) (B.state bay.new) result }
{
    let devices = bay.devices();
    let zones = bay.zones();
    let blocks = bay.blocks();
    if device >= devices || zones == 0 {
        return Ok(None);
    }
    let Some(label) = first_label(bay, device)? else {
        return Ok(None);
    };
    if !is_label_of(&label, device, devices, zones, blocks) {
        return Ok(None);
    }
    Ok(Some(label))
}
