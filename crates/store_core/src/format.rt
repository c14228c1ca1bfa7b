ghost use Rattle.std.specs.Prelude.{◌≡◌, ◌≢◌, ℕ, ◌*◌, ◌<◌, ◌≤◌, [], length, IfSome, IfErr, OnOk};
ghost use Rattle.smore_base.specs.declared.limits.TheConstants.{BLOCK_BYTES};
ghost use Rattle.smore_base.specs.Geometry.{IsWithinLimits};
ghost use Rattle.smore_base.specs.Told.{Told};
ghost use Rattle.zone_bay.specs.Outside.{Rose};
ghost use Rattle.zone_bay.specs.OneDevice.{CallsOn};
ghost use Rattle.marker_format.specs.Block.{label_block};
ghost use Rattle.array_model.specs.Kept.{IsFormatted};
ghost use Rattle.zone_bay.specs.Contents.{IsOfBay};
ghost use Rattle.store_core.specs.Format.{ZoneHolds, AreEmptied, DeviceHolds, IsFirmOn, KeepsFirm, KeepsNone};

use crate::blocks::BLOCK;
use crate::store::Core;
use marker_format::{LABEL_VERSION, Label, write_label_block};
use smore_base::Geometry;
use thiserror::Error;
use zone_bay::{Bay, Failed};

/// A call on this device failed while the array was formatted.
#[derive(Clone, Copy, Debug, PartialEq, Eq, Error)]
#[error("device {device} failed while it was formatted")]
pub struct FormatFailed {
    pub device: u8,
}

fn block_of(label: &Label) -> [u8; BLOCK]
    ensures { result ≡ label_block label.now }
{
    let mut block = [0; BLOCK];
    write_label_block(label, &mut block);
    block
}

fn empty_zone<B: Bay>(bay: &mut B, device: u8, zone: u16) -> Result<(), Failed>
    requires device_in { device < (B.state bay.old).shape.devices }
    requires zone_in { zone < (B.state bay.old).shape.zones }
    ensures ok { OnOk result (Told (B.state bay.old).contents (B.state bay.new).contents (ZoneHolds device zone [])) }
    ensures kept { KeepsFirm device (B.state bay.old) (B.state bay.new) }
    ensures calls { CallsOn device (B.state bay.old) (B.state bay.new) result }
{
    if bay.written(device, zone)? == 0 {
        return Ok(());
    }
    bay.reset(device, zone)?;
    Ok(())
}

fn empty_device<B: Bay>(bay: &mut B, device: u8) -> Result<(), Failed>
    requires { device < (B.state bay.old).shape.devices }
    ensures ok { OnOk result (Told (B.state bay.old).contents (B.state bay.new).contents (AreEmptied device (B.state bay.old).shape.zones)) }
    ensures kept { KeepsFirm device (B.state bay.old) (B.state bay.new) }
    ensures calls { CallsOn device (B.state bay.old) (B.state bay.new) result }
{
    for zone in 0..bay.zones() {
        empty_zone(bay, device, zone)?;
    }
    Ok(())
}

/// Puts a block into the empty first zone, and makes it firm.
fn begin_device<B: Bay>(bay: &mut B, device: u8, block: &[u8]) -> Result<(), Failed>
    requires device_in { device < (B.state bay.old).shape.devices }
    requires zone_in { 0 < (B.state bay.old).shape.zones }
    requires fits { length block.now ≤ BLOCK_BYTES * (B.state bay.old).shape.blocks }
    requires empty { IfSome (B.state bay.old).contents (λ held. held device 0 ≡ []) }
    ensures ok { OnOk result (Told (B.state bay.old).contents (B.state bay.new).contents (ZoneHolds device 0 block.now)) }
    ensures firm { OnOk result (IsFirmOn device (B.state bay.new)) }
    ensures kept { KeepsFirm device (B.state bay.old) (B.state bay.new) }
    ensures calls { CallsOn device (B.state bay.old) (B.state bay.new) result }
{
    bay.append(device, 0, block)?;
    bay.flush(device)?;
    Ok(())
}

fn format_device<B: Bay>(bay: &mut B, device: u8, block: &[u8]) -> Result<(), Failed>
    requires device_in { device < (B.state bay.old).shape.devices }
    requires zone_in { 0 < (B.state bay.old).shape.zones }
    requires fits { length block.now ≤ BLOCK_BYTES * (B.state bay.old).shape.blocks }
    ensures ok { OnOk result (Told (B.state bay.old).contents (B.state bay.new).contents (DeviceHolds device (B.state bay.old).shape.zones block.now)) }
    ensures firm { OnOk result (IsFirmOn device (B.state bay.new)) }
    ensures kept { KeepsFirm device (B.state bay.old) (B.state bay.new) }
    ensures calls { CallsOn device (B.state bay.old) (B.state bay.new) result }
{
    empty_device(bay, device)?;
    begin_device(bay, device, block)?;
    Ok(())
}

impl<B: Bay> Core<B> {
    /// Makes an array of this geometry: each zone that is written is reset, and each device gets its label.
    pub fn format(bay: &mut B, geometry: &Geometry, array: [u8; 16]) -> Result<(), FormatFailed>
        requires within { IsWithinLimits geometry.now }
        requires shaped { IsOfBay geometry.now (B.state bay.old).shape }
        ensures ok { OnOk result (Told (B.state bay.old).contents (B.state bay.new).contents
            (λ _ held. IsFormatted (record { geometry = geometry.now; id = array }) (B.state bay.old).shape held)) }
        ensures firm { OnOk result ((d : ℕ) → d < (B.state bay.old).shape.devices → IsFirmOn d (B.state bay.new)) }
        ensures keeps { OnOk result (KeepsNone (record { geometry = geometry.now; id = array }) (B.state bay.new)) }
        ensures counts { OnOk result ((d : ℕ) → (B.state bay.new).faults d ≡ (B.state bay.old).faults d) }
        ensures failed { IfErr result (λ failed. (failed.device < (B.state bay.old).shape.devices) × Rose ((B.state bay.old).faults failed.device) ((B.state bay.new).faults failed.device)) }
        ensures others { IfErr result (λ failed. (d : ℕ) → d ≢ failed.device → (B.state bay.new).faults d ≡ (B.state bay.old).faults d) }
        ensures shape { (B.state bay.new).shape ≡ (B.state bay.old).shape }
        ensures later { (B.state bay.old).moment ≤ (B.state bay.new).moment }
    {
        for device in 0..bay.devices() {
            let block = block_of(&Label {
                version: LABEL_VERSION,
                device,
                geometry: *geometry,
                array,
            });
            if format_device(bay, device, &block).is_err() {
                return Err(FormatFailed { device });
            }
        }
        Ok(())
    }
}
