ghost use Rattle.std.specs.Prelude.{◌≡◌, ◌+◌, ◌*◌, ◌<◌, ◌≤◌, length, IfSome, IfOk, OnOk};
ghost use Rattle.smore_base.specs.declared.limits.TheConstants.{BLOCK_BYTES};
ghost use Rattle.zone_bay.specs.Contents.{Reads};
ghost use Rattle.zone_bay.specs.Bay.{BayState, IsSound, Written, Read, Append, Reset, Flush, Replace, Makes};

use crate::Failed;

/// An array: drives, and as the last device the flash. Each device has zones, to which bytes are only appended, and
/// which are emptied only whole.
///
/// Devices and zones are counted from 0. A call on a bay that doesn't tell what it holds, and for which a condition
/// on the contents doesn't hold, answers `Failed` and is counted.
pub trait Bay {
    /// All that the bay tells.
    ghost state: { Self → BayState };

    /// The number of devices, the flash among them.
    fn devices(&self) -> u8
        ensures { result ≡ (state self.now).shape.devices };

    /// The number of zones of each device.
    fn zones(&self) -> u16
        ensures { result ≡ (state self.now).shape.zones };

    /// The number of blocks of each zone.
    fn blocks(&self) -> u32
        ensures { result ≡ (state self.now).shape.blocks };

    /// The number of calls so far, of those that follow here.
    fn moment(&self) -> u64
        ensures { result ≡ (state self.now).moment };

    /// The number of bytes that the zone holds.
    fn written(&mut self, device: u8, zone: u16) -> Result<u32, Failed>
        requires device_in { device < (state self.old).shape.devices }
        requires zone_in { zone < (state self.old).shape.zones }
        ensures length { IfSome (state self.old).contents
            (λ held. IfOk result (λ bytes. bytes ≡ length (held device zone))) }
        ensures call { Makes (Written device zone) (state self.old) (state self.new) result };

    /// Fills `out` from the zone's byte `at` on.
    fn read(&mut self, device: u8, zone: u16, at: u32, out: &mut [u8]) -> Result<(), Failed>
        requires device_in { device < (state self.old).shape.devices }
        requires zone_in { zone < (state self.old).shape.zones }
        requires written { IfSome (state self.old).contents
            (λ held. at + length out.old ≤ length (held device zone)) }
        ensures bytes { IfSome (state self.old).contents
            (λ held. OnOk result (Reads (held device zone) at out.new)) }
        ensures call { Makes (Read device zone) (state self.old) (state self.new) result };

    /// Puts the bytes at the end of the zone. Where it fails, any prefix of them may stand there.
    fn append(&mut self, device: u8, zone: u16, bytes: &[u8]) -> Result<(), Failed>
        requires device_in { device < (state self.old).shape.devices }
        requires zone_in { zone < (state self.old).shape.zones }
        requires fits { IfSome (state self.old).contents
            (λ held. length (held device zone) + length bytes.now ≤ BLOCK_BYTES * (state self.old).shape.blocks) }
        ensures call { Makes (Append device zone bytes.now) (state self.old) (state self.new) result };

    /// Empties the zone. Where it fails, the zone may be as it was or empty.
    fn reset(&mut self, device: u8, zone: u16) -> Result<(), Failed>
        requires device_in { device < (state self.old).shape.devices }
        requires zone_in { zone < (state self.old).shape.zones }
        ensures call { Makes (Reset device zone) (state self.old) (state self.new) result };

    /// Makes firm all that the device holds. Where it fails, nothing more is firm.
    fn flush(&mut self, device: u8) -> Result<(), Failed>
        requires { device < (state self.old).shape.devices }
        ensures call { Makes (Flush device) (state self.old) (state self.new) result };

    /// Leaves the device blank and working. Where it fails, the device may be as it was or blank.
    fn replace(&mut self, device: u8) -> Result<(), Failed>
        requires { device < (state self.old).shape.devices }
        ensures call { Makes (Replace device) (state self.old) (state self.new) result };

    /// What a bay tells hangs together, at any moment.
    ghost sound: { (bay : Self) → IsSound (state bay) };
}
