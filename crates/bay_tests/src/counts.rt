ghost use Rattle.std.specs.Prelude.{◌≡◌, ℕ, ◌+◌, ◌*◌, ◌<◌, ◌≤◌, length, IfSome, IsErrAnd, IfErr, OnOk};
ghost use Rattle.zone_bay.specs.Images.{flushed};
ghost use Rattle.zone_bay.specs.Bay.{Becomes, held_in};
ghost use Rattle.zone_bay.specs.Stretch.{GoesToward, FailsToward};
ghost use Rattle.bay_tests.specs.Testing.{on_both};

use std::test::Fail;
use zone_bay::{
    Bay, Failed, all_firm_leaves_all, append_leaves_more, flush_leaves_fewer, instants,
    missing_devices, more_leaves_more, reset_leaves_nothing,
};

/// A bay of two devices that counts, and tells nothing of what it holds. A call fails where the device is broken, and at
/// the last moment.
#[derive(Drop)]
struct CountingBay {
    broken: u8,
    moment: u64,
    reads: u64,
    /// How often each device has failed.
    faults: [u64; 2],
}

impl CountingBay {
    ghost use Rattle.std.specs.Prelude.{◌≡◌, ◌<◌};
    ghost use Rattle.zone_bay.specs.Counts.{CountsCall};

    /// Counts a call on the device, and lets it fail where it is to.
    fn begin(&mut self, device: u8) -> Result<(), Failed>
        requires { device < 2 }
        ensures call { CountsCall device (⟦<CountingBay as Bay>⟧.state self.old) (⟦<CountingBay as Bay>⟧.state self.new) result }
        ensures reads { self.new.reads ≡ self.old.reads }
    {
        let fails = device == self.broken || self.moment == u64::MAX;
        self.moment = self.moment.saturating_add(1);
        if fails {
            let device = usize::from(device);
            self.faults[device] = self.faults[device].saturating_add(1);
            return Err(Failed);
        }
        Ok(())
    }
}

impl Bay for CountingBay {
    ghost use Rattle.std.specs.Prelude.{slice_index};
    ghost use Rattle.zone_bay.specs.Counts.{counts_alone, counts_are_sound};

    ghost state = { λ bay. counts_alone (record { shape = record { devices = 2; zones = 4; blocks = 128 }; faults = λ device. slice_index bay.faults device; moment = bay.moment; reads = bay.reads }) };

    ghost sound = { λ bay. counts_are_sound _ };

    fn devices(&self) -> u8 {
        2
    }

    fn zones(&self) -> u16 {
        4
    }

    fn blocks(&self) -> u32 {
        128
    }

    fn moment(&self) -> u64 {
        self.moment
    }

    fn written(&mut self, device: u8, _zone: u16) -> Result<u32, Failed> {
        self.begin(device)?;
        Ok(0)
    }

    fn read(&mut self, device: u8, _zone: u16, _at: u32, _out: &mut [u8]) -> Result<(), Failed> {
        if device == 0 {
            self.reads = self.reads.saturating_add(1);
        }
        self.begin(device)
    }

    fn append(&mut self, device: u8, _zone: u16, _bytes: &[u8]) -> Result<(), Failed> {
        self.begin(device)
    }

    fn reset(&mut self, device: u8, _zone: u16) -> Result<(), Failed> {
        self.begin(device)
    }

    fn flush(&mut self, device: u8) -> Result<(), Failed> {
        self.begin(device)
    }

    fn replace(&mut self, device: u8) -> Result<(), Failed> {
        self.begin(device)
    }
}

/// Puts the bytes at the end of a zone of devices 0 and 1, and makes them firm on device 0. Where a call fails, it tells the
/// device.
fn append_both<B: Bay>(bay: &mut B, zone: u16, bytes: &[u8]) -> Result<(), u8>
    requires devices { 2 ≤ (B.state bay.old).shape.devices }
    requires zone_in { zone < (B.state bay.old).shape.zones }
    requires fits { IfSome (B.state bay.old).contents
        (λ held. (d : ℕ) → length (held d zone) + length bytes.now ≤ 512 * (B.state bay.old).shape.blocks) }
    ensures done { OnOk result (Becomes (on_both zone bytes.now) (B.state bay.old) (B.state bay.new)) }
    ensures firm { OnOk result
        ((B.state bay.new).firm ≡ flushed 0 (held_in (B.state bay.new)) (B.state bay.old).firm) }
    // Whichever call fails, a crash since leaves an image of what was held with the bytes on both, and the firm lengths of
    // before; and only the device that is told has failed.
    ensures goes_toward { GoesToward (on_both zone bytes.now) (B.state bay.old) (B.state bay.new)
        (λ d _. IsErrAnd result (λ device. d ≡ device)) }
    ensures failed { IfErr result
        (λ device. FailsToward (on_both zone bytes.now) device (B.state bay.old) (B.state bay.new)) }
{
    if bay.append(0, zone, bytes).is_err() {
        return Err(0);
    }
    if bay.append(1, zone, bytes).is_err() {
        return Err(1);
    }
    if bay.flush(0).is_err() {
        return Err(0);
    }
    Ok(())
}

#[test]
fn each_call_counts(rt: HostRuntime) -> Result<(), Fail> {
    let mut bay = CountingBay {
        broken: 1,
        moment: 0,
        reads: 0,
        faults: [0, 0],
    };
    assert_eq!(rt; (bay.devices(), bay.zones(), bay.blocks()), (2, 4, 128));
    bay.append(0, 3, b"abc")?;
    assert_eq!(rt; bay.written(0, 3)?, 0);
    bay.read(0, 3, 1, &mut [0, 0])?;
    bay.reset(0, 3)?;
    assert!(rt; bay.read(1, 0, 0, &mut [0]).is_err());
    bay.flush(0)?;
    bay.replace(0)?;
    assert_eq!(rt; (bay.moment(), bay.reads, bay.faults), (7, 1, [0, 1]));
    assert_eq!(rt; append_both(&mut bay, 2, b"ab"), Err(1));
    assert_eq!(rt; (bay.moment(), bay.faults), (9, [0, 2]));
    Ok(())
}

#[test]
fn laws_hold() {
    flush_leaves_fewer();
    append_leaves_more();
    more_leaves_more();
    all_firm_leaves_all();
    reset_leaves_nothing();
    missing_devices();
    instants::<CountingBay>();
}

#[test]
fn a_failure_reads_as_text(rt: HostRuntime) -> Result<(), Fail> {
    let text = format!(in rt.alloc(); "{Failed}")?;
    assert_eq!(rt; text.as_str(), "a call on the outside failed");
    Ok(())
}
