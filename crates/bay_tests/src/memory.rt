//! Calls on an array of two devices in memory, and what crashes leave of it.

use Call::{Append, Flush, Read, Replace, Reset, Written};
use Step::{Asked, Crash, Cut, Done, Fails, Listed, Lost, NoImage, Taken};
use bay_memory::{Image, Keep, MemoryBay};
use std::process::Abort;
use std::test::Fail;
use zone_bay::{Bay, Failed};

/// A call on a device and mostly a zone of it, with what it writes or is to tell.
#[derive(Clone, Copy)]
enum Call {
    Written(u8, u16, u32),
    Read(u8, u16, u32, [u8; 2]),
    Append(u8, u16, &'static str),
    Reset(u8, u16),
    Flush(u8),
    Replace(u8),
}

/// What is done to a bay. Beside it stands what the zones hold then, or those of the image, by device and parted by bars.
#[derive(Clone, Copy)]
enum Step {
    /// A call is answered.
    Done(Call),
    Fails(Call),
    /// These calls are listed.
    Listed(&'static [u64]),
    Lost(u8),
    /// A crash that removes these devices leaves this image.
    Crash(Keep, &'static [u8]),
    /// One that leaves of zone 1 of device 0 only so many bytes leaves this one.
    Cut(u32),
    /// The image of this call is asked for, when so many bytes are done.
    Asked(u64, u32),
    /// The image that was asked for is this one.
    Taken,
    NoImage,
}

fn make(rt: &impl Abort, bay: &mut MemoryBay, call: Call) -> Result<(), Failed> {
    match call {
        Written(device, zone, bytes) => {
            assert!(rt; device < bay.devices() && zone < bay.zones());
            assert_eq!(rt; bay.written(device, zone)?, bytes);
            Ok(())
        }
        Read(device, zone, at, bytes) => {
            let mut out = [0, 0];
            assert!(rt; device < bay.devices() && zone < bay.zones());
            assert!(rt; at < 500 && at as usize + 2 <= bay.held(device, zone).len());
            let read = bay.read(device, zone, at, &mut out);
            assert_eq!(rt; out, if read.is_ok() { bytes } else { [0, 0] });
            read
        }
        Append(device, zone, text) => {
            let bytes = text.as_bytes();
            assert!(rt; device < bay.devices() && zone < bay.zones() && bay.blocks() > 0);
            assert!(rt; bay.held(device, zone).len() <= 256 && bytes.len() <= 256);
            bay.append(device, zone, bytes)
        }
        Reset(device, zone) => {
            assert!(rt; device < bay.devices() && zone < bay.zones());
            bay.reset(device, zone)
        }
        Flush(device) => {
            assert!(rt; device < bay.devices());
            bay.flush(device)
        }
        Replace(device) => {
            assert!(rt; device < bay.devices());
            bay.replace(device)
        }
    }
}

fn assert_zones(rt: &impl Abort, image: &Image, moment: u64, want: &str) {
    assert_eq!(rt; (image.devices(), image.zones(), image.blocks()), (2, 2, 1));
    for (index, text) in (0..4).zip(want.split('|')) {
        let device = index / 2;
        let zone = u16::from(index % 2);
        assert!(rt; device < image.devices() && zone < image.zones());
        assert_eq!(rt;
            image.held(device, zone),
            text.as_bytes(),
            "at {moment}, zone {zone} of {device}"
        );
    }
}

/// All, but of zone 1 of device 0 only so many bytes.
fn cut(bytes: u32) -> Keep {
    Keep::Short {
        device: 0,
        zone: 1,
        bytes,
    }
}

/// The image that a step has beside it.
fn image_of(rt: &impl Abort, bay: &mut MemoryBay, step: Step) -> Result<Image, Fail> {
    match step {
        Done(call) => make(rt, bay, call)?,
        Fails(call) => assert!(rt; make(rt, bay, call).is_err()),
        Listed(calls) => bay.fail_at(calls)?,
        Lost(device) => {
            assert!(rt; device < bay.devices());
            bay.lose(device);
        }
        Crash(keep, removed) => return Ok(bay.crash(keep, removed)?),
        Cut(bytes) => return Ok(bay.crash(cut(bytes), &[])?),
        Asked(call, bytes) => bay.image_at(call, bytes),
        Taken => return Ok(bay.taken().ok_or("no image")?),
        NoImage => assert!(rt; bay.taken().is_none()),
    }
    Ok(bay.crash(Keep::All, &[])?)
}

/// Takes the steps with a bay of which no call was made.
fn take_steps(
    rt: &impl Abort,
    bay: &mut MemoryBay,
    steps: &[(Step, &'static str)],
) -> Result<(), Fail> {
    assert_eq!(rt; bay.moment(), 0);
    for (step, zones) in steps {
        let before = bay.moment();
        let image = image_of(rt, bay, *step)?;
        assert_zones(rt, &image, before, zones);
        let calls = u64::from(matches!(step, Done(_) | Fails(_)));
        assert_eq!(rt; Some(bay.moment()), before.checked_add(calls));
    }
    Ok(())
}

const CALLS: [(Step, &str); 12] = [
    (Done(Append(0, 1, "ab")), "|ab||"),
    (Done(Append(1, 0, "flash")), "|ab|flash|"),
    (Done(Append(0, 1, "cde")), "|abcde|flash|"),
    (Done(Written(0, 1, 5)), "|abcde|flash|"),
    (Done(Flush(0)), "|abcde|flash|"),
    (Done(Read(0, 1, 2, *b"cd")), "|abcde|flash|"),
    (Done(Read(1, 0, 3, *b"sh")), "|abcde|flash|"),
    (Done(Reset(0, 1)), "||flash|"),
    (Done(Append(0, 1, "y")), "|y|flash|"),
    (Done(Append(0, 0, "x")), "x|y|flash|"),
    (Done(Replace(0)), "||flash|"),
    (Done(Append(0, 0, "z")), "z||flash|"),
];

#[test]
fn calls_succeed(rt: HostRuntime) -> Result<(), Fail> {
    take_steps(&rt, &mut MemoryBay::new(rt.alloc(), 2, 2, 1)?, &CALLS)
}

const LISTED_CALLS: [(Step, &str); 12] = [
    (Listed(&[1, 2, 3, 4]), "|||"),
    (Listed(&[6, 7, 8, 200]), "|||"),
    (Done(Append(0, 1, "abc")), "|abc||"),
    (Fails(Append(0, 1, "de")), "|abc||"),
    (Fails(Reset(0, 1)), "|abc||"),
    (Fails(Replace(0)), "|abc||"),
    (Fails(Append(1, 0, "flash")), "|abc||"),
    (Done(Append(1, 0, "flash")), "|abc|flash|"),
    (Fails(Written(1, 0, 5)), "|abc|flash|"),
    (Fails(Read(0, 1, 0, *b"ab")), "|abc|flash|"),
    (Fails(Flush(0)), "|abc|flash|"),
    (Done(Read(0, 1, 1, *b"bc")), "|abc|flash|"),
];

#[test]
fn listed_calls_fail(rt: HostRuntime) -> Result<(), Fail> {
    take_steps(
        &rt,
        &mut MemoryBay::new(rt.alloc(), 2, 2, 1)?,
        &LISTED_CALLS,
    )
}

const CRASHES: [(Step, &str); 37] = [
    (Done(Append(0, 1, "0123456789")), "|0123456789||"),
    (Crash(Keep::Firm, &[]), "|||"),
    (Crash(Keep::All, &[]), "|0123456789||"),
    (Cut(3), "|012||"),
    (Done(Flush(1)), "|0123456789||"),
    (Crash(Keep::Firm, &[]), "|||"),
    (Crash(Keep::All, &[]), "|0123456789||"),
    (Cut(3), "|012||"),
    (Done(Flush(0)), "|0123456789||"),
    (Crash(Keep::Firm, &[]), "|0123456789||"),
    (Crash(Keep::All, &[]), "|0123456789||"),
    (Cut(3), "|0123456789||"),
    (Done(Append(0, 1, "abcd")), "|0123456789abcd||"),
    (Crash(Keep::Firm, &[]), "|0123456789||"),
    (Crash(Keep::All, &[]), "|0123456789abcd||"),
    (Cut(3), "|0123456789||"),
    (Cut(12), "|0123456789ab||"),
    (Cut(99), "|0123456789abcd||"),
    (Done(Append(1, 0, "flash")), "|0123456789abcd|flash|"),
    (Crash(Keep::Firm, &[]), "|0123456789||"),
    (Cut(12), "|0123456789ab|flash|"),
    (Crash(Keep::All, &[0]), "||flash|"),
    (Crash(Keep::All, &[1]), "|0123456789abcd||"),
    (Crash(Keep::All, &[2, 255]), "|0123456789abcd|flash|"),
    (Crash(Keep::All, &[7, 1, 1]), "|0123456789abcd||"),
    (Crash(Keep::Firm, &[1, 0]), "|||"),
    (Done(Append(0, 0, "x")), "x|0123456789abcd|flash|"),
    (Crash(Keep::Firm, &[]), "|0123456789||"),
    (Done(Reset(0, 1)), "x||flash|"),
    (Crash(Keep::Firm, &[]), "|||"),
    (Done(Append(0, 1, "y")), "x|y|flash|"),
    (Crash(Keep::Firm, &[]), "|||"),
    (Done(Flush(0)), "x|y|flash|"),
    (Crash(Keep::Firm, &[]), "x|y||"),
    (Done(Replace(0)), "||flash|"),
    (Done(Append(0, 1, "z")), "|z|flash|"),
    (Crash(Keep::Firm, &[]), "|||"),
];

#[test]
fn crashes(rt: HostRuntime) -> Result<(), Fail> {
    take_steps(&rt, &mut MemoryBay::new(rt.alloc(), 2, 2, 1)?, &CRASHES)
}

const IMAGES: [(Step, &str); 44] = [
    (NoImage, "|||"),
    (Asked(0, 0), "|||"),
    (NoImage, "|||"),
    (Done(Append(0, 1, "abcdef")), "|abcdef||"),
    (Taken, "|||"),
    (NoImage, "|abcdef||"),
    (Asked(1, 3), "|abcdef||"),
    (Done(Append(1, 0, "ABCDEF")), "|abcdef|ABCDEF|"),
    (Taken, "|abcdef|ABC|"),
    (Asked(2, 6), "|abcdef|ABCDEF|"),
    (Done(Append(0, 1, "ghijkl")), "|abcdefghijkl|ABCDEF|"),
    (Taken, "|abcdefghijkl|ABCDEF|"),
    (Asked(3, 9), "|abcdefghijkl|ABCDEF|"),
    (Done(Append(0, 0, "012345")), "012345|abcdefghijkl|ABCDEF|"),
    (Taken, "012345|abcdefghijkl|ABCDEF|"),
    // A reset and a replace are not done, and a flush puts nothing there.
    (Asked(4, 9), "012345|abcdefghijkl|ABCDEF|"),
    (Done(Reset(0, 1)), "012345||ABCDEF|"),
    (Taken, "012345|abcdefghijkl|ABCDEF|"),
    (Asked(5, 9), "012345||ABCDEF|"),
    (Done(Flush(0)), "012345||ABCDEF|"),
    (Taken, "012345||ABCDEF|"),
    (Asked(6, 9), "012345||ABCDEF|"),
    (Done(Replace(0)), "||ABCDEF|"),
    (Taken, "012345||ABCDEF|"),
    // Nor is a call that fails.
    (Listed(&[7, 8]), "||ABCDEF|"),
    (Asked(7, 3), "||ABCDEF|"),
    (Fails(Append(1, 0, "GHI")), "||ABCDEF|"),
    (Taken, "||ABCDEF|"),
    (Asked(8, 0), "||ABCDEF|"),
    (Fails(Reset(1, 0)), "||ABCDEF|"),
    (Taken, "||ABCDEF|"),
    // It comes at its call, and not before it.
    (Asked(10, 1), "||ABCDEF|"),
    (Done(Append(1, 0, "G")), "||ABCDEFG|"),
    (NoImage, "||ABCDEFG|"),
    (Done(Append(1, 0, "HI")), "||ABCDEFGHI|"),
    (Done(Written(1, 0, 9)), "||ABCDEFGHI|"),
    (Taken, "||ABCDEFGH|"),
    // A later wish takes the place of an earlier one, and of its image.
    (Asked(12, 0), "||ABCDEFGHI|"),
    (Asked(13, 0), "||ABCDEFGHI|"),
    (Done(Reset(1, 0)), "|||"),
    (NoImage, "|||"),
    (Done(Append(0, 0, "x")), "x|||"),
    (Asked(12, 0), "x|||"),
    (NoImage, "x|||"),
];

#[test]
fn images_of_calls(rt: HostRuntime) -> Result<(), Fail> {
    take_steps(&rt, &mut MemoryBay::new(rt.alloc(), 2, 2, 1)?, &IMAGES)
}

const LOST: [(Step, &str); 24] = [
    (Done(Append(0, 1, "abc")), "|abc||"),
    (Done(Append(1, 0, "flash")), "|abc|flash|"),
    (Lost(0), "|abc|flash|"),
    (Fails(Written(0, 1, 3)), "|abc|flash|"),
    (Fails(Read(0, 1, 0, *b"ab")), "|abc|flash|"),
    (Fails(Append(0, 0, "x")), "|abc|flash|"),
    (Fails(Reset(0, 1)), "|abc|flash|"),
    (Fails(Flush(0)), "|abc|flash|"),
    (Crash(Keep::Firm, &[]), "|||"),
    (Crash(Keep::All, &[]), "|abc|flash|"),
    (Done(Written(1, 0, 5)), "|abc|flash|"),
    (Done(Read(1, 0, 3, *b"sh")), "|abc|flash|"),
    (Done(Flush(1)), "|abc|flash|"),
    (Done(Reset(1, 0)), "|abc||"),
    (Done(Append(1, 0, "flash")), "|abc|flash|"),
    (Listed(&[12]), "|abc|flash|"),
    (Fails(Replace(0)), "|abc|flash|"),
    (Fails(Written(0, 1, 3)), "|abc|flash|"),
    (Done(Replace(0)), "||flash|"),
    (Done(Written(0, 1, 0)), "||flash|"),
    (Done(Append(0, 1, "def")), "|def|flash|"),
    (Done(Read(0, 1, 1, *b"ef")), "|def|flash|"),
    (Done(Flush(0)), "|def|flash|"),
    (Done(Reset(0, 1)), "||flash|"),
];

#[test]
fn lost_until_replaced(rt: HostRuntime) -> Result<(), Fail> {
    take_steps(&rt, &mut MemoryBay::new(rt.alloc(), 2, 2, 1)?, &LOST)
}

const BEFORE_CRASH: [(Step, &str); 8] = [
    (Done(Append(0, 1, "abc")), "|abc||"),
    (Done(Flush(0)), "|abc||"),
    (Done(Append(0, 1, "def")), "|abcdef||"),
    (Done(Append(1, 0, "flash")), "|abcdef|flash|"),
    (Listed(&[4, 5, 6, 7]), "|abcdef|flash|"),
    (Fails(Written(1, 0, 5)), "|abcdef|flash|"),
    (Lost(0), "|abcdef|flash|"),
    (Asked(6, 0), "|abcdef|flash|"),
];

const AFTER_CRASH: [(Step, &str); 16] = [
    (Crash(Keep::Firm, &[]), "|abcd||"),
    (Cut(1), "|abcd||"),
    (Done(Written(0, 1, 4)), "|abcd||"),
    (Done(Read(0, 1, 2, *b"cd")), "|abcd||"),
    (Done(Append(0, 1, "x")), "|abcdx||"),
    (Done(Append(0, 0, "y")), "y|abcdx||"),
    (Done(Append(1, 0, "new")), "y|abcdx|new|"),
    (Crash(Keep::Firm, &[]), "|abcd||"),
    (Crash(Keep::All, &[]), "y|abcdx|new|"),
    (Done(Flush(0)), "y|abcdx|new|"),
    (Crash(Keep::Firm, &[]), "y|abcdx||"),
    (Done(Reset(0, 1)), "y||new|"),
    (Crash(Keep::Firm, &[]), "y|||"),
    (Done(Flush(1)), "y||new|"),
    (Crash(Keep::Firm, &[0]), "||new|"),
    (NoImage, "y||new|"),
];

#[test]
fn a_bay_goes_on_from_an_image(rt: HostRuntime) -> Result<(), Fail> {
    let mut bay = MemoryBay::new(rt.alloc(), 2, 2, 1)?;
    take_steps(&rt, &mut bay, &BEFORE_CRASH)?;
    let image = bay.crash(cut(4), &[1])?;
    take_steps(
        &rt,
        &mut MemoryBay::from_image(rt.alloc(), image),
        &AFTER_CRASH,
    )
}

#[test]
fn zones_of_four_gib_are_refused(rt: HostRuntime) -> Result<(), Fail> {
    assert!(rt; MemoryBay::new(rt.alloc(), 1, 1, 1 << 23).is_err());
    let bay = MemoryBay::new(rt.alloc(), 1, 1, (1 << 23) - 1)?;
    assert_eq!(rt; bay.blocks(), 8_388_607);
    Ok(())
}
