ghost use Rattle.std.specs.Prelude.{◌<◌};

use bay_files::FileBay;
use smore_base::Geometry;
use std::fs;
use std::test::Fail;
use zone_bay::Bay;

const GEOMETRY: Geometry = Geometry {
    drives: 2,
    k: 1,
    p: 1,
    zones: 8,
    blocks: 128,
    shard: 1022,
};

/// Where the test is run.
const FOLDER: &str = "bay_files_array";

/// A call on a zone of drive 0.
#[derive(Clone, Copy)]
enum Call {
    Append(&'static [u8]),
    /// The first bytes are read, and the zone's length is asked.
    Read(&'static [u8], u32),
    Reset,
    Flush,
    Replace,
}

/// The calls, each with its zone and whether it is answered so.
const CALLS: [(u16, Call, bool); 14] = [
    (2, Call::Append(b"first"), true),
    (2, Call::Append(b"second"), true),
    (7, Call::Append(b"x"), true),
    (2, Call::Read(b"firsts", 11), true),
    (2, Call::Read(b"firstsecond.", 11), false),
    (2, Call::Flush, true),
    (2, Call::Reset, true),
    (2, Call::Read(b"", 0), true),
    (7, Call::Read(b"x", 1), true),
    (7, Call::Replace, true),
    (7, Call::Append(b"new"), true),
    (7, Call::Read(b"new", 3), true),
    (7, Call::Replace, true),
    (7, Call::Read(b"", 0), true),
];

/// Whether the call is answered, and a read by these bytes.
fn is_answered(bay: &mut FileBay<HostRuntime>, zone: u16, call: Call) -> bool
    requires { (0 < bay.old.line.devices) × (zone < bay.old.line.zones) }
{
    let answer = match call {
        Call::Append(bytes) => bay.append(0, zone, bytes),
        Call::Read(bytes, length) => return reads(bay, zone, bytes, length),
        Call::Reset => bay.reset(0, zone),
        Call::Flush => bay.flush(0),
        Call::Replace => bay.replace(0),
    };
    answer.is_ok()
}

fn reads(bay: &mut FileBay<HostRuntime>, zone: u16, bytes: &[u8], length: u32) -> bool
    requires { (0 < bay.old.line.devices) × (zone < bay.old.line.zones) }
{
    let mut out = [0; 16];
    let count = bytes.len().min(16);
    let out = &mut out[..count];
    bay.read(0, zone, 0, out).is_ok()
        && &*out == bytes
        && matches!(bay.written(0, zone), Ok(held) if held == length)
}

#[test]
fn files_keep_what_is_appended(rt: HostRuntime) -> Result<(), Fail> {
    for is_reopened in [false, true] {
        let mut bay = FileBay::create(rt.clone()?, FOLDER, &GEOMETRY);
        for (zone, call, wanted) in CALLS {
            // one program at a time
            assert_eq!(rt; FileBay::at(rt.clone()?, FOLDER).devices(), 0);
            if is_reopened {
                drop(bay);
                bay = FileBay::at(rt.clone()?, FOLDER);
            }
            assert!(rt; bay.devices() == 3 && zone < bay.zones());
            assert_eq!(rt; is_answered(&mut bay, zone, call), wanted);
        }
        drop(bay);
        fs::remove_dir_all(&rt, FOLDER)?;
    }
    assert_eq!(rt; FileBay::at(rt.clone()?, FOLDER).devices(), 0);
    Ok(())
}
