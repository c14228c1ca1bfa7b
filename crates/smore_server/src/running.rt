ghost use Rattle.std.specs.Prelude.{◌≡◌, ◌↔◌};
ghost use Rattle.smore_top.specs.End.{status_of, end_of};
ghost use Rattle.smore_top.specs.Words.{IsCommandLine};

use crate::std_sink::StdSink;
use crate::std_source::StdSource;
use smore_top::{BAD_WORDS, Words, run_batch};
use std::alloc::Global;
use std::io::{Read, Write};
use zone_bay::Bay;

/// Runs the words over a reader, a writer and a bay, and tells the status.
pub(crate) fn run<R: Read, W: Write, B: Bay + Drop>(
    alloc: Global,
    words: &Words,
    reader: &mut R,
    writer: &mut W,
    bay: B,
) -> u8
    ensures known { status_of (end_of result) ≡ result }
    ensures words { (result ≡ BAD_WORDS) ↔ (IsCommandLine (B.state bay).shape words.now → ⊥) }
{
    let mut source = StdSource::new(reader);
    let mut sink = StdSink::new(writer);
    let (outcome, _bay) = run_batch(alloc, words, &mut source, &mut sink, bay);
    outcome.status
}

#[cfg(test)]
mod tests {
    use super::*;
    use bay_memory::MemoryBay;
    use smore_base::Geometry;
    use smore_top::Core;
    use std::io::{self, ErrorKind};
    use std::test::Fail;

    /// Gives two bytes at a time, and then its end, or an error.
    #[derive(Drop)]
    struct Input {
        rest: &'static [u8],
        breaks: bool,
    }

    impl Read for Input {
        fn read(&mut self, out: &mut [u8]) -> io::Result<usize> {
            if self.rest.is_empty() && self.breaks {
                return Err(ErrorKind::BrokenPipe.into());
            }
            let count = self.rest.len().min(out.len()).min(2);
            let (front, rest) = self.rest.split_at(count);
            out[..count].copy_from_slice(front);
            self.rest = rest;
            Ok(count)
        }
    }

    /// Keeps what is written. It comes out when it is flushed.
    #[derive(Drop)]
    struct Output {
        held: Vec<u8>,
        flushed: usize,
        breaks: bool,
    }

    impl Write for Output {
        fn write(&mut self, bytes: &[u8]) -> io::Result<usize> {
            if self.breaks || self.held.extend_from_slice(bytes).is_err() {
                return Err(ErrorKind::BrokenPipe.into());
            }
            Ok(bytes.len())
        }

        fn flush(&mut self) -> io::Result<()> {
            self.flushed = self.held.len();
            Ok(())
        }
    }

    /// What a run works on.
    #[derive(Clone, Copy)]
    enum Array {
        Blank,
        Formatted,
        /// The first call on it fails.
        Broken,
    }

    const GEOMETRY: Geometry = Geometry {
        drives: 2,
        k: 1,
        p: 1,
        zones: 8,
        blocks: 128,
        shard: 1022,
    };

    fn bay_of(alloc: Global, array: Array) -> Result<MemoryBay, Fail> {
        let mut bay = MemoryBay::new(alloc, 3, 8, 128)?;
        match array {
            Array::Blank => {}
            Array::Formatted => Core::format(&mut bay, &GEOMETRY, [7; 16])?,
            Array::Broken => bay.fail_at(&[0])?,
        }
        Ok(bay)
    }

    const FORMAT: &str = "format f 000102030405060708090a0b0c0d0e0f 2 1 1 8 128 1022";

    /// A put of `hello` under the name `a`, a get of `a`, and a stop.
    const PUT: &[u8] = b"\0\0\0\x09\x01\0\x01ahello";

    const PUT_GET_STOP: &[u8] = b"\0\0\0\x09\x01\0\x01ahello\0\0\0\x04\x02\0\x01a\0\0\0\x01\xff";

    const PUT_BAD: &[u8] = b"\0\0\0\x09\x01\0\x01ahello\0\0\0\x01\x20";

    const DONE: &[u8] = b"\0\0\0\x01\x01";

    const DONE_OBJECT: &[u8] = b"\0\0\0\x01\x01\0\0\0\x06\x02hello";

    #[test]
    fn tells_the_status(rt: HostRuntime) -> Result<(), Fail> {
        let alloc = rt.alloc();
        // the words, the array, the input and whether it breaks, whether the output does; the status and what came out
        let runs: [(&str, Array, &'static [u8], bool, bool, u8, &[u8]); 11] = [
            (
                "batch f",
                Array::Formatted,
                PUT_GET_STOP,
                false,
                false,
                0,
                DONE_OBJECT,
            ),
            ("batch f", Array::Formatted, PUT, false, false, 0, DONE),
            ("batch f", Array::Formatted, PUT, true, false, 3, DONE),
            ("batch f", Array::Formatted, PUT, false, true, 4, b""),
            ("batch f", Array::Formatted, PUT_BAD, false, false, 5, DONE),
            ("batch f", Array::Blank, PUT, false, false, 6, b""),
            ("", Array::Formatted, PUT, false, false, 2, b""),
            ("scan f", Array::Formatted, PUT, false, false, 2, b""),
            (FORMAT, Array::Blank, PUT, true, false, 0, b"formatted\n"),
            (FORMAT, Array::Blank, PUT, false, true, 4, b""),
            (FORMAT, Array::Broken, PUT, false, false, 11, b""),
        ];
        for (line, array, input, input_breaks, output_breaks, status, output) in runs {
            let mut words = Words::new(alloc);
            for word in line.split_whitespace() {
                words.append_word(word)?;
            }
            let mut reader = Input {
                rest: input,
                breaks: input_breaks,
            };
            let mut writer = Output {
                held: Vec::new(alloc),
                flushed: 0,
                breaks: output_breaks,
            };
            let bay = bay_of(alloc, array)?;
            let told = run(alloc, &words, &mut reader, &mut writer, bay);
            assert_eq!(rt; told, status, "of {line}");
            assert_eq!(rt;
                writer.held.get(..writer.flushed),
                Some(output),
                "of {line}"
            );
        }
        Ok(())
    }
}
