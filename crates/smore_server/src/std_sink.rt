ghost use Rattle.std.specs.Prelude.{◌≡◌, ◌<◌, ◌≤◌, length, None, IfSome};

use smore_top::Sink;
use std::io::{ErrorKind, Write};
use std::rt::Stdout;
use zone_bay::Failed;

/// A sink over a writer, as the standard output. It doesn't tell what it holds.
#[derive(Drop)]
pub struct StdSink<W = Stdout> {
    writer: W,
    faults: u64,
}

/// Writes bytes of the front, and sees that they come out. Nothing written of some bytes is a fault, as is an error.
fn write_front<W: Write>(writer: &mut W, bytes: &[u8]) -> Option<usize>
    ensures within { IfSome result (λ count. count ≤ length bytes.now) }
    ensures some { IfSome result (λ count. 0 < length bytes.now → 0 < count) }
{
    for _ in 0..u64::MAX {
        match writer.write(bytes) {
            Ok(0) if !bytes.is_empty() => return None,
            Ok(count) => {
                writer.flush().ok()?;
                return Some(count);
            }
            Err(error) if error.kind() == ErrorKind::Interrupted => {}
            Err(_) => return None,
        }
    }
    None
}

impl<W: Write> StdSink<W> {
    /// No fault is counted yet.
    pub fn new(writer: W) -> Self
        ensures { result.faults ≡ 0 }
    {
        StdSink { writer, faults: 0 }
    }
}

impl<W: Write> Sink for StdSink<W> {
    ghost held = { λ _. None };

    ghost faults = { λ s. s.faults };

    fn put(&mut self, bytes: &[u8]) -> Result<usize, Failed> {
        match write_front(&mut self.writer, bytes) {
            Some(count) => Ok(count),
            None => {
                self.faults = self.faults.saturating_add(1);
                Err(Failed)
            }
        }
    }
}

#[cfg(test)]
mod tests {
    use super::*;
    use std::io;

    /// Interrupted at first, then two bytes, then none, and then broken.
    #[derive(Drop)]
    struct Breaking(u8);

    impl Write for Breaking {
        fn write(&mut self, bytes: &[u8]) -> io::Result<usize> {
            self.0 = self.0.saturating_add(1);
            match self.0 {
                1 => Err(ErrorKind::Interrupted.into()),
                2 => Ok(bytes.len().min(2)),
                3 => Ok(0),
                _ => Err(ErrorKind::BrokenPipe.into()),
            }
        }

        fn flush(&mut self) -> io::Result<()> {
            Ok(())
        }
    }

    #[test]
    fn counts_each_fault(rt: HostRuntime) {
        let mut sink = StdSink::new(Breaking(0));
        assert_eq!(rt; sink.put(b"abc").ok(), Some(2));
        assert_eq!(rt; sink.faults, 0);
        assert_eq!(rt; sink.put(b"c").ok(), None);
        assert_eq!(rt; sink.put(b"c").ok(), None);
        assert_eq!(rt; sink.faults, 2);
    }
}
