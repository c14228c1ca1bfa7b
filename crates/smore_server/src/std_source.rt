ghost use Rattle.std.specs.Prelude.{◌≡◌, ◌≤◌, length, None, IfSome};

use smore_top::Source;
use std::io::{ErrorKind, Read};
use std::rt::Stdin;
use zone_bay::Failed;

/// A source over a reader, as the standard input. It doesn't tell what is left.
#[derive(Drop)]
pub struct StdSource<R = Stdin> {
    reader: R,
    faults: u64,
}

/// Reads bytes to the front. A read that was interrupted is tried again.
fn read_front<R: Read>(reader: &mut R, out: &mut [u8]) -> Option<usize>
    ensures { IfSome result (λ count. count ≤ length out.new) }
{
    for _ in 0..u64::MAX {
        match reader.read(out) {
            Ok(count) => return Some(count),
            Err(error) if error.kind() == ErrorKind::Interrupted => {}
            Err(_) => return None,
        }
    }
    None
}

impl<R: Read> StdSource<R> {
    /// No fault is counted yet.
    pub fn new(reader: R) -> Self
        ensures { result.faults ≡ 0 }
    {
        StdSource { reader, faults: 0 }
    }
}

impl<R: Read> Source for StdSource<R> {
    ghost left = { λ _. None };

    ghost faults = { λ s. s.faults };

    fn take(&mut self, out: &mut [u8]) -> Result<usize, Failed> {
        match read_front(&mut self.reader, out) {
            Some(count) => Ok(count),
            None => {
                self.faults = self.faults.saturating_add(1);
                Err(Failed)
            }
        }
    }
}

#[cfg(test)]
mod tests {
    use super::*;
    use std::io;

    /// Interrupted at first, then two bytes, and then broken.
    #[derive(Drop)]
    struct Breaking(u8);

    impl Read for Breaking {
        fn read(&mut self, out: &mut [u8]) -> io::Result<usize> {
            self.0 = self.0.saturating_add(1);
            match self.0 {
                1 => Err(ErrorKind::Interrupted.into()),
                2 => Ok(out.len().min(2)),
                _ => Err(ErrorKind::BrokenPipe.into()),
            }
        }
    }

    #[test]
    fn counts_each_fault(rt: HostRuntime) {
        let mut source = StdSource::new(Breaking(0));
        let mut out = [0; 4];
        assert_eq!(rt; source.take(&mut out).ok(), Some(2));
        assert_eq!(rt; source.faults, 0);
        assert_eq!(rt; source.take(&mut out).ok(), None);
        assert_eq!(rt; source.take(&mut out).ok(), None);
        assert_eq!(rt; source.faults, 2);
    }
}
