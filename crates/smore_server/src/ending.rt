ghost use Rattle.std.specs.Prelude.{◌≡◌};
ghost use Rattle.std.specs.Process.{exit_status};

use log::{Log, error};
use std::process::ExitCode;

/// The end of the program with this status. Where it isn't 0, a line to the standard error tells it; where the line can't be
/// written it is dropped.
pub(crate) fn ended<L: Log>(log: &L, status: u8) -> ExitCode
    ensures { exit_status result ≡ status }
{
    if status != 0 {
        error!(log; target: "smore_server", "ended with status {status}");
    }
    ExitCode::from(status)
}

#[cfg(test)]
mod tests {
    use super::*;
    use log::sink::Memory;
    use std::test::Fail;

    #[test]
    fn tells_a_status_that_is_not_0(rt: HostRuntime) -> Result<(), Fail> {
        let log = Memory::new(rt.alloc());
        for status in [0, 6, 11] {
            let _ = ended(&log, status);
        }
        let lines = log.into_lines();
        assert_eq!(rt; lines.as_slice().len(), 2);
        assert_eq!(rt;
            lines.as_slice()[0].as_str(),
            "[ERROR smore_server] ended with status 6"
        );
        assert_eq!(rt;
            lines.as_slice()[1].as_str(),
            "[ERROR smore_server] ended with status 11"
        );
        Ok(())
    }
}
