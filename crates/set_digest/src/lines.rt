ghost use Rattle.std.specs.Prelude.{◌≡◌, ◌++◌, MatchResult};
ghost use Rattle.set_digest.specs.Lines.{IsList, spelling_of_list};

use crate::line::{Line, write_line};
use smore_base::{LINE_BYTES, Memory};

/// Bytes of a line, as an index.
const LINE: usize = LINE_BYTES as usize;

/// Appends the one spelling of a spelled list: 320 bytes a line. It takes its memory before it writes.
pub fn write_lines(lines: &[Line], out: &mut Vec<u8>) -> Result<(), Memory>
    requires { IsList lines.now }
    ensures { MatchResult result
        (λ _. out.new.items ≡ out.old.items ++ spelling_of_list lines.now)
        (λ _. out.new.items ≡ out.old.items) }
{
    out.reserve(LINE * lines.len())?;
    for line in lines {
        let mut spelled = [0; LINE];
        write_line(line, &mut spelled);
        let _ = out.extend_from_slice(&spelled);
    }
    Ok(())
}
