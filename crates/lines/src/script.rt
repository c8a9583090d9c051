// Where the lines of a script stand in an input.
ghost use Rattle.std.specs.Prelude.{◌≡◌};
ghost use Rattle.lines.specs.Script.{lines_in, script_of};

use text::split::first_line;
use text::word::is_word;

/// No script has more bytes.
pub const LONGEST_SCRIPT: usize = 65_536;

/// What a program reads of its input: one byte more, so that a longer one is seen, and not read whole.
pub const MOST_READ: u64 = LONGEST_SCRIPT as u64 + 1;

/// What stands after the line of names, where `input` is short enough and begins with it.
pub fn after_names(input: &[u8]) -> Option<&[u8]>
    ensures { lines_in result ≡ script_of input.now }
{
    if input.len() > LONGEST_SCRIPT {
        return None;
    }
    let (line, rest) = first_line(input)?;
    is_word(line, b"call slot generation value").then_some(rest)
}
