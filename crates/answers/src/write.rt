// Answers as lines of a text.
ghost use Rattle.std.specs.Prelude.{◌≡◌, ◌++◌, string_bytes, OnOk};
ghost use Rattle.answers.specs.Shown.{reply_of, reply_line};

use crate::answer::Answer;
use std::alloc::AllocError;

/// Only want of memory can make this fail, and the text is then not to be used.
pub fn add_line(out: &mut String, a: Answer) -> Result<(), AllocError>
    ensures { OnOk result (string_bytes out.new ≡ string_bytes out.old ++ reply_line (reply_of a)) }
{
    writeln!(out, "{a}")
}
