// What the program says on standard error where it ends with status 1.
ghost use Rattle.std.specs.Prelude.{◌≡◌};

use std::fmt::Display;
use std::io::Write;

/// Prints the text as the program's, and returns the exit status. A fault of `errors` is ignored.
pub fn report<E: Write, D: Display + Drop>(errors: &mut E, text: D) -> u8
    ensures { result ≡ 1 }
{
    let _ = writeln!(errors, "lsp_demo: {text}");
    1
}

/// Prints how the program is called, and returns the exit status. A fault of `errors` is ignored.
pub fn report_usage<E: Write>(errors: &mut E) -> u8
    ensures { result ≡ 1 }
{
    let _ = writeln!(errors, "usage: lsp_demo pump [LIMIT] | serve | tcp ADDR");
    1
}
