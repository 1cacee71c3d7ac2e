//! How names and paths are printed.
ghost use Rattle.std.specs.Prelude.{◌≡◌, ◌<◌, Some};
ghost use Rattle.syn_path.specs.Paths.{hex_digit_of, printed_char, printed_name, printed_form};

use crate::name::Name;
use crate::path::Path;
use std::fmt;

/// A character, where one that a terminal may take for a command, and the backslash, are `\x` and
/// two digits.
#[derive(Drop)]
struct Printed(char);

/// The lower case hexadecimal digit.
fn hex_digit(digit: u8) -> char
    requires { digit < 16 }
    ensures { result ≡ hex_digit_of digit }
{
    if digit < 10 {
        (b'0' + digit) as char
    } else {
        (b'a' + (digit - 10)) as char
    }
}

impl fmt::Display for Printed {
    ghost output = { λ c. Some (printed_char c.0) };

    fn fmt<W: fmt::Write>(&self, f: &mut fmt::Formatter<W>) -> fmt::Result {
        let c = self.0;
        if c < ' ' || c == '\x7f' || c == '\\' {
            let code = c as u8;
            let high = hex_digit(code / 16);
            let low = hex_digit(code % 16);
            write!(f, "\\x{high}{low}")
        } else {
            write!(f, "{c}")
        }
    }
}

impl fmt::Display for Name {
    ghost output = { λ name. Some (printed_name name) };

    fn fmt<W: fmt::Write>(&self, f: &mut fmt::Formatter<W>) -> fmt::Result {
        for c in self.as_str().chars() {
            write!(f, "{}", Printed(c))?;
        }
        Ok(())
    }
}

/// The text that `Path::parse` reads, with control characters and backslashes as `\x` and two lower
/// case digits.
impl fmt::Display for Path {
    ghost output = { λ path. Some (printed_form path) };

    fn fmt<W: fmt::Write>(&self, f: &mut fmt::Formatter<W>) -> fmt::Result {
        match self.names() {
            [] => write!(f, "."),
            [first, others @ ..] => {
                write!(f, "{first}")?;
                for name in others {
                    write!(f, "/{name}")?;
                }
                Ok(())
            }
        }
    }
}
