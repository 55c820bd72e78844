//! Numbers, printed.

ghost use Rattle.std.specs.Prelude.{◌≡◌, ◌<◌, ◌+◌, ◌++◌, ◌∷◌, [], decimal, string_bytes, OnOk};

use std::alloc::AllocError;

/// Appends the digits of a number to a text.
pub fn print_number(out: &mut String, number: u64) -> Result<(), AllocError>
    ensures { OnOk result (string_bytes out.new ≡ string_bytes out.old ++ decimal number) }
{
    if number < 10 {
        return print_digit(out, number as u8);
    }
    print_number(out, number / 10)?;
    print_digit(out, (number % 10) as u8)
}

fn print_digit(out: &mut String, digit: u8) -> Result<(), AllocError>
    requires { digit < 10 }
    ensures { OnOk result (string_bytes out.new ≡ string_bytes out.old ++ (48 + digit) ∷ []) }
{
    out.push(char::from(b'0' + digit))
}
