//! Texts between the quotation marks of JSON.
ghost use Rattle.std.specs.Prelude.{◌≡◌, ◌++◌, ◌<◌, OnOk};
ghost use Rattle.scm_c_values.specs.Quoting.{escaped, escaped_text, hex_digit};

use std::alloc::AllocError;

/// Returns the hexadecimal digit of `number`.
fn hex_digit(number: u8) -> u8
    requires { number < 16 }
    ensures { result ≡ hex_digit number }
{
    if number < 10 {
        48 + number
    } else {
        87 + number
    }
}

/// Adds `byte` of a text to `out`, as JSON has it.
fn push_escaped(out: &mut Vec<u8>, byte: u8) -> Result<(), AllocError>
    ensures { OnOk result (out.new.items ≡ out.old.items ++ escaped byte) }
{
    if byte == 34 {
        out.extend_from_slice(&[92, 34])
    } else if byte == 92 {
        out.extend_from_slice(&[92, 92])
    } else if byte < 32 {
        let (high, low) = (hex_digit(byte / 16), hex_digit(byte % 16));
        out.extend_from_slice(&[92, 117, 48, 48, high, low])
    } else {
        out.extend_from_slice(&[byte])
    }
}

/// Adds the bytes of `text` to `out`, as JSON has them between quotation marks.
pub fn push_escaped_text(out: &mut Vec<u8>, text: &[u8]) -> Result<(), AllocError>
    ensures { OnOk result (out.new.items ≡ out.old.items ++ escaped_text text.now) }
{
    for byte in text {
        push_escaped(out, *byte)?;
    }
    Ok(())
}
