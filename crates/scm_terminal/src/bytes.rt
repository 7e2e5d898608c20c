//! Classes of bytes: those of control sequences by ECMA-48, and those of UTF-8.
ghost use Rattle.std.specs.Prelude.{◌≡◌, ◌<◌};
ghost use Rattle.scm_terminal.specs.Bytes.{
  begins_control_string,
  begins_sequence,
  is_between,
  is_continuation,
  is_digit,
  is_final,
  is_parameter,
  has_bit,
};

/// The escape byte. It begins an escape sequence or a control string; alone it is the Esc key.
pub(crate) const ESCAPE: u8 = b'\x1b';

/// The byte of Ctrl-C.
pub(crate) const INTERRUPT: u8 = b'\x03';

/// The least byte that is no C0 control.
pub(crate) const SPACE: u8 = b' ';

/// Returns whether `byte` is in the range `low..=high`.
pub(crate) fn is_between(low: u8, high: u8, byte: u8) -> bool
    ensures { result ≡ is_between low high byte }
{
    low <= byte && byte <= high
}

/// Returns whether `byte` is a digit, `0` to `9`.
pub(crate) fn is_digit(byte: u8) -> bool
    ensures { result ≡ is_digit byte }
{
    is_between(b'0', b'9', byte)
}

/// Returns whether `byte` is a parameter byte or an intermediate byte of a control sequence.
#[tactic(auto, unfolding(crate::specs::Bytes::is_parameter))]
pub(crate) fn is_parameter(byte: u8) -> bool
    ensures { result ≡ is_parameter byte }
{
    is_between(b' ', b'?', byte)
}

/// Returns whether `byte` is a final byte of a control sequence.
#[tactic(auto, unfolding(crate::specs::Bytes::is_final))]
pub(crate) fn is_final(byte: u8) -> bool
    ensures { result ≡ is_final byte }
{
    is_between(b'@', b'~', byte)
}

/// Returns whether `byte` is a continuation byte of UTF-8.
#[tactic(auto, unfolding(crate::specs::Bytes::is_continuation))]
pub(crate) fn is_continuation(byte: u8) -> bool
    ensures { result ≡ is_continuation byte }
{
    is_between(128, 191, byte)
}

/// Returns whether `byte` after an escape begins an escape sequence with parameters: `[` (CSI) or
/// `O` (SS3).
pub(crate) fn begins_sequence(byte: u8) -> bool
    ensures { result ≡ begins_sequence byte }
{
    byte == b'[' || byte == b'O'
}

/// Returns whether `byte` after an escape begins a control string: DCS, SOS, OSC, PM or APC.
#[tactic(auto, unfolding(crate::specs::Bytes::begins_control_string))]
pub(crate) fn begins_control_string(byte: u8) -> bool
    ensures { result ≡ begins_control_string byte }
{
    byte == b'P' || byte == b'X' || is_between(b']', b'_', byte)
}

/// Returns whether the bit `unit` of `number` is set. `unit` is a power of two.
pub(crate) fn has_bit(unit: u16, number: u16) -> bool
    requires { 0 < unit }
    ensures { result ≡ has_bit unit number }
{
    number / unit % 2 == 1
}
