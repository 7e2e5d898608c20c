//! Bytes before and after another one.
ghost use Rattle.std.specs.Prelude.{◌≡◌, ◌+◌, ◌<◌, ◌==◌, IfSome, drop, length, take};
ghost use Rattle.std.specs.List.{position};

/// Returns the place of the first `byte`.
pub(crate) fn first_place(bytes: &[u8], byte: u8) -> Option<usize>
    ensures is { result ≡ position (λ other. other == byte) bytes.now }
    ensures within { IfSome result (λ i. i < length bytes.now) }
{
    for (i, other) in bytes.iter().enumerate() {
        if *other == byte {
            return Some(i);
        }
    }
    None
}

/// Returns the bytes before the one at `place`.
pub(crate) fn before(bytes: &[u8], place: usize) -> &[u8]
    requires { place < length bytes.now }
    ensures { result.now ≡ take place bytes.now }
{
    &bytes[..place]
}

/// Returns the bytes after the one at `place`.
pub(crate) fn after(bytes: &[u8], place: usize) -> &[u8]
    requires { place < length bytes.now }
    ensures { result.now ≡ drop (place + 1) bytes.now }
{
    &bytes[place + 1..]
}
