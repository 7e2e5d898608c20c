//! Whether a pattern occurs in a text.
ghost use Rattle.std.specs.Prelude.{◌≡◌, ◌+◌, ◌<◌, slice_get};
ghost use Rattle.std.specs.List.{list_any};
ghost use Rattle.scm_front_items.specs.Occurs.{begins, has_pattern, is_capital, is_seen, occurs, seen};

/// Returns whether `byte` is a capital letter of ASCII.
fn is_capital(byte: u8) -> bool
    ensures { result ≡ is_capital byte }
{
    65 <= byte && byte <= 90
}

/// Returns `byte` as a pattern sees it: as it is if `is_exact`, else a capital as its small letter.
fn seen(is_exact: bool, byte: u8) -> u8
    ensures { result ≡ seen is_exact byte }
{
    if is_exact {
        byte
    } else if is_capital(byte) {
        byte + 32
    } else {
        byte
    }
}

/// Returns whether there is a byte `index` of `text`, and the pattern sees it as `byte`.
fn is_seen(is_exact: bool, text: &[u8], index: usize, byte: u8) -> bool
    ensures { result ≡ is_seen is_exact (slice_get text.now index) byte }
{
    match text.get(index) {
        None => false,
        Some(shown) => seen(is_exact, *shown) == byte,
    }
}

/// Returns whether `text` begins with `pattern`.
fn begins(is_exact: bool, pattern: &[u8], text: &[u8]) -> bool
    ensures { result ≡ begins is_exact pattern.now text.now }
{
    for index in 0..pattern.len() {
        if !is_seen(is_exact, text, index, pattern[index]) {
            return false;
        }
    }
    true
}

/// Returns whether `pattern` occurs in `text`.
fn occurs(is_exact: bool, pattern: &[u8], text: &[u8]) -> bool
    ensures { result ≡ occurs is_exact pattern.now text.now }
{
    for index in 0..text.len() {
        if begins(is_exact, pattern, &text[index..]) {
            return true;
        }
    }
    begins(is_exact, pattern, &[])
}

/// Returns whether `pattern` has a capital letter of ASCII.
pub(crate) fn has_capital(pattern: &[u8]) -> bool
    ensures { result ≡ list_any is_capital pattern.now }
{
    pattern.iter().any(|byte| is_capital(*byte))
}

/// Returns whether `text` has `pattern`, if `is_exact` says whether the pattern has a capital. No text
/// has the empty pattern.
pub(crate) fn has_pattern(is_exact: bool, pattern: &[u8], text: &[u8]) -> bool
    requires { is_exact ≡ list_any is_capital pattern.now }
    ensures { result ≡ has_pattern pattern.now text.now }
{
    if pattern.is_empty() {
        false
    } else {
        occurs(is_exact, pattern, text)
    }
}
