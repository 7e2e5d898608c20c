//! Names that a file system takes for another name.
ghost use Rattle.std.specs.Prelude.{◌≡◌, ◌+◌, ◌<◌, ◌≤◌, ◌||◌, false, IfSome, MatchOption, drop, length, slice_index, take};
ghost use Rattle.std.specs.List.{position};
ghost use Rattle.scm_tree.specs.Folding.{begins, begins_ignorable, has_part, is_backslash, is_between, is_dot_or_blank, is_ignorable, is_letter, is_on_hfs, is_on_ntfs, is_passed, is_same, is_taken_for, letters, small, IsNext};

use crate::bytes::{after, before, first_place};

/// Returns the small letter of a capital letter, and each other byte itself.
fn small(byte: u8) -> u8
    ensures { result ≡ small byte }
{
    if (byte > 64) & (byte < 91) {
        byte + 32
    } else {
        byte
    }
}

/// Returns whether `byte` is `low` to `high`.
fn is_between(low: u8, high: u8, byte: u8) -> bool
    requires { high < 255 }
    ensures { result ≡ is_between low high byte }
{
    (byte < high + 1) & (low <= byte)
}

/// Returns whether three bytes are a code point that HFS+ passes over.
fn is_ignorable(a: u8, b: u8, c: u8) -> bool
    ensures { result ≡ is_ignorable a b c }
{
    let marks = is_between(0x8C, 0x8F, c) | is_between(0xAA, 0xAE, c);
    let shapes = is_between(0xAA, 0xAF, c);
    let first = (a == 0xE2) & (b == 0x80) & marks;
    let second = (a == 0xE2) & (b == 0x81) & shapes;
    let third = (a == 0xEF) & (b == 0xBB) & (c == 0xBF);
    first | second | third
}

/// Returns byte `i`, or 0 past the end.
fn byte_at(bytes: &[u8], i: usize) -> u8
    ensures { result ≡ slice_index bytes.now i }
{
    if i < bytes.len() { bytes[i] } else { 0 }
}

/// Returns whether `bytes` begin with a code point that HFS+ passes over.
fn begins_ignorable(bytes: &[u8]) -> bool
    ensures { result ≡ begins_ignorable bytes.now }
{
    let (a, b, c) = (byte_at(bytes, 0), byte_at(bytes, 1), byte_at(bytes, 2));
    is_ignorable(a, b, c)
}

/// Returns the bytes from `start` on, or none if there are fewer.
#[tactic(auto, using(crate::proofs::FoldingLemmas::nothing_past))]
fn rest_from(bytes: &[u8], start: usize) -> &[u8]
    ensures { result.now ≡ drop start bytes.now }
{
    if start < bytes.len() {
        &bytes[start..]
    } else {
        &[]
    }
}

/// Returns whether `byte` is letter `count` of `word`, in small or capital letters.
fn is_letter(word: &[u8], count: usize, byte: u8) -> bool
    ensures { result ≡ is_letter word.now count byte }
{
    if count < word.len() {
        small(byte) == word[count]
    } else {
        false
    }
}

/// How far a name was compared with a word.
#[derive(Clone, Copy)]
struct Compared {
    /// The bytes that are passed over next.
    skip: usize,

    /// The letters of the word that the name has.
    count: usize,
}

/// Compares byte `i` of `name` with the letters of `word` from `at.count` on. Returns `None` if HFS+ does not take
/// the name for the word.
fn next_compared(word: &[u8], name: &[u8], i: usize, at: Compared) -> Option<Compared>
    requires within { i < length name.now }
    requires counted { at.count ≤ length word.now }
    ensures { MatchOption result
        (is_same (letters at.skip (drop i name.now)) (drop at.count word.now) ≡ false)
        (λ next. IsNext word.now name.now i at next) }
{
    if at.skip > 0 {
        return Some(Compared {
            skip: at.skip - 1,
            count: at.count,
        });
    }
    if begins_ignorable(rest_from(name, i)) {
        return Some(Compared {
            skip: 2,
            count: at.count,
        });
    }
    if is_letter(word, at.count, name[i]) {
        return Some(Compared {
            skip: 0,
            count: at.count + 1,
        });
    }
    None
}

/// Returns whether HFS+ takes `name` for `word`.
#[tactic(auto, using(crate::proofs::FoldingLemmas::letters_end))]
fn is_on_hfs(word: &[u8], name: &[u8]) -> bool
    ensures { result ≡ is_on_hfs word.now name.now }
{
    let mut at = Compared { skip: 0, count: 0 };
    for i in 0..name.len() {
        match next_compared(word, name, i, at) {
            None => return false,
            Some(next) => at = next,
        }
    }
    at.count == word.len()
}

/// Returns whether `name` begins with `word`, in small or capital letters.
fn begins(word: &[u8], name: &[u8]) -> bool
    ensures { result ≡ begins word.now name.now }
{
    for (i, letter) in word.iter().enumerate() {
        if i >= name.len() {
            return false;
        }
        if small(name[i]) != *letter {
            return false;
        }
    }
    true
}

/// Returns whether `byte` is a dot or a blank.
fn is_dot_or_blank(byte: u8) -> bool
    ensures { result ≡ is_dot_or_blank byte }
{
    (byte == 46) | (byte == 32)
}

/// Returns whether NTFS passes over `end`, the end of a name.
fn is_passed(end: &[u8]) -> bool
    ensures { result ≡ is_passed end.now }
{
    for (i, byte) in end.iter().enumerate() {
        if *byte == 58 {
            return true;
        }
        if !is_dot_or_blank(*byte) {
            return false;
        }
    }
    true
}

/// Returns whether NTFS takes `name` for `word`.
fn is_on_ntfs(word: &[u8], name: &[u8]) -> bool
    ensures { result ≡ is_on_ntfs word.now name.now }
{
    begins(word, name) & is_passed(rest_from(name, word.len()))
}

/// Returns whether NTFS takes `part` for `word`, or for its short form `short`.
fn is_part(word: &[u8], short: &[u8], part: &[u8]) -> bool
    ensures { result ≡ (is_on_ntfs word.now part.now || is_on_ntfs short.now part.now) }
{
    is_on_ntfs(word, part) | is_on_ntfs(short, part)
}

/// Returns whether NTFS takes a part of `name`, between its `\`, for `word`, or for its short form `short`.
fn has_part(word: &[u8], short: &[u8], name: &[u8]) -> bool
    ensures { result ≡ has_part word.now short.now name.now }
{
    let mut rest = name;
    'parts: while let Some(end) = first_place(rest, b'\\') {
        if is_part(word, short, before(rest, end)) {
            return true;
        }
        rest = after(rest, end);
    }
    is_part(word, short, rest)
}

/// Returns whether a file system takes `name` for `word`, whose short form on NTFS is `short`.
pub(crate) fn is_taken_for(word: &[u8], short: &[u8], name: &[u8]) -> bool
    ensures { result ≡ is_taken_for word.now short.now name.now }
{
    is_on_hfs(word, name) | has_part(word, short, name)
}
