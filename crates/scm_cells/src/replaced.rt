//! Replacements for characters that a screen cannot show: control characters, and characters of
//! width 0.
ghost use Rattle.std.specs.Prelude.{◌≡◌, ◌++◌, ◌∷◌, [], ◌+◌, ◌<◌, ◌≤◌, length, encode_utf8, option_map, IfNone, IfSome, OnOk, OnErr, IfErr, vec_len, vec_capacity};
ghost use Rattle.scm_cells.specs.Replaced.{replacement, line_pieces, last_piece, printable_line};
ghost use Rattle.scm_cells.specs.Spans.{span_texts};
ghost use Rattle.scm_errors.specs.declared.error.RecordError.TheVariants.{OutOfMemory};

use crate::printable::{count_printable, is_printable};
use crate::text::Span;
use scm_errors::RecordError;
use unicode_width::UnicodeWidthChar;

/// Returns the Unicode picture of the ASCII control character `code`.
fn picture(code: u32) -> &'static str
    requires { code < 32 }
    ensures { result.now ≡ encode_utf8 (0x2400 + code) }
{
    match code {
        0 => "␀",
        1 => "␁",
        2 => "␂",
        3 => "␃",
        4 => "␄",
        5 => "␅",
        6 => "␆",
        7 => "␇",
        8 => "␈",
        9 => "␉",
        10 => "␊",
        11 => "␋",
        12 => "␌",
        13 => "␍",
        14 => "␎",
        15 => "␏",
        16 => "␐",
        17 => "␑",
        18 => "␒",
        19 => "␓",
        20 => "␔",
        21 => "␕",
        22 => "␖",
        23 => "␗",
        24 => "␘",
        25 => "␙",
        26 => "␚",
        27 => "␛",
        28 => "␜",
        29 => "␝",
        30 => "␞",
        31 => "␟",
        _ => unreachable!(),
    }
}

/// Returns the replacement of `character` if a screen cannot show it, else `None`. A tab becomes an
/// arrow and three spaces, and a newline becomes `⏎`. Any other ASCII control character becomes its
/// Unicode picture, and any other character of width 0 becomes U+FFFD.
#[tactic(auto, unfolding(crate::specs::Replaced::replacement))]
pub fn replace_control_character(character: char) -> Option<&'static str>
    ensures { option_map (λ s. s.now) result ≡ replacement character }
{
    let code = character as u32;
    if code == 0x09 {
        Some("→   ")
    } else if code == 0x0A {
        Some("⏎")
    } else if code < 0x20 {
        Some(picture(code))
    } else if code < 0x7F {
        None
    } else if code == 0x7F {
        Some("␡")
    } else if character.width().unwrap_or(0) == 0 {
        Some("\u{FFFD}")
    } else {
        None
    }
}

/// Returns the text before the first replaced character, its replacement, and the text after it.
/// Returns `None` if no character is replaced. Skips the printable ASCII at the start byte by byte.
pub(crate) fn cut_at_replaced(line: &str) -> Option<(&str, &'static str, &str)>
    ensures none { IfNone result (line_pieces line.now ≡ last_piece line.now) }
    ensures some { IfSome result (λ cut.
        line_pieces line.now ≡ cut.0.now ∷ (cut.1.now ∷ line_pieces cut.2.now)) }
    ensures shorter { IfSome result (λ cut. length cut.2.now < length line.now) }
{
    let mut read = count_printable(line);
    let mut rest = line[read..].chars();
    'characters: while let Some(character) = rest.next() {
        if let Some(replacement) = replace_control_character(character) {
            return Some((&line[..read], replacement, rest.as_str()));
        }
        read += character.len_utf8();
    }
    None
}

/// Returns the texts of the two spans that [`push_spans_from_line`] adds for `line`, if it is printable
/// ASCII and a newline at its end. Returns `None` for any other line. Reads the whole line.
pub fn printable_line(line: &str) -> Option<(&str, &'static str)>
    ensures value { option_map (λ p. (p.0.now, p.1.now)) result ≡ printable_line line.now }
    ensures pieces { IfSome result (λ p.
        line_pieces line.now ≡ p.0.now ∷ (p.1.now ∷ [])) }
{
    let count = line.len().checked_sub(1)?;
    let bytes = line.as_bytes();
    if bytes[count] != b'\n' {
        return None;
    }
    let (text, _) = line.split_at(count);
    if is_printable(text) {
        Some((text, "⏎"))
    } else {
        None
    }
}

/// Returns the number of spans that `push_spans_from_line` adds for the line.
fn count_pieces(line: &str) -> usize
    ensures { result ≡ length (line_pieces line.now) }
{
    let mut line = line;
    let mut count = 0;
    'cuts: while let Some((_, _, rest)) = cut_at_replaced(line) {
        count += 2;
        line = rest;
    }
    if line.is_empty() { count } else { count + 1 }
}

/// Adds a span to a list with spare capacity.
fn push_within<'a>(spans: &mut Vec<Span<'a>>, text: &'a str)
    requires { vec_len spans.old < vec_capacity spans.old }
    ensures texts { span_texts spans.new.items ≡ span_texts spans.old.items ++ text.now ∷ [] }
    ensures len { vec_len spans.new ≡ vec_len spans.old + 1 }
    ensures capacity { vec_capacity spans.old ≤ vec_capacity spans.new }
{
    match spans.push(Span(text)) {
        Ok(()) => {}
        Err(_) => unreachable!(),
    }
}

/// Adds the spans of `line` to `spans`. Each character that is replaced adds the text before it,
/// which may be empty, and its replacement. The rest of `line` follows, unless it is empty.
///
/// # Errors
/// `OutOfMemory`: an allocation failed; `spans` is unchanged.
pub fn push_spans_from_line<'a>(line: &'a str, spans: &mut Vec<Span<'a>>) -> Result<(), RecordError>
    ensures ok { OnOk result (
        span_texts spans.new.items ≡ span_texts spans.old.items ++ line_pieces line.now) }
    ensures unchanged { OnErr result (spans.new.items ≡ spans.old.items) }
    ensures err { IfErr result (λ e. e ≡ OutOfMemory) }
{
    spans.reserve(count_pieces(line))?;
    let mut line = line;
    'cuts: while let Some((text, replacement, rest)) = cut_at_replaced(line) {
        push_within(spans, text);
        push_within(spans, replacement);
        line = rest;
    }
    if !line.is_empty() {
        push_within(spans, line);
    }
    Ok(())
}
