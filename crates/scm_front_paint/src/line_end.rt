//! The end of a line that some columns show.
ghost use Rattle.std.specs.Prelude.{◌≡◌, ◌<◌, ◌≤◌, ◌++◌, encode_utf8, IfErr, IfOk, IfSome, IsTrue, string_bytes};
ghost use Rattle.std.specs.Str.{IsUtf8};
ghost use Rattle.scm_errors.specs.declared.error.RecordError.TheVariants.{OutOfMemory};
ghost use Rattle.scm_front_paint.specs.LineEnds.{BeginsPlain, EndsPlain, IsEndOf, IsPlain, ShowsEnd, shown_text};

use crate::status::with_replacements;
use scm_cells::{replace_control_character, text_width};
use scm_errors::RecordError;
use std::alloc::Global;
use ucd_breaks::GraphemeClusterBreak;
use ucd_derived::IndicConjunctBreak;

/// How many bytes are tried for a place between two plain characters.
const MOST_PLACES: usize = 64;

/// The bytes of the longest line of which the end is looked for.
const MOST_BYTES: usize = 30_000_000;

/// Returns whether no rule joins `character` with others because of what it is: between two such characters a
/// cluster ends.
fn is_plain(character: char) -> bool
    ensures { IsTrue result → IsPlain character }
{
    let class = GraphemeClusterBreak::for_char(character);
    let conjunct = IndicConjunctBreak::for_char(character);
    match (class, conjunct) {
        (GraphemeClusterBreak::Other, IndicConjunctBreak::Consonant | IndicConjunctBreak::None) =>
            true,
        _ => false,
    }
}

/// Returns whether `text` begins with a plain character, which a screen shows as it is.
fn begins_plain(text: &str) -> bool
    ensures { IsTrue result → BeginsPlain text.now }
{
    match text.chars().next() {
        Some(first) => is_plain(first),
        None => false,
    }
}

/// Returns the last character of `text` and the text before it, if it has one.
fn split_last(text: &str) -> Option<(&str, char)>
    ensures joined { IfSome result (λ parts. text.now ≡ parts.0.now ++ encode_utf8 parts.1) }
    ensures utf8 { IfSome result (λ parts. IsUtf8 parts.0.now) }
{
    let mut characters = text.chars();
    let last = characters.next_back()?;
    Some((characters.as_str(), last))
}

/// Returns whether `text` ends with a plain character, which a screen shows as it is.
fn ends_plain(text: &str) -> bool
    ensures { IsTrue result → EndsPlain text.now }
{
    match split_last(text) {
        Some((_, last)) => is_plain(last),
        None => false,
    }
}

/// Returns whether what a screen shows of `line` begins with a plain character.
fn is_shown_plain_first(line: &str) -> bool
    ensures { IsTrue result → BeginsPlain (shown_text line.now) }
{
    match line.chars().next() {
        None => false,
        Some(first) => match replace_control_character(first) {
            None => is_plain(first),
            Some(shown) => begins_plain(shown),
        },
    }
}

/// Returns whether what a screen shows of `line` ends with a plain character.
fn is_shown_plain_last(line: &str) -> bool
    ensures { IsTrue result → EndsPlain (shown_text line.now) }
{
    match split_last(line) {
        None => false,
        Some((_, last)) => match replace_control_character(last) {
            None => is_plain(last),
            Some(shown) => ends_plain(shown),
        },
    }
}

/// Returns the end of `line` from byte `at` on, if the characters beside it are plain on a screen.
fn end_at(line: &str, at: usize) -> Option<&str>
    ensures { IfSome result (λ end. IsEndOf end.now line.now) }
{
    if !line.is_char_boundary(at) {
        return None;
    }
    let (front, end) = line.split_at(at);
    if is_shown_plain_last(front) && is_shown_plain_first(end) {
        Some(end)
    } else {
        None
    }
}

/// Returns the end of `line` from byte `at` on, or from a place shortly before it on, where the characters beside
/// it are plain on a screen, if there is such a place.
fn end_near(line: &str, at: usize) -> Option<&str>
    ensures { IfSome result (λ end. IsEndOf end.now line.now) }
{
    for back in 0..MOST_PLACES {
        if let Some(end) = end_at(line, at.saturating_sub(back)) {
            return Some(end);
        }
    }
    None
}

/// Returns how many bytes of a line to read from its end, so that mostly they take `columns` columns.
fn bytes_to_read(columns: usize) -> usize
    ensures { 0 < result }
{
    columns.saturating_mul(2).saturating_add(32)
}

/// Returns the end of `line` with its replacements, of which the last `columns` columns are those of the whole.
/// Reads about as many bytes as those columns take, unless the line has more than `MOST_BYTES` bytes, or no two
/// plain characters side by side where they are looked for.
///
/// # Errors
///
/// - `OutOfMemory`: an allocation failed.
pub(crate) fn end_within(alloc: Global, line: &str, columns: usize) -> Result<String, RecordError>
    ensures ok { IfOk result (λ end. ShowsEnd columns (string_bytes end) (shown_text line.now)) }
    ensures err { IfErr result (λ e. e ≡ OutOfMemory) }
{
    if line.len() > MOST_BYTES {
        return with_replacements(alloc, line);
    }
    let mut most = bytes_to_read(columns);
    'tries: while most < line.len() {
        if let Some(end) = end_near(line, line.len() - most) {
            let shown = with_replacements(alloc, end)?;
            if columns <= text_width(shown.as_str()) {
                return Ok(shown);
            }
        }
        most += most;
    }
    with_replacements(alloc, line)
}
