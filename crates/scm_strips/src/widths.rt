//! The widths of texts, measured without making the texts. A width is held at the greatest `usize`.
ghost use Rattle.std.specs.Prelude.{◌≡◌, ℕ, ◌<◌, ◌+◌, ◌^◌, length, decimal, Some};
ghost use Rattle.scm_cells.specs.Clusters.{text_width};
ghost use Rattle.scm_cells.specs.Replaced.{line_pieces};
ghost use Rattle.scm_render.specs.Drawing.{texts_width};
ghost use Rattle.scm_document.specs.Rows.{lent_text, line_texts};
ghost use Rattle.scm_document.specs.Texts.{number_text, path_text, sign_text};
ghost use Rattle.scm_strips.specs.Parts.{counted};

use scm_cells::{replace_control_character, text_width};
use scm_types::ChangeType;

/// Returns the width of `old_path`, an arrow and `path`, in columns.
fn renamed_width(old_path: &str, path: &str) -> usize
    ensures { result ≡ counted (text_width (path_text (Some old_path.now) path.now)) }
{
    // The spaces around the arrow join no character of the paths.
    text_width(old_path)
        .saturating_add(4)
        .saturating_add(text_width(path))
}

/// Returns the width of `path`, after `old_path` and an arrow if the file was renamed, in columns.
pub(crate) fn path_width(old_path: Option<&str>, path: &str) -> usize
    ensures { result ≡ counted (text_width (path_text (lent_text old_path.entry) path.now)) }
{
    match old_path {
        None => text_width(path),
        Some(old_path) => renamed_width(old_path, path),
    }
}

/// Returns how many decimal digits `number` has.
fn decimal_width(number: usize) -> usize
    ensures value { result ≡ length (decimal number) }
    ensures most { result < 2 ^ 7 }
{
    let mut rest = number;
    let mut count = 1;
    while 10 <= rest {
        rest /= 10;
        count += 1;
    }
    count
}

/// Returns `width` with the widths of `first` and `second`, in columns.
fn with_widths(width: usize, first: &str, second: &str) -> usize
    ensures { (whole : ℕ) → width ≡ counted whole
        → result ≡ counted (whole + (text_width first.now + text_width second.now)) }
{
    width
        .saturating_add(text_width(first))
        .saturating_add(text_width(second))
}

/// Returns the width of `line` as a screen can show it, in columns.
fn pieces_width(line: &str) -> usize
    ensures { result ≡ counted (texts_width (line_pieces line.now)) }
{
    let mut rest = line.chars();
    let mut start = 0;
    let mut read = 0;
    let mut width = 0;
    'characters: while let Some(character) = rest.next() {
        let end = read + character.len_utf8();
        if let Some(replacement) = replace_control_character(character) {
            width = with_widths(width, &line[start..read], replacement);
            start = end;
        }
        read = end;
    }
    width.saturating_add(text_width(&line[start..]))
}

/// Returns the width of a changed line with its sign, in columns.
pub(crate) fn changed_width(change_type: ChangeType, line: &str) -> usize
    ensures { result ≡ counted (texts_width (line_texts (sign_text change_type) line.now)) }
{
    pieces_width(line).saturating_add(2)
}

/// Returns the width of a line of context with its number, in columns.
pub(crate) fn context_width(number: usize, line: &str) -> usize
    ensures { result ≡ counted (texts_width (line_texts (number_text number) line.now)) }
{
    let front = decimal_width(number).max(5) + 1;
    pieces_width(line).saturating_add(front)
}
