//! The widths of texts, measured without making the texts.
ghost use Rattle.std.specs.Prelude.{◌≡◌, ◌<◌, ◌+◌, ◌^◌, length, decimal, Some, IfOk};
ghost use Rattle.scm_cells.specs.Clusters.{text_width};
ghost use Rattle.scm_cells.specs.Replaced.{line_pieces};
ghost use Rattle.scm_render.specs.Drawing.{texts_width};
ghost use Rattle.scm_document.specs.Rows.{lent_text};
ghost use Rattle.scm_document.specs.Texts.{number_text, path_text, section_text};

use scm_cells::{replace_control_character, text_width};
use scm_widgets::joined_width::joined_width;
use std::alloc::AllocError;

/// Returns the width of `old_path`, an arrow and `path`, in columns.
fn renamed_width(old_path: &str, path: &str) -> Result<usize, AllocError>
    ensures ok { IfOk result (λ n. n ≡ text_width (path_text (Some old_path.now) path.now)) }
{
    // The spaces around the arrow join no character of the paths.
    Ok(joined_width(text_width(old_path), 4, text_width(path))?)
}

/// Returns the width of `path`, after `old_path` and an arrow if the file was renamed, in columns.
pub(crate) fn path_width(old_path: Option<&str>, path: &str) -> Result<usize, AllocError>
    ensures ok { IfOk result (λ n. n ≡ text_width (path_text (lent_text old_path.entry) path.now)) }
{
    match old_path {
        None => Ok(text_width(path)),
        Some(old_path) => renamed_width(old_path, path),
    }
}

/// Returns how many decimal digits `number` has.
fn decimal_width(number: usize) -> usize
    ensures value { result ≡ length (decimal number) }
    ensures most { result < 2 ^ 7 }
{
    let mut rest = number;
    let mut count = 1;
    while 10 <= rest {
        rest /= 10;
        count += 1;
    }
    count
}

/// Returns the width of a line number and the space after it, in columns.
pub(crate) fn number_width(number: usize) -> usize
    ensures { result ≡ text_width (number_text number) }
{
    decimal_width(number).max(5) + 1
}

/// Returns the width of a section's title, in columns.
pub(crate) fn section_width(number: usize, total: usize) -> usize
    ensures { result ≡ text_width (section_text number total) }
{
    8 + decimal_width(number) + 1 + decimal_width(total)
}

/// Returns the width of `line` as a screen can show it, in columns.
pub(crate) fn pieces_width(line: &str) -> usize
    requires { texts_width (line_pieces line.now) < 2 ^ 64 }
    ensures { result ≡ texts_width (line_pieces line.now) }
{
    let mut rest = line.chars();
    let mut start = 0;
    let mut read = 0;
    let mut width = 0;
    'characters: while let Some(character) = rest.next() {
        let end = read + character.len_utf8();
        if let Some(replacement) = replace_control_character(character) {
            width += text_width(&line[start..read]) + text_width(replacement);
            start = end;
        }
        read = end;
    }
    width + text_width(&line[start..])
}
