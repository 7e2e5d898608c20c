//! Frame text: printable ASCII with the lines of frames and marks. Each character is a cluster of one
//! column.
ghost use Rattle.std.specs.Prelude.{◌≡◌};
ghost use Rattle.scm_cells.specs.FrameText.{is_frame_line, is_mark, is_frame_char, frame_width};

/// Returns whether the character is an edge or a corner of a frame.
fn is_frame_line(c: char) -> bool
    ensures { result ≡ is_frame_line c }
{
    c == '─' || c == '│' || c == '┌' || c == '┐' || c == '└' || c == '┘'
}

/// Returns whether the character is a mark in a box, a mark between texts or for the rest of one,
/// an arrow, the mark of a line end, or the replacement of a character.
fn is_mark(c: char) -> bool
    ensures { result ≡ is_mark c }
{
    c == '±'
        || c == '•'
        || c == '…'
        || c == '←'
        || c == '↑'
        || c == '→'
        || c == '↓'
        || c == '⋮'
        || c == '⏎'
        || c == '●'
        || c == '◐'
        || c == '\u{FFFD}'
}

/// Returns whether the character is printable ASCII, an edge or a corner of a frame, or a mark.
fn is_frame_char(c: char) -> bool
    ensures { result ≡ is_frame_char c }
{
    (' ' <= c && c <= '~') || is_frame_line(c) || is_mark(c)
}

/// Returns the width of a text in columns, if each character is printable ASCII, an edge or a corner
/// of a frame, or a mark.
pub(crate) fn frame_width(text: &str) -> Option<usize>
    ensures { result ≡ frame_width text.now }
{
    let mut rest = text.chars();
    let mut width = 0;
    'characters: while let Some(character) = rest.next() {
        if !is_frame_char(character) {
            return None;
        }
        width += 1;
    }
    Some(width)
}
