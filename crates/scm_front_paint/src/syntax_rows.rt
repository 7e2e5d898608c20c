//! The spans on the rows of a screen.
ghost use Rattle.std.specs.Prelude.{◌≡◌, option_map};
ghost use Rattle.scm_front_paint.specs.SyntaxRows.{has_blank, line_at, runs_for, runs_of_line, runs_on, text_in_section, text_of_key};

use crate::range::line_on;
use crate::runs::{LineRuns, Run};
use crate::syntax_lines::SyntaxLines;
use crate::words::is_bare;
use scm_record::{File, LineKey, LiveSession, Section};

/// Returns the text of line `line` of `section`, if it has one.
fn text_in_section<'a>(section: Option<&'a Section<'_>>, line: usize) -> Option<&'a str>
    ensures { option_map (λ t. t.now) result
        ≡ text_in_section (option_map (λ s. s.now) section.entry) line }
{
    match section {
        Some(Section::Unchanged { lines }) => lines.get(line).map(|text| text.as_str()),
        Some(Section::Changed { lines }) => lines.get(line).map(|changed| changed.line.as_str()),
        Some(Section::FileMode { .. }) | Some(Section::Binary { .. }) | None => None,
    }
}

/// Returns the text of the line that `key` names, if it names one: a changed line, or one of context.
pub(crate) fn text_of_key<'a>(files: &'a [File<'_>], key: LineKey) -> Option<&'a str>
    ensures { option_map (λ t. t.now) result ≡ text_of_key files.now key }
{
    match files.get(key.file_idx) {
        None => None,
        Some(file) => text_in_section(file.sections.get(key.section_idx), key.line_idx),
    }
}

/// Returns whether column 9 of row `row` of the screen of `session` is blank.
fn has_blank(session: &LiveSession<'_>, row: usize) -> bool
    ensures { result ≡ has_blank session.now row }
{
    match session.grid().symbol(row, 9) {
        None => false,
        Some(symbol) => symbol == " ",
    }
}

/// Returns the line whose text row `row` of the screen of `session` shows from column 10 on, if any and if nothing
/// lies over the lines. Rows are counted from 0.
fn line_at(session: &LiveSession<'_>, row: usize) -> Option<LineKey>
    ensures { result ≡ line_at session.now row }
{
    if is_bare(session) & has_blank(session, row) {
        line_on(session, row)
    } else {
        None
    }
}

/// Returns the spans of `line`, if they were set for the text `text`.
fn runs_for<'a>(line: Option<&'a LineRuns>, text: Option<&str>) -> &'a [Run]
    ensures { result.now ≡ runs_for (option_map (λ l. l.now) line.entry)
        (option_map (λ t. t.now) text.entry) }
{
    match (line, text) {
        (Some(line), Some(text)) if line.text.as_str() == text => line.runs.as_slice(),
        _ => &[],
    }
}

/// Returns the spans of the line `key` of `files`, if there is one.
fn runs_of_line<'a>(lines: &'a SyntaxLines, files: &[File<'_>], key: Option<LineKey>) -> &'a [Run]
    ensures { result.now ≡ runs_of_line lines.now files.now key }
{
    match key {
        None => &[],
        Some(key) => {
            let first = LineKey {
                commit_idx: 0,
                ..key
            };
            runs_for(lines.get(first), text_of_key(files, key))
        }
    }
}

/// Returns the spans on row `row` of the screen of `session`, counted from 0.
pub(crate) fn runs_on<'a>(
    lines: &'a SyntaxLines,
    session: &LiveSession<'_>,
    row: usize,
) -> &'a [Run]
    ensures { result.now ≡ runs_on lines.now session.now row }
{
    if lines.is_empty() {
        return &[];
    }
    let files = session.view_state().state.files.as_slice();
    runs_of_line(lines, files, line_at(session, row))
}
