//! Pairs of lines: a removed line, and the added line that replaces it.
ghost use Rattle.std.specs.Prelude.{◌≡◌, option_map};
ghost use Rattle.scm_front_paint.specs.Words.{pair_at, pair_in_section, pair_of, pair_of_key, pair_of_kinds, pair_of_line};
ghost use Rattle.scm_front_paint.specs.WordsView.{pair_value};

use scm_record::{ChangeType, File, LineKey, Section, SectionChangedLine};

/// A removed line and the added line that replaces it, of which one is meant.
#[derive(Clone, Copy)]
pub(crate) struct PairOfLines<'a> {
    /// The removed line.
    pub(crate) old: &'a str,
    /// The added line.
    pub(crate) new: &'a str,
    /// Whether the removed line is meant.
    pub(crate) is_old: bool,
}

/// Returns the pair of two lines, if the first is removed and the second added.
fn pair_of_both<'a>(
    is_old: bool,
    first: &'a SectionChangedLine<'_>,
    second: &'a SectionChangedLine<'_>,
) -> Option<PairOfLines<'a>>
    ensures { option_map pair_value result ≡ pair_of_kinds is_old
        first.now.change_type first.now.line second.now.change_type second.now.line }
{
    match first.change_type {
        ChangeType::Added => None,
        ChangeType::Removed => match second.change_type {
            ChangeType::Removed => None,
            ChangeType::Added => Some(PairOfLines {
                old: first.line.as_str(),
                new: second.line.as_str(),
                is_old,
            }),
        },
    }
}

/// Returns the pair of lines `line` and `line + 1`, counted from 0.
fn pair_at<'a>(
    is_old: bool,
    lines: &'a [SectionChangedLine<'_>],
    line: usize,
) -> Option<PairOfLines<'a>>
    ensures { option_map pair_value result ≡ pair_at is_old lines.now line }
{
    match lines.get(line) {
        None => None,
        Some(first) => match lines.get(line + 1) {
            None => None,
            Some(second) => pair_of_both(is_old, first, second),
        },
    }
}

/// Returns the pair of line `line`: with the line behind it, or with the one before it.
fn pair_of<'a>(lines: &'a [SectionChangedLine<'_>], line: usize) -> Option<PairOfLines<'a>>
    ensures { option_map pair_value result ≡ pair_of lines.now line }
{
    match pair_at(true, lines, line) {
        Some(pair) => Some(pair),
        None => {
            if line == 0 {
                None
            } else {
                pair_at(false, lines, line - 1)
            }
        }
    }
}

/// Returns the pair of line `line` of `section`, if that has changed lines.
fn pair_in_section<'a>(section: Option<&'a Section<'_>>, line: usize) -> Option<PairOfLines<'a>>
    ensures { option_map pair_value result
        ≡ pair_in_section (option_map (λ s. s.now) section.entry) line }
{
    match section {
        Some(Section::Changed { lines }) => pair_of(lines.as_slice(), line),
        Some(Section::Unchanged { .. })
        | Some(Section::FileMode { .. })
        | Some(Section::Binary { .. })
        | None => None,
    }
}

/// Returns the pair of the line that `key` names, if it has one.
fn pair_of_key<'a>(files: &'a [File<'_>], key: LineKey) -> Option<PairOfLines<'a>>
    ensures { option_map pair_value result ≡ pair_of_key files.now key }
{
    match files.get(key.file_idx) {
        None => None,
        Some(file) => pair_in_section(file.sections.get(key.section_idx), key.line_idx),
    }
}

/// Returns the pair of `line` of `files`, if it is a line that has one.
pub(crate) fn pair_of_line<'a>(
    files: &'a [File<'_>],
    line: Option<LineKey>,
) -> Option<PairOfLines<'a>>
    ensures { option_map pair_value result ≡ pair_of_line files.now line }
{
    match line {
        None => None,
        Some(key) => pair_of_key(files, key),
    }
}
