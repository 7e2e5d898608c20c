//! The lines of a side of a file, as far as a window shows them.
ghost use Rattle.std.specs.Prelude.{◌≡◌, IfErr, IfOk, None, OnOk, drop, filter, map, take};
ghost use Rattle.scm_types.specs.Split.{takes};
ghost use Rattle.scm_pager.specs.Sides.{changed_line, context_line, is_replaced, last_mark, shown_lines};
ghost use Rattle.scm_pager.specs.Windows.{after_line, after_all_lines, after_section, after_sections, capped_length, cleared, empty_window};
ghost use Rattle.scm_errors.specs.declared.error.RecordError.TheVariants.{OutOfMemory};

use scm_errors::RecordError;
use scm_types::{ChangeType, File, Section, SectionChangedLine, Text};
use std::alloc::{AllocError, Global};
use std::marker::Model;

/// A line of a side.
#[derive(Drop)]
pub struct SideLine<'s> {
    /// The text of the line, with its line end.
    pub text: Text<'s>,
    /// Whether the line is on this side by a mark.
    pub is_marked: bool,
}

/// The lines of a side that a window shows.
#[derive(Drop)]
pub struct Window<'s> {
    /// The first line that is shown, counted from 0.
    top: usize,
    /// How many lines are still to come before it.
    before: usize,
    /// The most lines that are shown.
    height: usize,
    /// How many lines the side has, or the greatest number.
    count: usize,
    /// The lines that are shown, from the top.
    rows: Vec<SideLine<'s>>,
}

impl<'s> Model for Window<'s> {
    ghost use Rattle.scm_pager.specs.WindowView.{Shown};

    ghost Value = { Shown };

    ghost view = { λ w. record {
      top = w.top;
      before = w.before;
      height = w.height;
      count = w.count;
      rows = w.rows.items;
    } };
}

impl<'s> Window<'s> {
    /// Returns how many lines the side has, or the greatest number.
    pub fn count(&self) -> usize
        ensures { result ≡ self.now.count }
    {
        self.count
    }

    /// Returns the lines that are shown, from the top.
    pub fn rows(&self) -> &[SideLine<'s>]
        ensures { result.now ≡ self.now.rows }
    {
        self.rows.as_slice()
    }
}

impl<'s> Window<'s> {
    /// Takes the next line of the side: its text, and whether it is there by a mark.
    fn offer(&mut self, text: &'s Text<'_>, is_marked: bool) -> Result<(), AllocError>
        ensures { OnOk result (self.new
            ≡ after_line self.old (record { text = text.now; is_marked = is_marked })) }
    {
        self.count = self.count.saturating_add(1);
        if 0 < self.before {
            self.before -= 1;
        } else if self.rows.len() < self.height {
            self.rows.push(SideLine {
                text: text.borrowed(),
                is_marked,
            })?;
        }
        Ok(())
    }

    /// Takes `lines`, context, which each side has.
    fn offer_context(&mut self, lines: &'s [Text<'_>]) -> Result<(), AllocError>
        ensures { OnOk result (self.new ≡ after_all_lines self.old (map context_line lines.now)) }
    {
        for line in lines {
            self.offer(line, false)?;
        }
        Ok(())
    }

    /// Takes those of `lines` that the side has.
    fn offer_changes(
        &mut self,
        lines: &'s [SectionChangedLine<'_>],
        selected: bool,
    ) -> Result<(), AllocError>
        ensures { OnOk result (self.new
            ≡ after_all_lines self.old (map changed_line (filter (takes selected) lines.now))) }
    {
        for line in lines {
            if takes(line, selected) {
                self.offer(&line.line, line.is_checked)?;
            }
        }
        Ok(())
    }
}

/// Returns whether the selected side, or the other one, has `line`.
pub(crate) fn takes(line: &SectionChangedLine<'_>, selected: bool) -> bool
    ensures { result ≡ takes selected line.now }
{
    match line.change_type {
        ChangeType::Added => line.is_checked == selected,
        ChangeType::Removed => line.is_checked != selected,
    }
}

/// Returns the mark of the last of `sections` that changes binary contents, if there is one.
fn last_mark(sections: &[Section<'_>]) -> Option<bool>
    ensures { result ≡ last_mark None sections.now }
{
    let mut mark = None;
    for section in sections {
        if let Section::Binary { is_checked, .. } = section {
            mark = Some(*is_checked);
        }
    }
    mark
}

/// Returns whether a section with binary contents stands in the place of the side's lines.
pub(crate) fn is_replaced(file: &File<'_>, selected: bool) -> bool
    ensures { result ≡ is_replaced selected file.now }
{
    match last_mark(file.sections.as_slice()) {
        Some(is_checked) => is_checked == selected,
        None => false,
    }
}

impl<'s> Window<'s> {
    /// Makes a window of at most `height` lines from line `top` on, counted from 0, without a line so far.
    fn new(alloc: Global, top: usize, height: usize) -> Window<'s>
        ensures { result ≡ empty_window top height }
    {
        Window {
            top,
            before: top,
            height,
            count: 0,
            rows: Vec::new(alloc),
        }
    }

    /// Begins anew.
    fn clear(&mut self)
        ensures { self.new ≡ cleared self.old }
    {
        self.before = self.top;
        self.count = 0;
        self.rows.clear();
    }

    /// Takes the lines of `section` that the selected side, or the other one, has. Binary contents drop what
    /// was before them.
    fn offer_section(&mut self, section: &'s Section<'_>, selected: bool) -> Result<(), AllocError>
        ensures { OnOk result (self.new ≡ after_section selected self.old section.now) }
    {
        match section {
            Section::Unchanged { lines } => self.offer_context(lines.as_slice()),
            Section::Changed { lines } => self.offer_changes(lines.as_slice(), selected),
            Section::FileMode { .. } => Ok(()),
            Section::Binary { .. } => {
                self.clear();
                Ok(())
            }
        }
    }

    /// Takes the lines of `sections` that the selected side, or the other one, has.
    fn offer_all(&mut self, sections: &'s [Section<'_>], selected: bool) -> Result<(), AllocError>
        ensures { OnOk result (self.new ≡ after_sections selected self.old sections.now) }
    {
        for section in sections {
            self.offer_section(section, selected)?;
        }
        Ok(())
    }
}

/// Returns the lines of the selected side of `file`, or of the other one, from line `top` on, counted from
/// 0, at most `height`.
///
/// # Errors
///
/// - `OutOfMemory`: an allocation failed.
pub fn window_of<'s>(
    alloc: Global,
    file: &'s File<'_>,
    selected: bool,
    top: usize,
    height: usize,
) -> Result<Window<'s>, RecordError>
    ensures count { IfOk result (λ w. w.count ≡ capped_length (shown_lines selected file.now)) }
    ensures rows { IfOk result (λ w.
        w.rows ≡ take height (drop top (shown_lines selected file.now))) }
    ensures err { IfErr result (λ e. e ≡ OutOfMemory) }
{
    let mut window = Window::new(alloc, top, height);
    if is_replaced(file, selected) {
        return Ok(window);
    }
    window.offer_all(file.sections.as_slice(), selected)?;
    Ok(window)
}
