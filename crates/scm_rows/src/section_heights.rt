//! How many rows a section has, and whether it is shown.
ghost use Rattle.std.specs.Prelude.{◌≡◌, ◌<◌, ◌^◌};
ghost use Rattle.scm_rows.specs.Heights.{height_of, is_section_open, is_section_visible, shown_height};

use crate::section_place::SectionPlace;
use scm_types::Section;

/// Returns how many rows `section`, which is at `place`, has if it is shown.
pub fn height_of(place: SectionPlace, is_unfolded: bool, section: &Section<'_>) -> usize
    requires { height_of place is_unfolded section.now < 2 ^ 64 }
    ensures { result ≡ height_of place is_unfolded section.now }
{
    match section {
        Section::Unchanged { lines } => place.context_height(lines.len()),
        Section::Changed { lines } => { if is_unfolded { 1 + lines.len() } else { 1 } }
        Section::FileMode { .. } | Section::Binary { .. } => 1,
    }
}

/// Returns whether `section` is open: editable and unfolded.
pub fn is_section_open(is_unfolded: bool, section: &Section<'_>) -> bool
    ensures { result ≡ is_section_open is_unfolded section.now }
{
    let is_editable = section.is_editable();
    // `&`: one branch for the prover
    is_editable & is_unfolded
}

/// Returns whether `section` is shown: it is editable, or the section before or after it is open.
pub fn is_section_visible(before: bool, section: &Section<'_>, after: bool) -> bool
    ensures { result ≡ is_section_visible before section.now after }
{
    let is_editable = section.is_editable();
    // `|`: one branch for the prover
    is_editable | (before | after)
}

/// Returns how many rows `section`, which is at `place`, has: 0 if it is not shown. `before` and
/// `after` say whether the sections above and below it are open.
pub fn shown_height(
    place: SectionPlace,
    is_unfolded: bool,
    before: bool,
    section: &Section<'_>,
    after: bool,
) -> usize
    requires { height_of place is_unfolded section.now < 2 ^ 64 }
    ensures { result ≡ shown_height place is_unfolded before section.now after }
{
    if is_section_visible(before, section, after) {
        height_of(place, is_unfolded, section)
    } else {
        0
    }
}
