//! What a pager promises.
ghost use Rattle.std.specs.Prelude.{◌≡◌, ◌≤◌, Bool, ℕ, List, [], Some, false, length, map, slice_get, true};
ghost use Rattle.std.specs.List.{concat, list_any};
ghost use Rattle.scm_types.specs.declared.file.File.{File};
ghost use Rattle.scm_types.specs.declared.split.SelectedContents.TheVariants as contents;
ghost use Rattle.scm_types.specs.Split.{is_binary, side_contents, takes};
ghost use Rattle.scm_types.specs.declared.line.SectionChangedLine.{SectionChangedLine};
ghost use Rattle.scm_types.specs.declared.section.Section.TheVariants as section;
ghost use Rattle.scm_pager.specs.declared.lines.SideLine.{SideLine};
ghost use Rattle.scm_pager.specs.Places.{line_at};
ghost use Rattle.scm_pager.specs.Sides.{changed_line, shown_lines};

/// Proves that the lines that a pager shows are what accepting gives: joined, they are the text of the side,
/// byte for byte, if it has a text. A side without one has no lines.
///
/// This is a law: the function does nothing, and is there for its contract.
pub fn pagers_show_sides()
    ensures text { (selected : Bool) (file : File) (text : List ℕ)
        → side_contents selected file ≡ contents.Text text
        → concat (map (λ (line : SideLine). line.text) (shown_lines selected file)) ≡ text }
    ensures unchanged { (selected : Bool) (file : File)
        → side_contents selected file ≡ contents.Unchanged → shown_lines selected file ≡ [] }
{}

/// Proves that a changed line which a side has is the line of the side to which `Pager::show` brings a pager. The file has
/// no binary contents, and the side has no more lines than the code counts.
///
/// This is a law: the function does nothing, and is there for its contract.
pub fn pagers_find_lines()
    ensures { (selected : Bool) (file : File) (index line : ℕ) (lines : List SectionChangedLine)
        (l : SectionChangedLine) → list_any is_binary file.sections ≡ false
        → length (shown_lines selected file) ≤ 18446744073709551615
        → slice_get file.sections index ≡ Some (section.Changed lines)
        → slice_get lines line ≡ Some l → takes selected l ≡ true
        → slice_get (shown_lines selected file) (line_at selected file index line)
        ≡ Some (changed_line l) }
{}
