//! Laws of the merge, each as the contract of a function that does nothing.
ghost use Rattle.std.specs.Prelude.{◌≡◌, filter, map, true};
ghost use Rattle.std.specs.List.{AllByRecursion, flat_map};
ghost use Rattle.scm_merge.specs.Laws.{AreToldApart, GivesBytesByChoice, HasBytes, IsClean, IsConflictOfThree, IsTrimmed, ShowsConflicts, all_ours, all_theirs, conflict_count, exchanged, exchanged_region, file_by, ours_first, parts_from, theirs_first};
ghost use Rattle.scm_merge.specs.Parts.{AreMerged, AreMergedBy, Choice, Part, lines_by, outcomes_from};
ghost use Rattle.scm_embed.specs.Lines.{lines_of};
ghost use Rattle.scm_embed.specs.Marked.{marked_file};
ghost use Rattle.scm_diff.specs.Bytes.{text_of_bytes};
ghost use Rattle.scm_diff.specs.Change.{unchecked};
ghost use Rattle.scm_types.specs.Laws.{is_in_side, line_text, lines_of_file};
ghost use Rattle.scm_merge.specs.Markers.{bytes_with_markers};
ghost use Rattle.scm_merge.specs.Merge.{IsMerge, merged_bytes};
ghost use Rattle.scm_merge.specs.Open.{open_conflicts};
ghost use Rattle.scm_merge.specs.Origins.{IsWoven};
ghost use Rattle.scm_merge.specs.Regions.{AreRegions};
ghost use Rattle.scm_merge.specs.Sections.{file_with_texts, nothing_chosen};
ghost use Rattle.scm_types.specs.Split.{side_lines};

use crate::labels::Labels;
use crate::region::Region;
use scm_diff::Hunk;
use scm_types::{File, FileMode, Text};

/// Proves that a merge in which a side is equal to the base is the other side, and that a merge of two
/// equal sides is that side: without a conflict, and whatever is chosen.
pub fn equal_sides_have_no_conflict(
    base: &[Text<'_>],
    ours: &[Text<'_>],
    theirs: &[Text<'_>],
    regions: &[Region],
)
    requires { AreMerged base.now ours.now theirs.now regions.now }
    ensures ours_kept { ours.now ≡ base.now
        → IsClean (outcomes_from base.now ours.now theirs.now 0 regions.now) theirs.now }
    ensures theirs_kept { theirs.now ≡ base.now
        → IsClean (outcomes_from base.now ours.now theirs.now 0 regions.now) ours.now }
    ensures same { ours.now ≡ theirs.now
        → IsClean (outcomes_from base.now ours.now theirs.now 0 regions.now) ours.now }
{}

/// Proves that the exchange of ours and theirs exchanges the two in each conflict, and changes nothing
/// else.
pub fn sides_change_places(
    base: &[Text<'_>],
    ours: &[Text<'_>],
    theirs: &[Text<'_>],
    regions: &[Region],
)
    requires { AreRegions base.now ours.now theirs.now regions.now }
    ensures regions { AreRegions base.now theirs.now ours.now (map exchanged_region regions.now) }
    ensures outcomes { outcomes_from base.now theirs.now ours.now 0 (map exchanged_region regions.now)
        ≡ map exchanged (outcomes_from base.now ours.now theirs.now 0 regions.now) }
{}

/// Proves that a merge with ours and theirs exchanged is one of the exchanged sides: its regions are what a
/// merge of these is made of, by the same differences of each side, and it has as many conflicts.
pub fn exchanged_merges_are_merges(
    base: &[Text<'_>],
    ours: &[Text<'_>],
    theirs: &[Text<'_>],
    regions: &[Region],
)
    requires { AreMerged base.now ours.now theirs.now regions.now }
    ensures merged { AreMerged base.now theirs.now ours.now (map exchanged_region regions.now) }
    ensures open { conflict_count
        (outcomes_from base.now theirs.now ours.now 0 (map exchanged_region regions.now))
        ≡ conflict_count (outcomes_from base.now ours.now theirs.now 0 regions.now) }
{}

/// Proves that the differences of both sides decide the merge: two merges of the same three lists by the
/// same hunks have the same regions.
pub fn same_hunks_give_the_same_merge(
    base: &[Text<'_>],
    ours: &[Text<'_>],
    theirs: &[Text<'_>],
    our_hunks: &[Hunk],
    their_hunks: &[Hunk],
    first: &[Region],
    second: &[Region],
)
    requires first { AreMergedBy base.now ours.now theirs.now
        our_hunks.now their_hunks.now first.now }
    requires second { AreMergedBy base.now ours.now theirs.now
        our_hunks.now their_hunks.now second.now }
    ensures { second.now ≡ first.now }
{}

/// Proves that two merges by the same hunks, of which the second one has the sides exchanged, are the same
/// except for the exchange: two calls that get the same hunks need not know of each other.
pub fn same_hunks_give_the_exchanged_merge(
    base: &[Text<'_>],
    ours: &[Text<'_>],
    theirs: &[Text<'_>],
    our_hunks: &[Hunk],
    their_hunks: &[Hunk],
    regions: &[Region],
    others: &[Region],
)
    requires first { AreMergedBy base.now ours.now theirs.now
        our_hunks.now their_hunks.now regions.now }
    requires second { AreMergedBy base.now theirs.now ours.now
        their_hunks.now our_hunks.now others.now }
    ensures regions { others.now ≡ map exchanged_region regions.now }
    ensures outcomes { outcomes_from base.now theirs.now ours.now 0 others.now
        ≡ map exchanged (outcomes_from base.now ours.now theirs.now 0 regions.now) }
{}

/// Proves that a part is a conflict exactly if no two of its three lists are equal.
pub fn conflicts_have_three_versions(base: &[Text<'_>], ours: &[Text<'_>], theirs: &[Text<'_>])
    ensures { IsConflictOfThree
        (record { base = base.now; ours = ours.now; theirs = theirs.now }) }
{}

/// Proves that a conflict begins and ends where ours and theirs differ, and that the lines that they
/// share around it are taken without asking.
pub fn conflicts_are_trimmed(base: &[Text<'_>], ours: &[Text<'_>], theirs: &[Text<'_>])
    ensures { IsTrimmed (record { base = base.now; ours = ours.now; theirs = theirs.now }) }
{}

/// Proves that the parts of a merge, one after another, are the base, our lines and their lines.
pub fn parts_are_the_lists(
    base: &[Text<'_>],
    ours: &[Text<'_>],
    theirs: &[Text<'_>],
    regions: &[Region],
)
    requires { AreRegions base.now ours.now theirs.now regions.now }
    ensures base { flat_map (λ (p : Part). p.base)
        (parts_from base.now ours.now theirs.now 0 regions.now) ≡ base.now }
    ensures ours { flat_map (λ (p : Part). p.ours)
        (parts_from base.now ours.now theirs.now 0 regions.now) ≡ ours.now }
    ensures theirs { flat_map (λ (p : Part). p.theirs)
        (parts_from base.now ours.now theirs.now 0 regions.now) ≡ theirs.now }
{}

/// Proves that a merge in which our lines are chosen in each conflict is ours, but for the parts that we
/// left as they were: these are theirs. Also the same for their lines.
pub fn one_side_is_chosen(
    base: &[Text<'_>],
    ours: &[Text<'_>],
    theirs: &[Text<'_>],
    regions: &[Region],
)
    ensures ours { lines_by all_ours (outcomes_from base.now ours.now theirs.now 0 regions.now)
        ≡ flat_map ours_first (parts_from base.now ours.now theirs.now 0 regions.now) }
    ensures theirs { lines_by all_theirs (outcomes_from base.now ours.now theirs.now 0 regions.now)
        ≡ flat_map theirs_first (parts_from base.now ours.now theirs.now 0 regions.now) }
{}

/// Proves what a choice in the conflicts gives: if the marks of `file` are those of `choice`, the lines
/// of the selected side, without the items that stand for versions without lines, are those of the
/// merge by the choice. At the start, each conflict is open.
pub fn marks_give_the_lines(
    file: &File<'_>,
    base: &[Text<'_>],
    ours: &[Text<'_>],
    theirs: &[Text<'_>],
    regions: &[Region],
)
    ensures lines { let outcomes = outcomes_from base.now ours.now theirs.now 0 regions.now in
        (c : Choice) → AllByRecursion HasBytes outcomes
        → side_lines true (file_with_texts (file_by file.now c outcomes)) ≡ lines_by c outcomes }
    ensures open { let outcomes = outcomes_from base.now ours.now theirs.now 0 regions.now in
        open_conflicts (file_by file.now nothing_chosen outcomes) ≡ conflict_count outcomes }
{}

/// Proves from bytes to bytes that a merge in which a side is equal to the base gives the bytes of the
/// other side, and that a merge of two equal sides gives their bytes.
pub fn bytes_come_back(
    path: &str,
    mode: FileMode,
    base: &[u8],
    ours: &[u8],
    theirs: &[u8],
    file: &File<'_>,
)
    requires { IsMerge path.now mode (text_of_bytes base.now) (text_of_bytes ours.now)
        (text_of_bytes theirs.now) file.now }
    ensures ours_kept { ours.now ≡ base.now → merged_bytes file.now ≡ theirs.now }
    ensures theirs_kept { theirs.now ≡ base.now → merged_bytes file.now ≡ ours.now }
    ensures same { ours.now ≡ theirs.now → merged_bytes file.now ≡ ours.now }
{}

/// Proves that for any marks the lines of the merge are exactly the lines that are taken, in order:
/// `marked` is the file of a merge with any marks.
pub fn merge_has_the_taken_lines(
    path: &str,
    mode: FileMode,
    base: &str,
    ours: &str,
    theirs: &str,
    file: &File<'_>,
    marked: &File<'_>,
)
    requires merge { IsMerge path.now mode base.now ours.now theirs.now file.now }
    requires same { unchecked marked.now ≡ unchecked file.now }
    ensures { side_lines true (file_with_texts marked.now)
        ≡ map line_text (filter (is_in_side true) (lines_of_file (file_with_texts marked.now))) }
{}

/// Proves that for any marks each line of the merge is a line of the base, of ours or of theirs, in the
/// order of that text, and that none is doubled: `marked` is the file of a merge with any marks.
pub fn merge_lines_are_woven(
    path: &str,
    mode: FileMode,
    base: &str,
    ours: &str,
    theirs: &str,
    file: &File<'_>,
    marked: &File<'_>,
)
    requires merge { IsMerge path.now mode base.now ours.now theirs.now file.now }
    requires same { unchecked marked.now ≡ unchecked file.now }
    ensures { IsWoven (lines_of base.now) (lines_of ours.now) (lines_of theirs.now)
        (side_lines true (file_with_texts marked.now)) }
{}

/// Proves what a choice in the conflicts of a merge gives: the bytes of the lines of the merge by the
/// choice.
pub fn choice_gives_its_bytes(
    path: &str,
    mode: FileMode,
    base: &str,
    ours: &str,
    theirs: &str,
    file: &File<'_>,
)
    requires { IsMerge path.now mode base.now ours.now theirs.now file.now }
    ensures { GivesBytesByChoice base.now ours.now theirs.now file.now }
{}

/// Proves that a merge with markers has none if no conflict is open: it is the merge by the marks.
pub fn settled_merges_have_no_markers(file: &File<'_>, labels: Labels<'_>, least: usize)
    requires { open_conflicts file.now ≡ 0 }
    ensures { bytes_with_markers least labels.entry file.now ≡ merged_bytes file.now }
{}

/// Proves that a merge of which nothing is chosen has the lines of each conflict between its markers,
/// and no other marker.
pub fn markers_show_the_conflicts(
    path: &str,
    mode: FileMode,
    base: &str,
    ours: &str,
    theirs: &str,
    file: &File<'_>,
    labels: Labels<'_>,
    least: usize,
)
    requires { IsMerge path.now mode base.now ours.now theirs.now file.now }
    ensures { ShowsConflicts least labels.entry base.now ours.now theirs.now file.now }
{}

/// Proves that no line of the file begins with as many equal signs as a marker has, and that a marker
/// has at least `least`.
pub fn markers_are_told_apart(file: &File<'_>, least: usize)
    ensures { AreToldApart least file.now.sections }
{}

/// Proves that marks change nothing but marks: so what the laws above say of a merge with any marks is true of
/// the one that is written.
pub fn marks_change_marks_alone(file: &File<'_>, marks: &[u8])
    ensures { unchecked (marked_file marks.now file.now) ≡ unchecked file.now }
{}
