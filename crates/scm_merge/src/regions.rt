//! The regions in which three lists of lines differ.
ghost use Rattle.std.specs.Prelude.{◌≡◌, ◌≤◌, IfNone, IfOk, IfSome, drop, length};
ghost use Rattle.std.specs.List.{AllByRecursion};
ghost use Rattle.scm_diff.specs.Hunks.{AreHunks};
ghost use Rattle.scm_merge.specs.Regions.{AreAt, AreAtEnd, AreRegions, AreRegionsBy, IsAbsorbed, IsEnd, IsFound, IsFullyGrown, IsGrown, IsMadeFrom, IsNeeded, earlier, first_start, IsChangedRegion};

use crate::cursor::{Cursor, advanced, is_due, passed};
use crate::region::Region;
use scm_diff::Hunk;
use scm_types::Text;
use std::alloc::{AllocError, Global};

/// A region that grows, with a cursor of each side in it.
#[derive(Clone, Copy)]
pub(crate) struct Growth {
    /// The first line of the region in the base.
    pub(crate) start: usize,

    /// The end of the region in the base so far, exclusive.
    pub(crate) end: usize,

    /// The end of the last hunk of our side in the region, or its start.
    pub(crate) ours: Cursor,

    /// The end of the last hunk of their side in the region, or its start.
    pub(crate) theirs: Cursor,
}

/// The same place in all three lists.
#[derive(Clone, Copy)]
pub(crate) struct Cursors {
    /// The place in our lines.
    pub(crate) ours: Cursor,

    /// The place in their lines.
    pub(crate) theirs: Cursor,
}

/// A region, and the place where it ends.
#[derive(Clone, Copy)]
pub(crate) struct Found {
    /// The region.
    pub(crate) region: Region,

    /// Its end.
    pub(crate) cursors: Cursors,
}

/// Lets the region reach over one more hunk that begins in it or at its end, if there is one.
fn absorbed(
    base: &[Text<'_>],
    ours: &[Text<'_>],
    theirs: &[Text<'_>],
    ours_hunks: &[Hunk],
    theirs_hunks: &[Hunk],
    growth: Growth,
) -> Option<Growth>
    requires grown { IsGrown base.now ours.now theirs.now ours_hunks.now theirs_hunks.now growth }
    requires needed { IsNeeded ours_hunks.now theirs_hunks.now growth }
    ensures some { IfSome result
        (IsAbsorbed base.now ours.now theirs.now ours_hunks.now theirs_hunks.now growth) }
    ensures needed { IfSome result (IsNeeded ours_hunks.now theirs_hunks.now) }
    ensures none { IfNone result (IsEnd ours_hunks.now theirs_hunks.now growth) }
{
    if is_due(ours_hunks, growth.ours, growth.end) {
        let cursor = passed(base, ours, ours_hunks, growth.ours, growth.end);
        return Some(Growth {
            start: growth.start,
            end: growth.end.max(cursor.base),
            ours: cursor,
            theirs: growth.theirs,
        });
    }
    if is_due(theirs_hunks, growth.theirs, growth.end) {
        let cursor = passed(base, theirs, theirs_hunks, growth.theirs, growth.end);
        return Some(Growth {
            start: growth.start,
            end: growth.end.max(cursor.base),
            ours: growth.ours,
            theirs: cursor,
        });
    }
    None
}

/// Lets the region reach over all hunks that begin in it or at its end.
fn fully_grown(
    base: &[Text<'_>],
    ours: &[Text<'_>],
    theirs: &[Text<'_>],
    ours_hunks: &[Hunk],
    theirs_hunks: &[Hunk],
    first: Growth,
) -> Growth
    requires grown { IsGrown base.now ours.now theirs.now ours_hunks.now theirs_hunks.now first }
    requires needed { IsNeeded ours_hunks.now theirs_hunks.now first }
    ensures grown { IsFullyGrown base.now ours.now theirs.now
        ours_hunks.now theirs_hunks.now first result }
    ensures needed { IsNeeded ours_hunks.now theirs_hunks.now result }
{
    let mut growth = first;
    'grow: while let Some(more) = absorbed(base, ours, theirs, ours_hunks, theirs_hunks, growth) {
        growth = more;
    }
    growth
}

/// Returns where the next hunk begins in the base, if there is one.
fn start_of(hunks: &[Hunk], cursor: Cursor) -> Option<usize>
    ensures { result ≡ first_start (drop cursor.next hunks.now) }
{
    match hunks.get(cursor.next) {
        Some(hunk) => Some(hunk.old_start),
        None => None,
    }
}

/// Returns the smaller one of two numbers, of which each may be missing.
fn earlier(first: Option<usize>, second: Option<usize>) -> Option<usize>
    ensures { result ≡ earlier first second }
{
    match (first, second) {
        (None, None) => None,
        (None, Some(number)) => Some(number),
        (Some(number), None) => Some(number),
        (Some(first), Some(second)) => Some(first.min(second)),
    }
}

/// Returns the region that begins at line `start` of the base, where the next hunk begins.
fn region_at(
    base: &[Text<'_>],
    ours: &[Text<'_>],
    theirs: &[Text<'_>],
    ours_hunks: &[Hunk],
    theirs_hunks: &[Hunk],
    cursors: Cursors,
    start: usize,
) -> Found
    requires at { AreAt base.now ours.now theirs.now ours_hunks.now theirs_hunks.now cursors }
    requires first { Some start ≡ earlier (first_start (drop cursors.ours.next ours_hunks.now))
        (first_start (drop cursors.theirs.next theirs_hunks.now)) }
    ensures found { IsFound base.now ours.now theirs.now ours_hunks.now theirs_hunks.now cursors result }
    ensures made { IsMadeFrom ours_hunks.now theirs_hunks.now cursors result }
{
    let our_start = advanced(base, ours, ours_hunks, cursors.ours, start);
    let their_start = advanced(base, theirs, theirs_hunks, cursors.theirs, start);
    let first = Growth {
        start,
        end: start,
        ours: our_start,
        theirs: their_start,
    };
    let last = fully_grown(base, ours, theirs, ours_hunks, theirs_hunks, first);
    let our_end = advanced(base, ours, ours_hunks, last.ours, last.end);
    let their_end = advanced(base, theirs, theirs_hunks, last.theirs, last.end);
    Found {
        region: Region {
            base_start: start,
            base_end: last.end,
            ours_start: our_start.side,
            ours_end: our_end.side,
            theirs_start: their_start.side,
            theirs_end: their_end.side,
        },
        cursors: Cursors {
            ours: our_end,
            theirs: their_end,
        },
    }
}

/// Returns the next region, or `None` if no hunk is left.
fn next_region(
    base: &[Text<'_>],
    ours: &[Text<'_>],
    theirs: &[Text<'_>],
    ours_hunks: &[Hunk],
    theirs_hunks: &[Hunk],
    cursors: Cursors,
) -> Option<Found>
    requires { AreAt base.now ours.now theirs.now ours_hunks.now theirs_hunks.now cursors }
    ensures some { IfSome result
        (IsFound base.now ours.now theirs.now ours_hunks.now theirs_hunks.now cursors) }
    ensures made { IfSome result (IsMadeFrom ours_hunks.now theirs_hunks.now cursors) }
    ensures none { IfNone result (AreAtEnd ours_hunks.now theirs_hunks.now cursors) }
{
    let first = start_of(ours_hunks, cursors.ours);
    let second = start_of(theirs_hunks, cursors.theirs);
    match earlier(first, second) {
        Some(start) => Some(region_at(
            base,
            ours,
            theirs,
            ours_hunks,
            theirs_hunks,
            cursors,
            start,
        )),
        None => None,
    }
}

/// Returns the regions in which the three lists differ, in order: each is a run of hunks, of both
/// sides, that overlap or touch in the base.
pub(crate) fn regions_of(
    alloc: Global,
    base: &[Text<'_>],
    ours: &[Text<'_>],
    theirs: &[Text<'_>],
    ours_hunks: &[Hunk],
    theirs_hunks: &[Hunk],
) -> Result<Vec<Region>, AllocError>
    requires of_ours { AreHunks base.now ours.now ours_hunks.now }
    requires of_theirs { AreHunks base.now theirs.now theirs_hunks.now }
    ensures regions { IfOk result
        (λ regions. AreRegions base.now ours.now theirs.now regions.items) }
    ensures changed { IfOk result (λ regions. AllByRecursion
        (IsChangedRegion ours_hunks.now theirs_hunks.now) regions.items) }
    ensures made { IfOk result
        (λ regions. AreRegionsBy ours_hunks.now theirs_hunks.now 0 regions.items) }
{
    let mut regions = Vec::new(alloc);
    let begin = Cursor {
        base: 0,
        side: 0,
        next: 0,
    };
    let mut cursors = Cursors {
        ours: begin,
        theirs: begin,
    };
    'regions: while let Some(found) = next_region(
        base,
        ours,
        theirs,
        ours_hunks,
        theirs_hunks,
        cursors,
    ) {
        regions.push(found.region)?;
        cursors = found.cursors;
    }
    Ok(regions)
}
