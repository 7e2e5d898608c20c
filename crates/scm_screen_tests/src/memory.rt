//! Refused memory: calls that take none, and what it leaves of a grid and of a trace. No contract says
//! that the calls that do not allocate succeed then. `tools/refuse-memory` runs each test with each of
//! its requests for memory refused. The checks hold then, and the test passes or ends in `OutOfMemory`.
use crate::cells::{
    check_marks, check_masks, check_points, check_rectangles, check_sizes, check_texts, rect,
};
use crate::checks::check_equal;
use crate::render::{check_centring, columns, render_pair, viewport_on};
use crate::samples::{Caption, Pair};
use scm_cells::{Grid, Mask};
use scm_errors::RecordError;
use scm_render::{Component, DrawTrace, DrawnRect, DrawnRects};
use std::alloc::Global;
use std::process::Abort;

/// Checks the calls on rectangles, sizes, masks and texts.
fn check_values(rt: &impl Abort) {
    check_rectangles(rt);
    check_points(rt);
    check_sizes(rt);
    check_masks(rt);
    check_marks(rt);
    check_texts(rt);
    check_centring(rt);
    let caption = Caption { id: 7, text: "a" };
    check_equal(rt, caption.id(), 7);
}

/// Checks the calls on a grid of six columns and two rows, and on a viewport over it.
fn check_viewport(rt: &impl Abort, alloc: Global, mut grid: Grid) {
    grid.clear();
    let mut viewport = viewport_on(rt, alloc, grid);
    check_equal(rt, viewport.rect(), rect(0, 0, 6, 2));
    check_equal(rt, viewport.mask(), Mask::from(rect(0, 0, 6, 2)));
    check_equal(rt, viewport.swap_mask(Some(columns(2, 3))), None);
    check_equal(rt, viewport.mask_rect(), rect(2, 0, 3, 2));
    check_equal(rt, viewport.translate_rect(rect(7, 0, 3, 1)), None);
    let grid = viewport.into_grid();
    check_equal(rt, (grid.width(), grid.height()), (6, 2));
}

/// Checks the calls on an empty trace.
fn check_trace(rt: &impl Abort, alloc: Global) {
    let mut trace: DrawTrace<u8> = DrawTrace::new(alloc);
    trace.merge_rect(rect(1, 1, 2, 1));
    check_equal(rt, trace.rect, rect(1, 1, 2, 1));
}

#[test]
fn refused_memory_stops_no_call_that_takes_none(rt: HostRuntime) -> Result<(), RecordError> {
    check_values(&rt);
    check_trace(&rt, rt.alloc());
    check_viewport(&rt, rt.alloc(), Grid::new(rt.alloc(), 6, 2)?);
    Ok(())
}

// ---- calls that take memory

/// Returns two texts.
fn pair() -> Pair {
    Pair {
        id: 1,
        first: Caption { id: 2, text: "ab" },
        second: Caption { id: 3, text: "c" },
    }
}

/// Draws two texts on `grid`, which has six columns and three rows, and keeps them.
fn check_grid(rt: &impl Abort, alloc: Global, grid: &mut Grid) -> Result<(), RecordError> {
    let drawn = render_pair(rt, alloc, grid, &pair());
    check_equal(rt, (grid.width(), grid.height()), (6, 3));
    check_equal(rt, drawn?.len(), 3);
    Ok(())
}

#[test]
fn refused_memory_keeps_sizes_of_grids(rt: HostRuntime) -> Result<(), RecordError> {
    let mut grid = Grid::new(rt.alloc(), 6, 3)?;
    check_grid(&rt, rt.alloc(), &mut grid)
}

/// Returns `count` boxes with the ids from 0 on, all with the same rectangle and `timestamp`.
fn boxes_of(alloc: Global, count: u8, timestamp: usize) -> Result<DrawnRects<u8>, RecordError> {
    let mut boxes = DrawnRects::new(alloc);
    for id in 0..count {
        let rect = rect(2, 0, 1, 1);
        let _ = boxes.insert(id, DrawnRect { rect, timestamp })?;
    }
    Ok(boxes)
}

/// Merges traces of one cell with the boxes `one` and `other`: the trace has all 20 boxes, or memory is
/// refused and it has its own.
fn check_merge(
    rt: &impl Abort,
    one: DrawnRects<u8>,
    other: DrawnRects<u8>,
) -> Result<(), RecordError> {
    let mut trace: DrawTrace<u8> = DrawTrace {
        rect: rect(0, 0, 1, 1),
        components: one,
    };
    let outcome = trace.merge(DrawTrace {
        rect: rect(2, 0, 1, 1),
        components: other,
    });
    let (width, count, timestamp) = if outcome.is_ok() {
        (3, 20, 6)
    } else {
        (1, 1, 5)
    };
    check_equal(rt, trace.rect, rect(0, 0, width, 1));
    check_equal(rt, trace.components.len(), count);
    let first = trace.components.get(&0).copied();
    check_equal(rt, first.map(|drawn| drawn.timestamp), Some(timestamp));
    outcome
}

#[test]
fn refused_memory_keeps_traces(rt: HostRuntime) -> Result<(), RecordError> {
    let one = boxes_of(rt.alloc(), 1, 5)?;
    check_merge(&rt, one, boxes_of(rt.alloc(), 20, 6)?)
}
