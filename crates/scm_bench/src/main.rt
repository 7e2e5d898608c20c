//! Measures how long drawing texts through a viewport and filling a grid take, beside cutting and
//! measuring the same texts.
//!
//! Without an argument the program prints nothing. With a number of frames it prints the
//! nanoseconds of all frames, each of 80 by 24 columns.
#![tactic(auto)]

ghost use Rattle.std.specs.Prelude.{◌≡◌, ◌≤◌, IfOk};
ghost use Rattle.scm_cells.specs.Clusters.{text_width};

use scm_cells::{Grid, Rect, Span, text_width};
use scm_render::{Viewport, laws};
use std::alloc::Global;
use std::env;
use std::rt::Clock;
use std::time::Instant;

/// The columns of the grid.
const WIDTH: u16 = 80;

/// The rows of the grid.
const HEIGHT: u16 = 24;

/// Clears the grid and puts `text` on each of its rows.
fn fill(grid: &mut Grid, text: &str) -> anyhow::Result<()> {
    grid.clear();
    for row in 0..HEIGHT as usize {
        let width = grid.width();
        if row < grid.height() {
            grid.put(row, 0, text, 0, width)?;
        }
    }
    Ok(())
}

/// Draws `text` on each row of a cleared screen, which shows the document from row 0, column 0.
fn draw(alloc: Global, mut grid: Grid, text: &str) -> anyhow::Result<Grid>
    requires screen { grid.width ≤ 100 }
    requires text { text_width text.now ≤ 100 }
    ensures { IfOk result (λ drawn. drawn.width ≡ grid.width) }
{
    grid.clear();
    let rect = Rect {
        x: 0,
        y: 0,
        width: grid.width(),
        height: grid.height(),
    };
    let mut viewport: Viewport<u8> = Viewport::new(alloc, grid, rect);
    laws::drawing_stays_within::<u8>();
    for row in 0..HEIGHT {
        viewport.draw_text(0, row as isize, &[Span(text)])?;
    }
    Ok(viewport.into_grid())
}

/// Fills the grid `frames` times.
fn fill_frames(grid: &mut Grid, text: &str, frames: u64) -> anyhow::Result<()> {
    for _ in 0..frames {
        fill(grid, text)?;
    }
    Ok(())
}

/// Draws on the grid `frames` times.
fn draw_frames(alloc: Global, grid: Grid, text: &str, frames: u64) -> anyhow::Result<Grid>
    requires screen { grid.width ≤ 100 }
    requires text { text_width text.now ≤ 100 }
{
    let mut drawn = grid;
    for _ in 0..frames {
        drawn = draw(alloc, drawn, text)?;
    }
    Ok(drawn)
}

/// Cuts and measures `text` as often as `frames` frames draw it.
fn cut_frames(text: &str, frames: u64) -> usize {
    let mut columns = 0;
    for _ in 0..frames {
        for _ in 0..HEIGHT {
            columns ^= text_width(text);
        }
    }
    columns
}

/// Returns `text`, repeated `times` times.
fn repeated(alloc: Global, text: &str, times: usize) -> anyhow::Result<String> {
    let mut all = String::new(alloc);
    for _ in 0..times {
        all.push_str(text)?;
    }
    Ok(all)
}

/// Prints the times of `frames` frames of `text`, if it fits a screen of 100 columns.
fn measure<R: Print + Clock>(
    rt: &R,
    alloc: Global,
    name: &str,
    text: &str,
    frames: u64,
) -> anyhow::Result<()> {
    let mut grid = Grid::new(alloc, WIDTH, HEIGHT)?;
    if grid.width() > 100 || text_width(text) > 100 {
        return Ok(());
    }
    fill(&mut grid, text)?;
    let start = Instant::now(rt)?;
    fill_frames(&mut grid, text, frames)?;
    let filled = start.elapsed(rt)?.as_nanos();
    let fresh = Grid::new(alloc, WIDTH, HEIGHT)?;
    let start = Instant::now(rt)?;
    let drawn_grid = draw_frames(alloc, fresh, text, frames)?;
    let drawn = start.elapsed(rt)?.as_nanos();
    let start = Instant::now(rt)?;
    let columns = cut_frames(text, frames) ^ drawn_grid.width();
    let cut = start.elapsed(rt)?.as_nanos();
    println!(rt;
        "{name}: {drawn} ns to draw, {filled} ns to fill, {cut} ns to cut and measure ({columns})"
    )?;
    Ok(())
}

fn main(rt: HostRuntime) -> anyhow::Result<()> {
    let Some(argument) = env::args(&rt)?.nth(1) else {
        return Ok(());
    };
    let frames: u64 = argument.as_str().parse()?;
    let alloc = rt.alloc();
    let ascii = repeated(alloc, "abcdefgh", 10)?;
    let wide = repeated(alloc, "日本語文", 10)?;
    let marks = repeated(alloc, "e\u{301}o\u{308}", 40)?;
    let lines = repeated(alloc, "│ ", 40)?;
    println!(rt; "{frames} frames of 80 by 24 columns")?;
    measure(&rt, alloc, "ASCII", ascii.as_str(), frames)?;
    measure(&rt, alloc, "wide", wide.as_str(), frames)?;
    measure(&rt, alloc, "combining", marks.as_str(), frames)?;
    measure(&rt, alloc, "lines", lines.as_str(), frames)?;
    Ok(())
}
