//! Centring, texts, frames, masks and the boxes of components, checked against the project's
//! values.
ghost use Rattle.std.specs.Prelude.{◌≡◌, ◌≤◌, length, pos, Some, None};
ghost use Rattle.scm_cells.specs.Clusters.{text_width};
ghost use Rattle.scm_cells.specs.Spans.{span_texts};
ghost use Rattle.scm_render.specs.Drawing.{texts_width};
ghost use Rattle.scm_render.specs.Bounds.{SightWithin};
ghost use Rattle.scm_render.specs.Canvas.{MaskIsInRange};
ghost use Rattle.scm_screen_tests.specs.Near.{IsNear, near, AreShort};

use crate::cells::{Sides, area_of, rect, rect_of, repeated};
use crate::checks::{check_equal, check_that, check_view, made};
use crate::samples::{Caption, Column, Nest, Pair, Pane};
use crate::tags::{Spot, Tag, boxed};
use scm_cells::{Grid, Line, Mask, Rect, RectSize, ScreenRect, Span, text_width};
use scm_errors::RecordError;
use scm_render::target::{holds, is_among, later_of};
use scm_render::{DrawTrace, DrawnRect, DrawnRects, Viewport, centered_rect, find_target, laws};
use std::alloc::Global;
use std::process::Abort;

/// Returns the mask of `width` columns from column `x`, for all rows from 0 on.
pub(crate) fn columns(x: isize, width: usize) -> Mask
    ensures { result ≡ record { x = x; y = pos 0; width = Some width; height = None } }
{
    Mask {
        x,
        y: 0,
        width: Some(width),
        height: None,
    }
}

/// Checks that the grid of `viewport` shows `expected`.
fn check_drawing(rt: &impl Abort, viewport: Viewport<u8>, expected: &str) {
    check_view(rt, &viewport.into_grid(), expected);
}

/// Checks that `place` is near the document's corner: at most 1000 columns or rows away.
fn check_near(rt: &impl Abort, place: isize)
    ensures { IsNear place }
{
    assert!(rt; -1000 <= place);
    assert!(rt; place <= 1000);
}

/// Checks that what `viewport` shows and its mask are near the document's corner.
fn check_sight(rt: &impl Abort, viewport: &Viewport<u8>)
    ensures { SightWithin near viewport.now.canvas.sight }
{
    let shown = viewport.rect();
    let mask = viewport.mask();
    check_near(rt, shown.x);
    check_near(rt, shown.end_x());
    check_near(rt, mask.x);
}

/// Checks that `text` is short: at most 100 columns.
fn check_text(rt: &impl Abort, text: &str)
    ensures { text_width text.now ≤ 100 }
{
    assert!(rt; text_width(text) <= 100);
}

/// Returns the number of columns of `spans`, and checks that they are few.
fn columns_of(rt: &impl Abort, spans: &[Span]) -> usize
    ensures { result ≡ texts_width (span_texts spans.now) }
{
    let mut columns = 0;
    for span in spans {
        let width = text_width(span.0);
        assert!(rt; width <= 100);
        assert!(rt; columns <= 100);
        columns += width;
    }
    columns
}

/// Checks that `spans` are short: at most 100 columns in all.
fn check_spans(rt: &impl Abort, spans: &[Span])
    ensures { texts_width (span_texts spans.now) ≤ 100 }
{
    assert!(rt; columns_of(rt, spans) <= 100);
}

/// Returns a viewport on a new grid, which shows the document from column `x` and row `y` on.
fn viewport_at(
    alloc: Global,
    x: isize,
    y: isize,
    width: u16,
    height: u16,
) -> Result<Viewport<u8>, RecordError>
    requires x { IsNear x }
    requires y { IsNear y }
{
    let grid = Grid::new(alloc, width, height)?;
    let shown = rect(x, y, width as usize, height as usize);
    Ok(Viewport::new(alloc, grid, shown))
}

/// Returns a viewport on `grid`, which has six columns and two rows and shows the document from its
/// corner on.
pub(crate) fn viewport_on(rt: &impl Abort, alloc: Global, grid: Grid) -> Viewport<u8> {
    assert_eq!(rt; (grid.width(), grid.height()), (6, 2));
    Viewport::new(alloc, grid, rect(0, 0, 6, 2))
}

/// Draws a text, and checks first that it is near the document's corner.
fn draw_text(
    rt: &impl Abort,
    viewport: &mut Viewport<u8>,
    x: isize,
    y: isize,
    spans: &[Span],
) -> Result<Rect, RecordError> {
    check_sight(rt, viewport);
    check_near(rt, x);
    check_near(rt, y);
    check_spans(rt, spans);
    laws::drawing_stays_within::<u8>();
    viewport.draw_text(x, y, spans)
}

/// Draws a line, and checks first that it is near the document's corner.
fn draw_line(
    rt: &impl Abort,
    viewport: &mut Viewport<u8>,
    x: isize,
    y: isize,
    line: &Line,
) -> Result<Rect, RecordError> {
    check_near(rt, x);
    check_near(rt, y);
    check_spans(rt, line.0.as_slice());
    laws::drawing_stays_within::<u8>();
    viewport.draw_line(x, y, line)
}

/// Draws a span, and checks first that it is near the document's corner.
fn draw_span(
    rt: &impl Abort,
    viewport: &mut Viewport<u8>,
    x: isize,
    y: isize,
    span: &Span,
) -> Result<Rect, RecordError> {
    check_near(rt, x);
    check_near(rt, y);
    check_text(rt, span.0);
    laws::drawing_stays_within::<u8>();
    viewport.draw_span(x, y, span)
}

/// Draws a frame of six columns and three rows, and checks first that it is near the document's
/// corner.
fn draw_frame(
    rt: &impl Abort,
    viewport: &mut Viewport<u8>,
    x: isize,
    y: isize,
) -> Result<Rect, RecordError> {
    check_near(rt, x);
    check_near(rt, y);
    laws::drawing_stays_within::<u8>();
    let whole = Rect {
        x,
        y,
        width: 6,
        height: 3,
    };
    viewport.draw_frame(whole, "Quit", &["body"])
}

/// Draws a caption, and checks first that it is near the document's corner.
fn draw_caption(
    rt: &impl Abort,
    viewport: &mut Viewport<u8>,
    x: isize,
    y: isize,
    caption: &Caption,
) -> Result<Rect, RecordError> {
    check_sight(rt, viewport);
    check_text(rt, caption.text);
    check_near(rt, x);
    check_near(rt, y);
    laws::parts_are_in_range::<u8>();
    laws::drawing_stays_within::<u8>();
    viewport.draw_component(x, y, caption)
}

/// Draws a caption as a part, and checks first that it is near the document's corner.
fn draw_caption_part(
    rt: &impl Abort,
    viewport: &mut Viewport<u8>,
    x: isize,
    y: isize,
    caption: &Caption,
) -> Result<(), RecordError> {
    check_sight(rt, viewport);
    check_text(rt, caption.text);
    check_near(rt, x);
    check_near(rt, y);
    laws::parts_are_in_range::<u8>();
    laws::drawing_stays_within::<u8>();
    viewport.draw_part(x, y, caption)
}

/// Draws a nest at the document's corner, and checks first that its masks and texts are near it.
fn draw_nest(
    rt: &impl Abort,
    viewport: &mut Viewport<u8>,
    nest: &Nest,
) -> Result<Rect, RecordError> {
    check_sight(rt, viewport);
    check_text(rt, nest.pane.caption.text);
    check_text(rt, nest.below.text);
    check_near(rt, nest.mask.x);
    check_near(rt, nest.pane.mask.x);
    laws::parts_are_in_range::<u8>();
    laws::drawing_stays_within::<u8>();
    viewport.draw_component(0, 0, nest)
}

/// Draws a pair of short texts on `grid`.
pub(crate) fn render_pair(
    rt: &impl Abort,
    alloc: Global,
    grid: &mut Grid,
    pair: &Pair,
) -> Result<DrawnRects<u8>, RecordError> {
    check_text(rt, pair.first.text);
    check_text(rt, pair.second.text);
    assert!(rt; grid.width() <= 100);
    assert!(rt; grid.height() <= 100);
    laws::parts_are_in_range::<u8>();
    laws::drawing_stays_within::<u8>();
    Viewport::render_top_level(alloc, grid, 0, 0, pair)
}

/// Checks that the texts of `captions` are short.
fn check_captions(rt: &impl Abort, captions: &[Caption])
    ensures { AreShort captions.now }
{
    for caption in captions {
        check_text(rt, caption.text);
    }
}

/// Draws a column of a few short texts on `grid`.
fn render_column(
    rt: &impl Abort,
    alloc: Global,
    grid: &mut Grid,
    column: &Column,
) -> Result<DrawnRects<u8>, RecordError> {
    check_captions(rt, column.captions.as_slice());
    assert!(rt; column.captions.len() <= 1000);
    assert!(rt; grid.width() <= 100);
    assert!(rt; grid.height() <= 100);
    laws::parts_are_in_range::<u8>();
    laws::drawing_stays_within::<u8>();
    Viewport::render_top_level(alloc, grid, 0, 0, column)
}

/// Draws a tag with a short label at the document's corner.
fn draw_tag(
    rt: &impl Abort,
    alloc: Global,
    viewport: &mut Viewport<u8>,
    tag: &Tag<u8>,
) -> Result<Rect, RecordError> {
    let text = boxed(alloc, tag.is_focused, tag.label)?;
    check_text(rt, text.as_str());
    laws::parts_are_in_range::<u8>();
    laws::drawing_stays_within::<u8>();
    viewport.draw_component(0, 0, tag)
}

/// Draws the spans `spans` as a line, and checks first that it is near the document's corner.
fn draw_spans(
    rt: &impl Abort,
    alloc: Global,
    viewport: &mut Viewport<u8>,
    x: isize,
    y: isize,
    spans: &[Span],
) -> Result<Rect, RecordError> {
    let line = Line(made(rt, spans.to_vec(alloc)));
    draw_line(rt, viewport, x, y, &line)
}

/// Draws a rectangle of spaces.
fn draw_blank(
    rt: &impl Abort,
    viewport: &mut Viewport<u8>,
    sides: Sides,
) -> Result<Rect, RecordError> {
    let whole = area_of(rt, sides);
    viewport.draw_blank(whole)
}

/// Returns what a click in row `y` and column `x` hits.
fn target_at(boxes: &DrawnRects<Spot>, y: isize, x: isize) -> Option<Spot> {
    find_target(boxes, y, x)
}

/// Checks rectangles in the middle of others.
pub(crate) fn check_centring(rt: &impl Abort) {
    for (whole, least, percent, expected) in CENTRED {
        check_centred(rt, *whole, *least, *percent, *expected);
    }
}

/// Rectangles, the least columns and rows of one in the middle, its part of the columns and of the rows
/// in per cent, and that rectangle.
const CENTRED: &[(Sides, (usize, usize), (usize, usize), Sides)] = &[
    ((0, 0, 80, 24), (60, 3), (60, 20), (10, 9, 60, 4)),
    ((0, 0, 10, 2), (60, 3), (60, 20), (0, 0, 10, 2)),
    ((0, 1, 80, 23), (29, 1), (50, 50), (20, 6, 40, 11)),
    ((0, 0, 4, 2), (5, 5), (50, 50), (0, 0, 4, 2)),
];

/// Checks the rectangle in the middle of another.
fn check_centred(
    rt: &impl Abort,
    whole: Sides,
    least: (usize, usize),
    percent: (usize, usize),
    expected: Sides,
) {
    let (width, height) = least;
    check_that(rt, percent.0 <= 100);
    check_that(rt, percent.1 <= 100);
    let least = RectSize { width, height };
    let centred = centered_rect(area_of(rt, whole), least, percent.0, percent.1);
    check_equal(rt, centred, rect_of(expected));
}

#[test]
fn centring(rt: HostRuntime) {
    check_centring(&rt);
}

/// Returns a box of one cell, at column 2.
fn small_box() -> DrawnRect {
    DrawnRect {
        rect: rect(2, 0, 1, 1),
        timestamp: 3,
    }
}

/// Checks that the rectangle of `trace` is `rect`, and that its box with the id 7 is `drawn`.
fn check_trace(rt: &impl Abort, trace: &DrawTrace<u8>, rect: Rect, drawn: Option<DrawnRect>) {
    check_equal(rt, trace.rect, rect);
    check_equal(rt, trace.components.get(&7).copied(), drawn);
}

#[test]
fn traces(rt: HostRuntime) {
    let alloc = rt.alloc();
    check_trace(&rt, &DrawTrace::new(alloc), rect(0, 0, 0, 0), None);
    let mut trace: DrawTrace<u8> = DrawTrace::new(alloc);
    trace.merge_rect(rect(0, 0, 1, 1));
    let mut other: DrawTrace<u8> = DrawTrace::new(alloc);
    other.merge_rect(rect(2, 0, 1, 1));
    let _ = made(&rt, other.components.insert(7, small_box()));
    check_trace(&rt, &other, rect(2, 0, 1, 1), Some(small_box()));
    made(&rt, trace.merge(other));
    check_trace(&rt, &trace, rect(0, 0, 3, 1), Some(small_box()));
}

/// Checks the place of a viewport of six columns and two rows at row 1, and the places of two
/// rectangles on its screen.
fn check_places(rt: &impl Abort, viewport: &Viewport<u8>) {
    let whole = rect(0, 1, 6, 2);
    check_equal(rt, viewport.rect(), whole);
    check_equal(rt, viewport.mask_rect(), whole);
    check_equal(rt, viewport.mask(), Mask::from(whole));
    let shown = ScreenRect {
        x: 0,
        y: 0,
        width: 3,
        height: 2,
    };
    check_equal(rt, viewport.translate_rect(rect(0, 0, 3, 1)), None);
    check_equal(rt, viewport.translate_rect(rect(0, 0, 3, 3)), Some(shown));
}

#[test]
fn viewports_have_places(rt: HostRuntime) {
    check_places(&rt, &made(&rt, viewport_at(rt.alloc(), 0, 1, 6, 2)));
}

// ---- what is drawn

/// What is drawn at a column and a row.
#[derive(Clone, Copy)]
enum Drawn<'a> {
    /// Spans, as a text.
    Text(&'a [Span<'a>]),
    /// Spans, as a line.
    Line(&'a [Span<'a>]),
    /// A span.
    Span(&'a str),
    /// A frame of six columns and three rows.
    Frame,
    /// Spaces of this many columns and rows.
    Blank(usize, usize),
    /// A caption.
    Caption(&'static str),
    /// A label between round brackets, at the document's corner.
    Tag(&'static str),
    /// A pane over a text, under masks, at the document's corner.
    Nest,
}

/// Returns a pane over a text, under a mask.
fn sample_nest() -> Nest {
    Nest {
        id: 1,
        mask: columns(1, 3),
        pane: Pane {
            id: 2,
            mask: columns(2, 4),
            caption: Caption {
                id: 3,
                text: "abcdef",
            },
        },
        below: Caption {
            id: 4,
            text: "uvwxyz",
        },
    }
}

/// Draws `drawn`, and checks first that it is near the document's corner.
fn draw(
    rt: &impl Abort,
    alloc: Global,
    viewport: &mut Viewport<u8>,
    x: isize,
    y: isize,
    drawn: Drawn<'_>,
) -> Result<Rect, RecordError> {
    match drawn {
        Drawn::Text(spans) => draw_text(rt, viewport, x, y, spans),
        Drawn::Line(spans) => draw_spans(rt, alloc, viewport, x, y, spans),
        Drawn::Span(text) => draw_span(rt, viewport, x, y, &Span(text)),
        Drawn::Frame => draw_frame(rt, viewport, x, y),
        Drawn::Blank(width, height) => draw_blank(rt, viewport, (x, y, width, height)),
        Drawn::Caption(text) => draw_caption(rt, viewport, x, y, &Caption { id: 1, text }),
        Drawn::Tag(label) => draw_label(rt, alloc, viewport, label),
        Drawn::Nest => draw_nest(rt, viewport, &sample_nest()),
    }
}

/// Draws a label between round brackets.
fn draw_label(
    rt: &impl Abort,
    alloc: Global,
    viewport: &mut Viewport<u8>,
    label: &str,
) -> Result<Rect, RecordError> {
    let tag = Tag {
        id: 1,
        label,
        is_focused: true,
    };
    draw_tag(rt, alloc, viewport, &tag)
}

/// What is drawn, its column and its row, and the rectangle that this returns.
type Call<'a> = (Drawn<'a>, isize, isize, Sides);

/// Draws as `call` says, and checks the rectangle.
fn check_call(rt: &impl Abort, alloc: Global, viewport: &mut Viewport<u8>, call: Call<'_>) {
    let (drawn, x, y, sides) = call;
    let found = made(rt, draw(rt, alloc, viewport, x, y, drawn));
    check_equal(rt, found, rect_of(sides));
}

/// Draws as `calls` say, and checks their rectangles.
fn check_calls(rt: &impl Abort, alloc: Global, viewport: &mut Viewport<u8>, calls: &[Call<'_>]) {
    for call in calls {
        check_call(rt, alloc, viewport, *call);
    }
}

/// The first row of the document on a screen and the screen's columns and rows, the mask's first column
/// and its number of columns, if there is one, what is drawn, and what the screen shows then.
type Picture = (
    (isize, u16, u16),
    Option<(isize, usize)>,
    &'static [Call<'static>],
    &'static str,
);

/// A text that is clipped at the end of the screen's second row.
const CLIPPED: Call<'static> = (Drawn::Text(&[Span("abcdef")]), 2, 2, (2, 2, 6, 1));

/// The pictures.
const PICTURES: &[Picture] = &[
    // a text, and a caption off the screen over its place
    ((1, 6, 2), None, &[CLIPPED], "\"      \"\n\"  abc…\"\n"),
    (
        (1, 6, 2),
        None,
        &[
            CLIPPED,
            (Drawn::Blank(6, 2), 0, 1, (0, 1, 6, 2)),
            (Drawn::Caption("a"), 9, 2, (5, 2, 5, 1)),
        ],
        "\"      \"\n\"     …\"\n",
    ),
    // texts of which a mask shows three columns
    (
        (0, 6, 4),
        Some((2, 3)),
        &[
            (Drawn::Span("abcdef"), 0, 0, (0, 0, 6, 1)),
            (Drawn::Span("日本"), 1, 1, (1, 1, 4, 1)),
            (Drawn::Span("a日本"), 0, 2, (0, 2, 5, 1)),
            (Drawn::Span("日本"), 2, 3, (2, 3, 4, 1)),
        ],
        "\"  cde \"\n\"   本 \"\n\"   本 \"\n\"  日  \"\n",
    ),
    (
        (0, 6, 2),
        Some((2, 3)),
        &[
            (
                Drawn::Text(&[Span("a"), Span("日"), Span("bcd")]),
                0,
                0,
                (0, 0, 6, 1),
            ),
            (
                Drawn::Line(&[Span("a"), Span("日"), Span("bcd")]),
                0,
                1,
                (0, 1, 6, 1),
            ),
        ],
        "\"   b… \"\n\"   bc \"\n",
    ),
    // a frame that begins off the screen, one that ends off it, and two that the mask clips
    (
        (0, 6, 2),
        Some((0, 6)),
        &[(Drawn::Frame, -2, -1, (-2, -1, 6, 3))],
        "\"ody│  \"\n\"───┘  \"\n",
    ),
    (
        (0, 6, 2),
        Some((0, 6)),
        &[(Drawn::Frame, 3, 1, (3, 1, 6, 3))],
        "\"      \"\n\"   ┌Qu\"\n",
    ),
    (
        (0, 6, 2),
        Some((1, 3)),
        &[(Drawn::Frame, 0, 0, (0, 0, 6, 3))],
        "\" Qui  \"\n\" bod  \"\n",
    ),
    (
        (0, 6, 2),
        Some((2, 0)),
        &[(Drawn::Frame, 0, 0, (0, 0, 6, 3))],
        "\"      \"\n\"      \"\n",
    ),
    // nested masks
    (
        (0, 6, 2),
        Some((0, 5)),
        &[(Drawn::Nest, 0, 0, (0, 0, 6, 2))],
        "\"  cdef\"\n\" vw…  \"\n",
    ),
    // a text that is made while it is drawn, and texts without columns and without symbols
    (
        (0, 6, 1),
        None,
        &[
            (Drawn::Tag("ab"), 0, 0, (0, 0, 4, 1)),
            (Drawn::Span(""), 5, 0, (5, 0, 0, 1)),
        ],
        "\"(ab)  \"\n",
    ),
    (
        (0, 6, 2),
        None,
        &[
            (Drawn::Text(&[]), 3, 0, (3, 0, 0, 1)),
            (Drawn::Line(&[]), 3, 0, (3, 0, 0, 1)),
            (Drawn::Span(""), 0, 1, (0, 1, 0, 1)),
            (Drawn::Text(&[Span("")]), 0, 0, (0, 0, 0, 1)),
            (Drawn::Line(&[Span("")]), 0, 1, (0, 1, 0, 1)),
        ],
        "\"      \"\n\"      \"\n",
    ),
    // a text that is longer than the screen's rows
    (
        (0, 6, 2),
        None,
        &[
            (Drawn::Span("abcdefgh"), 0, 1, (0, 1, 8, 1)),
            (Drawn::Text(&[Span("abcdefgh")]), 0, 0, (0, 0, 8, 1)),
            (Drawn::Line(&[Span("abcdefgh")]), 0, 1, (0, 1, 8, 1)),
        ],
        "\"abcde…\"\n\"abcdef\"\n",
    ),
];

/// Returns the mask of these columns, if any, and checks that it is near the document's corner.
fn mask_of(rt: &impl Abort, mask: Option<(isize, usize)>) -> Option<Mask>
    ensures { MaskIsInRange result }
{
    match mask {
        None => None,
        Some((left, width)) => {
            check_that(rt, 0 <= left);
            check_that(rt, left <= 100);
            check_that(rt, width <= 100);
            Some(columns(left, width))
        }
    }
}

/// Returns a viewport whose first row shows row `place.0` of the document.
fn viewport_in(rt: &impl Abort, alloc: Global, place: (isize, u16, u16)) -> Viewport<u8> {
    let (y, width, height) = place;
    check_near(rt, y);
    made(rt, viewport_at(alloc, 0, y, width, height))
}

/// Draws as `row` says, and checks the mask and the screen then.
fn check_picture(rt: &impl Abort, alloc: Global, row: Picture) {
    let mask = mask_of(rt, row.1);
    let mut viewport = viewport_in(rt, alloc, row.0);
    check_equal(rt, viewport.swap_mask(mask), None);
    check_calls(rt, alloc, &mut viewport, row.2);
    check_equal(rt, viewport.swap_mask(None), mask);
    check_drawing(rt, viewport, row.3);
}

#[test]
fn pictures(rt: HostRuntime) {
    for row in PICTURES {
        check_picture(&rt, rt.alloc(), *row);
    }
}

/// Returns a text of one column: a letter with five thousand combining marks.
fn long_text(rt: &impl Abort, alloc: Global) -> String {
    let mut text = made(rt, String::from_str(alloc, "e"));
    made(
        rt,
        text.push_str(repeated(rt, alloc, "\u{301}", 5000).as_str()),
    );
    text
}

/// Draws the text `text` of one column by each call that takes a text.
fn check_drawn(rt: &impl Abort, alloc: Global, viewport: &mut Viewport<u8>, text: &str) {
    check_call(rt, alloc, viewport, (Drawn::Span(text), 0, 1, (0, 1, 1, 1)));
    let spans = [Span(text)];
    check_call(
        rt,
        alloc,
        viewport,
        (Drawn::Text(&spans), 0, 0, (0, 0, 1, 1)),
    );
    check_call(
        rt,
        alloc,
        viewport,
        (Drawn::Line(&spans), 0, 1, (0, 1, 1, 1)),
    );
}

#[test]
fn texts_of_any_size_are_drawn(rt: HostRuntime) {
    let mut viewport = made(&rt, viewport_at(rt.alloc(), 0, 0, 6, 2));
    check_drawn(
        &rt,
        rt.alloc(),
        &mut viewport,
        long_text(&rt, rt.alloc()).as_str(),
    );
}

// ---- what is only painted, and counts

/// Returns a viewport of six columns and two rows at row 1, which keeps no boxes.
fn painting_viewport(alloc: Global) -> Result<Viewport<u8>, RecordError> {
    let grid = Grid::new(alloc, 6, 2)?;
    Ok(Viewport::for_painting(alloc, grid, rect(0, 1, 6, 2)))
}

/// Draws a caption and a part.
fn check_parts(rt: &impl Abort, viewport: &mut Viewport<u8>) {
    let caption = Caption { id: 1, text: "a" };
    made(rt, viewport.note_box(7, rect(3, 1, 2, 2)));
    let drawn = made(rt, draw_caption(rt, viewport, 9, 2, &caption));
    check_equal(rt, drawn, rect(5, 2, 5, 1));
    made(rt, draw_caption_part(rt, viewport, 0, 1, &caption));
}

#[test]
fn painting_draws_the_same(rt: HostRuntime) {
    let mut viewport = made(&rt, painting_viewport(rt.alloc()));
    check_call(&rt, rt.alloc(), &mut viewport, CLIPPED);
    check_parts(&rt, &mut viewport);
    check_drawing(&rt, viewport, "\"a     \"\n\"  abc…\"\n");
}

/// Checks whether `viewport` keeps boxes, and which of five rows it draws, from row 0 and from row 3 on.
fn check_rows(
    rt: &impl Abort,
    viewport: &Viewport<u8>,
    keeps_boxes: bool,
    rows: [(usize, usize); 2],
) {
    check_equal(rt, viewport.keeps_boxes(), keeps_boxes);
    let found = [viewport.rows_to_draw(0, 5), viewport.rows_to_draw(3, 5)];
    check_equal(rt, found, rows);
}

#[test]
fn painting_passes_over_rows(rt: HostRuntime) {
    let drawn = made(&rt, viewport_at(rt.alloc(), 0, 1, 6, 2));
    check_rows(&rt, &drawn, true, [(0, 5), (0, 5)]);
    let painted = made(&rt, painting_viewport(rt.alloc()));
    check_rows(&rt, &painted, false, [(1, 3), (0, 0)]);
}

/// Draws a text off the screen, and checks the counted rows and calls.
fn check_counts(rt: &impl Abort, mut grid: Grid) {
    check_equal(rt, (grid.width(), grid.height()), (6, 2));
    check_equal(rt, (grid.rows_drawn(), grid.calls()), (1, 1));
    grid.clear();
    check_equal(rt, (grid.rows_drawn(), grid.calls()), (0, 0));
}

#[test]
fn counts(rt: HostRuntime) {
    let mut viewport = made(&rt, viewport_at(rt.alloc(), 0, 0, 6, 2));
    viewport.begin_row();
    made(&rt, viewport.note_box(7, rect(9, 9, 2, 1)));
    check_equal(&rt, viewport.cover(rect(3, 1, 2, 2)), rect(3, 1, 2, 2));
    let call = (Drawn::Text(&[Span("abcdefgh")]), 2, 9, (2, 9, 8, 1));
    check_call(&rt, rt.alloc(), &mut viewport, call);
    check_counts(&rt, viewport.into_grid());
}

// ---- frames

/// Fills `width` columns and `height` rows by each call that fills.
fn check_filled(
    rt: &impl Abort,
    viewport: &mut Viewport<u8>,
    width: u16,
    height: u16,
    body: &[&str],
) {
    let whole = rect(0, 0, width as usize, height as usize);
    check_equal(rt, made(rt, viewport.draw_blank(whole)), whole);
    let drawn = made(rt, viewport.draw_frame(whole, "Quit", body));
    check_equal(rt, drawn, whole);
}

/// Columns and rows of frames, and what they show.
const FRAMES: &[(u16, u16, &str)] = &[
    (10, 2, "\"┌Quit────┐\"\n\"└────────┘\"\n"),
    (1, 1, "\"┌\"\n"),
    (1, 2, "\"┌\"\n\"└\"\n"),
    (2, 1, "\"┌┐\"\n"),
    (0, 0, ""),
    (0, 2, ""),
    (3, 3, "\"┌Q┐\"\n\"│b│\"\n\"└─┘\"\n"),
];

/// Draws a frame over a screen, and checks what that shows.
fn check_frame(rt: &impl Abort, alloc: Global, row: (u16, u16, &str)) {
    let (width, height, expected) = row;
    let mut viewport = made(rt, viewport_at(alloc, 0, 0, width, height));
    check_filled(rt, &mut viewport, width, height, &["body"]);
    check_drawing(rt, viewport, expected);
}

#[test]
fn frames(rt: HostRuntime) {
    for row in FRAMES {
        check_frame(&rt, rt.alloc(), *row);
    }
}

/// Columns and rows.
const SIZES: &[(u16, u16)] = &[(0, 0), (0, 9), (9, 0), (1, 1), (5000, 5000)];

/// Fills rectangles of each size.
fn check_all_filled(rt: &impl Abort, viewport: &mut Viewport<u8>, body: &[&str]) {
    for (width, height) in SIZES {
        check_filled(rt, viewport, *width, *height, body);
    }
}

#[test]
fn frames_of_any_size_are_drawn(rt: HostRuntime) {
    let mut viewport = made(&rt, viewport_at(rt.alloc(), 0, 0, 6, 2));
    check_all_filled(&rt, &mut viewport, &[]);
    let body = made(&rt, vec![in rt.alloc(); "日本語"; 5000]);
    check_all_filled(&rt, &mut viewport, body.as_slice());
}

// ---- boxes

/// Checks the box of `id`: its rectangle, and its rank in the order in which components begin, from
/// 0.
fn check_box(rt: &impl Abort, boxes: &DrawnRects<u8>, id: u8, expected: (Rect, usize)) {
    let (rect, timestamp) = expected;
    let expected = DrawnRect { rect, timestamp };
    check_equal(rt, boxes.get(&id).copied(), Some(expected));
}

/// Returns two texts with the same id, in a pair with the id 1.
fn twins() -> Pair {
    Pair {
        id: 1,
        first: Caption { id: 2, text: "ab" },
        second: Caption { id: 2, text: "c" },
    }
}

#[test]
fn boxes(rt: HostRuntime) {
    let mut grid = made(&rt, Grid::new(rt.alloc(), 6, 3));
    let drawn = made(&rt, render_pair(&rt, rt.alloc(), &mut grid, &twins()));
    check_box(&rt, &drawn, 1, (rect(0, 0, 2, 2), 0));
    check_box(&rt, &drawn, 2, (rect(0, 1, 1, 1), 2));
    check_view(&rt, &grid, "\"ab    \"\n\"c     \"\n\"      \"\n");
}

/// Returns three texts: of wide symbols, longer than the grid, and without columns.
fn sample_column(rt: &impl Abort, alloc: Global) -> Column {
    let captions = vec![in alloc;
        Caption { id: 2, text: "日" },
        Caption {
            id: 3,
            text: "abcdefgh"
        },
        Caption { id: 4, text: "" },
    ];
    Column {
        id: 1,
        captions: made(rt, captions),
    }
}

/// What `sample_column` shows.
const CAPTIONS: &str = "\"日    \"\n\"abcde…\"\n\"      \"\n\"      \"\n";

/// The boxes of `sample_column`: the id, the row, the columns, the rows, and the rank.
const BOXES: &[(u8, isize, usize, usize, usize)] = &[
    (1, 0, 8, 2, 0),
    (2, 0, 2, 1, 1),
    (3, 1, 8, 1, 2),
    (4, 0, 0, 0, 3),
];

/// Checks the boxes of `sample_column`.
fn check_boxes(rt: &impl Abort, drawn: &DrawnRects<u8>) {
    for (id, y, width, height, rank) in BOXES {
        check_box(rt, drawn, *id, (rect(0, *y, *width, *height), *rank));
    }
}

#[test]
fn rows_of_captions(rt: HostRuntime) {
    let mut grid = made(&rt, Grid::new(rt.alloc(), 6, 4));
    let column = sample_column(&rt, rt.alloc());
    let drawn = made(&rt, render_column(&rt, rt.alloc(), &mut grid, &column));
    check_boxes(&rt, &drawn);
    check_view(&rt, &grid, CAPTIONS);
}

/// Adds two hundred texts, each with an id of its own.
fn push_captions(rt: &impl Abort, captions: &mut Vec<Caption>) {
    for id in 0..200u8 {
        made(rt, captions.push(Caption { id, text: "a" }));
    }
}

/// Returns a thousand texts with two hundred ids.
fn long_column(rt: &impl Abort, alloc: Global) -> Column {
    let mut captions = Vec::new(alloc);
    for _ in 0..5 {
        push_captions(rt, &mut captions);
    }
    Column { id: 255, captions }
}

#[test]
fn a_thousand_boxes(rt: HostRuntime) {
    let mut grid = made(&rt, Grid::new(rt.alloc(), 6, 4));
    let column = long_column(&rt, rt.alloc());
    let drawn = made(&rt, render_column(&rt, rt.alloc(), &mut grid, &column));
    check_equal(&rt, drawn.len(), 201);
    check_box(&rt, &drawn, 7, (rect(0, 807, 1, 1), 808));
}

#[test]
fn components_are_drawn_without_places(rt: HostRuntime) {
    let mut nowhere = made(&rt, Grid::new(rt.alloc(), 0, 0));
    let captions = Vec::new(rt.alloc());
    let column = Column { id: 1, captions };
    let drawn = made(&rt, render_column(&rt, rt.alloc(), &mut nowhere, &column));
    check_equal(&rt, drawn.len(), 1);
}

// ---- targets

/// Boxes: the number, the column, the row, the columns, the rows, and the rank.
const SPOTS: &[(u8, isize, isize, usize, usize, usize)] = &[
    (0, 0, 0, 9, 9, 4),
    (1, 0, 0, 4, 2, 1),
    (2, 2, 1, 4, 2, 3),
    (3, 3, 1, 0, 2, 5),
];

/// Adds the box of a row of `SPOTS`.
fn insert_spot(
    rt: &impl Abort,
    boxes: &mut DrawnRects<Spot>,
    row: (u8, isize, isize, usize, usize, usize),
) {
    let (number, x, y, width, height, timestamp) = row;
    let rect = rect(x, y, width, height);
    let _ = made(
        rt,
        boxes.insert(Spot { number }, DrawnRect { rect, timestamp }),
    );
}

/// Rows and columns, and the number of the box that a click there hits, if any.
const CLICKS: &[(isize, isize, Option<u8>)] = &[
    (0, 0, Some(1)),
    (1, 2, Some(2)),
    (1, 3, Some(2)),
    (2, 5, Some(2)),
    (2, 6, None),
    (8, 8, None),
    (-1, 0, None),
];

/// Checks what clicks hit.
fn check_targets(rt: &impl Abort, boxes: &DrawnRects<Spot>) {
    for (y, x, expected) in CLICKS {
        let found = target_at(boxes, *y, *x);
        check_equal(rt, found.map(|spot| spot.number), *expected);
    }
}

#[test]
fn targets(rt: HostRuntime) {
    let mut boxes: DrawnRects<Spot> = DrawnRects::new(rt.alloc());
    for row in SPOTS {
        insert_spot(&rt, &mut boxes, *row);
    }
    check_targets(&rt, &boxes);
}

/// Rows and columns, whether a box has the place, and whether the column is one of the box's.
const HELD: &[(isize, isize, (bool, bool))] = &[
    (2, -1, (true, true)),
    (2, 1, (true, true)),
    (2, 2, (false, false)),
    (1, 0, (false, true)),
    (3, -2, (false, false)),
    (isize::MAX, isize::MIN, (false, false)),
];

#[test]
fn places_in_boxes(rt: HostRuntime) {
    let held = rect(-1, 2, 3, 1);
    for (y, x, expected) in HELD {
        let found = (holds(held, *y, *x), is_among(held.x, held.width, *x));
        check_equal(&rt, (*y, *x, found), (*y, *x, *expected));
    }
}

/// Returns the entry of an empty box with an id, of a component with a rank.
fn entry(of: (u8, usize)) -> (u8, DrawnRect) {
    let rect = rect(0, 0, 0, 0);
    let timestamp = of.1;
    (of.0, DrawnRect { rect, timestamp })
}

/// The ids and ranks of the later box so far, if any, and of the next one, and the id of the later
/// of both.
const LATER: &[(Option<(u8, usize)>, (u8, usize), u8)] = &[
    (None, (1, 4), 1),
    (Some((1, 4)), (2, 5), 2),
    (Some((1, 4)), (2, 3), 1),
    (Some((1, 4)), (2, 4), 2),
];

#[test]
fn later_boxes(rt: HostRuntime) {
    for (found, next, expected) in LATER {
        let later = later_of(found.map(|of| entry(of)), entry(*next));
        check_equal(&rt, later.map(|(id, _)| id), Some(*expected));
    }
}
