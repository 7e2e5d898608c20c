//! Components drawn alone: on the screen, off it and under a mask, and how much each draws.
ghost use Rattle.std.specs.Prelude.{◌≡◌};
ghost use Rattle.std.specs.List.{list_all};
ghost use Rattle.scm_types.specs.Limits.{is_short_option, is_short_text};
ghost use Rattle.scm_view.specs.ComponentRanges.{are_short_buttons, is_short_button, is_short_item, is_short_menu, text_of_line};
ghost use Rattle.scm_screen_tests.specs.Corner.{IsAtCorner, SightIsAtCorner};

use crate::checks::made;
use crate::views::check_screen;
use scm_cells::{Grid, Mask, Rect};
use scm_render::Viewport;
use scm_samples::{ADDED, REMOVED, owned};
use scm_types::{ChangeType, Commit, Items, OwnedText, RecordError, Text, Tristate};
use scm_view::{
    Button, CommitMessageView, ComponentId, Dialog, HelpDialog, LineKey, Menu, MenuBar, MenuItem,
    QuitDialog, QuitDialogButtonId, SectionLineView, SectionLineViewInner, SelectionKey,
    TristateBox, TristateIconStyle, laws,
};
use std::alloc::Global;
use std::process::Abort;

/// The place of a component: the mask's first column and number of columns, and the component's
/// column and row.
pub(crate) type Place = (isize, usize, isize, isize);

/// Returns a viewport on a new grid of 20 columns and 3 rows, under a mask of `width` columns from
/// column `left`.
pub(crate) fn viewport_under(
    rt: &impl Abort,
    alloc: Global,
    left: isize,
    width: usize,
) -> Viewport<ComponentId> {
    let grid = made(rt, Grid::new(alloc, 20, 3));
    viewport_on(rt, alloc, grid, left, width)
}

/// Returns a viewport on a grid of 20 columns and 3 rows, under a mask of `width` columns from
/// column `left`.
pub(crate) fn viewport_on(
    rt: &impl Abort,
    alloc: Global,
    grid: Grid,
    left: isize,
    width: usize,
) -> Viewport<ComponentId> {
    assert!(rt; 0 <= left);
    assert!(rt; left <= 100);
    assert!(rt; width <= 100);
    assert_eq!(rt; (grid.width(), grid.height()), (20, 3));
    let rect = Rect {
        x: 0,
        y: 0,
        width: 20,
        height: 3,
    };
    let mut viewport = Viewport::new(alloc, grid, rect);
    let mask = Mask {
        x: left,
        y: 0,
        width: Some(width),
        height: None,
    };
    let _ = viewport.swap_mask(Some(mask));
    viewport
}

/// Checks that `place` is near the document's corner: at most 1000 columns or rows away.
pub(crate) fn check_near(rt: &impl Abort, place: isize)
    ensures { IsAtCorner place }
{
    assert!(rt; -1000 <= place);
    assert!(rt; place <= 1000);
}

/// Checks that what `viewport` shows and its mask are near the document's corner.
pub(crate) fn check_sight(rt: &impl Abort, viewport: &Viewport<ComponentId>)
    ensures { SightIsAtCorner viewport.now.canvas.sight }
{
    let shown = viewport.rect();
    let mask = viewport.mask();
    check_near(rt, shown.x);
    check_near(rt, shown.end_x());
    check_near(rt, shown.y);
    check_near(rt, shown.end_y());
    check_near(rt, mask.x);
    check_near(rt, mask.y);
}

/// Checks that the screen shows `rows`, and that the counted rows and calls are `counts`.
pub(crate) fn check_drawing(
    rt: &impl Abort,
    viewport: Viewport<ComponentId>,
    rows: &str,
    counts: (usize, usize),
) {
    check_screen(rt, &viewport.into_grid(), rows, counts);
}

// ---- buttons

/// Draws a button with a short label.
fn draw_button(
    rt: &impl Abort,
    viewport: &mut Viewport<ComponentId>,
    x: isize,
    y: isize,
    button: &Button<'_, ComponentId>,
) {
    check_near(rt, x);
    check_near(rt, y);
    assert!(rt; button.label.len() <= 1_000_000);
    laws::components_are_in_range();
    scm_render::laws::parts_are_in_range::<ComponentId>();
    let _ = made(rt, viewport.draw_component(x, y, button));
}

// ---- lines

/// Returns whether the text of `view` is within the limit of a state's texts.
fn is_short_line(view: &SectionLineView<'_>) -> bool
    ensures { result ≡ is_short_text (text_of_line view.now.inner) }
{
    match &view.inner {
        SectionLineViewInner::Unchanged { line, .. } => line.len() <= 1_000_000,
        SectionLineViewInner::Changed { line, .. } => line.len() <= 1_000_000,
    }
}

/// Draws a line with a short text.
fn draw_line(
    rt: &impl Abort,
    viewport: &mut Viewport<ComponentId>,
    x: isize,
    y: isize,
    view: &SectionLineView<'_>,
) {
    check_sight(rt, viewport);
    check_near(rt, x);
    check_near(rt, y);
    assert!(rt; is_short_line(view));
    laws::components_are_in_range();
    scm_render::laws::parts_are_in_range::<ComponentId>();
    let _ = made(rt, viewport.draw_component(x, y, view));
}

/// The key of each line.
const KEY: LineKey = LineKey {
    commit_idx: 0,
    file_idx: 0,
    section_idx: 0,
    line_idx: 0,
};

/// Returns a checked line that is `change_type`.
fn changed_line(change_type: ChangeType) -> SectionLineView<'static> {
    SectionLineView {
        line_key: KEY,
        inner: SectionLineViewInner::Changed {
            toggle_box: TristateBox {
                use_unicode: true,
                is_focused: false,
                is_read_only: false,
                id: ComponentId::ToggleBox(SelectionKey::Line(KEY)),
                tristate: Tristate::True,
                icon_style: TristateIconStyle::Check,
            },
            change_type,
            line: "ab\n",
        },
    }
}

/// Returns a line of context with the number `line_num`.
fn context_line(line_num: usize) -> SectionLineView<'static> {
    SectionLineView {
        line_key: KEY,
        inner: SectionLineViewInner::Unchanged {
            line: "ab\n",
            line_num,
        },
    }
}

// ---- menus

/// Returns whether all labels are within the limit of a state's texts.
fn has_short_items(items: &[MenuItem<'_>]) -> bool
    ensures { result ≡ list_all is_short_item items.now }
{
    items.iter().all(|item| item.label.len() <= 1_000_000)
}

/// Returns whether the labels of `menu` are short, and its items few.
fn is_short_menu(menu: &Menu<'_>) -> bool
    ensures { result ≡ is_short_menu menu.now }
{
    menu.label.len() <= 1_000_000
        && (menu.items.len() <= 1000 && has_short_items(menu.items.as_slice()))
}

/// Returns whether all menus are short.
pub(crate) fn has_short_menus(menus: &[Menu<'_>]) -> bool
    ensures { result ≡ list_all is_short_menu menus.now }
{
    menus.iter().all(|menu| is_short_menu(menu))
}

/// Returns the items of a menu.
fn items_of(rt: &impl Abort, alloc: Global, labels: &[&'static str]) -> Items<MenuItem<'static>> {
    let mut items = Items::new(alloc);
    for label in labels {
        let label = Text::from(*label);
        made(rt, items.push(MenuItem { label }));
    }
    items
}

/// The label of a menu, and those of its items.
type Labels = (&'static str, &'static [&'static str]);

/// Returns the menu with these labels.
fn menu_of(rt: &impl Abort, alloc: Global, labels: Labels) -> Menu<'static> {
    Menu {
        label: Text::from(labels.0),
        items: items_of(rt, alloc, labels.1),
    }
}

/// A menu of two items.
const MENU: Labels = ("M", &["a", "long"]);

/// The menus of a bar.
const MENUS: &[Labels] = &[("File", &["a"]), ("Edit", &["long"])];

/// Draws a menu with short labels.
fn draw_menu(
    rt: &impl Abort,
    viewport: &mut Viewport<ComponentId>,
    x: isize,
    y: isize,
    menu: &Menu<'_>,
) {
    check_near(rt, x);
    check_near(rt, y);
    assert!(rt; is_short_menu(menu));
    laws::components_are_in_range();
    scm_render::laws::parts_are_in_range::<ComponentId>();
    let _ = made(rt, viewport.draw_component(x, y, menu));
}

/// Returns the menus of `MENUS`.
fn menus_of(rt: &impl Abort, alloc: Global) -> Items<Menu<'static>> {
    let mut menus = Items::new(alloc);
    for labels in MENUS {
        made(rt, menus.push(menu_of(rt, alloc, *labels)));
    }
    menus
}

/// Returns a bar of two menus, of which `expanded_menu_idx` is open, if any.
fn bar_of(rt: &impl Abort, alloc: Global, expanded_menu_idx: Option<usize>) -> MenuBar<'static> {
    MenuBar {
        menus: menus_of(rt, alloc),
        expanded_menu_idx,
    }
}

/// Draws a bar of short menus.
fn draw_bar(
    rt: &impl Abort,
    viewport: &mut Viewport<ComponentId>,
    x: isize,
    y: isize,
    bar: &MenuBar<'_>,
) {
    check_sight(rt, viewport);
    check_near(rt, x);
    check_near(rt, y);
    assert!(rt; bar.menus.len() <= 1000);
    assert!(rt; has_short_menus(bar.menus.as_slice()));
    laws::components_are_in_range();
    scm_render::laws::parts_are_in_range::<ComponentId>();
    let _ = made(rt, viewport.draw_component(x, y, bar));
}

// ---- dialogs

/// Returns whether all labels are within the limit of a state's texts.
fn has_short_labels(buttons: &[Button<'_, ComponentId>]) -> bool
    ensures { result ≡ list_all is_short_button buttons.now }
{
    buttons.iter().all(|button| button.label.len() <= 1_000_000)
}

/// Returns whether the buttons are few, and their labels short.
fn are_short_buttons(buttons: &[Button<'_, ComponentId>]) -> bool
    ensures { result ≡ are_short_buttons buttons.now }
{
    buttons.len() <= 1000 && has_short_labels(buttons)
}

/// Draws a dialog with short labels.
fn draw_dialog(
    rt: &impl Abort,
    viewport: &mut Viewport<ComponentId>,
    dialog: &Dialog<'_, ComponentId>,
) {
    check_sight(rt, viewport);
    assert!(rt; are_short_buttons(dialog.buttons));
    laws::components_are_in_range();
    scm_render::laws::parts_are_in_range::<ComponentId>();
    let _ = made(rt, viewport.draw_component(0, 0, dialog));
}

/// Draws the dialog that asks whether to quit, for a session without changes.
fn draw_quit(rt: &impl Abort, viewport: &mut Viewport<ComponentId>, dialog: &QuitDialog) {
    check_sight(rt, viewport);
    laws::components_are_in_range();
    scm_render::laws::parts_are_in_range::<ComponentId>();
    let _ = made(rt, viewport.draw_component(0, 0, dialog));
}

/// Draws the help dialog.
fn draw_help(rt: &impl Abort, viewport: &mut Viewport<ComponentId>, dialog: &HelpDialog) {
    check_sight(rt, viewport);
    laws::components_are_in_range();
    scm_render::laws::parts_are_in_range::<ComponentId>();
    let _ = made(rt, viewport.draw_component(0, 0, dialog));
}

// ---- messages

/// Draws the message of a commit.
fn draw_message(
    rt: &impl Abort,
    viewport: &mut Viewport<ComponentId>,
    x: isize,
    y: isize,
    view: &CommitMessageView<'_>,
) {
    check_sight(rt, viewport);
    check_near(rt, x);
    check_near(rt, y);
    assert!(rt; has_short_message(&view.commit.message));
    laws::components_are_in_range();
    scm_render::laws::parts_are_in_range::<ComponentId>();
    let _ = made(rt, viewport.draw_component(x, y, view));
}

/// Returns whether `message` is within the limit of a state's texts.
fn has_short_message(message: &Option<OwnedText>) -> bool
    ensures { result ≡ is_short_option message.now }
{
    match message {
        Some(text) => text.len() <= 1_000_000,
        None => true,
    }
}

// ---- all components

/// A component of the tests.
#[derive(Clone, Copy)]
pub(crate) enum Shown {
    /// A button, and whether it has the focus.
    Button(bool),
    /// A checked line, which is added or removed.
    Changed(ChangeType),
    /// A line of context with its number.
    Context(usize),
    /// The items of a menu.
    Menu,
    /// A bar of two menus, and which one is open.
    Bar(Option<usize>),
    /// A dialog with a body of one line, and one button.
    Dialog,
    /// The dialog that asks whether to quit.
    Quit,
    /// The help.
    Help,
    /// The message of a commit.
    Message(&'static str),
}

/// Returns a button with the label `label`.
fn button_of(
    id: ComponentId,
    label: &'static str,
    is_focused: bool,
) -> Button<'static, ComponentId> {
    Button {
        id,
        label: Text::from(label),
        is_focused,
    }
}

/// Draws a dialog with a body of one line, and one button.
fn draw_line_and_button(rt: &impl Abort, viewport: &mut Viewport<ComponentId>) {
    let dialog = Dialog {
        id: ComponentId::App,
        title: Text::from("T"),
        body: &["hi"],
        buttons: &[button_of(ComponentId::MenuBar, "Ok", false)],
    };
    draw_dialog(rt, viewport, &dialog);
}

/// The dialog that asks whether to quit a session without changes.
const QUIT: QuitDialog = QuitDialog {
    num_commit_messages: 0,
    num_changed_files: 0,
    focused_button: QuitDialogButtonId::Quit,
};

/// Draws the message `text` of a commit.
fn draw_text(
    rt: &impl Abort,
    alloc: Global,
    viewport: &mut Viewport<ComponentId>,
    x: isize,
    y: isize,
    text: &str,
) {
    let commit = Commit {
        message: Some(made(rt, owned(alloc, text))),
    };
    let view = CommitMessageView {
        commit_idx: 0,
        commit: &commit,
    };
    draw_message(rt, viewport, x, y, &view);
}

/// Draws a button.
fn draw_go(
    rt: &impl Abort,
    viewport: &mut Viewport<ComponentId>,
    x: isize,
    y: isize,
    is_focused: bool,
) {
    let button = button_of(ComponentId::App, "Go", is_focused);
    draw_button(rt, viewport, x, y, &button);
}

/// Draws the menu `MENU`.
fn draw_items(
    rt: &impl Abort,
    alloc: Global,
    viewport: &mut Viewport<ComponentId>,
    x: isize,
    y: isize,
) {
    draw_menu(rt, viewport, x, y, &menu_of(rt, alloc, MENU));
}

/// Draws a bar of two menus, of which `open` is open, if any.
fn draw_menus(
    rt: &impl Abort,
    alloc: Global,
    viewport: &mut Viewport<ComponentId>,
    x: isize,
    y: isize,
    open: Option<usize>,
) {
    draw_bar(rt, viewport, x, y, &bar_of(rt, alloc, open));
}

/// Draws the component `shown`. A dialog is in the middle of the screen.
fn draw_shown(
    rt: &impl Abort,
    alloc: Global,
    viewport: &mut Viewport<ComponentId>,
    x: isize,
    y: isize,
    shown: Shown,
) {
    match shown {
        Shown::Button(is_focused) => draw_go(rt, viewport, x, y, is_focused),
        Shown::Changed(change_type) => draw_line(rt, viewport, x, y, &changed_line(change_type)),
        Shown::Context(line_num) => draw_line(rt, viewport, x, y, &context_line(line_num)),
        Shown::Menu => draw_items(rt, alloc, viewport, x, y),
        Shown::Bar(open) => draw_menus(rt, alloc, viewport, x, y, open),
        Shown::Dialog => draw_line_and_button(rt, viewport),
        Shown::Quit => draw_quit(rt, viewport, &QUIT),
        Shown::Help => draw_help(rt, viewport, &HelpDialog()),
        Shown::Message(text) => draw_text(rt, alloc, viewport, x, y, text),
    }
}

/// A component: its place, the screen's rows, and the counted rows and calls.
pub(crate) type Row = (Shown, Place, &'static str, (usize, usize));

/// Draws the component of `row` on `grid`, and checks the screen and the counts.
pub(crate) fn check_shown(rt: &impl Abort, alloc: Global, grid: Grid, row: Row) {
    let (shown, (left, width, x, y), rows, counts) = row;
    let mut viewport = viewport_on(rt, alloc, grid, left, width);
    draw_shown(rt, alloc, &mut viewport, x, y, shown);
    check_drawing(rt, viewport, rows, counts);
}

/// A message of two lines.
const MESSAGE: Shown = Shown::Message("hi\nmore");

/// The components, each on a blank screen.
const ROWS: &[Row] = &[
    // a button: one call each, even off the screen; it is no row of the document
    (Shown::Button(false), (0, 20, 3, 1), "\n   [Go]\n\n", (0, 1)),
    (Shown::Button(true), (0, 20, 3, 1), "\n   (Go)\n\n", (0, 1)),
    (
        Shown::Button(false),
        (0, 20, 18, 2),
        "\n\n                  [G\n",
        (0, 1),
    ),
    (Shown::Button(false), (0, 20, -2, 0), "o]\n\n\n", (0, 1)),
    (Shown::Button(false), (4, 2, 3, 1), "\n    Go\n\n", (0, 1)),
    (Shown::Button(false), (0, 20, 3, 3), "\n\n\n", (0, 1)),
    (Shown::Button(true), (0, 20, 3, -1), "\n\n\n", (0, 1)),
    // a changed line: on the screen a row of two calls, whatever the mask shows; the text ends at the
    // mask's end
    (
        Shown::Changed(ADDED),
        (0, 20, 2, 1),
        "\n  [●] + ab⏎\n\n",
        (1, 2),
    ),
    (
        Shown::Changed(REMOVED),
        (0, 20, 2, 2),
        "\n\n  [●] - ab⏎\n",
        (1, 2),
    ),
    (
        Shown::Changed(ADDED),
        (0, 9, 2, 0),
        "  [●] + …\n\n\n",
        (1, 2),
    ),
    (
        Shown::Changed(ADDED),
        (3, 6, 2, 1),
        "\n   ●] + …\n\n",
        (1, 2),
    ),
    (Shown::Changed(ADDED), (0, 0, 2, 1), "\n\n\n", (1, 2)),
    (Shown::Changed(ADDED), (0, 20, 2, 3), "\n\n\n", (0, 0)),
    (Shown::Changed(REMOVED), (0, 20, 2, -1), "\n\n\n", (0, 0)),
    // a line of context: on the screen a row of one call, whatever the mask shows
    (
        Shown::Context(7),
        (0, 20, 2, 1),
        "\n      7 ab⏎\n\n",
        (1, 1),
    ),
    (
        Shown::Context(100_000),
        (0, 20, 2, 2),
        "\n\n  100000 ab⏎\n",
        (1, 1),
    ),
    (Shown::Context(7), (0, 20, -3, 0), " 7 ab⏎\n\n\n", (1, 1)),
    (Shown::Context(7), (0, 9, 2, 0), "      7 …\n\n\n", (1, 1)),
    (Shown::Context(7), (4, 4, 2, 1), "\n      7…\n\n", (1, 1)),
    (Shown::Context(7), (0, 0, 2, 1), "\n\n\n", (1, 1)),
    (Shown::Context(7), (0, 20, 2, 3), "\n\n\n", (0, 0)),
    (Shown::Context(7), (0, 20, 2, -1), "\n\n\n", (0, 0)),
    // a menu: two calls for each item, even off the screen; items are no rows of the document
    (Shown::Menu, (0, 20, 3, 0), "   [a]\n   [long]\n\n", (0, 4)),
    (Shown::Menu, (0, 20, -2, 2), "\n\n]\n", (0, 4)),
    (
        Shown::Menu,
        (0, 20, 17, -1),
        "                 [lo\n\n\n",
        (0, 4),
    ),
    (Shown::Menu, (4, 2, 3, 1), "\n    a]\n    lo\n", (0, 4)),
    (Shown::Menu, (0, 20, 3, 3), "\n\n\n", (0, 4)),
    (Shown::Menu, (0, 20, 20, 0), "\n\n\n", (0, 4)),
    // a menu bar: a blank, a call for each title, and two calls for each item of the open menu
    (
        Shown::Bar(None),
        (0, 20, 0, 0),
        "[File] [Edit]\n\n\n",
        (0, 3),
    ),
    (
        Shown::Bar(Some(1)),
        (0, 20, 0, 0),
        "[File] [Edit]\n       [long]\n\n",
        (0, 5),
    ),
    (
        Shown::Bar(Some(1)),
        (0, 20, -3, 1),
        "\nle] [Edit]\n    [long]\n",
        (0, 5),
    ),
    (Shown::Bar(Some(1)), (4, 2, 0, 0), "    e]\n\n\n", (0, 5)),
    (Shown::Bar(Some(0)), (0, 20, 0, 3), "\n\n\n", (0, 5)),
    (
        Shown::Bar(Some(2)),
        (0, 20, 0, 0),
        "[File] [Edit]\n\n\n",
        (0, 3),
    ),
    // a dialog: a frame and a call for each button, whatever the mask shows; it is in the middle of the
    // screen
    (
        Shown::Dialog,
        (0, 20, 0, 0),
        "    ┌T─────────┐\n    │hi        │\n    └──────[Ok]┘\n",
        (0, 2),
    ),
    (
        Shown::Dialog,
        (6, 4, 0, 0),
        "      ────\n      i\n      ────\n",
        (0, 2),
    ),
    (
        Shown::Quit,
        (0, 20, 0, 0),
        "┌Quit──────────────┐\n│Are you sure you w│\n└──[Go Back]─(Quit)┘\n",
        (0, 3),
    ),
    (
        Shown::Quit,
        (10, 5, 0, 0),
        "          ─────\n          ure y\n          k]─(Q\n",
        (0, 3),
    ),
    (Shown::Quit, (20, 9, 0, 0), "\n\n\n", (0, 3)),
    (
        Shown::Help,
        (0, 20, 0, 0),
        "┌Help──────────────┐\n│You can click the │\n└───────────(Close)┘\n",
        (0, 2),
    ),
    (Shown::Help, (0, 0, 0, 0), "\n\n\n", (0, 2)),
    // a message: up to three rows that are on the screen, one call each for the first and the third,
    // three for the second
    (MESSAGE, (0, 20, 0, 0), "\n[Edit message]  •  …\n\n", (3, 5)),
    (MESSAGE, (0, 20, -10, 0), "\nage]  •  hi\n\n", (3, 5)),
    (MESSAGE, (4, 8, 0, 0), "\n    t messa…\n\n", (3, 5)),
    (MESSAGE, (0, 20, -10, -1), "age]  •  hi\n\n\n", (2, 4)),
    (MESSAGE, (0, 20, 0, 1), "\n\n[Edit message]  •  …\n", (2, 4)),
    (MESSAGE, (0, 20, 0, 2), "\n\n\n", (1, 1)),
    (MESSAGE, (0, 20, 0, 3), "\n\n\n", (0, 0)),
];

/// Draws the component of `row` on a blank screen, and checks it.
fn check_alone(rt: &impl Abort, alloc: Global, row: Row) {
    check_shown(rt, alloc, made(rt, Grid::new(alloc, 20, 3)), row);
}

#[test]
fn components_are_drawn_alone(rt: HostRuntime) {
    for row in ROWS {
        check_alone(&rt, rt.alloc(), *row);
    }
}

/// Returns a viewport on 32 columns and 3 rows.
fn wide_viewport(alloc: Global) -> Result<Viewport<ComponentId>, RecordError> {
    let grid = Grid::new(alloc, 32, 3)?;
    let rect = Rect {
        x: 0,
        y: 0,
        width: 32,
        height: 3,
    };
    Ok(Viewport::new(alloc, grid, rect))
}

/// The dialog that asks whether to quit, on 32 columns.
const WIDE: &str =
    "┌Quit──────────────────────────┐\n│Are you sure you want to quit?│\n└──────────────[Go Back]─(Quit)┘\n";

#[test]
fn a_question_without_counts_is_shown_whole(rt: HostRuntime) {
    let mut viewport = made(&rt, wide_viewport(rt.alloc()));
    draw_quit(&rt, &mut viewport, &QUIT);
    check_drawing(&rt, viewport, WIDE, (0, 3));
}
