//! How the layer looks on a terminal: calls without a view.
use crate::checks::{check_equal, made};
use scm_front_paint::{FrontPainter, Heard, Label, Pane, Theme, heard_as, themed};
use scm_record::{
    Colour, KeyCode, KeyEvent, KeyEventKind, KeyModifiers, OwnedText, Style, TerminalEvent,
};
use std::alloc::{AllocError, Global};

/// The event of pressing the key `>`.
const RIGHT: TerminalEvent = TerminalEvent::Key(KeyEvent {
    code: KeyCode::Char('>'),
    modifiers: KeyModifiers::NONE,
    kind: KeyEventKind::Press,
});

/// Returns whether `heard` shows the window from column `column` on.
fn is_shown_from(heard: Heard, column: u16) -> bool {
    matches!(heard, Heard::Show(x) if x == column)
}

/// Returns whether `heard` hands an event to the session.
fn is_handed_on(heard: Heard) -> bool {
    matches!(heard, Heard::Hand(_))
}

#[test]
fn keys_move_a_pane(rt: HostRuntime) {
    let pane = Pane {
        x: 0,
        width: 9,
        height: 4,
    };
    check_equal(&rt, is_shown_from(heard_as(pane, true, 0, RIGHT), 4), true);
    check_equal(&rt, is_handed_on(heard_as(pane, false, 0, RIGHT)), true);
}

#[test]
fn themes_change_styles(rt: HostRuntime) {
    let style = Style::PLAIN.coloured(Colour::Cyan).reversed();
    check_equal(
        &rt,
        themed(Theme::NoColours, style),
        Style::PLAIN.reversed(),
    );
}

/// Returns a label of the first file's second section.
fn label_of(alloc: Global, text: &str) -> Result<Label, AllocError> {
    Ok(Label {
        file: 0,
        section: 1,
        text: OwnedText::from(String::from_str(alloc, text)?),
    })
}

/// Labels, of which each replaces the one before it.
const LABELS: &[&str] = &["ours", "theirs", ""];

#[test]
fn labels_replace_each_other(rt: HostRuntime) {
    let mut painter = FrontPainter::new(rt.alloc(), Theme::Dark);
    for text in LABELS {
        let label = made(&rt, label_of(rt.alloc(), *text));
        made(&rt, painter.label(label));
    }
}
