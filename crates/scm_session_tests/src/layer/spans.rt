//! Spans of lines on the screen of a view.
use crate::checks::{check_equal, made};
use crate::layer::states::state_of_files;
use scm_front::{Front, FrontTurn};
use scm_front_paint::{FrontPainter, Syntax, SyntaxSpan, Theme, View};
use scm_record::{Event, TerminalKind};
use std::alloc::Global;
use std::process::Abort;

/// The size of the session.
const SIZE: TerminalKind = TerminalKind::Testing {
    width: 80,
    height: 24,
};

/// Returns a view of the state of the table, with everything unfolded.
fn unfolded(rt: &impl Abort, alloc: Global) -> View<'static> {
    let state = made(rt, state_of_files(alloc));
    assert!(rt; state.is_accepted());
    let front = made(rt, Front::new(alloc, SIZE, state));
    match made(rt, front.handle(Event::ExpandAll)) {
        FrontTurn::Waiting(front) => made(rt, View::new(front, 80, 24)),
        FrontTurn::Editing(_) | FrontTurn::Accepted(_) => panic!(rt; "the session waits no more"),
    }
}

/// Returns whether what paints `view` has the word `three` in magenta.
fn is_magenta(rt: &impl Abort, painter: &mut FrontPainter, view: &View<'_>) -> bool {
    painter.forget();
    made(rt, painter.paint(view, ""))
        .as_str()
        .contains("\x1b[0;35mthree")
}

#[test]
fn spans_have_their_styles(rt: HostRuntime) {
    let view = unfolded(&rt, rt.alloc());
    let mut painter = FrontPainter::new(rt.alloc(), Theme::Light);
    check_equal(&rt, is_magenta(&rt, &mut painter, &view), false);
    let span = SyntaxSpan {
        start: 0,
        end: 5,
        syntax: Syntax::Number,
    };
    made(&rt, painter.set_spans(&view, 0, 1, 2, &[span]));
    check_equal(&rt, is_magenta(&rt, &mut painter, &view), true);
}
