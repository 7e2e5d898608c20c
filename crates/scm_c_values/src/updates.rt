//! Synchronized updates for the terminal.
ghost use Rattle.std.specs.Prelude.{◌≡◌, IfSome, string_bytes};
ghost use Rattle.scm_c_values.specs.Updates.{Shows, as_update};
ghost use Rattle.scm_record.specs.Painted.{picture_of};

use scm_record::{LiveSession, Painter};
use std::alloc::Global;

/// Returns `bytes` as one synchronized update of the terminal, with no style set at its end: no byte, if
/// there are none. Returns `None` if an allocation failed.
#[tactic(auto, unfolding(scm_terminal::specs::Style::style_bytes))]
pub fn update_of(alloc: Global, bytes: &str) -> Option<String>
    ensures { IfSome result (λ update. string_bytes update ≡ as_update bytes.now) }
{
    let mut update = String::new(alloc);
    if bytes.is_empty() {
        return Some(update);
    }
    update.push_str("\x1b[?2026h").ok()?;
    update.push_str(bytes).ok()?;
    update.push_str("\x1b[0m\x1b[?2026l").ok()?;
    Some(update)
}

/// Returns the update that makes the terminal show `session`, if it shows what `painter` painted last.
/// Returns `None` if an allocation failed.
pub fn update_of_session(
    alloc: Global,
    session: &LiveSession<'static>,
    painter: &mut Painter,
) -> Option<String>
    ensures shown { IfSome result
        (λ update. Shows session.now painter.old (string_bytes update)) }
    ensures painted { IfSome result (λ update. painter.new ≡ picture_of session.now) }
{
    let bytes = session.paint(painter).ok()?;
    update_of(alloc, &bytes)
}
