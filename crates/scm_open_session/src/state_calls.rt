//! Calls that make a state and begin a session with it. Each returns its code.
ghost use Rattle.std.specs.Prelude.{◌≡◌, ◌<◌, None, Some, true};
ghost use Rattle.scm_embed.specs.declared.addition.Addition.TheVariants as additions;
ghost use Rattle.scm_embed.specs.declared.addition.Part.TheVariants as parts;
ghost use Rattle.scm_open_session.specs.Boxes.{box_value};
ghost use Rattle.scm_c_values.specs.Codes.{IsCode};
ghost use Rattle.scm_open_session.specs.Stages.{ChangesStage, IsOpenAt};
ghost use Rattle.scm_c_values.specs.Screens.{screen_of};
ghost use Rattle.scm_open_session.specs.Building.{Adds, BeginsState, Builds, StartsSession, code_of_addition, BuildsChange, code_of_change, code_of_text_change};
ghost use Rattle.scm_c_values.specs.FromBytes.{binary_of_bytes, changes_of_bytes, context_of_bytes, file_of_bytes, line_of_bytes, message_of_bytes, mode_of_bits, text_of_bytes};
ghost use Rattle.scm_c_values.specs.Texts.{given_change, seen_change};

use crate::open_session::{OpenSession, Session};
use scm_c_values::additions::{
    binary_of, changes_of, context_of, file_of, line_of, message_of, mode_of,
};
use scm_c_values::codes;
use scm_c_values::texts::{TextChange, paths_of, text_change_of};
use scm_diff::text_of_bytes;
use scm_embed::{Addition, Part};
use std::alloc::Global;

/// Returns a session over a state without commits and files, which later calls make, and the code of the call. A failed call
/// returns a closed session.
pub fn open(alloc: Global, is_read_only: bool) -> (Session, u32)
    ensures code { IsCode true 0 result.1 }
    ensures begun { result.1 ≡ 0 → IsOpenAt (BeginsState is_read_only) (box_value result.0) }
    ensures refused { 0 < result.1 → box_value result.0 ≡ None }
{
    match OpenSession::building(alloc, is_read_only) {
        Some(inner) => (Some(inner), codes::DONE),
        None => (None, codes::NO_MEMORY),
    }
}

/// Adds `addition` to the state that is made. Returns the code of the call.
fn add(alloc: Global, session: &mut Session, addition: Addition<'_>) -> u32
    ensures code { IsCode true
        (code_of_addition (Some addition.entry) (box_value session.old)) result }
    ensures added { result ≡ 0 → ChangesStage (Builds addition.entry)
        (box_value session.old) (box_value session.new) }
    ensures kept { 0 < result → box_value session.new ≡ box_value session.old }
{
    match session {
        Some(inner) => inner.add(alloc, addition),
        None => codes::CLOSED,
    }
}

/// Adds `addition` to the state that is made. `None` is of bytes that are not UTF-8. Returns the
/// code of the call.
fn add_text(alloc: Global, session: &mut Session, addition: Option<Addition<'_>>) -> u32
    ensures code { IsCode true
        (code_of_addition addition.entry (box_value session.old)) result }
    ensures added { result ≡ 0
        → Adds addition.entry (box_value session.old) (box_value session.new) }
    ensures kept { 0 < result → box_value session.new ≡ box_value session.old }
{
    match addition {
        Some(addition) => add(alloc, session, addition),
        None => codes::NOT_TEXT,
    }
}

/// Adds a commit without a message. Returns the code of the call.
pub fn add_commit(alloc: Global, session: &mut Session) -> u32
    ensures code { IsCode true
        (code_of_addition (Some (additions.Commit None)) (box_value session.old)) result }
    ensures added { result ≡ 0 → ChangesStage (Builds (additions.Commit None))
        (box_value session.old) (box_value session.new) }
    ensures kept { 0 < result → box_value session.new ≡ box_value session.old }
{
    add(alloc, session, Addition::Commit { message: None })
}

/// Adds a commit with the message `text`. Returns the code of the call.
pub fn add_message(alloc: Global, session: &mut Session, text: &[u8]) -> u32
    ensures code { IsCode true
        (code_of_addition (message_of_bytes text.now) (box_value session.old)) result }
    ensures added { result ≡ 0 → Adds (message_of_bytes text.now)
        (box_value session.old) (box_value session.new) }
    ensures kept { 0 < result → box_value session.new ≡ box_value session.old }
{
    add_text(alloc, session, message_of(text))
}

/// Adds a file without sections. Returns the code of the call.
pub fn add_file(
    alloc: Global,
    session: &mut Session,
    path: &[u8],
    old_path: &[u8],
    mode: usize,
) -> u32
    ensures code { IsCode true
        (code_of_addition (file_of_bytes path.now old_path.now mode) (box_value session.old))
        result }
    ensures added { result ≡ 0 → Adds (file_of_bytes path.now old_path.now mode)
        (box_value session.old) (box_value session.new) }
    ensures kept { 0 < result → box_value session.new ≡ box_value session.old }
{
    add_text(alloc, session, file_of(path, old_path, mode))
}

/// Adds the context lines of `text` to the last file. Returns the code of the call.
pub fn add_context(alloc: Global, session: &mut Session, text: &[u8]) -> u32
    ensures code { IsCode true
        (code_of_addition (context_of_bytes text.now) (box_value session.old)) result }
    ensures added { result ≡ 0 → Adds (context_of_bytes text.now)
        (box_value session.old) (box_value session.new) }
    ensures kept { 0 < result → box_value session.new ≡ box_value session.old }
{
    add_text(alloc, session, context_of(text))
}

/// Adds the changed lines of `text` to the last file: added ones if `is_added`, or else removed
/// ones. Returns the code of the call.
pub fn add_changes(
    alloc: Global,
    session: &mut Session,
    is_added: bool,
    is_checked: bool,
    text: &[u8],
) -> u32
    ensures code { IsCode true
        (code_of_addition (changes_of_bytes is_added is_checked text.now)
        (box_value session.old)) result }
    ensures added { result ≡ 0 → Adds (changes_of_bytes is_added is_checked text.now)
        (box_value session.old) (box_value session.new) }
    ensures kept { 0 < result → box_value session.new ≡ box_value session.old }
{
    add_text(alloc, session, changes_of(is_added, is_checked, text))
}

/// Adds the line that is the whole of `text` to the last file: a changed line if `is_changed`, or else
/// a context line. Returns the code of the call.
pub fn add_line(
    alloc: Global,
    session: &mut Session,
    is_changed: bool,
    is_added: bool,
    is_checked: bool,
    text: &[u8],
) -> u32
    ensures code { IsCode true
        (code_of_addition (line_of_bytes is_changed is_added is_checked text.now)
        (box_value session.old)) result }
    ensures added { result ≡ 0 → Adds (line_of_bytes is_changed is_added is_checked text.now)
        (box_value session.old) (box_value session.new) }
    ensures kept { 0 < result → box_value session.new ≡ box_value session.old }
{
    add_text(
        alloc,
        session,
        line_of(is_changed, is_added, is_checked, text),
    )
}

/// Adds a section without lines to the last file: of changed lines if `is_changed`, or else of
/// context lines. Returns the code of the call.
pub fn add_section(alloc: Global, session: &mut Session, is_changed: bool) -> u32
    ensures code { IsCode true
        (code_of_addition (Some (additions.Part (parts.Lines is_changed)))
        (box_value session.old)) result }
    ensures added { result ≡ 0 → ChangesStage (Builds (additions.Part (parts.Lines is_changed)))
        (box_value session.old) (box_value session.new) }
    ensures kept { 0 < result → box_value session.new ≡ box_value session.old }
{
    let part = Part::Lines { is_changed };
    add(alloc, session, Addition::Part { part })
}

/// Adds a section that changes the mode of the last file to `mode`. Returns the code of the call.
pub fn add_mode(alloc: Global, session: &mut Session, is_checked: bool, mode: usize) -> u32
    ensures code { IsCode true
        (code_of_addition (Some (additions.Part (parts.Mode is_checked (mode_of_bits mode))))
        (box_value session.old)) result }
    ensures added { result ≡ 0
        → ChangesStage (Builds (additions.Part (parts.Mode is_checked (mode_of_bits mode))))
        (box_value session.old) (box_value session.new) }
    ensures kept { 0 < result → box_value session.new ≡ box_value session.old }
{
    let part = Part::Mode {
        is_checked,
        mode: mode_of(mode),
    };
    add(alloc, session, Addition::Part { part })
}

/// Adds a section that changes the binary contents of the last file. Returns the code of the call.
pub fn add_binary(
    alloc: Global,
    session: &mut Session,
    is_checked: bool,
    old: &[u8],
    new: &[u8],
) -> u32
    ensures code { IsCode true
        (code_of_addition (binary_of_bytes is_checked old.now new.now)
        (box_value session.old)) result }
    ensures added { result ≡ 0 → Adds (binary_of_bytes is_checked old.now new.now)
        (box_value session.old) (box_value session.new) }
    ensures kept { 0 < result → box_value session.new ≡ box_value session.old }
{
    add_text(alloc, session, binary_of(is_checked, old, new))
}

/// Adds the file that shows how the bytes `old` become the bytes `new`. Each mode is that of a version,
/// `usize::MAX` of a file that does not exist. Returns the code of the call.
pub fn add_texts(
    alloc: Global,
    session: &mut Session,
    path: &[u8],
    old_path: &[u8],
    old: &[u8],
    old_mode: usize,
    new: &[u8],
    new_mode: usize,
) -> u32
    ensures code { IsCode true (code_of_change
        (given_change path.now old_path.now old.now old_mode new.now new_mode)
        (box_value session.old)) result }
    ensures added { result ≡ 0 → ChangesStage (BuildsChange
        (given_change path.now old_path.now old.now old_mode new.now new_mode))
        (box_value session.old) (box_value session.new) }
    ensures kept { 0 < result → box_value session.new ≡ box_value session.old }
{
    let Some((path_text, old_path_text)) = paths_of(path, old_path) else {
        return codes::NOT_TEXT;
    };
    let Ok(old_text) = text_of_bytes(alloc, old) else {
        return codes::NO_MEMORY;
    };
    let Ok(new_text) = text_of_bytes(alloc, new) else {
        return codes::NO_MEMORY;
    };
    let change = text_change_of(
        path_text,
        old_path_text,
        old_text.as_str(),
        old_mode,
        new_text.as_str(),
        new_mode,
    );
    add_change(alloc, session, change)
}

/// Adds the file that shows `change`. Returns the code of the call.
fn add_change(alloc: Global, session: &mut Session, change: TextChange<'_>) -> u32
    ensures code { IsCode true
        (code_of_text_change (seen_change change.entry) (box_value session.old)) result }
    ensures added { result ≡ 0 → ChangesStage (BuildsChange (seen_change change.entry))
        (box_value session.old) (box_value session.new) }
    ensures kept { 0 < result → box_value session.new ≡ box_value session.old }
{
    match session {
        Some(inner) => inner.add_change(alloc, change),
        None => codes::CLOSED,
    }
}

/// Begins the session with the state that is made, on a screen of `width` columns and `height` rows.
/// Returns the code of the call.
pub fn begin(alloc: Global, session: &mut Session, width: u16, height: u16) -> u32
    ensures { StartsSession (screen_of width height)
        (box_value session.old) (box_value session.new) result }
{
    match session {
        Some(inner) => inner.begin(alloc, width, height),
        None => codes::CLOSED,
    }
}
