//! Calls that make a state and begin a session with it. `include/gabrosty.h` documents each function.
ghost use Rattle.std.specs.Prelude.{◌≡◌, ◌<◌, None, Some, true};
ghost use Rattle.scm_embed.specs.declared.addition.Addition.TheVariants as additions;
ghost use Rattle.scm_embed.specs.declared.addition.Part.TheVariants as parts;
ghost use Rattle.scm_open_session.specs.Boxes.{box_value};
ghost use Rattle.scm_c_values.specs.Codes.{IsCode};
ghost use Rattle.scm_open_session.specs.Stages.{ChangesStage, IsOpenAt};
ghost use Rattle.scm_c_values.specs.Screens.{screen_of};
ghost use Rattle.scm_open_session.specs.Building.{Adds, BeginsState, Builds, StartsSession, code_of_addition, BuildsChange, code_of_change};
ghost use Rattle.scm_c_values.specs.FromBytes.{binary_of_bytes, changes_of_bytes, context_of_bytes, file_of_bytes, line_of_bytes, message_of_bytes, mode_of_bits};
ghost use Rattle.scm_c_values.specs.Texts.{given_change};

use crate::c_session::{CSession, give_back, take};
use scm_open_session::state_calls;
use std::alloc::Global;

/// Opens `session` over a state without commits and files, which later calls make. If `session` is
/// open, closes it first. Returns the code of the call.
#[unsafe(no_mangle)]
pub extern "C" fn gabro_state_new(alloc: Global, session: &mut CSession, is_read_only: bool) -> u32
    ensures code { IsCode true 0 result }
    ensures begun { result ≡ 0
        → IsOpenAt (BeginsState is_read_only) session.new.pointer.value }
    // a failed call leaves the session closed
    ensures refused { 0 < result → session.new.pointer.value ≡ None }
{
    drop(take(alloc, session));
    let (inner, code) = state_calls::open(alloc, is_read_only);
    give_back(alloc, session, inner);
    code
}

/// Adds a commit without a message. Returns the code of the call.
#[unsafe(no_mangle)]
pub extern "C" fn gabro_state_commit(alloc: Global, session: &mut CSession) -> u32
    ensures code { IsCode true
        (code_of_addition (Some (additions.Commit None)) session.old.pointer.value) result }
    ensures added { result ≡ 0 → ChangesStage (Builds (additions.Commit None))
        session.old.pointer.value session.new.pointer.value }
    ensures kept { 0 < result → session.new.pointer.value ≡ session.old.pointer.value }
{
    let mut inner = take(alloc, session);
    let code = state_calls::add_commit(alloc, &mut inner);
    give_back(alloc, session, inner);
    code
}

/// Adds a commit with the message `text`. Returns the code of the call.
#[unsafe(no_mangle)]
pub extern "C" fn gabro_state_message(alloc: Global, session: &mut CSession, text: &[u8]) -> u32
    ensures code { IsCode true
        (code_of_addition (message_of_bytes text.now) session.old.pointer.value) result }
    ensures added { result ≡ 0 → Adds (message_of_bytes text.now)
        session.old.pointer.value session.new.pointer.value }
    ensures kept { 0 < result → session.new.pointer.value ≡ session.old.pointer.value }
{
    let mut inner = take(alloc, session);
    let code = state_calls::add_message(alloc, &mut inner, text);
    give_back(alloc, session, inner);
    code
}

/// Adds a file without sections. Returns the code of the call.
#[unsafe(no_mangle)]
pub extern "C" fn gabro_state_file(
    alloc: Global,
    session: &mut CSession,
    path: &[u8],
    old_path: &[u8],
    mode: usize,
) -> u32
    ensures code { IsCode true
        (code_of_addition (file_of_bytes path.now old_path.now mode) session.old.pointer.value)
        result }
    ensures added { result ≡ 0 → Adds (file_of_bytes path.now old_path.now mode)
        session.old.pointer.value session.new.pointer.value }
    ensures kept { 0 < result → session.new.pointer.value ≡ session.old.pointer.value }
{
    let mut inner = take(alloc, session);
    let code = state_calls::add_file(alloc, &mut inner, path, old_path, mode);
    give_back(alloc, session, inner);
    code
}

/// Adds the context lines of `text` to the last file. Returns the code of the call.
#[unsafe(no_mangle)]
pub extern "C" fn gabro_state_context(alloc: Global, session: &mut CSession, text: &[u8]) -> u32
    ensures code { IsCode true
        (code_of_addition (context_of_bytes text.now) session.old.pointer.value) result }
    ensures added { result ≡ 0 → Adds (context_of_bytes text.now)
        session.old.pointer.value session.new.pointer.value }
    ensures kept { 0 < result → session.new.pointer.value ≡ session.old.pointer.value }
{
    let mut inner = take(alloc, session);
    let code = state_calls::add_context(alloc, &mut inner, text);
    give_back(alloc, session, inner);
    code
}

/// Adds the changed lines of `text` to the last file: added ones if `is_added`, or else removed
/// ones. Returns the code of the call.
#[unsafe(no_mangle)]
pub extern "C" fn gabro_state_changes(
    alloc: Global,
    session: &mut CSession,
    is_added: bool,
    is_checked: bool,
    text: &[u8],
) -> u32
    ensures code { IsCode true
        (code_of_addition (changes_of_bytes is_added is_checked text.now)
        session.old.pointer.value) result }
    ensures added { result ≡ 0 → Adds (changes_of_bytes is_added is_checked text.now)
        session.old.pointer.value session.new.pointer.value }
    ensures kept { 0 < result → session.new.pointer.value ≡ session.old.pointer.value }
{
    let mut inner = take(alloc, session);
    let code = state_calls::add_changes(alloc, &mut inner, is_added, is_checked, text);
    give_back(alloc, session, inner);
    code
}

/// Adds the line that is the whole of `text` to the last file: a changed line if `is_changed`, or else
/// a context line. Returns the code of the call.
#[unsafe(no_mangle)]
pub extern "C" fn gabro_state_line(
    alloc: Global,
    session: &mut CSession,
    is_changed: bool,
    is_added: bool,
    is_checked: bool,
    text: &[u8],
) -> u32
    ensures code { IsCode true
        (code_of_addition (line_of_bytes is_changed is_added is_checked text.now)
        session.old.pointer.value) result }
    ensures added { result ≡ 0 → Adds (line_of_bytes is_changed is_added is_checked text.now)
        session.old.pointer.value session.new.pointer.value }
    ensures kept { 0 < result → session.new.pointer.value ≡ session.old.pointer.value }
{
    let mut inner = take(alloc, session);
    let code = state_calls::add_line(alloc, &mut inner, is_changed, is_added, is_checked, text);
    give_back(alloc, session, inner);
    code
}

/// Adds a section without lines to the last file: of changed lines if `is_changed`, or else of
/// context lines. Returns the code of the call.
#[unsafe(no_mangle)]
pub extern "C" fn gabro_state_section(
    alloc: Global,
    session: &mut CSession,
    is_changed: bool,
) -> u32
    ensures code { IsCode true
        (code_of_addition (Some (additions.Part (parts.Lines is_changed)))
        session.old.pointer.value) result }
    ensures added { result ≡ 0 → ChangesStage (Builds (additions.Part (parts.Lines is_changed)))
        session.old.pointer.value session.new.pointer.value }
    ensures kept { 0 < result → session.new.pointer.value ≡ session.old.pointer.value }
{
    let mut inner = take(alloc, session);
    let code = state_calls::add_section(alloc, &mut inner, is_changed);
    give_back(alloc, session, inner);
    code
}

/// Adds a section that changes the mode of the last file to `mode`. Returns the code of the call.
#[unsafe(no_mangle)]
pub extern "C" fn gabro_state_mode(
    alloc: Global,
    session: &mut CSession,
    is_checked: bool,
    mode: usize,
) -> u32
    ensures code { IsCode true
        (code_of_addition (Some (additions.Part (parts.Mode is_checked (mode_of_bits mode))))
        session.old.pointer.value) result }
    ensures added { result ≡ 0
        → ChangesStage (Builds (additions.Part (parts.Mode is_checked (mode_of_bits mode))))
        session.old.pointer.value session.new.pointer.value }
    ensures kept { 0 < result → session.new.pointer.value ≡ session.old.pointer.value }
{
    let mut inner = take(alloc, session);
    let code = state_calls::add_mode(alloc, &mut inner, is_checked, mode);
    give_back(alloc, session, inner);
    code
}

/// Adds a section that changes the binary contents of the last file. Returns the code of the call.
#[unsafe(no_mangle)]
pub extern "C" fn gabro_state_binary(
    alloc: Global,
    session: &mut CSession,
    is_checked: bool,
    old: &[u8],
    new: &[u8],
) -> u32
    ensures code { IsCode true
        (code_of_addition (binary_of_bytes is_checked old.now new.now)
        session.old.pointer.value) result }
    ensures added { result ≡ 0 → Adds (binary_of_bytes is_checked old.now new.now)
        session.old.pointer.value session.new.pointer.value }
    ensures kept { 0 < result → session.new.pointer.value ≡ session.old.pointer.value }
{
    let mut inner = take(alloc, session);
    let code = state_calls::add_binary(alloc, &mut inner, is_checked, old, new);
    give_back(alloc, session, inner);
    code
}

/// Adds the file that shows how the bytes `old` become the bytes `new`. Each mode is that of a version,
/// `usize::MAX` of a file that does not exist. Returns the code of the call.
#[unsafe(no_mangle)]
pub extern "C" fn gabro_state_texts(
    alloc: Global,
    session: &mut CSession,
    path: &[u8],
    old_path: &[u8],
    old: &[u8],
    old_mode: usize,
    new: &[u8],
    new_mode: usize,
) -> u32
    ensures code { IsCode true (code_of_change
        (given_change path.now old_path.now old.now old_mode new.now new_mode)
        session.old.pointer.value) result }
    ensures added { result ≡ 0 → ChangesStage (BuildsChange
        (given_change path.now old_path.now old.now old_mode new.now new_mode))
        session.old.pointer.value session.new.pointer.value }
    ensures kept { 0 < result → session.new.pointer.value ≡ session.old.pointer.value }
{
    let mut inner = take(alloc, session);
    let code = state_calls::add_texts(
        alloc, &mut inner, path, old_path, old, old_mode, new, new_mode,
    );
    give_back(alloc, session, inner);
    code
}

/// Begins the session with the state that is made, on a screen of `width` columns and `height` rows.
/// Returns the code of the call.
#[unsafe(no_mangle)]
pub extern "C" fn gabro_begin(alloc: Global, session: &mut CSession, width: u16, height: u16) -> u32
    ensures { StartsSession (screen_of width height)
        session.old.pointer.value session.new.pointer.value result }
{
    let mut inner = take(alloc, session);
    let code = state_calls::begin(alloc, &mut inner, width, height);
    give_back(alloc, session, inner);
    code
}
