//! The codes that calls return to a C program.
ghost use Rattle.std.specs.Prelude.{◌≡◌, ◌<◌, IsTrue, false, if◌then◌else◌, ok_or};
ghost use Rattle.scm_c_values.specs.Codes.{done_code, words_of_code};

/// Code of a call: it is done.
pub const DONE: u32 = 0;
/// Code of a call: the session is closed.
pub const CLOSED: u32 = 1;
/// Code of a call: the session does not wait for this now, or has no state to ask.
pub const NOT_NOW: u32 = 2;
/// Code of a call: the bytes are not the word of an event.
pub const NO_WORD: u32 = 3;
/// Code of a call: the state, the message or a text is not UTF-8.
pub const NOT_TEXT: u32 = 4;
/// Code of a call: the text is not the JSON form of a state.
pub const BAD_STATE: u32 = 5;
/// Code of a call: the state passes a limit.
pub const NOT_ACCEPTED: u32 = 6;
/// Code of a call: a text or a line has more than 1,000,000 bytes.
pub const TOO_LONG: u32 = 7;
/// Code of a call: an allocation failed.
pub const NO_MEMORY: u32 = 8;
/// Code of a call: the state has no such file, section, line or commit.
pub const NO_ITEM: u32 = 9;
/// Code of a call: the number stands for nothing that the call takes.
pub const NO_NUMBER: u32 = 10;
/// Code of a call: a part of the text is no key with what it does.
pub const NO_KEY: u32 = 11;

/// Stage: the session waits for an event.
pub const WAITING: u32 = 0;
/// Stage: the session waits for a message.
pub const EDITING: u32 = 1;
/// Stage: the changes are accepted.
pub const ACCEPTED: u32 = 2;
/// Stage: the session ended with an error.
pub const ENDED: u32 = 3;
/// Stage: none, as the session is closed.
pub const NONE: u32 = 4;
/// Stage: the state is made by calls, and the session has not begun.
pub const BUILDING: u32 = 5;

/// End: none, as the session goes on or is closed.
pub const NOT_ENDED: u32 = 0;
/// End: the changes are accepted.
pub const END_ACCEPTED: u32 = 1;
/// End: the user cancelled.
pub const END_CANCELLED: u32 = 2;
/// End: an allocation failed.
pub const END_NO_MEMORY: u32 = 3;
/// End: the terminal could not be set up.
pub const END_SET_UP: u32 = 4;
/// End: the terminal could not be cleaned up.
pub const END_CLEAN_UP: u32 = 5;
/// End: a frame could not be drawn.
pub const END_RENDER: u32 = 6;
/// End: the input failed.
pub const END_READ: u32 = 7;
/// End: the state could not be written as JSON.
pub const END_SERIALIZE: u32 = 8;
/// End: a file could not be written.
pub const END_WRITE: u32 = 9;
/// End: any other failure.
pub const END_OTHER: u32 = 10;
/// End: a bug of the selector.
pub const END_BUG: u32 = 11;

/// Owner: nobody.
pub const NOBODY: u32 = 0;
/// Owner: the menu bar, or the title of a menu.
pub const MENU: u32 = 1;
/// Owner: an item of the open menu.
pub const MENU_ITEM: u32 = 2;
/// Owner: a button.
pub const BUTTON: u32 = 3;
/// Owner: the header of a file.
pub const FILE: u32 = 4;
/// Owner: the header of a section of changed lines.
pub const SECTION: u32 = 5;
/// Owner: a checkbox.
pub const MARK: u32 = 6;
/// Owner: the box that folds a file or a section.
pub const FOLD: u32 = 7;
/// Owner: a dialog.
pub const DIALOG: u32 = 8;
/// Owner: an added line.
pub const ADDED: u32 = 9;
/// Owner: a removed line.
pub const REMOVED: u32 = 10;
/// Owner: a section of context lines.
pub const CONTEXT: u32 = 11;
/// Owner: a section that changes the file's mode.
pub const MODE: u32 = 12;
/// Owner: a section that changes a file's bytes.
pub const BINARY: u32 = 13;
/// Owner: the columns of a file that are left of its sections.
pub const FILE_EDGE: u32 = 14;

/// Side: the contents do not change.
pub const SIDE_UNCHANGED: u32 = 0;
/// Side: the contents are a text.
pub const SIDE_TEXT: u32 = 1;
/// Side: the contents are binary, and not in the state.
pub const SIDE_BINARY: u32 = 2;

/// Mark: nothing is checked.
pub const UNCHECKED: u32 = 0;
/// Mark: a part is checked.
pub const PARTLY: u32 = 1;
/// Mark: all is checked.
pub const CHECKED: u32 = 2;

/// Theme: a dark background.
pub const DARK: u32 = 0;
/// Theme: a light background.
pub const LIGHT: u32 = 1;
/// Theme: sixteen colours.
pub const SIXTEEN: u32 = 2;
/// Theme: no colours.
pub const NO_COLOURS: u32 = 3;

/// Start: what is unfolded already.
pub const AS_IT_IS: u32 = 0;
/// Start: nothing is unfolded.
pub const ALL_FOLDED: u32 = 1;
/// Start: everything is unfolded.
pub const ALL_OPEN: u32 = 2;
/// Start: everything is unfolded, if the screen then shows all of it.
pub const OPEN_IF_IT_FITS: u32 = 3;

/// Returns the sentence of `code`, or the empty text for a number that no call returns.
pub fn words(code: u32) -> &'static str
    ensures { result.now ≡ words_of_code code }
{
    match code {
        DONE => "the call is done",
        CLOSED => "the session is closed",
        NOT_NOW => "the session doesn't wait for this now",
        NO_WORD => "the bytes are no word of an event",
        NOT_TEXT => "the bytes are no UTF-8",
        BAD_STATE => "the text is no state's JSON form",
        NOT_ACCEPTED =>
            "the state passes a limit: of commits, of files, sections and lines together, or of a text's bytes",
        TOO_LONG => "a text has more than 1,000,000 bytes",
        NO_MEMORY => "there is not enough memory",
        NO_ITEM => "the state has no such file, section, line or commit",
        NO_NUMBER => "the number stands for nothing that this call takes",
        NO_KEY => "a part of the text is no key with what it does, as ctrl-n=j",
        _ => "",
    }
}

/// Returns the code of a call that was done, or that the session doesn't wait for.
pub fn done_or_not_now(is_done: bool) -> u32
    ensures code { result ≡ done_code is_done }
    ensures done { result ≡ 0 → IsTrue is_done }
    ensures not_now { 0 < result → is_done ≡ false }
{
    if is_done { DONE } else { NOT_NOW }
}

/// Returns the code of a resize that was done, or for which an allocation failed.
pub fn resize_code(is_done: bool) -> u32
    ensures { result ≡ (if is_done then 0 else 8) }
{
    if is_done { DONE } else { NO_MEMORY }
}

/// Returns `update`, or the code of a failed allocation.
pub fn update_or_code(update: Option<String>) -> Result<String, u32>
    ensures { result ≡ ok_or update 8 }
{
    match update {
        Some(update) => Ok(update),
        None => Err(NO_MEMORY),
    }
}
