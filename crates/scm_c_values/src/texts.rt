//! A file of a state that is made of its old and its new text.
ghost use Rattle.std.specs.Prelude.{◌≡◌, ◌<◌, ◌&&◌, IfOk, IfSome, is_some, option_map, true};
ghost use Rattle.std.specs.Str.{is_utf8};
ghost use Rattle.scm_c_values.specs.Codes.{IsCode};
ghost use Rattle.scm_c_values.specs.Texts.{AddsFile, ShowsChange, change_with, code_of_length, is_short_change, is_short_version, old_path_of, seen_change, seen_version, version_with};

use crate::codes;
use scm_diff::{Version, changed_file, owned_file};
use scm_embed::{StateBuilder, has_short_lines};
use scm_types::{File, RecordState, Text};
use std::alloc::{AllocError, Global};

/// The change of a file: its paths, and its two versions.
#[derive(Clone, Copy)]
pub struct TextChange<'t> {
    /// The path.
    pub path: &'t str,
    /// The path before a rename or a copy. It is empty if there is none.
    pub old_path: &'t str,
    /// The old version, if the file existed.
    pub old: Option<Version<'t>>,
    /// The new version, if the file exists.
    pub new: Option<Version<'t>>,
}

/// Returns the text of `bytes`, or `None` if they are not UTF-8.
fn text_of(bytes: &[u8]) -> Option<&str>
    ensures text { IfSome result (λ text. text.now ≡ bytes.now) }
    ensures is_text { is_some result ≡ is_utf8 bytes.now }
{
    match str::from_utf8(bytes) {
        Ok(text) => Some(text),
        Err(_) => None,
    }
}

/// Returns the two paths as texts, or `None` if one is not UTF-8.
pub fn paths_of<'t>(path: &'t [u8], old_path: &'t [u8]) -> Option<(&'t str, &'t str)>
    ensures path { IfSome result (λ paths. paths.0.now ≡ path.now) }
    ensures old_path { IfSome result (λ paths. paths.1.now ≡ old_path.now) }
    ensures is_text { is_some result ≡ is_utf8 path.now && is_utf8 old_path.now }
{
    let Some(path) = text_of(path) else {
        return None;
    };
    match text_of(old_path) {
        Some(old_path) => Some((path, old_path)),
        None => None,
    }
}

/// Returns the version with this text and this mode. `usize::MAX` is no file.
fn version_of(text: &str, mode: usize) -> Option<Version<'_>>
    ensures { option_map seen_version result ≡ version_with text.now mode }
{
    if mode == usize::MAX {
        None
    } else {
        Some(Version { mode, text })
    }
}

/// Returns the change with these paths, texts and modes.
pub fn text_change_of<'t>(
    path: &'t str,
    old_path: &'t str,
    old: &'t str,
    old_mode: usize,
    new: &'t str,
    new_mode: usize,
) -> TextChange<'t>
    ensures { seen_change result
        ≡ change_with path.now old_path.now old.now old_mode new.now new_mode }
{
    TextChange {
        path,
        old_path,
        old: version_of(old, old_mode),
        new: version_of(new, new_mode),
    }
}

/// Returns whether each line of a version is within the limit.
fn is_short_version(version: Option<Version<'_>>) -> bool
    ensures { result ≡ is_short_version (option_map seen_version version.entry) }
{
    match version {
        Some(version) => has_short_lines(version.text),
        None => true,
    }
}

/// Returns whether each path and line of `change` is within the limit.
fn is_short(change: TextChange<'_>) -> bool
    ensures { result ≡ is_short_change (seen_change change.entry) }
{
    let is_path_short = change.path.len() <= RecordState::MAX_TEXT;
    let is_old_path_short = change.old_path.len() <= RecordState::MAX_TEXT;
    // `&`: one branch for the prover
    (is_path_short & is_old_path_short)
        & (is_short_version(change.old) & is_short_version(change.new))
}

/// Returns `path` as an old path. An empty one is none.
fn old_path_of(alloc: Global, path: &str) -> Result<Option<Text<'static>>, AllocError>
    ensures { IfOk result (λ copy. copy ≡ old_path_of path.now) }
{
    if path.is_empty() {
        return Ok(None);
    }
    let copy = String::from_str(alloc, path)?;
    Ok(Some(Text::from(copy)))
}

/// Returns the file that shows `change`, with nothing checked.
///
/// # Errors
/// `AllocError`: an allocation failed.
fn file_of(alloc: Global, change: TextChange<'_>) -> Result<File<'static>, AllocError>
    ensures { IfOk result (ShowsChange (seen_change change.entry)) }
{
    let made = changed_file(alloc, Text::from(change.path), change.old, change.new)?;
    let old_path = old_path_of(alloc, change.old_path)?;
    let mut file = owned_file(alloc, &made)?;
    file.old_path = old_path;
    Ok(file)
}

/// Adds the file that shows `change` to the state of `builder`. Returns the code of the call.
pub fn add_change(alloc: Global, builder: &mut StateBuilder, change: TextChange<'_>) -> u32
    ensures code { IsCode true (code_of_length (seen_change change.entry)) result }
    ensures added { result ≡ 0 → AddsFile (seen_change change.entry) builder.old builder.new }
    ensures kept { 0 < result → builder.new ≡ builder.old }
{
    if !is_short(change) {
        return codes::TOO_LONG;
    }
    let Ok(file) = file_of(alloc, change) else {
        return codes::NO_MEMORY;
    };
    match builder.push_file(alloc, file) {
        Ok(()) => codes::DONE,
        Err(_) => codes::NO_MEMORY,
    }
}
