//! What the quit dialog counts as lost.
ghost use Rattle.std.specs.Prelude.{◌≡◌, count_by};
ghost use Rattle.scm_selection.specs.Counts.{changed_count, is_changed, is_nonempty_message, message_count};

use scm_types::{Commit, File, RecordState, Tristate};

/// Returns whether `commit` has a message and it is not empty.
fn has_text(commit: &Commit) -> bool
    ensures { result ≡ is_nonempty_message commit.now.message }
{
    match &commit.message {
        Some(message) => !message.as_str().is_empty(),
        None => false,
    }
}

/// Returns the number of commits of `state` whose message is not empty.
pub fn message_count(state: &RecordState<'_>) -> usize
    ensures { result ≡ message_count state.now }
{
    state
        .commits
        .as_slice()
        .iter()
        .filter(|commit| has_text(commit))
        .count()
}

/// Returns whether `file` is not wholly unchecked.
fn is_changed(file: &File<'_>) -> bool
    ensures { result ≡ is_changed file.now }
{
    match file.tristate() {
        Tristate::False => false,
        Tristate::Partial | Tristate::True => true,
    }
}

/// Returns the number of files of `state` that are not wholly unchecked.
pub fn changed_count(state: &RecordState<'_>) -> usize
    ensures { result ≡ changed_count state.now }
{
    state
        .files
        .as_slice()
        .iter()
        .filter(|file| is_changed(file))
        .count()
}
