//! The state of the tests, and its run.
use scm_record::{
    Commit, File, Items, OwnedText, RecordError, RecordInput, RecordState, Recorder, Screens,
};
use scm_samples::{ADDED, DEFAULT, Line, changed, file_of};
use std::alloc::{AllocError, Global};
use std::process::Abort;

/// The messages of both commits.
pub(crate) type Messages = (Option<&'static str>, Option<&'static str>);

/// Returns a commit with `message`, if there is one.
fn commit(alloc: Global, message: Option<&'static str>) -> Result<Commit, AllocError> {
    match message {
        Some(text) => Ok(Commit {
            message: Some(OwnedText::from(String::from_str(alloc, text)?)),
        }),
        None => Ok(Commit::default()),
    }
}

/// Returns commits with `messages`.
fn commits_of(alloc: Global, messages: Messages) -> Result<Items<Commit>, RecordError> {
    let mut commits = Items::new(alloc);
    commits.push(commit(alloc, messages.0)?)?;
    commits.push(commit(alloc, messages.1)?)?;
    Ok(commits)
}

/// Two unchecked added lines.
const LINES: &[Line] = &[(false, ADDED, "x\n"), (false, ADDED, "y\n")];

/// Returns a file of these lines.
fn files_of(alloc: Global) -> Result<Items<File<'static>>, RecordError> {
    let lines = changed(alloc, LINES)?;
    let mut files = Items::new(alloc);
    files.push(file_of(DEFAULT, vec![in alloc; lines]?))?;
    Ok(files)
}

/// Returns a state of commits with `messages` and a file of two unchecked added lines.
pub(crate) fn state_of(
    alloc: Global,
    messages: Messages,
) -> Result<RecordState<'static>, RecordError> {
    Ok(RecordState {
        is_read_only: false,
        commits: commits_of(alloc, messages)?,
        files: files_of(alloc)?,
    })
}

/// Runs `input` on a state whose commits have `messages`.
pub(crate) fn run(
    rt: &impl Abort,
    alloc: Global,
    messages: Messages,
    input: &mut dyn RecordInput,
    screens: &mut Screens,
) -> Result<RecordState<'static>, RecordError> {
    let state = state_of(alloc, messages)?;
    assert!(rt; state.is_accepted());
    Recorder::new(alloc, state)?.run(input, screens)
}
