//! Why an addition to a state is refused.
ghost use Rattle.std.specs.Prelude.{◌≡◌};
ghost use Rattle.scm_types.specs.Limits.{is_short_option, is_short_text};
ghost use Rattle.scm_embed.specs.Additions.{is_short_part, refusal_of, unless_short};

use crate::addition::{Addition, BuildError, Part};
use crate::lines::has_short_lines;
use scm_types::{RecordState, Text};

/// Returns whether `text` is within the limit.
fn is_short(text: &Text<'_>) -> bool
    ensures { result ≡ is_short_text text.now }
{
    text.len() <= RecordState::MAX_TEXT
}

/// Returns whether `text` is within the limit, or `None`.
fn is_short_option(text: &Option<Text<'_>>) -> bool
    ensures { result ≡ is_short_option text.now }
{
    match text {
        Some(text) => is_short(text),
        None => true,
    }
}

/// Returns whether each text and line of `part` is within the limit.
fn is_short_part(part: &Part<'_>) -> bool
    ensures { result ≡ is_short_part part.now }
{
    match part {
        Part::Context { text } => has_short_lines(text.as_str()),
        Part::Changes { text, .. } => has_short_lines(text.as_str()),
        Part::ContextLine { line } | Part::ChangedLine { line, .. } => is_short(line),
        Part::Lines { .. } | Part::Mode { .. } => true,
        Part::Binary {
            old_description,
            new_description,
            ..
        } => {
            // `&`: one branch for the prover
            is_short_option(old_description) & is_short_option(new_description)
        }
    }
}

/// Returns `None` if `is_short`, or else `TooLong`.
fn unless_short(is_short: bool) -> Option<BuildError>
    ensures { result ≡ unless_short is_short }
{
    if is_short {
        None
    } else {
        Some(BuildError::TooLong)
    }
}

/// Returns the first reason for which `addition` to `state` is refused, if any. Allocates nothing.
pub(crate) fn refusal_of(
    state: &RecordState<'static>,
    addition: &Addition<'_>,
) -> Option<BuildError>
    ensures { result ≡ refusal_of addition.now state.now }
{
    match addition {
        Addition::Commit { message } => {
            if !is_short_option(message) {
                Some(BuildError::TooLong)
            } else if state.commits.len() < 2 {
                None
            } else {
                Some(BuildError::TooManyCommits)
            }
        }
        Addition::File { old_path, path, .. } => {
            // `&`: one branch for the prover
            unless_short(is_short_option(old_path) & is_short(path))
        }
        Addition::Part { part } => {
            if state.files.len() > 0 {
                unless_short(is_short_part(part))
            } else {
                Some(BuildError::NoFile)
            }
        }
    }
}
