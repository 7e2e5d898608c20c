//! The rows of a commit's message.
ghost use Rattle.std.specs.Prelude.{◌≡◌};
ghost use Rattle.scm_rows.specs.Heights.{message_height};

use scm_types::Commit;

/// Returns how many rows the message of `commit` has: three, or none without a message.
pub fn message_height(commit: &Commit) -> usize
    ensures { result ≡ message_height commit.now.message }
{
    match &commit.message {
        Some(_) => 3,
        None => 0,
    }
}
