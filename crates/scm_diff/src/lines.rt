//! The lines of a text.
ghost use Rattle.std.specs.Prelude.{◌≡◌, ◌<◌, ◌∷◌, IfNone, IfOk, IfSome, length};
ghost use Rattle.scm_embed.specs.Lines.{last_line, lines_of};

use scm_types::Text;
use std::alloc::{AllocError, Global};

/// Returns the first line of `text`, with its line end, and the text after it. Returns `None` if
/// there is no line end.
fn split_line(text: &str) -> Option<(&str, &str)>
    ensures none { IfNone result (lines_of text.now ≡ last_line text.now) }
    ensures some { IfSome result (λ parts. lines_of text.now ≡ parts.0.now ∷ lines_of parts.1.now) }
    ensures shorter { IfSome result (λ parts. length parts.1.now < length text.now) }
{
    match text.find('\n') {
        Some(end) => Some(text.split_at(end + 1)),
        None => None,
    }
}

/// Returns the lines of `text`, each with its line end. Only the last one may have none. They are
/// borrowed from `text`.
///
/// # Errors
/// `AllocError`: an allocation failed.
pub fn lines_of<'a>(alloc: Global, text: &'a str) -> Result<Vec<Text<'a>>, AllocError>
    ensures { IfOk result (λ lines. lines.items ≡ lines_of text.now) }
{
    let mut lines = Vec::new(alloc);
    let mut rest = text;
    'cuts: while let Some((line, after)) = split_line(rest) {
        lines.push(Text::from(line))?;
        rest = after;
    }
    if !rest.is_empty() {
        lines.push(Text::from(rest))?;
    }
    Ok(lines)
}
