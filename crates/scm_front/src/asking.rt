//! What the layer keeps beside the session: the text that is searched for.
ghost use Rattle.std.specs.Prelude.{◌≡◌, ◌++◌, [], IfErr, IfOk, encode_utf8};
ghost use Rattle.scm_errors.specs.declared.error.RecordError.TheVariants.{OutOfMemory};
ghost use Rattle.scm_front.specs.Asking.{after_typing, new_query, sought_after, with_word};

use scm_types::{OwnedText, RecordError};
use std::alloc::{AllocError, Global};

/// The text that is searched for, and the one that is being typed.
#[derive(Drop)]
pub struct Query {
    /// Whether a text is being typed.
    pub is_asking: bool,
    /// The text that was typed so far.
    pub typed: OwnedText,
    /// The text that was searched for last.
    pub sought: OwnedText,
    /// Whether the last search did not reach an item.
    pub is_missing: bool,
}

/// A key that types the text to search for.
#[derive(Clone, Copy, Debug, PartialEq, Eq)]
pub enum Typing {
    /// Asks for a text.
    Ask,
    /// Adds a character.
    Add(char),
    /// Removes all characters.
    Erase,
    /// Ends the question. The text that was searched for last stays.
    Leave,
    /// Ends the question. The text that was typed is searched for, unless it is empty.
    Finish,
}

/// Returns a query without texts.
pub(crate) fn new_query(alloc: Global) -> Query
    ensures { result ≡ new_query }
{
    Query {
        is_asking: false,
        typed: OwnedText::from(String::new(alloc)),
        sought: OwnedText::from(String::new(alloc)),
        is_missing: false,
    }
}

/// Returns `query` with `is_missing` as the outcome of the last search.
pub(crate) fn with_word(query: Query, is_missing: bool) -> Query
    ensures { result ≡ with_word query is_missing }
{
    let mut query = query;
    query.is_missing = is_missing;
    query
}

/// Returns the empty text, with the memory of `text`.
fn emptied(text: OwnedText) -> OwnedText
    ensures { result ≡ [] }
{
    let mut text = text.into_inner();
    text.clear();
    OwnedText::from(text)
}

/// Returns `text` with `character` behind it.
fn with_character(text: OwnedText, character: char) -> Result<OwnedText, AllocError>
    ensures { IfOk result (λ longer. longer ≡ text ++ encode_utf8 character) }
{
    let mut text = text.into_inner();
    text.push(character)?;
    Ok(OwnedText::from(text))
}

/// Returns the texts after the question: none is typed, and `typed` is sought, or `sought` if
/// nothing was typed.
fn finished(typed: OwnedText, sought: OwnedText) -> (OwnedText, OwnedText)
    ensures typed { result.0 ≡ [] }
    ensures sought { result.1 ≡ sought_after typed sought }
{
    if typed.is_empty() {
        (typed, sought)
    } else {
        (emptied(sought), typed)
    }
}

/// Returns `query` after a key that types its text.
///
/// # Errors
///
/// - `OutOfMemory`: an allocation failed; `query` is dropped.
pub(crate) fn after_typing(query: Query, typing: Typing) -> Result<Query, RecordError>
    ensures ok { IfOk result (λ next. next ≡ after_typing typing query) }
    ensures err { IfErr result (λ e. e ≡ OutOfMemory) }
{
    let Query {
        is_asking,
        typed,
        sought,
        is_missing,
    } = query;
    match typing {
        Typing::Ask => Ok(Query {
            is_asking: true,
            typed: emptied(typed),
            sought,
            is_missing: false,
        }),
        Typing::Add(character) => Ok(Query {
            is_asking,
            typed: with_character(typed, character)?,
            sought,
            is_missing,
        }),
        Typing::Erase => Ok(Query {
            is_asking,
            typed: emptied(typed),
            sought,
            is_missing,
        }),
        Typing::Leave => Ok(Query {
            is_asking: false,
            typed: emptied(typed),
            sought,
            is_missing,
        }),
        Typing::Finish => {
            let (typed, sought) = finished(typed, sought);
            Ok(Query {
                is_asking: false,
                typed,
                sought,
                is_missing,
            })
        }
    }
}
