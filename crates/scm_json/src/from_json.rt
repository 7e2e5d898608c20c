//! Reads booleans, texts, optional values and lists from JSON values, and from tokens.
ghost use Rattle.std.specs.Prelude.{◌≡◌, ◌∷◌, IfOk, IfSome, None, Option, Some, suc, true, ℕ};
ghost use Rattle.json.specs.Json.{read_key};
ghost use Rattle.json.specs.Reads.{token_of};
ghost use Rattle.json.specs.Token.{begin_object};
ghost use Rattle.serde_json.specs.Data.{Data};
ghost use Rattle.serde_json.specs.Find.{as_bool, as_str};
ghost use Rattle.serde_json.specs.View.{view};
ghost use Rattle.scm_json.specs.Form as form_of;
ghost use Rattle.scm_json.specs.Tokens.{IsRead, IsReadMember};

use json::{Reader, Token};
use scm_types::{Items, OwnedText, Text};
use serde_json::Value;
use std::alloc::{AllocError, Global};

/// A type that is read from a JSON value, or from the tokens of one.
pub trait FromJson: Sized + Drop {
    ghost form: { Data → Option Self };

    // how deep the forms nest at most
    ghost height: { ℕ };

    /// Returns the value that `value` is the form of, or `None` if there is none.
    ///
    /// # Errors
    /// `AllocError`: an allocation failed.
    fn from_json(alloc: Global, value: &Value) -> Result<Option<Self>, AllocError>
        ensures { IfOk result (λ o. o ≡ form (view value.now)) };

    /// Reads a value from the token `first` and those of `reader` after it. Returns `None` if it is
    /// not written as serializing writes it, with the members in that order. Then it may yet be a
    /// form.
    ///
    /// # Errors
    /// `AllocError`: an allocation failed.
    fn from_tokens(
        alloc: Global,
        first: Token<'_>,
        reader: &mut Reader<'_>,
    ) -> Result<Option<Self>, AllocError>
        ensures { IfOk result (λ o.
            IfSome o (λ x. IsRead form height (token_of first.entry ∷ reader.old) x reader.new)) };
}

/// Reads the next value from `reader`, or returns `None` if it is not written as serializing writes it.
fn next_value<T: FromJson>(alloc: Global, reader: &mut Reader<'_>) -> Result<Option<T>, AllocError>
    ensures { IfOk result (λ o. IfSome o (λ x. IsRead T.form T.height reader.old x reader.new)) }
{
    let Some(first) = reader.next() else {
        return Ok(None);
    };
    T::from_tokens(alloc, first, reader)
}

/// Reads the next member of an object from `reader`, or returns `None` if it is not `name`, or not
/// written as serializing writes it.
pub(crate) fn next_member<T: FromJson>(
    alloc: Global,
    reader: &mut Reader<'_>,
    name: &str,
) -> Result<Option<T>, AllocError>
    ensures { IfOk result (λ o. IfSome o (λ x.
        IsReadMember T.form T.height name.now reader.old x reader.new)) }
{
    let Ok(Some(key)) = reader.next_key() else {
        return Ok(None);
    };
    if key != name {
        return Ok(None);
    }
    next_value(alloc, reader)
}

/// Returns whether an object begins here, and passes its first token.
pub(crate) fn begins_object(reader: &mut Reader<'_>) -> bool
    ensures { result ≡ true → reader.old ≡ begin_object ∷ reader.new }
{
    matches!(reader.next(), Some(Token::BeginObject))
}

/// Returns whether an object ends here, and passes its end.
pub(crate) fn ends_object(reader: &mut Reader<'_>) -> bool
    ensures { result ≡ true → read_key reader.old ≡ Some (None, reader.new) }
{
    matches!(reader.next_key(), Ok(None))
}

/// Returns whether `value` is an object with `count` members.
pub(crate) fn has_members(value: &Value, count: usize) -> bool
    ensures { result ≡ form_of.has_members count (view value.now) }
{
    match value.as_object() {
        Some(members) => members.len() == count,
        None => false,
    }
}

/// Reads the member `name` of the object `value`, or returns `None` if that fails.
pub(crate) fn member<T: FromJson>(
    alloc: Global,
    value: &Value,
    name: &str,
) -> Result<Option<T>, AllocError>
    ensures { IfOk result (λ o. o ≡ form_of.member_of T.form name.now (view value.now)) }
{
    match value.get(name) {
        Some(member) => T::from_json(alloc, member),
        None => Ok(None),
    }
}

impl FromJson for bool {
    ghost form = { as_bool };

    ghost height = { 0 };

    fn from_json(_alloc: Global, value: &Value) -> Result<Option<bool>, AllocError> {
        Ok(value.as_bool())
    }

    fn from_tokens(
        _alloc: Global,
        first: Token<'_>,
        _reader: &mut Reader<'_>,
    ) -> Result<Option<bool>, AllocError> {
        match first {
            Token::Bool(value) => Ok(Some(value)),
            _ => Ok(None),
        }
    }
}

/// Returns a copy of the text.
fn owned_text(alloc: Global, text: &str) -> Result<OwnedText, AllocError>
    ensures { IfOk result (λ copy. copy ≡ text.now) }
{
    let copy = String::from_str(alloc, text)?;
    Ok(OwnedText::from(copy))
}

impl FromJson for OwnedText {
    ghost form = { as_str };

    ghost height = { 0 };

    fn from_json(alloc: Global, value: &Value) -> Result<Option<OwnedText>, AllocError> {
        match value.as_str() {
            Some(text) => Ok(Some(owned_text(alloc, text)?)),
            None => Ok(None),
        }
    }

    fn from_tokens(
        alloc: Global,
        first: Token<'_>,
        _reader: &mut Reader<'_>,
    ) -> Result<Option<OwnedText>, AllocError> {
        match first {
            Token::String(text) => {
                let copy = owned_text(alloc, text)?;
                Ok(Some(copy))
            }
            _ => Ok(None),
        }
    }
}

/// Returns a copy of the text.
fn static_text(alloc: Global, text: &str) -> Result<Text<'static>, AllocError>
    ensures { IfOk result (λ copy. copy ≡ text.now) }
{
    let copy = String::from_str(alloc, text)?;
    Ok(Text::from(copy))
}

impl FromJson for Text<'static> {
    ghost form = { as_str };

    ghost height = { 0 };

    fn from_json(alloc: Global, value: &Value) -> Result<Option<Text<'static>>, AllocError> {
        match value.as_str() {
            Some(text) => Ok(Some(static_text(alloc, text)?)),
            None => Ok(None),
        }
    }

    fn from_tokens(
        alloc: Global,
        first: Token<'_>,
        _reader: &mut Reader<'_>,
    ) -> Result<Option<Text<'static>>, AllocError> {
        match first {
            Token::String(text) => {
                let copy = static_text(alloc, text)?;
                Ok(Some(copy))
            }
            _ => Ok(None),
        }
    }
}

impl<T: FromJson> FromJson for Option<T> {
    ghost form = { form_of.optional T.form };

    ghost height = { T.height };

    fn from_json(alloc: Global, value: &Value) -> Result<Option<Option<T>>, AllocError> {
        if value.is_null() {
            return Ok(Some(None));
        }
        Ok(T::from_json(alloc, value)?.map(Some))
    }

    fn from_tokens(
        alloc: Global,
        first: Token<'_>,
        reader: &mut Reader<'_>,
    ) -> Result<Option<Option<T>>, AllocError> {
        match first {
            Token::Null => Ok(Some(None)),
            Token::String(_) => {
                let Some(value) = T::from_tokens(alloc, first, reader)? else {
                    return Ok(None);
                };
                Ok(Some(Some(value)))
            }
            _ => Ok(None),
        }
    }
}

impl<T: FromJson> FromJson for Items<T> {
    ghost form = { form_of.list_of T.form };

    ghost height = { suc T.height };

    fn from_json(alloc: Global, value: &Value) -> Result<Option<Items<T>>, AllocError> {
        let Some(values) = value.as_array() else {
            return Ok(None);
        };
        let mut items = Vec::new(alloc);
        for value in values.iter() {
            let Some(item) = T::from_json(alloc, value)? else {
                return Ok(None);
            };
            items.push(item)?;
        }
        Ok(Some(Items::from(items)))
    }

    fn from_tokens(
        alloc: Global,
        first: Token<'_>,
        reader: &mut Reader<'_>,
    ) -> Result<Option<Items<T>>, AllocError> {
        let Token::BeginArray = first else {
            return Ok(None);
        };
        let mut found = Vec::new(alloc);
        while !reader.take_end_array() {
            let Some(item) = next_value::<T>(alloc, reader)? else {
                return Ok(None);
            };
            found.push(item)?;
        }
        Ok(Some(Items::from(found)))
    }
}
