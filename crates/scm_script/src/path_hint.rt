//! A hint with the path of a place in a state, and what is wrong there.

use std::alloc::{AllocError, Global};

/// The number of characters of an input's word that a hint shows.
const MAX_QUOTE: usize = 40;

/// A hint with the path of a place in a state, and what is wrong there.
#[derive(Drop)]
pub enum PathHint {
    /// The path and the problem, as in `.lines[2]: no member line`.
    At(String),
    /// No hint: an allocation failed.
    OutOfMemory,
}

impl From<AllocError> for PathHint {
    fn from(_error: AllocError) -> PathHint {
        PathHint::OutOfMemory
    }
}

impl PathHint {
    /// Returns the hint with the text `text`, if it could be allocated.
    pub fn new(text: Result<String, AllocError>) -> PathHint {
        match text {
            Ok(text) => PathHint::At(text),
            Err(_) => PathHint::OutOfMemory,
        }
    }

    /// Prepends the member `name` to the path.
    pub fn in_member(self, alloc: Global, name: &str) -> PathHint {
        match self {
            PathHint::At(rest) => PathHint::new(format!(in alloc; ".{name}{rest}")),
            PathHint::OutOfMemory => PathHint::OutOfMemory,
        }
    }

    /// Prepends the index `index` of a list to the path.
    pub fn in_item(self, alloc: Global, index: usize) -> PathHint {
        match self {
            PathHint::At(rest) => PathHint::new(format!(in alloc; "[{index}]{rest}")),
            PathHint::OutOfMemory => PathHint::OutOfMemory,
        }
    }

    /// Returns the text of a hint whose path begins at the state.
    ///
    /// # Errors
    /// `AllocError`: an allocation failed.
    pub fn into_text(self, alloc: Global) -> Result<String, AllocError> {
        match self {
            PathHint::At(text) => match text.as_str().strip_prefix('.') {
                Some(path) => String::from_str(alloc, path),
                None => format!(in alloc; "the state{text}"),
            },
            PathHint::OutOfMemory => Err(AllocError),
        }
    }
}

/// Returns the first 40 characters of `text` in quotes, on one line.
///
/// # Errors
/// `AllocError`: an allocation failed.
pub fn quote(alloc: Global, text: &str) -> Result<String, AllocError> {
    match text.char_indices().nth(MAX_QUOTE) {
        Some((length, _)) => {
            let beginning = text.get(..length).unwrap_or("");
            format!(in alloc; "{beginning:?} ..")
        }
        None => format!(in alloc; "{text:?}"),
    }
}
