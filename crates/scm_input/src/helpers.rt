//! The contents of the Rust crate's module `helpers`.

pub use crate::testing_input::TestingInput;
pub use scm_types::helpers::make_binary_description;
