//! The JSON forms of a state and its parts, with hints for values that don't have them.

use crate::path_hint::{PathHint, quote};
use scm_types::{
    ChangeType, Commit, File, FileMode, Items, OwnedText, RecordState, Section, SectionChangedLine,
    Text,
};
use serde_json::Value;
use std::alloc::{AllocError, Global};

/// A JSON form that a value can be checked against.
pub trait JsonForm {
    /// Checks that `value` has this form.
    ///
    /// # Errors
    /// `At`: the first place that differs, and how.
    /// `OutOfMemory`: an allocation failed.
    fn check(alloc: Global, value: &Value) -> Result<(), PathHint>;
}

/// Returns the words that describe a JSON value.
fn kind_of(alloc: Global, value: &Value) -> Result<String, AllocError> {
    match value {
        Value::Null => String::from_str(alloc, "null"),
        Value::Bool(_) => String::from_str(alloc, "a truth value"),
        Value::Number(_) => String::from_str(alloc, "a number"),
        Value::String(text) => quote(alloc, text.as_str()),
        Value::Array(_) => String::from_str(alloc, "a list"),
        Value::Object(members) => match members.keys().next() {
            Some(name) => {
                let name = quote(alloc, name.as_str())?;
                format!(in alloc; "an object with the member {name}")
            }
            None => String::from_str(alloc, "an empty object"),
        },
    }
}

/// Returns the hint for a value where `wanted` is expected.
fn unwanted(alloc: Global, wanted: &str, value: &Value) -> PathHint {
    match kind_of(alloc, value) {
        Ok(found) => PathHint::new(format!(in alloc; ": wanted {wanted}, found {found}")),
        Err(_) => PathHint::OutOfMemory,
    }
}

/// Checks that `value` is an object with exactly the members `names`.
fn check_members(alloc: Global, value: &Value, names: &[&str]) -> Result<(), PathHint> {
    let Some(members) = value.as_object() else {
        return Err(unwanted(alloc, "an object", value));
    };
    if let Some(name) = names.iter().find(|name| value.get(**name).is_none()) {
        return Err(PathHint::new(format!(in alloc; ": no member {name}")));
    }
    for name in members.keys() {
        let name = name.as_str();
        if !names.iter().any(|known| *known == name) {
            return Err(unknown_member(alloc, name));
        }
    }
    Ok(())
}

/// Returns the hint for an object with an unknown member `name`.
fn unknown_member(alloc: Global, name: &str) -> PathHint {
    match quote(alloc, name) {
        Ok(name) => PathHint::new(format!(in alloc; ": unknown member {name}")),
        Err(_) => PathHint::OutOfMemory,
    }
}

/// Checks that the member `name` of an object has the form of `T`. Without the member this is a no-op.
fn check_member<T: JsonForm>(alloc: Global, value: &Value, name: &str) -> Result<(), PathHint> {
    match value.get(name) {
        Some(member) => T::check(alloc, member).map_err(|hint| hint.in_member(alloc, name)),
        None => Ok(()),
    }
}

impl JsonForm for bool {
    fn check(alloc: Global, value: &Value) -> Result<(), PathHint> {
        if value.is_boolean() {
            Ok(())
        } else {
            Err(unwanted(alloc, "true or false", value))
        }
    }
}

/// Checks that `value` is a text.
fn check_text(alloc: Global, value: &Value) -> Result<(), PathHint> {
    if value.is_string() {
        Ok(())
    } else {
        Err(unwanted(alloc, "a text", value))
    }
}

impl JsonForm for OwnedText {
    fn check(alloc: Global, value: &Value) -> Result<(), PathHint> {
        check_text(alloc, value)
    }
}

impl JsonForm for Text<'static> {
    fn check(alloc: Global, value: &Value) -> Result<(), PathHint> {
        check_text(alloc, value)
    }
}

impl<T: JsonForm> JsonForm for Option<T> {
    fn check(alloc: Global, value: &Value) -> Result<(), PathHint> {
        if value.is_null() {
            Ok(())
        } else {
            T::check(alloc, value)
        }
    }
}

impl<T: JsonForm> JsonForm for Items<T> {
    fn check(alloc: Global, value: &Value) -> Result<(), PathHint> {
        let Some(values) = value.as_array() else {
            return Err(unwanted(alloc, "a list", value));
        };
        for (index, value) in values.iter().enumerate() {
            T::check(alloc, value).map_err(|hint| hint.in_item(alloc, index))?;
        }
        Ok(())
    }
}

impl JsonForm for ChangeType {
    fn check(alloc: Global, value: &Value) -> Result<(), PathHint> {
        match value.as_str() {
            Some("Added" | "Removed") => Ok(()),
            _ => Err(unwanted(alloc, "\"Added\" or \"Removed\"", value)),
        }
    }
}

impl JsonForm for SectionChangedLine<'static> {
    fn check(alloc: Global, value: &Value) -> Result<(), PathHint> {
        check_members(alloc, value, &["is_checked", "change_type", "line"])?;
        check_member::<bool>(alloc, value, "is_checked")?;
        check_member::<ChangeType>(alloc, value, "change_type")?;
        check_member::<Text<'static>>(alloc, value, "line")
    }
}

/// The bits of a file mode: a whole number from 0 to 2^64 - 1.
struct Bits;

impl JsonForm for Bits {
    fn check(alloc: Global, value: &Value) -> Result<(), PathHint> {
        if value.is_u64() {
            Ok(())
        } else {
            let wanted =
                "a number from 0 to 18446744073709551615, without sign, fraction or exponent";
            Err(unwanted(alloc, wanted, value))
        }
    }
}

impl JsonForm for FileMode {
    fn check(alloc: Global, value: &Value) -> Result<(), PathHint> {
        if value.is_object() {
            check_members(alloc, value, &["Unix"])?;
            return check_member::<Bits>(alloc, value, "Unix");
        }
        match value.as_str() {
            Some("Absent") => Ok(()),
            _ => Err(unwanted(alloc, "\"Absent\" or {\"Unix\":NUMBER}", value)),
        }
    }
}

impl JsonForm for Commit {
    fn check(alloc: Global, value: &Value) -> Result<(), PathHint> {
        check_members(alloc, value, &["message"])?;
        check_member::<Option<OwnedText>>(alloc, value, "message")
    }
}

/// The fields of a section of context lines.
struct UnchangedFields;

impl JsonForm for UnchangedFields {
    fn check(alloc: Global, value: &Value) -> Result<(), PathHint> {
        check_members(alloc, value, &["lines"])?;
        check_member::<Items<Text<'static>>>(alloc, value, "lines")
    }
}

/// The fields of a section of changed lines.
struct ChangedFields;

impl JsonForm for ChangedFields {
    fn check(alloc: Global, value: &Value) -> Result<(), PathHint> {
        check_members(alloc, value, &["lines"])?;
        check_member::<Items<SectionChangedLine<'static>>>(alloc, value, "lines")
    }
}

/// The fields of a section that changes the file's mode.
struct FileModeFields;

impl JsonForm for FileModeFields {
    fn check(alloc: Global, value: &Value) -> Result<(), PathHint> {
        check_members(alloc, value, &["is_checked", "mode"])?;
        check_member::<bool>(alloc, value, "is_checked")?;
        check_member::<FileMode>(alloc, value, "mode")
    }
}

/// The fields of a section that changes a file's bytes.
struct BinaryFields;

impl JsonForm for BinaryFields {
    fn check(alloc: Global, value: &Value) -> Result<(), PathHint> {
        check_members(
            alloc,
            value,
            &["is_checked", "old_description", "new_description"],
        )?;
        check_member::<bool>(alloc, value, "is_checked")?;
        check_member::<Option<Text<'static>>>(alloc, value, "old_description")?;
        check_member::<Option<Text<'static>>>(alloc, value, "new_description")
    }
}

/// The names of the kinds of sections.
const SECTION_KINDS: [&str; 4] = ["Unchanged", "Changed", "FileMode", "Binary"];

/// Returns whether `value` is an object whose only member names a kind of section.
fn has_section_kind(value: &Value) -> bool {
    let Some(members) = value.as_object() else {
        return false;
    };
    members.len() == 1 && SECTION_KINDS.iter().any(|kind| value.get(*kind).is_some())
}

impl JsonForm for Section<'static> {
    fn check(alloc: Global, value: &Value) -> Result<(), PathHint> {
        if !has_section_kind(value) {
            let wanted = "an object of one member: Unchanged, Changed, FileMode or Binary";
            return Err(unwanted(alloc, wanted, value));
        }
        check_member::<UnchangedFields>(alloc, value, "Unchanged")?;
        check_member::<ChangedFields>(alloc, value, "Changed")?;
        check_member::<FileModeFields>(alloc, value, "FileMode")?;
        check_member::<BinaryFields>(alloc, value, "Binary")
    }
}

impl JsonForm for File<'static> {
    fn check(alloc: Global, value: &Value) -> Result<(), PathHint> {
        check_members(alloc, value, &["old_path", "path", "file_mode", "sections"])?;
        check_member::<Option<Text<'static>>>(alloc, value, "old_path")?;
        check_member::<Text<'static>>(alloc, value, "path")?;
        check_member::<FileMode>(alloc, value, "file_mode")?;
        check_member::<Items<Section<'static>>>(alloc, value, "sections")
    }
}

impl JsonForm for RecordState<'static> {
    fn check(alloc: Global, value: &Value) -> Result<(), PathHint> {
        check_members(alloc, value, &["is_read_only", "commits", "files"])?;
        check_member::<bool>(alloc, value, "is_read_only")?;
        check_member::<Items<Commit>>(alloc, value, "commits")?;
        check_member::<Items<File<'static>>>(alloc, value, "files")
    }
}
