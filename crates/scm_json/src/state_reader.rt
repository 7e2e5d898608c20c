//! Reads states from JSON of exactly the form that serializing a state writes.
ghost use Rattle.std.specs.Prelude.{◌≡◌, ◌==◌, ◌∷◌, IfErr, IfOk, IfSome, Some, false, is_some, option_and_then, slice_index};
ghost use Rattle.fast_float.specs.Text.{minus};
ghost use Rattle.json.specs.Token.{begin_object};
ghost use Rattle.json.specs.Reads.{token_of};
ghost use Rattle.scm_errors.specs.declared.error.RecordError.TheVariants.{OutOfMemory};
ghost use Rattle.serde_json.specs.View.{view};
ghost use Rattle.serde_json.specs.Data.{string, unsigned};
ghost use Rattle.serde_json.specs.Read.{number_from, number_of, read};
ghost use Rattle.scm_json.specs.Form as form_of;
ghost use Rattle.scm_json.specs.Tokens.{IsRead};

use crate::from_json::{FromJson, begins_object, ends_object, has_members, member, next_member};
use fast_float::Numeral;
use json::{Reader, Scratch, Token};
use scm_types::{
    ChangeType, Commit, File, FileMode, Items, OwnedText, RecordError, RecordState, Section,
    SectionChangedLine, Text,
};
use serde_json::Value;
use std::alloc::{AllocError, Global};

/// Reads a state from its JSON form, or returns `None` if `text` is no JSON of that form.
///
/// A missing or extra member and an unknown variant are refused. So is a mode that is no whole
/// number from 0 to 2^64 - 1. If a member is repeated, the last one counts.
///
/// # Errors
/// `OutOfMemory`: an allocation failed.
pub fn read_state(alloc: Global, text: &str) -> Result<Option<RecordState<'static>>, RecordError>
    ensures ok { IfOk result (λ o. o ≡ option_and_then form_of.state_of (read text.now)) }
    ensures err { IfErr result (λ e. e ≡ RecordError.OutOfMemory) }
{
    if let Some(state) = read_tokens(alloc, text)? {
        return Ok(Some(state));
    }
    match Value::from_str(alloc, text) {
        Ok(value) => Ok(RecordState::from_json(alloc, &value)?),
        Err(error) => {
            if error.is_memory() {
                Err(RecordError::OutOfMemory)
            } else {
                Ok(None)
            }
        }
    }
}

/// Reads a state as serializing writes it, without a tree of its JSON form. Returns `None` if `text` is
/// not written so: then it may yet be the form of a state, with members in another order.
fn read_tokens(alloc: Global, text: &str) -> Result<Option<RecordState<'static>>, AllocError>
    ensures { IfOk result (λ o. IfSome o (λ state.
        option_and_then form_of.state_of (read text.now) ≡ Some state)) }
{
    let mut scratch = Scratch::new(alloc);
    let mut reader = Reader::new(text, &mut scratch)?;
    let Some(first) = reader.next() else {
        return Ok(None);
    };
    let Some(state) = RecordState::from_tokens(alloc, first, &mut reader)? else {
        return Ok(None);
    };
    if reader.next().is_some() {
        return Ok(None);
    }
    Ok(Some(state))
}

/// Returns the kind of change called `name`, if there is one.
fn read_change_type(name: &str) -> Option<ChangeType>
    ensures { result ≡ form_of.change_type_of_name name.now }
{
    if name == "Added" {
        Some(ChangeType::Added)
    } else if name == "Removed" {
        Some(ChangeType::Removed)
    } else {
        None
    }
}

impl FromJson for ChangeType {
    ghost form = { form_of.change_type_of };

    ghost height = { 0 };

    fn from_json(_alloc: Global, value: &Value) -> Result<Option<ChangeType>, AllocError> {
        Ok(value.as_str().and_then(read_change_type))
    }

    fn from_tokens(
        _alloc: Global,
        first: Token<'_>,
        _reader: &mut Reader<'_>,
    ) -> Result<Option<ChangeType>, AllocError> {
        match first {
            Token::String(name) => Ok(read_change_type(name)),
            _ => Ok(None),
        }
    }
}

impl FromJson for SectionChangedLine<'static> {
    ghost form = { form_of.line_of };

    ghost height = { 1 };

    fn from_json(
        alloc: Global,
        value: &Value,
    ) -> Result<Option<SectionChangedLine<'static>>, AllocError> {
        if !has_members(value, 3) {
            return Ok(None);
        }
        let Some(is_checked) = member::<bool>(alloc, value, "is_checked")? else {
            return Ok(None);
        };
        let Some(change_type) = member::<ChangeType>(alloc, value, "change_type")? else {
            return Ok(None);
        };
        let Some(line) = member::<Text<'static>>(alloc, value, "line")? else {
            return Ok(None);
        };
        Ok(Some(SectionChangedLine {
            is_checked,
            change_type,
            line,
        }))
    }

    fn from_tokens(
        alloc: Global,
        first: Token<'_>,
        reader: &mut Reader<'_>,
    ) -> Result<Option<SectionChangedLine<'static>>, AllocError> {
        let Token::BeginObject = first else {
            return Ok(None);
        };
        let Some(is_checked) = next_member::<bool>(alloc, reader, "is_checked")? else {
            return Ok(None);
        };
        let Some(change_type) = next_member::<ChangeType>(alloc, reader, "change_type")? else {
            return Ok(None);
        };
        let Some(line) = next_member::<Text<'static>>(alloc, reader, "line")? else {
            return Ok(None);
        };
        if !ends_object(reader) {
            return Ok(None);
        }
        Ok(Some(SectionChangedLine {
            is_checked,
            change_type,
            line,
        }))
    }
}

/// Returns the number that the token of a number writes, if it is whole and from 0 to 2^64 - 1.
fn whole_number(text: &str) -> Option<u64>
    ensures { IfSome result (λ n. number_of text.now ≡ Some (unsigned n)) }
{
    let bytes = text.as_bytes();
    if starts_with_minus(bytes) {
        return None;
    }
    let numeral = Numeral::scan(bytes);
    whole_of(&numeral)
}

/// Returns the number of `numeral` without a sign, if it is whole and less than 2^64.
fn whole_of(numeral: &Numeral<'_>) -> Option<u64>
    ensures { IfSome result (λ n. number_from false numeral.now ≡ Some (unsigned n)) }
{
    match numeral.to_u64() {
        Some(number) => Some(number),
        None => None,
    }
}

/// Returns whether the bytes begin with a minus.
fn starts_with_minus(bytes: &[u8]) -> bool
    ensures { result ≡ (slice_index bytes.now 0 == minus) }
{
    match bytes.first() {
        Some(byte) => *byte == b'-',
        None => false,
    }
}

impl FromJson for u64 {
    ghost form = { form_of.bits_of };

    ghost height = { 0 };

    fn from_json(_alloc: Global, value: &Value) -> Result<Option<u64>, AllocError> {
        Ok(value.as_u64())
    }

    fn from_tokens(
        _alloc: Global,
        first: Token<'_>,
        _reader: &mut Reader<'_>,
    ) -> Result<Option<u64>, AllocError> {
        match first {
            Token::Number(text) => Ok(whole_number(text)),
            _ => Ok(None),
        }
    }
}

/// Reads the mode of an object `{"Unix":N}`.
fn read_unix(value: &Value) -> Option<FileMode>
    ensures { result ≡ form_of.unix_of (view value.now) }
{
    if !has_members(value, 1) {
        return None;
    }
    let bits = value.get("Unix").and_then(Value::as_u64)?;
    Some(FileMode::Unix(bits as usize))
}

/// Returns the mode called `name`, if it is `Absent`.
fn read_absent(name: &str) -> Option<FileMode>
    ensures { result ≡ form_of.absent_of (string name.now) }
{
    if name == "Absent" {
        Some(FileMode::Absent)
    } else {
        None
    }
}

/// Returns whether `value` is the text `"Absent"`.
fn is_absent(value: &Value) -> bool
    ensures { result ≡ is_some (form_of.absent_of (view value.now)) }
{
    value.as_str().is_some_and(|name| name == "Absent")
}

impl FromJson for FileMode {
    ghost form = { form_of.mode_of };

    ghost height = { 1 };

    fn from_json(_alloc: Global, value: &Value) -> Result<Option<FileMode>, AllocError> {
        if is_absent(value) {
            Ok(Some(FileMode::Absent))
        } else {
            Ok(read_unix(value))
        }
    }

    fn from_tokens(
        alloc: Global,
        first: Token<'_>,
        reader: &mut Reader<'_>,
    ) -> Result<Option<FileMode>, AllocError> {
        match first {
            Token::String(name) => Ok(read_absent(name)),
            Token::BeginObject => {
                let Some(bits) = next_member::<u64>(alloc, reader, "Unix")? else {
                    return Ok(None);
                };
                if !ends_object(reader) {
                    return Ok(None);
                }
                Ok(Some(FileMode::Unix(bits as usize)))
            }
            _ => Ok(None),
        }
    }
}

impl FromJson for Commit {
    ghost form = { form_of.commit_of };

    ghost height = { 1 };

    fn from_json(alloc: Global, value: &Value) -> Result<Option<Commit>, AllocError> {
        if !has_members(value, 1) {
            return Ok(None);
        }
        let message = member::<Option<OwnedText>>(alloc, value, "message")?;
        Ok(message.map(|message| Commit { message }))
    }

    fn from_tokens(
        alloc: Global,
        first: Token<'_>,
        reader: &mut Reader<'_>,
    ) -> Result<Option<Commit>, AllocError> {
        let Token::BeginObject = first else {
            return Ok(None);
        };
        let Some(message) = next_member::<Option<OwnedText>>(alloc, reader, "message")? else {
            return Ok(None);
        };
        if !ends_object(reader) {
            return Ok(None);
        }
        Ok(Some(Commit { message }))
    }
}

/// Reads the context section of an object `{"lines":[TEXT, ..]}`.
fn read_unchanged(alloc: Global, value: &Value) -> Result<Option<Section<'static>>, AllocError>
    ensures { IfOk result (λ o. o ≡ form_of.unchanged_of (view value.now)) }
{
    if !has_members(value, 1) {
        return Ok(None);
    }
    let lines = member::<Items<Text<'static>>>(alloc, value, "lines")?;
    Ok(lines.map(|lines| Section::Unchanged { lines }))
}

/// Reads the section of changed lines of an object `{"lines":[LINE, ..]}`.
fn read_changed(alloc: Global, value: &Value) -> Result<Option<Section<'static>>, AllocError>
    ensures { IfOk result (λ o. o ≡ form_of.changed_of (view value.now)) }
{
    if !has_members(value, 1) {
        return Ok(None);
    }
    let lines = member::<Items<SectionChangedLine<'static>>>(alloc, value, "lines")?;
    Ok(lines.map(|lines| Section::Changed { lines }))
}

/// Reads the mode change of an object `{"is_checked":BOOL,"mode":MODE}`.
fn read_file_mode(alloc: Global, value: &Value) -> Result<Option<Section<'static>>, AllocError>
    ensures { IfOk result (λ o. o ≡ form_of.file_mode_of (view value.now)) }
{
    if !has_members(value, 2) {
        return Ok(None);
    }
    let Some(is_checked) = member::<bool>(alloc, value, "is_checked")? else {
        return Ok(None);
    };
    let Some(mode) = member::<FileMode>(alloc, value, "mode")? else {
        return Ok(None);
    };
    Ok(Some(Section::FileMode { is_checked, mode }))
}

/// Reads the binary change of an object
/// `{"is_checked":BOOL,"old_description":TEXT,"new_description":TEXT}`.
///
/// Each `TEXT` can be `null`.
fn read_binary(alloc: Global, value: &Value) -> Result<Option<Section<'static>>, AllocError>
    ensures { IfOk result (λ o. o ≡ form_of.binary_of (view value.now)) }
{
    if !has_members(value, 3) {
        return Ok(None);
    }
    let Some(is_checked) = member::<bool>(alloc, value, "is_checked")? else {
        return Ok(None);
    };
    let Some(old_description) = member::<Option<Text<'static>>>(alloc, value, "old_description")?
    else {
        return Ok(None);
    };
    let Some(new_description) = member::<Option<Text<'static>>>(alloc, value, "new_description")?
    else {
        return Ok(None);
    };
    Ok(Some(Section::Binary {
        is_checked,
        old_description,
        new_description,
    }))
}

/// Reads the fields of a context section, of which the token that opens the object was read.
fn next_unchanged(
    alloc: Global,
    reader: &mut Reader<'_>,
) -> Result<Option<Section<'static>>, AllocError>
    ensures { IfOk result (λ o. IfSome o (λ section.
        IsRead form_of.unchanged_of 3 (begin_object ∷ reader.old) section reader.new)) }
{
    let Some(lines) = next_member::<Items<Text<'static>>>(alloc, reader, "lines")? else {
        return Ok(None);
    };
    if !ends_object(reader) {
        return Ok(None);
    }
    Ok(Some(Section::Unchanged { lines }))
}

/// Reads the fields of a section of changed lines, of which the token that opens the object was read.
fn next_changed(
    alloc: Global,
    reader: &mut Reader<'_>,
) -> Result<Option<Section<'static>>, AllocError>
    ensures { IfOk result (λ o. IfSome o (λ section.
        IsRead form_of.changed_of 3 (begin_object ∷ reader.old) section reader.new)) }
{
    let Some(lines) = next_member::<Items<SectionChangedLine<'static>>>(alloc, reader, "lines")?
    else {
        return Ok(None);
    };
    if !ends_object(reader) {
        return Ok(None);
    }
    Ok(Some(Section::Changed { lines }))
}

/// Reads the fields of a mode change, of which the token that opens the object was read.
fn next_file_mode(
    alloc: Global,
    reader: &mut Reader<'_>,
) -> Result<Option<Section<'static>>, AllocError>
    ensures { IfOk result (λ o. IfSome o (λ section.
        IsRead form_of.file_mode_of 3 (begin_object ∷ reader.old) section reader.new)) }
{
    let Some(is_checked) = next_member::<bool>(alloc, reader, "is_checked")? else {
        return Ok(None);
    };
    let Some(mode) = next_member::<FileMode>(alloc, reader, "mode")? else {
        return Ok(None);
    };
    if !ends_object(reader) {
        return Ok(None);
    }
    Ok(Some(Section::FileMode { is_checked, mode }))
}

/// Reads the fields of a binary change, of which the token that opens the object was read.
fn next_binary(
    alloc: Global,
    reader: &mut Reader<'_>,
) -> Result<Option<Section<'static>>, AllocError>
    ensures { IfOk result (λ o. IfSome o (λ section.
        IsRead form_of.binary_of 3 (begin_object ∷ reader.old) section reader.new)) }
{
    let Some(is_checked) = next_member::<bool>(alloc, reader, "is_checked")? else {
        return Ok(None);
    };
    let Some(old_description) = next_member::<Option<Text<'static>>>(
        alloc,
        reader,
        "old_description",
    )?
    else {
        return Ok(None);
    };
    let Some(new_description) = next_member::<Option<Text<'static>>>(
        alloc,
        reader,
        "new_description",
    )?
    else {
        return Ok(None);
    };
    if !ends_object(reader) {
        return Ok(None);
    }
    Ok(Some(Section::Binary {
        is_checked,
        old_description,
        new_description,
    }))
}

/// Reads the fields of a section of the kind called `kind`.
fn next_fields(
    alloc: Global,
    reader: &mut Reader<'_>,
    kind: &str,
) -> Result<Option<Section<'static>>, AllocError>
    ensures { IfOk result (λ o. IfSome o (λ section.
        IsRead (form_of.fields_of kind.now) 3 reader.old section reader.new)) }
{
    if !begins_object(reader) {
        return Ok(None);
    }
    if kind == "Unchanged" {
        let section = next_unchanged(alloc, reader)?;
        Ok(section)
    } else if kind == "Changed" {
        let section = next_changed(alloc, reader)?;
        Ok(section)
    } else if kind == "FileMode" {
        let section = next_file_mode(alloc, reader)?;
        Ok(section)
    } else if kind == "Binary" {
        let section = next_binary(alloc, reader)?;
        Ok(section)
    } else {
        Ok(None)
    }
}

impl FromJson for Section<'static> {
    ghost form = { form_of.section_of };

    ghost height = { 4 };

    fn from_json(alloc: Global, value: &Value) -> Result<Option<Section<'static>>, AllocError> {
        if !has_members(value, 1) {
            return Ok(None);
        }
        if let Some(fields) = value.get("Unchanged") {
            return read_unchanged(alloc, fields);
        }
        if let Some(fields) = value.get("Changed") {
            return read_changed(alloc, fields);
        }
        if let Some(fields) = value.get("FileMode") {
            return read_file_mode(alloc, fields);
        }
        match value.get("Binary") {
            Some(fields) => read_binary(alloc, fields),
            None => Ok(None),
        }
    }

    fn from_tokens(
        alloc: Global,
        first: Token<'_>,
        reader: &mut Reader<'_>,
    ) -> Result<Option<Section<'static>>, AllocError> {
        let Token::BeginObject = first else {
            return Ok(None);
        };
        let Ok(Some(kind)) = reader.next_key() else {
            return Ok(None);
        };
        let Some(section) = next_fields(alloc, reader, kind)? else {
            return Ok(None);
        };
        if !ends_object(reader) {
            return Ok(None);
        }
        Ok(Some(section))
    }
}

impl FromJson for File<'static> {
    ghost form = { form_of.file_of };

    ghost height = { 6 };

    fn from_json(alloc: Global, value: &Value) -> Result<Option<File<'static>>, AllocError> {
        if !has_members(value, 4) {
            return Ok(None);
        }
        let Some(old_path) = member::<Option<Text<'static>>>(alloc, value, "old_path")? else {
            return Ok(None);
        };
        let Some(path) = member::<Text<'static>>(alloc, value, "path")? else {
            return Ok(None);
        };
        let Some(file_mode) = member::<FileMode>(alloc, value, "file_mode")? else {
            return Ok(None);
        };
        let Some(sections) = member::<Items<Section<'static>>>(alloc, value, "sections")? else {
            return Ok(None);
        };
        Ok(Some(File {
            old_path,
            path,
            file_mode,
            sections,
        }))
    }

    fn from_tokens(
        alloc: Global,
        first: Token<'_>,
        reader: &mut Reader<'_>,
    ) -> Result<Option<File<'static>>, AllocError> {
        let Token::BeginObject = first else {
            return Ok(None);
        };
        let Some(old_path) = next_member::<Option<Text<'static>>>(alloc, reader, "old_path")? else {
            return Ok(None);
        };
        let Some(path) = next_member::<Text<'static>>(alloc, reader, "path")? else {
            return Ok(None);
        };
        let Some(file_mode) = next_member::<FileMode>(alloc, reader, "file_mode")? else {
            return Ok(None);
        };
        let Some(sections) = next_member::<Items<Section<'static>>>(alloc, reader, "sections")?
        else {
            return Ok(None);
        };
        if !ends_object(reader) {
            return Ok(None);
        }
        Ok(Some(File {
            old_path,
            path,
            file_mode,
            sections,
        }))
    }
}

impl FromJson for RecordState<'static> {
    ghost form = { form_of.state_of };

    ghost height = { 8 };

    fn from_json(alloc: Global, value: &Value) -> Result<Option<RecordState<'static>>, AllocError> {
        if !has_members(value, 3) {
            return Ok(None);
        }
        let Some(is_read_only) = member::<bool>(alloc, value, "is_read_only")? else {
            return Ok(None);
        };
        let Some(commits) = member::<Items<Commit>>(alloc, value, "commits")? else {
            return Ok(None);
        };
        let Some(files) = member::<Items<File<'static>>>(alloc, value, "files")? else {
            return Ok(None);
        };
        Ok(Some(RecordState {
            is_read_only,
            commits,
            files,
        }))
    }

    fn from_tokens(
        alloc: Global,
        first: Token<'_>,
        reader: &mut Reader<'_>,
    ) -> Result<Option<RecordState<'static>>, AllocError> {
        let Token::BeginObject = first else {
            return Ok(None);
        };
        let Some(is_read_only) = next_member::<bool>(alloc, reader, "is_read_only")? else {
            return Ok(None);
        };
        let Some(commits) = next_member::<Items<Commit>>(alloc, reader, "commits")? else {
            return Ok(None);
        };
        let Some(files) = next_member::<Items<File<'static>>>(alloc, reader, "files")? else {
            return Ok(None);
        };
        if !ends_object(reader) {
            return Ok(None);
        }
        Ok(Some(RecordState {
            is_read_only,
            commits,
            files,
        }))
    }
}
