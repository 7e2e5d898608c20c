//! Bytes as a text, and back: a byte that is not part of UTF-8 becomes a reserved character.
ghost use Rattle.std.specs.Prelude.{◌≡◌, ◌+◌, ◌<◌, ◌≤◌, ◌++◌, IfNone, IfOk, IfSome, OnOk, drop, false, length, string_bytes, take, true};
ghost use Rattle.std.specs.List.{list_any};
ghost use Rattle.std.specs.Str.{chars};
ghost use Rattle.scm_diff.specs.Bytes.{IsPiece, bytes_of_char, bytes_of_text, has_high, has_nul, is_plain, is_reserved, plain_len, reserved_char, side_bytes, text_of_bytes};

use crate::sides::side_text;
use scm_types::{File, OwnedText};
use std::alloc::{AllocError, Global};

/// Returns whether the character is reserved for a byte.
fn is_reserved(c: char) -> bool
    ensures { result ≡ is_reserved c }
{
    let code = u32::from(c);
    // `&`: one branch for the prover
    (0x000E_0080 <= code) & (code <= 0x000E_00FF)
}

/// Returns whether a byte is none of ASCII.
fn has_high(bytes: &[u8]) -> bool
    ensures { result ≡ has_high bytes.now }
{
    bytes.iter().any(|byte| 128 <= *byte)
}

/// Returns whether a character of the text is reserved.
fn is_any_reserved(text: &str) -> bool
    ensures { result ≡ list_any is_reserved (chars text.now) }
{
    text.chars().any(|c| is_reserved(c))
}

/// Returns whether the text has a reserved character. Of ASCII, as most texts are, only the bytes are read.
fn has_reserved(text: &str) -> bool
    ensures { result ≡ list_any is_reserved (chars text.now) }
{
    if has_high(text.as_bytes()) {
        is_any_reserved(text)
    } else {
        false
    }
}

/// Returns the reserved character of `byte`.
fn reserved_char(byte: u8) -> char
    ensures { result ≡ reserved_char byte }
{
    match char::from_u32(0x000E_0000 + u32::from(byte)) {
        Some(c) => c,
        None => '\u{FFFD}',
    }
}

/// Returns the bytes as a text, if they are UTF-8 without a reserved character.
fn plain_text(bytes: &[u8]) -> Option<&str>
    ensures none { IfNone result (is_plain bytes.now ≡ false) }
    ensures some { IfSome result (λ text. (text.now ≡ bytes.now) × (is_plain bytes.now ≡ true)) }
{
    match str::from_utf8(bytes) {
        Ok(text) => { if has_reserved(text) { None } else { Some(text) } }
        Err(_) => None,
    }
}

/// Returns the first `count` bytes, or all if there are fewer.
fn front(bytes: &[u8], count: usize) -> &[u8]
    ensures { result.now ≡ take count bytes.now }
{
    if count < bytes.len() {
        &bytes[..count]
    } else {
        bytes
    }
}

/// Returns the bytes after the first `count`.
fn rest_of(bytes: &[u8], count: usize) -> &[u8]
    requires { count ≤ length bytes.now }
    ensures value { result.now ≡ drop count bytes.now }
    ensures len { length result.now + count ≡ length bytes.now }
{
    &bytes[count..]
}

/// Returns whether the bytes are UTF-8 without a reserved character.
fn is_plain(bytes: &[u8]) -> bool
    ensures { result ≡ is_plain bytes.now }
{
    match plain_text(bytes) {
        Some(_) => true,
        None => false,
    }
}

/// Returns how many bytes the first character takes, or 0 if the bytes begin with no plain one.
fn plain_len(bytes: &[u8]) -> usize
    ensures { result ≡ plain_len bytes.now }
{
    if is_plain(front(bytes, 1)) {
        1
    } else if is_plain(front(bytes, 2)) {
        2
    } else if is_plain(front(bytes, 3)) {
        3
    } else if is_plain(front(bytes, 4)) {
        4
    } else {
        0
    }
}

/// Returns the first character, if the bytes begin with a plain one.
fn plain_front(bytes: &[u8]) -> Option<&str>
    ensures none { IfNone result (plain_len bytes.now ≡ 0) }
    ensures text { IfSome result (λ text. text.now ≡ take (plain_len bytes.now) bytes.now) }
    ensures some { IfSome result (λ text. 0 < plain_len bytes.now) }
{
    let len = plain_len(bytes);
    if len == 0 {
        return None;
    }
    match plain_text(front(bytes, len)) {
        Some(text) => Some(text),
        None => None,
    }
}

/// Adds the text of the first bytes of `rest` at the end of `text`, and returns how many bytes these
/// are.
fn push_piece(text: &mut String, rest: &[u8]) -> Result<usize, AllocError>
    requires { 0 < length rest.now }
    ensures { IfOk result (IsPiece rest.now (string_bytes text.old) (string_bytes text.new)) }
{
    if let Some(piece) = plain_front(rest) {
        text.push_str(piece)?;
        Ok(piece.len())
    } else {
        text.push(reserved_char(rest[0]))?;
        Ok(1)
    }
}

/// Returns the text of the bytes piece by piece.
fn coded_text(alloc: Global, bytes: &[u8]) -> Result<String, AllocError>
    ensures { IfOk result (λ text. string_bytes text ≡ text_of_bytes bytes.now) }
{
    let mut text = String::with_capacity(alloc, bytes.len())?;
    let mut rest = bytes;
    'pieces: while !rest.is_empty() {
        let count = push_piece(&mut text, rest)?;
        rest = rest_of(rest, count);
    }
    Ok(text)
}

/// Returns a text that stands for the bytes, for [`Version`](crate::Version): UTF-8 as it is, and for
/// each byte that is not part of it, of 128 to 255, the reserved character U+E0000 plus that byte. A
/// line on the screen shows U+FFFD for a reserved character.
///
/// A reserved character that the bytes themselves have is replaced byte by byte. So each text stands
/// for one list of bytes, which [`bytes_of_text`] gives back. Line ends stay.
///
/// # Errors
/// `AllocError`: an allocation failed.
pub fn text_of_bytes(alloc: Global, bytes: &[u8]) -> Result<OwnedText, AllocError>
    ensures { IfOk result (λ text. text ≡ text_of_bytes bytes.now) }
{
    if let Some(text) = plain_text(bytes) {
        let copy = String::from_str(alloc, text)?;
        return Ok(OwnedText::from(copy));
    }
    let text = coded_text(alloc, bytes)?;
    Ok(OwnedText::from(text))
}

/// Adds the bytes that the character stands for at the end of `bytes`.
fn push_char(bytes: &mut Vec<u8>, c: char) -> Result<(), AllocError>
    ensures { OnOk result (bytes.new.items ≡ bytes.old.items ++ bytes_of_char c) }
{
    if is_reserved(c) {
        let byte = (u32::from(c) - 0x000E_0000) as u8;
        bytes.push(byte)?;
        Ok(())
    } else {
        let mut room = [0u8; 4];
        let piece = c.encode_utf8(&mut room);
        bytes.extend_from_slice(piece.as_bytes())
    }
}

/// Returns the bytes that the characters stand for, one after another.
fn decoded_bytes(alloc: Global, text: &str) -> Result<Vec<u8>, AllocError>
    ensures { IfOk result (λ bytes. bytes.items ≡ bytes_of_text text.now) }
{
    let mut bytes = Vec::with_capacity(alloc, text.len())?;
    for c in text.chars() {
        push_char(&mut bytes, c)?;
    }
    Ok(bytes)
}

/// Returns the bytes that the text stands for, after [`text_of_bytes`]: a reserved character stands
/// for its byte, any other one for its UTF-8.
///
/// # Errors
/// `AllocError`: an allocation failed.
pub fn bytes_of_text(alloc: Global, text: &str) -> Result<Vec<u8>, AllocError>
    ensures { IfOk result (λ bytes. bytes.items ≡ bytes_of_text text.now) }
{
    if has_reserved(text) {
        let decoded = decoded_bytes(alloc, text)?;
        return Ok(decoded);
    }
    let mut bytes = Vec::with_capacity(alloc, text.len())?;
    bytes.extend_from_slice(text.as_bytes())?;
    Ok(bytes)
}

/// Returns the bytes of the selected side of `file` if `selected`, or of the other side: those that
/// its [`side_text`] stands for.
///
/// # Errors
/// `AllocError`: an allocation failed.
pub fn side_bytes(alloc: Global, file: &File<'_>, selected: bool) -> Result<Vec<u8>, AllocError>
    ensures { IfOk result (λ bytes. bytes.items ≡ side_bytes selected file.now) }
{
    let text = side_text(alloc, file, selected)?;
    let bytes = bytes_of_text(alloc, text.as_str())?;
    Ok(bytes)
}

/// Returns whether the bytes have a NUL, as files have that are no text. A caller shows such a file
/// as binary.
pub fn has_nul(bytes: &[u8]) -> bool
    ensures { result ≡ has_nul bytes.now }
{
    bytes.iter().any(|byte| *byte == 0)
}
