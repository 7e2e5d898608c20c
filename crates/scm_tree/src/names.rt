//! What is wrong with a path.
ghost use Rattle.std.specs.Prelude.{◌≡◌, ◌+◌, ◌<◌, IfSome, drop, length, take};
ghost use Rattle.std.specs.List.{position};
ghost use Rattle.scm_tree.specs.Names.{fault_of, has_nul, is_dot, is_dots, is_git, is_jj, is_slash, name_fault};

use crate::bytes::{after, before, first_place};
use crate::folding::is_taken_for;

/// What is wrong with a path.
#[derive(Clone, Copy, Debug)]
pub enum PathFault {
    /// The path or a name in it is empty: so is one with `/` at its begin or end, or twice in a row.
    EmptyName,

    /// A name is `.`.
    Dot,

    /// A name is `..`, which leads out of a folder.
    DotDot,

    /// A name is `.git`, or one that NTFS or HFS+ takes for it.
    GitFolder,

    /// A name is `.jj`, or one that NTFS or HFS+ takes for it.
    JjFolder,

    /// A name has a NUL byte.
    Nul,
}

/// Returns whether `name` is `.`.
fn is_dot(name: &[u8]) -> bool
    ensures { result ≡ is_dot name.now }
{
    if name.len() == 1 {
        name[0] == 46
    } else {
        false
    }
}

/// Returns whether `name` is `..`.
fn is_dots(name: &[u8]) -> bool
    ensures { result ≡ is_dots name.now }
{
    if name.len() == 2 {
        (name[0] == 46) & (name[1] == 46)
    } else {
        false
    }
}

/// Returns whether a file system takes `name` for git's folder.
#[tactic(auto, unfolding(crate::specs::Names::is_git))]
fn is_git(name: &[u8]) -> bool
    ensures { result ≡ is_git name.now }
{
    is_taken_for(b".git", b"git~1", name)
}

/// Returns whether a file system takes `name` for jj's folder.
#[tactic(auto, unfolding(crate::specs::Names::is_jj))]
fn is_jj(name: &[u8]) -> bool
    ensures { result ≡ is_jj name.now }
{
    is_taken_for(b".jj", b"jj~1", name)
}

/// Returns whether `name` has a NUL byte.
fn has_nul(name: &[u8]) -> bool
    ensures { result ≡ has_nul name.now }
{
    first_place(name, 0).is_some()
}

/// Returns what is wrong with `name`, if anything is.
#[tactic(auto, unfolding(crate::specs::Names::name_fault))]
fn name_fault(name: &[u8]) -> Option<PathFault>
    ensures { result ≡ name_fault name.now }
{
    if name.is_empty() {
        Some(PathFault::EmptyName)
    } else if is_dot(name) {
        Some(PathFault::Dot)
    } else if is_dots(name) {
        Some(PathFault::DotDot)
    } else if is_git(name) {
        Some(PathFault::GitFolder)
    } else if is_jj(name) {
        Some(PathFault::JjFolder)
    } else if has_nul(name) {
        Some(PathFault::Nul)
    } else {
        None
    }
}

/// Returns what is wrong with the first name of `path` with which something is, or `None` if the path
/// names a file below the top folder on every file system.
pub fn path_fault(path: &[u8]) -> Option<PathFault>
    ensures { result ≡ fault_of path.now }
{
    let mut rest = path;
    'names: while let Some(end) = first_place(rest, b'/') {
        let fault = name_fault(before(rest, end));
        if fault.is_some() {
            return fault;
        }
        rest = after(rest, end);
    }
    name_fault(rest)
}
