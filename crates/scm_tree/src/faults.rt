//! What is wrong with a path, as a number.
ghost use Rattle.std.specs.Prelude.{◌≡◌};
ghost use Rattle.scm_tree.specs.Names.{fault_of};
ghost use Rattle.scm_tree.specs.Faults.{fault_number};

use crate::{PathFault, path_fault};

/// Nothing is wrong.
pub const PATH_FINE: u32 = 0;
/// A name is empty.
pub const PATH_EMPTY: u32 = 1;
/// A name is `.`.
pub const PATH_DOT: u32 = 2;
/// A name is `..`.
pub const PATH_DOT_DOT: u32 = 3;
/// A file system may take a name for git's folder.
pub const PATH_OF_GIT: u32 = 4;
/// A file system may take a name for jj's folder.
pub const PATH_OF_JJ: u32 = 5;
/// A name has a NUL byte.
pub const PATH_WITH_NUL: u32 = 6;

/// Returns the number of a fault.
fn number_of(fault: Option<PathFault>) -> u32
    ensures { result ≡ fault_number fault }
{
    match fault {
        None => PATH_FINE,
        Some(PathFault::EmptyName) => PATH_EMPTY,
        Some(PathFault::Dot) => PATH_DOT,
        Some(PathFault::DotDot) => PATH_DOT_DOT,
        Some(PathFault::GitFolder) => PATH_OF_GIT,
        Some(PathFault::JjFolder) => PATH_OF_JJ,
        Some(PathFault::Nul) => PATH_WITH_NUL,
    }
}

/// Returns the number of what is wrong with the first name of `path` with which something is, or 0 if the path names a file
/// below the top folder on every file system.
pub fn path_fault_number(path: &[u8]) -> u32
    ensures { result ≡ fault_number (fault_of path.now) }
{
    number_of(path_fault(path))
}
