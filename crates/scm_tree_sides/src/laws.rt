//! Laws of changed files.
ghost use Rattle.scm_tree_sides.specs.Laws.{IsBesideLink, ItemsComeBack, LinksComeBack, ShowsItems, without_link};
ghost use Rattle.scm_tree_sides.specs.SideVersions.{GivesVersionsBack};

use crate::shown::Changed;
use scm_diff::Version;
use scm_types::File;

/// Proves that the sides of a file that is shown by items are its two versions: with everything checked the selected side is
/// the new one and the other side the old one, and with nothing checked the reverse.
pub fn items_come_back(changed: Changed, is_other: bool, is_checked: bool, file: &File<'_>)
    ensures { ShowsItems changed is_other is_checked file.now
        → ItemsComeBack changed is_other is_checked file.now }
{}

/// Proves that the sides of a file that is shown by lines beside a link are its two versions: the lines, or the link.
pub fn links_come_back(
    changed: Changed,
    old: Option<Version<'_>>,
    new: Option<Version<'_>>,
    old_bytes: &[u8],
    new_bytes: &[u8],
    file: &File<'_>,
)
    ensures { IsBesideLink old.entry new.entry changed
        → GivesVersionsBack (without_link old.entry) (without_link new.entry) old_bytes.now new_bytes.now file.now
        → LinksComeBack changed file.now }
{}
