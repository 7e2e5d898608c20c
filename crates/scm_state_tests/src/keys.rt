//! Tests of keys: the section and the file of a key.
use crate::checks::check_equal;
use scm_types::{FileKey, LineKey, SectionKey, SelectionKey};

#[test]
fn keys_lie_in_sections_and_files(rt: HostRuntime) {
    let file = FileKey {
        commit_idx: 1,
        file_idx: 2,
    };
    let section = SectionKey {
        commit_idx: 1,
        file_idx: 2,
        section_idx: 3,
    };
    let line = LineKey {
        commit_idx: 1,
        file_idx: 2,
        section_idx: 3,
        line_idx: 4,
    };
    check_equal(&rt, file.section(3), section);
    check_equal(&rt, section.file(), file);
    check_equal(&rt, section.line(4), line);
    check_equal(&rt, line.section(), section);
    check_equal(&rt, line.file(), file);
    let selected = SelectionKey::File(file);
    check_equal(&rt, SelectionKey::None.file(), SelectionKey::None);
    check_equal(&rt, selected.file(), selected);
    check_equal(&rt, SelectionKey::Section(section).file(), selected);
    check_equal(&rt, SelectionKey::Line(line).file(), selected);
}
