//! The state of the table.
use scm_record::{File, FileMode, Items, RecordError, RecordState, Section, Text};
use scm_samples::{ADDED, DEFAULT, Line, REMOVED, changed, context};
use std::alloc::Global;

/// A section, as a constant.
#[derive(Clone, Copy)]
enum Part {
    /// Context of these lines.
    Context(&'static [&'static str]),
    /// Changes of these lines.
    Changes(&'static [Line]),
    /// An unchecked change of the mode to this one.
    Mode(FileMode),
}

/// A path, the old mode, and the sections of a file.
type Given = (&'static str, FileMode, &'static [Part]);

/// The sections of the file `alpha`.
const ALPHA: &[Part] = &[
    Part::Context(&["two\n"]),
    Part::Changes(&[
        (false, REMOVED, "one\n"),
        (false, ADDED, "Two\n"),
        (false, ADDED, "three\n"),
    ]),
];

/// The sections of the file `beta`.
const BETA: &[Part] = &[
    Part::Changes(&[(false, ADDED, "a\n")]),
    Part::Changes(&[(false, ADDED, "two words\n")]),
];

/// The sections of the file `Gamma`.
const GAMMA: &[Part] = &[
    Part::Mode(FileMode::Unix(0o100755)),
    Part::Changes(&[(false, ADDED, "naïve\n")]),
];

/// The sections of the new file `delta`.
const DELTA: &[Part] = &[
    Part::Mode(DEFAULT),
    Part::Changes(&[(false, ADDED, "n1\n"), (false, ADDED, "n2\n")]),
];

/// The files of the table.
const FILES: &[Given] = &[
    ("alpha", DEFAULT, ALPHA),
    ("beta", DEFAULT, BETA),
    ("Gamma", DEFAULT, GAMMA),
    ("delta", FileMode::Absent, DELTA),
];

/// Returns the section `part`.
fn section_of(alloc: Global, part: Part) -> Result<Section<'static>, RecordError> {
    match part {
        Part::Context(lines) => context(alloc, lines),
        Part::Changes(lines) => changed(alloc, lines),
        Part::Mode(mode) => Ok(Section::FileMode {
            is_checked: false,
            mode,
        }),
    }
}

/// Returns the sections `parts`.
fn sections_of(alloc: Global, parts: &[Part]) -> Result<Items<Section<'static>>, RecordError> {
    let mut sections = Items::new(alloc);
    for part in parts {
        sections.push(section_of(alloc, *part)?)?;
    }
    Ok(sections)
}

/// Returns the file `given`.
fn file_of(alloc: Global, given: Given) -> Result<File<'static>, RecordError> {
    Ok(File {
        old_path: None,
        path: Text::from(given.0),
        file_mode: given.1,
        sections: sections_of(alloc, given.2)?,
    })
}

/// Returns the files of the table.
fn files(alloc: Global) -> Result<Items<File<'static>>, RecordError> {
    let mut files = Items::new(alloc);
    for given in FILES {
        files.push(file_of(alloc, *given)?)?;
    }
    Ok(files)
}

/// Returns the state of the table.
pub(crate) fn state_of_files(alloc: Global) -> Result<RecordState<'static>, RecordError> {
    let files = files(alloc)?;
    Ok(RecordState {
        is_read_only: false,
        commits: Items::new(alloc),
        files,
    })
}
