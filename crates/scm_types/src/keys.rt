//! Keys that name files, sections and lines, to select, fold and toggle them.
ghost use Rattle.std.specs.Prelude.{◌≡◌};
ghost use Rattle.scm_types.specs.Keys.{file_of, file_of_line, file_of_section, is_key, line_key_of, section_key_of, section_of_line};

/// The key of a file in a commit's view. Indexes are counted from 0.
#[derive(Clone, Copy, Debug, PartialEq, Eq, PartialOrd, Ord, Hash)]
pub struct FileKey {
    /// The index of the commit in the state.
    pub commit_idx: usize,
    /// The index of the file in the state.
    pub file_idx: usize,
}

/// The key of a section of a file. Indexes are counted from 0.
#[derive(Clone, Copy, Debug, PartialEq, Eq, PartialOrd, Ord, Hash)]
pub struct SectionKey {
    /// The index of the commit in the state.
    pub commit_idx: usize,
    /// The index of the file in the state.
    pub file_idx: usize,
    /// The index of the section in the file.
    pub section_idx: usize,
}

/// The key of a line of a section. Indexes are counted from 0.
#[derive(Clone, Copy, Debug, PartialEq, Eq, PartialOrd, Ord, Hash)]
pub struct LineKey {
    /// The index of the commit in the state.
    pub commit_idx: usize,
    /// The index of the file in the state.
    pub file_idx: usize,
    /// The index of the section in the file.
    pub section_idx: usize,
    /// The index of the line in the section.
    pub line_idx: usize,
}

/// The key of what is selected.
#[derive(Clone, Copy, Debug, Default, PartialEq, Eq, PartialOrd, Ord, Hash)]
pub enum SelectionKey {
    /// Nothing, for example if there are no files.
    #[default]
    None,
    /// A file.
    File(FileKey),
    /// A section.
    Section(SectionKey),
    /// A line.
    Line(LineKey),
}

impl FileKey {
    /// Returns the key of section `section_idx` of this file, counted from 0.
    pub fn section(self, section_idx: usize) -> SectionKey
        ensures { result ≡ section_key_of self section_idx }
    {
        SectionKey {
            commit_idx: self.commit_idx,
            file_idx: self.file_idx,
            section_idx,
        }
    }
}

impl SectionKey {
    /// Returns the key of the file that has this section.
    pub fn file(self) -> FileKey
        ensures { result ≡ file_of_section self }
    {
        FileKey {
            commit_idx: self.commit_idx,
            file_idx: self.file_idx,
        }
    }

    /// Returns the key of line `line` of this section, counted from 0.
    pub fn line(self, line: usize) -> LineKey
        ensures { result ≡ line_key_of self line }
    {
        let section = self.section_idx;
        LineKey {
            commit_idx: self.commit_idx,
            file_idx: self.file_idx,
            section_idx: section,
            line_idx: line,
        }
    }
}

impl LineKey {
    /// Returns the key of the section that has this line.
    pub fn section(self) -> SectionKey
        ensures { result ≡ section_of_line self }
    {
        SectionKey {
            commit_idx: self.commit_idx,
            file_idx: self.file_idx,
            section_idx: self.section_idx,
        }
    }

    /// Returns the key of the file that has this line.
    pub fn file(self) -> FileKey
        ensures { result ≡ file_of_line self }
    {
        self.section().file()
    }
}

impl SelectionKey {
    /// Returns the key of the file that this key names or lies in. Returns `SelectionKey::None` for
    /// `SelectionKey::None`.
    pub fn file(self) -> SelectionKey
        ensures { result ≡ file_of self }
    {
        match self {
            SelectionKey::None | SelectionKey::File(_) => self,
            SelectionKey::Section(key) => SelectionKey::File(key.file()),
            SelectionKey::Line(key) => SelectionKey::File(key.file()),
        }
    }
}

/// Returns whether `key` and `other` are equal: `==` with a short contract.
pub fn is_key(key: SelectionKey, other: SelectionKey) -> bool
    ensures { result ≡ is_key key other }
{
    key == other
}
