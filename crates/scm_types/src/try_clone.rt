//! Copies of the types of a state.
ghost use Rattle.std.specs.Prelude.{◌≡◌, IfOk, IfErr};
ghost use Rattle.scm_errors.specs.declared.error.RecordError.TheVariants.{OutOfMemory};

use crate::file::File;
use crate::items::Items;
use crate::line::SectionChangedLine;
use crate::section::Section;
use crate::split::SelectedContents;
use crate::state::{Commit, RecordState};
use crate::text::{OwnedText, Text};
use scm_errors::RecordError;
use std::alloc::Global;

/// A type whose values are copied by a call that fails if an allocation fails.
///
/// Each type of a state also has its own method `try_clone`, which needs no import.
pub trait TryClone: Sized + Drop {
    /// Returns a copy of the value.
    ///
    /// # Errors
    /// `OutOfMemory`: an allocation failed.
    fn try_clone(&self, alloc: Global) -> Result<Self, RecordError>
        ensures ok { IfOk result (λ copy. copy ≡ self.now) }
        ensures err { IfErr result (λ error. error ≡ OutOfMemory) };
}

impl<'a> Text<'a> {
    /// Returns a copy of the text.
    ///
    /// # Errors
    /// `OutOfMemory`: an allocation failed.
    pub fn try_clone(&self, _alloc: Global) -> Result<Text<'a>, RecordError>
        ensures ok { IfOk result (λ copy. copy ≡ self.now) }
        ensures err { IfErr result (λ error. error ≡ OutOfMemory) }
    {
        Ok(self.clone()?)
    }
}

impl<'a> TryClone for Text<'a> {
    fn try_clone(&self, alloc: Global) -> Result<Text<'a>, RecordError> {
        self.try_clone(alloc)
    }
}

impl OwnedText {
    /// Returns a copy of the text.
    ///
    /// # Errors
    /// `OutOfMemory`: an allocation failed.
    pub fn try_clone(&self, alloc: Global) -> Result<OwnedText, RecordError>
        ensures ok { IfOk result (λ copy. copy ≡ self.now) }
        ensures err { IfErr result (λ error. error ≡ OutOfMemory) }
    {
        Ok(OwnedText::from(String::from_str(alloc, self.as_str())?))
    }
}

impl TryClone for OwnedText {
    fn try_clone(&self, alloc: Global) -> Result<OwnedText, RecordError> {
        self.try_clone(alloc)
    }
}

impl<T: TryClone> TryClone for Option<T> {
    fn try_clone(&self, alloc: Global) -> Result<Option<T>, RecordError> {
        match self {
            Some(value) => Ok(Some(value.try_clone(alloc)?)),
            None => Ok(None),
        }
    }
}

impl<T: TryClone> Items<T> {
    /// Returns a copy of the list.
    ///
    /// # Errors
    /// `OutOfMemory`: an allocation failed.
    pub fn try_clone(&self, alloc: Global) -> Result<Items<T>, RecordError>
        ensures ok { IfOk result (λ copy. copy ≡ self.now) }
        ensures err { IfErr result (λ error. error ≡ OutOfMemory) }
    {
        let mut copies = Vec::new(alloc);
        for item in self.as_slice() {
            copies.push(item.try_clone(alloc)?)?;
        }
        Ok(Items::from(copies))
    }
}

impl<'a> SectionChangedLine<'a> {
    /// Returns a copy of the line.
    ///
    /// # Errors
    /// `OutOfMemory`: an allocation failed.
    pub fn try_clone(&self, alloc: Global) -> Result<SectionChangedLine<'a>, RecordError>
        ensures ok { IfOk result (λ copy. copy ≡ self.now) }
        ensures err { IfErr result (λ error. error ≡ OutOfMemory) }
    {
        Ok(SectionChangedLine {
            is_checked: self.is_checked,
            change_type: self.change_type,
            line: self.line.try_clone(alloc)?,
        })
    }
}

impl<'a> TryClone for SectionChangedLine<'a> {
    fn try_clone(&self, alloc: Global) -> Result<SectionChangedLine<'a>, RecordError> {
        self.try_clone(alloc)
    }
}

impl<'a> Section<'a> {
    /// Returns a copy of the section.
    ///
    /// # Errors
    /// `OutOfMemory`: an allocation failed.
    pub fn try_clone(&self, alloc: Global) -> Result<Section<'a>, RecordError>
        ensures ok { IfOk result (λ copy. copy ≡ self.now) }
        ensures err { IfErr result (λ error. error ≡ OutOfMemory) }
    {
        match self {
            Section::Unchanged { lines } => Ok(Section::Unchanged {
                lines: lines.try_clone(alloc)?,
            }),
            Section::Changed { lines } => Ok(Section::Changed {
                lines: lines.try_clone(alloc)?,
            }),
            Section::FileMode { is_checked, mode } => Ok(Section::FileMode {
                is_checked: *is_checked,
                mode: *mode,
            }),
            Section::Binary {
                is_checked,
                old_description,
                new_description,
            } => Ok(Section::Binary {
                is_checked: *is_checked,
                old_description: old_description.try_clone(alloc)?,
                new_description: new_description.try_clone(alloc)?,
            }),
        }
    }
}

impl<'a> TryClone for Section<'a> {
    fn try_clone(&self, alloc: Global) -> Result<Section<'a>, RecordError> {
        self.try_clone(alloc)
    }
}

impl<'a> File<'a> {
    /// Returns a copy of the file.
    ///
    /// # Errors
    /// `OutOfMemory`: an allocation failed.
    pub fn try_clone(&self, alloc: Global) -> Result<File<'a>, RecordError>
        ensures ok { IfOk result (λ copy. copy ≡ self.now) }
        ensures err { IfErr result (λ error. error ≡ OutOfMemory) }
    {
        Ok(File {
            old_path: self.old_path.try_clone(alloc)?,
            path: self.path.try_clone(alloc)?,
            file_mode: self.file_mode,
            sections: self.sections.try_clone(alloc)?,
        })
    }
}

impl<'a> TryClone for File<'a> {
    fn try_clone(&self, alloc: Global) -> Result<File<'a>, RecordError> {
        self.try_clone(alloc)
    }
}

impl Commit {
    /// Returns a copy of the commit.
    ///
    /// # Errors
    /// `OutOfMemory`: an allocation failed.
    pub fn try_clone(&self, alloc: Global) -> Result<Commit, RecordError>
        ensures ok { IfOk result (λ copy. copy ≡ self.now) }
        ensures err { IfErr result (λ error. error ≡ OutOfMemory) }
    {
        Ok(Commit {
            message: self.message.try_clone(alloc)?,
        })
    }
}

impl TryClone for Commit {
    fn try_clone(&self, alloc: Global) -> Result<Commit, RecordError> {
        self.try_clone(alloc)
    }
}

impl<'a> RecordState<'a> {
    /// Returns a copy of the state.
    ///
    /// # Errors
    /// `OutOfMemory`: an allocation failed.
    pub fn try_clone(&self, alloc: Global) -> Result<RecordState<'a>, RecordError>
        ensures ok { IfOk result (λ copy. copy ≡ self.now) }
        ensures err { IfErr result (λ error. error ≡ OutOfMemory) }
    {
        Ok(RecordState {
            is_read_only: self.is_read_only,
            commits: self.commits.try_clone(alloc)?,
            files: self.files.try_clone(alloc)?,
        })
    }
}

impl<'a> SelectedContents<'a> {
    /// Returns a copy of the contents.
    ///
    /// # Errors
    /// `OutOfMemory`: an allocation failed.
    pub fn try_clone(&self, alloc: Global) -> Result<SelectedContents<'a>, RecordError>
        ensures ok { IfOk result (λ copy. copy ≡ self.now) }
        ensures err { IfErr result (λ error. error ≡ OutOfMemory) }
    {
        match self {
            SelectedContents::Unchanged => Ok(SelectedContents::Unchanged),
            SelectedContents::Binary {
                old_description,
                new_description,
            } => Ok(SelectedContents::Binary {
                old_description: old_description.try_clone(alloc)?,
                new_description: new_description.try_clone(alloc)?,
            }),
            SelectedContents::Text { contents } => Ok(SelectedContents::Text {
                contents: contents.try_clone(alloc)?,
            }),
        }
    }
}
