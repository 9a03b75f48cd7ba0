//! The files that a caller of C passes, as a file database.

ghost use Rattle.std.specs.Prelude.{◌≡◌, [], ◌∷◌, ◌++◌, OnOk, IfOk, IfErr, refl};
ghost use Rattle.std.specs.Prelude.{slice_get, Some, None, length};
ghost use Rattle.codespan_base.specs.declared.files.Error.TheVariants.{FileMissing};

use crate::error::OutOfMemory;
use crate::native_file::NativeFile;
use codespan_base::files::{Error, Files, Location};
use std::alloc::Global;
use std::ops::Range;

/// The files that are passed to the call. Ids are their indices, from 0.
#[derive(Drop)]
pub struct NativeFiles<'a> {
    /// The files, each at the index that is its id.
    files: Vec<NativeFile<'a>>,
}

impl<'a> NativeFiles<'a> {
    ghost use Rattle.codespan_native.specs.SourceModel.{native_file_view, native_file_views};

    /// Returns a database without files.
    pub fn new(alloc: Global) -> NativeFiles<'a>
        ensures { native_file_views result ≡ [] }
    {
        NativeFiles {
            files: Vec::new(alloc),
        }
    }

    /// Returns the number of files.
    pub fn len(&self) -> usize
        ensures { result ≡ length (native_file_views self.now) }
    {
        self.files.len()
    }

    /// Adds a file at the end.
    ///
    /// # Errors
    ///
    /// [`OutOfMemory`] where an allocation fails.
    pub fn add(&mut self, file: NativeFile<'a>) -> Result<(), OutOfMemory>
        ensures { OnOk result
            (native_file_views self.new
            ≡ native_file_views self.old ++ native_file_view file.entry ∷ []) }
    {
        self.files.push(file)?;
        Ok(())
    }

    /// Returns the file of an id.
    ///
    /// # Errors
    ///
    /// [`Error::FileMissing`] exactly where the id is not below the number of files.
    fn get(&self, id: usize) -> Result<&NativeFile<'a>, Error>
        ensures found { IfOk result (λ file.
            slice_get (native_file_views self.now) id ≡ Some (native_file_view file.now)) }
        ensures missing { IfErr result (λ e.
            (slice_get (native_file_views self.now) id ≡ None) × (e ≡ FileMissing)) }
    {
        match self.files.get(id) {
            Some(file) => Ok(file),
            None => Err(Error::FileMissing),
        }
    }
}

impl<'files, 'a: 'files> Files<'files> for NativeFiles<'a> {
    ghost use Rattle.codespan_base.specs.Lemmas.Missing.{same_at};
    ghost use Rattle.codespan_native.specs.Lemmas.NativeFiles.{database_is_lawful};
    ghost use Rattle.codespan_native.specs.Lemmas.NativeFiles.{database_fails_past_last_line};
    ghost use Rattle.codespan_native.specs.SourceModel.{native_file_views};
    ghost use Rattle.codespan_native.specs.SourceTexts.{native_database};

    /// The index of a file, from 0.
    type FileId = usize;

    /// The borrowed name.
    type Name = &'a str;

    /// The borrowed source.
    type Source = &'a str;

    ghost database = { λ s. native_database (native_file_views s) };

    ghost lawful = { λ s id. database_is_lawful s id };

    ghost same_file = { λ s i j e.
        let files = native_database (native_file_views s) in
        same_at files.file files.failure i j e };

    ghost same_is_eq = { λ s. refl };

    ghost past_last_line = { λ s id i. database_fails_past_last_line (native_file_views s) id i };

    fn name(&'files self, id: usize) -> Result<&'a str, Error> {
        Ok(self.get(id)?.name())
    }

    fn source(&'files self, id: usize) -> Result<&'a str, Error> {
        Ok(self.get(id)?.source())
    }

    fn line_index(&'files self, id: usize, byte_index: usize) -> Result<usize, Error> {
        Ok(self.get(id)?.line_index(byte_index))
    }

    fn line_number(&'files self, id: usize, line_index: usize) -> Result<usize, Error> {
        Ok(self.get(id)?.line_number(line_index))
    }

    fn column_number(
        &'files self,
        id: usize,
        line_index: usize,
        byte_index: usize,
    ) -> Result<usize, Error> {
        self.get(id)?.column_number(line_index, byte_index)
    }

    fn location(&'files self, id: usize, byte_index: usize) -> Result<Location, Error> {
        self.get(id)?.location(byte_index)
    }

    fn line_range(&'files self, id: usize, line_index: usize) -> Result<Range<usize>, Error> {
        self.get(id)?.line_range(line_index)
    }
}
