//! Where files are read and written.

ghost use Rattle.std.specs.Prelude.{◌≤◌, ◌<◌, length, IfOk, IfErr, OnOk};
ghost use Rattle.planus_cli.specs.Disks.{Disk};
ghost use Rattle.planus_cli.specs.Files.{PutsFile};
ghost use Rattle.planus_cli.specs.SchemaTexts.{greatest_text};

use crate::check::File;
use crate::file_error::FileError;
use crate::said::{CLEAN, fail};
use crate::streams::{CallError, read_all};
use std::alloc::Global;
use std::io::{Input, Write};
use std::{fs, io};

/// Where files are read and written.
pub trait Files {
    // what the files hold, and what is written to them
    ghost disk: { Self → Disk };

    /// Returns the bytes of a file, of one that is longer than [`GREATEST_TEXT`] at least one more.
    ///
    /// [`GREATEST_TEXT`]: crate::streams::GREATEST_TEXT
    fn read(&self, alloc: Global, name: &str) -> Result<Vec<u8>, FileError>
        ensures bytes { IfOk result (λ bytes. length bytes.items ≤ greatest_text
            → (Self.disk self.now).Holds name.now bytes.items) }
        ensures long { IfOk result (λ bytes. greatest_text < length bytes.items
            → (Self.disk self.now).Long name.now) }
        ensures error { IfErr result (λ error. (Self.disk self.now).Fails name.now error) };

    /// Returns whether there is a file of this name.
    fn is_there(&self, name: &str) -> bool
        ensures { (Self.disk self.now).There name.now result };

    /// Writes all bytes of a file, in a folder that is made if it isn't there. A file that is there
    /// is replaced only once they are written beside it.
    fn write(&self, alloc: Global, name: &str, bytes: &[u8]) -> Result<(), FileError>
        ensures written { OnOk result ((Self.disk self.now).Wrote name.now bytes.now) }
        ensures error { IfErr result (λ error. (Self.disk self.now).Refuses name.now error) };
}

/// Writes a file, or says why not. Returns the exit status.
pub(crate) fn put_file<F: Files, X: Write>(
    files: &F,
    alloc: Global,
    name: &str,
    bytes: &[u8],
    errors: &mut X,
) -> Result<u8, CallError>
    ensures { IfOk result (λ status. PutsFile (F.disk files.now) name.now bytes.now status
        (X.contents errors.old) (X.contents errors.new)) }
{
    match files.write(alloc, name, bytes) {
        Ok(()) => Ok(CLEAN),
        Err(error) => fail(alloc, errors, "can't write ", name, error.after_name()),
    }
}

/// The files of the system, and standard input under the name `-`. No clause says what they hold.
#[derive(Clone, Copy)]
pub struct HostFiles<'a> {
    pub rt: &'a HostRuntime,
}

fn make_folder(rt: &HostRuntime, name: &str) -> Result<(), io::Error> {
    match name.rsplit_once('/') {
        Some((folder, _)) if folder != "" => fs::create_dir_all(rt, folder),
        _ => Ok(()),
    }
}

fn replace(rt: &HostRuntime, name: &str, beside: &str, bytes: &[u8]) -> Result<(), io::Error> {
    make_folder(rt, name)?;
    fs::write(rt, beside, bytes)?;
    let renamed = fs::rename(rt, beside, name);
    if renamed.is_err() {
        let _removed = fs::remove_file(rt, beside);
    }
    renamed
}

impl Files for HostFiles<'_> {
    ghost use Rattle.planus_cli.specs.Disks.{unknown_disk};

    ghost disk = { λ _. unknown_disk };

    fn read(&self, alloc: Global, name: &str) -> Result<Vec<u8>, FileError> {
        if name == "-" {
            return read_all(alloc, &mut self.rt.reader());
        }
        match fs::open(self.rt, name) {
            Ok(mut file) => read_all(alloc, &mut file),
            Err(error) => Err(FileError::of(error.kind())),
        }
    }

    fn is_there(&self, name: &str) -> bool {
        fs::open(self.rt, name).is_ok()
    }

    fn write(&self, alloc: Global, name: &str, bytes: &[u8]) -> Result<(), FileError> {
        let Ok(beside) = format!(in alloc; "{name}.planus") else {
            return Err(FileError::OutOfMemory);
        };
        match replace(self.rt, name, beside.as_str(), bytes) {
            Ok(()) => Ok(()),
            Err(error) => Err(FileError::of(error.kind())),
        }
    }
}

/// Files that are given with their names. Of equal names the first counts. None is written.
#[derive(Clone, Copy)]
pub struct GivenFiles<'a> {
    pub files: &'a [File],
}

impl Files for GivenFiles<'_> {
    ghost use Rattle.planus_cli.specs.Disks.{given_disk};

    ghost disk = { λ given. given_disk given.files.now };

    fn read(&self, alloc: Global, name: &str) -> Result<Vec<u8>, FileError> {
        'files: for file in self.files {
            if file.name.as_str() == name {
                return match Vec::from_slice(alloc, &file.text) {
                    Ok(text) => Ok(text),
                    Err(_) => Err(FileError::OutOfMemory),
                };
            }
        }
        Err(FileError::Missing)
    }

    fn is_there(&self, name: &str) -> bool {
        self.files.iter().any(|file| file.name.as_str() == name)
    }

    fn write(&self, _alloc: Global, _name: &str, _bytes: &[u8]) -> Result<(), FileError> {
        Err(FileError::Forbidden)
    }
}
