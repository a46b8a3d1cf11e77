//! Why files aren't read or written.

ghost use Rattle.std.specs.Prelude.{◌≡◌};
ghost use Rattle.planus_cli.specs.Disks as spec;

use std::io::ErrorKind;

/// Why a file isn't read or written.
#[derive(Clone, Copy)]
pub enum FileError {
    /// Memory was refused.
    OutOfMemory,
    /// There is no file of this name.
    Missing,
    /// It is a folder.
    Folder,
    /// What should be its folder is a file.
    NoFolder,
    /// The system forbids it.
    Forbidden,
    /// The system fails for another reason.
    Other,
}

impl FileError {
    /// Returns the reason for an error of the system.
    pub fn of(kind: ErrorKind) -> FileError {
        match kind {
            ErrorKind::OutOfMemory => FileError::OutOfMemory,
            ErrorKind::NotFound => FileError::Missing,
            ErrorKind::NotADirectory => FileError::NoFolder,
            ErrorKind::IsADirectory => FileError::Folder,
            ErrorKind::PermissionDenied | ErrorKind::ReadOnlyFilesystem => FileError::Forbidden,
            _ => FileError::Other,
        }
    }

    /// Returns what is said after the file's name.
    pub fn after_name(self) -> &'static str
        ensures { result.now ≡ spec.after_name self }
    {
        match self {
            FileError::OutOfMemory => ": memory is refused",
            FileError::Missing => ": there is no such file",
            FileError::Folder => ": it is a folder",
            FileError::NoFolder => ": its folder is a file",
            FileError::Forbidden => ": permission is denied",
            FileError::Other => ": the system fails",
        }
    }
}
