//! Why a file can't be read or written, in the words of the system.

use std::io::{Error, ErrorKind};

/// The numbers of the system (errno) for errors of no kind of their own.
const EPERM: i32 = 1;

const EIO: i32 = 5;

const ENXIO: i32 = 6;

/// The words of the system for an error of a file; `None` for another one.
pub(crate) fn reason_of(error: &Error) -> Option<&'static str> {
    match error.raw_os_error() {
        Some(EPERM) => Some("Operation not permitted"),
        Some(EIO) => Some("Input/output error"),
        Some(ENXIO) => Some("No such device or address"),
        _ => reason_of_kind(error.kind()),
    }
}

/// The words of the system for the errors of a kind.
fn reason_of_kind(kind: ErrorKind) -> Option<&'static str> {
    match kind {
        ErrorKind::NotFound => Some("No such file or directory"),
        ErrorKind::PermissionDenied => Some("Permission denied"),
        ErrorKind::NotADirectory => Some("Not a directory"),
        ErrorKind::IsADirectory => Some("Is a directory"),
        ErrorKind::ReadOnlyFilesystem => Some("Read-only file system"),
        ErrorKind::StorageFull => Some("No space left on device"),
        ErrorKind::QuotaExceeded => Some("Disk quota exceeded"),
        ErrorKind::FileTooLarge => Some("File too large"),
        ErrorKind::InvalidFilename => Some("File name too long"),
        ErrorKind::FilesystemLoop => Some("Too many levels of symbolic links"),
        ErrorKind::ResourceBusy => Some("Device or resource busy"),
        ErrorKind::ExecutableFileBusy => Some("Text file busy"),
        ErrorKind::BrokenPipe => Some("Broken pipe"),
        _ => None,
    }
}
