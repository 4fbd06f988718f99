//! The detail lines of files that can't be opened, made or read.

use crate::faults::context::JobNames;
use crate::faults::details::shown::Shown;
use crate::faults::full_names::FullNames;
use sms_files::Source;
use std::alloc::AllocError;
use std::fmt::Write as _;
use std::io::ErrorKind;

/// Why a file can't be opened, to be read or also to be written on, by the system's error.
pub(crate) fn opening_text(is_written: bool, kind: ErrorKind) -> &'static str {
    match kind {
        ErrorKind::NotFound => "there is no such file",
        ErrorKind::PermissionDenied if is_written => "this user may not read and write it",
        ErrorKind::PermissionDenied => "this user may not read it",
        ErrorKind::IsADirectory => "it is no file, but a folder",
        ErrorKind::NotADirectory => "a part of its path is no folder",
        _ => "it can't be opened",
    }
}

/// Why a file that was opened can't be read, by the system's error.
pub(crate) fn reading_text(kind: ErrorKind) -> &'static str {
    match kind {
        ErrorKind::IsADirectory => "it is no file, but a folder",
        _ => "it can't be read to its end",
    }
}

/// Why the file of a journal or of an inbox can't be made, by the system's error.
pub(crate) fn making_text(kind: ErrorKind) -> &'static str {
    match kind {
        ErrorKind::NotFound => "its folder doesn't exist",
        ErrorKind::NotADirectory => "what should be its folder is a file",
        ErrorKind::PermissionDenied => "this user isn't permitted to make it",
        ErrorKind::AlreadyExists => "it exists already, and a journal is always a new file",
        // (no error of the system's: it was looked into)
        ErrorKind::InvalidData => "it isn't empty, and an inbox is a new file or an empty one",
        ErrorKind::InvalidFilename => "the system takes no such name",
        ErrorKind::ReadOnlyFilesystem => "its file system is read-only",
        ErrorKind::StorageFull => "no space left on the device",
        ErrorKind::QuotaExceeded => "this user's disk quota is used up",
        ErrorKind::ResourceBusy => "another process has locked it",
        _ => "the system could not make it",
    }
}

/// Writes what is wrong with the file of a name that the fault's line has. A name that isn't a full one is given in full.
pub(crate) fn write_named_file<R: AllocGlobal + FullNames>(
    rt: &R,
    text: &mut String,
    name: &str,
    why: &str,
) -> Result<(), AllocError> {
    text.push_str(why)?;
    if name.is_empty() || name.as_bytes().starts_with(b"/") {
        return Ok(());
    }
    let folder = rt.full_name(rt.alloc(), ".")?;
    let (folder, name) = (Shown(folder.as_str()), Shown(name));
    write!(text, ": {folder}/{name}")
}

/// Writes that the file of a source can't be read, with its name.
pub(crate) fn write_unread_source(
    text: &mut String,
    names: &JobNames,
    source: Source,
) -> Result<(), AllocError> {
    match names.of_source(source) {
        Some(name) => {
            let name = Shown(name);
            write!(text, "{name}: it can't be read to its end: is it a folder?")
        }
        None => text.push_str("standard input can't be read to its end"),
    }
}

/// Writes which file isn't the one that a journal is of.
pub(crate) fn write_other_file(text: &mut String, name: &str) -> Result<(), AllocError> {
    let name = Shown(name);
    write!(text, "{name} is not the file that this run was begun with")
}
