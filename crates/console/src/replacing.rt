//! Files of the system that get all their bytes at once, or stay as they were.
//!
//! A file that is there stays the file that it is: with its owner, group, permissions, access
//! lists, attributes and other names. The library has no call that reads access lists and
//! attributes, so they could not be given to a new file in its place. So the old file gets the
//! bytes; and while it is written, a new file that has them whole stands in its place:
//!
//! 1. The new file is written, under the name `OUT.dabplan-new`.
//! 2. The old file gets a second name, `OUT.dabplan-old`, and the new one is renamed to OUT.
//! 3. The old file is written, and renamed to OUT again.
//!
//! So whoever reads OUT, or ends the program at any moment, has the old bytes or the new ones.
//! Where one of the first two steps fails, the old file is written in its place.

use crate::places::{Place, beside, is_one, opened, parts_of, place_of};
use crate::waiting::Waiting;
use std::fs::{self, Metadata, OpenFile, OpenOptions};
use std::io::{self, Error, ErrorKind, Print, Seek, SeekFrom, Write};
use std::os::unix::fs::{MetadataExt, OpenOptionsExt, chown};
use std::rt::{Clock, Files};

/// The longest name of a file, in bytes.
const LONGEST: usize = 255;

/// What is added to the name of a file for a new one beside it.
const NEW: &str = ".dabplan-new";

/// What is added to the name of a file for its second name.
const OLD: &str = ".dabplan-old";

/// Gives the file of this path these bytes. If that fails a regular file is as it was, and none is
/// there if there was none. What is no regular file, as a pipe or a device, takes the bytes as they
/// are written; a name of a descriptor, as `/dev/stdout`, where the descriptor is.
pub(crate) fn replaced<R>(rt: &R, path: &str, bytes: &[u8]) -> io::Result<()>
where
    R: Files + Clock + Print + AllocGlobal,
{
    match place_of(rt, path)? {
        Place::Output => Waiting::new(rt, io::writer(rt)).write_all(bytes),
        Place::Descriptor(number) => opened(rt, number)?.write_all(bytes),
        Place::File(at, before) => rewritten(rt, at.as_str(), &before, bytes),
        Place::Nothing(at) => made(rt, at.as_str(), bytes),
        Place::Other => fs::write(rt, path, bytes),
    }
}

/// Makes a file of these bytes: it is renamed when it is whole, if it can be made beside its place.
fn made<R: Files + AllocGlobal>(rt: &R, path: &str, bytes: &[u8]) -> io::Result<()> {
    let new = name_beside(rt, path, NEW)?;
    if made_beside(rt, path, new.as_str(), bytes).is_ok() {
        return Ok(());
    }
    let mut file = OpenOptions::new()
        .write(true)
        .create_new(true)
        .open(rt, path)?;
    let written = file.write_all(bytes);
    if written.is_err() {
        let _ = fs::remove_file(rt, path);
    }
    written
}

/// Makes a file of these bytes under a name beside its place, and renames it. Nothing is left of it
/// if that fails.
fn made_beside<R: Files>(rt: &R, path: &str, new: &str, bytes: &[u8]) -> io::Result<()> {
    let made = match written_as(rt, new, 0o666, bytes) {
        Ok(_) => fs::rename(rt, new, path),
        Err(error) => Err(error),
    };
    if made.is_err() {
        let _ = fs::remove_file(rt, new);
    }
    made
}

/// Writes a regular file that is there, and stays the file that it is.
fn rewritten<R: Files + AllocGlobal>(
    rt: &R,
    path: &str,
    before: &Metadata,
    bytes: &[u8],
) -> io::Result<()> {
    let new = name_beside(rt, path, NEW)?;
    let old = name_beside(rt, path, OLD)?;
    let (new, old) = (new.as_str(), old.as_str());
    let mut file = OpenOptions::new().write(true).open(rt, path)?;
    if exchanged(rt, path, before, (new, old), bytes).is_err() {
        let _ = fs::remove_file(rt, new);
        let _ = fs::remove_file(rt, old);
        lengthened(&mut file, before.len(), bytes)?;
        return overwritten(&mut file, bytes);
    }
    let has_room = lengthened(&mut file, before.len(), bytes);
    if has_room.is_err() || overwritten(&mut file, bytes).is_ok() {
        fs::rename(rt, old, path)?;
        return has_room;
    }
    // The old file has lost its bytes: the new one stays.
    fs::remove_file(rt, old)
}

/// Puts a new file of these bytes in the place of one that is there, with its owner, group and
/// permissions: makes it under the first of two names, gives the old one the second, and renames
/// the new one.
fn exchanged<R: Files>(
    rt: &R,
    path: &str,
    before: &Metadata,
    (new, old): (&str, &str),
    bytes: &[u8],
) -> io::Result<()> {
    let made = written_as(rt, new, 0o600, bytes)?;
    if made.uid() != before.uid() || made.gid() != before.gid() {
        chown(rt, new, Some(before.uid()), Some(before.gid()))?;
    }
    fs::set_permissions(rt, new, before.permissions())?;
    let _ = fs::remove_file(rt, old);
    fs::hard_link(rt, path, old)?;
    if !is_one(&fs::symlink_metadata(rt, old)?, before) {
        return Err(Error::from(ErrorKind::ResourceBusy));
    }
    fs::rename(rt, new, path)
}

/// Makes a file of these bytes under a name, in the place of one that an earlier run left there,
/// and returns what it is.
fn written_as<R: Files>(rt: &R, name: &str, mode: u32, bytes: &[u8]) -> io::Result<Metadata> {
    let _ = fs::remove_file(rt, name);
    let mut file = OpenOptions::new()
        .write(true)
        .create_new(true)
        .mode(mode)
        .open(rt, name)?;
    file.write_all(bytes)?;
    let made = file.metadata()?;
    if !is_one(&fs::symlink_metadata(rt, name)?, &made) {
        return Err(Error::from(ErrorKind::ResourceBusy));
    }
    Ok(made)
}

/// Writes what of these bytes is behind so many, if there is some, to the end of a file that has so
/// many; the file is as it was if that fails.
fn lengthened<W: Write + Seek + OpenFile>(
    file: &mut W,
    length: u64,
    bytes: &[u8],
) -> io::Result<()> {
    let Ok(from) = usize::try_from(length) else {
        return Ok(());
    };
    let Some(behind) = bytes.get(from..) else {
        return Ok(());
    };
    file.seek(SeekFrom::Start(length))?;
    let written = file.write_all(behind);
    if written.is_err() {
        let _ = file.set_len(length);
    }
    written
}

/// Gives a file that is long enough these bytes.
fn overwritten<W: Write + Seek + OpenFile>(file: &mut W, bytes: &[u8]) -> io::Result<()> {
    file.seek(SeekFrom::Start(0))?;
    file.write_all(bytes)?;
    file.set_len(bytes.len() as u64)
}

/// The name of a file with this ending, in its folder; that of a long name has its beginning.
fn name_beside<R: AllocGlobal>(rt: &R, path: &str, ending: &str) -> io::Result<String> {
    let (_, name) = parts_of(path);
    let most = LONGEST.saturating_sub(ending.len());
    let kept = &name[..name.floor_char_boundary(most)];
    let name = format!(in rt.alloc(); "{kept}{ending}")?;
    beside(rt, path, name.as_str())
}
