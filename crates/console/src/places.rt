//! What a path leads to, for one who writes there: through links, and through names of descriptors
//! as `/dev/stdout`.

use std::fs::{self, Metadata, OpenOptions};
use std::io::{self, Seek, SeekFrom};
use std::os::unix::fs::MetadataExt;
use std::rt::Files;

/// As many links are followed as the system follows.
const LINKS: usize = 40;

/// The descriptor of standard output.
const OUTPUT: u32 = 1;

/// The flag of a descriptor that appends, in the file of the system that describes it.
const APPENDS: u64 = 0o2000;

/// What a path leads to.
#[derive(Drop)]
pub(crate) enum Place {
    /// The program's standard output, by a name as `/dev/stdout`.
    Output,
    /// What another descriptor of the program has open: its number.
    Descriptor(u32),
    /// A regular file: its path behind links, and what it is.
    File(String, Metadata),
    /// Nothing: the path behind links at which a file can be created.
    Nothing(String),
    /// What is no regular file, as a pipe or a device, or what is not known.
    Other,
}

/// What a path leads to. The only error is out of memory.
pub(crate) fn place_of<R: Files + AllocGlobal>(rt: &R, path: &str) -> io::Result<Place> {
    let mut at = String::from_str(rt.alloc(), path)?;
    for _ in 0..LINKS {
        if let Some(number) = descriptor_of(rt, at.as_str()) {
            return Ok(if number == OUTPUT {
                Place::Output
            } else {
                Place::Descriptor(number)
            });
        }
        match target_of(rt, at.as_str())? {
            Link::To(target) => at = target,
            Link::None => return Ok(place_behind(rt, path, at)),
            Link::Unknown => return Ok(Place::Other),
        }
    }
    Ok(Place::Other)
}

/// The place of a path that leads by links to `at`, which is no link; unknown if the system finds
/// something else by the path, as through a link to what another program has open.
fn place_behind<R: Files>(rt: &R, path: &str, at: String) -> Place {
    match (
        fs::metadata(rt, path),
        fs::symlink_metadata(rt, at.as_str()),
    ) {
        (Ok(found), Ok(named)) if named.is_file() && is_one(&found, &named) => {
            Place::File(at, named)
        }
        (Err(_), Err(_)) => Place::Nothing(at),
        _ => Place::Other,
    }
}

/// Whether these are of one file.
pub(crate) fn is_one(one: &Metadata, other: &Metadata) -> bool {
    one.dev() == other.dev() && one.ino() == other.ino()
}

/// The number of the descriptor of the program that a path names, as `/proc/self/fd/5`.
fn descriptor_of<R: Files + AllocGlobal>(rt: &R, path: &str) -> Option<u32> {
    let (folder, name) = parts_of(path);
    let Ok(number) = name.parse::<u32>() else {
        return None;
    };
    let Ok(folder) = fs::canonicalize(rt, folder) else {
        return None;
    };
    let Ok(own) = fs::canonicalize(rt, "/proc/self/fd") else {
        return None;
    };
    (folder.as_str() == own.as_str()).then_some(number)
}

/// Where a link leads.
#[derive(Drop)]
enum Link {
    /// To this path.
    To(String),
    /// Nowhere: it is no link.
    None,
    /// To a path that is no UTF-8, or not known.
    Unknown,
}

/// Where the link of a path leads. The only error is out of memory.
fn target_of<R: Files + AllocGlobal>(rt: &R, path: &str) -> io::Result<Link> {
    match fs::symlink_metadata(rt, path) {
        Ok(found) if found.is_symlink() => {}
        Ok(_) | Err(_) => return Ok(Link::None),
    }
    let Ok(target) = fs::read_link(rt, path) else {
        return Ok(Link::Unknown);
    };
    let target = target.as_str();
    if target.starts_with('/') {
        return Ok(Link::To(String::from_str(rt.alloc(), target)?));
    }
    Ok(Link::To(beside(rt, path, target)?))
}

/// The path of a name in the folder of a path. Nothing is made absolute, so that no folder above
/// needs a name that is known, or has to be searched.
pub(crate) fn beside<R: AllocGlobal>(rt: &R, path: &str, name: &str) -> io::Result<String> {
    let text = match path.rsplit_once('/') {
        Some((folder, _)) => format!(in rt.alloc(); "{folder}/{name}")?,
        None => String::from_str(rt.alloc(), name)?,
    };
    Ok(text)
}

/// The folder of a path, and the name in it.
pub(crate) fn parts_of(path: &str) -> (&str, &str) {
    match path.rsplit_once('/') {
        Some(("", name)) => ("/", name),
        Some((folder, name)) => (folder, name),
        None => (".", path),
    }
}

/// Opens what a descriptor of the program has open, to write where the descriptor is: at the end if
/// it appends, else at its position.
pub(crate) fn opened<R: Files + AllocGlobal>(rt: &R, number: u32) -> io::Result<R::File> {
    let path = format!(in rt.alloc(); "/proc/self/fd/{number}")?;
    let about = format!(in rt.alloc(); "/proc/self/fdinfo/{number}")?;
    let about = fs::read_to_string(rt, about.as_str())?;
    let flags = u64::from_str_radix(field_of(about.as_str(), "flags:"), 8).unwrap_or(0);
    let is_file = fs::metadata(rt, path.as_str())?.is_file();
    if !is_file || flags & APPENDS != 0 {
        return OpenOptions::new().append(true).open(rt, path.as_str());
    }
    let position = field_of(about.as_str(), "pos:").parse::<u64>().unwrap_or(0);
    let mut file = OpenOptions::new().write(true).open(rt, path.as_str())?;
    file.seek(SeekFrom::Start(position))?;
    Ok(file)
}

/// What is in the line of this name; nothing if there is none.
fn field_of<'t>(text: &'t str, name: &str) -> &'t str {
    for line in text.lines() {
        if let Some(value) = line.strip_prefix(name) {
            return value.trim();
        }
    }
    ""
}
