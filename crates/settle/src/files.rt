// Files read up to a greatest size, and written whole or not at all.
use crate::failure::Complaint;
use std::alloc::{AllocError, Global};
use std::fs::{self, File, OpenOptions, Permissions};
use std::io::{self, Read, Write};
use std::path::PathBuf;

// The greatest size of a file that is read, in bytes; also of one that never ends.
const MAX_FILE_BYTES: u64 = 64 * 1024 * 1024;

// The bytes of a file at a path, which complaints call by a name.
pub(crate) fn read_bytes<'a>(
    rt: &HostRuntime,
    path: &str,
    name: &'a str,
) -> Result<Vec<u8>, Complaint<'a>> {
    let file = fs::open(rt, path).map_err(|_| Complaint::CannotRead(name))?;
    let mut bytes = Vec::new(rt.alloc());
    file.take(MAX_FILE_BYTES + 1)
        .read_to_end(&mut bytes)
        .map_err(|_| Complaint::CannotRead(name))?;
    if bytes.len() as u64 > MAX_FILE_BYTES {
        return Err(Complaint::TooLarge(name));
    }
    Ok(bytes)
}

// A file as text; one that is not UTF-8 cannot be read.
pub(crate) fn read_text<'a>(rt: &HostRuntime, file: &'a str) -> Result<String, Complaint<'a>> {
    let bytes = read_bytes(rt, file, file)?;
    String::from_utf8(bytes).map_err(|_| Complaint::CannotRead(file))
}

// Whether the last part of a name, of at most 255 bytes, leaves no room for `.new` after it.
fn leaves_no_room(last: &str) -> bool {
    matches!(last.len(), 252..=255)
}

// Under which name a file is written before it takes its own, in the same folder.
fn new_name(heap: Global, name: &str) -> Result<String, AllocError> {
    match name.rsplit_once('/') {
        Some((folder, last)) if leaves_no_room(last) => format!(in heap; "{folder}/settle.new"),
        None if leaves_no_room(name) => String::from_str(heap, "settle.new"),
        _ => format!(in heap; "{name}.new"),
    }
}

// Writes a new file, with the permissions of the one whose place it is to take.
fn write_new(
    rt: &HostRuntime,
    new: &str,
    permissions: Option<Permissions>,
    bytes: &[u8],
) -> io::Result<()> {
    let mut file = File::create_new(rt, new)?;
    if let Some(permissions) = permissions {
        if file.metadata()?.permissions() != permissions {
            file.set_permissions(permissions)?;
        }
    }
    file.write_all(bytes)
}

// Writes a file under a new name first, in the place of what may be there; then it takes its own. A file
// that is there and may not be written keeps its place.
fn replace(
    rt: &HostRuntime,
    name: &str,
    new: &str,
    permissions: Option<Permissions>,
    bytes: &[u8],
) -> io::Result<()> {
    if permissions.is_some() {
        OpenOptions::new().write(true).open(rt, name)?;
    }
    let _ = fs::remove_file(rt, new);
    let written = write_new(rt, new, permissions, bytes).and_then(|()| fs::rename(rt, new, name));
    if written.is_err() {
        let _ = fs::remove_file(rt, new);
    }
    written
}

// The name of the file that takes the bytes: what a link leads to, if that is there.
fn end_of_links(rt: &HostRuntime, file: &str) -> Result<Option<PathBuf>, AllocError> {
    if fs::symlink_metadata(rt, file).is_ok_and(|own| own.is_symlink()) {
        return Ok(fs::canonicalize(rt, file).ok());
    }
    Ok(Some(PathBuf::from_str(rt.alloc(), file)?))
}

// Writes a file whole under its name, or not at all; of a link, what it leads to. What is there and is no
// plain file, as a device, is written as it stands, and so is a link that leads nowhere.
pub(crate) fn write_whole<'a>(
    rt: &HostRuntime,
    file: &'a str,
    bytes: &[u8],
) -> Result<(), Complaint<'a>> {
    let there = fs::metadata(rt, file).ok();
    let is_plain = !file.is_empty() && there.as_ref().is_none_or(|there| there.is_file());
    let permissions = there.map(|there| there.permissions());
    let written = match end_of_links(rt, file)? {
        Some(name) if is_plain => {
            let new = new_name(rt.alloc(), name.as_str())?;
            replace(rt, name.as_str(), new.as_str(), permissions, bytes)
        }
        _ => fs::write(rt, file, bytes),
    };
    written.map_err(|_| Complaint::CannotWrite(file))
}
