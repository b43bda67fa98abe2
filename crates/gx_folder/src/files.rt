//! Files, read and written whole.
use crate::error::FileError;
use crate::name::{LOCK, joined};
use memchr::memrchr;
use std::alloc::Global;
use std::fs::{self, File, OpenOptions, ReadDir};
use std::io::{self, ErrorKind, Read, Seek, SeekFrom, Write};
use std::os::unix::fs::FileExt;
use std::rt::Files;

/// How much of a file is read to see its header.
pub(crate) const START: usize = 32;

/// No file is at a path where nothing is, where a file is in the place of a directory, where a directory is, and where
/// no file can have that name.
fn is_absence(kind: ErrorKind) -> bool {
    matches!(
        kind,
        ErrorKind::NotFound
            | ErrorKind::NotADirectory
            | ErrorKind::IsADirectory
            | ErrorKind::InvalidFilename
    )
}

/// What a call gave, or `None` where it found no file.
fn unless_absent<T: Drop>(outcome: io::Result<T>) -> Result<Option<T>, FileError> {
    match outcome {
        Ok(found) => Ok(Some(found)),
        Err(error) if is_absence(error.kind()) => Ok(None),
        Err(error) => Err(FileError::from(error)),
    }
}

/// The bytes of a file, where there is one.
pub(crate) fn read<R: Files + AllocGlobal>(
    rt: &R,
    path: &str,
) -> Result<Option<Vec<u8>>, FileError> {
    unless_absent(fs::read(rt, path))
}

/// How many bytes of the buffer a file fills from its start, and how long it is, where there is one.
pub(crate) fn read_start<R: Files<File = File>>(
    rt: &R,
    path: &str,
    buffer: &mut [u8; START],
) -> Result<Option<(usize, u64)>, FileError> {
    let Some(mut file) = unless_absent(File::open(rt, path))? else {
        return Ok(None);
    };
    let length = file.metadata()?.len();
    let mut filled = 0;
    for _ in 0..START {
        if filled >= buffer.len() {
            break;
        }
        let count = file.read(&mut buffer[filled..])?;
        if count == 0 {
            break;
        }
        filled += count;
    }
    Ok(Some((filled, length)))
}

/// Whether there is a file.
pub(crate) fn is_file<R: Files>(rt: &R, path: &str) -> Result<bool, FileError> {
    let found = unless_absent(fs::metadata(rt, path))?;
    Ok(found.is_some_and(|found| found.is_file()))
}

fn is_no_directory(kind: ErrorKind) -> bool {
    matches!(
        kind,
        ErrorKind::NotFound | ErrorKind::NotADirectory | ErrorKind::InvalidFilename
    )
}

/// The entries of a directory, where there is one.
pub(crate) fn entries<R: Files + AllocGlobal + Clone + Drop>(
    rt: &R,
    path: &str,
) -> Result<Option<ReadDir<R>>, FileError> {
    match fs::read_dir(rt, path) {
        Ok(entries) => Ok(Some(entries)),
        Err(error) if is_no_directory(error.kind()) => Ok(None),
        Err(error) => Err(FileError::from(error)),
    }
}

/// Makes the directory that a file is to be in.
fn make_parent<R: Files>(rt: &R, path: &str) -> io::Result<()> {
    match path.rsplit_once('/') {
        Some((parent, _)) => fs::create_dir_all(rt, parent),
        None => Ok(()),
    }
}

/// Makes the file, or empties it, and writes its bytes.
pub(crate) fn write<R: Files<File = File>>(rt: &R, path: &str, bytes: &[u8]) -> io::Result<()> {
    File::create(rt, path)?.write_all(bytes)
}

/// Does the same after making the directories that the file is to be in, where one is missing.
pub(crate) fn write_below<R: Files<File = File>>(
    rt: &R,
    path: &str,
    bytes: &[u8],
) -> io::Result<()> {
    match write(rt, path, bytes) {
        Err(error) if error.kind() == ErrorKind::NotFound => {
            make_parent(rt, path)?;
            write(rt, path, bytes)
        }
        outcome => outcome,
    }
}

/// Renames a file, after making the directories that it is to be in, where one is missing, and after removing an empty
/// directory in its place.
pub(crate) fn rename<R: Files>(rt: &R, from: &str, to: &str) -> io::Result<()> {
    match fs::rename(rt, from, to) {
        Err(error) if error.kind() == ErrorKind::NotFound => {
            make_parent(rt, to)?;
            fs::rename(rt, from, to)
        }
        Err(error) if error.kind() == ErrorKind::IsADirectory => {
            fs::remove_dir(rt, to)?;
            fs::rename(rt, from, to)
        }
        outcome => outcome,
    }
}

/// Removes a file, where there is one.
pub(crate) fn remove<R: Files>(rt: &R, path: &str) -> io::Result<()> {
    match fs::remove_file(rt, path) {
        Err(error) if is_absence(error.kind()) => Ok(()),
        outcome => outcome,
    }
}

/// Removes the directories above a path, from the innermost on, as long as they are empty and below the root. A
/// reference can take the place of one.
pub(crate) fn remove_empty_parents<R: Files>(rt: &R, root: &str, path: &str) {
    let mut rest = path;
    for _ in 0..path.len() {
        let Some((parent, _)) = rest.rsplit_once('/') else {
            return;
        };
        if parent.len() <= root.len() || fs::remove_dir(rt, parent).is_err() {
            return;
        }
        rest = parent;
    }
}

/// The path of a file while it is written.
pub(crate) fn lock_path(alloc: Global, path: &str) -> Result<String, FileError> {
    Ok(joined(alloc, path, LOCK)?)
}

/// How much of a text is whole lines.
fn whole_lines(text: &[u8]) -> u64 {
    match memrchr(b'\n', text) {
        Some(at) => (at as u64).saturating_add(1),
        None => 0,
    }
}

/// How much of a file is whole lines. What follows was cut off while it was written.
fn kept_length<R: Files + AllocGlobal>(rt: &R, file: &File, path: &str) -> io::Result<u64> {
    let length = file.metadata()?.len();
    let mut last = [0];
    if length > 0 && file.read_at(&mut last, length - 1)? == 1 && last[0] == b'\n' {
        return Ok(length);
    }
    Ok(whole_lines(&fs::read(rt, path)?))
}

/// Appends a line, which ends with a newline, to a file that is there. After an error the file has its whole lines.
pub(crate) fn append_line<R: Files<File = File> + AllocGlobal>(
    rt: &R,
    path: &str,
    line: &[u8],
) -> io::Result<()> {
    let mut file = OpenOptions::new().read(true).write(true).open(rt, path)?;
    let kept = kept_length(rt, &file, path)?;
    file.set_len(kept)?;
    file.seek(SeekFrom::Start(kept))?;
    match file.write_all(line) {
        Ok(()) => Ok(()),
        Err(error) => {
            file.set_len(kept)?;
            Err(error)
        }
    }
}
