//! A file of the system replaced as a whole: its name has the old bytes or the new ones, whenever one looks.
use crate::comparing::reads_as;
use crate::new_file::{NewFile, remove_left_over};
use std::fs::{File, Metadata, OpenOptions};
use std::io::{Error, ErrorKind};
use std::os::unix::fs::MetadataExt;
use std::path::{Path, PathBuf};
use std::rt::Files;
use std::{fs, io};

/// How many symbolic links may lead from one to the next.
const LINKS: u32 = 40;

/// The path to which a name leads, through symbolic links; there may be no file.
fn followed<R: Files + AllocGlobal>(rt: &R, name: &str) -> io::Result<PathBuf> {
    let mut path = PathBuf::from_str(rt.alloc(), name)?;
    for _ in 0..LINKS {
        match fs::read_link(rt, path.as_path()) {
            Ok(target) => {
                path.pop();
                path.push(target)?;
            }
            Err(error) => {
                return match error.kind() {
                    ErrorKind::InvalidInput | ErrorKind::NotFound => Ok(path),
                    _ => Err(error),
                };
            }
        }
    }
    Err(Error::from(ErrorKind::InvalidInput))
}

/// What the system knows of the file of a path, None where there is none. What is no file cannot be replaced.
fn file_at<R: Files>(rt: &R, path: Path<'_>) -> io::Result<Option<Metadata>> {
    match fs::symlink_metadata(rt, path) {
        Ok(found) if found.is_file() => Ok(Some(found)),
        Ok(_) => Err(Error::from(ErrorKind::InvalidInput)),
        Err(error) if error.kind() == ErrorKind::NotFound => Ok(None),
        Err(error) => Err(error),
    }
}

/// Whether the file of a path has these bytes. One that cannot be read has not.
fn has_bytes<R: Files>(rt: &R, path: Path<'_>, bytes: &[u8]) -> bool {
    match File::open(rt, path) {
        Ok(mut file) => reads_as(&mut file, bytes).unwrap_or(false),
        Err(_) => false,
    }
}

/// Has the disk write the folder of a path, where the system can do so: what the path names is whole either way.
fn sync_folder<R: Files<File = File>>(rt: &R, path: Path<'_>) {
    let folder = match path.parent() {
        Some(folder) if !folder.as_str().is_empty() => folder,
        _ => Path::new("."),
    };
    if let Ok(folder) = File::open(rt, folder) {
        let _ = folder.sync_all();
    }
}

/// Puts a new file with these bytes in place of the file of a path, or of none. On Err the path has what it had.
fn put_new<R>(rt: &R, path: Path<'_>, replaced: Option<&Metadata>, bytes: &[u8]) -> io::Result<()>
where
    R: Files<File = File> + AllocGlobal,
{
    let mode = replaced.map_or(0o666, |file| file.mode() & 0o777);
    let mut new = NewFile::beside(rt, path, mode)?;
    if let Err(error) = new.fill_and_rename(rt, bytes, replaced, path) {
        new.remove(rt);
        return Err(error);
    }
    sync_folder(rt, path);
    Ok(())
}

/// Gives the file of a name these bytes. Whoever looks finds the old bytes or the new ones there, never a part, also
/// where this run is ended, or others replace the file at the same time. A file that has the bytes is not written; one
/// that is replaced keeps its permissions. On Err it is as it was: where it cannot be written, or its folder cannot.
pub fn replace<R>(rt: &R, name: &str, bytes: &[u8]) -> io::Result<()>
where
    R: Files<File = File> + AllocGlobal,
{
    let path = followed(rt, name)?;
    let path = path.as_path();
    remove_left_over(rt, path)?;
    let found = file_at(rt, path)?;
    if found.is_some() {
        if has_bytes(rt, path, bytes) {
            return Ok(());
        }
        OpenOptions::new().write(true).open(rt, path)?;
    }
    put_new(rt, path, found.as_ref(), bytes)
}
