//! New files beside the one that they are to replace. The name of each is the other's with `.pips-0` to `.pips-63`
//! behind it. A run holds a lock on its own, so one without a lock was left by a run that was ended.
use std::alloc::AllocError as Memory;
use std::fs::{File, Metadata, OpenOptions, TryLockError};
use std::io::{Error, ErrorKind, Write};
use std::os::unix::fs::{MetadataExt, OpenOptionsExt, fchown};
use std::path::Path;
use std::rt::Files;
use std::{fs, io};

/// How many names there are for the new files of one path.
const NAMES: u32 = 64;

/// A new file, whose name no other run takes or removes while this one holds it.
#[derive(Drop)]
pub struct NewFile {
    name: String,
    file: File,
}

/// The name of this number for a new file beside a path.
fn beside<R: AllocGlobal>(rt: &R, path: Path<'_>, number: u32) -> Result<String, Memory> {
    let path = path.as_str();
    format!(in rt.alloc(); "{path}.pips-{number}")
}

/// Whether the name is still that of this open file.
fn is_named<R: Files>(rt: &R, file: &File, name: &str) -> bool {
    match (file.metadata(), fs::symlink_metadata(rt, name)) {
        (Ok(own), Ok(found)) => own.dev() == found.dev() && own.ino() == found.ino(),
        _ => false,
    }
}

/// A file that a run left which was ended, locked by this one. None where there is no file, or its run goes on.
fn left_over<R: Files<File = File>>(rt: &R, name: &str) -> Option<File> {
    let found = fs::symlink_metadata(rt, name).ok()?;
    if !found.is_file() {
        return None;
    }
    let file = OpenOptions::new().write(true).open(rt, name).ok()?;
    if file.try_lock().is_err() || !is_named(rt, &file, name) {
        return None;
    }
    Some(file)
}

/// Removes the new files beside a path that runs left which were ended.
pub fn remove_left_over<R>(rt: &R, path: Path<'_>) -> Result<(), Memory>
where
    R: Files<File = File> + AllocGlobal,
{
    for number in 0..NAMES {
        let name = beside(rt, path, number)?;
        if let Some(_locked) = left_over(rt, name.as_str()) {
            let _ = fs::remove_file(rt, name.as_str());
        }
    }
    Ok(())
}

/// Creates a file of this name and locks it. None where another run has the name.
fn create<R: Files<File = File>>(rt: &R, name: String, mode: u32) -> io::Result<Option<NewFile>> {
    let mut how = OpenOptions::new();
    how.write(true).create_new(true).mode(mode);
    let file = match how.open(rt, name.as_str()) {
        Ok(file) => file,
        Err(error) if error.kind() == ErrorKind::AlreadyExists => return Ok(None),
        Err(error) => return Err(error),
    };
    let is_locked_elsewhere = matches!(file.try_lock(), Err(TryLockError::WouldBlock));
    if is_locked_elsewhere || !is_named(rt, &file, name.as_str()) {
        return Ok(None);
    }
    Ok(Some(NewFile { name, file }))
}

impl NewFile {
    /// Creates an empty file beside a path, under the first name that no other run has. It gets at most the
    /// permissions `mode`.
    pub fn beside<R>(rt: &R, path: Path<'_>, mode: u32) -> io::Result<NewFile>
    where
        R: Files<File = File> + AllocGlobal,
    {
        for number in 0..NAMES {
            let name = beside(rt, path, number)?;
            if let Some(new) = create(rt, name, mode)? {
                return Ok(new);
            }
        }
        Err(Error::from(ErrorKind::AlreadyExists))
    }

    /// Gives it the permissions of another file, and its owner and group where the system lets this run do so.
    fn take_rights(&self, other: &Metadata) -> io::Result<()> {
        let own = self.file.metadata()?;
        if own.gid() != other.gid() {
            let _ = fchown(&self.file, None, Some(other.gid()));
        }
        if own.uid() != other.uid() {
            let _ = fchown(&self.file, Some(other.uid()), None);
        }
        self.file.set_permissions(other.permissions())
    }

    /// Fills it, has the disk write it, and renames it to a path, whose file it replaces.
    pub fn fill_and_rename<R: Files>(
        &mut self,
        rt: &R,
        bytes: &[u8],
        replaced: Option<&Metadata>,
        path: Path<'_>,
    ) -> io::Result<()> {
        if let Some(replaced) = replaced {
            self.take_rights(replaced)?;
        }
        self.file.write_all(bytes)?;
        self.file.sync_all()?;
        fs::rename(rt, self.name.as_str(), path)
    }

    /// Removes it.
    pub fn remove<R: Files>(self, rt: &R) {
        let _ = fs::remove_file(rt, self.name.as_str());
    }
}
