//! Where a file of the system is, so that a new file can take its place.
//!
//! The new file is made beside it, under its name with `.new`, and renamed once it is whole and on the disk. A rename
//! takes one name to another file at once: a crash leaves the old file or the new one.
use std::fs::{File, OpenOptions};
use std::io::ErrorKind;
use std::os::unix::fs::{MetadataExt, OpenOptionsExt};
use std::path::PathBuf;
use std::{fs, io};

#[derive(Drop)]
pub struct Place {
    runtime: HostRuntime,
    /// The name of the file, from the root and without links.
    name: PathBuf,
    /// The name that a new file has until it takes the place.
    beside: String,
    folder: File,
    /// Who may read and write the file. The same is asked for a new one.
    mode: u32,
}

impl Place {
    /// The place of an open file. `None`: the name has come to another file since it was opened.
    pub fn of(rt: &HostRuntime, path: &str, file: &File) -> io::Result<Option<Place>> {
        let name = fs::canonicalize(rt, path)?;
        let held = file.metadata()?;
        let named = fs::metadata(rt, &name)?;
        if held.dev() != named.dev() || held.ino() != named.ino() {
            return Ok(None);
        }
        let Some(parent) = name.parent() else {
            return Err(io::Error::from(ErrorKind::IsADirectory));
        };
        let folder = File::open(rt, parent)?;
        let mut beside = String::from_str(rt.alloc(), name.as_str())?;
        beside.push_str(".new")?;
        Ok(Some(Place {
            runtime: *rt,
            name,
            beside,
            folder,
            mode: held.mode() & 0o777,
        }))
    }

    /// The name of the file is on the disk when it returns.
    pub fn sync_folder(&self) -> io::Result<()> {
        self.folder.sync_all()
    }

    /// Makes a new file beside it, empty and locked, in place of one that an earlier call left there.
    pub fn make_beside(&self) -> io::Result<File> {
        match fs::remove_file(&self.runtime, &self.beside) {
            Err(error) if error.kind() != ErrorKind::NotFound => return Err(error),
            _ => {}
        }
        let file = OpenOptions::new()
            .read(true)
            .write(true)
            .create_new(true)
            .mode(self.mode)
            .open(&self.runtime, &self.beside)?;
        file.try_lock()?;
        Ok(file)
    }

    /// Removes the file beside it, if there is one.
    pub fn drop_beside(&self) {
        let _ = fs::remove_file(&self.runtime, &self.beside);
    }

    /// Gives the new file the name. That is on the disk when it returns.
    pub fn rename_over(&self) -> io::Result<()> {
        fs::rename(&self.runtime, &self.beside, &self.name)?;
        self.folder.sync_all()
    }
}
