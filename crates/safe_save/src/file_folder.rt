// The system's own folder, of which no clause says what it shows: what its calls do is trusted.
ghost use Rattle.std.specs.Prelude.{None};

use crate::beside::{beside_path, clear_left, lock_new};
use crate::bounded_file::BoundedFile;
use crate::folder::Folder;
use crate::limits::size_limit;
use crate::original::{Original, Sight};
use crate::out_path::resolve;
use std::alloc::Global;
use std::fs;
use std::fs::{File, Metadata, OpenOptions, Permissions};
use std::io::{Error, ErrorKind, Result, Write};
use std::os::unix::fs::{MetadataExt, OpenOptionsExt, PermissionsExt, fchown};
use std::rt::Files;

/// The folder of a file of the system.
#[derive(Drop)]
pub struct FileFolder<'a, R: Files> {
    rt: &'a R,
    alloc: Global,
    folder: String,
    name: String,
    // Open from the start, so that after the rename only its sync can fail.
    itself: R::File,
    beside: Option<String>,
    file: Option<BoundedFile<R::File>>,
    old: Option<Metadata>,
    // The new file under OUT, as it was when it was still open.
    saved: Option<Metadata>,
    original: Option<Original<'a>>,
    is_stale: bool,
    is_unseen: bool,
    cleared: u32,
}

impl<'a, R: Files<File = File> + AllocGlobal> FileFolder<'a, R> {
    ghost use Rattle.std.specs.Prelude.{◌≡◌, IfOk, None};

    /// The folder of what OUT leads to, links followed. It is refused where that is no regular
    /// file, and where no file can be made in the folder: one is made, and taken away again.
    /// `original` is not to change until OUT is renamed.
    pub fn open(rt: &'a R, out: &str, original: Option<Original<'a>>) -> Result<FileFolder<'a, R>> {
        let (folder, name, old) = resolve(rt, out)?;
        let itself = fs::open(rt, folder.as_str())?;
        let mut taken = FileFolder {
            rt,
            alloc: rt.alloc(),
            folder,
            name,
            itself,
            beside: None,
            file: None,
            old,
            saved: None,
            original,
            is_stale: false,
            is_unseen: false,
            cleared: 0,
        };
        taken.make()?;
        taken.remove()?;
        Ok(taken)
    }

    /// The permissions that the new file is to get: those of the file that is there, or else of the
    /// original. Bits that lend a user's or a group's rights are left out, as they may get another
    /// owner.
    pub fn mode(&self) -> Option<u32> {
        match (&self.old, &self.original) {
            (Some(old), _) => Some(old.mode() & 0o777),
            (None, Some(original)) => Some(original.mode()),
            (None, None) => None,
        }
    }

    /// Whether the rename was refused because the original had changed.
    pub fn is_stale(&self) -> bool {
        self.is_stale
    }

    /// Whether the rename was refused because the original could not be looked at: why, is the
    /// error of the rename.
    pub fn is_unseen(&self) -> bool {
        self.is_unseen
    }

    /// How many files were taken away that earlier saves to this OUT had left.
    pub fn cleared(&self) -> u32 {
        self.cleared
    }

    /// The original as a later save is to find it: where this one was saved over it, what the saved
    /// file was when it was still open, so that a change of another program since then is seen. A
    /// change that follows at once is seen if it is then `watched`.
    pub fn original(&self) -> Option<Original<'a>> {
        let original = self.original?;
        let (Some(old), Some(saved)) = (&self.old, &self.saved) else {
            return Some(original);
        };
        if !original.is_file(old) {
            return Some(original);
        }
        match fs::metadata(self.rt, original.path()) {
            // Another name of the old file, which the rename over this one has changed.
            Ok(there) if original.is_file(&there) => Some(original.again(&there)),
            _ => Some(original.again(saved)),
        }
    }

    // Refuses the rename where the original is not as it was.
    fn look_at_original(&mut self) -> Result<()> {
        let Some(original) = &self.original else {
            return Ok(());
        };
        match original.look(self.rt) {
            Sight::Same => Ok(()),
            Sight::Changed => {
                self.is_stale = true;
                Err(Error::new(ErrorKind::Other, "the original was changed"))
            }
            Sight::Unseen(error) => {
                self.is_unseen = true;
                Err(error)
            }
        }
    }

    // Makes the new file, under the first name that is free.
    fn make(&mut self) -> Result<()> {
        for number in 0..u32::MAX {
            let (folder, name) = (self.folder.as_str(), self.name.as_str());
            let path = beside_path(self.alloc, folder, name, number)?;
            if let Some(file) = self.create_at(path.as_str())? {
                self.file = Some(BoundedFile::new(file, size_limit(self.rt)));
                self.beside = Some(path);
                return Ok(());
            }
        }
        Err(Error::from(ErrorKind::AlreadyExists))
    }

    // Makes a file under this name, locked for as long as it is open. `None` where the name is
    // taken, or was taken away before the lock.
    fn create_at(&self, path: &str) -> Result<Option<File>> {
        // What OUT kept from others, the new file keeps too, from its first moment.
        let mode = if self.mode().is_some() { 0o600 } else { 0o666 };
        let mut how = OpenOptions::new();
        how.write(true).create_new(true).mode(mode);
        let file = match how.open(self.rt, path) {
            Ok(file) => file,
            Err(error) if error.kind() == ErrorKind::AlreadyExists => return Ok(None),
            Err(error) => return Err(error),
        };
        match lock_new(self.rt, path, &file) {
            Ok(true) => Ok(Some(file)),
            Ok(false) => Ok(None),
            Err(error) => {
                let _ = fs::remove_file(self.rt, path);
                Err(error)
            }
        }
    }

    // Gives the new file the owner and the group of the file that is there, or the group alone, or
    // neither where the system does not allow it.
    fn give_owner(&self, file: &R::File) -> Result<()> {
        if let Some(old) = &self.old {
            let new = file.metadata()?;
            if (new.uid(), new.gid()) != (old.uid(), old.gid())
                && fchown(file, Some(old.uid()), Some(old.gid())).is_err()
            {
                let _ = fchown(file, None, Some(old.gid()));
            }
        }
        Ok(())
    }
}

// No file of the save is open.
fn no_file() -> Error {
    Error::new(ErrorKind::InvalidInput, "no new file")
}

impl<R: Files<File = File> + AllocGlobal> Folder for FileFolder<'_, R> {
    ghost disk = { λ _. None };

    // Now that a save is made, the files that earlier ones to this OUT left, whose process has
    // ended, are taken away before it.
    fn create(&mut self) -> Result<()> {
        let (folder, name) = (self.folder.as_str(), self.name.as_str());
        self.cleared = clear_left(self.rt, self.alloc, folder, name)?;
        self.make()
    }

    fn write(&mut self, bytes: &[u8]) -> Result<usize> {
        match &mut self.file {
            Some(file) => file.write(bytes),
            None => Err(no_file()),
        }
    }

    fn set_mode(&mut self, mode: u32) -> Result<()> {
        let Some(file) = &self.file else {
            return Err(no_file());
        };
        self.give_owner(file.inner())?;
        file.inner().set_permissions(Permissions::from_mode(mode))
    }

    fn sync(&mut self) -> Result<()> {
        match &self.file {
            // It stays open, and locked, until it has lost its name. What a close could tell of its
            // bytes, the sync has told.
            Some(file) => file.inner().sync_all(),
            None => Err(no_file()),
        }
    }

    fn rename(&mut self) -> Result<()> {
        self.look_at_original()?;
        let (folder, name) = (self.folder.as_str(), self.name.as_str());
        let out = format!(in self.alloc; "{folder}/{name}")?;
        match &self.beside {
            Some(beside) => fs::rename(self.rt, beside.as_str(), out.as_str())?,
            None => return Err(no_file()),
        }
        // The name is gone. If it comes again, it is another's.
        self.beside = None;
        if let Some(file) = self.file.take() {
            self.saved = file.inner().metadata().ok();
        }
        Ok(())
    }

    fn remove(&mut self) -> Result<()> {
        if let Some(beside) = &self.beside {
            fs::remove_file(self.rt, beside.as_str())?;
        }
        self.beside = None;
        // It was locked until its name was gone.
        self.file = None;
        Ok(())
    }

    fn sync_folder(&mut self) -> Result<()> {
        self.itself.sync_all()
    }
}
