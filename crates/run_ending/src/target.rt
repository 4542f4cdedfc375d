// Where a save goes: beside OUT first, and then over it; or to a device.
ghost use Rattle.std.specs.Prelude.{None};

use crate::device_out::DeviceOut;
use safe_save::{FileFolder, Folder, Original};
use std::fs::File;
use std::io::Result;
use std::rt::Files;

/// The two ways of a save, so that a run has one writer.
#[derive(Drop)]
pub enum Target<'a, R: Files> {
    Beside(FileFolder<'a, R>),
    Device(DeviceOut<'a, R>),
}

impl<'a, R: Files<File = File> + AllocGlobal> Target<'a, R> {
    /// The permissions that the saved file is to get, where it is a new one.
    pub fn mode(&self) -> Option<u32> {
        match self {
            Target::Beside(folder) => folder.mode(),
            Target::Device(_) => None,
        }
    }

    /// Whether the save goes beside OUT first.
    pub fn is_beside(&self) -> bool {
        matches!(self, Target::Beside(_))
    }

    /// Whether the save was refused because FILE had changed.
    pub fn is_stale(&self) -> bool {
        match self {
            Target::Beside(folder) => folder.is_stale(),
            Target::Device(device) => device.is_stale(),
        }
    }

    /// Whether the save was refused because FILE could not be looked at.
    pub fn is_unseen(&self) -> bool {
        match self {
            Target::Beside(folder) => folder.is_unseen(),
            Target::Device(device) => device.is_unseen(),
        }
    }

    /// How many files were taken away that earlier saves to OUT had left.
    pub fn cleared(&self) -> u32 {
        match self {
            Target::Beside(folder) => folder.cleared(),
            Target::Device(_) => 0,
        }
    }

    /// FILE as a later save is to find it.
    pub fn original(&self) -> Option<Original<'a>> {
        match self {
            Target::Beside(folder) => folder.original(),
            Target::Device(device) => device.original(),
        }
    }
}

impl<R: Files<File = File> + AllocGlobal> Folder for Target<'_, R> {
    ghost disk = { λ _. None };

    fn create(&mut self) -> Result<()> {
        match self {
            Target::Beside(folder) => folder.create(),
            Target::Device(device) => device.create(),
        }
    }

    fn write(&mut self, bytes: &[u8]) -> Result<usize> {
        match self {
            Target::Beside(folder) => folder.write(bytes),
            Target::Device(device) => device.write(bytes),
        }
    }

    fn set_mode(&mut self, mode: u32) -> Result<()> {
        match self {
            Target::Beside(folder) => folder.set_mode(mode),
            Target::Device(_) => Ok(()),
        }
    }

    fn sync(&mut self) -> Result<()> {
        match self {
            Target::Beside(folder) => folder.sync(),
            Target::Device(device) => {
                device.close();
                Ok(())
            }
        }
    }

    fn rename(&mut self) -> Result<()> {
        match self {
            Target::Beside(folder) => folder.rename(),
            Target::Device(_) => Ok(()),
        }
    }

    fn remove(&mut self) -> Result<()> {
        match self {
            Target::Beside(folder) => folder.remove(),
            Target::Device(_) => Ok(()),
        }
    }

    fn sync_folder(&mut self) -> Result<()> {
        match self {
            Target::Beside(folder) => folder.sync_folder(),
            Target::Device(_) => Ok(()),
        }
    }
}
