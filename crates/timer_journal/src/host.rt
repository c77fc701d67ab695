//! A file of the system as a device. Each method makes one call of the system, and notes it with its answer. A
//! replacement makes some, over a new file, and notes what came of them.
//!
//! What is supposed of the system, of the disk and of these lines is in docs/proof/proofs.md, since no proof shows it.
ghost use Rattle.std.specs.Prelude.{◌≡◌, IfOk, IfSome, OnOk, length, true, List, [], ◌∷◌};
ghost use Rattle.std.proofs.Props.{props};
ghost use Rattle.timer_journal.specs.Device.{Only};
ghost use Rattle.std.specs.declared.fs.locks.TryLockError.TheVariants.{WouldBlock, Error};
ghost use Rattle.timer_journal.specs.declared.host.OpenFault.TheVariants.{InUse, Io};
ghost use Rattle.timer_journal.specs.Host.{Step, Found, held_after, left_after, left_since as left_from, failures, are_usable, now_is_one, now_is_last};

use crate::device::Device;
use crate::fault::DeviceFault;
use crate::place::Place;
use crate::record::Record;
use std::alloc::Global;
use std::fs::{File, OpenOptions, TryLockError};
use std::io;
use std::io::{ErrorKind, Read};
use std::os::unix::fs::FileExt;
use thiserror::Error;

/// A file that this process has locked.
#[derive(Drop)]
pub struct HostFile {
    file: File,
    place: Place,
    /// Its bytes when it was opened. They are handed out once, before the file is changed.
    unread: Option<Vec<u8>>,
    past: Record,
    ghost held: { IfSome unread (λ bytes. bytes.items ≡ held_after past.steps) } by { Prim.hlevel props },
}

/// Why a file is not opened.
#[derive(Debug, Drop, Error)]
pub enum OpenFault {
    /// Another process has it.
    #[error("in use by another process")]
    InUse,
    /// It is a pipe or a device, say. A directory is refused by the system.
    #[error("not a regular file")]
    NotAFile,
    #[error("{0}")]
    Io(#[from] io::Error),
}

impl From<TryLockError> for OpenFault {
    ghost from_gives = { λ error fault. (error ≡ WouldBlock → fault ≡ InUse) × ((e : _) → error ≡ Error e → fault ≡ Io e) };

    fn from(error: TryLockError) -> OpenFault {
        match error {
            TryLockError::WouldBlock => OpenFault::InUse,
            TryLockError::Error(error) => OpenFault::Io(error),
        }
    }
}

/// Opens a file, or makes an empty one, and locks it. What was written to it before is then on the disk, and its name.
pub fn open_host(rt: &HostRuntime, path: &str) -> Result<HostFile, OpenFault>
    ensures durable { IfOk result (λ file. Only (held_after file.past.steps) (left_after file.past.steps)) }
    ensures usable { IfOk result (λ file. are_usable file.past.steps ≡ true) }
{
    let mut file = OpenOptions::new()
        .read(true)
        .write(true)
        .create(true)
        .open(rt, path)?;
    if !file.metadata()?.is_file() {
        return Err(OpenFault::NotAFile);
    }
    file.try_lock()?;
    // A process that held the lock may have put a new file in the place of this one.
    let Some(place) = Place::of(rt, path, &file)? else {
        return Err(OpenFault::InUse);
    };
    let mut bytes = Vec::new(rt.alloc());
    file.read_to_end(&mut bytes)?;
    // A process that died may have left bytes that are not on the disk yet, and the name may be new.
    file.sync_all()?;
    place.sync_folder()?;
    let mut past = Record::new();
    past.found(&bytes);
    Ok(HostFile {
        file,
        place,
        unread: Some(bytes),
        past,
    })
}

/// What an error of the system says of the disk.
fn fault_of(error: &io::Error) -> DeviceFault {
    match error.kind() {
        ErrorKind::StorageFull | ErrorKind::QuotaExceeded | ErrorKind::FileTooLarge => {
            DeviceFault::Full
        }
        _ => DeviceFault::Failed,
    }
}

impl HostFile {
    /// A new file beside this one, locked, with these bytes on the disk; and its record.
    fn new_beside(&self, bytes: &[u8]) -> io::Result<(File, Record)>
        ensures { IfOk result (λ new. (held_after new.1.steps ≡ bytes.now) × Only bytes.now (left_after new.1.steps)) }
    {
        let file = self.place.make_beside()?;
        let mut past = Record::new();
        file.write_all_at(bytes, 0)?;
        past.wrote(0, bytes);
        file.sync_all()?;
        past.synced();
        Ok((file, past))
    }
}

impl Device for HostFile {
    ghost seen = { λ f. held_after f.past.steps };

    ghost may_leave = { λ f. left_after f.past.steps };

    ghost moment = { λ f. length f.past.steps };

    ghost left_since = { λ f. left_from f.past.steps };

    ghost faults = { λ f. failures f.past.steps };

    ghost is_usable = { λ f. are_usable f.past.steps };

    ghost includes_now = { λ f t c le now. now_is_one f.past.steps t c le now };

    ghost begins_now = { λ f c left. now_is_last f.past.steps c left };

    // The bytes were read when the file was opened. They are not read again.
    fn read(&mut self, _alloc: Global) -> Result<Vec<u8>, DeviceFault> {
        match self.unread.take() {
            Some(bytes) => Ok(bytes),
            None => {
                self.past.refused();
                Err(DeviceFault::Failed)
            }
        }
    }

    fn write_at(&mut self, at: usize, bytes: &[u8]) -> Result<(), DeviceFault> {
        self.unread = None;
        match self.file.write_all_at(bytes, at as u64) {
            Ok(()) => {
                self.past.wrote(at, bytes);
                Ok(())
            }
            Err(error) => {
                self.past.wrote_in_part(at, bytes);
                Err(fault_of(&error))
            }
        }
    }

    fn cut(&mut self, len: usize) -> Result<(), DeviceFault> {
        self.unread = None;
        match self.file.set_len(len as u64) {
            Ok(()) => {
                self.past.cut(len);
                Ok(())
            }
            Err(error) => {
                self.past.cut_in_part(len);
                Err(fault_of(&error))
            }
        }
    }

    #[tactic(auto, using(crate::proofs::Steps::usable_synced, crate::proofs::Steps::usable_lost))]
    fn sync(&mut self) -> Result<(), DeviceFault> {
        self.unread = None;
        match self.file.sync_data() {
            Ok(()) => {
                self.past.synced();
                Ok(())
            }
            Err(error) => {
                self.past.lost_sync();
                Err(fault_of(&error))
            }
        }
    }

    // Until the new file is renamed, a crash leaves the old one, and once it is, the new one.
    #[tactic(auto, using(crate::proofs::Steps::usable_replaced, crate::proofs::Steps::usable_renamed, crate::proofs::Steps::usable_not_replaced))]
    fn replace(&mut self, bytes: &[u8]) -> Result<(), DeviceFault> {
        self.unread = None;
        let (file, past) = match self.new_beside(bytes) {
            Ok(new) => new,
            Err(error) => {
                self.place.drop_beside();
                self.past.not_replaced();
                return Err(fault_of(&error));
            }
        };
        match self.place.rename_over() {
            Ok(()) => {
                self.file = file;
                self.past.replaced(&past, bytes);
                Ok(())
            }
            Err(error) => {
                self.past.rename_failed(&past, bytes);
                Err(fault_of(&error))
            }
        }
    }
}
