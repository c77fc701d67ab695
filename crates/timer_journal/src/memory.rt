//! A file in memory, for tests. It keeps what it held first and each change, so a crash at any moment of its
//! past may leave all that the trait allows.
ghost use Rattle.std.specs.Prelude.{◌≡◌, ◌∷◌, [], true, length, map, IfOk};
ghost use Rattle.timer_journal.specs.Device.{overwritten};
ghost use Rattle.timer_journal.specs.Host.{after_steps, held_after, left_after, left_since as left_from, now_is_one, now_is_last};
ghost use Rattle.timer_journal.specs.Memory.{step_of, steps_of};

use crate::device::Device;
use crate::fault::DeviceFault;
use std::alloc::{AllocError, Global};

/// A change of a file, or a sync.
#[derive(Drop)]
pub enum Change {
    Written { at: usize, bytes: Vec<u8> },
    Shorter { len: usize },
    Synced,
    Replaced { bytes: Vec<u8> },
}

#[derive(Drop)]
pub struct Memory {
    first: Vec<u8>,
    changes: Vec<Change>,
    is_usable: bool,
}

impl Memory {
    /// A file with these bytes, all of them on the disk.
    pub fn new(alloc: Global, bytes: Vec<u8>) -> Memory
        ensures bytes { result.first ≡ bytes }
        ensures changes { result.changes.items ≡ [] }
        ensures usable { result.is_usable ≡ true }
    {
        Memory {
            first: bytes,
            changes: Vec::new(alloc),
            is_usable: true,
        }
    }

    /// Each change and sync so far, in order.
    pub fn changes(&self) -> &[Change]
        ensures { result.now ≡ self.now.changes.items }
    {
        &self.changes
    }
}

/// The file with these bytes at this offset.
fn overwrite(alloc: Global, file: &[u8], at: usize, bytes: &[u8]) -> Result<Vec<u8>, AllocError>
    ensures { IfOk result (λ new. new.items ≡ overwritten file.now at bytes.now) }
{
    let front = at.min(file.len());
    let mut new = file[..front].to_vec(alloc)?;
    new.extend_from_slice(bytes)?;
    if at < file.len() && bytes.len() < file.len() - at {
        new.extend_from_slice(&file[at + bytes.len()..])?;
    }
    Ok(new)
}

fn changed(alloc: Global, file: Vec<u8>, change: &Change) -> Result<Vec<u8>, AllocError>
    ensures { IfOk result (λ new. new.items ≡ after_steps file.items (step_of change.now ∷ [])) }
{
    match change {
        Change::Written { at, bytes } => overwrite(alloc, &file, *at, bytes),
        Change::Shorter { len } => {
            let len = (*len).min(file.len());
            file[..len].to_vec(alloc)
        }
        Change::Synced => Ok(file),
        Change::Replaced { bytes } => bytes.to_vec(alloc),
    }
}

/// What a file holds after these changes.
fn play(alloc: Global, first: &[u8], changes: &[Change]) -> Result<Vec<u8>, AllocError>
    ensures { IfOk result (λ file. file.items ≡ after_steps first.now (map step_of changes.now)) }
{
    let mut file = first.to_vec(alloc)?;
    for change in changes {
        file = changed(alloc, file, change)?;
    }
    Ok(file)
}

impl Device for Memory {
    ghost seen = { λ m. held_after (steps_of m.first.items m.changes.items) };

    ghost may_leave = { λ m c. left_after (steps_of m.first.items m.changes.items) c };

    ghost moment = { λ m. length (steps_of m.first.items m.changes.items) };

    ghost left_since = { λ m t c. left_from (steps_of m.first.items m.changes.items) t c };

    ghost faults = { λ m. 0 };

    ghost is_usable = { λ m. m.is_usable };

    ghost includes_now = { λ m t c le now. now_is_one (steps_of m.first.items m.changes.items) t c le now };

    ghost begins_now = { λ m c left. now_is_last (steps_of m.first.items m.changes.items) c left };

    fn read(&mut self, alloc: Global) -> Result<Vec<u8>, DeviceFault> {
        Ok(play(alloc, &self.first, &self.changes)?)
    }

    fn write_at(&mut self, at: usize, bytes: &[u8]) -> Result<(), DeviceFault> {
        let bytes = bytes.to_vec(*self.first.allocator())?;
        self.changes.push(Change::Written { at, bytes })?;
        Ok(())
    }

    fn cut(&mut self, len: usize) -> Result<(), DeviceFault> {
        self.changes.push(Change::Shorter { len })?;
        Ok(())
    }

    fn sync(&mut self) -> Result<(), DeviceFault> {
        // An error says that the file is not usable, whatever its cause.
        self.is_usable = false;
        self.changes.push(Change::Synced)?;
        self.is_usable = true;
        Ok(())
    }

    fn replace(&mut self, bytes: &[u8]) -> Result<(), DeviceFault> {
        self.is_usable = false;
        let bytes = bytes.to_vec(*self.first.allocator())?;
        self.changes.push(Change::Replaced { bytes })?;
        self.is_usable = true;
        Ok(())
    }
}
