//! The journal: groups of lines at the end of a file, each of them durable before it is acknowledged. It begins anew
//! with one group in the place of all.
ghost use Rattle.std.specs.Prelude.{◌≡◌, ◌⊎◌, ◌<◌, ◌≤◌, ◌^◌, ◌++◌, ◌∷◌, [], true, false, length, Err, IfOk, IfErr, OnOk, IsErr, IsErrOf};
ghost use Rattle.std.proofs.Props.{props};
ghost use Rattle.timer_journal.specs.Device.{LeavesOnly, HasCause};
ghost use Rattle.timer_journal.specs.Format.{blocks, groups_of};
ghost use Rattle.timer_journal.specs.Journal.{IsDurable, IsSettled, IsBeforeOrAfter, IsBeforeOrAnew, is_of_append};
ghost use Rattle.timer_journal.specs.declared.fault.JournalFault.TheVariants.{Dead, TooLong, Device as DeviceFails};

use crate::device::Device;
use crate::durable::write_durably;
use crate::fault::{DeviceFault, JournalFault};
use crate::format::{OPEN, alone, staged};
use std::alloc::Global;

pub const MAX_BYTES: usize = 1 << 60;

#[derive(Drop)]
pub struct Journal<D: Device> {
    device: D,
    /// Where the closed gate is, behind the last group.
    end: usize,
    /// A call has failed, so nothing more is asked of the file.
    is_dead: bool,
    ghost settled: { is_dead ≡ false → IsSettled D.seen D.may_leave D.is_usable device end } by { Prim.hlevel props },
}

impl<D: Device> Journal<D> {
    /// A journal whose file was recovered.
    pub fn new(device: D, end: usize) -> Journal<D>
        requires durable { IsDurable D.seen D.may_leave D.is_usable device }
        requires end { end ≡ length (blocks (groups_of (D.seen device))) }
        ensures device { result.device ≡ device }
        ensures end { result.end ≡ end }
        ensures alive { result.is_dead ≡ false }
    {
        Journal {
            device,
            end,
            is_dead: false,
        }
    }

    /// Gives the file back.
    pub fn into_device(self) -> D
        ensures { result ≡ self.device }
    {
        self.device
    }

    /// Whether a call has failed.
    pub fn is_dead(&self) -> bool
        ensures { result ≡ self.now.is_dead }
    {
        self.is_dead
    }

    /// Adds a group of lines. At `Ok` it is acknowledged: each crash from then on leaves it. After an error
    /// the journal is dead, and the file has to be recovered anew.
    pub fn append(&mut self, alloc: Global, lines: &[u8]) -> Result<(), JournalFault>
        ensures acknowledged { OnOk result ((self.new.is_dead ≡ false)
            × IsSettled D.seen D.may_leave D.is_usable self.new.device self.new.end
            × (groups_of (D.seen self.new.device) ≡ groups_of (D.seen self.old.device) ++ lines.now ∷ [])) }

        // A crash at any moment leaves the groups from before it, with this one or without.
        ensures any_moment { self.old.is_dead ≡ false → LeavesOnly D.moment D.left_since self.old.device self.new.device
            (IsBeforeOrAfter (groups_of (D.seen self.old.device)) lines.now) }

        // A dead journal asks nothing of its file. Every error leaves one.
        ensures dead { self.old.is_dead ≡ true → (result ≡ Err Dead) × (self.new ≡ self.old) }
        ensures died { IsErr result → self.new.is_dead ≡ true }

        // Nothing else is refused, and nothing fails by itself.
        ensures alive { IsErrOf result Dead → self.old.is_dead ≡ true }
        ensures too_long { IsErrOf result TooLong → (2 ^ 60 ≤ self.old.end) ⊎ (2 ^ 60 ≤ length lines.now) }
        ensures only { IfErr result (λ fault. is_of_append fault ≡ true) }
        ensures cause { HasCause D.faults self.old.device self.new.device (λ fault. IsErrOf result (DeviceFails fault)) }
    {
        if self.is_dead {
            return Err(JournalFault::Dead);
        }
        self.is_dead = true;
        if self.end >= MAX_BYTES || lines.len() >= MAX_BYTES {
            return Err(JournalFault::TooLong);
        }
        self.end = put_group(alloc, &mut self.device, self.end, lines)?;
        self.is_dead = false;
        Ok(())
    }

    /// The journal begins anew with one group, these lines. At `Ok` each crash from then on leaves it. After an error
    /// the journal is dead, and the file has to be recovered anew.
    pub fn begin_anew(&mut self, alloc: Global, lines: &[u8]) -> Result<(), JournalFault>
        ensures acknowledged { OnOk result ((self.new.is_dead ≡ false)
            × IsSettled D.seen D.may_leave D.is_usable self.new.device self.new.end
            × (groups_of (D.seen self.new.device) ≡ lines.now ∷ [])) }

        // A crash at any moment leaves the groups from before it, or this one alone.
        ensures any_moment { self.old.is_dead ≡ false → LeavesOnly D.moment D.left_since self.old.device self.new.device
            (IsBeforeOrAnew (groups_of (D.seen self.old.device)) lines.now) }

        // A dead journal asks nothing of its file. Every error leaves one.
        ensures dead { self.old.is_dead ≡ true → (result ≡ Err Dead) × (self.new ≡ self.old) }
        ensures died { IsErr result → self.new.is_dead ≡ true }

        // Nothing else is refused, and nothing fails by itself.
        ensures alive { IsErrOf result Dead → self.old.is_dead ≡ true }
        ensures too_long { IsErrOf result TooLong → 2 ^ 60 ≤ length lines.now }
        ensures only { IfErr result (λ fault. is_of_append fault ≡ true) }
        ensures cause { HasCause D.faults self.old.device self.new.device (λ fault. IsErrOf result (DeviceFails fault)) }
    {
        if self.is_dead {
            return Err(JournalFault::Dead);
        }
        self.is_dead = true;
        if lines.len() >= MAX_BYTES {
            return Err(JournalFault::TooLong);
        }
        self.end = put_alone(alloc, &mut self.device, lines)?;
        self.is_dead = false;
        Ok(())
    }
}

/// Puts a group in the place of the closed gate at this offset, and returns where the closed gate is then.
pub fn put_group<D: Device>(
    alloc: Global,
    device: &mut D,
    end: usize,
    lines: &[u8],
) -> Result<usize, DeviceFault>
    requires durable { IsDurable D.seen D.may_leave D.is_usable device.old }
    requires end { end ≡ length (blocks (groups_of (D.seen device.old))) }
    requires small { (end < 2 ^ 60) × (length lines.now < 2 ^ 60) }
    ensures end { IfOk result (λ end. end ≡ length (blocks (groups_of (D.seen device.new)))) }
    ensures ok { OnOk result (IsDurable D.seen D.may_leave D.is_usable device.new
        × (groups_of (D.seen device.new) ≡ groups_of (D.seen device.old) ++ lines.now ∷ [])) }
    ensures any_moment { LeavesOnly D.moment D.left_since device.old device.new
        (IsBeforeOrAfter (groups_of (D.seen device.old)) lines.now) }
    ensures cause { HasCause D.faults device.old device.new (IsErrOf result) }
{
    let group = staged(alloc, lines)?;
    // The gate is opened by a write of its own, once the group is on the disk: by one write, the gate could
    // be there without the group.
    write_durably(device, end + 1, &group)?;
    write_durably(device, end, &[OPEN])?;
    Ok(end + group.len())
}

/// Puts one group in the place of all, and returns where the closed gate is then.
pub fn put_alone<D: Device>(
    alloc: Global,
    device: &mut D,
    lines: &[u8],
) -> Result<usize, DeviceFault>
    requires durable { IsDurable D.seen D.may_leave D.is_usable device.old }
    requires small { length lines.now < 2 ^ 60 }
    ensures end { IfOk result (λ end. end ≡ length (blocks (groups_of (D.seen device.new)))) }
    ensures ok { OnOk result (IsDurable D.seen D.may_leave D.is_usable device.new
        × (groups_of (D.seen device.new) ≡ lines.now ∷ [])) }
    ensures any_moment { LeavesOnly D.moment D.left_since device.old device.new
        (IsBeforeOrAnew (groups_of (D.seen device.old)) lines.now) }
    ensures cause { HasCause D.faults device.old device.new (IsErrOf result) }
{
    let file = alone(alloc, lines)?;
    device.replace(&file)?;
    Ok(file.len() - 1)
}
