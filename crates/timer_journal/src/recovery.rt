//! What a file kept, and the repair of its end.
ghost use Rattle.std.specs.Prelude.{◌≡◌, ◌++◌, ℕ, Bool, true, false, length, IfOk, IfErr, OnOk, IsErr, IsErrOf};
ghost use Rattle.std.specs.List.{concat};
ghost use Rattle.timer_journal.specs.Device.{Only, LeavesOnly, HasCause};
ghost use Rattle.timer_journal.specs.Format.{blocks, groups_of, tail_of, is_torn_end as may_be_torn, is_foreign as is_foreign_file, Says, IsDamaged};
ghost use Rattle.timer_journal.specs.Journal.{IsDurable, end_of, is_of_recovery};
ghost use Rattle.timer_journal.specs.declared.fault.JournalFault.TheVariants.{NoJournal, Damaged, Device as DeviceFails};

use crate::device::Device;
use crate::durable::{cut_durably, write_durably};
use crate::fault::{DeviceFault, JournalFault};
use crate::format::{CLOSED, is_foreign, is_torn_end, read_groups};
use std::alloc::Global;

/// What a file kept.
#[derive(Drop)]
pub struct Recovered {
    /// The lines of all groups, in order.
    pub lines: Vec<u8>,
    /// Where the closed gate is.
    pub end: usize,
}

/// What is behind the groups of a file.
enum End {
    /// What a crash may have left.
    Torn,
    /// What no crash leaves.
    Damaged,
    /// The whole file, which was never a journal.
    Foreign,
}

/// Reads the groups of a file that a crash may have left, and repairs its end. It may crash too. A file that was never a
/// journal is refused before one whose end is damaged.
pub fn recover<D: Device>(alloc: Global, device: &mut D) -> Result<Recovered, JournalFault>
    // After a start, what is read is what is on the disk.
    requires durable { Only (D.seen device.old) (D.may_leave device.old) }
    requires usable { D.is_usable device.old ≡ true }

    ensures lines { IfOk result (λ kept. kept.lines.items ≡ concat (groups_of (D.seen device.old))) }
    ensures end { IfOk result (λ kept. kept.end ≡ length (blocks (groups_of (D.seen device.old)))) }
    ensures ok { OnOk result (IsDurable D.seen D.may_leave D.is_usable device.new
        × (groups_of (D.seen device.new) ≡ groups_of (D.seen device.old))) }

    // A crash at any moment leaves the same groups.
    ensures any_moment { (IsDamaged (D.seen device.old) → ⊥)
        → LeavesOnly D.moment D.left_since device.old device.new (Says (groups_of (D.seen device.old))) }

    // What no crash leaves is refused with its byte, and stays as it is.
    ensures damaged { IsDamaged (D.seen device.old) → IsErr result
        × LeavesOnly D.moment D.left_since device.old device.new (λ c. c ≡ D.seen device.old) }
    // A file that was never a journal, too.
    ensures foreign { is_foreign_file (D.seen device.old) ≡ true → IsErr result
        × LeavesOnly D.moment D.left_since device.old device.new (λ c. c ≡ D.seen device.old) }
    ensures never { IsErrOf result NoJournal → is_foreign_file (D.seen device.old) ≡ true }
    ensures at { (at : ℕ) → IsErrOf result (Damaged at) → IsDamaged (D.seen device.old)
        × (at ≡ length (blocks (groups_of (D.seen device.old)))) }

    // Nothing else is refused, and nothing fails by itself.
    ensures only { IfErr result (λ fault. is_of_recovery fault ≡ true) }
    ensures cause { HasCause D.faults device.old device.new (λ fault. IsErrOf result (DeviceFails fault)) }
{
    let (kept, end) = read_kept(alloc, device)?;
    match end {
        End::Foreign => return Err(JournalFault::NoJournal),
        End::Damaged => return Err(JournalFault::Damaged { at: kept.end }),
        End::Torn => {}
    }
    repair(device, kept.end)?;
    Ok(kept)
}

/// What the file kept, and what is behind it.
fn read_kept<D: Device>(alloc: Global, device: &mut D) -> Result<(Recovered, End), DeviceFault>
    requires durable { Only (D.seen device.old) (D.may_leave device.old) }
    requires usable { D.is_usable device.old ≡ true }
    ensures lines { IfOk result (λ read. read.0.lines.items ≡ concat (groups_of (D.seen device.old))) }
    ensures end { IfOk result (λ read. read.0.end ≡ length (blocks (groups_of (D.seen device.old)))) }
    ensures end_is { IfOk result (λ read. read.1 ≡ end_of (D.seen device.old)) }
    ensures split { OnOk result (D.seen device.old ≡ blocks (groups_of (D.seen device.old)) ++ tail_of (D.seen device.old)) }
    ensures same { D.seen device.new ≡ D.seen device.old }
    ensures durable { Only (D.seen device.old) (D.may_leave device.new) }
    ensures usable { D.is_usable device.new ≡ true }
    ensures any_moment { LeavesOnly D.moment D.left_since device.old device.new (λ c. c ≡ D.seen device.old) }
    ensures cause { HasCause D.faults device.old device.new (IsErrOf result) }
{
    let bytes = device.read(alloc)?;
    let (lines, tail) = read_groups(alloc, &bytes)?;
    let end = bytes.len() - tail.len();
    let behind = if is_foreign(&bytes) {
        End::Foreign
    } else if is_torn_end(tail) {
        End::Torn
    } else {
        End::Damaged
    };
    Ok((Recovered { lines, end }, behind))
}

/// Puts a closed gate in the place of what is behind the groups.
fn repair<D: Device>(device: &mut D, end: usize) -> Result<(), DeviceFault>
    requires durable { Only (D.seen device.old) (D.may_leave device.old) }
    requires usable { D.is_usable device.old ≡ true }
    requires split { D.seen device.old ≡ blocks (groups_of (D.seen device.old)) ++ tail_of (D.seen device.old) }
    requires torn { may_be_torn (tail_of (D.seen device.old)) ≡ true }
    requires end { end ≡ length (blocks (groups_of (D.seen device.old))) }
    ensures ok { OnOk result (IsDurable D.seen D.may_leave D.is_usable device.new
        × (groups_of (D.seen device.new) ≡ groups_of (D.seen device.old))) }
    ensures any_moment { LeavesOnly D.moment D.left_since device.old device.new (Says (groups_of (D.seen device.old))) }
    ensures cause { HasCause D.faults device.old device.new (IsErrOf result) }
{
    // The cut has to be on the disk before the gate: behind a gate that is torn open, what was there
    // would count.
    cut_durably(device, end)?;
    write_durably(device, end, &[CLOSED])?;
    Ok(())
}
