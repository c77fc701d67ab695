//! A journal is opened: its end is repaired, and its text is read. One that has not begun is begun.
ghost use Rattle.std.specs.Prelude.{◌≡◌, ◌⊎◌, ◌<◌, ◌≤◌, ◌^◌, ◌++◌, ◌∷◌, [], ℕ, List, length, true, false, IfOk, IfErr, IfSome, Some, OnOk, IsErr, IsErrOf};
ghost use Rattle.std.specs.List.{concat};
ghost use Rattle.timer_journal.specs.Device.{Only, LeavesOnly, HasCause};
ghost use Rattle.timer_journal.specs.Format.{blocks, groups_of, is_foreign, Says, IsDamaged};
ghost use Rattle.timer_journal.specs.Journal.{IsDurable, IsBeforeOrAnew, text_of, is_of_append};
ghost use Rattle.timer_journal.specs.declared.fault.JournalFault.TheVariants.{Dead, TooLong, Device as DeviceFails};
ghost use Rattle.timer_durable.specs.Types.{LAST};
ghost use Rattle.timer_durable.specs.Beginning.{preamble_of, text_kept, IsCounted};
ghost use Rattle.timer_durable.specs.Opening.{WhyNotOpened, at_first};
ghost use Rattle.timer_durable.specs.declared.fault.BeginFault.TheVariants.{Journal as JournalFails};

use crate::beginning::{Beginning, Kept, preamble, read_kept};
use crate::fault::BeginFault;
use std::alloc::Global;
use timer_journal::{Device, Journal, JournalFault, recover};

/// A journal, and what it keeps if it has begun.
#[derive(Drop)]
pub struct Opened<D: Device + Drop> {
    pub journal: Journal<D>,
    pub kept: Option<Kept>,
}

/// Reads what a file keeps that a crash may have left, and repairs its end. It may crash too. Returns where the journal
/// ends, and what it keeps.
pub fn recover_kept<D: Device>(
    alloc: Global,
    device: &mut D,
    options: &[u8],
) -> Result<(usize, Option<Kept>), BeginFault>
    // After a start, what is read is what is on the disk.
    requires durable { Only (D.seen device.old) (D.may_leave device.old) }
    requires usable { D.is_usable device.old ≡ true }

    ensures text { IfOk result (λ read. text_of (D.seen device.old) ≡ text_kept options.now read.1) }
    ensures counted { IfOk result (λ read. IfSome read.1 (λ k. IsCounted k.beginning)) }
    ensures end { IfOk result (λ read. read.0 ≡ length (blocks (groups_of (D.seen device.old)))) }
    ensures ok { OnOk result (IsDurable D.seen D.may_leave D.is_usable device.new
        × (groups_of (D.seen device.new) ≡ groups_of (D.seen device.old))) }

    // A crash at any moment leaves the same groups.
    ensures any_moment { (IsDamaged (D.seen device.old) → ⊥)
        → LeavesOnly D.moment D.left_since device.old device.new (Says (groups_of (D.seen device.old))) }

    // What was never a journal is refused, and what no crash leaves of one. It stays as it is.
    ensures foreign { is_foreign (D.seen device.old) ≡ true → IsErr result
        × LeavesOnly D.moment D.left_since device.old device.new (λ c. c ≡ D.seen device.old) }
    ensures damaged { IsDamaged (D.seen device.old) → IsErr result
        × LeavesOnly D.moment D.left_since device.old device.new (λ c. c ≡ D.seen device.old) }
    ensures fault { IfErr result (WhyNotOpened options.now (D.seen device.old)) }
    ensures cause { HasCause D.faults device.old device.new (λ fault. IsErrOf result (JournalFails (DeviceFails fault))) }
{
    let recovered = recover(alloc, device)?;
    let kept = read_kept(alloc, &recovered.lines, options)?;
    Ok((recovered.end, kept))
}

/// Opens the journal of a file that a crash may have left. The options are those of the server, on one line.
pub fn open_kept<D: Device + Drop>(
    alloc: Global,
    mut device: D,
    options: &[u8],
) -> Result<Opened<D>, BeginFault>
    requires durable { Only (D.seen device) (D.may_leave device) }
    requires usable { D.is_usable device ≡ true }

    ensures alive { IfOk result (λ opened. opened.journal.is_dead ≡ false) }
    ensures same { IfOk result (λ opened. groups_of (D.seen opened.journal.device) ≡ groups_of (D.seen device)) }
    ensures text { IfOk result (λ opened. text_of (D.seen opened.journal.device) ≡ text_kept options.now opened.kept) }
    ensures counted { IfOk result (λ opened. IfSome opened.kept (λ k. IsCounted k.beginning)) }
    ensures any_moment { IfOk result (λ opened. LeavesOnly D.moment D.left_since device opened.journal.device
        (Says (groups_of (D.seen device)))) }
    ensures foreign { is_foreign (D.seen device) ≡ true → IsErr result }
    ensures damaged { IsDamaged (D.seen device) → IsErr result }
    ensures fault { IfErr result (WhyNotOpened options.now (D.seen device)) }
{
    let (end, kept) = recover_kept(alloc, &mut device, options)?;
    Ok(Opened {
        journal: Journal::new(device, end),
        kept,
    })
}

/// Begins a journal that is empty: nothing came before, and this is the text of the state. Returns what it keeps then.
pub fn begin<D: Device>(
    alloc: Global,
    journal: &mut Journal<D>,
    options: &[u8],
    state: Vec<u8>,
) -> Result<Kept, JournalFault>
    ensures begun { IfOk result (λ kept. text_of (D.seen journal.new.device) ≡ text_kept options.now (Some kept)) }
    ensures kept { IfOk result (λ kept. (kept.beginning ≡ at_first) × (kept.state ≡ state) × (kept.lines.items ≡ [])) }
    ensures small { OnOk result (length state.items ≤ LAST) }
    ensures alive { OnOk result (journal.new.is_dead ≡ false) }

    // A crash at any moment leaves the file as it was, or a journal that has begun.
    ensures any_moment { journal.old.is_dead ≡ false → LeavesOnly D.moment D.left_since journal.old.device journal.new.device
        (IsBeforeOrAnew (groups_of (D.seen journal.old.device)) (preamble_of options.now at_first state.items)) }

    // It fails only as a new beginning does, or by a state of more than `LAST` bytes.
    ensures dead { IsErrOf result Dead → journal.old.is_dead ≡ true }
    ensures too_long { IsErrOf result TooLong → (LAST < length state.items) ⊎ (2 ^ 60 ≤ length (preamble_of options.now at_first state.items)) }
    ensures only { IfErr result (λ fault. is_of_append fault ≡ true) }
    ensures cause { HasCause D.faults journal.old.device journal.new.device (λ fault. IsErrOf result (DeviceFails fault)) }
{
    let beginning = Beginning {
        lines: 0,
        answers: 0,
    };
    let text = preamble(alloc, options, beginning, &state)?;
    journal.begin_anew(alloc, &text)?;
    Ok(Kept {
        beginning,
        state,
        lines: Vec::new(alloc),
    })
}
