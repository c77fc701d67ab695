//! The parts of a facility that is restored: the started timers, the numbers and the counts.
ghost use Rattle.std.specs.Prelude.{◌≡◌, ◌≤◌, ◌++◌, ◌-◌, [], length, drop, replicate, OnOk};
ghost use Rattle.timer_facility.specs.Types.{Timer, MAX_CLIENTS, MAX_PENDING};
ghost use Rattle.timer_facility.specs.Facility.{AreCounted};
ghost use Rattle.timer_facility.specs.Restored.{IsUnused, AreStarted};
ghost use Rattle.timer_facility.specs.Saved.{IsReadState};

use crate::config::CLIENTS;
use crate::saved::SavedState;
use timer_base::{Handle, OutOfMemory, Wheel};

/// Starts the timers of a saved state in a wheel that is at its tick, by serial, and keeps their handles.
pub fn start_all<W: Wheel>(
    wheel: &mut W,
    saved: &SavedState,
    handles: &mut Vec<Handle>,
) -> Result<(), OutOfMemory>
    requires unused { IsUnused (W.state wheel.old) }
    requires now { (W.state wheel.old).now ≡ saved.now.saved.now }
    requires last { (W.state wheel.old).last_tick ≡ saved.now.limits.last_tick }
    requires keeps { (timer : Timer) → W.keeps timer }
    requires none { handles.old.items ≡ [] }
    ensures started { OnOk result (AreStarted (W.state wheel.old) saved.now.saved.timers handles.new.items (W.state wheel.new)) }
    ensures read { IsReadState saved.now }
{
    for timer in saved.timers() {
        let handle = wheel.start(*timer)?;
        handles.push(handle)?;
    }
    Ok(())
}

/// How many timers each client has.
pub fn counts_of(saved: &SavedState) -> [usize; CLIENTS]
    requires clients { saved.now.limits.clients ≤ MAX_CLIENTS }
    requires capacity { saved.now.limits.capacity ≤ MAX_PENDING }
    ensures { AreCounted MAX_CLIENTS result saved.now.saved.timers }
{
    let mut counts = [0; CLIENTS];
    for timer in saved.timers() {
        counts[timer.client as usize] += 1;
    }
    counts
}

/// The next number of each client: those that were saved, and then the first one.
pub fn numbers_of(saved: &SavedState, first: u64) -> [u64; CLIENTS]
    requires { saved.now.limits.clients ≤ MAX_CLIENTS }
    ensures { result ≡ saved.now.saved.numbers ++ replicate (MAX_CLIENTS - length saved.now.saved.numbers) first }
{
    let mut numbers = [first; CLIENTS];
    let old = saved.numbers();
    numbers[..old.len()].copy_from_slice(old);
    numbers
}
