//! Hands out the timers that wait, after a close or tick by tick, into a list of outs with room for them.
ghost use Rattle.std.specs.Prelude.{◌≡◌, ◌<◌, ◌≤◌, ◌+◌, ◌++◌, [], length, map, OnErr, OnOk, vec_len, vec_capacity};
ghost use Rattle.timer_facility.specs.Types.{Event, Out};
ghost use Rattle.timer_facility.specs.State.{IsSound};
ghost use Rattle.timer_facility.specs.Facility.{with_nothing_waiting};
ghost use Rattle.timer_facility.specs.Played.{AddsRun};
ghost use Rattle.timer_facility.specs.Handles.{HandleList, AreRecorded};

use crate::event::Out;
use crate::facility::Facility;
use timer_base::{OutOfMemory, Wheel};

/// Reserves room for one out and for a notice of each pending timer. Ticks and a close produce no more.
pub fn make_room<W: Wheel + Drop>(
    facility: &Facility<W>,
    outs: &mut Vec<Out>,
) -> Result<(), OutOfMemory>
    ensures items { outs.new.items ≡ outs.old.items }
    ensures room { OnOk result (vec_len outs.new + length facility.now.state.pending
        < vec_capacity outs.new) }
    ensures memory { OnErr result (vec_capacity outs.old
        < vec_len outs.old + (length facility.now.state.pending + 1)) }
    ensures sound { IsSound facility.now.state }
{
    outs.reserve(facility.pending() + 1)?;
    Ok(())
}

/// Passes `count` ticks, up to the first that is refused, each with its notices. Room for them was reserved.
pub fn pass_ticks<W: Wheel + Drop>(facility: &mut Facility<W>, count: u64, outs: &mut Vec<Out>)
    requires sound { IsSound facility.old.state }
    requires waiting { facility.old.waiting ≡ [] }
    requires room { vec_len outs.old + length facility.old.state.pending < vec_capacity outs.old }
    ensures run { AddsRun facility.old.state (Event.Ticks count) outs.old.items outs.new.items
        facility.new.state }
    ensures waiting { facility.new.waiting ≡ [] }
    ensures handles { (handles : HandleList) → AreRecorded handles facility.old.state
        → AreRecorded handles facility.new.state }
{
    let mut left = count;
    while left > 0 {
        match facility.ticks(left) {
            Ok(passed) => {
                hand_out(facility, outs);
                left -= passed;
            }
            Err(fault) => {
                outs.push_reserved(Out::TickRefused(fault));
                return;
            }
        }
    }
}

/// Hands out every timer that waits. Room for the notices was reserved.
pub fn hand_out<W: Wheel + Drop>(facility: &mut Facility<W>, outs: &mut Vec<Out>)
    requires { vec_len outs.old + length facility.old.waiting ≤ vec_capacity outs.old }
    ensures facility { facility.new ≡ with_nothing_waiting facility.old.state }
    ensures outs { outs.new.items ≡ outs.old.items ++ map (λ notice. Out.Notice notice) facility.old.waiting }
    ensures len { vec_len outs.new ≡ vec_len outs.old + length facility.old.waiting }
    ensures capacity { vec_capacity outs.new ≡ vec_capacity outs.old }
{
    while let Some(notice) = facility.next_out() {
        outs.push_reserved(Out::Notice(notice));
    }
}
