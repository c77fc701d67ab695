//! Drives a desk turn by turn until each client has reached a goal.
ghost use Rattle.std.specs.Prelude.{◌≡◌, ◌≤◌, ◌↔◌, false, OnOk, length, vec_len};
ghost use Rattle.timer_base.specs.declared.limits.TheConstants.{LAST};
ghost use Rattle.timer_desk.specs.Desk.{clients_of};
ghost use Rattle.timer_desk.specs.Driver.{NoneRanOut, is_served, steps_with, Drives, IsTurned};

use crate::desk::Desk;
use crate::inlet::Inlet;
use crate::progress::{Progress, all_done, count_report, zeroed_progress};
use crate::report::{Done, Served, Step};
use std::alloc::{AllocError, Global};
use std::thread;
use timer_base::Wheel;
use timer_facility::laws::notices_are_owed;

/// Why a drive ended.
#[derive(Clone, Copy, Debug, PartialEq, Eq)]
pub enum DriveEnd {
    /// Each client reached the goal.
    Done,
    /// `limit` consecutive turns made no progress.
    Limit,
    /// Allocation failed.
    OutOfMemory,
}

/// A desk after a drive, and why it ended.
#[derive(Drop)]
pub struct Driven<W: Wheel + Drop, I: Inlet + Drop> {
    pub desk: Desk<W, I>,
    pub outcome: DriveEnd,
}

/// The outcome of one turn.
#[derive(Clone, Copy)]
enum Turned {
    Passed,
    Idle,
    OutOfMemory,
}

/// Runs turns of the desk: a serve of each client that has had fewer than `goal` requests served, a flush
/// of each client, both in the order of the clients, and a tick. It ends as soon as each client has had `goal`
/// requests served and twice as many words flushed, `limit` consecutive turns made no progress, or allocation
/// failed. A turn without progress yields the processor to another thread.
///
/// After `Done` each client has reached the goal. After `Limit` the last `limit` turns made no progress and,
/// if the limit is above 0, some client has not reached the goal. A drive in which a serve ran out of memory
/// ends as `OutOfMemory`, after the turn of that serve. If memory runs out before a turn, the turn is not taken.
pub fn drive<W: Wheel + Drop, I: Inlet + Drop>(
    alloc: Global,
    desk: Desk<W, I>,
    goal: u64,
    limit: u64,
) -> Driven<W, I>
    requires goal { goal ≤ LAST }
    requires limit { limit ≤ LAST }
    ensures { Drives I.kind goal limit desk result.desk result.outcome }
{
    let mut desk = desk;
    notices_are_owed();
    desk.lemma_invariant();
    let Ok(mut progress) = zeroed_progress(alloc, desk.clients()) else {
        return Driven {
            desk,
            outcome: DriveEnd::OutOfMemory,
        };
    };
    let mut steps = Vec::new(alloc);
    let mut idle = 0u64;
    while idle < limit {
        if all_done(&progress, goal) {
            return Driven {
                desk,
                outcome: DriveEnd::Done,
            };
        }
        match one_turn(&mut desk, &mut progress, &mut steps, goal) {
            Turned::Passed => idle = 0,
            Turned::Idle => {
                idle += 1;
                thread::yield_now();
            }
            Turned::OutOfMemory => {
                return Driven {
                    desk,
                    outcome: DriveEnd::OutOfMemory,
                };
            }
        }
    }
    Driven {
        desk,
        outcome: DriveEnd::Limit,
    }
}

/// Runs one turn, and counts its progress. Its steps are written over those of the turn before it.
fn one_turn<W: Wheel + Drop, I: Inlet + Drop>(
    desk: &mut Desk<W, I>,
    progress: &mut Vec<Progress>,
    steps: &mut Vec<Step>,
    goal: u64,
) -> Turned
    requires goal { goal ≤ LAST }
    requires clients { vec_len progress.old ≡ clients_of desk.old }
    ensures turned { IsTurned I.kind goal desk.old desk.new progress.old.items progress.new.items result }
    ensures clients { vec_len progress.new ≡ clients_of desk.new }
{
    desk.lemma_invariant();
    let Ok(()) = write_steps(steps, progress, goal) else {
        return Turned::OutOfMemory;
    };
    let Ok(report) = desk.turn(steps) else {
        return Turned::OutOfMemory;
    };
    let passed = count_report(progress, &report, goal);
    if ran_out(&report) {
        return Turned::OutOfMemory;
    }
    desk.recycle(report);
    if passed { Turned::Passed } else { Turned::Idle }
}

/// Writes the steps of one turn.
fn write_steps(steps: &mut Vec<Step>, progress: &[Progress], goal: u64) -> Result<(), AllocError>
    ensures { OnOk result (steps.new.items
        ≡ steps_with (is_served goal progress.now) (length progress.now)) }
{
    steps.clear();
    steps.reserve(2 * progress.len() + 1)?;
    for (client, reached) in progress.iter().enumerate() {
        if reached.served < goal {
            steps.push_reserved(Step::Serve(client));
        }
    }
    for client in 0..progress.len() {
        steps.push_reserved(Step::Flush(client));
    }
    steps.push_reserved(Step::Tick);
    Ok(())
}

/// Whether a serve of this report ran out of memory.
fn ran_out(report: &[Done]) -> bool
    ensures { result ≡ false ↔ NoneRanOut report.now }
{
    for member in report {
        if let Done::Served {
            served: Served::NoMemory,
            ..
        } = member
        {
            return true;
        }
    }
    false
}
