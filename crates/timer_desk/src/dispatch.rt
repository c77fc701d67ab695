//! Moves the notices that wait into their clients' outboxes.
ghost use Rattle.std.specs.Prelude.{◌≡◌, ◌≤◌, ◌+◌, ◌++◌, map, take, drop, length, slice_get, vec_len, vec_capacity};
ghost use Rattle.timer_facility.specs.Facility.{with_nothing_waiting};
ghost use Rattle.timer_desk.specs.Backlog.{client_of, HasRoomForNotices, with_notices};

use crate::backlog::Backlog;
use crate::report::Done;
use crate::word::Word;
use timer_base::Wheel;
use timer_facility::{Facility, Notice};

/// Pushes each waiting notice to the back of its client's outbox. After most serves none waits.
#[inline(always)]
pub fn hand_out<W: Wheel + Drop>(facility: &mut Facility<W>, backlogs: &mut Vec<Backlog>)
    requires room { HasRoomForNotices backlogs.old.items facility.old }
    requires clients { vec_len backlogs.old ≡ length facility.old.state.numbers }
    ensures facility { facility.new ≡ with_nothing_waiting facility.old.state }
    ensures noted { backlogs.new.items ≡ with_notices facility.old.waiting backlogs.old.items }
    ensures room { HasRoomForNotices backlogs.new.items facility.new }
{
    if facility.has_out() {
        hand_out_all(facility, backlogs);
    }
}

/// As `hand_out`, where some waits.
#[inline(never)]
fn hand_out_all<W: Wheel + Drop>(facility: &mut Facility<W>, backlogs: &mut Vec<Backlog>)
    requires room { HasRoomForNotices backlogs.old.items facility.old }
    requires clients { vec_len backlogs.old ≡ length facility.old.state.numbers }
    ensures facility { facility.new ≡ with_nothing_waiting facility.old.state }
    ensures noted { backlogs.new.items ≡ with_notices facility.old.waiting backlogs.old.items }
    ensures room { HasRoomForNotices backlogs.new.items facility.new }
{
    while hand_out_next(facility, backlogs).is_some() {}
}

/// Pushes each waiting notice to the back of its client's outbox, and appends it to the report.
pub fn hand_out_and_report<W: Wheel + Drop>(
    facility: &mut Facility<W>,
    backlogs: &mut Vec<Backlog>,
    report: &mut Vec<Done>,
)
    requires room { HasRoomForNotices backlogs.old.items facility.old }
    requires clients { vec_len backlogs.old ≡ length facility.old.state.numbers }
    requires report { vec_len report.old + length facility.old.waiting ≤ vec_capacity report.old }
    ensures facility { facility.new ≡ with_nothing_waiting facility.old.state }
    ensures noted { backlogs.new.items ≡ with_notices facility.old.waiting backlogs.old.items }
    ensures room { HasRoomForNotices backlogs.new.items facility.new }
    ensures report { report.new.items ≡ report.old.items ++ map Done.Noticed facility.old.waiting }
    ensures len { vec_len report.new ≡ vec_len report.old + length facility.old.waiting }
    ensures capacity { vec_capacity report.new ≡ vec_capacity report.old }
{
    while let Some(notice) = hand_out_next(facility, backlogs) {
        report.push_reserved(Done::Noticed(notice));
    }
}

/// Pushes the next waiting notice to the back of its client's outbox, and returns it.
fn hand_out_next<W: Wheel + Drop>(
    facility: &mut Facility<W>,
    backlogs: &mut Vec<Backlog>,
) -> Option<Notice>
    requires room { HasRoomForNotices backlogs.old.items facility.old }
    requires clients { vec_len backlogs.old ≡ length facility.old.state.numbers }
    ensures first { result ≡ slice_get facility.old.waiting 0 }
    ensures rest { facility.new ≡ record facility.old { waiting = drop 1 facility.old.waiting } }
    ensures noted { backlogs.new.items ≡ with_notices (take 1 facility.old.waiting) backlogs.old.items }
    ensures room { HasRoomForNotices backlogs.new.items facility.new }
{
    let notice = facility.next_out()?;
    let client = client_of(&notice) as usize;
    backlogs[client].note(Word::Notice(notice));
    Some(notice)
}

/// The client that a notice is for.
fn client_of(notice: &Notice) -> u64
    ensures { result ≡ client_of notice.now }
{
    match notice {
        Notice::Expired(timer) | Notice::Returned(timer) => timer.client,
    }
}
