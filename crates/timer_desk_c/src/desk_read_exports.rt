//! The functions that C calls in the owner's thread to read alone.
ghost use Rattle.std.specs.Prelude.{◌≡◌, ◌<◌, ◌≤◌, length};
ghost use Rattle.timer_facility.specs.State.{pending_of};
ghost use Rattle.timer_desk.specs.Desk.{clients_of, backlog_at};
ghost use Rattle.timer_desk_c.specs.Frames.{HasDesk, HasNoDesk};
ghost use Rattle.timer_desk_c.specs.Desks.{IsNextTick, IsFirstDeadline};
ghost use Rattle.timer_desk_c.specs.declared.status.TheConstants.{NEVER};

use crate::const_structs::ConstDesk;
use crate::status::NEVER;

/// The present tick, or 0 if there is no desk.
#[unsafe(no_mangle)]
pub extern "C" fn timers_desk_now(d: &mut ConstDesk) -> u64
    ensures now { HasDesk d.old.held → result ≡ d.old.held.slot.state.facility.now }
    ensures not_open { HasNoDesk d.old.held → result ≡ 0 }
    ensures same { d.new ≡ d.old }
{
    match d.desk() {
        Some(desk) => desk.facility().now(),
        None => 0,
    }
}

/// How many timers are pending, or 0 if there is no desk.
#[unsafe(no_mangle)]
pub extern "C" fn timers_desk_len(d: &mut ConstDesk) -> usize
    ensures pending { HasDesk d.old.held → result ≡ length d.old.held.slot.state.facility.pending }
    ensures not_open { HasNoDesk d.old.held → result ≡ 0 }
    ensures same { d.new ≡ d.old }
{
    match d.desk() {
        Some(desk) => desk.facility().pending(),
        None => 0,
    }
}

/// A tick before which nothing expires, after the present one and at most the first deadline; `NEVER` if nothing is
/// pending or there is no desk. Of a smooth wheel it is the first at which a timer expires, or would move to a lower wheel
/// in Scheme 7.
#[unsafe(no_mangle)]
pub extern "C" fn timers_desk_wakeup(d: &mut ConstDesk) -> u64
    ensures tick { HasDesk d.old.held → IsNextTick result d.old.held.slot.state.facility }
    ensures not_open { HasNoDesk d.old.held → result ≡ NEVER }
    ensures same { d.new ≡ d.old }
{
    match d.desk() {
        Some(desk) => desk.facility().quiet_until().unwrap_or(NEVER),
        None => NEVER,
    }
}

/// The first pending deadline; `NEVER` if nothing is pending or there is no desk.
#[unsafe(no_mangle)]
pub extern "C" fn timers_desk_next(d: &mut ConstDesk) -> u64
    ensures deadline { HasDesk d.old.held → IsFirstDeadline result d.old.held.slot.state.facility }
    ensures not_open { HasNoDesk d.old.held → result ≡ NEVER }
    ensures same { d.new ≡ d.old }
{
    match d.desk() {
        Some(desk) => desk.facility().next_deadline().unwrap_or(NEVER),
        None => NEVER,
    }
}

/// How many timers of a client are pending. 0 if there is no such client or no desk.
#[unsafe(no_mangle)]
pub extern "C" fn timers_desk_pending(d: &mut ConstDesk, client: usize) -> usize
    ensures pending { HasDesk d.old.held → client < clients_of d.old.held.slot.state
        → result ≡ pending_of d.old.held.slot.state.facility client }
    ensures none { HasDesk d.old.held → clients_of d.old.held.slot.state ≤ client → result ≡ 0 }
    ensures not_open { HasNoDesk d.old.held → result ≡ 0 }
    ensures same { d.new ≡ d.old }
{
    match d.desk() {
        Some(desk) if client < desk.clients() => desk.facility().pending_of(client as u64),
        _ => 0,
    }
}

/// How many words wait in a client's outbox. 0 if there is no such client or no desk.
#[unsafe(no_mangle)]
pub extern "C" fn timers_desk_outbox(d: &mut ConstDesk, client: usize) -> usize
    ensures len { HasDesk d.old.held → client < clients_of d.old.held.slot.state
        → result ≡ length (backlog_at d.old.held.slot.state client).outbox }
    ensures none { HasDesk d.old.held → clients_of d.old.held.slot.state ≤ client → result ≡ 0 }
    ensures not_open { HasNoDesk d.old.held → result ≡ 0 }
    ensures same { d.new ≡ d.old }
{
    match d.desk() {
        Some(desk) if client < desk.clients() => desk.outbox_len(client),
        _ => 0,
    }
}
