//! The handles of the pending timers, by serial.
//!
//! Serials rise, so one `Vec` keeps the handles in order of starting. One since the last sweep is found from its
//! distance to the last one, and any other by binary search.
//! The handle of a timer that is no longer pending stays for a while. Once there are more than two
//! handles for each pending timer, and `SPARE` = 64 more, a sweep drops all that no pending timer has:
//!
//!     pending   at most this many handles stay
//!           0     64
//!          10     84
//!        1000   2064
//!
//! A sweep of n handles drops more than n / 2 of them, and each was added by one start or restart. So
//! sweeps look up at most two handles per start or restart, whatever the order of events is.
ghost use Rattle.std.specs.Prelude.{◌≡◌, ◌<◌, ℕ, [], OnOk, OnErr, IfSome, Some, filter, vec_len, vec_capacity};
ghost use Rattle.timer_facility.specs.Handles.{place_at, AreSorted, AreRecorded, AreFew, is_pending, with_answer, AddsHandle};
ghost use Rattle.timer_facility.specs.Facility.{MakesTimer, model_of};

use crate::facility::Facility;
use crate::request::{Answer, Request};
use std::alloc::Global;
use timer_base::{Handle, OutOfMemory, Wheel};

/// How many handles may stay in addition to two for each pending timer.
pub const SPARE: usize = 64;

/// The handle of each pending timer, and some of timers that are no longer pending.
#[derive(Drop)]
pub struct Handles {
    list: Vec<Handle>,
}

impl Handles {
    /// No handles. Does not allocate.
    pub fn new(alloc: Global) -> Handles
        ensures { result.list.items ≡ [] }
    {
        Handles {
            list: Vec::new(alloc),
        }
    }

    /// These handles, which are in order of starting. Does not allocate.
    pub fn of(list: Vec<Handle>) -> Handles
        ensures { result.list.items ≡ list.items }
    {
        Handles { list }
    }

    /// The handles, in order of starting.
    pub fn as_slice(&self) -> &[Handle]
        ensures { result.now ≡ self.now.list.items }
    {
        &self.list
    }

    /// Reserves room for the handle of the timer that this request makes, if it makes one. The only error is out of
    /// memory, and then nothing changes.
    #[inline(always)]
    pub fn make_room<W: Wheel + Drop>(
        &mut self,
        facility: &Facility<W>,
        client: u64,
        number: u64,
        request: Request,
    ) -> Result<(), OutOfMemory>
        requires { facility.now.waiting ≡ [] }
        ensures list { self.new.list.items ≡ self.old.list.items }
        ensures room { OnOk result (MakesTimer facility.now.state client number (model_of request)
            → vec_len self.new.list < vec_capacity self.new.list) }
        ensures memory { OnErr result (MakesTimer facility.now.state client number (model_of request)) }
    {
        match self.list.reserve(1) {
            Err(_) if facility.makes_timer(client, number, request) => Err(OutOfMemory),
            _ => Ok(()),
        }
    }

    /// Adds the handle of an accepted start or restart. Room for it was reserved.
    pub fn record(&mut self, answer: Answer)
        requires { AddsHandle answer → vec_len self.old.list < vec_capacity self.old.list }
        ensures { self.new.list.items ≡ with_answer answer self.old.list.items }
    {
        match answer {
            Answer::Started { handle, .. } => self.list.push_reserved(handle),
            Answer::Restarted { handle, .. } => self.list.push_reserved(handle),
            Answer::Stopped { .. } | Answer::Refused(_) => {}
        }
    }

    /// Drops the handles of timers that are no longer pending, if there are many. Does not allocate.
    #[tactic(auto, using(crate::proofs::HandlesSwept::recorded_swept, crate::proofs::HandlesSwept::few_swept))]
    #[inline(always)]
    pub fn forget<W: Wheel + Drop>(&mut self, facility: &Facility<W>)
        requires { AreRecorded self.old.list.items facility.now.state }
        ensures recorded { AreRecorded self.new.list.items facility.now.state }
        ensures few { AreFew self.new.list.items facility.now.state }
    {
        let enough = 2 * facility.pending() + SPARE;
        if self.list.len() > enough {
            sweep(&mut self.list, facility);
        }
    }

    /// The handle of the pending timer with this serial.
    ///
    /// For any other serial it is a handle that no pending timer has.
    pub fn handle_of(&self, serial: u64) -> Handle
        requires { AreSorted self.now.list.items }
        ensures serial { result.serial ≡ serial }
        ensures place { (place : ℕ) → place_at serial self.now.list.items ≡ Some place
            → result.place ≡ place }
    {
        Handle {
            place: place_of(&self.list, serial).unwrap_or(0),
            serial,
        }
    }
}

/// The place under this serial, if it is found at its distance from the last one.
///
/// Each start and restart since the last sweep added one handle, and took the next serial. So it finds all of these.
#[inline(always)]
fn place_since_sweep(list: &[Handle], serial: u64) -> Option<usize>
    requires { AreSorted list.now }
    ensures { IfSome result (λ place. place_at serial list.now ≡ Some place) }
{
    let last = list.last()?;
    let behind = last.serial.wrapping_sub(serial);
    if behind >= list.len() as u64 {
        return None;
    }
    let i = list.len() - 1 - behind as usize;
    if list[i].serial == serial {
        Some(list[i].place)
    } else {
        None
    }
}

/// The place under this serial.
fn place_of(list: &[Handle], serial: u64) -> Option<usize>
    requires { AreSorted list.now }
    ensures { result ≡ place_at serial list.now }
{
    if let Some(place) = place_since_sweep(list, serial) {
        return Some(place);
    }
    match list.binary_search_by_key(&serial, |handle| handle.serial) {
        Ok(i) => Some(list[i].place),
        Err(_) => None,
    }
}

/// Drops the handles that no pending timer has.
#[inline(never)]
fn sweep<W: Wheel + Drop>(list: &mut Vec<Handle>, facility: &Facility<W>)
    ensures { list.new.items ≡ filter (is_pending facility.now.state) list.old.items }
{
    list.retain(|handle| facility.is_pending(*handle));
}
