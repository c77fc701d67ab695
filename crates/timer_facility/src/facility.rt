//! The facility over any wheel: clients, their next numbers, and what waits to be handed out.
//!
//! A tick or a close leaves timers that wait to be handed out, and so does a start for a tick that has passed. The
//! owner takes them by `next_out` until none waits, and only then makes the next call. Expired timers stay in the
//! wheel, which hands them out by serial. A close moves the timers to a list of their own, and the wheel is empty
//! then.
ghost use Rattle.std.specs.Prelude.{◌≡◌, ◌<◌, ◌≤◌, ◌↔◌, [], length, slice_get, IsTrue, IfOk, OnErr, OnOk, vec_capacity};
ghost use Rattle.timer_facility.specs.Types.{Timer};
ghost use Rattle.timer_base.specs.WakeUps.{IsQuietUntil, next_deadline};
ghost use Rattle.timer_facility.specs.State.{IsSound, opened, pending_of};
ghost use Rattle.timer_facility.specs.Handles.{AreRecorded, is_pending};
ghost use Rattle.timer_facility.specs.Run.{bare_state};
ghost use Rattle.timer_facility.specs.Restored.{IsUnused, limits_of, restored};
ghost use Rattle.timer_facility.specs.Facility.{FacilityView, view_of, view_with_room_made, with_nothing_waiting, IsFacilityOver};

use crate::config::{CLIENTS, Checked};
use crate::restoring::{counts_of, numbers_of, start_all};
use crate::saved::SavedState;
use std::alloc::Global;
use std::marker::Model;
use timer_base::{Handle, OutOfMemory, Timer, Wheel};

mod answers;
mod dumps;
mod refusals;
mod waiting;

/// Clients, their numbered requests and their timers, over a wheel.
#[derive(Drop)]
pub struct Facility<W: Wheel + Drop> {
    wheel: W,
    clients: u64,
    capacity: u64,
    next_serial: u64,
    // The next request number of each client. Those from `clients` on are never read.
    numbers: [u64; CLIENTS],
    // How many timers of each client are pending or wait to be handed out.
    counts: [usize; CLIENTS],
    is_closed: bool,
    // Whether `reserve` made room for as many timers as the capacity, in the wheel and in `returned`.
    has_room: bool,
    // The timers that the close returns, in their order.
    returned: Vec<Timer>,
    // How many of `returned` were handed out.
    handed: usize,
}

impl<W: Wheel + Drop> Model for Facility<W> {
    ghost Value = { FacilityView };

    ghost view = { λ f. view_of (record {
      wheel = W.state f.wheel;
      clients = f.clients;
      capacity = f.capacity;
      next_serial = f.next_serial;
      numbers = f.numbers;
      counts = f.counts;
      is_closed = f.is_closed;
      has_room = f.has_room;
      returned = f.returned.items;
      handed = f.handed;
      list_room = vec_capacity f.returned;
    }) };

    ghost invariant = { λ f. IsFacilityOver W.keeps (record {
      wheel = W.state f.wheel;
      clients = f.clients;
      capacity = f.capacity;
      next_serial = f.next_serial;
      numbers = f.numbers;
      counts = f.counts;
      is_closed = f.is_closed;
      has_room = f.has_room;
      returned = f.returned.items;
      handed = f.handed;
      list_room = vec_capacity f.returned;
    }) };
}

impl<W: Wheel + Drop> Facility<W> {
    /// A facility with this configuration, over an empty wheel whose clock is at the first tick. The wheel must
    /// keep every timer whole, with its client and its number.
    ///
    /// Does not allocate; the list that a close returns will be allocated from `alloc`, by `reserve` or by the close.
    pub fn open(alloc: Global, checked: Checked, wheel: W) -> Facility<W>
        requires pending { (W.state wheel).pending ≡ [] }
        requires due { (W.state wheel).due ≡ [] }
        requires now { (W.state wheel).now ≡ checked.first_tick }
        requires serial { (W.state wheel).last_serial < checked.first_serial }
        requires keeps { (timer : Timer) → W.keeps timer }
        ensures { result ≡ with_nothing_waiting (opened checked (W.state wheel).last_tick
            (W.state wheel).layout) }
    {
        let config = checked.config();
        Facility {
            wheel,
            clients: config.clients,
            capacity: config.capacity,
            next_serial: config.first_serial,
            numbers: [config.first_number; CLIENTS],
            counts: [0; CLIENTS],
            is_closed: false,
            has_room: false,
            returned: Vec::new(alloc),
            handed: 0,
        }
    }

    /// A facility whose state is the one that was read from the lines of a dump, over an empty wheel whose clock is at
    /// its tick; and the handles of its timers, by serial. Clients of which the lines say nothing begin at the first number.
    ///
    /// The only error is out of memory. The first tick and the first serial of the configuration are not used.
    pub fn restore(
        alloc: Global,
        checked: Checked,
        wheel: W,
        saved: &SavedState,
    ) -> Result<(Facility<W>, Vec<Handle>), OutOfMemory>
        requires unused { IsUnused (W.state wheel) }
        requires now { (W.state wheel).now ≡ saved.now.saved.now }
        requires limits { saved.now.limits ≡ limits_of checked (W.state wheel).last_tick }
        requires keeps { (timer : Timer) → W.keeps timer }
        ensures state { IfOk result (λ r. bare_state r.0.state ≡ restored checked (W.state wheel).last_tick saved.now.saved) }
        ensures waiting { IfOk result (λ r. r.0.waiting ≡ []) }
        ensures handles { IfOk result (λ r. AreRecorded r.1.items r.0.state) }
        ensures few { IfOk result (λ r. length r.1.items ≡ length r.0.state.pending) }
    {
        let config = checked.config();
        let mut wheel = wheel;
        let mut handles = Vec::new(alloc);
        start_all(&mut wheel, saved, &mut handles)?;
        let facility = Facility {
            wheel,
            clients: config.clients,
            capacity: config.capacity,
            next_serial: saved.next_serial(),
            numbers: numbers_of(saved, config.first_number),
            counts: counts_of(saved),
            is_closed: saved.is_closed(),
            has_room: false,
            returned: Vec::new(alloc),
            handed: 0,
        };
        Ok((facility, handles))
    }

    /// Makes room for as many timers as the facility may hold, in the wheel and in the list that a close returns.
    ///
    /// The only error is out of memory, and then nothing changes. After it returned Ok, no `take` and no `close`
    /// returns `OutOfMemory`: only an accepted start and a close allocate, and a start beyond the capacity is
    /// refused. Over a wheel of this project no start or close allocates or copies a table later. So an owner
    /// who calls this right after `open` pays for memory there. A second call changes nothing.
    pub fn reserve(&mut self) -> Result<(), OutOfMemory>
        ensures ok { OnOk result (self.new ≡ view_with_room_made self.old) }
        ensures err { OnErr result (self.new ≡ self.old) }
    {
        let most = self.capacity as usize;
        self.returned
            .reserve_exact(most.saturating_sub(self.returned.len()))?;
        self.wheel.reserve(most)?;
        self.has_room = true;
        Ok(())
    }

    /// The present tick. Does not allocate.
    pub fn now(&self) -> u64
        ensures now { result ≡ self.now.state.now }
        ensures sound { IsSound self.now.state }
    {
        self.wheel.now()
    }

    /// The invariant of every facility, on which the lemmas on `owed` rest. The call does nothing.
    pub fn lemma_sound(&self)
        ensures { IsSound self.now.state }
    {
        let _ = self.wheel.now();
    }

    /// The wheel that it stands on, which has the same clock and the same pending timers. While none waits to be
    /// handed out, no timer of the wheel is due. Does not allocate.
    pub fn wheel(&self) -> &W
        ensures now { (W.state result.now).now ≡ self.now.state.now }
        ensures pending { (W.state result.now).pending ≡ self.now.state.pending }
        ensures due { self.now.waiting ≡ [] → (W.state result.now).due ≡ [] }
        ensures last { (W.state result.now).last_tick ≡ self.now.state.last }
        ensures layout { (W.state result.now).layout ≡ self.now.state.layout }
    {
        &self.wheel
    }

    /// How many timers are pending. Those that wait to be handed out are not counted.
    ///
    /// A wheel may count the expired timers that wait one by one, so this is O(1) only if none waits.
    /// Does not allocate.
    pub fn pending(&self) -> usize
        ensures pending { result ≡ length self.now.state.pending }
        ensures sound { IsSound self.now.state }
    {
        self.wheel.len()
    }

    /// How many timers of this client are pending. It is 0 if there is no such client.
    ///
    /// No timer may wait to be handed out. Does not allocate.
    pub fn pending_of(&self, client: u64) -> usize
        requires { self.now.waiting ≡ [] }
        ensures value { result ≡ pending_of self.now.state client }
        ensures none { length self.now.state.numbers ≤ client → result ≡ 0 }
    {
        if client >= self.clients {
            return 0;
        }
        self.counts[client as usize]
    }

    /// Whether a pending timer has exactly this handle, place and serial. Does not allocate.
    pub fn is_pending(&self, handle: Handle) -> bool
        ensures { result ≡ is_pending self.now.state handle }
    {
        match self.wheel.look(handle) {
            // One that waits to be handed out is found too, and its deadline is the present tick.
            Some(timer) => timer.deadline > self.wheel.now(),
            None => false,
        }
    }

    /// Whether the facility is closed. Does not allocate.
    pub fn is_closed(&self) -> bool
        ensures { IsTrue result ↔ IsTrue self.now.state.is_closed }
    {
        self.is_closed
    }

    /// Whether a timer waits to be handed out. Does not allocate.
    pub fn has_out(&self) -> bool
        ensures { IsTrue result ↔ (0 < length self.now.waiting) }
    {
        self.wheel.has_due() || self.handed < self.returned.len()
    }

    /// The serial that the next accepted start or restart gets, or `LAST` + 1 if all are used up.
    /// Does not allocate.
    pub fn next_serial(&self) -> u64
        ensures { result ≡ self.now.state.next_serial }
    {
        self.next_serial
    }

    /// The client's next request number, or None if there is no such client.
    ///
    /// It is `LAST` + 1 if the client has used up its numbers. Does not allocate.
    pub fn next_number(&self, client: u64) -> Option<u64>
        ensures { result ≡ slice_get self.now.state.numbers client }
    {
        if client < self.clients {
            Some(self.numbers[client as usize])
        } else {
            None
        }
    }

    /// Returns a tick until which nothing is handed out, or None exactly if nothing is pending.
    ///
    /// It is after the present tick and at most the first pending deadline, so an owner sleeps until
    /// then, calls `ticks`, and calls this again. The wheel's `wakes` says which tick it is. Timers that wait to
    /// be handed out do not count. Does not allocate.
    pub fn quiet_until(&self) -> Option<u64>
        ensures quiet { IsQuietUntil result self.now.state.now self.now.state.pending }
        ensures wakes { W.wakes self.now.state.layout self.now.state.now self.now.state.pending result }
    {
        self.wheel.quiet_until()
    }

    /// The first pending deadline, or None exactly if nothing is pending.
    ///
    /// It is exact, while `quiet_until` may be early, and the wheel may walk timers to find it. Timers that
    /// wait to be handed out do not count. Does not allocate.
    pub fn next_deadline(&self) -> Option<u64>
        ensures { result ≡ next_deadline self.now.state.pending }
    {
        self.wheel.next_deadline()
    }
}
