//! Why a facility refuses a request or a tick. Nothing is changed here.
ghost use Rattle.std.specs.Prelude.{◌≡◌, true, None, Some, is_some, ℕ, ◌<◌, ◌↔◌, [], OnOk, MatchResult};
ghost use Rattle.timer_facility.specs.Types.{MAX_CLIENTS};
ghost use Rattle.timer_facility.specs.State.{At, ByHandle, ticks_until};
ghost use Rattle.timer_facility.specs.Verdict.{not_taken, timer_named, start_refusal, restart_refusal, interval_refusal, refusal, tick_refusal, verdict};
ghost use Rattle.timer_facility.specs.Step.{timer_started};
ghost use Rattle.timer_facility.specs.Facility.{model_of, MakesTimer};

use crate::facility::Facility;
use crate::request::{NotTaken, Reason, Request, TickFault};
use timer_base::{Handle, LAST, Timer, Wheel};

impl<W: Wheel + Drop> Facility<W> {
    /// Whether a request under this number is taken.
    #[tactic(auto, using(crate::proofs::FacilityFields::agrees), unfolding(crate::specs::Verdict::not_taken))]
    pub(crate) fn admit(&self, client: u64, number: u64) -> Result<(), NotTaken>
        ensures verdict { MatchResult result
            (λ _. not_taken self.now.state client number ≡ None)
            (λ reason. not_taken self.now.state client number ≡ Some reason) }
        ensures client { OnOk result (client < MAX_CLIENTS) }
    {
        if self.is_closed {
            return Err(NotTaken::Closed);
        }
        if client >= self.clients {
            return Err(NotTaken::NoClient);
        }
        let next = self.numbers[client as usize];
        if number < next {
            return Err(NotTaken::Repeated { next });
        }
        if next > LAST {
            return Err(NotTaken::NumbersSpent);
        }
        if number > next {
            return Err(NotTaken::Ahead { next });
        }
        Ok(())
    }

    /// Whether a request makes a timer: it would be taken, and it is a start or a restart that would be accepted.
    pub(crate) fn makes_timer(&self, client: u64, number: u64, request: Request) -> bool
        requires { self.now.waiting ≡ [] }
        ensures { result ≡ true ↔ MakesTimer self.now.state client number (model_of request) }
    {
        match self.admit(client, number) {
            Ok(()) => self.accepts_timer(client, request),
            Err(_) => false,
        }
    }

    /// Whether a request that is taken is a start or a restart, and accepted.
    fn accepts_timer(&self, client: u64, request: Request) -> bool
        requires { self.now.waiting ≡ [] }
        ensures { (number : ℕ) → result ≡ true ↔ ((refusal self.now.state client (model_of request) ≡ None)
            × (is_some (timer_started self.now.state client number (model_of request)) ≡ true)) }
    {
        match request {
            Request::Start { interval, .. } => self.start_refusal(interval).is_none(),
            Request::StartAt { deadline, .. } => self
                .start_refusal(self.ticks_until(deadline).max(1))
                .is_none(),
            Request::Stop(_) => false,
            Request::Restart {
                handle,
                interval,
                ..
            } => self.accepts_restart(client, handle, interval),
            Request::RestartAt {
                handle,
                deadline,
                ..
            } => self.accepts_restart(client, handle, self.ticks_until(deadline).max(1)),
        }
    }

    /// Whether a restart of this timer with this interval is accepted.
    fn accepts_restart(&self, client: u64, handle: Handle, interval: u64) -> bool
        requires { self.now.waiting ≡ [] }
        ensures { result ≡ true ↔ (restart_refusal self.now.state client (ByHandle handle) interval ≡ None) }
    {
        self.find_named(client, handle).is_some() && self.interval_refusal(interval).is_none()
    }

    /// Why a start with this interval is refused, if it is refused.
    #[tactic(auto, using(crate::proofs::FacilityFields::agrees), unfolding(crate::specs::Verdict::room_refusal))]
    pub(crate) fn start_refusal(&self, interval: u64) -> Option<Reason>
        ensures { result ≡ start_refusal self.now.state interval }
    {
        if let Some(reason) = self.interval_refusal(interval) {
            return Some(reason);
        }
        if self.wheel.len() as u64 == self.capacity {
            return Some(Reason::Full);
        }
        None
    }

    /// Why no timer can be started now with this interval, whether or not there is room for one.
    #[tactic(auto, using(crate::proofs::FacilityFields::agrees), unfolding(crate::specs::Verdict::interval_refusal))]
    pub(crate) fn interval_refusal(&self, interval: u64) -> Option<Reason>
        ensures { result ≡ interval_refusal self.now.state interval }
    {
        if interval == 0 {
            return Some(Reason::ZeroInterval);
        }
        if interval > self.wheel.last_tick() - self.wheel.now() {
            return Some(Reason::TooLate);
        }
        if self.next_serial > LAST {
            return Some(Reason::SerialsSpent);
        }
        None
    }

    /// Why a tick is refused now, if it is refused.
    #[tactic(auto, using(crate::proofs::FacilityFields::agrees), unfolding(crate::specs::Verdict::tick_refusal))]
    pub(crate) fn tick_refusal(&self) -> Option<TickFault>
        ensures { result ≡ tick_refusal self.now.state }
    {
        if self.is_closed {
            return Some(TickFault::Closed);
        }
        if self.wheel.now() == self.wheel.last_tick() {
            return Some(TickFault::ClockEnd);
        }
        None
    }

    /// How many ticks are left until a deadline.
    pub(crate) fn ticks_until(&self, deadline: u64) -> u64
        ensures { result ≡ ticks_until self.now.state (At deadline) }
    {
        deadline.saturating_sub(self.wheel.now())
    }

    /// The pending timer of this client with exactly this handle, place and serial. No timer may wait to be handed
    /// out. Does not allocate.
    pub fn find_named(&self, client: u64, handle: Handle) -> Option<Timer>
        requires { self.now.waiting ≡ [] }
        ensures { result ≡ timer_named self.now.state client (ByHandle handle) }
    {
        let timer = self.wheel.look(handle)?;
        if timer.client == client {
            Some(timer)
        } else {
            None
        }
    }
}
