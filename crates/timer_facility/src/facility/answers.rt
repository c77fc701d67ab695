//! The answers to requests: starts, stops and restarts.
ghost use Rattle.std.specs.Prelude.{◌≡◌, false, None, Some, ℕ, ◌+◌, ◌<◌, ◌≤◌, [], length, IfOk, OnErr, MatchResult};
ghost use Rattle.timer_facility.specs.Types.{LAST};
ghost use Rattle.timer_facility.specs.State.{ByHandle, Stop};
ghost use Rattle.timer_facility.specs.Verdict.{timer_named, start_refusal, restart_refusal, refusal};
ghost use Rattle.timer_facility.specs.Step.{new_timer};
ghost use Rattle.timer_facility.specs.Facility.{IsTaken, IsNotTaken, model_of, is_for_a_tick, IsStart, IsAnswered, HasAnswered};

use crate::facility::Facility;
use crate::facility::waiting::count_one_less;
use crate::request::{Answer, NotTaken, Reason, Request};
use timer_base::{Handle, LAST, OutOfMemory, Timer, Wheel};

impl<W: Wheel + Drop> Facility<W> {
    /// Takes a request under a number. Refusals are tested in the order of `NotTaken`, then of
    /// `Reason` as it says, and memory comes last.
    ///
    /// A request that is not taken changes nothing. One that is refused with a `Reason` uses up its
    /// number and nothing else. Only an accepted start allocates, and after a `reserve` that returned Ok none
    /// is out of memory. The place in a `Started` or `Restarted` is a free choice of the wheel. No timer may
    /// wait to be handed out. Afterwards one waits exactly if it was started for a tick that has passed, by `StartAt`
    /// or `RestartAt`.
    #[tactic(auto, using(crate::proofs::VerdictLemmas::takable))]
    #[inline(always)]
    pub fn take(&mut self, client: u64, number: u64, request: Request) -> Result<Answer, NotTaken>
        requires { self.old.waiting ≡ [] }
        ensures taken { MatchResult result
            (λ answer. IsTaken self.old.state client number request answer self.new)
            (λ reason. IsNotTaken self.old client number request reason self.new) }
        ensures quiet { is_for_a_tick request ≡ false → self.new.waiting ≡ [] }
    {
        if let Err(reason) = self.admit(client, number) {
            return Err(reason);
        }
        let Ok(answer) = self.answer(client, number, request) else {
            return Err(NotTaken::OutOfMemory);
        };
        self.numbers[client as usize] = number + 1;
        Ok(answer)
    }

    /// Answers a request that is taken, and does what is accepted of it. Its number is not used up yet.
    ///
    /// The only error is out of memory, and then nothing changes.
    #[inline(always)]
    fn answer(&mut self, client: u64, number: u64, request: Request) -> Result<Answer, OutOfMemory>
        requires waiting { self.old.waiting ≡ [] }
        requires client { client < length self.old.state.numbers }
        ensures answered { IfOk result (λ answer.
            HasAnswered self.old.state client number (model_of request) answer self.new) }
        ensures start { OnErr result (IsStart (model_of request)) }
        ensures accepted { OnErr result (refusal self.old.state client (model_of request) ≡ None) }
        ensures room { OnErr result (self.old.state.has_room ≡ false) }
        ensures err { OnErr result (self.new ≡ self.old) }
    {
        match request {
            Request::Start { interval, action } => self.take_start(
                client, number, interval, interval, action,
            ),
            Request::StartAt { deadline, action } => {
                let left = self.ticks_until(deadline);
                self.take_start(client, number, left.max(1), left, action)
            }
            Request::Stop(handle) => Ok(self.take_stop(client, handle)),
            Request::Restart {
                handle,
                interval,
                action,
            } => Ok(self.restart(client, number, handle, interval, interval, action)),
            Request::RestartAt {
                handle,
                deadline,
                action,
            } => {
                let left = self.ticks_until(deadline);
                Ok(self.restart(client, number, handle, left.max(1), left, action))
            }
        }
    }

    /// A start that is taken, of a timer that is due in `left` ticks. It is tested as one with `interval`, which
    /// is `left`, or 1 if the deadline has passed.
    #[inline(always)]
    fn take_start(
        &mut self,
        client: u64,
        number: u64,
        interval: u64,
        left: u64,
        action: u64,
    ) -> Result<Answer, OutOfMemory>
        requires waiting { self.old.waiting ≡ [] }
        requires client { client < length self.old.state.numbers }
        requires left { left ≤ interval }
        ensures answered { IfOk result (λ answer. IsAnswered (start_refusal self.old.state interval) None
            (Some (new_timer self.old.state client number left action)) self.old.state answer self.new) }
        ensures accepted { OnErr result (start_refusal self.old.state interval ≡ None) }
        ensures room { OnErr result (self.old.state.has_room ≡ false) }
        ensures err { OnErr result (self.new ≡ self.old) }
    {
        if let Some(reason) = self.start_refusal(interval) {
            return Ok(Answer::Refused(reason));
        }
        let timer = self.new_timer(client, number, left, action);
        let Ok(handle) = self.wheel.start(timer) else {
            return Err(OutOfMemory);
        };
        self.next_serial += 1;
        self.counts[client as usize] += 1;
        Ok(Answer::Started {
            handle,
            deadline: timer.deadline,
        })
    }

    /// A stop that is taken.
    #[inline(always)]
    fn take_stop(&mut self, client: u64, handle: Handle) -> Answer
        requires { self.old.waiting ≡ [] }
        ensures { (number : ℕ)
            → HasAnswered self.old.state client number (Stop (ByHandle handle)) result self.new }
    {
        match self.find_named(client, handle) {
            None => Answer::Refused(Reason::NoSuch),
            Some(timer) => {
                let _ = self.wheel.stop(handle);
                count_one_less(&mut self.counts, client);
                Answer::Stopped {
                    serial: timer.serial,
                }
            }
        }
    }

    /// As `take_restart`. Inlined, it has the memory of the answer for itself, so that no start clears it.
    #[inline(always)]
    fn restart(
        &mut self,
        client: u64,
        number: u64,
        handle: Handle,
        interval: u64,
        left: u64,
        action: u64,
    ) -> Answer
        requires waiting { self.old.waiting ≡ [] }
        requires left { left ≤ interval }
        ensures { IsAnswered (restart_refusal self.old.state client (ByHandle handle) interval)
            (timer_named self.old.state client (ByHandle handle))
            (Some (new_timer self.old.state client number left action)) self.old.state result self.new }
    {
        self.take_restart(client, number, handle, interval, left, action)
    }

    /// A restart that is taken. `interval` and `left` are as in a start. Does not allocate.
    fn take_restart(
        &mut self,
        client: u64,
        number: u64,
        handle: Handle,
        interval: u64,
        left: u64,
        action: u64,
    ) -> Answer
        requires waiting { self.old.waiting ≡ [] }
        requires left { left ≤ interval }
        ensures { IsAnswered (restart_refusal self.old.state client (ByHandle handle) interval)
            (timer_named self.old.state client (ByHandle handle))
            (Some (new_timer self.old.state client number left action)) self.old.state result self.new }
    {
        let Some(old) = self.find_named(client, handle) else {
            return Answer::Refused(Reason::NoSuch);
        };
        if let Some(reason) = self.interval_refusal(interval) {
            return Answer::Refused(reason);
        }
        let timer = self.new_timer(client, number, left, action);
        let Some((handle, _)) = self.wheel.restart(handle, timer) else {
            unreachable!()
        };
        self.next_serial += 1;
        Answer::Restarted {
            handle,
            deadline: timer.deadline,
            old: old.serial,
        }
    }

    /// The timer of a start that is due in `left` ticks.
    #[tactic(auto, using(crate::proofs::FacilityFields::agrees))]
    fn new_timer(&self, client: u64, number: u64, left: u64, action: u64) -> Timer
        requires { self.now.state.now + left ≤ LAST }
        ensures { result ≡ new_timer self.now.state client number left action }
    {
        Timer {
            serial: self.next_serial,
            client,
            number,
            deadline: self.wheel.now() + left,
            action,
        }
    }
}
