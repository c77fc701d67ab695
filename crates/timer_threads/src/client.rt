//! One client at work: it sends its requests, and reads and checks its words.
//!
//! Request j, from 1 on, is a start with interval `1 + (j mod 97)` and action j. Answers have to come
//! by number and be `Started`; timers have to expire by deadline, then serial.
//!
//! Each turn is recorded, so that contracts can name what a client did and in which order. Only the functions here
//! write that record, and it has no bytes.
ghost use Rattle.std.specs.Prelude.{◌≡◌, ◌+◌, ◌<◌, ◌≤◌, ◌==◌, ◌||◌, ◌++◌, [], ℕ, false, true, is_some, IsNone, IfSome, option_to_list};
ghost use Rattle.timer_threads.specs.Types.{LAST, ClientEnd};
ghost use Rattle.timer_desk.specs.RingEnds.{line_of_end, next_of, submitted, received_by_end, seen_by_end};
ghost use Rattle.timer_threads.specs.Turns.{idle_at_end};
ghost use Rattle.timer_threads.specs.Work.{follows, AreClientTurns, AreLetGo, turns_of, IsOfLine, HasWorked};

use crate::client_turn::Turn;
use crate::gate::Gate;
use crate::log::Log;
use crate::outcome::Worked;
use timer_base::Timer;
use timer_desk::{ClientEnd, Numbered, Word};
use timer_facility::{Answer, Notice, Request};

/// A client at work.
#[derive(Drop)]
pub struct Client {
    end: ClientEnd,
    count: u64,
    // The number of its first request.
    first: u64,
    sent: u64,
    started: u64,
    expired: u64,
    // The timer that expired last.
    last: Option<Timer>,
    // Whether a check failed.
    failed: bool,
    // What it sent and received in each turn.
    turns: Log<Turn>,
}

/// What a client did: its turns, and its end as it was when it finished.
#[derive(Drop)]
pub struct History {
    turns: Log<Turn>,
    // One item.
    last: Log<ClientEnd>,
}

impl Client {
    ghost use Rattle.timer_threads.specs.Client.{is_complete, counted, KeepsToCount, IsAtWork, IsLogged, AddsTurn, turns_by, work_left, IsLess};

    /// A client that has sent and received nothing yet, of `count` requests.
    pub fn new(end: ClientEnd, count: u64) -> Client
        requires { count ≤ LAST }
        ensures count { result.count ≡ count }
        ensures sound { KeepsToCount result }
        ensures at_work { IsAtWork end result }
        ensures recorded { IsLogged end result }
        ensures none { turns_by result ≡ [] }
    {
        let first = end.next_number();
        Client {
            end,
            count,
            first,
            sent: 0,
            started: 0,
            expired: 0,
            last: None,
            failed: false,
            turns: Log::new(),
        }
    }

    /// Whether a check failed, or all was sent and received.
    pub fn is_over(&self) -> bool
        ensures { result ≡ self.now.failed || is_complete self.now }
    {
        self.failed || self.is_complete()
    }

    /// Whether all was sent and received.
    fn is_complete(&self) -> bool
        ensures { result ≡ is_complete self.now }
    {
        self.sent == self.count && self.started == self.count && self.expired == self.count
    }

    /// Takes a turn: sends a request if the gate lets it go, and reads a word. Returns whether one of the two was
    /// done.
    pub fn work_once<G: Gate>(&mut self, gate: &mut G) -> bool
        requires sound { KeepsToCount self.old }
        requires good { self.old.failed ≡ false }
        ensures sound { KeepsToCount self.new }
        ensures at_work { (start : ClientEnd) → IsAtWork start self.old → IsAtWork start self.new }
        ensures turn { AddsTurn result self.old self.new }
        ensures recorded { (start : ClientEnd) → IsLogged start self.old → IsLogged start self.new }
        ensures asked { (start : ClientEnd) → IsAtWork start self.old → IsLogged start self.old
            → AreLetGo G.lets_go (turns_by self.old) → AreLetGo G.lets_go (turns_by self.new) }
        ensures count { self.new.count ≡ self.old.count }
        ensures left { IsLess result (work_left self.old) (work_left self.new) }
    {
        let sent = self.send_next(gate);
        let received = self.read_next();
        let turn = Turn { sent, received };
        self.turns = self.turns.and(&turn);
        !turn.is_idle()
    }

    /// Sends the next request, and returns it if it went.
    fn send_next<G: Gate>(&mut self, gate: &mut G) -> Option<Numbered>
        requires sound { KeepsToCount self.old }
        requires good { self.old.failed ≡ false }
        ensures sound { KeepsToCount self.new }
        ensures good { self.new.failed ≡ false }
        ensures at_work { (start : ClientEnd) → IsAtWork start self.old → IsAtWork start self.new }
        ensures sends { submitted self.new.end ≡ submitted self.old.end ++ option_to_list result }
        ensures received { received_by_end self.new.end ≡ received_by_end self.old.end }
        ensures asked { IfSome result (λ request. G.lets_go request.number self.old.expired) }
        ensures same { (self.new.count ≡ self.old.count) × (self.new.turns ≡ self.old.turns) }
        ensures left { IsLess (is_some result) (work_left self.old) (work_left self.new) }
    {
        if self.sent >= self.count {
            return None;
        }
        if !gate.may_send(self.end.next_number(), self.expired) {
            return None;
        }
        let action = self.sent + 1;
        let request = Request::Start {
            interval: 1 + action % 97,
            action,
        };
        match self.end.submit(request) {
            Ok(number) => {
                self.sent = action;
                Some(Numbered { number, request })
            }
            Err(_) => None,
        }
    }

    /// Reads the next word, and returns it if one came.
    fn read_next(&mut self) -> Option<Word>
        requires sound { KeepsToCount self.old }
        requires good { self.old.failed ≡ false }
        ensures sound { KeepsToCount self.new }
        ensures at_work { (start : ClientEnd) → IsAtWork start self.old → IsAtWork start self.new }
        ensures receives { received_by_end self.new.end ≡ received_by_end self.old.end ++ option_to_list result }
        ensures none { IsNone result → seen_by_end self.old.end ≡ [] }
        ensures sent { submitted self.new.end ≡ submitted self.old.end }
        ensures same { (self.new.count ≡ self.old.count) × (self.new.turns ≡ self.old.turns) }
        ensures left { IsLess (is_some result) (work_left self.old) (work_left self.new) }
    {
        let Some(word) = self.end.receive() else {
            return None;
        };
        self.check(word);
        Some(word)
    }

    /// Counts and checks a word that was received.
    fn check(&mut self, word: Word)
        requires sound { KeepsToCount self.old }
        requires good { self.old.failed ≡ false }
        ensures sound { KeepsToCount self.new }
        ensures counted { self.new ≡ counted self.old word }
        ensures fewer { work_left self.new < work_left self.old }
    {
        match word {
            Word::Answered {
                number,
                answer: Answer::Started { .. },
                ..
            } => {
                self.failed = self.started >= self.count || !self.is_next(number);
                self.started += 1;
            }
            Word::Notice(Notice::Expired(timer)) => {
                self.failed = self.expired >= self.count || !self.is_after_last(&timer);
                self.expired += 1;
                self.last = Some(timer);
            }
            _ => self.failed = true,
        }
    }

    /// Whether this is the number of the request that is to be answered next.
    fn is_next(&self, number: u64) -> bool
        ensures { result ≡ (number == self.now.first + self.now.started) }
    {
        number >= self.first && number - self.first == self.started
    }

    /// Whether this timer is handed out after the one that expired last.
    fn is_after_last(&self, timer: &Timer) -> bool
        ensures { result ≡ follows self.now.last timer.now }
    {
        match &self.last {
            Some(last) => {
                last.deadline < timer.deadline
                    || (last.deadline == timer.deadline && last.serial < timer.serial)
            }
            None => true,
        }
    }

    /// Ends the work, after so many turns in a row in which it neither sent nor received.
    pub fn finish(self, idle: u64) -> Worked
        requires { KeepsToCount self }
        ensures line { (start : ClientEnd) → IsAtWork start self → IsOfLine (line_of_end start) result }
        ensures worked { (start : ClientEnd) (limit : ℕ) → IsAtWork start self → IsLogged start self
            → AreClientTurns (next_of start) self.count limit (turns_by self) → idle ≡ idle_at_end (turns_by self)
            → (self.failed || is_complete self ≡ false → idle ≡ limit) → HasWorked self.count limit start result }
        ensures turns { turns_of result ≡ turns_by self }
    {
        let failed = self.failed || !self.is_complete();
        let Client {
            end,
            sent,
            started,
            expired,
            turns,
            ..
        } = self;
        let last = Log::new().and(&end);
        let (ended, reader) = end.finish();
        Worked {
            ended,
            reader,
            sent,
            started,
            expired,
            failed,
            idle,
            history: History { turns, last },
        }
    }
}
