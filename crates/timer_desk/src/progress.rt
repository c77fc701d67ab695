//! How far each client has come in a drive.
ghost use Rattle.std.specs.Prelude.{◌≡◌, ◌≤◌, ◌<◌, ℕ, false, length, get_or, IsTrue, IfOk, replicate, vec_len, ◌↔◌};
ghost use Rattle.timer_base.specs.declared.limits.TheConstants.{LAST};
ghost use Rattle.timer_desk.specs.Driver.{no_progress, IsDone, AllDone, HasCounted, AllCounted, all_left};
ghost use Rattle.timer_desk.specs.Report.{asked_in, flushed_in};

use crate::report::{Done, Served};
use std::alloc::{AllocError, Global};

/// How many requests of a client were served, and how many of its words were flushed, each counted up
/// to its goal.
#[derive(Clone, Copy)]
pub struct Progress {
    pub served: u64,
    pub flushed: u64,
}

impl Progress {
    ghost use Rattle.timer_desk.specs.Driver.{left_for};

    /// Whether `goal` requests were served, and twice as many words flushed.
    pub fn is_done(&self, goal: u64) -> bool
        requires { goal ≤ LAST }
        ensures { IsTrue result ↔ IsDone goal self.now }
    {
        self.served >= goal && self.flushed >= 2 * goal
    }

    /// Counts one more request, up to the goal, and returns whether it was counted.
    fn count_request(&mut self, goal: u64) -> bool
        requires { goal ≤ LAST }
        ensures counted { HasCounted goal 1 0 self.old self.new }
        ensures fewer { IsTrue result → left_for goal self.new < left_for goal self.old }
        ensures same { result ≡ false → self.new ≡ self.old }
    {
        if self.served >= goal {
            return false;
        }
        self.served += 1;
        true
    }

    /// Counts `count` more words, up to twice the goal, and returns whether any was counted.
    fn count_words(&mut self, count: usize, goal: u64) -> bool
        requires { goal ≤ LAST }
        ensures counted { HasCounted goal 0 count self.old self.new }
        ensures fewer { IsTrue result → left_for goal self.new < left_for goal self.old }
        ensures same { result ≡ false → self.new ≡ self.old }
    {
        if count == 0 || self.flushed >= 2 * goal {
            return false;
        }
        let left = 2 * goal - self.flushed;
        let more = count as u64;
        if more < left {
            self.flushed += more;
        } else {
            self.flushed = 2 * goal;
        }
        true
    }
}

/// No progress yet, for each of `clients` clients.
pub fn zeroed_progress(alloc: Global, clients: usize) -> Result<Vec<Progress>, AllocError>
    ensures { IfOk result (λ all. all.items ≡ replicate clients no_progress) }
{
    let none = Progress {
        served: 0,
        flushed: 0,
    };
    vec![in alloc; none; clients]
}

/// Whether each client is done.
pub fn all_done(all: &[Progress], goal: u64) -> bool
    requires { goal ≤ LAST }
    ensures { IsTrue result ↔ AllDone goal all.now }
{
    for progress in all {
        if !progress.is_done(goal) {
            return false;
        }
    }
    true
}

/// Counts one member of a report, and returns whether it is progress.
fn count_member(all: &mut Vec<Progress>, member: Done, goal: u64) -> bool
    requires { goal ≤ LAST }
    ensures counted { (c : ℕ) (p : Progress) → c < vec_len all.old
        → HasCounted goal (length (asked_in c member)) (flushed_in c member) (get_or all.old.items c p)
        (get_or all.new.items c p) }
    ensures len { vec_len all.new ≡ vec_len all.old }
    ensures fewer { IsTrue result → all_left goal all.new.items < all_left goal all.old.items }
    ensures same { result ≡ false → all.new.items ≡ all.old.items }
{
    match member {
        Done::Served {
            client,
            served: Served::Did { .. },
        } => {
            if client >= all.len() {
                return false;
            }
            all[client].count_request(goal)
        }
        Done::Flushed { client, count } => {
            if client >= all.len() {
                return false;
            }
            all[client].count_words(count, goal)
        }
        _ => false,
    }
}

/// Counts a report, and returns whether any of its members is progress.
pub fn count_report(all: &mut Vec<Progress>, report: &[Done], goal: u64) -> bool
    requires { goal ≤ LAST }
    ensures counted { AllCounted goal report.now all.old.items all.new.items }
    ensures len { vec_len all.new ≡ vec_len all.old }
    ensures fewer { IsTrue result → all_left goal all.new.items < all_left goal all.old.items }
    ensures same { result ≡ false → all.new.items ≡ all.old.items }
{
    let mut passed = false;
    for member in report {
        if count_member(all, *member, goal) {
            passed = true;
        }
    }
    passed
}
