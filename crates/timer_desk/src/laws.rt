//! Lemmas about reports and drives. Each of these functions does nothing: its contract is the lemma.
ghost use Rattle.std.specs.Prelude.{◌≡◌, ◌≢◌, ◌+◌, ◌<◌, ◌≤◌, ℕ, Bool, false, List, [], ◌∷◌, ◌++◌, length, get_or, count_by};
ghost use Rattle.timer_desk.specs.Types.{DriveEnd, Done, Served};
ghost use Rattle.timer_desk.specs.declared.driver.DriveEnd.TheVariants as DriveEnds;
ghost use Rattle.timer_desk.specs.declared.report.Served.TheVariants.{NoRoom};
ghost use Rattle.timer_facility.specs.State.{FacilityState, IsSound};
ghost use Rattle.timer_desk.specs.Backlog.{BacklogState};
ghost use Rattle.timer_desk.specs.Desk.{DeskState, clients_of, account_at, ReportHolds, NoticesFollow, AreOwed};
ghost use Rattle.timer_desk.specs.Laws.{HasNoticesInTime, RespectsRoom, timers_kept, requests_unanswered};
ghost use Rattle.timer_desk.specs.Member.{IsServe};
ghost use Rattle.timer_desk.specs.Driver.{Drives, HasUnfinishedClient, is_flush_of, joined};
ghost use Rattle.timer_desk.specs.Report.{asked, Account, ClientAccount, Runs, steps_of};

use crate::inlet::Inlet;
use timer_facility::laws::notices_are_owed;

/// The reports of two consecutive turns, joined, are one report.
#[tactic(auto, using(crate::proofs::Members::joined_reports))]
pub fn reports_join<I: Inlet>()
    ensures { (report next : List Done) (first second third : DeskState I)
        → ReportHolds I.kind report first second
        → ReportHolds I.kind next second third
        → ReportHolds I.kind (report ++ next) first third }
{}

/// What a report says of each client, and of the facility: it made a run over the report's events. Each notice
/// comes after its tick, its close or the request that started its timer.
pub fn a_report_accounts_for_all<I: Inlet>()
    ensures clients { (report : List Done) (first second : DeskState I) → ReportHolds I.kind report first second
        → (c : ℕ) (i : I) (b : BacklogState) → c < clients_of first
        → ClientAccount c report (account_at I.kind first c i b) (account_at I.kind second c i b) }
    ensures facility { (report : List Done) (first second : DeskState I) → ReportHolds I.kind report first second
        → Runs report first.facility second.facility }
    ensures notices { (report : List Done) (first second : DeskState I) → ReportHolds I.kind report first second
        → NoticesFollow false report }
    ensures owed { (report : List Done) (first second : DeskState I) → ReportHolds I.kind report first second
        → IsSound first.facility → AreOwed first.facility report }
{
    notices_are_owed();
}

/// What a report says of each of its members by those before it: no notice is late or early, and a serve accords
/// with the room of its client's outbox.
pub fn each_member_accords_with_those_before<I: Inlet>()
    ensures in_time { (past later : List Done) (done : Done) (first second : DeskState I)
        → ReportHolds I.kind (past ++ done ∷ later) first second → HasNoticesInTime first.facility past done }
    ensures room { (past later : List Done) (done : Done) (first second : DeskState I)
        → ReportHolds I.kind (past ++ done ∷ later) first second
        → (c : ℕ) (i : I) (b : BacklogState) → c < clients_of first
        → RespectsRoom I.kind.take_may_refuse c first.facility (account_at I.kind first c i b)
        (account_at I.kind second c i b) past done later }
{}

/// A room of k + q + 1 words holds back no request of a client that keeps at most k timers and has at most q requests
/// without an answer. With one word less each request of one that has as many is held back.
pub fn a_room_for_all_is_enough()
    ensures enough { (k q c : ℕ) (may_refuse : Bool) (s : FacilityState) (a b : Account) (served : Served)
        → timers_kept c s a.backlog ≤ k → requests_unanswered a.backlog ≤ q → k + q + 1 ≤ a.backlog.room
        → IsServe may_refuse c s a served b → served ≢ NoRoom }
    ensures least { (k q c : ℕ) (may_refuse : Bool) (s : FacilityState) (a b : Account) (served : Served)
        → timers_kept c s a.backlog ≡ k → requests_unanswered a.backlog ≡ q → a.backlog.room ≤ k + q
        → IsServe may_refuse c s a served b → served ≡ NoRoom }
{}

/// A drive does at most `goal` requests of each client, and flushes each
/// client once a turn. If its limit, above 0, ended it, some client has not reached the goal.
pub fn a_drive_keeps_to_its_goal<I: Inlet>()
    ensures most { (goal limit : ℕ) (first second : DeskState I) (outcome : DriveEnd)
        → (d : Drives I.kind goal limit first second outcome)
        → (c : ℕ) → length (asked c (joined d.turns)) ≤ goal }
    ensures once { (goal limit : ℕ) (first second : DeskState I) (outcome : DriveEnd)
        → (d : Drives I.kind goal limit first second outcome)
        → (k c : ℕ) → k < length d.turns → c < clients_of first
        → count_by (is_flush_of c) (steps_of (get_or d.turns k [])) ≡ 1 }
    ensures short { (goal limit : ℕ) (first second : DeskState I)
        → (d : Drives I.kind goal limit first second DriveEnds.Limit) → 0 < limit
        → HasUnfinishedClient goal (clients_of first) (joined d.turns) }
{}
