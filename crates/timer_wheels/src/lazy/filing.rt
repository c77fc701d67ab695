//! One bucket of a lazy wheel is emptied.
//!
//! A timer that was pushed back stands in a bucket that is visited before its deadline. At that visit it is filed anew, as a
//! timer that is started then. What is due is gathered in a list of its own, in the order in which it stood in the bucket.
//! That list is sorted if an older timer comes after a newer one there, and goes to the list of due timers.
//!
//!     list 0 .. slots - 1    the buckets
//!     list slots             what becomes due, while a bucket is emptied
//!     34 lists               in which it is sorted
//!     list slots + 35        the due timers
ghost use Rattle.std.specs.Prelude.{◌≡◌, ◌+◌, ◌<◌, ◌≤◌, ℕ, [], length, IsTrue};
ghost use Rattle.std.specs.List.{AllByRecursion};
ghost use Rattle.timer_links.specs.Lists.{list_at};
ghost use Rattle.timer_wheels.specs.Digits.{slots};
ghost use Rattle.timer_wheels.specs.lazy.Filing.{EmptiesBucket};
ghost use Rattle.timer_wheels.specs.lazy.Merges.{AreSorted, Sorts};
ghost use Rattle.timer_wheels.specs.hier.Migration.{MayMigrate, migrated, left_rows};
ghost use Rattle.timer_wheels.specs.Occupied.{bit_of, AreMarked, AreMarkedBut};
ghost use Rattle.timer_wheels.specs.Tables.{radices};

use crate::lazy::sorts::sort;
use crate::occupied::Occupied;
use crate::table::{Table, bucket_of, buckets_of};
use crate::walks::{front_timer, second_timer};
use timer_links::{Kept, Links};

/// How many lists there are between the buckets and the due timers: one for what becomes due, and those in which it is
/// sorted.
pub const SPARE_LISTS: usize = 35;

/// What became of the timers of a bucket.
#[derive(Clone, Copy, Drop)]
struct Refiled {
    /// How many were filed anew.
    filed: u64,
    /// Whether those that are due stand in order of starting.
    is_sorted: bool,
}

/// Empties a bucket: what is due at this tick goes to the list of due timers, by serial, and each other timer to the back of
/// its bucket.
///
/// Returns how many were filed anew. Takes a step for each timer, and if they have to be sorted k log k steps for k that are
/// due. Does not allocate.
pub fn empty_bucket<N: Kept>(
    table: Table,
    links: &mut Links<N>,
    occupied: &mut Occupied,
    list: usize,
    tick: u64,
) -> u64
    requires lists { length links.old.lists ≡ slots (radices table) + 36 }
    requires list { list < slots (radices table) }
    requires rows { AllByRecursion (MayMigrate (radices table) tick list) (list_at list links.old.lists) }
    requires none { (s : ℕ) → slots (radices table) ≤ s → list_at s links.old.lists ≡ [] }
    requires marked { AreMarked (slots (radices table)) occupied.old links.old.lists }
    ensures emptied { EmptiesBucket (radices table) (slots (radices table) + 35) tick list links.old.lists
        links.new.lists }
    ensures filed { result ≡ length (left_rows tick (list_at list links.old.lists)) }
    ensures room { links.new.room ≡ links.old.room }
    ensures marked { AreMarked (slots (radices table)) occupied.new links.new.lists }
{
    occupied.remove(list);
    let gathered = buckets_of(table);
    let refiled = refile(table, links, occupied, list, tick);
    put_in_order(links, gathered, refiled.is_sorted);
    links.append(gathered, gathered + SPARE_LISTS);
    refiled.filed
}

/// Empties a bucket from its front, timer by timer: what is due at this tick is gathered in the list after the buckets.
///
/// Does not allocate.
fn refile<N: Kept>(
    table: Table,
    links: &mut Links<N>,
    occupied: &mut Occupied,
    list: usize,
    tick: u64,
) -> Refiled
    requires lists { slots (radices table) < length links.old.lists }
    requires list { list < slots (radices table) }
    requires rows { AllByRecursion (MayMigrate (radices table) tick list) (list_at list links.old.lists) }
    requires none { list_at (slots (radices table)) links.old.lists ≡ [] }
    requires clear { bit_of occupied.old list ≡ 0 }
    requires marked { AreMarkedBut (slots (radices table)) list occupied.old links.old.lists }
    ensures migrated { links.new.lists ≡ migrated (radices table) tick list links.old.lists }
    ensures filed { result.filed ≡ length (left_rows tick (list_at list links.old.lists)) }
    ensures room { links.new.room ≡ links.old.room }
    ensures sorted { IsTrue result.is_sorted → AreSorted 0 (list_at (slots (radices table)) links.new.lists) }
    ensures spare { (s : ℕ) → slots (radices table) < s → list_at s links.new.lists ≡ list_at s links.old.lists }
    ensures marked { AreMarked (slots (radices table)) occupied.new links.new.lists }
{
    let due = buckets_of(table);
    links.lemma_countable();
    let mut filed = 0;
    let mut newest = 0;
    let mut is_sorted = true;
    let mut next = front_timer(links, list);
    while let Some(timer) = next {
        // Read before this timer moves: its node is on its way from memory by then.
        next = second_timer(links, list);
        if timer.deadline == tick {
            links.move_front(list, due);
            is_sorted = stays_sorted(is_sorted, newest, timer.serial);
            newest = timer.serial;
        } else {
            let to = bucket_of(table, tick, timer.deadline);
            links.move_front(list, to);
            occupied.insert(to);
            filed += 1;
        }
    }
    Refiled { filed, is_sorted }
}

/// Whether serials that may be sorted are so with one more behind them.
#[inline(always)]
fn stays_sorted(is_sorted: bool, newest: u64, serial: u64) -> bool
    ensures { IsTrue result → IsTrue is_sorted × (newest ≤ serial) }
{
    is_sorted && newest <= serial
}

/// Puts a list in order of serials, if it isn't, in the 34 empty lists behind it.
fn put_in_order<N: Kept>(links: &mut Links<N>, list: usize, is_sorted: bool)
    requires spare { list + 35 ≤ length links.old.lists }
    requires few { list ≤ 65535 }
    requires none { (s : ℕ) → list < s → list_at s links.old.lists ≡ [] }
    requires sorted { IsTrue is_sorted → AreSorted 0 (list_at list links.old.lists) }
    ensures sorted { Sorts list links.old.lists links.new.lists }
    ensures room { links.new.room ≡ links.old.room }
{
    if !is_sorted {
        sort(links, list, list + 1);
    }
}
