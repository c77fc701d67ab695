//! The bucket that one tick of a hierarchy of wheels empties.
ghost use Rattle.std.specs.Prelude.{◌≡◌, ◌+◌, ◌<◌, length};
ghost use Rattle.std.specs.List.{AllByRecursion};
ghost use Rattle.timer_links.specs.Lists.{list_at};
ghost use Rattle.timer_wheels.specs.Digits.{slots, lowest_radix};
ghost use Rattle.timer_wheels.specs.hier.Migration.{MayMigrate, IsOfTick, migrated, left_rows, second_deadline};
ghost use Rattle.timer_wheels.specs.Occupied.{bit_of, AreMarked, AreMarkedBut};
ghost use Rattle.timer_wheels.specs.Tables.{radices};

use crate::occupied::Occupied;
use crate::table::{Table, bucket_of, buckets_of, lowest_slots, with_wide_table};
use crate::walks::front_deadline;
use timer_links::{Kept, Links};

/// Empties a bucket: a timer whose deadline is this tick goes to the back of the list of due timers, and
/// any other one to the back of its bucket in a lower wheel, one after the other.
///
/// A bucket of the lowest wheel has only timers of this tick, so it goes as a whole. Returns how
/// many timers went to a lower wheel. Does not allocate.
// Always inlined: most ticks find their bucket empty or move it as a whole, which is less work than a call.
#[inline(always)]
pub fn empty_bucket<N: Kept>(
    table: Table,
    links: &mut Links<N>,
    occupied: &mut Occupied,
    list: usize,
    tick: u64,
) -> u64
    requires lists { length links.old.lists ≡ slots (radices table) + 1 }
    requires list { list < slots (radices table) }
    requires rows { AllByRecursion (MayMigrate (radices table) tick list) (list_at list links.old.lists) }
    requires lowest { list < lowest_radix (radices table)
        → AllByRecursion (IsOfTick tick) (list_at list links.old.lists) }
    requires marked { AreMarked (slots (radices table)) occupied.old links.old.lists }
    ensures migrated { links.new.lists ≡ migrated (radices table) tick list links.old.lists }
    ensures room { links.new.room ≡ links.old.room }
    ensures moves { result ≡ length (left_rows tick (list_at list links.old.lists)) }
    ensures marked { AreMarked (slots (radices table)) occupied.new links.new.lists }
{
    if links.is_empty(list) {
        return 0;
    }
    occupied.remove(list);
    if list < lowest_slots(table) {
        links.append(list, buckets_of(table));
        0
    } else {
        migrate(table, links, occupied, list, tick)
    }
}

/// Empties a bucket of a higher wheel.
///
/// There is one loop for the wide table, in which all that depends on the table is constant, and one for the others.
// Kept out of line, since a tick seldom needs it.
#[inline(never)]
fn migrate<N: Kept>(
    table: Table,
    links: &mut Links<N>,
    occupied: &mut Occupied,
    list: usize,
    tick: u64,
) -> u64
    requires lists { length links.old.lists ≡ slots (radices table) + 1 }
    requires list { list < slots (radices table) }
    requires rows { AllByRecursion (MayMigrate (radices table) tick list) (list_at list links.old.lists) }
    requires clear { bit_of occupied.old list ≡ 0 }
    requires marked { AreMarkedBut (slots (radices table)) list occupied.old links.old.lists }
    ensures migrated { links.new.lists ≡ migrated (radices table) tick list links.old.lists }
    ensures room { links.new.room ≡ links.old.room }
    ensures moves { result ≡ length (left_rows tick (list_at list links.old.lists)) }
    ensures marked { AreMarked (slots (radices table)) occupied.new links.new.lists }
{
    with_wide_table!(migrate_one_by_one(table, links, occupied, list, tick))
}

/// Empties a bucket from its front, timer by timer, and returns how many went to a lower wheel.
// Inlined if the table is a constant.
#[inline(always)]
fn migrate_one_by_one<N: Kept>(
    table: Table,
    links: &mut Links<N>,
    occupied: &mut Occupied,
    list: usize,
    tick: u64,
) -> u64
    requires lists { length links.old.lists ≡ slots (radices table) + 1 }
    requires list { list < slots (radices table) }
    requires rows { AllByRecursion (MayMigrate (radices table) tick list) (list_at list links.old.lists) }
    requires clear { bit_of occupied.old list ≡ 0 }
    requires marked { AreMarkedBut (slots (radices table)) list occupied.old links.old.lists }
    ensures migrated { links.new.lists ≡ migrated (radices table) tick list links.old.lists }
    ensures room { links.new.room ≡ links.old.room }
    ensures moves { result ≡ length (left_rows tick (list_at list links.old.lists)) }
    ensures marked { AreMarked (slots (radices table)) occupied.new links.new.lists }
{
    let due = buckets_of(table);
    links.lemma_countable();
    let mut moves = 0;
    let mut ahead = front_deadline(links, list);
    while let Some(deadline) = ahead {
        // Read before this timer moves: its node is on its way from memory by then.
        ahead = next_deadline(links, list);
        if deadline == tick {
            links.move_front(list, due);
        } else {
            let to = bucket_of(table, tick, deadline);
            links.move_front(list, to);
            occupied.insert(to);
            moves += 1;
        }
    }
    moves
}

/// The deadline of the second timer of a list.
#[inline(always)]
fn next_deadline<N: Kept>(links: &Links<N>, list: usize) -> Option<u64>
    requires { list < length links.now.lists }
    ensures { result ≡ second_deadline (list_at list links.now.lists) }
{
    links.lemma_keys_unique();
    let first = links.front(list)?;
    let key = links.next(first)?;
    let node = links.get(key)?;
    Some(node.timer.deadline)
}
