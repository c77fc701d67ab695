//! Whole revolutions of a hashed wheel in which nothing is due.
//!
//! A revolution passes each slot once, and takes one round from each timer. If every timer has some rounds
//! left, the clock can skip as many revolutions at once: nothing is due in them, and each timer stays where
//! it stands.
//!
//!     N = 8, at tick 3, one timer for tick 1,000,000 (written serial:rounds, from the front)
//!                                     bucket 0
//!     at tick 3                       1:124999
//!     124,999 revolutions later, at
//!     tick 999,995                    1:0
//!
//! The fewest rounds are found by a walk along all lists, so it pays only after a revolution in which
//! nothing was due: by then each list was walked at least once.
ghost use Rattle.std.specs.Prelude.{◌≡◌, ◌-◌, ◌+◌, ◌%◌, ◌<◌, ◌≤◌, ℕ, [], length, map, slice_set};
ghost use Rattle.std.specs.List.{AllByRecursion};
ghost use Rattle.timer_base.specs.Pending.{AreAfter};
ghost use Rattle.timer_links.specs.Lists.{list_at};
ghost use Rattle.timer_wheels.specs.BucketLists.{AreInOrder};
ghost use Rattle.timer_wheels.specs.Buckets.{state_of};
ghost use Rattle.timer_wheels.specs.hashed.Hashed.{AreInBuckets};
ghost use Rattle.timer_wheels.specs.hashed.Sweep.{HasRoundsLeft, with_fewer_rounds};

use crate::buckets::Buckets;
use timer_links::Links;

/// Skips as many whole revolutions as `most` ticks have room for and nothing is due in, and returns how many
/// ticks they are. Does not allocate.
pub fn skip_revolutions(buckets: &mut Buckets, most: u64) -> u64
    requires nothing_due { (state_of buckets.old).due ≡ [] }
    requires before_last { most ≤ buckets.old.last_tick - buckets.old.tick }
    requires has_slots { 0 < buckets.old.slots }
    requires in_buckets { AreInBuckets buckets.old.slots buckets.old.tick buckets.old.links.lists }
    requires in_order { AreInOrder buckets.old.slots buckets.old.links.lists }
    ensures at_most { result ≤ most }
    ensures skipped { state_of buckets.new ≡ record (state_of buckets.old) {
      now =
          buckets.old.tick + result;
    } }
    ensures quiet { AreAfter (buckets.old.tick + result) (state_of buckets.old).pending }
    ensures tick { buckets.new.tick ≡ buckets.old.tick + result }
    ensures same_slot { buckets.new.tick % buckets.old.slots ≡ buckets.old.tick % buckets.old.slots }
    ensures last_tick { buckets.new.last_tick ≡ buckets.old.last_tick }
    ensures slots { buckets.new.slots ≡ buckets.old.slots }
    ensures in_buckets { AreInBuckets buckets.new.slots buckets.new.tick buckets.new.links.lists }
    ensures in_order { AreInOrder buckets.new.slots buckets.new.links.lists }
{
    let slots = buckets.slots;
    let revolution = slots as u64;
    // Without this, each jump that ends within a revolution would walk along all slots and timers.
    if most < revolution {
        return 0;
    }
    let revolutions = fewest_rounds(&buckets.links, slots, most / revolution);
    if revolutions == 0 {
        return 0;
    }
    let ticks = revolutions * revolution;
    count_down_lists(&mut buckets.links, slots, revolutions);
    buckets.tick += ticks;
    ticks
}

/// The fewest rounds of a timer in the first `count` lists, or `most` if each has more.
fn fewest_rounds(links: &Links, count: usize, most: u64) -> u64
    requires { count ≤ length links.now.lists }
    ensures at_most { result ≤ most }
    ensures fewest { (s : ℕ) → s < count → AllByRecursion (HasRoundsLeft result) (list_at s links.now.lists) }
{
    let mut fewest = most;
    for list in 0..count {
        fewest = fewest_in_list(links, list, fewest);
    }
    fewest
}

/// The fewest rounds of a timer in one list, or `most` if each has more.
fn fewest_in_list(links: &Links, list: usize, most: u64) -> u64
    requires { list < length links.now.lists }
    ensures at_most { result ≤ most }
    ensures fewest { AllByRecursion (HasRoundsLeft result) (list_at list links.now.lists) }
{
    let mut fewest = most;
    let mut at = links.front(list);
    for step in 0..links.len() {
        let Some(key) = at else {
            break;
        };
        links.lemma_keys_unique();
        let here = links.step(key);
        fewest = fewest.min(here.rounds);
        at = here.next;
    }
    fewest
}

/// Takes rounds from each timer of the first `count` lists.
fn count_down_lists(links: &mut Links, count: usize, rounds: u64)
    requires count { count ≤ length links.old.lists }
    requires enough { (s : ℕ) → s < count
        → AllByRecursion (HasRoundsLeft rounds) (list_at s links.old.lists) }
    ensures length { length links.new.lists ≡ length links.old.lists }
    ensures counted { (s : ℕ) → s < count → list_at s links.new.lists
        ≡ map (with_fewer_rounds rounds) (list_at s links.old.lists) }
    ensures others { (s : ℕ) → count ≤ s → list_at s links.new.lists ≡ list_at s links.old.lists }
    ensures room { links.new.room ≡ links.old.room }
{
    for list in 0..count {
        count_down_list(links, list, rounds);
    }
}

/// Takes rounds from each timer of one list.
fn count_down_list(links: &mut Links, list: usize, rounds: u64)
    requires list { list < length links.old.lists }
    requires enough { AllByRecursion (HasRoundsLeft rounds) (list_at list links.old.lists) }
    ensures counted { links.new.lists
        ≡ slice_set links.old.lists list (map (with_fewer_rounds rounds) (list_at list links.old.lists)) }
    ensures room { links.new.room ≡ links.old.room }
{
    let mut at = links.front(list);
    for step in 0..links.len() {
        let Some(key) = at else {
            break;
        };
        links.lemma_keys_unique();
        let here = links.step(key);
        links.set_rounds(key, here.rounds - rounds);
        at = here.next;
    }
}
