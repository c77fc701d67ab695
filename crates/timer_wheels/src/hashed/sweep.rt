//! One tick of a hashed wheel, and the bucket that it sweeps.
ghost use Rattle.std.specs.Prelude.{◌≡◌, ◌≢◌, ◌<◌, ◌≤◌, ◌+◌, ◌-◌, ◌%◌, [], Some, IsSome, length};
ghost use Rattle.std.specs.Option.{IfSome};
ghost use Rattle.timer_base.specs.WakeUps.{IsQuietUntil};
ghost use Rattle.timer_base.specs.WheelState.{after_tick};
ghost use Rattle.timer_links.specs.Lists.{node_at, moved_back, HasRounds, SetsRounds};
ghost use Rattle.timer_links.specs.declared.kept.Node.{Node};
ghost use Rattle.timer_wheels.specs.BucketLists.{AreInOrder};
ghost use Rattle.timer_wheels.specs.Buckets.{state_of};
ghost use Rattle.timer_wheels.specs.hashed.Hashed.{AreInBuckets, IsNextSweep};
ghost use Rattle.timer_wheels.specs.hashed.Sweep.{swept};

use crate::buckets::Buckets;
use timer_links::Links;

/// The slot `steps` ahead, at most one revolution.
#[inline]
pub fn slot_after(slot: usize, steps: usize, slots: usize) -> usize
    requires slot { slot < slots }
    requires steps { steps ≤ slots }
    requires slots { slots ≤ 65536 }
    ensures { result ≡ (slot + steps) % slots }
{
    let reached = slot + steps;
    if reached < slots {
        reached
    } else {
        reached - slots
    }
}

/// Advances the buckets of a hashed wheel to the next tick, which sweeps the bucket of that tick alone.
/// Does not allocate.
pub fn sweep_tick(buckets: &mut Buckets, slot: usize)
    requires nothing_due { (state_of buckets.old).due ≡ [] }
    requires before_last { buckets.old.tick < buckets.old.last_tick }
    requires has_slots { 0 < buckets.old.slots }
    requires slot { slot ≡ (buckets.old.tick + 1) % buckets.old.slots }
    requires in_buckets { AreInBuckets buckets.old.slots buckets.old.tick buckets.old.links.lists }
    requires in_order { AreInOrder buckets.old.slots buckets.old.links.lists }
    ensures ticked { state_of buckets.new ≡ after_tick (state_of buckets.old) }
    ensures tick { buckets.new.tick ≡ buckets.old.tick + 1 }
    ensures last_tick { buckets.new.last_tick ≡ buckets.old.last_tick }
    ensures slots { buckets.new.slots ≡ buckets.old.slots }
    ensures in_buckets { AreInBuckets buckets.new.slots buckets.new.tick buckets.new.links.lists }
    ensures in_order { AreInOrder buckets.new.slots buckets.new.links.lists }
{
    sweep_bucket(&mut buckets.links, slot, buckets.slots);
    buckets.tick += 1;
}

/// Sweeps a bucket from its front.
///
/// A timer with no rounds left moves to the back of the list of due timers. Any other has one round
/// fewer, and stays where it is.
fn sweep_bucket(links: &mut Links, bucket: usize, due: usize)
    requires other { bucket ≢ due }
    requires bucket { bucket < length links.old.lists }
    requires due { due < length links.old.lists }
    ensures swept { links.new.lists ≡ swept bucket due links.old.lists }
    ensures room { links.new.room ≡ links.old.room }
{
    let mut at = links.front(bucket);
    for step in 0..links.len() {
        let Some(key) = at else {
            break;
        };
        links.lemma_keys_unique();
        // Read before the node may move to another list.
        let here = links.step(key);
        at = here.next;
        sweep_node(links, key, here.rounds, due);
    }
}

/// Counts down the rounds of one timer, or moves it to the due ones if it has none left.
fn sweep_node(links: &mut Links, key: usize, rounds: u64, due: usize)
    requires used { IsSome (node_at key links.old.lists) }
    requires rounds { HasRounds key links.old.lists rounds }
    requires due { due < length links.old.lists }
    ensures due { (node : Node) → node_at key links.old.lists ≡ Some node → node.rounds ≡ 0
        → links.new.lists ≡ moved_back key due node links.old.lists }
    ensures later { (node : Node) → node_at key links.old.lists ≡ Some node → node.rounds ≢ 0
        → SetsRounds key (node.rounds - 1) links.old.lists links.new.lists }
    ensures room { links.new.room ≡ links.old.room }
{
    if rounds == 0 {
        links.move_back(key, due);
    } else {
        links.set_rounds(key, rounds - 1);
    }
}

/// The tick of the first slot ahead that has a timer, or None if no slot has one. Does not allocate.
pub fn next_sweep(buckets: &Buckets, slot: usize) -> Option<u64>
    requires has_slots { 0 < buckets.now.slots }
    requires slots_in_range { buckets.now.slots ≤ 65536 }
    requires slot { slot ≡ buckets.now.tick % buckets.now.slots }
    requires in_buckets { AreInBuckets buckets.now.slots buckets.now.tick buckets.now.links.lists }
    requires in_order { AreInOrder buckets.now.slots buckets.now.links.lists }
    ensures quiet { IsQuietUntil result buckets.now.tick (state_of buckets.now).pending }
    ensures next { IfSome result (λ tick. IsNextSweep buckets.now.slots tick (state_of buckets.now)) }
{
    // Without a timer there is no slot to look for.
    if buckets.links.len() == 0 {
        return None;
    }
    for step in 0..buckets.slots {
        let bucket = slot_after(slot, step + 1, buckets.slots);
        if !buckets.links.is_empty(bucket) {
            return Some(buckets.tick + (step as u64 + 1));
        }
    }
    None
}
