//! Rings: the order of the nodes in their lists.
//!
//! There is one array, with two links at each index. With n lists, index l below n is the root of list l, and
//! index n + key is that of the node under the key. A list is a ring: from its root over its nodes in
//! their order back to the root. So every index has two neighbours, and no step has to ask whether a
//! neighbour is a node or a root.
//!
//! 641 lists; list 66 holds the keys 5 and 9, and list 2 the key 4. These are the buckets of wheel 1,
//! slot 2 and of wheel 0, slot 2, at tick 128, when the timers of list 66 migrate. All three are due at
//! tick 130, and key 4 has moved already:
//!
//!     +-> 66 <-> 646 <-> 650 <-+      +-> 2 <-> 645 <-+
//!     +------------------------+      +---------------+
//!
//! Key 5, whose index is 646, moves to the back of list 2 by three joins. The first closes the gap
//! that it leaves, the other two are `join_last`. Written are the links `before, after` that change:
//!
//!     index                 2          66         645        646        650
//!     at first              645, 645   650, 646   2, 2       66, 650    646, 66
//!     join(66, 650)                    650, 650                         66, 66
//!     join(645, 646)                              2, 646     645, 650
//!     join(646, 2)          646, 645                         645, 2
//!
//!     +-> 66 <-> 650 <-+      +-> 2 <-> 645 <-> 646 <-+
//!     +----------------+      +-----------------------+
//!
//! In a ring of no nodes the root is its own neighbour on both sides. The links at the index of a key
//! that is not in use mean nothing.
//!
//! Memory may be reserved for more indexes than there are. They are added before their keys are used, up to 64 at a
//! time.
ghost use Rattle.std.specs.Prelude.{◌<◌, ◌≤◌, ◌≡◌, ◌+◌, max, IsOk, OnOk, OnErr, length};
ghost use Rattle.std.specs.Vec.{vec_capacity};
ghost use Rattle.timer_links.specs.declared.ring.TheConstants.{INDEXES};

use timer_base::OutOfMemory;

/// How many indexes a link can name.
pub const INDEXES: usize = 4294967296;

/// The number of lists and keys that a link of 32 bits can name, as a literal.
pub fn the_limit_of_links()
    ensures { INDEXES ≡ 4294967296 }
{}

/// The two neighbours of an index. Those of a root are the back and the front of its list.
#[derive(Clone, Copy)]
pub struct Neighbours {
    pub before: u32,
    pub after: u32,
}

ghost use Rattle.timer_links.specs.Ring.{neighbours_at, key_of, neighbour_on_both_sides, IsGrown, Joins, JoinsLast};

/// The key of the node at an index, or None for a root.
#[inline(always)]
pub fn key_at(index: u32, lists: usize) -> Option<usize>
    ensures { result ≡ key_of lists index }
{
    let index = index as usize;
    if index < lists {
        None
    } else {
        Some(index - lists)
    }
}

/// The neighbour of an index, if it is the same on both sides. For a node this is the root of a list that
/// has no other node.
#[inline(always)]
pub fn only_neighbour(neighbours: Neighbours) -> Option<usize>
    ensures { result ≡ neighbour_on_both_sides neighbours }
{
    if neighbours.before == neighbours.after {
        Some(neighbours.before as usize)
    } else {
        None
    }
}

/// Puts one index right after another.
// Indexes are `usize` here, and cut to the 32 bits of a link only where one is stored: each cut costs an instruction.
#[inline(always)]
pub fn join(neighbours: &mut [Neighbours], front: usize, back: usize)
    requires front { front < length neighbours.old }
    requires back { back < length neighbours.old }
    requires numbered { length neighbours.old ≤ INDEXES }
    ensures { Joins front back neighbours.old neighbours.new }
{
    neighbours[front].after = back as u32;
    neighbours[back].before = front as u32;
}

/// Appends an index that stands in no ring to the ring of this root.
#[inline(always)]
pub fn join_last(neighbours: &mut [Neighbours], root: usize, index: usize)
    requires root { root < length neighbours.old }
    requires index { index < length neighbours.old }
    requires numbered { length neighbours.old ≤ INDEXES }
    requires last { (neighbours_at neighbours.old root).before < length neighbours.old }
    ensures { JoinsLast root index neighbours.old neighbours.new }
{
    let last = neighbours[root].before as usize;
    join(neighbours, last, index);
    join(neighbours, index, root);
}

/// Makes the array long enough for an index. On an error no link in it changes; the error is out of memory.
/// If the index is there already, nothing changes, and there is no error.
#[inline(always)]
pub fn reserve_index(neighbours: &mut Vec<Neighbours>, index: usize) -> Result<(), OutOfMemory>
    requires index { index < INDEXES }
    requires few { length neighbours.old.items ≤ INDEXES }
    ensures had_index { index < length neighbours.old.items
        → IsOk result × (neighbours.new ≡ neighbours.old) }
    ensures kept { IsGrown neighbours.old.items neighbours.new.items }
    ensures few { length neighbours.new.items ≤ INDEXES }
    ensures at_most { length neighbours.new.items ≤ max (length neighbours.old.items) (index + 64) }
    ensures reached { OnOk result (index < length neighbours.new.items) }
{
    if index < neighbours.len() {
        Ok(())
    } else {
        grow(neighbours, index)
    }
}

/// Adds up to 64 indexes at a time. So it is rarely called, and kept out of line, which keeps its callers
/// small.
#[cold]
#[inline(never)]
fn grow(neighbours: &mut Vec<Neighbours>, index: usize) -> Result<(), OutOfMemory>
    requires index { index < INDEXES }
    requires past { length neighbours.old.items ≤ index }
    ensures kept { IsGrown neighbours.old.items neighbours.new.items }
    ensures few { length neighbours.new.items ≤ INDEXES }
    ensures at_most { length neighbours.new.items ≤ max (length neighbours.old.items) (index + 64) }
    ensures reached { OnOk result (index < length neighbours.new.items) }
{
    let none = Neighbours {
        before: 0,
        after: 0,
    };
    neighbours.resize(index / 64 * 64 + 64, none)?;
    Ok(())
}

/// Reserves memory for the roots and for the indexes of this many keys. No index is added, and no link changes.
/// The error is out of memory: an allocation failed, or no link can name the last index.
pub fn reserve_indexes(
    neighbours: &mut Vec<Neighbours>,
    lists: usize,
    keys: usize,
) -> Result<(), OutOfMemory>
    requires roots { lists ≤ INDEXES }
    ensures kept { neighbours.new.items ≡ neighbours.old.items }
    ensures reserved { OnOk result (lists + keys ≤ vec_capacity neighbours.new) }
    ensures numbered { OnOk result (lists + keys ≤ INDEXES) }
    ensures err { OnErr result (vec_capacity neighbours.new ≡ vec_capacity neighbours.old) }
{
    if keys > INDEXES - lists {
        return Err(OutOfMemory);
    }
    neighbours.reserve_exact((lists + keys).saturating_sub(neighbours.len()))?;
    Ok(())
}

/// Adds the index of a key, if it is one of those that memory was reserved for. For a later key it adds all of
/// theirs. It adds up to 63 more than it has to, so that it is rarely called. Does not allocate.
pub fn add_index(neighbours: &mut Vec<Neighbours>, lists: usize, keys: usize, key: usize)
    requires reserved { lists + keys ≤ vec_capacity neighbours.old }
    requires numbered { lists + keys ≤ INDEXES }
    requires few { length neighbours.old.items ≤ INDEXES }
    ensures kept { IsGrown neighbours.old.items neighbours.new.items }
    ensures few { length neighbours.new.items ≤ INDEXES }
    ensures capacity { vec_capacity neighbours.old ≤ vec_capacity neighbours.new }
    ensures added { key < keys → lists + key < length neighbours.new.items }
    ensures all { keys ≤ key → lists + keys ≤ length neighbours.new.items }
    ensures at_most { length neighbours.new.items ≤ max (length neighbours.old.items) (lists + key + 64) }
{
    let none = Neighbours {
        before: 0,
        after: 0,
    };
    let wanted = (lists + key.min(keys)) / 64 * 64 + 64;
    let end = wanted.min(lists + keys).max(neighbours.len());
    let Ok(()) = neighbours.resize(end, none) else {
        unreachable!()
    };
}
