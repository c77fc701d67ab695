//! Room for more nodes, and an index for each key that they can get.
ghost use Rattle.std.specs.Prelude.{◌≡◌, ◌<◌, ◌≤◌, ◌+◌, max, OnOk, OnErr, length};
ghost use Rattle.std.specs.Vec.{vec_len, vec_capacity};
ghost use Rattle.slab.specs.Slab.{HasRoomFor, slab_len};
ghost use Rattle.timer_links.specs.Links.{HasRoom, HasIndex, IsReady};
ghost use Rattle.timer_links.specs.Ring.{IsGrown};
ghost use Rattle.timer_links.specs.Types.{INDEXES};

use crate::kept::Kept;
use crate::ring::{INDEXES, Neighbours, add_index, reserve_index, reserve_indexes};
use slab::Slab;
use timer_base::OutOfMemory;

/// Makes room for one more node and its index. On an error no node and no link changes.
///
/// The keys below `ready` have both, so that it is mostly one comparison.
#[tactic(auto, using(crate::proofs::Room::fits_one))]
#[inline(always)]
pub(crate) fn make_way<N: Kept>(
    nodes: &mut Slab<N>,
    neighbours: &mut Vec<Neighbours>,
    ready: &mut usize,
    lists: usize,
    room: usize,
) -> Result<(), OutOfMemory>
    requires roots { lists ≤ length neighbours.old.items }
    requires few { length neighbours.old.items ≤ INDEXES }
    requires room { HasRoom room lists nodes.old.capacity (vec_capacity neighbours.old) }
    requires ready { IsReady ready.old lists nodes.old.capacity (vec_len neighbours.old) }
    ensures nodes { nodes.new ≡ record nodes.old { capacity = nodes.new.capacity } }
    ensures kept { IsGrown neighbours.old.items neighbours.new.items }
    ensures few { length neighbours.new.items ≤ INDEXES }
    ensures at_most { length neighbours.new.items
        ≤ max (length neighbours.old.items) (lists + nodes.old.vacant_key + 64) }
    ensures room { HasRoom room lists nodes.new.capacity (vec_capacity neighbours.new) }
    ensures ready { IsReady ready.new lists nodes.new.capacity (vec_len neighbours.new) }
    ensures still_ready { ready.old ≤ ready.new }
    ensures next { OnOk result (nodes.new.vacant_key < nodes.new.capacity → nodes.new.vacant_key < ready.new) }
    ensures same { OnErr result (ready.new ≡ ready.old) }
    ensures fits { OnOk result (HasRoomFor nodes.new 1) }
    ensures index { OnOk result (HasIndex lists nodes.new neighbours.new.items) }
    ensures full { OnErr result (room ≤ slab_len nodes.old) }
{
    // Read, so that the prover knows that no key in use is past it.
    let _capacity = nodes.capacity();
    if nodes.vacant_key() < *ready {
        return Ok(());
    }
    make_ready(nodes, neighbours, lists, room)?;
    *ready = nodes.capacity().min(neighbours.len() - lists);
    Ok(())
}

/// Makes way for a key that is not ready yet. It is rarely called, and kept out of line, which keeps the callers of
/// `make_way` small.
#[cold]
#[inline(never)]
fn make_ready<N: Kept>(
    nodes: &mut Slab<N>,
    neighbours: &mut Vec<Neighbours>,
    lists: usize,
    room: usize,
) -> Result<(), OutOfMemory>
    requires roots { lists ≤ length neighbours.old.items }
    requires few { length neighbours.old.items ≤ INDEXES }
    requires room { HasRoom room lists nodes.old.capacity (vec_capacity neighbours.old) }
    ensures nodes { nodes.new ≡ record nodes.old { capacity = nodes.new.capacity } }
    ensures larger { nodes.old.capacity ≤ nodes.new.capacity }
    ensures kept { IsGrown neighbours.old.items neighbours.new.items }
    ensures few { length neighbours.new.items ≤ INDEXES }
    ensures at_most { length neighbours.new.items
        ≤ max (length neighbours.old.items) (lists + nodes.old.vacant_key + 64) }
    ensures room { HasRoom room lists nodes.new.capacity (vec_capacity neighbours.new) }
    ensures fits { OnOk result (HasRoomFor nodes.new 1) }
    ensures index { OnOk result (HasIndex lists nodes.new neighbours.new.items) }
    ensures full { OnErr result (room ≤ slab_len nodes.old) }
{
    if room > 0 {
        return make_way_in_room(nodes, neighbours, lists);
    }
    let key = nodes.vacant_key();
    if key >= INDEXES - lists {
        return Err(OutOfMemory);
    }
    reserve_index(neighbours, lists + key)?;
    nodes.reserve(1)?;
    Ok(())
}

/// Makes way where room was promised, and either the next key has no index yet or all nodes that fit are in use.
///
/// In the latter case it grows at once for all the nodes that fit then.
fn make_way_in_room<N: Kept>(
    nodes: &mut Slab<N>,
    neighbours: &mut Vec<Neighbours>,
    lists: usize,
) -> Result<(), OutOfMemory>
    requires roots { lists ≤ length neighbours.old.items }
    requires few { length neighbours.old.items ≤ INDEXES }
    requires reserved { lists + nodes.old.capacity ≤ vec_capacity neighbours.old }
    requires numbered { lists + nodes.old.capacity ≤ INDEXES }
    ensures nodes { nodes.new ≡ record nodes.old { capacity = nodes.new.capacity } }
    ensures larger { nodes.old.capacity ≤ nodes.new.capacity }
    ensures kept { IsGrown neighbours.old.items neighbours.new.items }
    ensures few { length neighbours.new.items ≤ INDEXES }
    ensures at_most { length neighbours.new.items
        ≤ max (length neighbours.old.items) (lists + nodes.old.vacant_key + 64) }
    ensures reserved { lists + nodes.new.capacity ≤ vec_capacity neighbours.new }
    ensures numbered { lists + nodes.new.capacity ≤ INDEXES }
    ensures fits { OnOk result (HasRoomFor nodes.new 1) }
    ensures index { OnOk result (HasIndex lists nodes.new neighbours.new.items) }
    ensures full { OnErr result (slab_len nodes.old ≡ nodes.old.capacity) }
{
    if nodes.len() == nodes.capacity() {
        make_room(nodes, neighbours, lists, 1)?;
    }
    // The slab's contract says only of a key that was given out that it is below the capacity. If the next one were
    // not, all indexes would be added.
    add_index(neighbours, lists, nodes.capacity(), nodes.vacant_key());
    Ok(())
}

/// Makes room for this many nodes more, and reserves memory for the index of each key that they can get: a key
/// is below the capacity of the nodes. No node and no link changes.
///
/// The nodes are copied to grow, so that they are as they were if the indexes can't grow with them.
pub(crate) fn make_room<N: Kept>(
    nodes: &mut Slab<N>,
    neighbours: &mut Vec<Neighbours>,
    lists: usize,
    more: usize,
) -> Result<(), OutOfMemory>
    requires roots { lists ≤ INDEXES }
    ensures nodes { nodes.new ≡ record nodes.old { capacity = nodes.new.capacity } }
    ensures larger { nodes.old.capacity ≤ nodes.new.capacity }
    ensures kept { neighbours.new.items ≡ neighbours.old.items }
    ensures fits { OnOk result (HasRoomFor nodes.new more) }
    ensures reserved { OnOk result (lists + nodes.new.capacity ≤ vec_capacity neighbours.new) }
    ensures numbered { OnOk result (lists + nodes.new.capacity ≤ INDEXES) }
    ensures err { OnErr result (nodes.new ≡ nodes.old) }
    ensures err_reserved { OnErr result (vec_capacity neighbours.new ≡ vec_capacity neighbours.old) }
{
    if nodes.capacity() - nodes.len() >= more {
        return reserve_indexes(neighbours, lists, nodes.capacity());
    }
    let mut larger = nodes.clone()?;
    larger.reserve(more)?;
    reserve_indexes(neighbours, lists, larger.capacity())?;
    *nodes = larger;
    Ok(())
}
