//! Lists of nodes under keys: what a wheel keeps its timers in.
//!
//!     list 0   3:a 5:b          node a under key 3, then node b under key 5
//!     list 1
//!     list 2   0:c
//!
//! `unlink(3)` returns a and leaves 5:b. `move_back(5, 2)` then makes list 2 of 0:c 5:b and leaves list 0
//! empty. A key names one node until that node is removed, and may then be given to another.
//!
//! The nodes are in a `Slab`, whose keys these are. Their order is kept apart from them, as rings in one
//! array (`ring`), so that changing a neighbour's link never touches the neighbour's node.
ghost use Rattle.std.specs.Prelude.{◌≡◌, ◌<◌, ◌≤◌, ◌↔◌, ◌+◌, max, IsTrue, Some, None, IfOk, OnOk, OnErr, IfErr, IfSome, IsSome, length, map, [], replicate};
ghost use Rattle.timer_links.specs.Lists.{node_at, first_key, with_row, row_count, list_at, without_key, PopsFront, AreApart, IsNext, SetsRounds, SetsNode, IsAloneIn, HasRounds, IsFirstUsed};
ghost use Rattle.std.specs.Vec.{vec_len, vec_capacity};
ghost use Rattle.timer_links.specs.Links.{HasRoom, IsReady};
ghost use Rattle.timer_links.specs.Types.{INDEXES};

use crate::kept::{Kept, Node};
use crate::links::room::{make_room, make_way};
use crate::ring::{INDEXES, Neighbours, join, join_last, key_at, only_neighbour};
use slab::Slab;
use std::alloc::Global;
use std::marker::Model;
use timer_base::OutOfMemory;

mod moves;
mod room;

/// What a walk along a list asks of each node.
#[derive(Clone, Copy)]
pub struct WalkStep {
    /// The node's rounds.
    pub rounds: u64,
    /// The key after it in its list, or None if it is the last one.
    pub next: Option<usize>,
}

/// A node that was removed.
#[derive(Clone, Copy)]
pub struct RemovedNode {
    /// The node.
    pub node: Node,
    /// The list that it was in, if it was the only node there.
    pub emptied: Option<usize>,
}

/// A fixed number of lists of nodes, each node under its key. What it keeps of a node takes the memory of `N`.
#[derive(Drop)]
pub struct Links<N: Kept = Node> {
    nodes: Slab<N>,
    // The links of the roots, of the keys that were ever in use, and of up to 63 more. Room is capacity alone, so
    // that `used_from` does not walk along it.
    neighbours: Vec<Neighbours>,
    lists: usize,
    // For how many nodes `reserve` made room. It stays when the nodes grow beyond it.
    room: usize,
    // Keys below this one have memory for their node, and an index. So a key that is given out is compared with
    // this number, and with the length of neither array.
    ready: usize,
}

impl<N: Kept> Model for Links<N> {
    ghost use Rattle.std.specs.Vec.{vec_len, vec_capacity};
    ghost use Rattle.timer_links.specs.Lists.{LinksState};
    ghost use Rattle.timer_links.specs.Links.{IsLinked, HasRoom, IsReady, lists_of, nodes_of};

    ghost Value = { LinksState };

    ghost view = { λ s. record {
      lists = lists_of s.lists (nodes_of N.node_of s.nodes) s.neighbours.items;
      room = s.room;
      ready = s.ready;
    } };

    ghost invariant = { λ s. IsLinked s.lists (nodes_of N.node_of s.nodes) s.neighbours.items
        (lists_of s.lists (nodes_of N.node_of s.nodes) s.neighbours.items)
        × HasRoom s.room s.lists s.nodes.capacity (vec_capacity s.neighbours)
        × IsReady s.ready s.lists s.nodes.capacity (vec_len s.neighbours) };
}

impl<N: Kept> Links<N> {
    /// Makes `lists` empty lists, at most 65,537. The only error is out of memory.
    pub fn new(alloc: Global, lists: usize) -> Result<Links<N>, OutOfMemory>
        requires { lists ≤ 65537 }
        ensures { IfOk result (λ links. links ≡ record {
          lists = replicate lists [];
          room = 0;
          ready = 0;
        }) }
    {
        let mut neighbours = Vec::with_capacity(alloc, lists)?;
        for list in 0..lists {
            let root = list as u32;
            neighbours.push(Neighbours {
                before: root,
                after: root,
            })?;
        }
        Ok(Links {
            nodes: Slab::new(alloc),
            neighbours,
            lists,
            room: 0,
            ready: 0,
        })
    }

    /// Does nothing at run time. Its contract is a lemma: no key occurs twice in the lists.
    #[inline]
    pub fn lemma_keys_unique(&self)
        ensures { AreApart self.now.lists }
    {
        // Read, so that the prover knows the invariant here.
        let _nodes = &self.nodes;
    }

    /// Does nothing at run time. Its contract is a lemma: no more nodes are in all lists than a link of 32 bits can name.
    #[inline]
    pub fn lemma_countable(&self)
        ensures { row_count self.now.lists ≤ INDEXES }
    {
        // Read, so that the prover knows the invariant here.
        let _nodes = &self.nodes;
    }

    /// The node under this key, or None if the key is not in use. Does not allocate.
    #[inline]
    pub fn get(&self, key: usize) -> Option<Node>
        ensures { result ≡ node_at key self.now.lists }
    {
        match self.nodes.get(key) {
            Some(kept) => Some(kept.node()),
            None => None,
        }
    }

    /// The node under a key that is in use: no test whether it is. Does not allocate.
    #[inline(always)]
    pub fn node(&self, key: usize) -> Node
        requires { IsSome (node_at key self.now.lists) }
        ensures { Some result ≡ node_at key self.now.lists }
    {
        self.nodes[key].node()
    }

    /// The key of the first node of a list, or None if the list is empty. Does not allocate.
    #[inline]
    pub fn front(&self, list: usize) -> Option<usize>
        requires { list < length self.now.lists }
        ensures { result ≡ first_key (list_at list self.now.lists) }
    {
        let after = self.neighbours[list].after as usize;
        // A link leads to a key if it doesn't lead back to its list: so the number of lists is not asked for.
        if after == list {
            None
        } else {
            Some(after - self.lists)
        }
    }

    /// The same as `front`, with a proof that the key is in use.
    #[inline]
    fn used_front(&self, list: usize) -> Option<usize>
        requires { list < length self.now.lists }
        ensures key { result ≡ first_key (list_at list self.now.lists) }
        ensures used { IfSome result (λ key. IsSome (node_at key self.now.lists)) }
    {
        // Read, so that the prover knows the invariant here.
        let _nodes = &self.nodes;
        self.front(list)
    }

    /// Whether a list has no node. Does not allocate.
    #[inline]
    pub fn is_empty(&self, list: usize) -> bool
        requires { list < length self.now.lists }
        ensures { IsTrue result ↔ (list_at list self.now.lists ≡ []) }
    {
        self.neighbours[list].after as usize == list
    }

    /// The key after this one in its list, or None if it is the last one. Does not allocate.
    #[inline]
    pub fn next(&self, key: usize) -> Option<usize>
        requires { IsSome (node_at key self.now.lists) }
        ensures { IsNext key self.now.lists result }
    {
        key_at(self.neighbours[self.lists + key].after, self.lists)
    }

    /// The rounds of the node under this key, and the key after it: one look-up of each. Does not allocate.
    #[inline]
    pub fn step(&self, key: usize) -> WalkStep
        requires { IsSome (node_at key self.now.lists) }
        ensures rounds { HasRounds key self.now.lists result.rounds }
        ensures next { IsNext key self.now.lists result.next }
    {
        WalkStep {
            rounds: self.nodes[key].node().rounds,
            next: self.next(key),
        }
    }

    /// How many lists there are. Does not allocate.
    #[inline]
    pub fn lists(&self) -> usize
        ensures { result ≡ length self.now.lists }
    {
        self.lists
    }

    /// Whether a key and what goes with it are ready for the next node. Nothing depends on it but how a call is compiled:
    /// a node is added either way.
    #[inline]
    pub fn is_ready(&self) -> bool {
        self.nodes.vacant_key() < self.ready
    }

    /// How many nodes are in all lists together. Does not allocate.
    #[inline]
    pub fn len(&self) -> usize
        ensures { result ≡ row_count self.now.lists }
    {
        self.nodes.len()
    }

    /// Makes room for `most` nodes at one time, those that are here among them. No list changes.
    ///
    /// While fewer nodes are here, `push_back` then does not fail, also after others were removed. The
    /// error is out of memory, as that of `push_back`: the room is then what it was. Room that an earlier call
    /// made is not looked at again: then nothing is allocated. The keys that were ready stay so.
    ///
    /// It may copy the nodes and the links, and takes time for the most nodes that were ever here at one time.
    /// The room itself is only allocated: nothing is written to it.
    pub fn reserve(&mut self, most: usize) -> Result<(), OutOfMemory>
        ensures ok { OnOk result (self.new ≡ record self.old { room = max self.old.room most }) }
        ensures more { OnErr result (self.old.room < most) }
        ensures err { OnErr result (self.new ≡ self.old) }
    {
        if most <= self.room {
            return Ok(());
        }
        self.grow_room(most)
    }

    /// Makes room as `reserve`, also if it may be there.
    fn grow_room(&mut self, most: usize) -> Result<(), OutOfMemory>
        ensures ok { OnOk result (self.new ≡ record self.old { room = max self.old.room most }) }
        ensures err { OnErr result (self.new ≡ self.old) }
    {
        let more = most.saturating_sub(self.nodes.len());
        let Ok(()) = make_room(&mut self.nodes, &mut self.neighbours, self.lists, more) else {
            return Err(OutOfMemory);
        };
        self.room = self.room.max(most);
        Ok(())
    }

    /// Adds a node at the back of a list, and returns its key, which was not in use.
    ///
    /// On an error nothing changes, and the node is handed back. The error is out of memory: an
    /// allocation failed, or the lists and the keys (once room was made, all that memory is for) would be
    /// more than the 4,294,967,296 that a link of 32 bits can name. There is none while fewer nodes are here than
    /// `reserve` made room for. Which unused key the node gets is a free choice. From then on it is ready, so that the
    /// next node under it asks for no memory and adds no link.
    // Inlined, but for the growth: a key that comes back through memory costs a start up to a half.
    #[inline(always)]
    pub fn push_back(&mut self, list: usize, node: Node) -> Result<usize, (Node, OutOfMemory)>
        requires list { list < length self.old.lists }
        requires keeps { N.keeps node }
        ensures fresh { IfOk result (λ key. node_at key self.old.lists ≡ None) }
        ensures pushed { IfOk result (λ key. self.new.lists ≡ with_row list (key, node) self.old.lists) }
        ensures room { self.new.room ≡ self.old.room }
        ensures ready { IfOk result (λ key. key < self.new.ready) }
        ensures still_ready { self.old.ready ≤ self.new.ready }
        ensures full { OnErr result (self.old.room ≤ row_count self.old.lists) }
        ensures err { OnErr result (self.new ≡ self.old) }
        ensures handed_back { IfErr result (λ failed. failed.0 ≡ node) }
    {
        // All that can fail comes before the first change that a caller could see.
        let Ok(()) = make_way(
            &mut self.nodes,
            &mut self.neighbours,
            &mut self.ready,
            self.lists,
            self.room,
        ) else {
            return Err((node, OutOfMemory));
        };
        let key = self.nodes.insert_reserved(N::keep(node));
        let index = self.lists + key;
        join_last(self.neighbours.as_mut_slice(), list, index);
        Ok(key)
    }

    /// Removes the node under this key, wherever it stands, or returns None if the key is not in use.
    ///
    /// The other nodes keep their lists, their order and their keys. Does not allocate.
    pub fn unlink(&mut self, key: usize) -> Option<Node>
        ensures node { result ≡ node_at key self.old.lists }
        ensures taken { self.new.lists ≡ map (without_key key) self.old.lists }
        ensures room { self.new.room ≡ self.old.room }
        ensures ready { self.new.ready ≡ self.old.ready }
    {
        if !self.nodes.contains(key) {
            return None;
        }
        Some(self.take(key).node)
    }

    /// Removes the node under a key that is in use, and says which list it left empty, if it left one.
    ///
    /// The other nodes keep their lists, their order and their keys. Does not allocate.
    #[inline]
    pub fn take(&mut self, key: usize) -> RemovedNode
        requires { IsSome (node_at key self.old.lists) }
        ensures node { Some result.node ≡ node_at key self.old.lists }
        ensures taken { self.new.lists ≡ map (without_key key) self.old.lists }
        ensures room { self.new.room ≡ self.old.room }
        ensures ready { self.new.ready ≡ self.old.ready }
        ensures emptied { IsAloneIn key self.old.lists result.emptied }
    {
        let neighbours = self.neighbours[self.lists + key];
        let kept = self.nodes.remove(key);
        join(
            self.neighbours.as_mut_slice(),
            neighbours.before as usize,
            neighbours.after as usize,
        );
        RemovedNode {
            node: kept.node(),
            emptied: only_neighbour(neighbours),
        }
    }

    /// Removes the first node of a list, with its key, or returns None if the list is empty.
    /// Does not allocate.
    pub fn pop_front(&mut self, list: usize) -> Option<(usize, Node)>
        requires { list < length self.old.lists }
        ensures popped { PopsFront list self.old.lists result self.new.lists }
        ensures room { self.new.room ≡ self.old.room }
        ensures ready { self.new.ready ≡ self.old.ready }
    {
        let key = self.used_front(list)?;
        let after = self.neighbours[self.lists + key].after as usize;
        let kept = self.nodes.remove(key);
        join(self.neighbours.as_mut_slice(), list, after);
        Some((key, kept.node()))
    }

    /// Replaces the node under a key by another, which keeps the key, the list and its position there.
    /// Does not allocate.
    #[inline]
    pub fn set_node(&mut self, key: usize, node: Node)
        requires used { IsSome (node_at key self.old.lists) }
        requires keeps { N.keeps node }
        ensures set { SetsNode key node self.old.lists self.new.lists }
        ensures room { self.new.room ≡ self.old.room }
        ensures ready { self.new.ready ≡ self.old.ready }
    {
        self.nodes[key] = N::keep(node);
    }

    /// The first key in use from this one on, or None when no such key is in use. Does not allocate.
    ///
    /// It looks at each key on the way. In practice they are as many as the most nodes that were ever here at one
    /// time, and up to 63 more, whatever `reserve` made room for.
    pub fn used_from(&self, from: usize) -> Option<usize>
        ensures found { IsFirstUsed from self.now.lists result }
        ensures in_range { IfSome result (λ key. key < INDEXES) }
    {
        for key in from..self.neighbours.len() - self.lists {
            if self.nodes.contains(key) {
                return Some(key);
            }
        }
        None
    }
}

impl Links<Node> {
    /// Changes the rounds of a node where it stands. Does not allocate.
    #[inline]
    pub fn set_rounds(&mut self, key: usize, rounds: u64)
        requires { IsSome (node_at key self.old.lists) }
        ensures set { SetsRounds key rounds self.old.lists self.new.lists }
        ensures room { self.new.room ≡ self.old.room }
        ensures ready { self.new.ready ≡ self.old.ready }
    {
        self.nodes[key].rounds = rounds;
    }
}
