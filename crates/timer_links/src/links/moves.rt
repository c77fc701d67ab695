//! Moves of nodes from list to list. Each writes the links at the places that change, however long the lists are.
ghost use Rattle.std.specs.Prelude.{◌≡◌, ◌≢◌, ◌<◌, ◌+◌, Some, IsSome, length};
ghost use Rattle.timer_links.specs.Lists.{node_at, front_moved, appended, MovesBack, IsAloneIn};

use crate::kept::Kept;
use crate::links::Links;
use crate::ring::{Neighbours, join, join_last, only_neighbour};

impl<N: Kept> Links<N> {
    /// Moves a node to the back of a list, which may be its own, and returns the list that it was in, if it was the
    /// only node there. It keeps its key. Does not allocate.
    #[inline(always)]
    pub fn move_back(&mut self, key: usize, list: usize) -> Option<usize>
        requires used { IsSome (node_at key self.old.lists) }
        requires list { list < length self.old.lists }
        ensures moved { MovesBack key list self.old.lists self.new.lists }
        ensures room { self.new.room ≡ self.old.room }
        ensures ready { self.new.ready ≡ self.old.ready }
        ensures emptied { IsAloneIn key self.old.lists result }
    {
        let index = self.lists + key;
        let Neighbours { before, after } = self.neighbours[index];
        let neighbours = self.neighbours.as_mut_slice();
        join(neighbours, before as usize, after as usize);
        join_last(neighbours, list, index);
        only_neighbour(Neighbours { before, after })
    }

    /// Moves the first node of one list to the back of another, or of the same one.
    ///
    /// It keeps its key. Where the list is empty nothing changes. Does not allocate.
    pub fn move_front(&mut self, from: usize, to: usize)
        requires from { from < length self.old.lists }
        requires to { to < length self.old.lists }
        ensures moved { self.new.lists ≡ front_moved from to self.old.lists }
        ensures room { self.new.room ≡ self.old.room }
        ensures ready { self.new.ready ≡ self.old.ready }
    {
        let Some(key) = self.used_front(from) else {
            return;
        };
        let index = self.lists + key;
        let after = self.neighbours[index].after as usize;
        let neighbours = self.neighbours.as_mut_slice();
        join(neighbours, from, after);
        join_last(neighbours, to, index);
    }

    /// Moves all nodes of one list to the back of another, in their order and under their keys.
    ///
    /// However long the lists are, only the links at their ends are written. Does not allocate.
    pub fn append(&mut self, from: usize, to: usize)
        requires from { from < length self.old.lists }
        requires to { to < length self.old.lists }
        requires apart { to ≢ from }
        ensures appended { self.new.lists ≡ appended from to self.old.lists }
        ensures room { self.new.room ≡ self.old.room }
        ensures ready { self.new.ready ≡ self.old.ready }
    {
        let Some(_) = self.front(from) else {
            return;
        };
        let Neighbours {
            before: last,
            after: first,
        } = self.neighbours[from];
        let back = self.neighbours[to].before as usize;
        let neighbours = self.neighbours.as_mut_slice();
        join(neighbours, back, first as usize);
        join(neighbours, last as usize, to);
        // An empty ring: the root links to itself.
        join(neighbours, from, from);
    }
}
