//! The threads that were started for the clients, which are joined together.
//!
//! Room for the clients' results is reserved before the first thread is started, so joining the threads
//! can't run out of memory.
ghost use Rattle.std.specs.Prelude.{◌≡◌, ◌<◌, ◌≤◌, [], ◌∷◌, ◌++◌, length, vec_len, vec_capacity, IfOk};

use crate::child::Child;
use crate::outcome::Worked;
use std::alloc::{AllocError, Global};
use std::thread::Threads;

/// Threads that have to be joined, in the order of their clients. As a `Child`, it is not `Drop`.
pub struct Children {
    threads: Vec<Child>,
    // Room for what they leave, and nothing in it.
    left: Vec<Worked>,
    ghost empty: { vec_len left ≡ 0 },
    ghost room: { vec_capacity threads ≤ vec_capacity left },
}

impl Children {
    ghost use Rattle.timer_threads.specs.Children.{threads_of, room_of, HaveLeft};

    /// No threads, and room for `capacity` of them.
    pub fn with_capacity(alloc: Global, capacity: usize) -> Result<Children, AllocError>
        ensures none { IfOk result (λ children. threads_of children ≡ []) }
        ensures room { IfOk result (λ children. capacity ≤ room_of children) }
    {
        let left = Vec::with_capacity(alloc, capacity)?;
        let threads = Vec::with_capacity(alloc, capacity)?;
        Ok(Children { threads, left })
    }

    /// Adds a thread, for which there is room. Does not allocate.
    pub fn push_reserved(&mut self, child: Child)
        requires { length (threads_of self.old) < room_of self.old }
        ensures threads { threads_of self.new ≡ threads_of self.old ++ child ∷ [] }
        ensures room { room_of self.new ≡ room_of self.old }
    {
        self.threads.push_reserved(child)
    }

    /// Waits for the end of each thread, and returns what the clients left, in their order. Does not
    /// allocate.
    pub fn join(self, rt: &impl Threads) -> Vec<Worked>
        ensures { HaveLeft (threads_of self) result.items }
    {
        let Children { threads, mut left } = self;
        let mut rest = threads.into_iter();
        while let Some(child) = rest.next() {
            left.push_reserved(child.join(rt));
        }
        rest.destroy_empty();
        left
    }
}
