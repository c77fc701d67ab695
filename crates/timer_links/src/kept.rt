//! Nodes, which lists hold, and what lists keep of each: all of it, or the part that their wheel needs.
//!
//!     Node       40 bytes of a timer, and 8 of its rounds     for a hashed wheel
//!     Timer      the 40 bytes                                 for a hierarchy, which needs no rounds
//!     Unowned    24 bytes: serial, deadline and action        for a hierarchy whose timers all have client 0 and number 0
//!
//! What is kept stands for a whole node. So the contracts of `Links` name whole nodes, whatever is kept of them.
ghost use Rattle.std.specs.Prelude.{◌≡◌, ⊤};
ghost use Rattle.timer_links.specs.Types.{Node};

use timer_base::Timer;

/// A timer in a list, and for how many rounds it still waits there.
#[derive(Clone, Copy, Debug, PartialEq, Eq)]
pub struct Node {
    /// The timer that waits.
    pub timer: Timer,
    /// Full revolutions left. 0 if the list needs no rounds.
    pub rounds: u64,
}

/// What lists keep of each node.
pub trait Kept: Copy {
    /// The nodes that it can give back whole. Lists take no others.
    ghost keeps: { Node → Type 0 };

    /// The node that it stands for.
    ghost node_of: { Self → Node };

    /// What is kept of this node.
    fn keep(node: Node) -> Self
        requires { keeps node }
        ensures { node_of result ≡ node };

    /// The whole node.
    fn node(&self) -> Node
        ensures { result ≡ node_of self.now };

    /// A clone is the same.
    ghost cloned: { (kept copy : Self) → Self.is_clone kept copy → copy ≡ kept };
}

/// A node stands for itself.
impl Kept for Node {
    ghost keeps = { λ node. ⊤ };

    ghost node_of = { λ node. node };

    ghost cloned = { λ kept copy is. is };

    #[inline(always)]
    fn keep(node: Node) -> Node {
        node
    }

    #[inline(always)]
    fn node(&self) -> Node {
        *self
    }
}

/// The timer alone stands for a node without rounds.
impl Kept for Timer {
    ghost keeps = { λ node. node.rounds ≡ 0 };

    ghost node_of = { λ timer. record { timer = timer; rounds = 0 } };

    ghost cloned = { λ kept copy is. is };

    #[inline(always)]
    fn keep(node: Node) -> Timer {
        node.timer
    }

    #[inline(always)]
    fn node(&self) -> Node {
        Node {
            timer: *self,
            rounds: 0,
        }
    }
}

/// What is kept of a timer whose client and number are 0, without rounds.
#[derive(Clone, Copy)]
pub struct Unowned {
    /// The serial.
    pub serial: u64,
    /// The deadline.
    pub deadline: u64,
    /// The action.
    pub action: u64,
}

/// Serial, deadline and action stand for a node of client 0, number 0 and no rounds.
impl Kept for Unowned {
    ghost keeps = { λ node. (node.rounds ≡ 0) × (node.timer.client ≡ 0) × (node.timer.number ≡ 0) };

    ghost node_of = { λ unowned. record {
      timer = record { serial = unowned.serial; client = 0; number = 0; deadline = unowned.deadline; action = unowned.action };
      rounds = 0;
    } };

    ghost cloned = { λ kept copy is. is };

    #[inline(always)]
    fn keep(node: Node) -> Unowned {
        Unowned {
            serial: node.timer.serial,
            deadline: node.timer.deadline,
            action: node.timer.action,
        }
    }

    #[inline(always)]
    fn node(&self) -> Node {
        let timer = Timer {
            serial: self.serial,
            client: 0,
            number: 0,
            deadline: self.deadline,
            action: self.action,
        };
        timer.node()
    }
}
