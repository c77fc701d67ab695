//! The looks by which the reader of a ring learns that nothing comes any more.
//!
//! The other end pushes its last items before it goes. So the reader looks first whether that end is gone, and
//! then whether an item stands in the ring:
//!
//!     the other end          push               push   goes
//!     gone, then the items                                    gone?   items?    all items are seen
//!     the items, then gone           items?                   gone?             the second item is lost
//!
//! Whether the other end is gone is the ring's answer, of which no contract speaks. `Looks` keeps what was found
//! and in which order. Only the functions here write it, and each makes one look at the ring: so whoever looks in
//! another order has another record, and contracts can name the order (specs/Looks.antt, `AreInOrder`).
ghost use Rattle.std.specs.Prelude.{◌≡◌};

use rtrb::{Consumer, Producer};

/// What looks at a ring have found, the later ones after the earlier ones.
#[derive(Clone, Copy, Debug, PartialEq, Eq)]
pub enum Found {
    /// The other end was not seen to be gone.
    Nothing,
    /// The other end was gone. Items may stand in the ring.
    Gone,
    /// The other end was gone, and at a later look no item stood in the ring.
    GoneThenEmpty,
}

/// The record of the looks at a ring.
#[derive(Clone, Copy, Debug)]
pub struct Looks {
    found: Found,
}

impl Looks {
    ghost use Rattle.std.specs.Prelude.{◌≡◌, ◌==◌, ◌↔◌, ◌≢◌, true, length};
    ghost use Rattle.rtrb.specs.Ring.{ConsumerLooked, ProducerLooked, known_items};
    ghost use Rattle.timer_desk.specs.Looks.{found_in, found_after, MayFind};

    /// No look yet.
    pub fn new() -> Looks
        ensures { found_in result ≡ Found.Nothing }
    {
        Looks {
            found: Found::Nothing,
        }
    }

    /// Whether the other end was seen to be gone.
    pub fn is_gone(&self) -> bool
        ensures { result ≡ true ↔ (found_in self.now ≢ Found.Nothing) }
    {
        !matches!(self.found, Found::Nothing)
    }

    /// Whether the other end was seen to be gone, and then no item to stand.
    pub fn is_over(&self) -> bool
        ensures { result ≡ true ↔ (found_in self.now ≡ Found.GoneThenEmpty) }
    {
        matches!(self.found, Found::GoneThenEmpty)
    }

    /// Looks whether the end that pushes is gone. An end that was seen to be gone is not looked at again.
    pub fn at_producer<T>(&mut self, items: &mut Consumer<T>)
        ensures found { MayFind (found_in self.old) (found_in self.new) }
        ensures looked { ConsumerLooked items.old items.new }
    {
        if !self.is_gone() && items.is_abandoned() {
            self.found = Found::Gone;
        }
    }

    /// Looks whether the end that pops is gone. An end that was seen to be gone is not looked at again.
    pub fn at_consumer<T>(&mut self, items: &mut Producer<T>)
        ensures found { MayFind (found_in self.old) (found_in self.new) }
        ensures looked { ProducerLooked items.old items.new }
    {
        if !self.is_gone() && items.is_abandoned() {
            self.found = Found::Gone;
        }
    }

    /// Looks whether an item stands in the ring.
    pub fn at_items<T>(&mut self, items: &mut Consumer<T>)
        ensures found { found_in self.new ≡ found_after (found_in self.old)
            (length (known_items items.new) == 0) }
        ensures looked { ConsumerLooked items.old items.new }
    {
        let is_empty = items.slots() == 0;
        self.found = match (self.found, is_empty) {
            (Found::Nothing, _) => Found::Nothing,
            (_, true) => Found::GoneThenEmpty,
            (_, false) => Found::Gone,
        };
    }
}
