//! A desk over ring lines settles a line whose client has finished: its requests, and its words. It drops the words
//! to a client that is gone, and stops its timers.
ghost use Rattle.std.specs.Prelude.{◌≡◌, ◌==◌, ◌+◌, ◌<◌, ◌↔◌, ◌≢◌, [], ℕ, true, false, length, get_or};
ghost use Rattle.timer_facility.specs.State.{number_of};
ghost use Rattle.timer_desk.specs.Backlog.{BacklogState};
ghost use Rattle.timer_desk.specs.Desk.{clients_of, backlog_at};
ghost use Rattle.timer_desk.specs.RingEnds.{line_of_inlet, is_settled, seen_by_inlet, found_by_inlet, IsOver, requests_ring_of, all_submitted, words_ring_of_reader, read_by, unread_by, is_settled_reader};
ghost use Rattle.timer_desk.specs.Looks.{MayFind, AreLooksInOrder};
ghost use Rattle.timer_desk.specs.declared.looks.Found.TheVariants as Found;
ghost use Rattle.timer_desk.specs.WindingUp.{IsReadOut};

use crate::desk::Desk;
use crate::ring_ends::{ClientReader, RequestsEnded, RingInlet};
use timer_base::{Handle, Wheel};
use timer_facility::{Answer, NotTaken, Request};

impl<W: Wheel + Drop> Desk<W, RingInlet> {
    ghost use Rattle.timer_desk.specs.Settlement.{HasSettled, HasLooked, OnlyLooks, stop_step, stop_outs};

    /// Settles the line of client c, and returns how many requests stand in it. Does not allocate.
    pub fn settle(&mut self, c: usize, ended: &mut RequestsEnded) -> usize
        requires client { c < clients_of self.old }
        requires line { (i : RingInlet) → requests_ring_of ended.old
            ≡ (line_of_inlet (get_or self.old.inlets c i)).0 }
        ensures others { (k : ℕ) (i : RingInlet) → k ≢ c
            → get_or self.new.inlets k i ≡ get_or self.old.inlets k i }
        ensures clients { clients_of self.new ≡ clients_of self.old }
        ensures facility { self.new.facility ≡ self.old.facility }
        ensures backlogs { self.new.backlogs ≡ self.old.backlogs }
        ensures settled { (i : RingInlet) → HasSettled (get_or self.old.inlets c i)
            (get_or self.new.inlets c i) (all_submitted ended.old) result }
        ensures ended { (requests_ring_of ended.new ≡ requests_ring_of ended.old)
            × (all_submitted ended.new ≡ all_submitted ended.old) }
    {
        self.inlets[c].settle(ended)
    }

    /// Whether client c has dropped its end of its line. Once true it stays true. Does not allocate.
    ///
    /// That is the ring's answer, of which no contract speaks; and nothing changes but what is known of the line.
    pub fn is_abandoned(&mut self, c: usize) -> bool
        requires { c < clients_of self.old }
        ensures looks { OnlyLooks c self.old self.new }
        ensures gone { (i : RingInlet) → result ≡ true ↔ (found_by_inlet (get_or self.new.inlets c i)
            ≢ Found.Nothing) }
        ensures stays { (i : RingInlet) → MayFind (found_by_inlet (get_or self.old.inlets c i))
            (found_by_inlet (get_or self.new.inlets c i)) }
    {
        self.inlets[c].is_abandoned()
    }

    /// Whether client c has dropped its end of its line, and no request stands in the line: then none comes any
    /// more. Does not allocate.
    pub fn is_over(&mut self, c: usize) -> bool
        requires { c < clients_of self.old }
        ensures looks { OnlyLooks c self.old self.new }
        ensures over { (i : RingInlet) → result ≡ true ↔ IsOver (get_or self.new.inlets c i) }
        ensures order { (i : RingInlet) → is_settled (get_or self.old.inlets c i) ≡ false
            → AreLooksInOrder (found_by_inlet (get_or self.old.inlets c i)) (found_by_inlet (get_or self.new.inlets c i))
            (length (seen_by_inlet (get_or self.new.inlets c i)) == 0) }
    {
        self.inlets[c].is_over()
    }

    /// Drops the words in the outbox of client c if the client has dropped its end of its line, and returns how
    /// many. Does not allocate.
    pub fn discard(&mut self, c: usize) -> usize
        requires { c < clients_of self.old }
        ensures others { (k : ℕ) (i : RingInlet) → k ≢ c
            → get_or self.new.inlets k i ≡ get_or self.old.inlets k i }
        ensures clients { clients_of self.new ≡ clients_of self.old }
        ensures facility { self.new.facility ≡ self.old.facility }
        ensures looked { (i : RingInlet) → HasLooked (get_or self.old.inlets c i)
            (get_or self.new.inlets c i) }
        ensures other_backlogs { (k : ℕ) (b : BacklogState) → k ≢ c
            → get_or self.new.backlogs k b ≡ get_or self.old.backlogs k b }
        ensures as_many { length self.new.backlogs ≡ length self.old.backlogs }
        ensures stays { (i : RingInlet) → MayFind (found_by_inlet (get_or self.old.inlets c i))
            (found_by_inlet (get_or self.new.inlets c i)) }

        ensures count { result + length (backlog_at self.new c).outbox
            ≡ length (backlog_at self.old c).outbox }

        // All of them if the client was seen to be gone, and none otherwise.
        ensures gone { (i : RingInlet) → found_by_inlet (get_or self.new.inlets c i) ≢ Found.Nothing
            → backlog_at self.new c ≡ record (backlog_at self.old c) { outbox = [] } }
        ensures there { (i : RingInlet) → found_by_inlet (get_or self.new.inlets c i) ≡ Found.Nothing
            → backlog_at self.new c ≡ backlog_at self.old c }
    {
        if !self.inlets[c].is_abandoned() {
            return 0;
        }
        self.backlogs[c].discard()
    }

    /// Stops the timer with this handle in the name of client c, which was seen to have dropped its end of its line,
    /// and returns the answer. Nobody else gets it. Does not allocate.
    ///
    /// It is a request of the client under its next number, as if it stood in its line: so the numbers of its requests
    /// go on, and one that stands there under this number is refused as `Repeated` once it is taken.
    pub fn stop_for(&mut self, c: usize, handle: Handle) -> Result<Answer, NotTaken>
        requires client { c < clients_of self.old }
        requires gone { (i : RingInlet) → found_by_inlet (get_or self.old.inlets c i) ≢ Found.Nothing }
        ensures answer { (stop_step self.old.facility c handle).outs
            ≡ stop_outs c (number_of self.old.facility c) result }
        ensures desk { self.new ≡ record self.old { facility = (stop_step self.old.facility c handle).state } }
    {
        let client = c as u64;
        let number = self.facility.next_number(client).unwrap_or(0);
        self.facility.take(client, number, Request::Stop(handle))
    }

    /// Settles the reader of client c, and returns how many words stand in its line: with what it has
    /// received they are all that were given. Does not allocate.
    pub fn settle_reader(&mut self, c: usize, reader: &mut ClientReader) -> usize
        requires client { c < clients_of self.old }
        requires line { (i : RingInlet) → words_ring_of_reader reader.old
            ≡ (line_of_inlet (get_or self.old.inlets c i)).1 }
        ensures looks { OnlyLooks c self.old self.new }
        ensures read_out { (i : RingInlet) → IsReadOut (get_or self.old.inlets c i) reader.old reader.new }
        ensures found { (i : RingInlet) → found_by_inlet (get_or self.new.inlets c i)
            ≡ found_by_inlet (get_or self.old.inlets c i) }
        ensures count { result ≡ length (unread_by reader.new) }
        ensures settled { is_settled_reader reader.new ≡ true }
        ensures reader { (words_ring_of_reader reader.new ≡ words_ring_of_reader reader.old)
            × (read_by reader.new ≡ read_by reader.old) }
    {
        reader.settle_beside(&mut self.inlets[c])
    }
}
