//! What a client that has finished reads: the words that stand in its line, and those that still come.

use crate::ring_ends::{ClientReader, RingInlet, WordsEnded, no_word_comes};
use crate::word::Word;

impl ClientReader {
    ghost use Rattle.std.specs.Prelude.{◌≡◌, ◌==◌, ◌<◌, ◌↔◌, ◌⊎◌, [], ◌∷◌, ◌++◌, true, false, length, IfSome, IsNone};
    ghost use Rattle.timer_desk.specs.RingEnds.{words_ring_of_reader, words_ring_of, read_by, unread_by, seen_by_reader, is_settled_reader, found_by_reader, found_by_inlet, all_given, line_of_inlet};
    ghost use Rattle.timer_desk.specs.Looks.{AreLooksInOrder};
    ghost use Rattle.timer_desk.specs.declared.looks.Found.TheVariants as Found;
    ghost use Rattle.timer_desk.specs.WindingUp.{IsReadOut};
    ghost use Rattle.timer_desk.specs.Settlement.{HasLooked};

    /// Receives the next word.
    pub fn receive(&mut self) -> Option<Word>
        ensures line { words_ring_of_reader self.new ≡ words_ring_of_reader self.old }
        ensures some { IfSome result (λ w. read_by self.new ≡ read_by self.old ++ w ∷ []) }
        ensures none { IsNone result → (read_by self.new ≡ read_by self.old) × (unread_by self.old ≡ [])
            × (seen_by_reader self.old ≡ []) }
        ensures settled { is_settled_reader self.new ≡ is_settled_reader self.old }
        ensures found { found_by_reader self.new ≡ found_by_reader self.old }
        ensures all { is_settled_reader self.old ≡ true
            → read_by self.new ++ unread_by self.new ≡ read_by self.old ++ unread_by self.old }
    {
        if self.settled {
            if self.words.cached_slots() == 0 {
                return None;
            }
            return Some(self.words.pop_known());
        }
        match self.words.pop() {
            Ok(word) => Some(word),
            Err(_) => None,
        }
    }

    /// Settles the line once its owner has finished, and returns how many words stand in it.
    pub fn settle(&mut self, ended: &mut WordsEnded) -> usize
        requires { words_ring_of ended.old ≡ words_ring_of_reader self.old }
        ensures line { words_ring_of_reader self.new ≡ words_ring_of_reader self.old }
        ensures settled { is_settled_reader self.new ≡ true }
        ensures all { read_by self.new ++ unread_by self.new ≡ all_given ended.old }
        ensures count { result ≡ length (unread_by self.new) }
        ensures read { read_by self.new ≡ read_by self.old }
        ensures found { found_by_reader self.new ≡ found_by_reader self.old }
        ensures ended { (words_ring_of ended.new ≡ words_ring_of ended.old)
            × (all_given ended.new ≡ all_given ended.old) }
    {
        self.settled = true;
        self.words.slots_after(&mut ended.finished)
    }

    /// Whether the owner's end was dropped before the line was settled, and no word stands in the line.
    ///
    /// No contract speaks of the ring's answer, and the looks are made in the same order, as in
    /// `ClientEnd::is_abandoned`. If the line is settled, the ring is not asked.
    pub fn is_abandoned(&mut self) -> bool
        ensures line { words_ring_of_reader self.new ≡ words_ring_of_reader self.old }
        ensures over { is_settled_reader self.old ≡ false
            → (result ≡ true ↔ (found_by_reader self.new ≡ Found.GoneThenEmpty)) }
        ensures order { is_settled_reader self.old ≡ false → AreLooksInOrder (found_by_reader self.old)
            (found_by_reader self.new) (length (seen_by_reader self.new) == 0) }
        ensures same { is_settled_reader self.old ≡ true → self.new ≡ self.old }
        ensures yes { result ≡ true → (is_settled_reader self.old ≡ false)
            × (seen_by_reader self.old ≡ []) × (seen_by_reader self.new ≡ []) }
        ensures read { (read_by self.new ≡ read_by self.old) × (unread_by self.new ≡ unread_by self.old) }
        ensures settled { is_settled_reader self.new ≡ is_settled_reader self.old }
    {
        if self.settled {
            return false;
        }
        no_word_comes(&mut self.looks, &mut self.words)
    }

    /// Whether the line is settled and all words that stood in it were received.
    pub fn is_read_out(&self) -> bool
        ensures yes { result ≡ true → (is_settled_reader self.now ≡ true) × (unread_by self.now ≡ []) }
        ensures no { result ≡ false → (is_settled_reader self.now ≡ false)
            ⊎ (0 < length (unread_by self.now)) }
    {
        self.settled && self.words.cached_slots() == 0
    }

    /// Settles the line for a thread that has its owner's end too, and returns how many words stand in it.
    ///
    /// That end still takes requests. A word that it gives from then on is not received.
    pub fn settle_beside(&mut self, inlet: &mut RingInlet) -> usize
        requires { words_ring_of_reader self.old ≡ (line_of_inlet inlet.old).1 }
        ensures read_out { IsReadOut inlet.old self.old self.new }
        ensures count { result ≡ length (unread_by self.new) }
        ensures inlet { HasLooked inlet.old inlet.new }
        ensures found { found_by_inlet inlet.new ≡ found_by_inlet inlet.old }
    {
        self.settled = true;
        self.words.slots_beside(&mut inlet.words)
    }
}
