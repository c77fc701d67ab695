//! One client's line as the owner of the desk sees it.
ghost use Rattle.std.specs.Prelude.{◌≡◌, ◌<◌, ◌≤◌, ◌⊎◌, [], ◌++◌, true, length, take};
ghost use Rattle.timer_desk.specs.Inlet.{LineKind, taken_of, put_of, HandsBack};

use crate::word::{Numbered, Word};

/// What `take` returns.
#[derive(Clone, Copy, Debug, PartialEq, Eq)]
pub enum Taken {
    /// No request is known to stand in the line.
    Empty,
    /// The next request.
    Got(Numbered),
    /// Allocation failed. Nothing was taken.
    NoMemory,
}

/// What `put` returns. A word that was not put is handed back.
#[derive(Clone, Copy, Debug, PartialEq, Eq)]
pub enum Put {
    Done,
    /// The line has no room for it.
    Full(Word),
    /// Allocation failed.
    NoMemory(Word),
}

/// One client's line as the owner sees it.
pub trait Inlet {
    /// What the owner knows of each line, and what a call may do.
    ghost kind: { LineKind Self };

    /// Takes the next request from the line.
    fn take(&mut self) -> Taken
        ensures line { kind.same self.old self.new }
        ensures got { (kind.state self.new).got ≡ (kind.state self.old).got ++ taken_of result }
        ensures standing { ¬ ((kind.state self.old).standing ≡ [])
            → (kind.state self.old).standing ≡ taken_of result ++ (kind.state self.new).standing }
        ensures nothing_stands { (kind.state self.old).standing ≡ [] → (kind.state self.new).standing ≡ [] }
        ensures empty { result ≡ Taken.Empty → (kind.state self.old).standing ≡ [] }
        ensures memory { result ≡ Taken.NoMemory → kind.take_may_refuse ≡ true }
        ensures given { (kind.state self.new).given ≡ (kind.state self.old).given };

    /// Puts a word into the line, or hands it back.
    fn put(&mut self, word: Word) -> Put
        ensures line { kind.same self.old self.new }
        ensures given { (kind.state self.new).given ≡ (kind.state self.old).given ++ put_of result word }
        ensures back { HandsBack kind.put_may_refuse result word }
        ensures full { result ≡ Put.Full word → kind.is_full self.new }
        ensures got { (kind.state self.new).got ≡ (kind.state self.old).got }
        ensures standing { (kind.state self.new).standing ≡ (kind.state self.old).standing };

    /// Puts words into the line, in order, until it does not take one, and returns how many it took.
    ///
    /// A line may show them to its client all at once. It allocates or waits only if `put` does.
    fn put_slice(&mut self, words: &[Word]) -> usize
        ensures line { kind.same self.old self.new }
        ensures given { (kind.state self.new).given ≡ (kind.state self.old).given ++ take result words.now }
        ensures count { result ≤ length words.now }
        ensures stopped { result < length words.now → kind.is_full self.new ⊎ (kind.put_may_refuse ≡ true) }
        ensures got { (kind.state self.new).got ≡ (kind.state self.old).got }
        ensures standing { (kind.state self.new).standing ≡ (kind.state self.old).standing }
    {
        let mut count = 0;
        for word in words {
            if !matches!(self.put(*word), Put::Done) {
                return count;
            }
            count += 1;
        }
        count
    }
}
