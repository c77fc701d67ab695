//! Lemmas about the text of a journal, each the contract of a function that does nothing.
ghost use Rattle.std.specs.Prelude.{◌≡◌, ◌≢◌, ◌≤◌, ◌++◌, [], List, ℕ, length};
ghost use Rattle.timer_durable.specs.Types.{LAST, Beginning};
ghost use Rattle.timer_durable.specs.Beginning.{preamble_of, IsCounted};

/// The text of a journal that has begun is read in one way only: what was written before it, the state at its beginning
/// and the lines since are those that were written. It is never the text of one that has not begun.
#[tactic(auto, using(crate::proofs::Preambles::one_preamble, crate::proofs::Preambles::some_preamble))]
pub fn a_journal_begins_in_one_way()
    ensures one { (options : List ℕ) (b c : Beginning) (s t l m : List ℕ) → IsCounted b → IsCounted c
        → length s ≤ LAST → length t ≤ LAST → preamble_of options b s ++ l ≡ preamble_of options c t ++ m
        → (b ≡ c) × (s ≡ t) × (l ≡ m) }
    ensures some { (options : List ℕ) (b : Beginning) (s l : List ℕ) → preamble_of options b s ++ l ≢ [] }
{}
