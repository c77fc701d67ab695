//! A line over two rings, whose ends never wait.
//!
//!     client's thread                                   owner's thread
//!     ClientEnd     submit  --> ring of requests -->   take     RingInlet
//!                   receive <-- ring of words    <--   put
//!
//! Each ring has one producer and one consumer, and no call waits for the other end: it takes no lock, does not
//! allocate, and returns. Neither end knows what the other has done meanwhile. Once one end has finished, the
//! other settles the line, and from then on knows all that stands in the ring.
//!
//! `reader` has what a client that has finished still reads.
ghost use Rattle.std.specs.Prelude.{◌≡◌, ◌==◌, ◌↔◌, [], true, length};
ghost use Rattle.rtrb.specs.Ring.{ConsumerLooked, known_items};
ghost use Rattle.timer_desk.specs.Looks.{found_in, AreLooksInOrder};
ghost use Rattle.timer_desk.specs.declared.looks.Found.TheVariants as Found;

use crate::inlet::{Inlet, Put, Taken};
use crate::looks::Looks;
use crate::word::{Numbered, Word};
use rtrb::{Consumer, Finished, Producer, PushError};
use timer_base::LAST;
use timer_facility::Request;

mod reader;

/// Why a request was not sent. It is handed back.
#[derive(Clone, Copy, Debug, PartialEq, Eq)]
pub enum Unsent {
    /// The client's numbers are used up.
    Spent(Request),
    /// The ring has no room for it.
    Full(Request),
}

/// The client's end of a line. No call of it waits or allocates.
#[derive(Drop)]
pub struct ClientEnd {
    pub(crate) requests: Producer<Numbered>,
    pub(crate) words: Consumer<Word>,
    pub(crate) next: u64,
    // What was seen of the owner's end.
    pub(crate) looks: Looks,
}

/// The owner's end of a line. No call of it waits or allocates.
#[derive(Drop)]
pub struct RingInlet {
    pub(crate) requests: Consumer<Numbered>,
    pub(crate) words: Producer<Word>,
    pub(crate) settled: bool,
    // What was seen of the client's end.
    pub(crate) looks: Looks,
}

/// What is left of the requests' end of a client that has finished.
#[derive(Drop)]
pub struct RequestsEnded {
    finished: Finished<Numbered>,
}

/// What is left of the words' end of an owner that has finished.
#[derive(Drop)]
pub struct WordsEnded {
    finished: Finished<Word>,
}

/// The reader of a client that has finished.
#[derive(Drop)]
pub struct ClientReader {
    words: Consumer<Word>,
    settled: bool,
    // What was seen of the owner's end.
    looks: Looks,
}

impl ClientEnd {
    ghost use Rattle.std.specs.Prelude.{◌≡◌, ◌==◌, ◌+◌, ◌<◌, ◌≤◌, ◌↔◌, [], ◌∷◌, ◌++◌, true, false, length, Err, IsOk, OnOk, IfOk, IfErr, IfSome, IsNone};
    ghost use Rattle.timer_desk.specs.RingEnds.{line_of_end, submitted, received_by_end, free_of, seen_by_end, next_of, numbered, IsUnsent, requests_ring_of, words_ring_of_reader, all_submitted, read_by, is_settled_reader, found_by_end, found_by_reader};
    ghost use Rattle.timer_desk.specs.Looks.{AreLooksInOrder};
    ghost use Rattle.timer_desk.specs.declared.looks.Found.TheVariants as Found;

    /// The next request's number.
    pub fn next_number(&self) -> u64
        ensures { result ≡ next_of self.now }
    {
        self.next
    }

    /// Sends a request, and returns its number, one above that of the last.
    ///
    /// Fails with `Spent` if the number would be above `LAST`, else with `Full` if the ring has no
    /// room. Either hands the request back and changes nothing.
    pub fn submit(&mut self, request: Request) -> Result<u64, Unsent>
        ensures line { line_of_end self.new ≡ line_of_end self.old }
        ensures ok { IfOk result (λ n. (n ≡ next_of self.old) × (n ≤ LAST) × (next_of self.new ≡ n + 1)
            × (submitted self.new ≡ submitted self.old ++ numbered n request ∷ [])) }
        ensures err { IfErr result (λ e. IsUnsent e request (next_of self.old)
            × (next_of self.new ≡ next_of self.old) × (submitted self.new ≡ submitted self.old)) }
        ensures received { (received_by_end self.new ≡ received_by_end self.old)
            × (seen_by_end self.new ≡ seen_by_end self.old) }
        ensures found { found_by_end self.new ≡ found_by_end self.old }

        // `Full` only if the end knows of no free slot; with one known to be free the call succeeds.
        ensures full { result ≡ Err (Unsent.Full request) → free_of self.new ≡ 0 }
        ensures succeeds { (next_of self.old ≤ LAST) × (0 < free_of self.old) → IsOk result }
        ensures free { OnOk result (free_of self.old ≤ free_of self.new + 1) }
    {
        if self.next > LAST {
            return Err(Unsent::Spent(request));
        }
        let number = self.next;
        match self.requests.push(Numbered { number, request }) {
            Ok(()) => {
                self.next += 1;
                Ok(number)
            }
            Err(PushError::Full(back)) => Err(Unsent::Full(back.request)),
        }
    }

    /// Receives the next word.
    pub fn receive(&mut self) -> Option<Word>
        ensures line { line_of_end self.new ≡ line_of_end self.old }
        ensures some { IfSome result (λ w. received_by_end self.new ≡ received_by_end self.old ++ w ∷ []) }
        ensures none { IsNone result → (received_by_end self.new ≡ received_by_end self.old)
            × (seen_by_end self.old ≡ []) }
        ensures sent { (submitted self.new ≡ submitted self.old)
            × (next_of self.new ≡ next_of self.old) × (free_of self.new ≡ free_of self.old) }
        ensures found { found_by_end self.new ≡ found_by_end self.old }
    {
        match self.words.pop() {
            Ok(word) => Some(word),
            Err(_) => None,
        }
    }

    /// Whether the owner's end was dropped, and no word stands in the line.
    ///
    /// Whether it was dropped is the ring's answer, of which no contract speaks. True is returned only if the end
    /// was seen to be gone, and no word stood in the line after that: so each word that was put before the drop is
    /// received first.
    pub fn is_abandoned(&mut self) -> bool
        ensures line { line_of_end self.new ≡ line_of_end self.old }
        ensures over { result ≡ true ↔ (found_by_end self.new ≡ Found.GoneThenEmpty) }
        ensures order { AreLooksInOrder (found_by_end self.old) (found_by_end self.new)
            (length (seen_by_end self.new) == 0) }
        ensures yes { result ≡ true → (seen_by_end self.old ≡ []) × (seen_by_end self.new ≡ []) }
        ensures received { received_by_end self.new ≡ received_by_end self.old }
        ensures sent { (submitted self.new ≡ submitted self.old)
            × (next_of self.new ≡ next_of self.old) × (free_of self.new ≡ free_of self.old) }
    {
        no_word_comes(&mut self.looks, &mut self.words)
    }

    /// Ends the client's requests. The first result is None if the owner's end was dropped: that is the ring's
    /// answer, of which no clause speaks.
    pub fn finish(self) -> (Option<RequestsEnded>, ClientReader)
        ensures ended { IfSome result.0 (λ e. (requests_ring_of e ≡ (line_of_end self).0)
            × (all_submitted e ≡ submitted self)) }
        ensures reader { (words_ring_of_reader result.1 ≡ (line_of_end self).1)
            × (read_by result.1 ≡ received_by_end self) × (is_settled_reader result.1 ≡ false) }
        ensures found { found_by_reader result.1 ≡ found_by_end self }
    {
        let ClientEnd {
            requests,
            words,
            next: _,
            looks,
        } = self;
        let ended = match requests.finish() {
            Some(finished) => Some(RequestsEnded { finished }),
            None => None,
        };
        let reader = ClientReader {
            words,
            settled: false,
            looks,
        };
        (ended, reader)
    }
}

impl Inlet for RingInlet {
    ghost use Rattle.std.specs.Prelude.{◌≡◌, ◌+◌, ◌<◌, ◌≤◌, ◌⊎◌, [], ◌++◌, true, false, length, take};
    ghost use Rattle.timer_desk.specs.Inlet.{taken_of, put_of, HandsBack};
    ghost use Rattle.timer_desk.specs.RingEnds.{got_of, standing_of, given_of, is_settled, seen_by_inlet, free_of_inlet, SameRingLine, ring_lines};

    ghost kind = { ring_lines };

    /// Takes the next request.
    fn take(&mut self) -> Taken
        ensures line { SameRingLine self.old self.new }
        ensures got { got_of self.new ≡ got_of self.old ++ taken_of result }
        ensures standing { ¬ (standing_of self.old ≡ [])
            → standing_of self.old ≡ taken_of result ++ standing_of self.new }
        ensures nothing_stands { standing_of self.old ≡ [] → standing_of self.new ≡ [] }
        ensures empty { result ≡ Taken.Empty → standing_of self.old ≡ [] }
        ensures memory { result ≡ Taken.NoMemory → false ≡ true }
        ensures given { (given_of self.new ≡ given_of self.old)
            × (free_of_inlet self.new ≡ free_of_inlet self.old) }

        // `Empty` only if no request is known to stand; and only `settle` settles the line.
        ensures none_seen { result ≡ Taken.Empty → seen_by_inlet self.old ≡ [] }
        ensures settled { is_settled self.new ≡ is_settled self.old }
    {
        if self.settled {
            if self.requests.cached_slots() == 0 {
                return Taken::Empty;
            }
            let Numbered { number, request } = self.requests.pop_known();
            return Taken::Got(Numbered { number, request });
        }
        match self.requests.pop() {
            Ok(Numbered { number, request }) => Taken::Got(Numbered { number, request }),
            Err(_) => Taken::Empty,
        }
    }

    /// Puts a word, or hands it back.
    fn put(&mut self, word: Word) -> Put
        ensures line { SameRingLine self.old self.new }
        ensures given { given_of self.new ≡ given_of self.old ++ put_of result word }
        ensures back { HandsBack false result word }
        ensures full { result ≡ Put.Full word → free_of_inlet self.new ≡ 0 }
        ensures got { got_of self.new ≡ got_of self.old }
        ensures standing { standing_of self.new ≡ standing_of self.old }

        // With a slot known to be free the word is put.
        ensures succeeds { 0 < free_of_inlet self.old → result ≡ Put.Done }
        ensures free { result ≡ Put.Done → free_of_inlet self.old ≤ free_of_inlet self.new + 1 }
        ensures settled { is_settled self.new ≡ is_settled self.old }
    {
        match self.words.push(word) {
            Ok(()) => Put::Done,
            Err(PushError::Full(back)) => Put::Full(back),
        }
    }

    /// Puts words, and shows them to the client with one atomic store.
    fn put_slice(&mut self, words: &[Word]) -> usize
        ensures line { SameRingLine self.old self.new }
        ensures given { given_of self.new ≡ given_of self.old ++ take result words.now }
        ensures count { result ≤ length words.now }
        ensures stopped { result < length words.now → (free_of_inlet self.new ≡ 0) ⊎ (false ≡ true) }
        ensures got { got_of self.new ≡ got_of self.old }
        ensures standing { standing_of self.new ≡ standing_of self.old }

        // As many words as there are slots known to be free are put.
        ensures free { free_of_inlet self.old ≤ free_of_inlet self.new + result }
        ensures settled { is_settled self.new ≡ is_settled self.old }
    {
        let (pushed, _) = self.words.push_partial_slice(words);
        pushed.len()
    }
}

impl RingInlet {
    ghost use Rattle.std.specs.Prelude.{◌≡◌, ◌≢◌, ◌==◌, ◌↔◌, [], ◌++◌, true, false, length, IfSome};
    ghost use Rattle.timer_desk.specs.RingEnds.{line_of_inlet, got_of, standing_of, given_of, is_settled, free_of_inlet, seen_by_inlet, found_by_inlet, IsOver, requests_ring_of, words_ring_of, all_submitted, all_given};
    ghost use Rattle.timer_desk.specs.Settlement.{HasLooked};
    ghost use Rattle.timer_desk.specs.Looks.{MayFind, AreLooksInOrder};
    ghost use Rattle.timer_desk.specs.declared.looks.Found.TheVariants as Found;

    /// Settles the line once its client has finished, and returns how many requests stand in it.
    pub fn settle(&mut self, ended: &mut RequestsEnded) -> usize
        requires { requests_ring_of ended.old ≡ (line_of_inlet self.old).0 }
        ensures line { line_of_inlet self.new ≡ line_of_inlet self.old }
        ensures settled { is_settled self.new ≡ true }
        ensures all { got_of self.new ++ standing_of self.new ≡ all_submitted ended.old }
        ensures count { result ≡ length (standing_of self.new) }
        ensures got { got_of self.new ≡ got_of self.old }
        ensures given { (given_of self.new ≡ given_of self.old)
            × (free_of_inlet self.new ≡ free_of_inlet self.old) }
        ensures found { found_by_inlet self.new ≡ found_by_inlet self.old }
        ensures ended { (requests_ring_of ended.new ≡ requests_ring_of ended.old)
            × (all_submitted ended.new ≡ all_submitted ended.old) }
    {
        self.settled = true;
        self.requests.slots_after(&mut ended.finished)
    }

    /// Whether the client's end was dropped. Once true it stays true.
    ///
    /// That is the ring's answer, of which no contract speaks.
    pub fn is_abandoned(&mut self) -> bool
        ensures looked { HasLooked self.old self.new }
        ensures gone { result ≡ true ↔ (found_by_inlet self.new ≢ Found.Nothing) }
        ensures stays { MayFind (found_by_inlet self.old) (found_by_inlet self.new) }
        ensures seen { seen_by_inlet self.new ≡ seen_by_inlet self.old }
    {
        self.looks.at_consumer(&mut self.words);
        self.looks.is_gone()
    }

    /// Whether the client's end was dropped, and no request stands in the line: then no further request arrives.
    ///
    /// True is returned only if the end was seen to be gone, and no request stood in the line after that: so each
    /// request that was sent before the drop is taken first. What stands in a settled line is known.
    pub fn is_over(&mut self) -> bool
        ensures looked { HasLooked self.old self.new }
        ensures over { result ≡ true ↔ IsOver self.new }
        ensures order { is_settled self.old ≡ false → AreLooksInOrder (found_by_inlet self.old)
            (found_by_inlet self.new) (length (seen_by_inlet self.new) == 0) }
        ensures settled { is_settled self.old ≡ true → MayFind (found_by_inlet self.old) (found_by_inlet self.new) }
        ensures yes { result ≡ true → seen_by_inlet self.old ≡ [] }
    {
        let gone = self.is_abandoned();
        if self.settled {
            return gone && self.requests.cached_slots() == 0;
        }
        self.looks.at_items(&mut self.requests);
        self.looks.is_over()
    }

    /// Ends the owner's words. None only if the client's end was dropped.
    pub fn finish(self) -> Option<WordsEnded>
        ensures { IfSome result (λ e. (words_ring_of e ≡ (line_of_inlet self).1)
            × (all_given e ≡ given_of self)) }
    {
        let RingInlet {
            requests: _,
            words,
            settled: _,
            looks: _,
        } = self;
        match words.finish() {
            Some(finished) => Some(WordsEnded { finished }),
            None => None,
        }
    }
}

/// Looks whether the end that puts the words is gone, and then whether a word stands in the line. Returns whether none
/// comes any more.
fn no_word_comes(looks: &mut Looks, words: &mut Consumer<Word>) -> bool
    ensures over { result ≡ true ↔ (found_in looks.new ≡ Found.GoneThenEmpty) }
    ensures order { AreLooksInOrder (found_in looks.old) (found_in looks.new) (length (known_items words.new) == 0) }
    ensures yes { result ≡ true → (known_items words.old ≡ []) × (known_items words.new ≡ []) }
    ensures looked { ConsumerLooked words.old words.new }
{
    looks.at_producer(words);
    looks.at_items(words);
    looks.is_over()
}
