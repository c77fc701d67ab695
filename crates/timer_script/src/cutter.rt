//! Cuts a stream of bytes, which arrives in pieces of any size, into lines, and reads the good ones.
//!
//! A bad line ends the stream, or is reported by its number, its column and the reason, and skipped. At most
//! `MAX_LINE` bytes of a line that has not ended are held. A longer line is bad. It ends the stream as soon as
//! so many bytes came; or its other bytes are skipped, up to its line feed, and the reason is that of its front.
//!
//!     piece                 events          reports                                 held
//!     "start 0 1"                                                                   "start 0 1"
//!     " 3 7\ntikc 3\ntick"  start 0 1 3 7   "bad line 2, column 3: unknown word\n"  "tick"
//!     " 3\n"                tick 3
ghost use Rattle.std.specs.Prelude.{◌≡◌, ◌↔◌, ◌<◌, ◌≤◌, ◌++◌, ◌∷◌, [], ℕ, List, length, take, true, IfOk, IfErr, OnOk, OnErr};
ghost use Rattle.timer_script.specs.Types.{Event, OnBadLine, Watched, MAX_LINE};
ghost use Rattle.timer_script.specs.Script.{HasNoFeed};
ghost use Rattle.timer_script.specs.Lines.{read_view, stream_at};
ghost use Rattle.timer_script.specs.Cutter.{Complaint, complaint_line, HasEndedLine, StopsLine, HasSorted, HasSortedSince, StopsAt, HasReported, HasReachedEnd, HasTakenIn, UnlessStopped};

use crate::diagnosis::fault_of_bad;
use crate::fault::ScriptFault;
use crate::line_fault::LineFault;
use crate::lines::{Grammar, MAX_LINE, line_len, read_line, read_stream_line};
use crate::output::write_text;
use crate::script_report::push_fault;
use crate::watched::Watched;
use std::alloc::Global;
use std::io::Write;
use timer_base::OutOfMemory;
use timer_facility::Event;

/// What a server does about a bad line.
#[derive(Clone, Copy, Debug, PartialEq, Eq)]
pub enum OnBadLine {
    /// It ends there, with an error that names the line.
    Stop,
    /// It reports the line by its number, with the column and the reason, and goes on.
    Report,
}

/// The lines of the last piece, and the front of a line that has not ended.
#[derive(Drop)]
pub struct Cutter {
    pub on_bad: OnBadLine,
    /// The events of the good lines that ended in the last piece.
    pub events: Vec<Event>,
    /// One line for each of its bad ones.
    pub reports: Vec<u8>,
    /// The bytes of a line that has not ended, as many as a line may have.
    pub held: Vec<u8>,
    /// The number of that line, counted from 1.
    pub number: u64,
    /// No bad line was reported.
    pub clean: bool,
}

/// Appends the report of a bad line.
fn push_complaint(reports: &mut Vec<u8>, number: u64, fault: LineFault) -> Result<(), OutOfMemory>
    ensures { OnOk result (reports.new.items ≡ reports.old.items ++ complaint_line (number, fault)) }
{
    reports.extend_from_slice(b"bad ")?;
    push_fault(reports, number, fault)?;
    Ok(())
}

/// The event of a line of a stream. Not inlined: it comes through memory, and the lines of a script are not to wait.
#[inline(never)]
fn read_apart(bytes: &[u8]) -> Option<(Event, &[u8])>
    ensures { read_view (λ e. e) result ≡ stream_at bytes.now }
{
    read_stream_line(bytes)
}

/// Appends an event. A close has no fields, and none are written for it.
#[inline(always)]
fn push_event(events: &mut Vec<Event>, event: Event) -> Result<(), OutOfMemory>
    ensures { OnOk result (events.new.items ≡ events.old.items ++ event ∷ []) }
{
    match event {
        Event::Close => events.push(Event::Close)?,
        _ => events.push(event)?,
    }
    Ok(())
}

/// Keeps the event of a line if it is good, and else reports the line, or stops there. If the line is too long,
/// only its front is held.
#[tactic(auto, using(crate::proofs::CutterLines::ended_good, crate::proofs::CutterLines::ended_bad))]
fn sort_line(
    on_bad: OnBadLine,
    held: &[u8],
    number: u64,
    events: &mut Vec<Event>,
    reports: &mut Vec<u8>,
) -> Result<(), ScriptFault>
    ensures ended { OnOk result ((front : List ℕ) → HasNoFeed front → held.now ≡ take MAX_LINE (front ++ 10 ∷ [])
        → HasEndedLine on_bad (front ++ 10 ∷ []) number events.old.items events.new.items
        reports.old.items reports.new.items) }
    ensures stopped { IfErr result (λ fault. StopsLine fault on_bad number held.now
        events.old.items events.new.items) }
{
    match read_stream_line(held) {
        Some((event, _)) => {
            events.push(event)?;
            Ok(())
        }
        None => match on_bad {
            OnBadLine::Stop => Err(ScriptFault::Bad { line: number }),
            OnBadLine::Report => {
                push_complaint(reports, number, fault_of_bad(Grammar::Stream, held))?;
                Ok(())
            }
        },
    }
}

/// Writes the text, unless the writer fails. One that failed before is left alone.
fn write_report<F: Write>(writer: &mut Watched<F>, text: &[u8])
    ensures reported { HasReported F.contents writer.old writer.new text.now }
    ensures untouched { text.now ≡ [] → writer.new ≡ writer.old }
{
    if !text.is_empty() && !writer.failed() {
        let _ = write_text(writer, text);
    }
}

/// Whether no line was bad before, and none is reported now.
fn is_clean(clean: bool, reports: &[u8]) -> bool
    ensures { (result ≡ true) ↔ ((clean ≡ true) × (reports.now ≡ [])) }
{
    clean && reports.is_empty()
}

impl Cutter {
    /// Nothing came yet. Does not allocate.
    pub fn new(alloc: Global, on_bad: OnBadLine) -> Cutter
        ensures on_bad { result.on_bad ≡ on_bad }
        ensures held { result.held.items ≡ [] }
        ensures number { result.number ≡ 1 }
        ensures clean { result.clean ≡ true }
    {
        Cutter {
            on_bad,
            events: Vec::new(alloc),
            reports: Vec::new(alloc),
            held: Vec::new(alloc),
            number: 1,
            clean: true,
        }
    }

    /// Takes a piece in, and reports the bad lines that end in it; or returns the number of the bad line that
    /// ends the stream. The only error is out of memory, after which some bytes may be lost, and nothing is
    /// reported of them.
    pub fn take_in<F: Write>(
        &mut self,
        piece: &[u8],
        faults: &mut Watched<F>,
    ) -> Result<Option<u64>, OutOfMemory>
        ensures taken { IfOk result (λ stop. (on_bad : OnBadLine) (writer : Watched F) (came : List ℕ)
            (events : List Event) → HasTakenIn on_bad self.old F.contents writer faults.old came events
            → UnlessStopped stop (HasTakenIn on_bad self.new F.contents writer faults.new) on_bad writer faults.new
            (came ++ piece.now) (events ++ self.new.events.items)) }
        ensures unreported { OnErr result (faults.new ≡ faults.old) }
    {
        match self.cut(piece) {
            Ok(()) => {
                write_report(faults, &self.reports);
                self.clean = is_clean(self.clean, &self.reports);
                Ok(None)
            }
            Err(fault) => match fault {
                ScriptFault::Bad { line } => Ok(Some(line)),
                ScriptFault::OutOfMemory => Err(OutOfMemory),
            },
        }
    }

    /// The stream ended: reports a line that has not, or returns its number. The only error is out of memory,
    /// and then nothing is reported.
    pub fn end<F: Write>(&mut self, faults: &mut Watched<F>) -> Result<Option<u64>, OutOfMemory>
        ensures ended { IfOk result (λ stop. (on_bad : OnBadLine) (writer : Watched F) (came : List ℕ)
            (events : List Event) → HasTakenIn on_bad self.old F.contents writer faults.old came events
            → UnlessStopped stop (HasReachedEnd on_bad self.new.clean F.contents writer faults.new) on_bad writer faults.new
            came events) }
        ensures unreported { OnErr result (faults.new ≡ faults.old) }
    {
        if self.held.is_empty() {
            return Ok(None);
        }
        match self.on_bad {
            OnBadLine::Stop => Ok(Some(self.number)),
            OnBadLine::Report => {
                self.reports.clear();
                let fault = fault_of_bad(Grammar::Stream, &self.held);
                push_complaint(&mut self.reports, self.number, fault)?;
                write_report(faults, &self.reports);
                self.clean = false;
                Ok(None)
            }
        }
    }

    /// Keeps the events of the lines that end in the piece, and the reports of the bad ones.
    ///
    /// `Bad` names the bad line at which the stream ends. After `OutOfMemory` some bytes may be lost.
    fn cut(&mut self, piece: &[u8]) -> Result<(), ScriptFault>
        ensures cut { OnOk result ((on_bad : OnBadLine) (came : List ℕ) (events : List Event) (bad : List Complaint)
            → self.old.on_bad ≡ on_bad → HasSorted on_bad self.old.held.items self.old.number came events bad
            → HasSortedSince on_bad self.new (came ++ piece.now) events bad) }
        ensures stopped { IfErr result (λ fault. (on_bad : OnBadLine) (came : List ℕ) (events : List Event)
            (bad : List Complaint) → self.old.on_bad ≡ on_bad
            → HasSorted on_bad self.old.held.items self.old.number came events bad
            → StopsAt fault on_bad (came ++ piece.now) (events ++ self.new.events.items)) }
        ensures clean { self.new.clean ≡ self.old.clean }
    {
        self.events.clear();
        self.reports.clear();
        let mut taken = 0;
        while taken < piece.len() {
            taken += self.take_lines(&piece[taken..])?;
        }
        Ok(())
    }

    /// Consumes the good lines at the front, or else bytes up to the end of a line, and returns how many.
    fn take_lines(&mut self, bytes: &[u8]) -> Result<usize, ScriptFault>
        requires some { 0 < length bytes.now }
        ensures some { IfOk result (λ n. 0 < n) }
        ensures within { IfOk result (λ n. n ≤ length bytes.now) }
        ensures cut { IfOk result (λ n. (on_bad : OnBadLine) (came : List ℕ) (events : List Event)
            (bad : List Complaint) → HasSortedSince on_bad self.old came events bad
            → HasSortedSince on_bad self.new (came ++ take n bytes.now) events bad) }
        ensures stopped { IfErr result (λ fault. (on_bad : OnBadLine) (came : List ℕ) (events : List Event)
            (bad : List Complaint) → HasSortedSince on_bad self.old came events bad
            → StopsAt fault on_bad (came ++ bytes.now) (events ++ self.new.events.items)) }
        ensures clean { self.new.clean ≡ self.old.clean }
    {
        let len = self.take_good_lines(bytes)?;
        if len > 0 {
            return Ok(len);
        }
        self.take_line(bytes)
    }

    /// Consumes the good lines at the front, unless the front of a line is held, and returns how many bytes they take.
    /// They are read in place.
    fn take_good_lines(&mut self, bytes: &[u8]) -> Result<usize, OutOfMemory>
        ensures within { IfOk result (λ n. n ≤ length bytes.now) }
        ensures cut { IfOk result (λ n. (on_bad : OnBadLine) (came : List ℕ) (events : List Event)
            (bad : List Complaint) → HasSortedSince on_bad self.old came events bad
            → HasSortedSince on_bad self.new (came ++ take n bytes.now) events bad) }
        ensures clean { self.new.clean ≡ self.old.clean }
    {
        if !self.held.is_empty() {
            return Ok(0);
        }
        let before = self.events.len();
        let mut rest = bytes;
        while !rest.is_empty() {
            if let Some((event, after)) = read_line(rest) {
                push_event(&mut self.events, event)?;
                rest = after;
                continue;
            }
            let Some((event, after)) = read_apart(rest) else {
                break;
            };
            self.events.push(event)?;
            rest = after;
        }
        let taken = (self.events.len() - before) as u64;
        self.number = self.number.saturating_add(taken);
        Ok(bytes.len() - rest.len())
    }

    /// Consumes bytes up to the end of a line, and returns how many.
    fn take_line(&mut self, bytes: &[u8]) -> Result<usize, ScriptFault>
        requires some { 0 < length bytes.now }
        ensures some { IfOk result (λ n. 0 < n) }
        ensures within { IfOk result (λ n. n ≤ length bytes.now) }
        ensures cut { IfOk result (λ n. (on_bad : OnBadLine) (came : List ℕ) (events : List Event)
            (bad : List Complaint) → HasSortedSince on_bad self.old came events bad
            → HasSortedSince on_bad self.new (came ++ take n bytes.now) events bad) }
        ensures stopped { IfErr result (λ fault. (on_bad : OnBadLine) (came : List ℕ) (events : List Event)
            (bad : List Complaint) → HasSortedSince on_bad self.old came events bad
            → StopsAt fault on_bad (came ++ bytes.now) (events ++ self.new.events.items)) }
        ensures clean { self.new.clean ≡ self.old.clean }
    {
        let len = line_len(bytes);
        let room = MAX_LINE.saturating_sub(self.held.len());
        self.held.extend_from_slice(&bytes[..len.min(room)])?;
        if bytes[len - 1] == b'\n' {
            sort_line(
                self.on_bad,
                &self.held,
                self.number,
                &mut self.events,
                &mut self.reports,
            )?;
            self.held.clear();
            self.number = self.number.saturating_add(1);
        } else if self.is_too_long() {
            return Err(ScriptFault::Bad { line: self.number });
        }
        Ok(len)
    }

    /// Whether so many bytes are held that the line is bad, and ends the stream.
    fn is_too_long(&self) -> bool
        ensures { (result ≡ true) ↔ ((self.now.on_bad ≡ OnBadLine.Stop)
            × (length self.now.held.items ≡ MAX_LINE)) }
    {
        match self.on_bad {
            OnBadLine::Stop => self.held.len() == MAX_LINE,
            OnBadLine::Report => false,
        }
    }
}
