//! Serves a stream whose lines are in a journal, on the disk, before they are answered.
//!
//!     timers-journal 1 hier 64 1048576 256     a journal of these options alone is opened
//!     begins 0 0 30
//!     state open 0 0                           the stream goes on from this state,
//!     state end 0
//!     start 0 1 30 7                           over these lines, whose answers were written before
//!
//! A journal that has not begun begins with a state: that of a new facility, or one that is given.
ghost use Rattle.std.specs.Prelude.{◌≡◌, ◌++◌, [], true, false, None, codes, decimal, option_map, IfOk, IfErr, OnOk};
ghost use Rattle.timer_script.specs.SavedText.{IsSavedText};
ghost use Rattle.timer_script.specs.Service.{AreGood};
ghost use Rattle.timer_journal.specs.Device.{Only};
ghost use Rattle.timer_journal.specs.Journal.{text_of};
ghost use Rattle.timer_durable.specs.Beginning.{preamble_of, IsCounted};
ghost use Rattle.timer_commands.specs.Journaling.{options_line as line_of, first_text, text_to_begin, IsKeptFirst, IsNewlyKept, StopsGoingOn, StopsBeginning, WhyNotBegun, HasServedKept, told_as, peer_fault};
ghost use Rattle.timer_commands.specs.Serving.{limits_for};
ghost use Rattle.timer_commands.specs.declared.keeping.KeptFault.TheVariants as kepts;
ghost use Rattle.timer_durable.specs.declared.fault.BeginFault.TheVariants as begins;
ghost use Rattle.timer_journal.specs.declared.fault.DeviceFault.TheVariants as devices;
ghost use Rattle.timer_journal.specs.declared.fault.JournalFault.TheVariants as journals;

use crate::ending::Ending;
use crate::fault::Fault;
use crate::options::RunOptions;
use crate::resuming::resume;
use itoa::Buffer;
use std::alloc::{AllocError, Global};
use std::io::Write;
use timer_durable::{
    BeginFault, JournaledPeer, KeepFault, Keeping, Kept, Opened, begin, open_kept,
};
use timer_facility::SavedState;
use timer_journal::{Device, DeviceFault, Journal, JournalFault};
use timer_script::{OnBadLine, Peer, SavedFault, ServeFault, Watched, read_saved};

/// Why a stream with a journal is not served, or ended early.
#[derive(Debug, PartialEq, Eq, Drop)]
pub enum KeptFault {
    /// The file is not opened as a journal of these options.
    Begin(BeginFault),
    /// A state is given, and the journal has one.
    HasBegun,
    /// The state that it begins with does not fit the options.
    State(SavedFault),
    /// The journal failed while the stream was served.
    Keep(KeepFault),
    /// As a stream without a journal.
    Run(Fault),
}

impl From<AllocError> for KeptFault {
    ghost from_gives = { λ _ e. e ≡ kepts.Begin (begins.Journal (journals.Device devices.OutOfMemory)) };

    fn from(_: AllocError) -> KeptFault {
        KeptFault::Begin(BeginFault::Journal(JournalFault::Device(DeviceFault::OutOfMemory)))
    }
}

/// How a stream is kept.
#[derive(Clone, Copy)]
pub struct Keeps<'a> {
    /// The text of the state that a new journal begins with, if that is not a new facility's.
    pub first: Option<&'a [u8]>,
    /// The caller has seen so many answers, if it says how many.
    pub seen: Option<u64>,
    /// After so many lines the journal begins anew with the state.
    pub every: Option<u64>,
}

/// Appends a space and a number.
fn push_number(text: &mut Vec<u8>, n: u64) -> Result<(), AllocError>
    ensures { OnOk result (text.new.items ≡ text.old.items ++ codes " " ++ decimal n) }
{
    let mut number = Buffer::new();
    text.push(b' ')?;
    text.extend_from_slice(number.format(n).as_bytes())
}

/// The options that a journal is for, on one line: the scheme, the clients, the capacity and the slots.
#[tactic(auto, unfolding(crate::specs::Journaling::options_line))]
fn options_line(alloc: Global, options: RunOptions) -> Result<Vec<u8>, AllocError>
    ensures { IfOk result (λ text. text.items ≡ line_of options) }
{
    let mut text = Vec::from_slice(alloc, options.scheme.name().as_bytes())?;
    push_number(&mut text, options.clients)?;
    push_number(&mut text, options.capacity)?;
    push_number(&mut text, options.slots)?;
    Ok(text)
}

/// The state of a facility in which nothing has happened, at this tick. Its clients begin at the first number, so no line
/// says so.
#[tactic(auto, unfolding(crate::specs::Journaling::first_text))]
fn first_state(alloc: Global, options: RunOptions) -> Result<Vec<u8>, AllocError>
    ensures { IfOk result (λ text. text.items ≡ first_text options) }
{
    let mut text = Vec::from_slice(alloc, b"state open")?;
    push_number(&mut text, options.first_tick)?;
    text.extend_from_slice(b" 0\nstate end 0\n")?;
    Ok(text)
}

/// The state that a new journal begins with.
fn state_to_begin(
    alloc: Global,
    options: RunOptions,
    first: Option<&[u8]>,
) -> Result<Vec<u8>, AllocError>
    ensures { IfOk result (λ text. text.items ≡ text_to_begin options (option_map (λ f. f.now) first.entry)) }
{
    match first {
        Some(text) => Vec::from_slice(alloc, text),
        None => first_state(alloc, options),
    }
}

/// A journal whose state was read.
#[derive(Drop)]
struct Begun<D: Device + Drop> {
    journal: Journal<D>,
    line: Vec<u8>,
    kept: Kept,
    saved: SavedState,
}

/// Opens the journal, and begins it if it has not begun.
fn open_begun<D: Device + Drop>(
    alloc: Global,
    options: RunOptions,
    first: Option<&[u8]>,
    device: D,
) -> Result<Begun<D>, KeptFault>
    requires durable { Only (D.seen device) (D.may_leave device) }
    requires usable { D.is_usable device ≡ true }
    ensures line { IfOk result (λ begun. begun.line.items ≡ line_of options) }
    ensures alive { IfOk result (λ begun. begun.journal.is_dead ≡ false) }
    ensures text { IfOk result (λ begun. text_of (D.seen begun.journal.device)
        ≡ preamble_of begun.line.items begun.kept.beginning begun.kept.state.items ++ begun.kept.lines.items) }
    ensures kept { IfOk result (λ begun. IsKeptFirst options (option_map (λ f. f.now) first.entry) (D.seen device) begun.kept) }
    ensures counted { IfOk result (λ begun. IsCounted begun.kept.beginning) }
    ensures saved { IfOk result (λ begun. IsSavedText (limits_for options) begun.kept.state.items begun.saved) }
    ensures fault { IfErr result (WhyNotBegun options (option_map (λ f. f.now) first.entry) (D.seen device)) }
{
    let line = options_line(alloc, options)?;
    let opened = match open_kept(alloc, device, &line) {
        Ok(opened) => opened,
        Err(fault) => return Err(KeptFault::Begin(fault)),
    };
    let Opened { journal, kept } = opened;
    match kept {
        Some(kept) => go_on(alloc, options, first, line, journal, kept),
        None => begin_new(alloc, options, first, line, journal),
    }
}

/// Goes on with a journal that keeps this.
fn go_on<D: Device + Drop>(
    alloc: Global,
    options: RunOptions,
    first: Option<&[u8]>,
    line: Vec<u8>,
    journal: Journal<D>,
    kept: Kept,
) -> Result<Begun<D>, KeptFault>
    ensures same { IfOk result (λ begun. (begun.line ≡ line) × (begun.journal ≡ journal) × (begun.kept ≡ kept)) }
    ensures none { IfOk result (λ _. option_map (λ f. f.now) first.entry ≡ None) }
    ensures saved { IfOk result (λ begun. IsSavedText (limits_for options) kept.state.items begun.saved) }
    ensures fault { IfErr result (λ fault. StopsGoingOn options (option_map (λ f. f.now) first.entry) kept fault) }
{
    if first.is_some() {
        return Err(KeptFault::HasBegun);
    }
    match read_saved(alloc, &kept.state, options.limits()) {
        Ok(saved) => Ok(Begun {
            journal,
            line,
            kept,
            saved,
        }),
        Err(fault) => Err(KeptFault::State(fault)),
    }
}

/// Begins a journal, if its state is one that fits the options.
fn begin_new<D: Device + Drop>(
    alloc: Global,
    options: RunOptions,
    first: Option<&[u8]>,
    line: Vec<u8>,
    mut journal: Journal<D>,
) -> Result<Begun<D>, KeptFault>
    ensures line { IfOk result (λ begun. begun.line ≡ line) }
    ensures alive { IfOk result (λ begun. begun.journal.is_dead ≡ false) }
    ensures text { IfOk result (λ begun. text_of (D.seen begun.journal.device)
        ≡ preamble_of line.items begun.kept.beginning begun.kept.state.items ++ begun.kept.lines.items) }
    ensures kept { IfOk result (λ begun. IsNewlyKept options (option_map (λ f. f.now) first.entry) begun.kept) }
    ensures counted { IfOk result (λ begun. IsCounted begun.kept.beginning) }
    ensures saved { IfOk result (λ begun. IsSavedText (limits_for options) begun.kept.state.items begun.saved) }
    ensures fault { IfErr result (λ fault. StopsBeginning options (option_map (λ f. f.now) first.entry) fault) }
{
    let state = state_to_begin(alloc, options, first)?;
    let saved = match read_saved(alloc, &state, options.limits()) {
        Ok(saved) => saved,
        Err(fault) => return Err(KeptFault::State(fault)),
    };
    match begin(alloc, &mut journal, &line, state) {
        Ok(kept) => Ok(Begun {
            journal,
            line,
            kept,
            saved,
        }),
        Err(fault) => Err(KeptFault::Begin(BeginFault::Journal(fault))),
    }
}

/// Answers lines as they come, each in the journal before it is answered. Bad lines are reported, and are in the journal
/// too. First the lines that it keeps are played, from the state that it begins with; their answers were written before.
/// If the journal is not opened, or its state does not fit the options, nothing is read or written.
pub fn serve_kept<P: Peer, D: Device + Drop, F: Write>(
    alloc: Global,
    options: RunOptions,
    wakeups: bool,
    keeps: Keeps<'_>,
    device: D,
    peer: P,
    faults: &mut Watched<F>,
) -> (P, Result<Ending, KeptFault>)
    requires durable { Only (D.seen device) (D.may_leave device) }
    requires usable { D.is_usable device ≡ true }
    ensures { HasServedKept (record {
      state = P.state;
      reports = F.contents;
      over = ⟦<JournaledPeer<P, D> as Peer>⟧.state;
      inner = λ j. j.peer;
      text = λ j. text_of (D.seen j.journal.device);
      fault = λ j. j.fault;
    })
        options wakeups keeps.entry.seen (option_map (λ f. f.now) keeps.entry.first) (D.seen device)
        (record { peer = peer; faults = faults.old }) (record { peer = result.0; faults = faults.new }) result.1 }
{
    let Begun {
        journal,
        line,
        kept,
        saved,
    } = match open_begun(alloc, options, keeps.first, device) {
        Ok(begun) => begun,
        Err(fault) => return (peer, Err(fault)),
    };
    let keeping = Keeping {
        options: line,
        every: keeps.every,
        seen: keeps.seen,
    };
    let mut journaled = JournaledPeer::new(alloc, peer, journal, kept, keeping);
    let ended = resume(
        alloc,
        options,
        &saved,
        OnBadLine::Report,
        wakeups,
        &mut journaled,
        faults,
    );
    let fault = journaled.fault();
    let (peer, _) = journaled.into_parts();
    (peer, told(ended, fault))
}

/// What a stream ended with, where its peer may have failed by its journal.
fn told(ended: Result<Ending, Fault>, fault: Option<KeepFault>) -> Result<Ending, KeptFault>
    ensures { result ≡ told_as ended fault }
{
    match ended {
        Ok(ending) => Ok(ending),
        Err(Fault::Serve(ServeFault::Read)) => Err(of_peer(ServeFault::Read, fault)),
        Err(Fault::Serve(ServeFault::Write)) => Err(of_peer(ServeFault::Write, fault)),
        Err(fault) => Err(KeptFault::Run(fault)),
    }
}

/// Why the peer failed: by its journal, or as without one.
fn of_peer(fault: ServeFault, kept: Option<KeepFault>) -> KeptFault
    ensures { result ≡ peer_fault fault kept }
{
    match kept {
        Some(kept) => KeptFault::Keep(kept),
        None => KeptFault::Run(Fault::Serve(fault)),
    }
}
