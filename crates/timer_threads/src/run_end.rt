//! The end of a run of clients in threads, once each of them has finished.
ghost use Rattle.std.specs.Prelude.{◌≡◌, List, IfOk, IfErr, IfSome, IsNone, vec_len};
ghost use Rattle.timer_desk.specs.WindingUp.{AreEndsOf, AreReadersOf};
ghost use Rattle.timer_threads.specs.declared.outcome.Worked.{Worked};
ghost use Rattle.timer_threads.specs.Results.{AreUnzipped};
ghost use Rattle.timer_threads.specs.Threads.{AreOfLines, AllWhole, NoneUnread, AreSettled, IsFirstWithWords, IsFirstNotServed, IsWoundUp, HasSucceeded, IsFirstFault, whole_text};

use crate::outcome::{ThreadsFault, Worked};
use crate::results::{first_failed, lower, unzip_results};
use crate::threads_text::threads_text;
use std::alloc::Global;
use timer_desk::{ClientReader, Desk, DriveEnd, RequestsEnded, RingInlet, wind_up};
use timer_wheels::HierWheel;

/// Winds the desk up once its clients have finished, and returns the text or the first fault: the end of
/// `threads_run`.
///
/// Errors in their order: out of memory, a client, and the desk's limit. The client failed, or something of
/// it is left: a held request, a request in its line or a word in its outbox. If nothing is left of any
/// client, it is the first whose words were not all read. No client before it failed, and nothing of one before
/// it is left. If the requests of a client could not be ended, the desk is not
/// wound up, nothing is looked for, and the error names the first client that failed.
pub fn end_all(
    alloc: Global,
    desk: Desk<HierWheel, RingInlet>,
    outcome: DriveEnd,
    all: Vec<Worked>,
    timers: u64,
) -> Result<Vec<u8>, ThreadsFault>
    requires lines { AreOfLines desk.inlets all.items }
    requires counts { AllWhole timers all.items }
    ensures text { IfOk result (λ text. text.items ≡ whole_text (vec_len all) timers) }
    ensures ended { IfOk result (λ _. HasSucceeded desk outcome all.items) }
    ensures fault { IfErr result (λ fault. IsFirstFault desk outcome all.items fault) }
{
    if let DriveEnd::OutOfMemory = outcome {
        return Err(ThreadsFault::OutOfMemory);
    }
    let failed = first_failed(&all);
    let Ok(text) = threads_text(alloc, &all) else {
        return Err(ThreadsFault::OutOfMemory);
    };
    let Ok(parts) = unzip_results(alloc, all) else {
        return Err(ThreadsFault::OutOfMemory);
    };
    let held = first_unfinished(desk, parts);
    match lower(failed, held) {
        Some(c) => Err(ThreadsFault::Client(c)),
        None => match outcome {
            DriveEnd::Done => Ok(text),
            DriveEnd::Limit => Err(ThreadsFault::Desk),
            DriveEnd::OutOfMemory => Err(ThreadsFault::OutOfMemory),
        },
    }
}

/// Winds the desk up if all its parts are there, and returns the client that blocked it. That is the first
/// with a held request, or with a request or a word that waits. If there is none, it is the first with a word left
/// to read.
fn first_unfinished(
    desk: Desk<HierWheel, RingInlet>,
    parts: Option<(Vec<RequestsEnded>, Vec<ClientReader>)>,
) -> Option<usize>
    requires ends { IfSome parts (λ p. AreEndsOf desk.inlets p.0.items) }
    requires readers { IfSome parts (λ p. AreReadersOf desk.inlets p.1.items) }
    ensures held { (all : List Worked) → AreOfLines desk.inlets all
        → IfSome parts (λ p. AreUnzipped all p.0.items p.1.items) → IfSome result (λ c. IsFirstNotServed desk all c) }
    ensures wound { (all : List Worked) → AreOfLines desk.inlets all
        → IfSome parts (λ p. AreUnzipped all p.0.items p.1.items) → IsNone result
        → IfSome parts (λ _. IsWoundUp desk all) }
{
    match parts {
        Some((ends, readers)) => match wind_up(desk, ends, readers) {
            Ok((_, readers)) => first_unread(&readers),
            Err(c) => Some(c),
        },
        None => None,
    }
}

/// The first of the settled readers with an unread word.
fn first_unread(readers: &[ClientReader]) -> Option<usize>
    requires { AreSettled readers.now }
    ensures some { IfSome result (λ c. IsFirstWithWords readers.now c) }
    ensures none { IsNone result → NoneUnread readers.now }
{
    for (c, reader) in readers.iter().enumerate() {
        if !reader.is_read_out() {
            return Some(c);
        }
    }
    None
}
