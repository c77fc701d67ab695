//! The client's end of a line, before and after it has finished.
ghost use Rattle.std.specs.Prelude.{◌≡◌};

use crate::layout::Message;
use crate::messages::message_of;
use crate::status::{FINISHED, LINE_FULL, NUMBERS_SPENT, OK};
use std::mem;
use timer_desk::{ClientEnd, ClientReader, RequestsEnded, Unsent};
use timer_facility::Request;

/// The client's end of a line.
#[derive(Drop)]
pub enum Line {
    /// It sends requests and receives words.
    Open(ClientEnd),
    /// It has finished its requests, and still receives words.
    Finished(Option<RequestsEnded>, ClientReader),
    /// In passing, while it finishes.
    Gone,
}

impl Line {
    ghost use Rattle.std.specs.Prelude.{◌≡◌, ◌<◌, ◌↔◌, ◌++◌, [], true, false};
    ghost use Rattle.timer_desk.specs.declared.looks.Found.TheVariants as Found;
    ghost use Rattle.timer_desk_c.specs.Lines.{HasSent, WhyNotSent, HasReceived, IsSameLine, SameTraffic, LookedInOrder, HasFinished, IsReadToEnd, MayReceive, is_open_line, is_ended_line, seen_on, unread_on, received_on, submitted_on, next_on, found_on};
    ghost use Rattle.timer_desk_c.specs.Freed.{HasNoWord};
    ghost use Rattle.timer_desk_c.specs.declared.status.TheConstants.{OK, FINISHED};

    /// Sends a request, and writes its number, one above that of the last.
    pub(crate) fn send(&mut self, request: Request, number: &mut u64) -> u32
        ensures sent { result ≡ OK → HasSent request self.old self.new number.new }
        ensures refused { 0 < result → WhyNotSent self.old self.new result }
        ensures kept { 0 < result → SameTraffic self.old self.new × (number.new ≡ number.old) }
        ensures line { IsSameLine self.old self.new }
        ensures received { (received_on self.new ≡ received_on self.old)
            × (seen_on self.new ≡ seen_on self.old) }
        ensures found { found_on self.new ≡ found_on self.old }
    {
        let Line::Open(end) = self else {
            return FINISHED;
        };
        match end.submit(request) {
            Ok(sent) => {
                *number = sent;
                OK
            }
            Err(Unsent::Spent(_)) => NUMBERS_SPENT,
            Err(Unsent::Full(_)) => LINE_FULL,
        }
    }

    /// Receives the next word, and writes it.
    pub(crate) fn receive(&mut self, out: &mut Message) -> bool
        ensures received { result ≡ true → HasReceived self.old self.new out.new }
        ensures none { result ≡ false → (received_on self.new ≡ received_on self.old)
            × (seen_on self.old ≡ []) × (unread_on self.old ≡ [])
            × (out.new ≡ out.old) }
        ensures all { is_ended_line self.old ≡ true
            → received_on self.new ++ unread_on self.new ≡ received_on self.old ++ unread_on self.old }
        ensures line { IsSameLine self.old self.new }
        ensures sent { (submitted_on self.new ≡ submitted_on self.old)
            × (next_on self.new ≡ next_on self.old) }
        ensures found { found_on self.new ≡ found_on self.old }
    {
        let next = match self {
            Line::Open(end) => end.receive(),
            Line::Finished(_, reader) => reader.receive(),
            Line::Gone => None,
        };
        match next {
            Some(word) => {
                *out = message_of(word);
                true
            }
            None => false,
        }
    }

    /// Whether no further word will arrive: the words have ended, and all of them were received.
    pub(crate) fn is_read_to_end(&self) -> bool
        ensures yes { result ≡ true → IsReadToEnd self.now }
        ensures no { result ≡ false → MayReceive self.now }
    {
        match self {
            Line::Finished(_, reader) => reader.is_read_out(),
            Line::Open(_) => false,
            Line::Gone => false,
        }
    }

    /// Whether the desk was freed before it had ended the words, and all words in the line were received.
    pub(crate) fn is_abandoned(&mut self) -> bool
        ensures over { is_ended_line self.old ≡ false → (result ≡ true ↔ (found_on self.new ≡ Found.GoneThenEmpty)) }
        ensures order { is_ended_line self.old ≡ false → LookedInOrder self.old self.new }
        ensures ended { is_ended_line self.old ≡ true → self.new ≡ self.old }
        ensures yes { result ≡ true → HasNoWord self.old self.new }
        ensures kept { SameTraffic self.old self.new }
        ensures line { IsSameLine self.old self.new }
    {
        match self {
            Line::Open(end) => end.is_abandoned(),
            Line::Finished(_, reader) => reader.is_abandoned(),
            Line::Gone => false,
        }
    }

    /// Ends the requests of a line that has not finished.
    pub(crate) fn finish(&mut self) -> u32
        ensures finished { result ≡ OK → HasFinished self.old self.new }
        ensures refused { 0 < result → (result ≡ FINISHED) × (is_open_line self.old ≡ false)
            × (self.new ≡ self.old) }
        ensures received { received_on self.new ≡ received_on self.old }
    {
        match mem::replace(self, Line::Gone) {
            Line::Open(end) => {
                let (ended, reader) = end.finish();
                *self = Line::Finished(ended, reader);
                OK
            }
            other => {
                *self = other;
                FINISHED
            }
        }
    }
}
