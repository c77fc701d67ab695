//! The words that begin lines, and the fields that follow them.
ghost use Rattle.std.specs.Prelude.{◌≡◌, ◌≤◌, None, IfSome, length, slice_index};
ghost use Rattle.timer_script.specs.Types.{Grammar};
ghost use Rattle.timer_script.specs.Script.{IsScriptWord, IsTickWord, IsStreamWord, IsWord};
ghost use Rattle.timer_script.specs.Diagnosis.{IsLetter, AreBytesBefore};

use crate::line_fault::Field;
use crate::lines::Grammar;

// made by tools/facts: fields of lines
/// The fields of `start`.
static START: [Field; 4] = [Field::Client, Field::Number, Field::Interval, Field::Action];

/// The fields of `stop`.
static STOP: [Field; 3] = [Field::Client, Field::Number, Field::Serial];

/// The fields of `restart`.
static RESTART: [Field; 5] = [
    Field::Client,
    Field::Number,
    Field::Serial,
    Field::Interval,
    Field::Action,
];

/// The fields of `tick`.
static TICK: [Field; 1] = [Field::Count];

/// The fields of `close`.
static CLOSE: [Field; 0] = [];

/// The fields of `at`.
static AT: [Field; 1] = [Field::Tick];

/// The fields of `start-at`.
static START_AT: [Field; 4] = [Field::Client, Field::Number, Field::Deadline, Field::Action];

/// The fields of `restart-at`.
static RESTART_AT: [Field; 5] = [
    Field::Client,
    Field::Number,
    Field::Serial,
    Field::Deadline,
    Field::Action,
];

/// The fields of `state`.
static STATE: [Field; 0] = [];

// by hand
/// How many bytes at the front are such as words have.
pub fn word_len(line: &[u8]) -> usize
    ensures within { result ≤ length line.now }
    ensures letters { AreBytesBefore IsLetter line.now result }
    ensures ends { ¬ (IsLetter (slice_index line.now result)) }
{
    for i in 0..line.len() {
        if line[i] < b'-' || line[i] > b'z' {
            return i;
        }
    }
    line.len()
}

/// The fields that follow a word, if it begins a line.
#[tactic(auto, using(crate::proofs::DiagnosisLemmas::words_in_grammars))]
pub fn fields_of(grammar: Grammar, word: &[u8]) -> Option<&'static [Field]>
    ensures some { IfSome result (λ _. IsWord grammar word.now) }
    ensures none { result ≡ None → ¬ (IsWord grammar word.now) }
{
    match fields_in_script(word) {
        Some(fields) => Some(fields),
        None => match grammar {
            Grammar::Script => None,
            Grammar::Stream => fields_in_stream(word),
        },
    }
}

/// Those of a word that begins a line of a script.
fn fields_in_script(word: &[u8]) -> Option<&'static [Field]>
    ensures some { IfSome result (λ _. IsScriptWord word.now) }
    ensures none { result ≡ None → ¬ (IsScriptWord word.now) }
{
    match word {
        // made by tools/facts: words of lines
        b"start" => Some(&START),
        b"stop" => Some(&STOP),
        b"restart" => Some(&RESTART),
        b"tick" => Some(&TICK),
        b"close" => Some(&CLOSE),
        _ => None,
    }
}

/// Those of a word that begins a line of a stream alone.
fn fields_in_stream(word: &[u8]) -> Option<&'static [Field]>
    ensures some { IfSome result (λ _. IsStreamWord word.now) }
    ensures none { result ≡ None → ¬ (IsStreamWord word.now) }
{
    if word == b"state".as_slice() {
        return Some(&STATE);
    }
    fields_by_tick(word)
}

/// Those of a word that begins a line by tick.
fn fields_by_tick(word: &[u8]) -> Option<&'static [Field]>
    ensures some { IfSome result (λ _. IsTickWord word.now) }
    ensures none { result ≡ None → ¬ (IsTickWord word.now) }
{
    match word {
        // made by tools/facts: words of lines by tick
        b"at" => Some(&AT),
        b"start-at" => Some(&START_AT),
        b"restart-at" => Some(&RESTART_AT),
        _ => None,
    }
}

/// How many bytes at the front begin a word.
pub fn known_len(grammar: Grammar, line: &[u8]) -> usize
    ensures within { result ≤ length line.now }
    ensures letters { AreBytesBefore IsLetter line.now result }
{
    let known = known_in_script(line);
    match grammar {
        Grammar::Script => known,
        Grammar::Stream => known.max(known_in_stream(line)),
    }
}

/// How many bytes at the front begin a word of a line of a script.
fn known_in_script(line: &[u8]) -> usize
    ensures within { result ≤ length line.now }
    ensures letters { AreBytesBefore IsLetter line.now result }
{
    // made by tools/facts: known words
    common_len(line, b"start")
        .max(common_len(line, b"stop"))
        .max(common_len(line, b"restart"))
        .max(common_len(line, b"tick"))
        .max(common_len(line, b"close"))
}

/// How many bytes at the front begin a word of a line of a stream alone.
fn known_in_stream(line: &[u8]) -> usize
    ensures within { result ≤ length line.now }
    ensures letters { AreBytesBefore IsLetter line.now result }
{
    // made by tools/facts: known words of a stream
    common_len(line, b"at")
        .max(common_len(line, b"start-at"))
        .max(common_len(line, b"restart-at"))
        .max(common_len(line, b"state"))
}

/// How many bytes at the front are those of the word.
fn common_len(line: &[u8], word: &[u8]) -> usize
    requires { AreBytesBefore IsLetter word.now (length word.now) }
    ensures within { result ≤ length line.now }
    ensures letters { AreBytesBefore IsLetter line.now result }
{
    let most = line.len().min(word.len());
    for i in 0..most {
        if line[i] != word[i] {
            return i;
        }
    }
    most
}
