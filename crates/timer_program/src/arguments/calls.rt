//! The call that the arguments make, with files whose names they have.
ghost use Rattle.std.specs.Prelude.{◌≡◌, ◌≢◌, ◌++◌, None, false, IfSome, IfOk, IfErr, IsTrue, Any, codes};
ghost use Rattle.clap.specs.Words.{kind_of};
ghost use Rattle.timer_program.specs.Arguments.{IsNamedBy, IsSubcommandName, subcommand_name, IsShown, AsksForText, IsValueAmong, IsPathOf};

use crate::arguments::found::{file_of, number_of_serve, path_of, subcommand_of};
use crate::arguments::{Call, program};
use clap::Error;
use clap::error::ErrorKind;
use std::alloc::{AllocError, Global};
use std::convert::AsStr;

/// The subcommand if there are no arguments.
static PLAY: [&str; 1] = ["play"];

/// The call of the arguments: of the subcommand that the first of them names, and else of `play`.
///
/// An error is a request for help or for the version, a refusal, or out of memory.
pub fn read_arguments<'a, S: AsStr>(alloc: Global, arguments: &'a [S]) -> Result<Call<'a>, Error>
    ensures call { IfOk result (λ call. IsNamedBy S.text arguments.now (subcommand_name call.subcommand)) }
    ensures file { IfOk result (λ call. IfSome call.file (λ name. Any (λ argument. S.text argument ≡ name.now) arguments.now)) }
    ensures state { IfOk result (λ call. IfSome call.state (λ n. IsPathOf S.text arguments.now (codes "--state=") n.now call.subcommand)) }
    ensures journal { IfOk result (λ call. IfSome call.journal (λ n. IsPathOf S.text arguments.now (codes "--journal=") n.now call.subcommand)) }
    ensures text { IfErr result (λ error. IsShown (kind_of error)
        → Any (λ argument. AsksForText (S.text argument)) arguments.now) }
{
    match called(alloc, arguments) {
        // However `clap` reads the arguments, a call whose arguments don't ask for a text doesn't end with
        // one.
        Err(error) if !error.use_stderr() && !any_of_text(arguments) => {
            Err(refusal(alloc, "a subcommand is required")?)
        }
        read => read,
    }
}

/// The same, but that any error may be a request for help or for the version.
fn called<'a, S: AsStr>(alloc: Global, arguments: &'a [S]) -> Result<Call<'a>, Error>
    ensures call { IfOk result (λ call. IsNamedBy S.text arguments.now (subcommand_name call.subcommand)) }
    ensures file { IfOk result (λ call. IfSome call.file (λ name. Any (λ argument. S.text argument ≡ name.now) arguments.now)) }
    ensures state { IfOk result (λ call. IfSome call.state (λ n. IsPathOf S.text arguments.now (codes "--state=") n.now call.subcommand)) }
    ensures journal { IfOk result (λ call. IfSome call.journal (λ n. IsPathOf S.text arguments.now (codes "--journal=") n.now call.subcommand)) }
{
    let Some(first) = arguments.first() else {
        return parsed(alloc, "play", PLAY.as_slice(), arguments);
    };
    let name = first.as_str();
    if is_subcommand(name) || is_of_text(name) {
        parsed(alloc, name, arguments, arguments)
    } else {
        parsed_as_play(alloc, arguments)
    }
}

/// The call of arguments that begin with the name of no subcommand: of `play`, with a file.
fn parsed_as_play<'a, S: AsStr>(alloc: Global, arguments: &'a [S]) -> Result<Call<'a>, Error>
    ensures name { IfOk result (λ call. codes "play" ≡ subcommand_name call.subcommand) }
    ensures file { IfOk result (λ call. IfSome call.file (λ name. Any (λ argument. S.text argument ≡ name.now) arguments.now)) }
    ensures state { IfOk result (λ call. IfSome call.state (λ n. IsPathOf S.text arguments.now (codes "--state=") n.now call.subcommand)) }
    ensures journal { IfOk result (λ call. IfSome call.journal (λ n. IsPathOf S.text arguments.now (codes "--journal=") n.now call.subcommand)) }
{
    let mut words = Vec::new(alloc);
    words.push("play")?;
    for argument in arguments {
        words.push(argument.as_str())?;
    }
    let call = parsed(alloc, "play", &words, arguments)?;
    if call.file.is_none() {
        return Err(refusal(
            alloc,
            "options without a subcommand need a FILE, or - for standard input",
        )?);
    }
    Ok(call)
}

/// The call of some words, of which the first is this name of a subcommand. The files are named by the arguments.
fn parsed<'a, W: AsStr, S: AsStr>(
    alloc: Global,
    name: &str,
    words: &[W],
    arguments: &'a [S],
) -> Result<Call<'a>, Error>
    ensures name { IfOk result (λ call. name.now ≡ subcommand_name call.subcommand) }
    ensures known { IfOk result (λ _. IsSubcommandName name.now) }
    ensures file { IfOk result (λ call. IfSome call.file (λ name. Any (λ argument. S.text argument ≡ name.now) arguments.now)) }
    ensures state { IfOk result (λ call. IfSome call.state (λ n. IsPathOf S.text arguments.now (codes "--state=") n.now call.subcommand)) }
    ensures journal { IfOk result (λ call. IfSome call.journal (λ n. IsPathOf S.text arguments.now (codes "--journal=") n.now call.subcommand)) }
{
    let matches = program(alloc)?.try_get_matches_from(words)?;
    if let Some((_, options)) = matches.subcommand()
        && let Some(subcommand) = subcommand_of(name, options)
    {
        let file = file_among(alloc, arguments, file_of(options))?;
        let state = path_among(
            alloc,
            arguments,
            "--state=",
            path_of(name, "state", options),
        )?;
        let journal = path_among(
            alloc,
            arguments,
            "--journal=",
            path_of(name, "journal", options),
        )?;
        let seen = number_of_serve(name, "seen", options);
        let snapshot = number_of_serve(name, "snapshot", options);
        return Ok(Call {
            subcommand,
            file,
            state,
            journal,
            seen,
            snapshot,
        });
    }
    Err(incomplete(alloc)?)
}

/// Whether a subcommand has this name.
fn is_subcommand(name: &str) -> bool
    ensures known { IsTrue result → IsSubcommandName name.now }
    ensures other { result ≡ false → ¬ (IsSubcommandName name.now) }
{
    match name {
        "play" | "serve" | "show" | "threads" | "check" => true,
        _ => false,
    }
}

/// Whether an argument asks for help or for the version.
fn is_of_text(argument: &str) -> bool
    ensures { IsTrue result → AsksForText argument.now }
{
    match argument {
        "help" | "--help" | "--version" => true,
        // Each may be alone or before other letters.
        _ => {
            let bytes = argument.as_bytes();
            bytes.starts_with(b"-h") || bytes.starts_with(b"-V")
        }
    }
}

/// Whether one of the arguments asks for help or for the version.
fn any_of_text<S: AsStr>(arguments: &[S]) -> bool
    ensures { IsTrue result → Any (λ argument. AsksForText (S.text argument)) arguments.now }
{
    for argument in arguments {
        if is_of_text(argument.as_str()) {
            return true;
        }
    }
    false
}

/// A refusal of arguments of which an option has no value, as of any other mistake in them.
fn incomplete(alloc: Global) -> Result<Error, AllocError> {
    refusal(
        alloc,
        "a subcommand with a value for each of its options is required",
    )
}

/// A refusal of arguments that name no subcommand with all that it needs.
fn refusal(alloc: Global, reason: &str) -> Result<Error, AllocError>
    ensures { IfOk result (λ error. kind_of error ≡ ErrorKind.MissingSubcommand) }
{
    program(alloc)?.error(ErrorKind::MissingSubcommand, reason)
}

/// The argument with this text.
fn argument_of<'a, S: AsStr>(arguments: &'a [S], text: &str) -> Option<&'a str>
    ensures same { IfSome result (λ argument. argument.now ≡ text.now) }
    ensures found { IfSome result (λ name. Any (λ argument. S.text argument ≡ name.now) arguments.now) }
{
    for argument in arguments {
        if argument.as_str() == text {
            return Some(argument.as_str());
        }
    }
    None
}

/// The value of an argument that begins with this name of an option and an equals sign.
fn joined_value_of<'a, S: AsStr>(arguments: &'a [S], front: &str, text: &str) -> Option<&'a str>
    ensures same { IfSome result (λ value. value.now ≡ text.now) }
    ensures found { IfSome result (λ value. Any (λ argument. S.text argument ≡ front.now ++ value.now) arguments.now) }
{
    for argument in arguments {
        if let Some(value) = argument.as_str().strip_prefix(front)
            && value == text
        {
            return Some(value);
        }
    }
    None
}

/// The name of the file that was found, as one of the arguments.
fn file_among<'a, S: AsStr>(
    alloc: Global,
    arguments: &'a [S],
    found: Option<&str>,
) -> Result<Option<&'a str>, Error>
    ensures { IfOk result (λ file. IfSome file (λ name. Any (λ argument. S.text argument ≡ name.now) arguments.now)) }
{
    let Some(text) = found else {
        return Ok(None);
    };
    match argument_of(arguments, text) {
        Some(name) => Ok(Some(name)),
        None => Err(incomplete(alloc)?),
    }
}

/// The name of the file that was found for an option, as one of the arguments, or joined to the option.
fn path_among<'a, S: AsStr>(
    alloc: Global,
    arguments: &'a [S],
    front: &str,
    found: Option<&str>,
) -> Result<Option<&'a str>, Error>
    ensures among { IfOk result (λ path. IfSome path (λ name. IsValueAmong S.text arguments.now front.now name.now)) }
    ensures given { IfOk result (λ path. IfSome path (λ _. found.entry ≢ None)) }
{
    let Some(text) = found else {
        return Ok(None);
    };
    if let Some(name) = argument_of(arguments, text) {
        return Ok(Some(name));
    }
    match joined_value_of(arguments, front, text) {
        Some(name) => Ok(Some(name)),
        None => Err(incomplete(alloc)?),
    }
}
