//! What `clap` found, as the options of a subcommand.
ghost use Rattle.std.specs.Prelude.{◌≡◌, None, IfSome, codes, option_map};
ghost use Rattle.clap.specs.Words.{found_of, one_text, first_value};
ghost use Rattle.timer_program.specs.Arguments.{IsSubcommandName, subcommand_name, IsNumberOf, IsFlagGiven, reports, AreRunOptions, AreShowsOptions, HasOptions};

use crate::arguments::{Subcommand, scheme_of};
use clap::ArgMatches;
use timer_commands::{RunOptions, Shows, ThreadsOptions, Verb};
use timer_script::OnBadLine;

/// The number of an option, if it has one.
#[tactic(auto, using(crate::proofs::OptionLemmas::number_read))]
fn number_of(options: &ArgMatches, name: &str) -> Option<u64>
    ensures number { IfSome result (λ n. IsNumberOf (found_of options.now) name.now n) }
    ensures none { one_text (found_of options.now) name.now ≡ None → result ≡ None }
{
    options.get_one::<u64>(name)
}

/// The options of `play`, `serve` or `show`, if each has a value.
fn run_options(options: &ArgMatches) -> Option<RunOptions>
    ensures { IfSome result (λ run. AreRunOptions (found_of options.now) run) }
{
    let scheme = scheme_of(options.get_str("scheme")?)?;
    Some(RunOptions {
        scheme,
        slots: number_of(options, "slots")?,
        clients: number_of(options, "clients")?,
        capacity: number_of(options, "capacity")?,
        first_tick: number_of(options, "first-tick")?,
    })
}

/// What `serve` does at a bad line.
fn on_bad_of(options: &ArgMatches) -> OnBadLine
    ensures { IsFlagGiven (found_of options.now) (codes "keep-going") (reports result) }
{
    if options.get_flag("keep-going") {
        OnBadLine::Report
    } else {
        OnBadLine::Stop
    }
}

/// What `show` shows.
fn shows_of(options: &ArgMatches) -> Shows
    ensures { AreShowsOptions (found_of options.now) result }
{
    Shows {
        counts: options.get_flag("counts"),
        moves: options.get_flag("moves"),
        new: options.get_flag("new"),
        client: number_of(options, "client"),
        timer: number_of(options, "timer"),
        from: number_of(options, "from"),
        to: number_of(options, "to"),
    }
}

/// The options of `threads`, if each has a value.
fn threads_options(options: &ArgMatches) -> Option<ThreadsOptions>
    ensures { IfSome result (λ threads. HasOptions (found_of options.now) (Subcommand.Threads threads)) }
{
    Some(ThreadsOptions {
        clients: number_of(options, "clients")?,
        timers: number_of(options, "timers")?,
    })
}

/// The subcommand of this name, if each of its options has a value.
pub(crate) fn subcommand_of(name: &str, options: &ArgMatches) -> Option<Subcommand>
    ensures name { IfSome result (λ subcommand. name.now ≡ subcommand_name subcommand) }
    ensures known { IfSome result (λ _. IsSubcommandName name.now) }
    ensures options { IfSome result (λ subcommand. HasOptions (found_of options.now) subcommand) }
{
    match name {
        "play" => Some(Subcommand::Run(Verb::Play, run_options(options)?)),
        "serve" => {
            let on_bad = on_bad_of(options);
            let wakeups = options.get_flag("wakeups");
            Some(Subcommand::Run(Verb::Serve { on_bad, wakeups }, run_options(options)?))
        }
        "show" => {
            let shows = shows_of(options);
            Some(Subcommand::Run(Verb::Show(shows), run_options(options)?))
        }
        "threads" => Some(Subcommand::Threads(threads_options(options)?)),
        "check" => Some(Subcommand::Check),
        _ => None,
    }
}

/// The file that is found, if there is one.
pub(crate) fn file_of<'a>(options: &ArgMatches<'a>) -> Option<&'a str>
    ensures { option_map (λ name. name.now) result ≡ first_value (found_of options.now) (codes "file") }
{
    options.get_str("file")
}

/// The file of an option that only `serve` has, if one is found.
pub(crate) fn path_of<'a>(name: &str, option: &str, options: &ArgMatches<'a>) -> Option<&'a str>
    ensures serve { IfSome result (λ _. name.now ≡ codes "serve") }
{
    if name == "serve" {
        options.get_str(option)
    } else {
        None
    }
}

/// The number of an option that only `serve` has, if one is found.
pub(crate) fn number_of_serve(name: &str, option: &str, options: &ArgMatches) -> Option<u64> {
    if name == "serve" {
        number_of(options, option)
    } else {
        None
    }
}
