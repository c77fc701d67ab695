//! Makes the wheel of a scheme, and does over it what a verb says.
ghost use Rattle.std.specs.Prelude.{◌≡◌, ◌⊎◌, false, IfErr, IfOk, IfSome, option_map};
ghost use Rattle.timer_base.specs.declared.timer.Timer.{Timer};
ghost use Rattle.timer_base.specs.WheelState.{empty_wheel};
ghost use Rattle.timer_wheels.specs.hashed.HashedWheel.{slots_of};
ghost use Rattle.timer_wheels.specs.hier.HierWheel.{table_of};
ghost use Rattle.timer_wheels.specs.declared.table.Table.TheVariants as tables;
ghost use Rattle.timer_commands.specs.declared.options.Scheme.TheVariants as schemes;
ghost use Rattle.timer_commands.specs.Options.{scheme_last, scheme_layout, config_of};
ghost use Rattle.timer_commands.specs.Serving.{FitsOptions};
ghost use Rattle.timer_commands.specs.Subcommands.{opened_by, HasDone, HasRunNew, HasRunVerb};
ghost use Rattle.timer_script.specs.Watched.{has_failed};

use crate::ending::Ending;
use crate::fault::Fault;
use crate::options::{RunOptions, Scheme};
use crate::render::Placement;
use crate::resuming::resume;
use crate::verbs::{Verb, do_verb};
use std::alloc::Global;
use std::io::{Read, Write};
use timer_base::{MakeFault, PlainWheel, Wheel};
use timer_facility::{Checked, Facility, SavedState};
use timer_script::{Streams, Watched};
use timer_wheels::{HashedWheel, HierWheel, SmoothWheel, Table};

/// A wheel that the options can name.
pub trait OfScheme {
    ghost use Rattle.timer_commands.specs.declared.options.RunOptions.{RunOptions};

    /// The wheel is the one that the options name: of their scheme, a hashed one with their slots.
    ghost is_wheel_of: { RunOptions → Self → Type 0 };
}

impl OfScheme for PlainWheel {
    ghost is_wheel_of = { λ options _. options.scheme ≡ schemes.Plain };
}

impl OfScheme for HashedWheel {
    ghost is_wheel_of = { λ options wheel. (options.scheme ≡ schemes.Hashed) × (slots_of wheel ≡ options.slots) };
}

impl OfScheme for HierWheel {
    ghost is_wheel_of = { λ options wheel. ((options.scheme ≡ schemes.Hier) × (table_of wheel ≡ tables.Wide))
        ⊎ ((options.scheme ≡ schemes.Clock) × (table_of wheel ≡ tables.Clock)) };
}

impl OfScheme for SmoothWheel {
    ghost is_wheel_of = { λ options wheel. options.scheme ≡ schemes.Smooth };
}

/// Does what the verb says: over a new wheel of the scheme that the options name, and `serve` from the state that was
/// read if there is one. If the options are refused, the streams are untouched. Nothing is read before the wheel is
/// made. An error is returned, and not reported.
pub fn run_verb<R: Read, S: Write, F: Write>(
    alloc: Global,
    verb: Verb,
    options: RunOptions,
    saved: Option<&SavedState>,
    streams: &mut Streams<R, S>,
    faults: &mut Watched<F>,
) -> Result<Ending, Fault>
    requires fits { IfSome saved (λ read. FitsOptions options read.now) }
    requires reader_good { has_failed streams.old.reader ≡ false }
    requires writer_good { has_failed streams.old.writer ≡ false }
    ensures { HasRunVerb (option_map (λ read. read.now) saved.entry) verb options
        (record { remaining = R.remaining; contents = S.contents; reports = F.contents })
        (record { streams = streams.old; faults = faults.old })
        (record { streams = streams.new; faults = faults.new }) result }
{
    let Some(read) = saved else {
        return run_new(alloc, verb, options, streams, faults);
    };
    match verb {
        Verb::Serve { on_bad, wakeups } => {
            resume(alloc, options, read, on_bad, wakeups, streams, faults)
        }
        Verb::Play => run_new(alloc, verb, options, streams, faults),
        Verb::Show(_) => run_new(alloc, verb, options, streams, faults),
    }
}

/// Makes a wheel of the scheme that the options name, and does what the verb says over it.
fn run_new<R: Read, S: Write, F: Write>(
    alloc: Global,
    verb: Verb,
    options: RunOptions,
    streams: &mut Streams<R, S>,
    faults: &mut Watched<F>,
) -> Result<Ending, Fault>
    requires reader_good { has_failed streams.old.reader ≡ false }
    requires writer_good { has_failed streams.old.writer ≡ false }
    ensures { HasRunNew verb options
        (record { remaining = R.remaining; contents = S.contents; reports = F.contents })
        (record { streams = streams.old; faults = faults.old })
        (record { streams = streams.new; faults = faults.new }) result }
{
    let checked = match options.check() {
        Ok(checked) => checked,
        Err(fault) => return Err(Fault::Options(fault)),
    };
    let first_tick = options.first_tick;
    match options.scheme {
        Scheme::Plain => {
            let made = PlainWheel::new(alloc, first_tick);
            over_wheel(alloc, verb, options, checked, made, streams, faults)
        }
        Scheme::Hashed => {
            let made = HashedWheel::new(alloc, options.slots as usize, first_tick);
            over_wheel(alloc, verb, options, checked, made, streams, faults)
        }
        Scheme::Hier => {
            let made = HierWheel::with_table(alloc, Table::Wide, first_tick);
            over_wheel(alloc, verb, options, checked, made, streams, faults)
        }
        Scheme::Clock => {
            let made = HierWheel::with_table(alloc, Table::Clock, first_tick);
            over_wheel(alloc, verb, options, checked, made, streams, faults)
        }
        Scheme::Smooth => {
            let made = SmoothWheel::new(alloc, first_tick);
            over_wheel(alloc, verb, options, checked, made, streams, faults)
        }
    }
}

/// Does what the verb says over a facility with this wheel, the one that the options name, if there was memory
/// for it.
#[tactic(auto, using(crate::proofs::VerbLemmas::undone))]
fn over_wheel<R: Read, S: Write, F: Write, W: Wheel + Placement + OfScheme + Drop>(
    alloc: Global,
    verb: Verb,
    _options: RunOptions,
    checked: Checked,
    made: Result<W, MakeFault>,
    streams: &mut Streams<R, S>,
    faults: &mut Watched<F>,
) -> Result<Ending, Fault>
    requires wheel { IfOk made (λ wheel. W.is_wheel_of _options wheel) }
    requires state { IfOk made (λ wheel. W.state wheel
        ≡ empty_wheel (scheme_layout _options.scheme _options.slots) (scheme_last _options.scheme) _options.first_tick) }
    requires keeps { (timer : Timer) → W.keeps timer }
    requires memory { IfErr made (λ fault. fault ≡ MakeFault.OutOfMemory) }
    requires config { checked ≡ config_of _options }
    requires reader_good { has_failed streams.old.reader ≡ false }
    requires writer_good { has_failed streams.old.writer ≡ false }
    ensures { HasDone verb (opened_by _options)
        (record { remaining = R.remaining; contents = S.contents; reports = F.contents })
        (record { streams = streams.old; faults = faults.old })
        (record { streams = streams.new; faults = faults.new }) result }
{
    match made {
        Ok(wheel) => do_verb(
            alloc,
            verb,
            Facility::open(alloc, checked, wheel),
            streams,
            faults,
        ),
        Err(_) => Err(verb.out_of_memory()),
    }
}
