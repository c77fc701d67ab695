//! The name, the version and the texts of the help.

/// The name of the program.
pub static NAME: &str = "timers";

/// The version of the program: that of tools/install/version, to which tools/gate compares it.
pub static VERSION: &str = "1.0.0";

pub static ABOUT: &str =
    "Plays a script of timers: clients start, restart and stop them, and ticks let them expire";

/// How the program is called, in the help and below the refusal of an unknown argument.
pub static USAGE: &str = "timers [OPTIONS] FILE\n       timers COMMAND [OPTIONS] [FILE]";

/// What the file of a subcommand is.
pub static FILE: &str = "The file to read; without one, or with `-`, standard input is read";

pub static PLAY_USAGE: &str = "timers play [OPTIONS] [FILE]";

pub static SERVE_USAGE: &str = "timers serve [OPTIONS] [FILE]";

pub static SHOW_USAGE: &str = "timers show [OPTIONS] [FILE]";

pub static PLAY_ABOUT: &str = "Plays a script and writes one line per result";

/// The text below the help of the program. tools/facts writes its list of lines.
pub static SCRIPTS: &str = "\
With no arguments, `timers` is `timers play`, and `timers FILE` is `timers play FILE`.

A script has one line for each event:
  start CLIENT NUMBER INTERVAL ACTION  starts a timer that expires after INTERVAL
                                       ticks; ACTION is handed back with it
  stop CLIENT NUMBER SERIAL            stops the timer with this serial
  restart CLIENT NUMBER SERIAL INTERVAL ACTION
                                       stops that timer and starts its successor
  tick COUNT                           advances the clock by COUNT ticks, 1 to 1000000
  close                                returns all pending timers and closes
Each client numbers its requests 1, 2, 3, .. and timers get the serials 1, 2, 3, ..

Fields are separated by exactly one space. Every line ends with LF, the last one
included. There is no CR, no tab, no comment and no empty line, and no space at either
end of a line. Words are in lower case. A number is decimal, 0 to 1152921504606846975,
with no sign and no leading zero. A script has at most 1048576 bytes. The first line
that breaks a rule is reported as `bad line L`, counted from 1, and nothing is written.
`timers check` reports every bad line, with its column and the reason.
A well-formed line that is refused, such as a start with interval 0, is played, and
its refusal is written.

For example:
  $ printf 'start 0 1 3 7\\ntick 3\\n' | timers
  started 0 1 1 3                      client, number, serial, deadline
  expired 3 0 1 7                      tick, client, serial, action
  end 3 0                              tick, pending timers

Nothing is written before the whole script has been played. The exit status is 0 if
it was. It is 1 after an error, which is reported in one line on standard error, and 2
if the arguments are refused, or FILE can't be opened. The error of a FILE names it:
  timers: trace:2: unknown word 'strat'
`timers serve` answers each line as it comes instead.
`man timers` and docs/formats.md list every line of scripts and output.";

/// The text below the help of `play`.
pub static SCHEMES: &str = "\
Schemes:
  plain   one list of timers; a tick goes through all of it
  hashed  a ring of buckets: a timer is in bucket (deadline modulo SLOTS)
  hier    ten wheels of 64 slots: a timer moves down as its deadline comes near
  clock   the same with wheels of 60 seconds, 60 minutes, 24 hours and 100 days; its
          last tick is 8639999, that of the others is 1152921504606846975
  smooth  the wheels of `hier`; timers move down early, and a few at each tick

For example, with two clients, a stop and a close:
  $ printf 'start 0 1 9 5\\nstart 1 1 9 6\\nstop 0 2 1\\nclose\\n' | timers play
  started 0 1 1 9                      client, number, serial, deadline
  started 1 1 2 9
  stopped 0 2 1                        client, number, serial
  closed 1                             number of timers returned
  returned 1 2 9 6                     client, serial, deadline, action
  end 0 0                              tick, pending timers

`timers help` describes the lines of a script; `man timers` and docs/formats.md have
all of it.";

pub static SERVE_ABOUT: &str =
    "Answers each line of its input as soon as it is complete, until the input ends";

/// The text below the help of `serve`.
pub static STREAMS: &str = "\
A stream has the lines of a script, which `timers help` describes, and they have the
same answers. Each line is answered as soon as its line feed has come. Before more is
read, the answers to all complete lines are written and flushed. At the end of the
input the line `end` is written. The input may have any length. Read the answers while
you write: when the pipe of the answers is full, no more lines are read.

A bad line ends the stream: the lines before it have been answered, and `bad line L`
is reported. A last line without its line feed is a bad line. With `--keep-going` the
stream continues after a bad line. Each one is reported, as `bad` and what `check` says
of it, and skipped. The others are answered, and the exit status is 1 at the end.

A stream has four more:
  at TICK                              advances the clock to TICK, if that is later
  start-at CLIENT NUMBER DEADLINE ACTION
                                       as start, and the timer expires at DEADLINE
  restart-at CLIENT NUMBER SERIAL DEADLINE ACTION
                                       as restart, and the timer expires at DEADLINE
  state                                prints the state as lines, and changes nothing
A timer whose deadline has passed expires at once. The answer to `state` begins with
`state open` or `state closed`. A line `number` for each client and a line `timer` for each
pending timer follow, and then `state end`. With `--state FILE` a stream begins with the
state that such lines in FILE say, at its tick, and goes on as the first one would have.

With `--wakeups` the answers to all lines of one read are followed by `wakeup TICK`: no timer
expires before that tick. The line is `wakeup never` if no timer is pending.

For example, another program writes to the input and reads the output of `timers serve`:
  start 0 1 30 7         started 0 1 1 30
  tick 20                (nothing expires, so there is no answer)
  restart 0 2 1 30 7     restarted 0 2 1 2 50
  tick 30                expired 50 0 2 7
  (the input ends)       end 50 0

The schemes are those of `timers play`. The exit status is 0 if the input came to its
end and every line was answered. It is 1 after an error, which is one line on
standard error (`bad line L`, `too long`, `read failed`, `write failed` or
`out of memory`). It is 2 if the arguments are refused, or no state is read.
`man timers` and docs/formats.md say what may have been written then.";

pub static SHOW_ABOUT: &str =
    "Answers lines as `serve` does, and shows after each where the pending timers are";

/// The text below the help of `show`.
pub static PLACEMENTS: &str = "\
A stream and its answers are those of `timers serve`. After the answers to each line come
indented lines. They are the tick, and one line for each bucket that has timers, with
their serials from the front.

For example:
  $ printf 'start 0 1 130 7\\ntick 128\\ntick 2\\n' | timers show
  started 0 1 1 130
    now 0
    wheel 1 slot 2: 1                  timer 1 is in wheel 1
    now 128
    wheel 0 slot 2: 1                  it moved to wheel 0
  expired 130 0 1 7
    now 130
  end 130 0

A bucket is shown as
  plain   pending: 1:130 2:131         all timers by deadline, as serial:deadline
  hashed  slot 2: 1:16 3:0             serial:rounds
  hier    wheel 1 slot 2: 1 3
  clock   minute 15: 1                 or second, hour, day
  smooth  wheel 0 slot 72: 1 3         slots 0 to 127, of two revolutions
With `--counts` hierarchies show after the tick what they counted, `smooth` no visits:
  starts 1 moves 1 visits 3            starts and restarts, moves, visits of buckets
With `--moves` each move is shown while ticks pass, between what expires before and after:
  moved at 128 from wheel 1 slot 2 to wheel 0 slot 2: 1
Less is shown, never fewer answers, with
  --client 1                           only timers of client 1
  --timer 7                            only timer 7
  --new                                only timers that the line started or restarted
  --from 64 --to 128                   nothing while the clock is before 64 or after 128
Each of them drops some of what is shown. With `--new --moves` each change is shown once.
Why a stop was `no-such` is in the answers: some line ended the timer, or none began it.
Without the lines that begin with a space the output is that of `timers serve`:
  timers show < script | grep -v '^ '

Errors and exit statuses are those of `timers serve`. docs/walkthroughs.md follows timers
from bucket to bucket.";

pub static THREADS_ABOUT: &str =
    "Runs clients in threads of their own, beside one facility, and writes a line for each";

/// The text below the help of `threads`.
pub static THREADS: &str = "\
Each client starts its timers over its own line, and reads its answers and notices. One
thread owns the facility and serves all of them. For example, with two clients:
  $ timers threads --clients 2 --timers 100
  client 0 sent 100 started 100 expired 100
  client 1 sent 100 started 100 expired 100
  end

The exit status is 0 if each client finished. It is 1 after an error, which is one line
on standard error (`client C failed`, `desk failed`, `out of memory` or
`write failed`). It is 2 if the arguments are refused. Nothing is read from standard
input.";

pub static CHECK_USAGE: &str = "timers check [FILE]";

pub static CHECK_ABOUT: &str = "Reports every bad line of a script, and plays nothing";

/// The text below the help of `check`.
pub static CHECKS: &str = "\
For each bad line the number of the line, the column, the field if the error is in one,
and the reason are written. The bytes before the column can begin a line, and with the
byte at the column they no longer can. Columns are counted in bytes, from 1. For example:
  $ printf 'tick 1\\nstart 0 1 05 7\\nstart 0 2 5\\ntick 0\\n' | timers check
  line 2, column 12: interval: leading zero
  line 3, column 12: action: missing field
  line 4, column 6: count: out of range 1 to 1000000

`timers help` describes the lines of a script. A well-formed line that would be refused,
such as a start with interval 0, is good.

The exit status is 0 if no line is bad, and nothing is written. It is 1 if a line is bad.
It is 1 after an error before the script is read, and 2 after any other error, which is
one line on standard error (`too long`, `read failed`, `write failed` or
`out of memory`). It is 2 if the arguments are refused.";
