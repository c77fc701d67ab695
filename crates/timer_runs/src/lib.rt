//! What any sequence of calls does to timers: laws about runs of the calls of timer_total, over every wheel. No code.
//!
//! Read `specs/Runs.antt` for what a call and a run are, and which timers a run started, handed out and ended. Then read
//! `laws`. timer_c shows that each call of timers.h is a call of such a run.
#![tactic(auto)]

mod laws;

pub use laws::{
    a_handle_names_its_own_timer, a_take_that_finds_none_has_taken_all,
    an_older_handle_names_nothing, each_timer_is_accounted_for, each_timer_is_somewhere,
    each_timer_is_taken, each_timer_is_taken_at_its_deadline, each_timer_is_taken_once,
    serials_rise, there_is_a_run, timers_are_taken_in_order,
};
