//! The places of a driven run: its choices among ready processors, at which the order by turns with
//! delays passes over some of them (delay-bounded scheduling; Emmi, Qadeer and Rakamarić 2011).
#![tactic(auto)]

mod counts;
mod going;
mod laws;

pub use counts::offers;
pub use going::advance;
pub use laws::{
    choose_alike, go_alike, has_run_of_part, have_different_runs, have_effective_part, is_by_turns,
};
