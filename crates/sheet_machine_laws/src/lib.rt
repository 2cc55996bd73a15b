//! The abstract machine: what is held, what a request comes to, steps and runs. Definitions and laws, no program.
#![tactic(auto)]

mod law;

pub use law::{
    only_accepted_change, only_disks_fault, sound_stays, starts_are_sound, worked_numbers,
};
