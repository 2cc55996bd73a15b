//! Prints what the numbers of a caller come to, and what admissions come to.
#![tactic(auto)]

mod admission;
mod numbers;

use crate::admission::{add_admissions, add_full, add_taken_back};
use crate::numbers::{add_first_numbers, add_last_numbers};
use std::test::Fail;

fn main(rt: HostRuntime) -> Result<(), Fail> {
    let alloc = rt.alloc();
    let mut told = String::new(alloc);
    add_first_numbers(alloc, &mut told)?;
    add_last_numbers(alloc, &mut told)?;
    add_admissions(alloc, &mut told)?;
    add_taken_back(alloc, &mut told)?;
    add_full(alloc, &mut told)?;
    print!(rt; "{told}")?;
    Ok(())
}
