// The numbers of a caller, and what is kept.
ghost use Rattle.std.specs.Prelude.{◌+◌, OnOk};
ghost use Rattle.sheet_callers.specs.Callers.{caller_at};
ghost use Rattle.sheet_callers.specs.Judging.{IsNext};

use sheet_callers::{Callers, Judgement};
use sheet_requests::Answer;
use sheet_values::{Name, NoMemory};
use std::alloc::Global;

// One more accepted request of the operator, with its number in its answer.
fn keep(alloc: Global, callers: &mut Callers, number: u32) -> Result<(), NoMemory>
    requires { IsNext (caller_at callers.old 1) number }
    ensures { OnOk result (IsNext (caller_at callers.new 1) (number + 1)) }
{
    let line = b"line".to_vec(alloc)?;
    callers.keep(1, number as u64, line, Answer::Caller(number));
    Ok(())
}

// The operator with 17 accepted requests.
fn seventeen(alloc: Global) -> Result<Callers, NoMemory> {
    let mut callers = Callers::new(alloc, Name::of(alloc, "op")?)?;
    let mut number = 1;
    while number < 18 {
        keep(alloc, &mut callers, number)?;
        number += 1;
    }
    Ok(callers)
}

// What a number of the operator comes to: a word, and the answer or the last number.
fn judged(callers: &Callers, number: u64, line: &[u8]) -> (&'static str, u64) {
    let _ = callers.count();
    match callers.judge(1, number, line) {
        Judgement::Fresh => ("fresh", 0),
        Judgement::Kept(Answer::Caller(caller)) => ("kept", *caller as u64),
        Judgement::Kept(Answer::Values(_)) => ("kept", 0),
        Judgement::Differs => ("differs", 0),
        Judgement::Past(last) => ("past", last),
        Judgement::Ahead(last) => ("ahead", last),
    }
}

// Adds a line with what a number comes to.
fn add(callers: &Callers, number: u64, line: &[u8], out: &mut String) -> Result<(), NoMemory> {
    let (word, told) = judged(callers, number, line);
    write!(out, "{number} {word} {told}\n").map_err(|_| NoMemory)
}

/// The numbers of an operator of whom nothing was accepted yet.
pub fn add_first_numbers(alloc: Global, out: &mut String) -> Result<(), NoMemory> {
    let callers = Callers::new(alloc, Name::of(alloc, "op")?)?;
    for number in 0..3 {
        add(&callers, number, b"line", out)?;
    }
    Ok(())
}

/// The numbers behind 17 accepted requests, for an equal line and for another one.
pub fn add_last_numbers(alloc: Global, out: &mut String) -> Result<(), NoMemory> {
    let callers = seventeen(alloc)?;
    for number in 0..20 {
        add(&callers, number, b"line", out)?;
    }
    for number in 1..4 {
        add(&callers, number, b"lin", out)?;
    }
    Ok(())
}
