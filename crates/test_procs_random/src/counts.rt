// What runs come to, counted.
use sheet_columns::Fault;
use sheet_procs::ProcedureRefusal;
use sheet_values::{NoMemory, Set};
use std::alloc::Global;

/// How many runs came to what.
#[derive(Clone, Copy, Debug, PartialEq, Eq)]
pub struct Counts {
    /// All runs.
    pub runs: u64,
    accepted: u64,
    denied: u64,
    checks: u64,
    not_one: u64,
    overflow: u64,
    zero_divisor: u64,
    text_too_long: u64,
    cycle: u64,
    full: u64,
    not_one_cell: u64,
    /// Calls whose arguments didn't fit, which are no runs.
    pub calls_not_run: u64,
    /// Texts that had no book.
    pub no_book: u64,
    /// Runs in which the two programs came to other ends.
    pub other_end: u64,
    /// Runs behind which their states differ.
    pub other_state: u64,
}

// One more.
fn count(number: &mut u64) {
    *number = number.saturating_add(1);
}

impl Counts {
    /// No runs.
    pub fn new() -> Counts {
        Counts {
            runs: 0,
            accepted: 0,
            denied: 0,
            checks: 0,
            not_one: 0,
            overflow: 0,
            zero_divisor: 0,
            text_too_long: 0,
            cycle: 0,
            full: 0,
            not_one_cell: 0,
            calls_not_run: 0,
            no_book: 0,
            other_end: 0,
            other_state: 0,
        }
    }

    /// A call that didn't run.
    pub fn add_call(&mut self) {
        count(&mut self.calls_not_run);
    }

    /// A text without a book.
    pub fn add_text(&mut self) {
        count(&mut self.no_book);
    }

    /// A run, and whether both programs came to the same end and the same state.
    pub fn add_run(&mut self, same_end: bool, same_state: bool) {
        count(&mut self.runs);
        if !same_end {
            count(&mut self.other_end);
        }
        if !same_state {
            count(&mut self.other_state);
        }
    }

    fn add_fault(&mut self, fault: Fault) {
        match fault {
            Fault::Cycle => count(&mut self.cycle),
            Fault::NotOne(_, _) => count(&mut self.not_one),
            Fault::Overflow(_) => count(&mut self.overflow),
            Fault::ZeroDivisor(_) => count(&mut self.zero_divisor),
            Fault::TextTooLong(_) => count(&mut self.text_too_long),
        }
    }

    /// What a run came to.
    pub fn add_end(&mut self, end: &Result<Set, ProcedureRefusal>) {
        match end {
            Ok(_) => count(&mut self.accepted),
            Err(ProcedureRefusal::Denied) => count(&mut self.denied),
            Err(ProcedureRefusal::CheckFailed(_, _)) => count(&mut self.checks),
            Err(ProcedureRefusal::FormulaFault(fault)) => self.add_fault(*fault),
            Err(ProcedureRefusal::NotOneCell(_, _, _)) => count(&mut self.not_one_cell),
            Err(ProcedureRefusal::Full(_, _)) => count(&mut self.full),
            Err(ProcedureRefusal::NoMemory) => {}
        }
    }

    /// A line for each count.
    pub fn text(&self, alloc: Global) -> Result<String, NoMemory> {
        let lines = [
            ("runs", self.runs),
            ("accepted", self.accepted),
            ("denied", self.denied),
            ("check failed", self.checks),
            ("not one", self.not_one),
            ("overflow", self.overflow),
            ("zero divisor", self.zero_divisor),
            ("text too long", self.text_too_long),
            ("cycle", self.cycle),
            ("full", self.full),
            ("not one cell", self.not_one_cell),
            ("other end", self.other_end),
            ("other state", self.other_state),
            ("calls not run", self.calls_not_run),
            ("no book", self.no_book),
        ];
        let mut out = String::new(alloc);
        for (name, number) in lines {
            let line = format!(in alloc; "{name} {number}\n")?;
            out.push_str(line.as_str())?;
        }
        Ok(out)
    }
}
