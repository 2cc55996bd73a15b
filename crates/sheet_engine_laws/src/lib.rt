//! Laws of settling single formula cells: which results are final, which cells are needed, and which never settle.
#![tactic(auto)]

ghost use Rattle.sheet_engine_laws.specs.Blocked.{BlockedAreCycles};
ghost use Rattle.sheet_engine_laws.specs.Chains.{ChainsAreCycles, MeaningsAreWorkedOut};
ghost use Rattle.sheet_engine_laws.specs.Local.{LocalRoundsSettle};
ghost use Rattle.sheet_engine_laws.specs.Found.{FoundSettle, NeededAreRead};

/// Formula cells each of which directly reads one of them are cycles: no round gives one of them an outcome.
pub fn blocked_cells_are_cycles()
    ensures { BlockedAreCycles }
{}

/// Where results that are found are the meanings of their cells, and an evaluation over them uses no cell without one, it is that over
/// the meanings of all cells.
pub fn found_results_settle()
    ensures { FoundSettle }
{}

/// What an evaluation uses over results that are found, it uses over the meanings of all cells.
pub fn needed_cells_are_read()
    ensures { NeededAreRead }
{}

/// Where cells are started each of which directly reads the next, and the last one reads one of them, all of them are cycles.
pub fn waiting_chains_are_cycles()
    ensures { ChainsAreCycles }
{}

/// A cell's meaning is what its formula comes to over the meanings of all cells; it is none where there is no such formula cell.
pub fn meanings_are_worked_out()
    ensures { MeaningsAreWorkedOut }
{}

/// Where cells are worked out in rounds of their own, and after some rounds their formulas use these cells alone and a round more
/// changes nothing, they have their meanings.
pub fn local_rounds_settle()
    ensures { LocalRoundsSettle }
{}
