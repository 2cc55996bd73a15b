// What came.

/// How many definitions were refused, how many cells had values, faults and cycles, and how many differed from the plain program's.
#[derive(Clone, Copy, Debug, PartialEq, Eq)]
pub struct Counts {
    pub refused: u64,
    pub known: u64,
    pub faults: u64,
    pub cycles: u64,
    pub differ: u64,
}

impl Counts {
    /// Nothing yet.
    pub fn new() -> Counts {
        Counts {
            refused: 0,
            known: 0,
            faults: 0,
            cycles: 0,
            differ: 0,
        }
    }

    /// A definition more that was refused.
    pub fn refuse(&mut self) {
        self.refused = self.refused.saturating_add(1);
    }

    /// A set more.
    pub fn know(&mut self) {
        self.known = self.known.saturating_add(1);
    }

    /// A fault more.
    pub fn fault(&mut self) {
        self.faults = self.faults.saturating_add(1);
    }

    /// A cycle more.
    pub fn cycle(&mut self) {
        self.cycles = self.cycles.saturating_add(1);
    }

    /// A cell more that differs.
    pub fn differ(&mut self) {
        self.differ = self.differ.saturating_add(1);
    }
}
