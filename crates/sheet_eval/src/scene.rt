// What an evaluation works over.
use crate::lookup::Lookup;
use sheet_columns::{Place, Variables};
use std::alloc::Global;

/// What stays the same in all parts of an evaluation.
#[derive(Drop)]
pub struct Scene<'a, L: Lookup> {
    /// Where sets are made.
    pub alloc: Global,
    /// The place of the faults that arise.
    pub place: Place,
    /// Who tells the content and the results.
    pub lookup: &'a L,
    /// The variables from outside of the formula.
    pub variables: &'a Variables,
}
