//! The parts of views, with column numbers for names and positions for variables.

use crate::{Core, Sequence};
use sheet_values::Name;

/// `show n = e`, with its number. A view's slots and tables are numbered from 1 in the order of the
/// text, a table before its slots. The number is the place of the slot's faults.
#[derive(Drop)]
pub struct CoreSlot {
    pub number: u32,
    pub name: Name,
    pub shown: Core,
}

/// A part of a view.
#[derive(Drop)]
pub enum CoreView {
    /// `show n = e`
    Show(CoreSlot),
    /// `table n = x in e { .. }`: one row for each value of the source, which the slots find at the
    /// position behind the parameters. The number is the place of the source's faults.
    Table {
        number: u32,
        name: Name,
        source: Core,
        slots: CoreSlots,
    },
}

/// The slots of a table, in order.
pub type CoreSlots = Sequence<CoreSlot>;

/// The parts of a view, in order.
pub type CoreParts = Sequence<CoreView>;
