// The parameters of procedures and views.
use crate::Sequence;
use sheet_values::{Kind, Name};

/// The names and types of parameters, in order.
pub type Parameters = Sequence<(Name, Kind)>;
