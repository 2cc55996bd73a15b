// How far the run of a procedure has come, beside its engine.
use sheet_columns::Variables;
use sheet_procs_touched::Touched;
use sheet_values::Set;

/// The variables by position, the reply so far, and the state cells that the changes touched.
#[derive(Drop)]
pub(crate) struct Progress {
    pub variables: Variables,
    pub reply: Set,
    pub touched: Touched,
}
