// The arguments of a call.
ghost use Rattle.std.specs.Prelude.{◌≡◌, ◌≤◌, length};
ghost use Rattle.sheet_meaning.specs.Arguments.{bad_argument as defined_bad_argument};

use sheet_columns::Parameters;
use sheet_engine::Engine;
use sheet_values::Values;

/// Which argument of a call is bad, for at most 16 parameters: 0 where there are more or fewer arguments than parameters, else the
/// first, from 1, that isn't a live value of its parameter's type; none where none is. It takes no memory.
pub fn bad_argument(engine: &Engine, parameters: &Parameters, arguments: &Values) -> Option<u32>
    requires { length parameters.now ≤ 16 }
    ensures { result ≡ defined_bad_argument engine.now.state.present.state parameters.now arguments.now }
{
    sheet_state_arguments::bad_argument(engine.state(), parameters, arguments)
}
