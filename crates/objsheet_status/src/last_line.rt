// The line that a command writes before it ends.
ghost use Rattle.std.specs.Prelude.{◌≡◌, ◌≢◌, ◌⊎◌, ◌≤◌};
ghost use Rattle.sheet_outside.specs.Causes.{Rose};
ghost use Rattle.sheet_outside.specs.Told.{Gains, WhereTold};
ghost use Rattle.sheet_lines.specs.Told.{GainsFront};
ghost use Rattle.objsheet_status.specs.Outside.{Says, seen};

use crate::status::SINK_FAILED;
use sheet_lines::write_all;
use sheet_outside::Sink;

/// Writes a line, and answers the status that it goes with; or `SINK_FAILED`, where the sink failed.
pub fn write_last_line<K: Sink>(output: &mut K, line: &[u8], status: u8) -> u8
    requires { status ≢ 4 }
    ensures status { (result ≡ status) ⊎ (result ≡ 4) }
    ensures said { result ≡ status → Gains (K.written output.old) (K.written output.new) line.now }
    ensures broken { result ≡ 4 → WhereTold (GainsFront line.now) (K.written output.old) (K.written output.new) }
    ensures sink { result ≡ 4 → Rose (K.faults output.old) (K.faults output.new) }
    ensures later_sink { K.faults output.old ≤ K.faults output.new }
    // The same in one word.
    ensures says { Says line.now status result (seen (K.written output.old) (K.faults output.old)) (seen (K.written output.new) (K.faults output.new)) }
{
    match write_all(output, line) {
        Ok(()) => status,
        Err(_) => SINK_FAILED,
    }
}
