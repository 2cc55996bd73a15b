// Whole texts for a sink.
ghost use Rattle.std.specs.Prelude.{◌≡◌, OnOk, OnErr};
ghost use Rattle.sheet_outside.specs.Causes.{HasCause};
ghost use Rattle.sheet_outside.specs.Told.{Gains, WhereTold};
ghost use Rattle.sheet_lines.specs.Told.{GainsFront};

use sheet_outside::{Failed, Sink};

/// Writes all of the text. Where the sink fails, a front of the text was written.
pub fn write_all<K: Sink>(output: &mut K, text: &[u8]) -> Result<(), Failed>
    ensures ok { OnOk result (Gains (K.written output.old) (K.written output.new) text.now) }
    ensures err { OnErr result (WhereTold (GainsFront text.now) (K.written output.old) (K.written output.new)) }
    ensures cause { HasCause (K.faults output.old) (K.faults output.new) result }
{
    let mut at = 0;
    while at < text.len() {
        let (_, rest) = text.split_at(at);
        let count = output.write(rest)?;
        at += count;
    }
    Ok(())
}
