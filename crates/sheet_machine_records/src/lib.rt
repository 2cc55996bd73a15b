//! The first record of a journal: the operator's key and the definition.
#![tactic(auto)]

ghost use Rattle.std.specs.Prelude.{◌≡◌, ◌≤◌, length, IfOk, option_map};
ghost use Rattle.sheet_machine_records.specs.Records.{first_payload, TellsFirst};

use sheet_values::NoMemory;
use std::alloc::Global;

/// The payload of a journal's first record, for an operator's key of at most 255 bytes: one byte with the length of the key, the key,
/// and the bytes of the definition.
pub fn first_record(alloc: Global, key: &[u8], definition: &[u8]) -> Result<Vec<u8>, NoMemory>
    requires { length key.now ≤ 255 }
    ensures { IfOk result (λ payload. payload.items ≡ first_payload key.now definition.now) }
{
    let mut payload = Vec::new(alloc);
    payload.push(key.len() as u8)?;
    payload.extend_from_slice(key)?;
    payload.extend_from_slice(definition)?;
    Ok(payload)
}

/// The operator's key and the definition of a journal's first record. None exactly where the payload has no first byte, or that byte
/// is more than the count of bytes behind it. It takes no memory.
pub fn first_parts(payload: &[u8]) -> Option<(&[u8], &[u8])>
    ensures { TellsFirst payload.now (option_map (λ parts. (parts.0.now, parts.1.now)) result) }
{
    let (count, rest) = payload.split_first()?;
    let count = *count as usize;
    if count > rest.len() {
        return None;
    }
    Some(rest.split_at(count))
}
