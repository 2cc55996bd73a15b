// Two sets joined again and again.
use sheet_values::{NoMemory, Set, Value};
use std::alloc::Global;

// Each second number, from one on.
fn spread(alloc: Global, from: u32, count: u32) -> Result<Set, NoMemory> {
    let mut set = Set::empty(alloc);
    for k in 0..count {
        set.insert(Value::Number(k as i64 * 2 + from as i64))?;
    }
    Ok(set)
}

/// Joins the even and the odd numbers, so many of each, that many times; how many values the last union has.
pub fn joined(alloc: Global, count: u32, times: u32) -> Result<u64, NoMemory> {
    let even = spread(alloc, 0, count)?;
    let odd = spread(alloc, 1, count)?;
    let mut length: u64 = 0;
    for _ in 0..times {
        let union = even.union(&odd)?;
        length = union.len() as u64;
    }
    Ok(length)
}
