// Lines and their margins.
ghost use Rattle.std.specs.Prelude.{◌≡◌, ◌++◌, codes, IfOk, OnOk};
ghost use Rattle.sheet_define_data.specs.Printing.{inside as inside_margin, margin as margin_of};

use sheet_syntax_print::append;
use sheet_values::NoMemory;
use std::alloc::Global;

// The margin inside one more brace.
pub(crate) fn inside(alloc: Global, margin: &[u8]) -> Result<Vec<u8>, NoMemory>
    ensures { IfOk result (λ wider. wider.items ≡ inside_margin margin.now) }
{
    let mut wider = Vec::from_slice(alloc, margin)?;
    append(&mut wider, b"  ")?;
    Ok(wider)
}

// The line that closes a brace.
pub(crate) fn append_closing(out: &mut Vec<u8>, margin: &[u8]) -> Result<(), NoMemory>
    ensures { OnOk result (out.new.items ≡ out.old.items ++ (margin.now ++ codes "}\n")) }
{
    append(out, margin)?;
    append(out, b"}\n")
}

// The margin inside so many braces.
pub(crate) fn append_margin(out: &mut Vec<u8>, depth: u64) -> Result<(), NoMemory>
    ensures { OnOk result (out.new.items ≡ out.old.items ++ margin_of depth) }
{
    for _ in 0..depth {
        append(out, b"  ")?;
    }
    Ok(())
}
