// Lines of fields that stand under one another.
ghost use Rattle.std.specs.Prelude.{◌≡◌, ◌++◌, replicate, OnOk};
ghost use Rattle.sheet_print.specs.Lines.{gap, line_text, lines_text, side_by_side};

use crate::field::{Field, Fields};
use crate::widths::{width, widths};
use sheet_values::NoMemory;
use std::alloc::Global;

// So many blanks.
#[tactic(auto, using(std::proofs::lemmas::List::replicate_more))]
fn add_blanks(out: &mut Vec<u8>, count: usize) -> Result<(), NoMemory>
    ensures { OnOk result (out.new.items ≡ out.old.items ++ replicate count 32) }
{
    for _blank in 0..count {
        out.push(b' ')?;
    }
    Ok(())
}

// What stands between a field and those behind it.
fn add_gap(out: &mut Vec<u8>, most: usize, field: &Field, more: &[Field]) -> Result<(), NoMemory>
    ensures { OnOk result (out.new.items ≡ out.old.items ++ gap most field.now more.now) }
{
    if more.is_empty() {
        return Ok(());
    }
    add_blanks(out, most.saturating_sub(width(field.bytes())))?;
    out.extend_from_slice(b"  ")?;
    Ok(())
}

// A field, and what stands between it and those behind it.
fn add_field(out: &mut Vec<u8>, most: usize, field: &Field, more: &[Field]) -> Result<(), NoMemory>
    ensures { OnOk result (out.new.items ≡ out.old.items ++ field.now ++ gap most field.now more.now) }
{
    out.extend_from_slice(field.bytes())?;
    add_gap(out, most, field, more)
}

// Fields of these widths, side by side.
fn add_fields(out: &mut Vec<u8>, widths: &[usize], fields: &[Field]) -> Result<(), NoMemory>
    ensures { OnOk result (out.new.items ≡ out.old.items ++ side_by_side widths.now fields.now) }
{
    let mut widths = widths;
    let mut fields = fields;
    while let (Some((most, others)), Some((field, more))) = (
        widths.split_first(),
        fields.split_first(),
    ) {
        add_field(out, *most, field, more)?;
        widths = others;
        fields = more;
    }
    Ok(())
}

// A line of fields of these widths.
fn add_line(out: &mut Vec<u8>, widths: &[usize], fields: &[Field]) -> Result<(), NoMemory>
    ensures { OnOk result (out.new.items ≡ out.old.items ++ line_text widths.now fields.now) }
{
    add_fields(out, widths, fields)?;
    out.push(b'\n')?;
    Ok(())
}

/// Lines whose fields stand under one another.
pub(crate) fn add_lines(alloc: Global, out: &mut Vec<u8>, lines: &[Fields]) -> Result<(), NoMemory>
    ensures { OnOk result (out.new.items ≡ out.old.items ++ lines_text lines.now) }
{
    let widths = widths(alloc, lines)?;
    for fields in lines {
        add_line(out, widths.as_slice(), fields.as_slice())?;
    }
    Ok(())
}
