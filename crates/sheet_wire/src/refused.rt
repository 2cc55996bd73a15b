// Why no request is read.
ghost use Rattle.std.specs.Prelude.{[]};
ghost use Rattle.sheet_requests.specs.declared.request.WireRefusal.TheVariants.{BadShape, NumberOutside, TextTooLong};
ghost use Rattle.sheet_wire.specs.Answers.{IsRefusal};
ghost use Rattle.sheet_wire.specs.Fields.{field_name};

use crate::field::Field;
use sheet_requests::WireRefusal;
use sheet_values::{Name, NoMemory};
use std::alloc::Global;

/// The whole is no request.
pub fn no_request(alloc: Global) -> WireRefusal
    ensures { IsRefusal result (BadShape []) }
{
    match Name::of(alloc, "") {
        Ok(whole) => WireRefusal::BadShape(whole),
        Err(NoMemory) => WireRefusal::NoMemory,
    }
}

/// A field is missing or isn't of its kind.
pub fn bad_shape(alloc: Global, field: Field) -> WireRefusal
    ensures { IsRefusal result (BadShape (field_name field)) }
{
    match Name::of(alloc, field.name()) {
        Ok(field) => WireRefusal::BadShape(field),
        Err(NoMemory) => WireRefusal::NoMemory,
    }
}

/// A number in a field is no whole one, or out of its range.
pub fn number_outside(alloc: Global, field: Field) -> WireRefusal
    ensures { IsRefusal result (NumberOutside (field_name field)) }
{
    match Name::of(alloc, field.name()) {
        Ok(field) => WireRefusal::NumberOutside(field),
        Err(NoMemory) => WireRefusal::NoMemory,
    }
}

/// A text in a field has more than 1,000 bytes.
pub fn text_too_long(alloc: Global, field: Field) -> WireRefusal
    ensures { IsRefusal result (TextTooLong (field_name field)) }
{
    match Name::of(alloc, field.name()) {
        Ok(field) => WireRefusal::TextTooLong(field),
        Err(NoMemory) => WireRefusal::NoMemory,
    }
}
