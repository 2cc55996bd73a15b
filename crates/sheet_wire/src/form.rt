// Which fields an object has.
ghost use Rattle.std.specs.Prelude.{◌≡◌, map, Ok, Err, [], if◌then◌else◌, count_by, is_some, bytes_eq};
ghost use Rattle.std.specs.List.{list_any};
ghost use Rattle.serde_json.specs.Find.{get};
ghost use Rattle.serde_json.specs.View.{view, members_view};
ghost use Rattle.sheet_requests.specs.Reading.{has_only, of_fields, forms};
ghost use Rattle.sheet_requests.specs.declared.request.WireRefusal.TheVariants.{BadShape};
ghost use Rattle.sheet_wire.specs.Fields.{field_name};

use crate::field::Field;
use serde_json::{Map, Value as Json};

/// How many of the fields that tell requests apart it has.
pub fn count_forms(value: &Json) -> usize
    ensures { result ≡ count_by (λ f. is_some (get f (view value.now))) forms }
{
    let (call, look) = (Field::Do.is_in(value), Field::See.is_in(value));
    let (items, admission) = (Field::Reads.is_in(value), Field::Admit.is_in(value));
    let counts = Field::Stats.is_in(value);
    call as usize + look as usize + items as usize + admission as usize + counts as usize
}

/// Whether it is an object with no other fields than these.
pub fn is_of(value: &Json, fields: &[Field]) -> bool
    ensures { of_fields (map field_name fields.now) (view value.now)
        ≡ (if result then Ok (view value.now) else Err (BadShape [])) }
{
    match value.as_object() {
        Some(members) => has_only(members, fields),
        None => false,
    }
}

fn has_only(members: &Map<String, Json>, fields: &[Field]) -> bool
    ensures { result ≡ has_only (map field_name fields.now) (members_view members.now.entries) }
{
    for (name, _) in members {
        if !is_among(name.as_str(), fields) {
            return false;
        }
    }
    true
}

fn is_among(name: &str, fields: &[Field]) -> bool
    ensures { result ≡ list_any (λ f. bytes_eq name.now (field_name f)) fields.now }
{
    for field in fields {
        if name == field.name() {
            return true;
        }
    }
    false
}
