// The header: which field is for which parameter.
ghost use Rattle.std.specs.Prelude.{◌≡◌, ◌+◌, ◌≤◌, [], List, ℕ, length, map, bytes_eq, position, IfOk};
ghost use Rattle.std.specs.Borrow.{Bor};
ghost use Rattle.std.specs.List.{list_any};
ghost use Rattle.sheet_csv.specs.Rows.{is_among as is_among_of, names_parameter as names_parameter_of, bad_field as bad_field_of, lacks_parameter as lacks_parameter_of, place_in, slot_of, judged_header, AnswersItems};

use crate::refusal::CsvRefusal;
use sheet_values::{Kind, Name, NoMemory};
use std::alloc::Global;

/// The field of a parameter.
#[derive(Clone, Copy, Debug)]
pub struct Slot {
    /// The parameter's type.
    pub kind: Kind,
    /// Where its field stands in a record, from 0.
    pub place: usize,
}

fn is_one_of(text: &[u8], texts: &[&[u8]]) -> bool
    ensures { result ≡ list_any (λ (t : Bor (List ℕ)). bytes_eq t.now text.now) texts.now }
{
    texts.iter().any(|other| *other == text)
}

fn is_among(text: &[u8], texts: &[&[u8]]) -> bool
    ensures { result ≡ is_among_of text.now (map (λ t. t.now) texts.now) }
{
    is_one_of(text, texts)
}

fn names_parameter(text: &[u8], parameters: &[(Name, Kind)]) -> bool
    ensures { result ≡ names_parameter_of text.now parameters.now }
{
    parameters
        .iter()
        .any(|parameter| parameter.0.bytes() == text)
}

// The first field that is bad, from 1.
fn bad_field(parameters: &[(Name, Kind)], header: &[&[u8]]) -> Option<u32>
    requires { length header.now ≤ 16777217 }
    ensures { result ≡ bad_field_of parameters.now [] (map (λ t. t.now) header.now) }
{
    for k in 0..header.len() {
        let (earlier, _) = header.split_at(k);
        if !names_parameter(header[k], parameters) || is_among(header[k], earlier) {
            return Some(k as u32 + 1);
        }
    }
    None
}

fn lacks_parameter(parameters: &[(Name, Kind)], header: &[&[u8]]) -> bool
    ensures { result ≡ lacks_parameter_of parameters.now (map (λ t. t.now) header.now) }
{
    parameters
        .iter()
        .any(|parameter| !is_among(parameter.0.bytes(), header))
}

fn first_place(name: &[u8], header: &[&[u8]]) -> Option<usize>
    ensures { result ≡ position (λ (f : Bor (List ℕ)). bytes_eq f.now name.now) header.now }
{
    header.iter().position(|field| *field == name)
}

// Where the name stands; behind the last field where it stands nowhere.
fn place_of(name: &[u8], header: &[&[u8]]) -> usize
    ensures { result ≡ place_in (map (λ t. t.now) header.now) name.now }
{
    first_place(name, header).unwrap_or(header.len())
}

fn slots_of(
    alloc: Global,
    parameters: &[(Name, Kind)],
    header: &[&[u8]],
) -> Result<Vec<Slot>, NoMemory>
    ensures { IfOk result (λ slots. slots.items ≡ map (slot_of (map (λ t. t.now) header.now)) parameters.now) }
{
    let mut slots = Vec::new(alloc);
    for parameter in parameters {
        slots.push(Slot {
            kind: parameter.1,
            place: place_of(parameter.0.bytes(), header),
        })?;
    }
    Ok(slots)
}

/// Where the fields of the parameters stand.
///
/// `BadHeader` with the first field, from 1, that names no parameter, or one that an earlier field names; where a
/// parameter is missing, with the count of fields plus 1.
pub fn judge_header(
    alloc: Global,
    parameters: &[(Name, Kind)],
    header: &[&[u8]],
) -> Result<Vec<Slot>, CsvRefusal>
    requires { length header.now ≤ 16777217 }
    ensures { AnswersItems result (judged_header parameters.now (map (λ t. t.now) header.now)) }
{
    if let Some(field) = bad_field(parameters, header) {
        return Err(CsvRefusal::BadHeader(field));
    }
    if lacks_parameter(parameters, header) {
        return Err(CsvRefusal::BadHeader(header.len() as u32 + 1));
    }
    match slots_of(alloc, parameters, header) {
        Ok(slots) => Ok(slots),
        Err(_) => Err(CsvRefusal::NoMemory),
    }
}
