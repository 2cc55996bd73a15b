// Lists of values, and sets as lists in rising order without doubles.
ghost use Rattle.std.specs.Prelude.{◌≡◌, [], ◌∷◌, ◌++◌, IfOk, OnOk, fold};
ghost use Rattle.std.specs.List.{filter_map, list_all};
ghost use Rattle.std.specs.Option.{option_to_list};
ghost use Rattle.sheet_values.specs.Sorted.{agrees as agrees_to};
ghost use Rattle.sheet_values.specs.Sets.{contains, insert, union, picked};
ghost use Rattle.sheet_meaning.specs.Formula.{sets_equal, combine, compare, truth_in as truth_told, number_in as number_told, text_in, object_in as object_told};

use sheet_columns::{SetOperator, SetTest};
use sheet_values::{Name, NoMemory, Ordered, Value, Values};
use std::alloc::Global;
use std::cmp::Ordering;

fn push_copy(list: &mut Values, value: &Value) -> Result<(), NoMemory>
    ensures { OnOk result (list.new ≡ list.old ++ value.now ∷ []) }
{
    list.push(value.copy()?)?;
    Ok(())
}

fn push_copies(list: &mut Values, values: &[Value]) -> Result<(), NoMemory>
    ensures { OnOk result (list.new ≡ list.old ++ values.now) }
{
    for value in values {
        push_copy(list, value)?;
    }
    Ok(())
}

/// The same values.
pub fn copied(alloc: Global, values: &[Value]) -> Result<Values, NoMemory>
    ensures { IfOk result (λ list. list ≡ values.now) }
{
    let mut list = Values::new(alloc);
    push_copies(&mut list, values)?;
    Ok(list)
}

/// One value, as a set.
pub fn alone(alloc: Global, value: Value) -> Result<Values, NoMemory>
    ensures { IfOk result (λ list. list ≡ value ∷ []) }
{
    let mut list = Values::new(alloc);
    list.push(value)?;
    Ok(list)
}

// A value in front of others.
fn in_front(alloc: Global, first: &Value, rest: &[Value]) -> Result<Values, NoMemory>
    ensures { IfOk result (λ list. list ≡ first.now ∷ rest.now) }
{
    let mut list = Values::new(alloc);
    push_copy(&mut list, first)?;
    push_copies(&mut list, rest)?;
    Ok(list)
}

// The values with one more in its place, unless it is there.
fn inserted(alloc: Global, value: &Value, values: &[Value]) -> Result<Values, NoMemory>
    ensures { IfOk result (λ list. list ≡ insert value.now values.now) }
{
    let Some((first, more)) = values.split_first() else {
        return in_front(alloc, value, values);
    };
    match value.compare(first) {
        Ordering::Less => in_front(alloc, value, values),
        Ordering::Equal => copied(alloc, values),
        Ordering::Greater => {
            let rest = inserted(alloc, value, more)?;
            in_front(alloc, first, rest.as_slice())
        }
    }
}

/// The values of one of the two.
pub fn union(alloc: Global, left: &[Value], right: &[Value]) -> Result<Values, NoMemory>
    ensures { IfOk result (λ list. list ≡ union left.now right.now) }
{
    let Some((first, more)) = left.split_first() else {
        return copied(alloc, right);
    };
    let rest = union(alloc, more, right)?;
    inserted(alloc, first, rest.as_slice())
}

/// Whether the value is one of these.
pub fn contains(value: &Value, values: &[Value]) -> bool
    ensures { result ≡ contains value.now values.now }
{
    values.iter().any(|other| value.compare(other).is_eq())
}

fn agrees(wanted: bool, found: bool) -> bool
    ensures { result ≡ agrees_to wanted found }
{
    if wanted { found } else { !found }
}

// The values of the left set that are in the right one, or that aren't, as is wanted.
fn picked(alloc: Global, wanted: bool, left: &[Value], right: &[Value]) -> Result<Values, NoMemory>
    ensures { IfOk result (λ list. list ≡ picked wanted left.now right.now) }
{
    let Some((first, more)) = left.split_first() else {
        return Ok(Values::new(alloc));
    };
    let rest = picked(alloc, wanted, more, right)?;
    if agrees(wanted, contains(first, right)) {
        in_front(alloc, first, rest.as_slice())
    } else {
        Ok(rest)
    }
}

/// What is made of two sets.
pub fn combine(
    alloc: Global,
    operator: SetOperator,
    left: &[Value],
    right: &[Value],
) -> Result<Values, NoMemory>
    ensures { IfOk result (λ list. list ≡ combine operator left.now right.now) }
{
    match operator {
        SetOperator::Union => union(alloc, left, right),
        SetOperator::Intersect => picked(alloc, true, left, right),
        SetOperator::Except => picked(alloc, false, left, right),
    }
}

// Whether two sets are equal.
fn equal(left: &[Value], right: &[Value]) -> bool
    ensures { result ≡ sets_equal left.now right.now }
{
    match (left.split_first(), right.split_first()) {
        (None, None) => true,
        (Some((a, more)), Some((b, others))) => a.compare(b).is_eq() && equal(more, others),
        (None, Some(_)) => false,
        (Some(_), None) => false,
    }
}

// Whether every value of the left set is in the right one.
fn within(left: &[Value], right: &[Value]) -> bool
    ensures { result ≡ list_all (λ x. contains x right.now) left.now }
{
    match left.split_first() {
        None => true,
        Some((first, more)) => contains(first, right) && within(more, right),
    }
}

/// Whether a comparison of two sets holds.
pub fn compare(test: SetTest, left: &[Value], right: &[Value]) -> bool
    ensures { result ≡ compare test left.now right.now }
{
    match test {
        SetTest::Equal => equal(left, right),
        SetTest::Unequal => !equal(left, right),
        SetTest::Within => within(left, right),
    }
}

fn truth_in(value: &Value) -> Option<bool>
    ensures { result ≡ truth_told value.now }
{
    match value {
        Value::Truth(truth) => Some(*truth),
        Value::Number(_) | Value::Text(_) | Value::Object(_) => None,
    }
}

/// The truths among some values.
pub fn truths(alloc: Global, values: &[Value]) -> Result<Vec<bool>, NoMemory>
    ensures { IfOk result (λ list. list.items ≡ filter_map truth_told values.now) }
{
    let list = values
        .iter()
        .filter_map(|value| truth_in(value))
        .collect(alloc)?;
    Ok(list)
}

fn number_in(value: &Value) -> Option<i64>
    ensures { result ≡ number_told value.now }
{
    match value {
        Value::Number(number) => Some(*number),
        Value::Truth(_) | Value::Text(_) | Value::Object(_) => None,
    }
}

/// The numbers among some values.
pub fn numbers(alloc: Global, values: &[Value]) -> Result<Vec<i64>, NoMemory>
    ensures { IfOk result (λ list. list.items ≡ filter_map number_told values.now) }
{
    let list = values
        .iter()
        .filter_map(|value| number_in(value))
        .collect(alloc)?;
    Ok(list)
}

fn push_text(list: &mut Vec<Name>, value: &Value) -> Result<(), NoMemory>
    ensures { OnOk result (list.new.items ≡ list.old.items ++ option_to_list (text_in value.now)) }
{
    if let Value::Text(text) = value {
        list.push(text.copy()?)?;
    }
    Ok(())
}

/// The texts among some values.
pub fn texts(alloc: Global, values: &[Value]) -> Result<Vec<Name>, NoMemory>
    ensures { IfOk result (λ list. list.items ≡ filter_map text_in values.now) }
{
    let mut list = Vec::new(alloc);
    for value in values {
        push_text(&mut list, value)?;
    }
    Ok(list)
}

fn object_in(value: &Value) -> Option<u64>
    ensures { result ≡ object_told value.now }
{
    match value {
        Value::Object(object) => Some(*object),
        Value::Truth(_) | Value::Number(_) | Value::Text(_) => None,
    }
}

/// The objects among some values.
pub fn objects(alloc: Global, values: &[Value]) -> Result<Vec<u64>, NoMemory>
    ensures { IfOk result (λ list. list.items ≡ filter_map object_told values.now) }
{
    let list = values
        .iter()
        .filter_map(|value| object_in(value))
        .collect(alloc)?;
    Ok(list)
}

/// The union of some sets, from the first to the last.
pub fn union_of_all(alloc: Global, sets: &[Values]) -> Result<Values, NoMemory>
    ensures { IfOk result (λ list. list ≡ fold union [] sets.now) }
{
    let mut list = Values::new(alloc);
    for set in sets {
        list = union(alloc, list.as_slice(), set.as_slice())?;
    }
    Ok(list)
}
