// What each form makes of the evaluations of its parts.
ghost use Rattle.std.specs.Prelude.{◌≡◌, ◌++◌, ◌∷◌, [], ℤ, pos, ◌||◌, ◌&&◌, ◌+ℤ◌, ◌-ℤ◌, ◌≤ℤ◌, ◌^◌, ◌*ℤ◌, neg_ℤ, int_div, int_rem, IfOk, fold, map, length, not};
ghost use Rattle.sheet_values.specs.declared.value.Value.TheVariants.{Number};
ghost use Rattle.sheet_values.specs.Order.{value_cmp};
ghost use Rattle.sheet_meaning.specs.Run.{done, finish, and_then};
ghost use Rattle.sheet_meaning.specs.Formula.{told, fits, fits_text, ordered, arithmetic, extreme, last, step, on_object, divide};
ghost use Rattle.plain_lists.specs.Told.{scene, way_of};
ghost use Rattle.plain_formulas.specs.Forms.{combined, compared, in_order, calculated, negated, joined_texts, denied, connected, chosen, counted, only, extreme_of, united, singles, turns, number_turns, truths_of, totalled, answered, quantified_over, for_source, values_in};

use crate::parts::{
    all_joined, both, choose, connect, for_source, given, number, one, single, text, truth, turn,
};
use plain_lists::{Way, WorkedCell, alone, combine, compare, union_of_all, way_from};
use sheet_columns::{
    ArithmeticOperator, Connective, Extremum, Fault, OrderTest, Place, Quantifier, SetOperator,
    SetTest,
};
use sheet_meaning::{Run, State};
use sheet_values::{Name, NoMemory, NotOne, Ordered, Value, Values};
use sqlite_items::Items;
use std::alloc::Global;
use std::cmp::Ordering;

/// One value, for which nothing is used.
pub fn known(alloc: Global, value: Value) -> Result<Run<Values>, NoMemory>
    ensures { IfOk result (λ r. r ≡ done (value ∷ [])) }
{
    let set = alone(alloc, value)?;
    Ok(given(alloc, Ok(set)))
}

fn told(alloc: Global, truth: bool) -> Result<Result<Values, Fault>, NoMemory>
    ensures { IfOk result (λ o. o ≡ told truth) }
{
    Ok(Ok(alone(alloc, Value::Truth(truth))?))
}

/// `a union b`, `a intersect b`, `a except b`.
pub fn combined(
    alloc: Global,
    operator: SetOperator,
    left: Run<Values>,
    right: Run<Values>,
) -> Result<Run<Values>, NoMemory>
    ensures { IfOk result (λ r. r ≡ combined operator left right) }
{
    let Run { outcome, uses } = both(left, right)?;
    match outcome {
        Ok((a, b)) => {
            let set = combine(alloc, operator, a.as_slice(), b.as_slice())?;
            Ok(Run {
                outcome: Ok(set),
                uses,
            })
        }
        Err(fault) => Ok(Run {
            outcome: Err(fault),
            uses,
        }),
    }
}

/// `a = b`, `a != b`, `a in b`.
pub fn compared(
    alloc: Global,
    test: SetTest,
    left: Run<Values>,
    right: Run<Values>,
) -> Result<Run<Values>, NoMemory>
    ensures { IfOk result (λ r. r ≡ compared test left right) }
{
    let Run { outcome, uses } = both(left, right)?;
    match outcome {
        Ok((a, b)) => {
            let outcome = told(alloc, compare(test, a.as_slice(), b.as_slice()))?;
            Ok(Run { outcome, uses })
        }
        Err(fault) => Ok(Run {
            outcome: Err(fault),
            uses,
        }),
    }
}

fn ordered(test: OrderTest, order: Ordering) -> bool
    ensures { result ≡ ordered test order }
{
    match test {
        OrderTest::Less => order.is_lt(),
        OrderTest::AtMost => order.is_le(),
        OrderTest::Greater => order.is_gt(),
        OrderTest::AtLeast => order.is_ge(),
    }
}

/// `a < b`, `a <= b`, `a > b`, `a >= b`.
pub fn in_order(
    alloc: Global,
    test: OrderTest,
    place: Place,
    left: Run<Values>,
    right: Run<Values>,
) -> Result<Run<Values>, NoMemory>
    ensures { IfOk result (λ r. r ≡ in_order test place left right) }
{
    let left = one(alloc, place, left)?;
    let right = one(alloc, place, right)?;
    let Run { outcome, uses } = both(left, right)?;
    match outcome {
        Ok((a, b)) => {
            let outcome = told(alloc, ordered(test, a.compare(&b)))?;
            Ok(Run { outcome, uses })
        }
        Err(fault) => Ok(Run {
            outcome: Err(fault),
            uses,
        }),
    }
}

// The number, or that it is outside 64 bits.
fn added(alloc: Global, place: Place, a: i64, b: i64) -> Result<Result<Values, Fault>, NoMemory>
    ensures { IfOk result (λ o. o ≡ fits place (a +ℤ b)) }
{
    match a.checked_add(b) {
        Some(sum) => Ok(Ok(alone(alloc, Value::Number(sum))?)),
        None => Ok(Err(Fault::Overflow(place))),
    }
}

fn subtracted(
    alloc: Global,
    place: Place,
    a: i64,
    b: i64,
) -> Result<Result<Values, Fault>, NoMemory>
    ensures { IfOk result (λ o. o ≡ fits place (a -ℤ b)) }
{
    match a.checked_sub(b) {
        Some(difference) => Ok(Ok(alone(alloc, Value::Number(difference))?)),
        None => Ok(Err(Fault::Overflow(place))),
    }
}

fn multiplied(
    alloc: Global,
    place: Place,
    a: i64,
    b: i64,
) -> Result<Result<Values, Fault>, NoMemory>
    ensures { IfOk result (λ o. o ≡ fits place (a *ℤ b)) }
{
    match a.checked_mul(b) {
        Some(product) => Ok(Ok(alone(alloc, Value::Number(product))?)),
        None => Ok(Err(Fault::Overflow(place))),
    }
}

fn divided(alloc: Global, place: Place, a: i64, b: i64) -> Result<Result<Values, Fault>, NoMemory>
    ensures { IfOk result (λ o. o ≡ divide place int_div a b) }
{
    if b == 0 {
        return Ok(Err(Fault::ZeroDivisor(place)));
    }
    match a.checked_div(b) {
        Some(quotient) => Ok(Ok(alone(alloc, Value::Number(quotient))?)),
        None => Ok(Err(Fault::Overflow(place))),
    }
}

// The remainder of a division by -1 is 0, also where the quotient is outside 64 bits.
fn remainder(alloc: Global, place: Place, a: i64, b: i64) -> Result<Result<Values, Fault>, NoMemory>
    ensures { IfOk result (λ o. o ≡ divide place int_rem a b) }
{
    if b == 0 {
        return Ok(Err(Fault::ZeroDivisor(place)));
    }
    let rest = a.checked_rem(b).unwrap_or(0);
    Ok(Ok(alone(alloc, Value::Number(rest))?))
}

fn arithmetic(
    alloc: Global,
    operator: ArithmeticOperator,
    place: Place,
    a: i64,
    b: i64,
) -> Result<Result<Values, Fault>, NoMemory>
    ensures { IfOk result (λ o. o ≡ arithmetic operator place a b) }
{
    match operator {
        ArithmeticOperator::Add => added(alloc, place, a, b),
        ArithmeticOperator::Subtract => subtracted(alloc, place, a, b),
        ArithmeticOperator::Multiply => multiplied(alloc, place, a, b),
        ArithmeticOperator::Divide => divided(alloc, place, a, b),
        ArithmeticOperator::Remainder => remainder(alloc, place, a, b),
    }
}

/// `a + b`, `a - b`, `a * b`, `a / b`, `a % b`.
pub fn calculated(
    alloc: Global,
    operator: ArithmeticOperator,
    place: Place,
    left: Run<Values>,
    right: Run<Values>,
) -> Result<Run<Values>, NoMemory>
    ensures { IfOk result (λ r. r ≡ calculated operator place left right) }
{
    let left = number(alloc, place, left)?;
    let right = number(alloc, place, right)?;
    let Run { outcome, uses } = both(left, right)?;
    match outcome {
        Ok((a, b)) => {
            let outcome = arithmetic(alloc, operator, place, a, b)?;
            Ok(Run { outcome, uses })
        }
        Err(fault) => Ok(Run {
            outcome: Err(fault),
            uses,
        }),
    }
}

fn opposite(alloc: Global, place: Place, n: i64) -> Result<Result<Values, Fault>, NoMemory>
    ensures { IfOk result (λ o. o ≡ fits place (neg_ℤ n)) }
{
    match n.checked_neg() {
        Some(number) => Ok(Ok(alone(alloc, Value::Number(number))?)),
        None => Ok(Err(Fault::Overflow(place))),
    }
}

/// `-a`
pub fn negated(alloc: Global, place: Place, part: Run<Values>) -> Result<Run<Values>, NoMemory>
    ensures { IfOk result (λ r. r ≡ negated place part) }
{
    let Run { outcome, uses } = number(alloc, place, part)?;
    match outcome {
        Ok(n) => {
            let outcome = opposite(alloc, place, n)?;
            Ok(Run { outcome, uses })
        }
        Err(fault) => Ok(Run {
            outcome: Err(fault),
            uses,
        }),
    }
}

// The text of both, where it has at most 1,000 bytes.
fn both_texts(
    alloc: Global,
    place: Place,
    a: &Name,
    b: &Name,
) -> Result<Result<Values, Fault>, NoMemory>
    ensures { IfOk result (λ o. o ≡ fits_text place (a.now ++ b.now)) }
{
    if a.bytes().len() + b.bytes().len() > 1000 {
        return Ok(Err(Fault::TextTooLong(place)));
    }
    let mut text = String::from_str(alloc, a.text())?;
    text.push_str(b.text())?;
    let name = Name::of(alloc, text.as_str())?;
    Ok(Ok(alone(alloc, Value::Text(name))?))
}

/// `a & b`
pub fn joined_texts(
    alloc: Global,
    place: Place,
    left: Run<Values>,
    right: Run<Values>,
) -> Result<Run<Values>, NoMemory>
    ensures { IfOk result (λ r. r ≡ joined_texts place left right) }
{
    let left = text(alloc, place, left)?;
    let right = text(alloc, place, right)?;
    let Run { outcome, uses } = both(left, right)?;
    match outcome {
        Ok((a, b)) => {
            let outcome = both_texts(alloc, place, &a, &b)?;
            Ok(Run { outcome, uses })
        }
        Err(fault) => Ok(Run {
            outcome: Err(fault),
            uses,
        }),
    }
}

/// `not a`
pub fn denied(alloc: Global, place: Place, part: Run<Values>) -> Result<Run<Values>, NoMemory>
    ensures { IfOk result (λ r. r ≡ denied place part) }
{
    let Run { outcome, uses } = truth(alloc, place, part)?;
    match outcome {
        Ok(holds) => {
            let outcome = told(alloc, !holds)?;
            Ok(Run { outcome, uses })
        }
        Err(fault) => Ok(Run {
            outcome: Err(fault),
            uses,
        }),
    }
}

// A truth as a set.
fn truth_set(alloc: Global, part: Run<bool>) -> Result<Run<Values>, NoMemory>
    ensures { IfOk result (λ r. r ≡ finish part told) }
{
    let Run { outcome, uses } = part;
    match outcome {
        Ok(holds) => {
            let outcome = told(alloc, holds)?;
            Ok(Run { outcome, uses })
        }
        Err(fault) => Ok(Run {
            outcome: Err(fault),
            uses,
        }),
    }
}

/// `a and b`, `a or b`.
pub fn connected(
    alloc: Global,
    connective: Connective,
    place: Place,
    left: Run<Values>,
    right: Run<Values>,
) -> Result<Run<Values>, NoMemory>
    ensures { IfOk result (λ r. r ≡ connected connective place left right) }
{
    let left = truth(alloc, place, left)?;
    let right = truth(alloc, place, right)?;
    let truth = connect(alloc, connective, left, right)?;
    truth_set(alloc, truth)
}

/// `if c then a else b`
pub fn chosen(
    alloc: Global,
    place: Place,
    condition: Run<Values>,
    left: Run<Values>,
    right: Run<Values>,
) -> Result<Run<Values>, NoMemory>
    ensures { IfOk result (λ r. r ≡ chosen place condition left right) }
{
    let condition = truth(alloc, place, condition)?;
    choose(alloc, condition, left, right)
}

/// `count(s)`
pub fn counted(alloc: Global, set: Run<Values>) -> Result<Run<Values>, NoMemory>
    ensures { IfOk result (λ r. r ≡ counted set) }
{
    let Run { outcome, uses } = set;
    match outcome {
        Ok(set) => {
            let count = alone(alloc, Value::Number(set.len() as i64))?;
            Ok(Run {
                outcome: Ok(count),
                uses,
            })
        }
        Err(fault) => Ok(Run {
            outcome: Err(fault),
            uses,
        }),
    }
}

/// `only(s)`
pub fn only(alloc: Global, place: Place, set: Run<Values>) -> Result<Run<Values>, NoMemory>
    ensures { IfOk result (λ r. r ≡ only place set) }
{
    let Run { outcome, uses } = one(alloc, place, set)?;
    match outcome {
        Ok(value) => {
            let set = alone(alloc, value)?;
            Ok(Run {
                outcome: Ok(set),
                uses,
            })
        }
        Err(fault) => Ok(Run {
            outcome: Err(fault),
            uses,
        }),
    }
}

// The least value of a set, or the greatest.
fn extreme(
    alloc: Global,
    extremum: Extremum,
    place: Place,
    set: &[Value],
) -> Result<Result<Values, Fault>, NoMemory>
    ensures { IfOk result (λ o. o ≡ extreme extremum place set.now) }
{
    match set.split_first() {
        None => Ok(Err(Fault::NotOne(NotOne::Zero, place))),
        Some((first, more)) => match extremum {
            Extremum::Min => Ok(Ok(alone(alloc, first.copy()?)?)),
            Extremum::Max => Ok(Ok(alone(alloc, last(first, more).copy()?)?)),
        },
    }
}

/// `min(s)`, `max(s)`.
pub fn extreme_of(
    alloc: Global,
    extremum: Extremum,
    place: Place,
    set: Run<Values>,
) -> Result<Run<Values>, NoMemory>
    ensures { IfOk result (λ r. r ≡ extreme_of extremum place set) }
{
    let Run { outcome, uses } = set;
    match outcome {
        Ok(set) => {
            let outcome = extreme(alloc, extremum, place, set.as_slice())?;
            Ok(Run { outcome, uses })
        }
        Err(fault) => Ok(Run {
            outcome: Err(fault),
            uses,
        }),
    }
}

fn last<'a>(first: &'a Value, more: &'a [Value]) -> &'a Value
    ensures { result.now ≡ last first.now more.now }
{
    match more.split_first() {
        None => first,
        Some((next, rest)) => last(next, rest),
    }
}

// The union of parts.
fn united(alloc: Global, parts: Vec<Run<Items<Values>>>) -> Result<Run<Values>, NoMemory>
    ensures { IfOk result (λ r. r ≡ united parts.items) }
{
    let Run { outcome, uses } = all_joined(alloc, parts)?;
    match outcome {
        Ok(sets) => {
            let set = union_of_all(alloc, sets.as_slice())?;
            Ok(Run {
                outcome: Ok(set),
                uses,
            })
        }
        Err(fault) => Ok(Run {
            outcome: Err(fault),
            uses,
        }),
    }
}

fn single_parts<A: Drop>(alloc: Global, parts: Vec<Run<A>>) -> Result<Vec<Run<Items<A>>>, NoMemory>
    ensures { IfOk result (λ list. list.items ≡ singles parts.items) }
{
    let mut list = Vec::new(alloc);
    for part in parts {
        list.push(single(alloc, part)?)?;
    }
    Ok(list)
}

/// `{}` and `{a, b}`: the union of the parts.
pub fn set_of(alloc: Global, parts: Vec<Run<Values>>) -> Result<Run<Values>, NoMemory>
    ensures { IfOk result (λ r. r ≡ united (singles parts.items)) }
{
    let parts = single_parts(alloc, parts)?;
    united(alloc, parts)
}

// What a value gives to a step: an object its part, and any other value nothing.
fn step_from(
    alloc: Global,
    state: &State,
    worked: &[WorkedCell],
    way: Way,
    value: &Value,
) -> Result<Run<Items<Values>>, NoMemory>
    ensures { IfOk result (λ r. r ≡ on_object (way_of (scene state.now worked.now) way) value.now) }
{
    match value {
        Value::Object(object) => {
            let part = way_from(alloc, state, worked, way, *object)?;
            single(alloc, part)
        }
        Value::Truth(_) | Value::Number(_) | Value::Text(_) => {
            Ok(given(alloc, Ok(Items::new(alloc))))
        }
    }
}

fn steps_from(
    alloc: Global,
    state: &State,
    worked: &[WorkedCell],
    way: Way,
    values: &[Value],
) -> Result<Vec<Run<Items<Values>>>, NoMemory>
    ensures { IfOk result (λ list. list.items ≡ map (on_object (way_of (scene state.now worked.now) way)) values.now) }
{
    let mut list = Vec::new(alloc);
    for value in values {
        list.push(step_from(alloc, state, worked, way, value)?)?;
    }
    Ok(list)
}

/// The values of a set that is known, and none where there is no set.
pub fn values_of(set: &Run<Values>) -> &[Value]
    ensures { result.now ≡ values_in set.now.outcome }
{
    match &set.outcome {
        Ok(values) => values.as_slice(),
        Err(_) => &[],
    }
}

/// `e.c` and `e.up`: the union of what each object of a set gives.
pub fn stepped(
    alloc: Global,
    state: &State,
    worked: &[WorkedCell],
    way: Way,
    objects: Run<Values>,
) -> Result<Run<Values>, NoMemory>
    ensures { IfOk result (λ r. r ≡ and_then objects (step (way_of (scene state.now worked.now) way))) }
{
    let parts = steps_from(alloc, state, worked, way, values_of(&objects))?;
    let made = united(alloc, parts)?;
    for_source(alloc, objects, made)
}

fn truths_of(
    alloc: Global,
    place: Place,
    parts: Vec<Run<Values>>,
) -> Result<Vec<Run<bool>>, NoMemory>
    ensures { IfOk result (λ list. list.items ≡ truths_of place parts.items) }
{
    let mut list = Vec::new(alloc);
    for part in parts {
        list.push(truth(alloc, place, part)?)?;
    }
    Ok(list)
}

// What each value gives: its body, where its condition holds.
fn turns(
    alloc: Global,
    place: Place,
    pairs: Vec<(Run<Values>, Run<Values>)>,
) -> Result<Vec<Run<Items<Values>>>, NoMemory>
    ensures { IfOk result (λ list. list.items ≡ turns place pairs.items) }
{
    let mut list = Vec::new(alloc);
    for pair in pairs {
        let (condition, body) = pair;
        let condition = truth(alloc, place, condition)?;
        list.push(turn(alloc, condition, body)?)?;
    }
    Ok(list)
}

// What each value gives: the number that its body is, where its condition holds.
fn number_turns(
    alloc: Global,
    place: Place,
    pairs: Vec<(Run<Values>, Run<Values>)>,
) -> Result<Vec<Run<Items<i64>>>, NoMemory>
    ensures { IfOk result (λ list. list.items ≡ number_turns place pairs.items) }
{
    let mut list = Vec::new(alloc);
    for pair in pairs {
        let (condition, body) = pair;
        let condition = truth(alloc, place, condition)?;
        let body = number(alloc, place, body)?;
        list.push(turn(alloc, condition, body)?)?;
    }
    Ok(list)
}

/// `{f : x in s | p}`, from the source and what the condition and the body come to for each of its values.
pub fn comprehended(
    alloc: Global,
    place: Place,
    source: Run<Values>,
    pairs: Vec<(Run<Values>, Run<Values>)>,
) -> Result<Run<Values>, NoMemory>
    ensures { IfOk result (λ r. r ≡ for_source source (united (turns place pairs.items))) }
{
    let turns = turns(alloc, place, pairs)?;
    let made = united(alloc, turns)?;
    for_source(alloc, source, made)
}

// The total so far with one more number.
fn plus(total: i128, number: &i64) -> i128
    requires low { neg_ℤ (pos (2 ^ 126)) ≤ℤ total }
    requires high { total ≤ℤ pos (2 ^ 126) }
    ensures sum { result ≡ total +ℤ number.now }
    ensures lowest { (total -ℤ pos (2 ^ 63)) ≤ℤ result }
    ensures highest { result ≤ℤ (total +ℤ pos (2 ^ 63)) }
{
    total + i128::from(*number)
}

// The exact total of numbers, tested once.
fn total(alloc: Global, place: Place, numbers: &[i64]) -> Result<Result<Values, Fault>, NoMemory>
    ensures { IfOk result (λ o. o ≡ fits place (fold ◌+ℤ◌ (pos 0) numbers.now)) }
{
    let mut total: i128 = 0;
    for number in numbers {
        total = plus(total, number);
    }
    if total < i128::from(i64::MIN) || total > i128::from(i64::MAX) {
        return Ok(Err(Fault::Overflow(place)));
    }
    Ok(Ok(alone(alloc, Value::Number(total as i64))?))
}

fn totalled(
    alloc: Global,
    place: Place,
    parts: Vec<Run<Items<i64>>>,
) -> Result<Run<Values>, NoMemory>
    ensures { IfOk result (λ r. r ≡ totalled place parts.items) }
{
    let Run { outcome, uses } = all_joined(alloc, parts)?;
    match outcome {
        Ok(numbers) => {
            let outcome = total(alloc, place, numbers.as_slice())?;
            Ok(Run { outcome, uses })
        }
        Err(fault) => Ok(Run {
            outcome: Err(fault),
            uses,
        }),
    }
}

/// `sum(f : x in s | p)`, from the source and what the condition and the body come to for each of its values.
pub fn summed(
    alloc: Global,
    place: Place,
    source: Run<Values>,
    pairs: Vec<(Run<Values>, Run<Values>)>,
) -> Result<Run<Values>, NoMemory>
    ensures { IfOk result (λ r. r ≡ for_source source (totalled place (number_turns place pairs.items))) }
{
    let turns = number_turns(alloc, place, pairs)?;
    let made = totalled(alloc, place, turns)?;
    for_source(alloc, source, made)
}

fn either(a: bool, b: bool) -> bool
    ensures { result ≡ (a || b) }
{
    a || b
}

fn also(a: bool, b: bool) -> bool
    ensures { result ≡ (a && b) }
{
    a && b
}

// Whether some hold, or all.
fn answered(quantifier: Quantifier, truths: &[bool]) -> bool
    ensures { result ≡ answered quantifier truths.now }
{
    let mut some = false;
    let mut all = true;
    for truth in truths {
        some = either(some, *truth);
        all = also(all, *truth);
    }
    match quantifier {
        Quantifier::Any => some,
        Quantifier::All => all,
    }
}

fn quantified_over(
    alloc: Global,
    quantifier: Quantifier,
    parts: Vec<Run<Items<bool>>>,
) -> Result<Run<Values>, NoMemory>
    ensures { IfOk result (λ r. r ≡ quantified_over quantifier parts.items) }
{
    let Run { outcome, uses } = all_joined(alloc, parts)?;
    match outcome {
        Ok(truths) => {
            let outcome = told(alloc, answered(quantifier, truths.as_slice()))?;
            Ok(Run { outcome, uses })
        }
        Err(fault) => Ok(Run {
            outcome: Err(fault),
            uses,
        }),
    }
}

/// `any(x in s | p)`, `all(x in s | p)`, from the source and what the condition comes to for each of its values.
pub fn quantified(
    alloc: Global,
    quantifier: Quantifier,
    place: Place,
    source: Run<Values>,
    conditions: Vec<Run<Values>>,
) -> Result<Run<Values>, NoMemory>
    ensures { IfOk result (λ r. r ≡ for_source source (quantified_over quantifier (singles (truths_of place conditions.items)))) }
{
    let conditions = truths_of(alloc, place, conditions)?;
    let parts = single_parts(alloc, conditions)?;
    let made = quantified_over(alloc, quantifier, parts)?;
    for_source(alloc, source, made)
}
