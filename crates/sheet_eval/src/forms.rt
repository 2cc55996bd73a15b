// What each form makes of what its parts come to.
ghost use Rattle.std.specs.Prelude.{◌≡◌, ◌++◌, ◌∷◌, [], ℤ, pos, ◌+ℤ◌, ◌-ℤ◌, ◌*ℤ◌, neg_ℤ, int_div, int_rem, IfOk, Ok, Err, length, not};
ghost use Rattle.sheet_values.specs.declared.value.Value.TheVariants.{Number};
ghost use Rattle.sheet_values.specs.Order.{value_cmp};
ghost use Rattle.sheet_meaning.specs.Run.{after, both_outcomes};
ghost use Rattle.sheet_meaning.specs.Formula.{told, fits, fits_text, ordered, arithmetic, extreme, last, divide, combine, compare, sets_equal};
ghost use Rattle.sheet_values.specs.Sets.{union};
ghost use Rattle.sheet_columns.specs.declared.formula.SetTest.TheVariants.{Within};
ghost use Rattle.std.specs.Prelude.{◌+◌, ◌<◌};
ghost use Rattle.sheet_eval.specs.Parts.{number_of, truth_of, text_of, one_of};
ghost use Rattle.sheet_eval.specs.Made.{made_of_one, made_of_two};

use crate::parts::{both, number, one, outranked, text, truth};
use sheet_columns::{ArithmeticOperator, Extremum, Fault, OrderTest, Place, SetOperator, SetTest};
use sheet_eval_sets::{Gathering, Part, alone};
use sheet_values::{Name, NoMemory, NotOne, Ordered, Set, Value};
use std::alloc::Global;
use std::cmp::Ordering;

/// A form of one part, apart from steps.
#[derive(Clone, Copy, Debug, PartialEq, Eq)]
pub enum Unary {
    /// `-a`
    Negate,
    /// `not a`
    Not,
    /// `count(s)`
    Count,
    /// `only(s)`
    Only,
    /// `min(s)`, `max(s)`
    Extreme(Extremum),
}

/// A form of two parts that skips neither.
#[derive(Clone, Copy, Debug, PartialEq, Eq)]
pub enum Binary {
    /// `a union b`, `a intersect b`, `a except b`
    Combine(SetOperator),
    /// `a = b`, `a != b`, `a in b`
    Compare(SetTest),
    /// `a < b`, `a <= b`, `a > b`, `a >= b`
    Order(OrderTest),
    /// `a + b`, `a - b`, `a * b`, `a / b`, `a % b`
    Arithmetic(ArithmeticOperator),
    /// `a & b`
    Join,
}

/// A truth as a set.
pub fn told<'a>(
    alloc: Global,
    truth: Result<bool, Fault>,
) -> Result<Result<Part<'a>, Fault>, NoMemory>
    ensures { IfOk result (λ o. o ≡ after truth told) }
{
    match truth {
        Ok(truth) => {
            let set = alone(alloc, Value::Truth(truth))?;
            Ok(Ok(set))
        }
        Err(fault) => Ok(Err(fault)),
    }
}

fn combine(operator: SetOperator, left: &Set, right: &Set) -> Result<Set, NoMemory>
    ensures { IfOk result (λ set. set ≡ combine operator left.now right.now) }
{
    match operator {
        SetOperator::Union => left.union(right),
        SetOperator::Intersect => left.intersect(right),
        SetOperator::Except => left.minus(right),
    }
}

// `a union b`, `a intersect b`, `a except b`.
fn combined<'a>(
    operator: SetOperator,
    left: Result<Part<'a>, Fault>,
    right: Result<Part<'a>, Fault>,
) -> Result<Result<Part<'a>, Fault>, NoMemory>
    ensures { IfOk result (λ o. o ≡ after (both_outcomes left.entry right.entry) (λ x. Ok (combine operator x.0 x.1))) }
{
    match both(left, right) {
        Ok((a, b)) => {
            let set = combine(operator, a.set(), b.set())?;
            Ok(Ok(Part::own(set)))
        }
        Err(fault) => Ok(Err(fault)),
    }
}

fn equal(left: &Set, right: &Set) -> bool
    ensures { result ≡ sets_equal left.now right.now }
{
    left.equals(right)
}

// Whether every value of the left set is in the right one, by looking each up.
fn within(left: &Set, right: &Set) -> bool
    ensures { result ≡ compare Within left.now right.now }
{
    let mut rest = left.as_slice();
    while let Some((value, more)) = rest.split_first() {
        if !right.contains(value) {
            return false;
        }
        rest = more;
    }
    true
}

fn compare(test: SetTest, left: &Set, right: &Set) -> bool
    ensures { result ≡ compare test left.now right.now }
{
    match test {
        SetTest::Equal => equal(left, right),
        SetTest::Unequal => !equal(left, right),
        SetTest::Within => within(left, right),
    }
}

// `a = b`, `a != b`, `a in b`.
fn compared<'a>(
    alloc: Global,
    test: SetTest,
    left: Result<Part<'a>, Fault>,
    right: Result<Part<'a>, Fault>,
) -> Result<Result<Part<'a>, Fault>, NoMemory>
    ensures { IfOk result (λ o. o ≡ after (both_outcomes left.entry right.entry) (λ x. told (compare test x.0 x.1))) }
{
    match both(left, right) {
        Ok((a, b)) => {
            let set = alone(alloc, Value::Truth(compare(test, a.set(), b.set())))?;
            Ok(Ok(set))
        }
        Err(fault) => Ok(Err(fault)),
    }
}

fn ordered(test: OrderTest, order: Ordering) -> bool
    ensures { result ≡ ordered test order }
{
    match test {
        OrderTest::Less => order.is_lt(),
        OrderTest::AtMost => order.is_le(),
        OrderTest::Greater => order.is_gt(),
        OrderTest::AtLeast => order.is_ge(),
    }
}

// Two values compared by their order, without a copy of them.
fn order_of(
    test: OrderTest,
    place: Place,
    left: &Result<Part<'_>, Fault>,
    right: &Result<Part<'_>, Fault>,
) -> Result<bool, Fault>
    ensures { result ≡ after (both_outcomes (one_of place left.now) (one_of place right.now)) (λ x. Ok (ordered test (value_cmp x.0 x.1))) }
{
    match both(one(place, left), one(place, right)) {
        Ok((a, b)) => Ok(ordered(test, a.compare(b))),
        Err(fault) => Err(fault),
    }
}

// `a < b`, `a <= b`, `a > b`, `a >= b`.
fn in_order<'a>(
    alloc: Global,
    test: OrderTest,
    place: Place,
    left: Result<Part<'a>, Fault>,
    right: Result<Part<'a>, Fault>,
) -> Result<Result<Part<'a>, Fault>, NoMemory>
    ensures { IfOk result (λ o. o ≡ after (both_outcomes (one_of place left.entry) (one_of place right.entry)) (λ x. told (ordered test (value_cmp x.0 x.1)))) }
{
    told(alloc, order_of(test, place, &left, &right))
}

fn added<'a>(
    alloc: Global,
    place: Place,
    a: i64,
    b: i64,
) -> Result<Result<Part<'a>, Fault>, NoMemory>
    ensures { IfOk result (λ o. o ≡ fits place (a +ℤ b)) }
{
    match a.checked_add(b) {
        Some(sum) => {
            let set = alone(alloc, Value::Number(sum))?;
            Ok(Ok(set))
        }
        None => Ok(Err(Fault::Overflow(place))),
    }
}

fn subtracted<'a>(
    alloc: Global,
    place: Place,
    a: i64,
    b: i64,
) -> Result<Result<Part<'a>, Fault>, NoMemory>
    ensures { IfOk result (λ o. o ≡ fits place (a -ℤ b)) }
{
    match a.checked_sub(b) {
        Some(difference) => {
            let set = alone(alloc, Value::Number(difference))?;
            Ok(Ok(set))
        }
        None => Ok(Err(Fault::Overflow(place))),
    }
}

fn multiplied<'a>(
    alloc: Global,
    place: Place,
    a: i64,
    b: i64,
) -> Result<Result<Part<'a>, Fault>, NoMemory>
    ensures { IfOk result (λ o. o ≡ fits place (a *ℤ b)) }
{
    match a.checked_mul(b) {
        Some(product) => {
            let set = alone(alloc, Value::Number(product))?;
            Ok(Ok(set))
        }
        None => Ok(Err(Fault::Overflow(place))),
    }
}

fn divided<'a>(
    alloc: Global,
    place: Place,
    a: i64,
    b: i64,
) -> Result<Result<Part<'a>, Fault>, NoMemory>
    ensures { IfOk result (λ o. o ≡ divide place int_div a b) }
{
    if b == 0 {
        return Ok(Err(Fault::ZeroDivisor(place)));
    }
    match a.checked_div(b) {
        Some(quotient) => {
            let set = alone(alloc, Value::Number(quotient))?;
            Ok(Ok(set))
        }
        None => Ok(Err(Fault::Overflow(place))),
    }
}

// The remainder of a division by -1 is 0, also where the quotient is outside 64 bits.
fn remainder<'a>(
    alloc: Global,
    place: Place,
    a: i64,
    b: i64,
) -> Result<Result<Part<'a>, Fault>, NoMemory>
    ensures { IfOk result (λ o. o ≡ divide place int_rem a b) }
{
    if b == 0 {
        return Ok(Err(Fault::ZeroDivisor(place)));
    }
    let rest = a.checked_rem(b).unwrap_or(0);
    let set = alone(alloc, Value::Number(rest))?;
    Ok(Ok(set))
}

fn arithmetic<'a>(
    alloc: Global,
    operator: ArithmeticOperator,
    place: Place,
    a: i64,
    b: i64,
) -> Result<Result<Part<'a>, Fault>, NoMemory>
    ensures { IfOk result (λ o. o ≡ arithmetic operator place a b) }
{
    match operator {
        ArithmeticOperator::Add => added(alloc, place, a, b),
        ArithmeticOperator::Subtract => subtracted(alloc, place, a, b),
        ArithmeticOperator::Multiply => multiplied(alloc, place, a, b),
        ArithmeticOperator::Divide => divided(alloc, place, a, b),
        ArithmeticOperator::Remainder => remainder(alloc, place, a, b),
    }
}

// `a + b`, `a - b`, `a * b`, `a / b`, `a % b`.
fn calculated<'a>(
    alloc: Global,
    operator: ArithmeticOperator,
    place: Place,
    left: Result<Part<'a>, Fault>,
    right: Result<Part<'a>, Fault>,
) -> Result<Result<Part<'a>, Fault>, NoMemory>
    ensures { IfOk result (λ o. o ≡ after (both_outcomes (number_of place left.entry) (number_of place right.entry)) (λ x. arithmetic operator place x.0 x.1)) }
{
    match both(number(place, left), number(place, right)) {
        Ok((a, b)) => arithmetic(alloc, operator, place, a, b),
        Err(fault) => Ok(Err(fault)),
    }
}

fn opposite<'a>(alloc: Global, place: Place, n: i64) -> Result<Result<Part<'a>, Fault>, NoMemory>
    ensures { IfOk result (λ o. o ≡ fits place (neg_ℤ n)) }
{
    match n.checked_neg() {
        Some(number) => {
            let set = alone(alloc, Value::Number(number))?;
            Ok(Ok(set))
        }
        None => Ok(Err(Fault::Overflow(place))),
    }
}

// `-a`
fn negated<'a>(
    alloc: Global,
    place: Place,
    part: Result<Part<'a>, Fault>,
) -> Result<Result<Part<'a>, Fault>, NoMemory>
    ensures { IfOk result (λ o. o ≡ after (number_of place part.entry) (λ n. fits place (neg_ℤ n))) }
{
    match number(place, part) {
        Ok(n) => opposite(alloc, place, n),
        Err(fault) => Ok(Err(fault)),
    }
}

// The text of both, where it has at most 1,000 bytes.
fn both_texts<'a>(
    alloc: Global,
    place: Place,
    a: &Name,
    b: &Name,
) -> Result<Result<Part<'a>, Fault>, NoMemory>
    ensures { IfOk result (λ o. o ≡ fits_text place (a.now ++ b.now)) }
{
    if a.bytes().len() + b.bytes().len() > 1000 {
        return Ok(Err(Fault::TextTooLong(place)));
    }
    let mut text = String::from_str(alloc, a.text())?;
    text.push_str(b.text())?;
    let name = Name::of(alloc, text.as_str())?;
    let set = alone(alloc, Value::Text(name))?;
    Ok(Ok(set))
}

// `a & b`
fn joined_texts<'a>(
    alloc: Global,
    place: Place,
    left: Result<Part<'a>, Fault>,
    right: Result<Part<'a>, Fault>,
) -> Result<Result<Part<'a>, Fault>, NoMemory>
    ensures { IfOk result (λ o. o ≡ after (both_outcomes (text_of place left.entry) (text_of place right.entry)) (λ x. fits_text place (x.0 ++ x.1))) }
{
    match text(place, &left) {
        Ok(a) => match text(place, &right) {
            Ok(b) => both_texts(alloc, place, a, b),
            Err(fault) => Ok(Err(fault)),
        },
        Err(fault) => match text(place, &right) {
            Ok(_) => Ok(Err(fault)),
            Err(other) => Ok(Err(outranked(fault, other))),
        },
    }
}

// `not a`
fn denied<'a>(
    alloc: Global,
    place: Place,
    part: Result<Part<'a>, Fault>,
) -> Result<Result<Part<'a>, Fault>, NoMemory>
    ensures { IfOk result (λ o. o ≡ after (truth_of place part.entry) (λ b. told (not b))) }
{
    match truth(place, part) {
        Ok(holds) => {
            let set = alone(alloc, Value::Truth(!holds))?;
            Ok(Ok(set))
        }
        Err(fault) => Ok(Err(fault)),
    }
}

// `count(s)`
fn counted<'a>(
    alloc: Global,
    part: Result<Part<'a>, Fault>,
) -> Result<Result<Part<'a>, Fault>, NoMemory>
    ensures { IfOk result (λ o. o ≡ after part.entry (λ s. Ok (Number (pos (length s)) ∷ []))) }
{
    match part {
        Ok(part) => {
            let count = part.set().as_slice().len();
            let set = alone(alloc, Value::Number(count as i64))?;
            Ok(Ok(set))
        }
        Err(fault) => Ok(Err(fault)),
    }
}

// `only(s)`
fn only<'a>(place: Place, part: Result<Part<'a>, Fault>) -> Result<Part<'a>, Fault>
    ensures { result ≡ after (one_of place part.entry) (λ x. Ok (x ∷ [])) }
{
    match part {
        Ok(part) => match part.set().len() {
            0 => Err(Fault::NotOne(NotOne::Zero, place)),
            1 => Ok(part),
            _ => Err(Fault::NotOne(NotOne::Many, place)),
        },
        Err(fault) => Err(fault),
    }
}

fn last<'a>(first: &'a Value, more: &'a [Value]) -> &'a Value
    ensures { result.now ≡ last first.now more.now }
{
    let mut last = first;
    let mut rest = more;
    while let Some((next, more)) = rest.split_first() {
        last = next;
        rest = more;
    }
    last
}

// The least value of a set, or the greatest.
fn extreme<'a>(
    alloc: Global,
    extremum: Extremum,
    place: Place,
    set: &Set,
) -> Result<Result<Part<'a>, Fault>, NoMemory>
    ensures { IfOk result (λ o. o ≡ extreme extremum place set.now) }
{
    match set.as_slice().split_first() {
        None => Ok(Err(Fault::NotOne(NotOne::Zero, place))),
        Some((first, more)) => match extremum {
            Extremum::Min => {
                let set = alone(alloc, first.copy()?)?;
                Ok(Ok(set))
            }
            Extremum::Max => {
                let set = alone(alloc, last(first, more).copy()?)?;
                Ok(Ok(set))
            }
        },
    }
}

// `min(s)`, `max(s)`.
fn extreme_of<'a>(
    alloc: Global,
    extremum: Extremum,
    place: Place,
    part: Result<Part<'a>, Fault>,
) -> Result<Result<Part<'a>, Fault>, NoMemory>
    ensures { IfOk result (λ o. o ≡ after part.entry (extreme extremum place)) }
{
    match part {
        Ok(part) => extreme(alloc, extremum, place, part.set()),
        Err(fault) => Ok(Err(fault)),
    }
}

/// The union so far with one part more.
pub fn joined<'a>(
    so_far: Result<Gathering<'a>, Fault>,
    part: Result<Part<'a>, Fault>,
) -> Result<Result<Gathering<'a>, Fault>, NoMemory>
    ensures { IfOk result (λ o. o ≡ after (both_outcomes so_far.entry part.entry) (λ x. Ok (union x.0 x.1))) }
{
    match both(so_far, part) {
        Ok((so_far, part)) => {
            let mut so_far = so_far;
            so_far.join(part)?;
            Ok(Ok(so_far))
        }
        Err(fault) => Ok(Err(fault)),
    }
}

/// The union that was gathered.
pub fn united<'a>(
    alloc: Global,
    gathered: Result<Gathering<'a>, Fault>,
) -> Result<Result<Part<'a>, Fault>, NoMemory>
    ensures { IfOk result (λ o. o ≡ gathered.entry) }
{
    match gathered {
        Ok(gathered) => {
            let set = gathered.whole(alloc)?;
            Ok(Ok(set))
        }
        Err(fault) => Ok(Err(fault)),
    }
}

/// What a form makes of its part.
pub fn made_of_one<'a>(
    alloc: Global,
    form: Unary,
    place: Place,
    part: Result<Part<'a>, Fault>,
) -> Result<Result<Part<'a>, Fault>, NoMemory>
    ensures { IfOk result (λ o. o ≡ made_of_one form place part.entry) }
{
    match form {
        Unary::Negate => negated(alloc, place, part),
        Unary::Not => denied(alloc, place, part),
        Unary::Count => counted(alloc, part),
        Unary::Only => Ok(only(place, part)),
        Unary::Extreme(extremum) => extreme_of(alloc, extremum, place, part),
    }
}

/// What a form makes of its two parts.
pub fn made_of_two<'a>(
    alloc: Global,
    form: Binary,
    place: Place,
    left: Result<Part<'a>, Fault>,
    right: Result<Part<'a>, Fault>,
) -> Result<Result<Part<'a>, Fault>, NoMemory>
    ensures { IfOk result (λ o. o ≡ made_of_two form place left.entry right.entry) }
{
    match form {
        Binary::Combine(operator) => combined(operator, left, right),
        Binary::Compare(test) => compared(alloc, test, left, right),
        Binary::Order(test) => in_order(alloc, test, place, left, right),
        Binary::Arithmetic(operator) => calculated(alloc, operator, place, left, right),
        Binary::Join => joined_texts(alloc, place, left, right),
    }
}
