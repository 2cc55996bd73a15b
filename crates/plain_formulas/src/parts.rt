// Evaluations put together from those of their parts.
ghost use Rattle.std.specs.Prelude.{◌≡◌, ◌++◌, ◌∷◌, [], Bool, ℤ, pos, ◌+ℤ◌, IfOk, if◌then◌else◌};
ghost use Rattle.sheet_meaning.specs.Run.{is_none as stands_for_none, given, outranked, both_outcomes, both, finish, after, the_one, decides, left_fault, second_after_fault, second_truth, connect, and_then};
ghost use Rattle.sheet_meaning.specs.Formula.{one, truth, number, text, object_in, single, turn};
ghost use Rattle.std.specs.List.{filter_map};
ghost use Rattle.plain_formulas.specs.Forms.{all_joined, for_source, followed};

use plain_lists::{numbers, objects, texts, truths};
use sheet_columns::{Connective, Fault, Place, Sequence};
use sheet_meaning::{Run, Use};
use sheet_values::{Name, NoMemory, NotOne, Value, Values};
use sqlite_items::Items;
use std::alloc::Global;

/// Uses, and more after them.
pub fn appended(uses: Sequence<Use>, more: &[Use]) -> Result<Sequence<Use>, NoMemory>
    ensures { IfOk result (λ all. all ≡ uses ++ more.now) }
{
    let mut all = uses;
    for one in more {
        all.push(*one)?;
    }
    Ok(all)
}

/// An outcome for which nothing is used.
pub fn given<A>(alloc: Global, outcome: Result<A, Fault>) -> Run<A>
    ensures { result ≡ given outcome }
{
    Run {
        outcome,
        uses: Sequence::new(alloc),
    }
}

// An evaluation after other uses.
fn after_uses<A: Drop>(uses: Sequence<Use>, next: Run<A>) -> Result<Run<A>, NoMemory>
    ensures { IfOk result (λ r. r ≡ followed uses next) }
{
    let Run {
        outcome,
        uses: more,
    } = next;
    let uses = appended(uses, more.as_slice())?;
    Ok(Run { outcome, uses })
}

fn is_none(fault: Fault) -> bool
    ensures { result ≡ stands_for_none fault }
{
    match fault {
        Fault::Cycle => true,
        Fault::NotOne(_, _) | Fault::Overflow(_) | Fault::ZeroDivisor(_) | Fault::TextTooLong(_) =>
            false,
    }
}

fn outranked(first: Fault, second: Fault) -> Fault
    ensures { result ≡ outranked first second }
{
    if is_none(second) { second } else { first }
}

fn both_outcomes<A: Drop, B: Drop>(
    left: Result<A, Fault>,
    right: Result<B, Fault>,
) -> Result<(A, B), Fault>
    ensures { result ≡ both_outcomes left right }
{
    match left {
        Ok(a) => match right {
            Ok(b) => Ok((a, b)),
            Err(fault) => Err(fault),
        },
        Err(fault) => match right {
            Ok(_) => Err(fault),
            Err(other) => Err(outranked(fault, other)),
        },
    }
}

/// Two parts.
pub fn both<A: Drop, B: Drop>(left: Run<A>, right: Run<B>) -> Result<Run<(A, B)>, NoMemory>
    ensures { IfOk result (λ r. r ≡ both left right) }
{
    let Run { outcome, uses } = left;
    let Run {
        outcome: other,
        uses: more,
    } = right;
    let uses = appended(uses, more.as_slice())?;
    Ok(Run {
        outcome: both_outcomes(outcome, other),
        uses,
    })
}

// The one of those that were found.
fn the_one<A: Drop>(place: Place, found: Vec<A>) -> Result<A, Fault>
    ensures { result ≡ the_one place found.items }
{
    let mut found = found;
    match found.pop() {
        None => Err(Fault::NotOne(NotOne::Zero, place)),
        Some(last) => {
            if found.is_empty() {
                Ok(last)
            } else {
                Err(Fault::NotOne(NotOne::Many, place))
            }
        }
    }
}

/// A part that must be one value.
pub fn one(alloc: Global, place: Place, part: Run<Values>) -> Result<Run<Value>, NoMemory>
    ensures { IfOk result (λ r. r ≡ one place part) }
{
    let Run { outcome, uses } = part;
    match outcome {
        Ok(set) => {
            let found = values_in(alloc, set.as_slice())?;
            Ok(Run {
                outcome: the_one(place, found),
                uses,
            })
        }
        Err(fault) => Ok(Run {
            outcome: Err(fault),
            uses,
        }),
    }
}

fn values_in(alloc: Global, values: &[Value]) -> Result<Vec<Value>, NoMemory>
    ensures { IfOk result (λ list. list.items ≡ values.now) }
{
    let mut list = Vec::new(alloc);
    for value in values {
        list.push(value.copy()?)?;
    }
    Ok(list)
}

/// A part that must be one truth.
pub fn truth(alloc: Global, place: Place, part: Run<Values>) -> Result<Run<bool>, NoMemory>
    ensures { IfOk result (λ r. r ≡ truth place part) }
{
    let Run { outcome, uses } = part;
    match outcome {
        Ok(set) => {
            let found = truths(alloc, set.as_slice())?;
            Ok(Run {
                outcome: the_one(place, found),
                uses,
            })
        }
        Err(fault) => Ok(Run {
            outcome: Err(fault),
            uses,
        }),
    }
}

/// A part that must be one number.
pub fn number(alloc: Global, place: Place, part: Run<Values>) -> Result<Run<i64>, NoMemory>
    ensures { IfOk result (λ r. r ≡ number place part) }
{
    let Run { outcome, uses } = part;
    match outcome {
        Ok(set) => {
            let found = numbers(alloc, set.as_slice())?;
            Ok(Run {
                outcome: the_one(place, found),
                uses,
            })
        }
        Err(fault) => Ok(Run {
            outcome: Err(fault),
            uses,
        }),
    }
}

/// A part that must be one text.
pub fn text(alloc: Global, place: Place, part: Run<Values>) -> Result<Run<Name>, NoMemory>
    ensures { IfOk result (λ r. r ≡ text place part) }
{
    let Run { outcome, uses } = part;
    match outcome {
        Ok(set) => {
            let found = texts(alloc, set.as_slice())?;
            Ok(Run {
                outcome: the_one(place, found),
                uses,
            })
        }
        Err(fault) => Ok(Run {
            outcome: Err(fault),
            uses,
        }),
    }
}

/// A part that must be one object.
pub fn object(alloc: Global, place: Place, part: Run<Values>) -> Result<Run<u64>, NoMemory>
    ensures { IfOk result (λ r. r ≡ finish part (λ set. the_one place (filter_map object_in set))) }
{
    let Run { outcome, uses } = part;
    match outcome {
        Ok(set) => {
            let found = objects(alloc, set.as_slice())?;
            Ok(Run {
                outcome: the_one(place, found),
                uses,
            })
        }
        Err(fault) => Ok(Run {
            outcome: Err(fault),
            uses,
        }),
    }
}

fn decides(connective: Connective, truth: bool) -> bool
    ensures { result ≡ decides connective truth }
{
    match connective {
        Connective::And => !truth,
        Connective::Or => truth,
    }
}

// A left part's fault stays, unless the right part has no outcome.
fn left_fault(fault: Fault, second: &Result<bool, Fault>) -> Result<bool, Fault>
    ensures { result ≡ left_fault {A = Bool} fault second.now }
{
    match second {
        Ok(_) => Err(fault),
        Err(Fault::Cycle) => Err(Fault::Cycle),
        Err(
            Fault::NotOne(_, _)
            | Fault::Overflow(_)
            | Fault::ZeroDivisor(_)
            | Fault::TextTooLong(_),
        ) => Err(fault),
    }
}

fn second_after_fault(alloc: Global, fault: Fault, second: Run<bool>) -> Run<bool>
    ensures { result ≡ second_after_fault fault second }
{
    if is_none(fault) {
        return given(alloc, Err(fault));
    }
    let Run { outcome, uses } = second;
    Run {
        outcome: left_fault(fault, &outcome),
        uses,
    }
}

// The second of two truths, which isn't used where the first has no outcome or decides.
fn second_truth(
    alloc: Global,
    connective: Connective,
    first: Result<bool, Fault>,
    second: Run<bool>,
) -> Result<Run<bool>, NoMemory>
    ensures { IfOk result (λ r. r ≡ second_truth connective first second) }
{
    match first {
        Ok(truth) => {
            if decides(connective, truth) {
                Ok(given(alloc, Ok(truth)))
            } else {
                Ok(second)
            }
        }
        Err(fault) => Ok(second_after_fault(alloc, fault, second)),
    }
}

/// Two truths joined by `and` or `or`.
pub fn connect(
    alloc: Global,
    connective: Connective,
    first: Run<bool>,
    second: Run<bool>,
) -> Result<Run<bool>, NoMemory>
    ensures { IfOk result (λ r. r ≡ connect connective first second) }
{
    let Run { outcome, uses } = first;
    let next = second_truth(alloc, connective, outcome, second)?;
    after_uses(uses, next)
}

/// The first of two evaluations where a truth holds, and else the second.
pub fn choose(
    alloc: Global,
    condition: Run<bool>,
    first: Run<Values>,
    second: Run<Values>,
) -> Result<Run<Values>, NoMemory>
    ensures { IfOk result (λ r. r ≡ and_then condition (λ x. if x then first else second)) }
{
    let Run { outcome, uses } = condition;
    match outcome {
        Ok(true) => after_uses(uses, first),
        Ok(false) => after_uses(uses, second),
        Err(fault) => after_uses(uses, given(alloc, Err(fault))),
    }
}

/// What is made for the values of a source, where the source has values.
pub fn for_source(
    alloc: Global,
    source: Run<Values>,
    made: Run<Values>,
) -> Result<Run<Values>, NoMemory>
    ensures { IfOk result (λ r. r ≡ for_source source made) }
{
    let Run { outcome, uses } = source;
    match outcome {
        Ok(_) => after_uses(uses, made),
        Err(fault) => after_uses(uses, given(alloc, Err(fault))),
    }
}

/// An evaluation by itself, as a list of one.
pub fn single<A: Drop>(alloc: Global, part: Run<A>) -> Result<Run<Items<A>>, NoMemory>
    ensures { IfOk result (λ r. r ≡ single part) }
{
    let Run { outcome, uses } = part;
    match outcome {
        Ok(value) => {
            let mut list = Items::new(alloc);
            list.push(value)?;
            Ok(Run {
                outcome: Ok(list),
                uses,
            })
        }
        Err(fault) => Ok(Run {
            outcome: Err(fault),
            uses,
        }),
    }
}

/// What a value of a comprehension gives: the body where the condition holds.
pub fn turn<A: Drop>(
    alloc: Global,
    condition: Run<bool>,
    body: Run<A>,
) -> Result<Run<Items<A>>, NoMemory>
    ensures { IfOk result (λ r. r ≡ turn condition body) }
{
    let Run { outcome, uses } = condition;
    match outcome {
        Ok(true) => after_uses(uses, single(alloc, body)?),
        Ok(false) => after_uses(uses, given(alloc, Ok(Items::new(alloc)))),
        Err(fault) => after_uses(uses, given(alloc, Err(fault))),
    }
}

fn joined_pair<A: Drop>(pair: (Items<A>, Items<A>)) -> Result<Items<A>, NoMemory>
    ensures { IfOk result (λ list. list ≡ pair.0 ++ pair.1) }
{
    let (first, second) = pair;
    let mut list = first;
    list.append(second)?;
    Ok(list)
}

// A part in front of others.
fn in_front<A: Drop>(part: Run<Items<A>>, rest: Run<Items<A>>) -> Result<Run<Items<A>>, NoMemory>
    ensures { IfOk result (λ r. r ≡ finish (both part rest) (λ x. Ok (x.0 ++ x.1))) }
{
    let Run { outcome, uses } = both(part, rest)?;
    match outcome {
        Ok(pair) => Ok(Run {
            outcome: Ok(joined_pair(pair)?),
            uses,
        }),
        Err(fault) => Ok(Run {
            outcome: Err(fault),
            uses,
        }),
    }
}

/// Parts by their rule, one list after the other.
pub fn all_joined<A: Drop>(
    alloc: Global,
    parts: Vec<Run<Items<A>>>,
) -> Result<Run<Items<A>>, NoMemory>
    ensures { IfOk result (λ r. r ≡ all_joined parts.items) }
{
    let mut left = parts;
    let mut all = given(alloc, Ok(Items::new(alloc)));
    while let Some(part) = left.pop() {
        all = in_front(part, all)?;
    }
    Ok(all)
}
