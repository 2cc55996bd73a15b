// What the values of a comprehension come to so far.
ghost use Rattle.std.specs.Prelude.{◌≡◌, ◌+ℤ◌, Ok, OnOk, IfOk};
ghost use Rattle.sheet_values.specs.Sets.{union};
ghost use Rattle.sheet_meaning.specs.Run.{after, both_outcomes};
ghost use Rattle.sheet_meaning.specs.Formula.{fits};
ghost use Rattle.sheet_eval.specs.Parts.{quantify, quantify_none};
ghost use Rattle.sheet_eval.specs.SoFar.{aggregate_of, values_so_far, unless_fault, first_of};
ghost use Rattle.sheet_eval.specs.Totals.{start, taken, no_part, next_so_far, finished, is_test, with_part};

use crate::parts::{number, outranked, truth};
use sheet_columns::{Fault, Place, Quantifier};
use sheet_eval_sets::{Gathering, Part, alone};
use sheet_values::{NoMemory, Value};
use std::alloc::Global;
use std::marker::Model;

/// How the values of a comprehension are put together.
#[derive(Clone, Copy, Debug, PartialEq, Eq)]
pub enum Aggregate {
    /// By union.
    Union,
    /// By the sum of numbers.
    Sum,
    /// Whether the condition holds for some, or for all.
    Quantify(Quantifier),
}

#[derive(Drop)]
enum SoFar<'a> {
    Union(Gathering<'a>),
    Sum(i128),
    Quantify(Quantifier, bool),
}

/// What the values of a comprehension come to so far, with the first fault, if any.
#[derive(Drop)]
pub struct Total<'a> {
    so_far: SoFar<'a>,
    fault: Option<Fault>,
}

impl<'a> Model for Total<'a> {
    ghost use Rattle.sheet_eval.specs.Totals.{Tally};
    ghost use Rattle.sheet_eval.specs.SoFar.{aggregate_of, values_so_far, unless_fault};

    ghost Value = { Tally };

    ghost view = { λ t. record { aggregate = aggregate_of t.so_far; so_far = unless_fault t.fault (values_so_far t.so_far) } };
}

impl<'a> Total<'a> {
    /// What no values come to. It takes no memory.
    pub fn new(alloc: Global, aggregate: Aggregate) -> Total<'a>
        ensures { result ≡ record { aggregate = aggregate; so_far = Ok (start aggregate) } }
    {
        let so_far = match aggregate {
            Aggregate::Union => SoFar::Union(Gathering::new(alloc)),
            Aggregate::Sum => SoFar::Sum(0),
            Aggregate::Quantify(quantifier) => { SoFar::Quantify(quantifier, none_of(quantifier)) }
        };
        Total {
            so_far,
            fault: None,
        }
    }

    /// Whether the condition is itself what is taken.
    pub fn is_test(&self) -> bool
        ensures { result ≡ is_test self.now.aggregate }
    {
        match &self.so_far {
            SoFar::Union(_) => false,
            SoFar::Sum(_) => false,
            SoFar::Quantify(_, _) => true,
        }
    }

    /// A value whose condition or body has a fault, or no result.
    pub fn fail(&mut self, fault: Fault)
        ensures aggregate { self.new.aggregate ≡ self.old.aggregate }
        ensures so_far { self.new.so_far ≡ next_so_far self.old.aggregate self.old.so_far (no_part fault) }
    {
        self.fault = first_of(self.fault, Some(fault));
    }

    /// One part more.
    pub fn take(&mut self, place: Place, part: Result<Part<'a>, Fault>) -> Result<(), NoMemory>
        ensures aggregate { OnOk result (self.new.aggregate ≡ self.old.aggregate) }
        ensures so_far { OnOk result (self.new.so_far ≡ after (both_outcomes self.old.so_far (taken self.old.aggregate place part.entry)) (λ x. Ok (with_part self.old.aggregate x.0 x.1))) }
    {
        match &mut self.so_far {
            SoFar::Union(gathering) => {
                let fault = joined(gathering, part)?;
                self.fault = first_of(self.fault, fault);
                Ok(())
            }
            SoFar::Sum(total) => {
                let fault = added(total, number(place, part))?;
                self.fault = first_of(self.fault, fault);
                Ok(())
            }
            SoFar::Quantify(quantifier, so_far) => {
                let fault = tested(*quantifier, so_far, truth(place, part));
                self.fault = first_of(self.fault, fault);
                Ok(())
            }
        }
    }

    /// The whole, of which a sum must fit 64 bits.
    pub fn finish(self, alloc: Global, place: Place) -> Result<Result<Part<'a>, Fault>, NoMemory>
        ensures { IfOk result (λ o. o ≡ finished self.entry.aggregate place self.entry.so_far) }
    {
        let Total { so_far, fault } = self;
        match fault {
            Some(fault) => Ok(Err(fault)),
            None => whole(alloc, place, so_far),
        }
    }
}

fn none_of(quantifier: Quantifier) -> bool
    ensures { result ≡ quantify_none quantifier }
{
    match quantifier {
        Quantifier::Any => false,
        Quantifier::All => true,
    }
}

// The fault of the first, unless the second has no outcome.
fn first_of(first: Option<Fault>, second: Option<Fault>) -> Option<Fault>
    ensures { result ≡ first_of first second }
{
    match first {
        None => second,
        Some(fault) => match second {
            None => Some(fault),
            Some(other) => Some(outranked(fault, other)),
        },
    }
}

// The union with one part more, or the fault of the part.
fn joined<'a>(
    gathering: &mut Gathering<'a>,
    part: Result<Part<'a>, Fault>,
) -> Result<Option<Fault>, NoMemory>
    ensures { IfOk result (λ fault. unless_fault fault gathering.new ≡ after part.entry (λ s. Ok (union gathering.old s))) }
{
    match part {
        Ok(part) => {
            gathering.join(part)?;
            Ok(None)
        }
        Err(fault) => Ok(Some(fault)),
    }
}

// The exact sum with one number more, or the fault of the number. A set has fewer than 2^64 values, so 128 bits never run out.
fn added(total: &mut i128, number: Result<i64, Fault>) -> Result<Option<Fault>, NoMemory>
    ensures { IfOk result (λ fault. unless_fault fault total.new ≡ after number (λ n. Ok (total.old +ℤ n))) }
{
    match number {
        Ok(number) => match total.checked_add(i128::from(number)) {
            Some(sum) => {
                *total = sum;
                Ok(None)
            }
            None => Err(NoMemory),
        },
        Err(fault) => Ok(Some(fault)),
    }
}

// The truth with one more, by the quantifier, or the fault of the one more.
fn tested(quantifier: Quantifier, so_far: &mut bool, truth: Result<bool, Fault>) -> Option<Fault>
    ensures { unless_fault result so_far.new ≡ after truth (λ b. Ok (quantify quantifier so_far.old b)) }
{
    match truth {
        Ok(holds) => {
            *so_far = match quantifier {
                Quantifier::Any => *so_far || holds,
                Quantifier::All => *so_far && holds,
            };
            None
        }
        Err(fault) => Some(fault),
    }
}

// What is held, as a set.
fn whole<'a>(
    alloc: Global,
    place: Place,
    so_far: SoFar<'a>,
) -> Result<Result<Part<'a>, Fault>, NoMemory>
    ensures { IfOk result (λ o. o ≡ finished (aggregate_of so_far.entry) place (Ok (values_so_far so_far.entry))) }
{
    match so_far {
        SoFar::Union(gathering) => {
            let set = gathering.whole(alloc)?;
            Ok(Ok(set))
        }
        SoFar::Sum(total) => number_set(alloc, place, total),
        SoFar::Quantify(_, truth) => {
            let set = alone(alloc, Value::Truth(truth))?;
            Ok(Ok(set))
        }
    }
}

// The set of an exact total, which must fit 64 bits.
fn number_set<'a>(
    alloc: Global,
    place: Place,
    total: i128,
) -> Result<Result<Part<'a>, Fault>, NoMemory>
    ensures { IfOk result (λ o. o ≡ fits place total) }
{
    if total < i128::from(i64::MIN) || total > i128::from(i64::MAX) {
        return Ok(Err(Fault::Overflow(place)));
    }
    let set = alone(alloc, Value::Number(total as i64))?;
    Ok(Ok(set))
}
