// Unions of many sets.
ghost use Rattle.std.specs.Prelude.{◌≡◌, ◌<◌, [], fold, IfOk, OnOk};
ghost use Rattle.sheet_values.specs.Sets.{union};
ghost use Rattle.sheet_eval_sets.specs.Popped.{PopsShort};

use crate::part::Part;
use sheet_values::{NoMemory, Set};
use std::alloc::Global;
use std::marker::Model;

/// A union so far, seen as its values. It keeps sets whose lengths fall, and merges a new one with those before it that aren't longer:
/// so each value is copied few times, whatever order the sets come in, and a single set isn't copied at all.
#[derive(Drop)]
pub struct Gathering<'a> {
    parts: Vec<Part<'a>>,
}

impl<'a> Model for Gathering<'a> {
    ghost use Rattle.std.specs.Prelude.{List, [], fold};
    ghost use Rattle.sheet_values.specs.Sets.{union};
    ghost use Rattle.sheet_values.specs.declared.value.Value.{Value as TheValue};

    ghost Value = { List TheValue };

    ghost view = { λ g. fold union [] g.parts.items };
}

impl<'a> Gathering<'a> {
    /// The union of nothing. It takes no memory.
    pub fn new(alloc: Global) -> Gathering<'a>
        ensures { result ≡ [] }
    {
        Gathering {
            parts: Vec::new(alloc),
        }
    }

    /// The union with one set more.
    #[tactic(auto, using(crate::proofs::Unions::last_apart, crate::proofs::Unions::one_more))]
    pub fn join(&mut self, part: Part<'a>) -> Result<(), NoMemory>
        ensures { OnOk result (self.new ≡ union self.old part.entry) }
    {
        let mut part = part;
        while let Some(last) = pop_short(&mut self.parts, part.set().len()) {
            part = merged(&last, &part)?;
        }
        self.parts.push(part)?;
        Ok(())
    }

    /// The whole union.
    #[tactic(auto, using(crate::proofs::Unions::last_apart, crate::proofs::Unions::one_more))]
    pub fn whole(self, alloc: Global) -> Result<Part<'a>, NoMemory>
        ensures { IfOk result (λ part. part ≡ self.entry) }
    {
        let Gathering { parts } = self;
        let mut parts = parts;
        match parts.pop() {
            None => Ok(Part::own(Set::empty(alloc))),
            Some(last) => merged_down(parts, last),
        }
    }
}

// The union of all sets with a last one.
fn merged_down<'a>(parts: Vec<Part<'a>>, part: Part<'a>) -> Result<Part<'a>, NoMemory>
    ensures { IfOk result (λ all. all ≡ union (fold union [] parts.entry.items) part.entry) }
{
    let mut parts = parts;
    let mut part = part;
    while let Some(last) = parts.pop() {
        part = merged(&last, &part)?;
    }
    Ok(part)
}

// The last set, where it isn't longer than that.
fn pop_short<'a>(parts: &mut Vec<Part<'a>>, len: usize) -> Option<Part<'a>>
    ensures { PopsShort parts.old.items parts.new.items result }
{
    let Some(last) = parts.last() else {
        return None;
    };
    if last.set().len() > len {
        return None;
    }
    parts.pop()
}

fn merged<'a>(first: &Part<'a>, second: &Part<'a>) -> Result<Part<'a>, NoMemory>
    ensures { IfOk result (λ part. part ≡ union first.now second.now) }
{
    let set = first.set().union(second.set())?;
    Ok(Part::own(set))
}
