// Which formulas wait for a column whose type isn't known.
ghost use Rattle.std.specs.Prelude.{◌≡◌, ◌||◌, ◌&&◌, ◌∷◌, [], not, true};
ghost use Rattle.sheet_types_rounds.specs.Mentions.{mentions as mentions_one};
ghost use Rattle.sheet_types_rounds.specs.Waiting.{waits as waits_for, one_waits as one_waits_for, is_sum as adds_up};

use crate::known::KnownNames;
use crate::mentions::mentions;
use sheet_syntax_trees::{Gathering, Tree};
use sheet_values::Name;
use std::slice::from_ref;

// Whether the body of a comprehension or a sum must be refused: always that of a sum.
fn of_body(refused: bool, gathering: Gathering) -> bool
    ensures { result ≡ (refused || adds_up gathering) }
{
    refused || matches!(gathering, Gathering::Sum)
}

/// Whether a formula has no type, whatever the known types are, as long as no column of another name than these has one. With
/// `refused`, whether it is refused as long.
#[cycle(waiting)]
pub(crate) fn waits(tree: &Tree, refused: bool, known: &KnownNames) -> bool
    ensures { result ≡ waits_for tree.now refused known.now }
{
    match tree {
        Tree::Number(_, _) => false,
        Tree::Text(_, _) => false,
        Tree::Truth(_, _) => false,
        Tree::Root(_) => false,
        Tree::This(_) => false,
        Tree::Caller(_) => false,
        Tree::Operator(_) => false,
        Tree::Name(_, name) => !refused && !known.contains(name.bytes()),
        Tree::Child(_, object, _) => waits(object.get(), false, known),
        Tree::Up(_, object) => waits(object.get(), false, known),
        Tree::Negate(_, part) => waits(part.get(), true, known),
        Tree::Not(_, part) => waits(part.get(), true, known),
        Tree::Binary(_, _, a, b) => one_of_two(a.get(), b.get(), known),
        Tree::If(_, c, a, b) => one_of_three(c.get(), a.get(), b.get(), known),
        Tree::Set(_, parts) => one_waits(parts.as_slice(), known),
        Tree::Call(_, _, set) => waits(set.get(), true, known),
        Tree::Gather(_, gathering, body, name, source) => {
            let refused = of_body(refused, *gathering);
            gathered(source.get(), body.get(), name, refused, known)
        }
        Tree::GatherWhere(_, gathering, body, name, source, _) => {
            let refused = of_body(refused, *gathering);
            gathered(source.get(), body.get(), name, refused, known)
        }
        Tree::Test(_, _, _, source, _) => waits(source.get(), true, known),
    }
}

#[cycle(waiting)]
fn one_of_two(a: &Tree, b: &Tree, known: &KnownNames) -> bool
    ensures { result ≡ (waits_for a.now true known.now || waits_for b.now true known.now) }
{
    waits(a, true, known) || waits(b, true, known)
}

#[cycle(waiting)]
fn one_of_three(a: &Tree, b: &Tree, c: &Tree, known: &KnownNames) -> bool
    ensures { result ≡ (waits_for a.now true known.now || (waits_for b.now true known.now || waits_for c.now true known.now)) }
{
    waits(a, true, known) || one_of_two(b, c, known)
}

// Whether a comprehension or a sum does: its source is refused, or its body waits, which doesn't mention the variable.
#[cycle(waiting)]
fn gathered(source: &Tree, body: &Tree, name: &Name, refused: bool, known: &KnownNames) -> bool
    ensures { result ≡ (waits_for source.now true known.now
        || (not (mentions_one body.now (name.now ∷ [])) && waits_for body.now refused known.now)) }
{
    waits(source, true, known) || (!mentions(body, from_ref(name)) && waits(body, refused, known))
}

// Whether one of some formulas is refused.
#[cycle(waiting)]
fn one_waits(parts: &[Tree], known: &KnownNames) -> bool
    ensures { result ≡ one_waits_for parts.now known.now }
{
    for part in parts {
        if waits(part, true, known) {
            return true;
        }
    }
    false
}
