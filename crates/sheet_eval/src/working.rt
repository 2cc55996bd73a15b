// The recursion over a formula. The variables of its comprehensions stand in a list of their own, behind the others.
ghost use Rattle.std.specs.Prelude.{◌≡◌, ◌++◌, [], IfOk, OnOk};
ghost use Rattle.sheet_values.specs.Sets.{union};
ghost use Rattle.sheet_meaning.specs.Run.{and_then, after, both_outcomes, connect, finish};
ghost use Rattle.sheet_meaning.specs.Formula.{run, step, single, gathered, truth as truth_run, told as told_set};
ghost use Rattle.sheet_eval.specs.Made.{unary_run, binary_run};
ghost use Rattle.sheet_eval.specs.Told.{world_told, Came, Folds};
ghost use Rattle.sheet_eval.specs.Totals.{aggregated, gathered_from, finished_run, turn_of, turn_run, with_part};
ghost use Rattle.sheet_eval.specs.Turns.{way_of, choice, skips};

use crate::contents::{Way, known, known_text, step_on, variable};
use crate::forms::{Binary, Unary, joined, made_of_one, made_of_two, told, united};
use crate::lookup::Lookup;
use crate::parts::{both, is_none, truth};
use crate::scene::Scene;
use crate::total::{Aggregate, Total};
use sheet_columns::{Connective, Core, Fault, Variables};
use sheet_eval_sets::{Gathering, Part, Uses};
use sheet_values::{NoMemory, Set, Value};

/// Works out a formula.
#[cycle(work)]
pub fn work<'a, L: Lookup>(
    scene: &Scene<'a, L>,
    core: &Core,
    bound: &mut Variables,
    uses: &mut Uses,
) -> Result<Result<Part<'a>, Fault>, NoMemory>
    ensures came { IfOk result (λ o. Came (run core.now (world_told (L.told scene.now.lookup.now)) scene.now.place (scene.now.variables.now ++ bound.old)) uses.old o uses.new) }
    ensures bound { OnOk result (bound.new ≡ bound.old) }
{
    match core {
        Core::Truth(truth) => known(scene.alloc, Value::Truth(*truth)),
        Core::Number(number) => known(scene.alloc, Value::Number(*number)),
        Core::Text(text) => known_text(scene.alloc, text),
        Core::Root => known(scene.alloc, Value::Object(0)),
        Core::Variable(position) => variable(scene, *position, bound, uses),
        Core::ObjectStep(objects, column) => {
            step_of(scene, Way::Children(*column), objects.get(), bound, uses)
        }
        Core::StateStep(objects, column) => {
            step_of(scene, Way::OfState(*column), objects.get(), bound, uses)
        }
        Core::FormulaStep(objects, column) => {
            step_of(scene, Way::OfFormula(*column), objects.get(), bound, uses)
        }
        Core::Up(objects) => { step_of(scene, Way::Parent, objects.get(), bound, uses) }
        Core::Set(parts) => set_of(scene, parts.as_slice(), bound, uses),
        Core::Combine(operator, left, right) => {
            binary(
                scene,
                Binary::Combine(*operator),
                left.get(),
                right.get(),
                bound,
                uses,
            )
        }
        Core::Compare(test, left, right) => {
            binary(
                scene,
                Binary::Compare(*test),
                left.get(),
                right.get(),
                bound,
                uses,
            )
        }
        Core::Order(test, left, right) => {
            binary(
                scene,
                Binary::Order(*test),
                left.get(),
                right.get(),
                bound,
                uses,
            )
        }
        Core::Arithmetic(operator, left, right) => {
            binary(
                scene,
                Binary::Arithmetic(*operator),
                left.get(),
                right.get(),
                bound,
                uses,
            )
        }
        Core::Negate(part) => { unary(scene, Unary::Negate, part.get(), bound, uses) }
        Core::Join(left, right) => {
            binary(scene, Binary::Join, left.get(), right.get(), bound, uses)
        }
        Core::Not(part) => unary(scene, Unary::Not, part.get(), bound, uses),
        Core::Connect(connective, left, right) => {
            connected(scene, *connective, left.get(), right.get(), bound, uses)
        }
        Core::If(condition, left, right) => {
            chosen(scene, condition.get(), left.get(), right.get(), bound, uses)
        }
        Core::Count(set) => { unary(scene, Unary::Count, set.get(), bound, uses) }
        Core::Only(set) => unary(scene, Unary::Only, set.get(), bound, uses),
        Core::Extreme(extremum, set) => {
            unary(scene, Unary::Extreme(*extremum), set.get(), bound, uses)
        }
        Core::Comprehension(body, source, condition) => {
            aggregated(
                scene,
                Aggregate::Union,
                body.get(),
                source.get(),
                condition.get(),
                bound,
                uses,
            )
        }
        Core::Sum(body, source, condition) => {
            aggregated(
                scene,
                Aggregate::Sum,
                body.get(),
                source.get(),
                condition.get(),
                bound,
                uses,
            )
        }
        Core::Quantify(quantifier, source, condition) => {
            aggregated(
                scene,
                Aggregate::Quantify(*quantifier),
                condition.get(),
                source.get(),
                condition.get(),
                bound,
                uses,
            )
        }
    }
}

// A step from the objects of a part.
#[cycle(work)]
fn step_of<'a, L: Lookup>(
    scene: &Scene<'a, L>,
    way: Way,
    objects: &Core,
    bound: &mut Variables,
    uses: &mut Uses,
) -> Result<Result<Part<'a>, Fault>, NoMemory>
    ensures came { IfOk result (λ o. Came (and_then (run objects.now (world_told (L.told scene.now.lookup.now)) scene.now.place (scene.now.variables.now ++ bound.old)) (step (way_of (world_told (L.told scene.now.lookup.now)) way))) uses.old o uses.new) }
    ensures bound { OnOk result (bound.new ≡ bound.old) }
{
    let objects = work(scene, objects, bound, uses)?;
    step_on(scene, objects, way, uses)
}

// The union of the parts of a list.
#[cycle(work)]
fn set_of<'a, L: Lookup>(
    scene: &Scene<'a, L>,
    parts: &[Core],
    bound: &mut Variables,
    uses: &mut Uses,
) -> Result<Result<Part<'a>, Fault>, NoMemory>
    ensures came { IfOk result (λ o. Came (gathered union [] (λ e. single (run e (world_told (L.told scene.now.lookup.now)) scene.now.place (scene.now.variables.now ++ bound.old))) parts.now) uses.old o uses.new) }
    ensures bound { OnOk result (bound.new ≡ bound.old) }
{
    let mut so_far = Ok(Gathering::new(scene.alloc));
    for part in parts {
        let part = work(scene, part, bound, uses)?;
        so_far = joined(so_far, part)?;
    }
    united(scene.alloc, so_far)
}

// A form of one part.
#[cycle(work)]
fn unary<'a, L: Lookup>(
    scene: &Scene<'a, L>,
    form: Unary,
    part: &Core,
    bound: &mut Variables,
    uses: &mut Uses,
) -> Result<Result<Part<'a>, Fault>, NoMemory>
    ensures came { IfOk result (λ o. Came (unary_run form scene.now.place (run part.now (world_told (L.told scene.now.lookup.now)) scene.now.place (scene.now.variables.now ++ bound.old))) uses.old o uses.new) }
    ensures bound { OnOk result (bound.new ≡ bound.old) }
{
    let part = work(scene, part, bound, uses)?;
    made_of_one(scene.alloc, form, scene.place, part)
}

// A form of two parts that skips neither.
#[cycle(work)]
fn binary<'a, L: Lookup>(
    scene: &Scene<'a, L>,
    form: Binary,
    left: &Core,
    right: &Core,
    bound: &mut Variables,
    uses: &mut Uses,
) -> Result<Result<Part<'a>, Fault>, NoMemory>
    ensures came { IfOk result (λ o. Came (binary_run form scene.now.place (run left.now (world_told (L.told scene.now.lookup.now)) scene.now.place (scene.now.variables.now ++ bound.old)) (run right.now (world_told (L.told scene.now.lookup.now)) scene.now.place (scene.now.variables.now ++ bound.old))) uses.old o uses.new) }
    ensures bound { OnOk result (bound.new ≡ bound.old) }
{
    let left = work(scene, left, bound, uses)?;
    let right = work(scene, right, bound, uses)?;
    made_of_two(scene.alloc, form, scene.place, left, right)
}

// Whether the second of two truths is skipped: where the first has no outcome, or decides.
fn skips(connective: Connective, first: Result<bool, Fault>) -> bool
    ensures { result ≡ skips connective first }
{
    match first {
        Ok(first) => match connective {
            Connective::And => !first,
            Connective::Or => first,
        },
        Err(fault) => is_none(fault),
    }
}

// The second of two truths that are both parts.
fn second(first: Result<bool, Fault>, second: Result<bool, Fault>) -> Result<bool, Fault>
    ensures { result ≡ after (both_outcomes first second) (λ x. Ok x.1) }
{
    match both(first, second) {
        Ok((_, holds)) => Ok(holds),
        Err(fault) => Err(fault),
    }
}

// Two truths joined by `and` or `or`.
#[cycle(work)]
fn connected<'a, L: Lookup>(
    scene: &Scene<'a, L>,
    connective: Connective,
    left: &Core,
    right: &Core,
    bound: &mut Variables,
    uses: &mut Uses,
) -> Result<Result<Part<'a>, Fault>, NoMemory>
    ensures came { IfOk result (λ o. Came (finish (connect connective (truth_run scene.now.place (run left.now (world_told (L.told scene.now.lookup.now)) scene.now.place (scene.now.variables.now ++ bound.old))) (truth_run scene.now.place (run right.now (world_told (L.told scene.now.lookup.now)) scene.now.place (scene.now.variables.now ++ bound.old)))) told_set) uses.old o uses.new) }
    ensures bound { OnOk result (bound.new ≡ bound.old) }
{
    let left = work(scene, left, bound, uses)?;
    let first = truth(scene.place, left);
    if skips(connective, first) {
        return told(scene.alloc, first);
    }
    let right = work(scene, right, bound, uses)?;
    told(scene.alloc, second(first, truth(scene.place, right)))
}

// The branch that a condition chooses.
#[cycle(work)]
fn chosen<'a, L: Lookup>(
    scene: &Scene<'a, L>,
    condition: &Core,
    left: &Core,
    right: &Core,
    bound: &mut Variables,
    uses: &mut Uses,
) -> Result<Result<Part<'a>, Fault>, NoMemory>
    ensures came { IfOk result (λ o. Came (and_then (truth_run scene.now.place (run condition.now (world_told (L.told scene.now.lookup.now)) scene.now.place (scene.now.variables.now ++ bound.old))) (choice left.now right.now (world_told (L.told scene.now.lookup.now)) scene.now.place (scene.now.variables.now ++ bound.old))) uses.old o uses.new) }
    ensures bound { OnOk result (bound.new ≡ bound.old) }
{
    let condition = work(scene, condition, bound, uses)?;
    match truth(scene.place, condition) {
        Err(fault) => Ok(Err(fault)),
        Ok(true) => work(scene, left, bound, uses),
        Ok(false) => work(scene, right, bound, uses),
    }
}

// A comprehension over a source.
#[cycle(work)]
fn aggregated<'a, L: Lookup>(
    scene: &Scene<'a, L>,
    aggregate: Aggregate,
    body: &Core,
    source: &Core,
    condition: &Core,
    bound: &mut Variables,
    uses: &mut Uses,
) -> Result<Result<Part<'a>, Fault>, NoMemory>
    ensures came { IfOk result (λ o. Came (aggregated aggregate body.now source.now condition.now (world_told (L.told scene.now.lookup.now)) scene.now.place (scene.now.variables.now ++ bound.old)) uses.old o uses.new) }
    ensures bound { OnOk result (bound.new ≡ bound.old) }
{
    let source = work(scene, source, bound, uses)?;
    match source {
        Err(fault) => Ok(Err(fault)),
        Ok(set) => { values_of(scene, aggregate, set.set(), body, condition, bound, uses) }
    }
}

// A comprehension over the values of a set.
#[cycle(work)]
fn values_of<'a, L: Lookup>(
    scene: &Scene<'a, L>,
    aggregate: Aggregate,
    set: &Set,
    body: &Core,
    condition: &Core,
    bound: &mut Variables,
    uses: &mut Uses,
) -> Result<Result<Part<'a>, Fault>, NoMemory>
    ensures came { IfOk result (λ o. Came (finished_run aggregate scene.now.place (gathered_from aggregate body.now condition.now (world_told (L.told scene.now.lookup.now)) scene.now.place (scene.now.variables.now ++ bound.old) set.now)) uses.old o uses.new) }
    ensures bound { OnOk result (bound.new ≡ bound.old) }
{
    let mut total = Total::new(scene.alloc, aggregate);
    for k in 0..set.len() {
        turn(scene, set.at(k), body, condition, bound, uses, &mut total)?;
    }
    total.finish(scene.alloc, scene.place)
}

// One value of a comprehension, bound as its variable.
#[cycle(work)]
fn turn<'a, L: Lookup>(
    scene: &Scene<'a, L>,
    value: &Value,
    body: &Core,
    condition: &Core,
    bound: &mut Variables,
    uses: &mut Uses,
    total: &mut Total<'a>,
) -> Result<(), NoMemory>
    ensures folds { OnOk result (Folds (with_part total.old.aggregate) (turn_of total.old.aggregate body.now condition.now (world_told (L.told scene.now.lookup.now)) scene.now.place (scene.now.variables.now ++ bound.old) value.now) total.old.so_far uses.old total.new.so_far uses.new) }
    ensures bound { OnOk result (bound.new ≡ bound.old) }
    ensures aggregate { OnOk result (total.new.aggregate ≡ total.old.aggregate) }
{
    let len = bound.len();
    bound.push(Set::one(scene.alloc, value.copy()?)?)?;
    bound_turn(scene, body, condition, bound, uses, total)?;
    bound.cut(len);
    Ok(())
}

// What the value that is bound gives, where its condition holds.
#[cycle(work)]
fn bound_turn<'a, L: Lookup>(
    scene: &Scene<'a, L>,
    body: &Core,
    condition: &Core,
    bound: &mut Variables,
    uses: &mut Uses,
    total: &mut Total<'a>,
) -> Result<(), NoMemory>
    ensures folds { OnOk result (Folds (with_part total.old.aggregate) (turn_run total.old.aggregate scene.now.place (run condition.now (world_told (L.told scene.now.lookup.now)) scene.now.place (scene.now.variables.now ++ bound.old)) (run body.now (world_told (L.told scene.now.lookup.now)) scene.now.place (scene.now.variables.now ++ bound.old))) total.old.so_far uses.old total.new.so_far uses.new) }
    ensures bound { OnOk result (bound.new ≡ bound.old) }
    ensures aggregate { OnOk result (total.new.aggregate ≡ total.old.aggregate) }
{
    let holds = work(scene, condition, bound, uses)?;
    if total.is_test() {
        return total.take(scene.place, holds);
    }
    match truth(scene.place, holds) {
        Err(fault) => {
            total.fail(fault);
            Ok(())
        }
        Ok(false) => Ok(()),
        Ok(true) => {
            let part = work(scene, body, bound, uses)?;
            total.take(scene.place, part)
        }
    }
}
