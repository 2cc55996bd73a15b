// Formulas as they are written, typed.
ghost use Rattle.std.specs.Prelude.{◌≡◌, ◌++◌, map, Some, IfOk, codes};
ghost use Rattle.sheet_values.specs.declared.value.Kind.TheVariants as kind;
ghost use Rattle.sheet_types_formulas.specs.declared.scope.Variable.{Variable as TheVariable};
ghost use Rattle.sheet_types_formulas.specs.Answers.{Answers, AnswersAs};
ghost use Rattle.sheet_types_formulas.specs.Names.{within, in_scope, bind};
ghost use Rattle.sheet_types_formulas.specs.Forms.{step as step_form, up as up_form, negated as negated_form, denied as denied_form, operation as operation_form, choice as choice_form, set_of as set_form, called as called_form, no_condition as condition_left_out, gathered as gathered_form, tested as tested_form};
ghost use Rattle.sheet_types_formulas.specs.Typing.{typed as typed_tree, typed_list, typed_then, list_then, line_of as line_of_tree};
ghost use Rattle.sheet_types_rules.specs.Formulas.{kind_in};

use crate::forms::{
    called, choice, denied, gathered, negated, no_condition, operation, set_of, step, tested, up,
};
use crate::names::{named, with_variable, word};
use crate::{Scope, TypeRefusal, Typed, Variable};
use sheet_columns::Core;
use sheet_syntax_trees::{Function, Gathering, Operator, Quantifier, Tree};
use sheet_values::{Kind, Name};
use std::alloc::Global;

/// The type of a formula and its resolved form.
///
/// Its parts come first, from left to right, but the source of a comprehension, a sum, `any` and `all` before its other
/// parts; then the form, each of whose parts is tested from left to right, and then that they agree. The first refusal is
/// `UnknownName` with the line of a name that means nothing, or `Mismatch` with the line of the part at fault, the wanted
/// type and the one found. No other refusal comes but `NoMemory`.
pub fn type_formula(alloc: Global, scope: &Scope<'_>, tree: &Tree) -> Result<Typed, TypeRefusal>
    ensures typed { Answers result (typed_tree tree.now (in_scope scope.now)) }
    ensures kind { IfOk result (λ t. kind_in t.core scope.now.columns.now scope.now.kinds.now (map (λ (v : TheVariable). v.kind) scope.now.variables.now) ≡ Some t.kind) }
    ensures line { IfOk result (λ t. t.line ≡ line_of_tree tree.now) }
{
    typed(alloc, scope, &[], tree)
}

/// The line of a formula's first token, from 1.
pub fn line_of(tree: &Tree) -> u32
    ensures { result ≡ line_of_tree tree.now }
{
    match tree {
        Tree::Number(line, _)
        | Tree::Text(line, _)
        | Tree::Truth(line, _)
        | Tree::Root(line)
        | Tree::This(line)
        | Tree::Caller(line)
        | Tree::Operator(line)
        | Tree::Name(line, _)
        | Tree::Child(line, _, _)
        | Tree::Up(line, _)
        | Tree::Negate(line, _)
        | Tree::Not(line, _)
        | Tree::Binary(line, _, _, _)
        | Tree::If(line, _, _, _)
        | Tree::Set(line, _)
        | Tree::Call(line, _, _)
        | Tree::Gather(line, _, _, _, _)
        | Tree::GatherWhere(line, _, _, _, _, _)
        | Tree::Test(line, _, _, _, _) => *line,
    }
}

// The type of a formula and its resolved form, where these variables are bound behind those of the scope.
#[cycle(typing)]
fn typed(
    alloc: Global,
    scope: &Scope<'_>,
    bound: &[Variable],
    tree: &Tree,
) -> Result<Typed, TypeRefusal>
    ensures { Answers result (typed_tree tree.now (within scope.now bound.now)) }
{
    match tree {
        Tree::Number(line, number) => Ok(Typed {
            line: *line,
            core: Core::Number(*number),
            kind: Kind::Number,
        }),
        Tree::Text(line, text) => {
            let text = text.copy()?;
            Ok(Typed {
                line: *line,
                core: Core::Text(text),
                kind: Kind::Text,
            })
        }
        Tree::Truth(line, truth) => Ok(Typed {
            line: *line,
            core: Core::Truth(*truth),
            kind: Kind::Truth,
        }),
        Tree::Root(line) => Ok(Typed {
            line: *line,
            core: Core::Root,
            kind: Kind::Object(0),
        }),
        Tree::This(line) => word(scope, bound, *line, b"this"),
        Tree::Caller(line) => word(scope, bound, *line, b"caller"),
        Tree::Operator(line) => word(scope, bound, *line, b"operator"),
        Tree::Name(line, name) => named(alloc, scope, bound, *line, name.bytes()),
        Tree::Child(line, objects, name) => {
            typed_step(alloc, scope, bound, *line, objects.get(), name)
        }
        Tree::Up(line, objects) => typed_up(alloc, scope, bound, *line, objects.get()),
        Tree::Negate(line, part) => typed_negation(alloc, scope, bound, *line, part.get()),
        Tree::Not(line, part) => typed_denial(alloc, scope, bound, *line, part.get()),
        Tree::Binary(line, operator, a, b) => {
            typed_operation(alloc, scope, bound, *line, *operator, a.get(), b.get())
        }
        Tree::If(line, c, a, b) => {
            typed_choice(alloc, scope, bound, *line, c.get(), a.get(), b.get())
        }
        Tree::Set(line, parts) => typed_set(alloc, scope, bound, *line, parts.as_slice()),
        Tree::Call(line, function, set) => {
            typed_call(alloc, scope, bound, *line, *function, set.get())
        }
        Tree::Gather(line, gathering, body, name, source) => typed_gathering(
            alloc,
            scope,
            bound,
            *line,
            *gathering,
            body.get(),
            name,
            source.get(),
        ),
        Tree::GatherWhere(line, gathering, body, name, source, condition) => typed_choosing(
            alloc,
            scope,
            bound,
            *line,
            *gathering,
            body.get(),
            name,
            source.get(),
            condition.get(),
        ),
        Tree::Test(line, quantifier, name, source, condition) => typed_test(
            alloc,
            scope,
            bound,
            *line,
            *quantifier,
            name,
            source.get(),
            condition.get(),
        ),
    }
}

#[cycle(typing)]
#[tactic(auto, unfolding(crate::specs::Forms::step))]
fn typed_step(
    alloc: Global,
    scope: &Scope<'_>,
    bound: &[Variable],
    line: u32,
    objects: &Tree,
    name: &Name,
) -> Result<Typed, TypeRefusal>
    ensures { Answers result (typed_then objects.now (within scope.now bound.now) (step_form (within scope.now bound.now) line name.now)) }
{
    let objects = typed(alloc, scope, bound, objects)?;
    step(alloc, scope, line, name.bytes(), objects)
}

#[cycle(typing)]
fn typed_up(
    alloc: Global,
    scope: &Scope<'_>,
    bound: &[Variable],
    line: u32,
    objects: &Tree,
) -> Result<Typed, TypeRefusal>
    ensures { Answers result (typed_then objects.now (within scope.now bound.now) (up_form scope.now.columns.now line)) }
{
    let objects = typed(alloc, scope, bound, objects)?;
    up(alloc, scope.columns, line, objects)
}

#[cycle(typing)]
fn typed_negation(
    alloc: Global,
    scope: &Scope<'_>,
    bound: &[Variable],
    line: u32,
    part: &Tree,
) -> Result<Typed, TypeRefusal>
    ensures { Answers result (typed_then part.now (within scope.now bound.now) (negated_form scope.now.columns.now line)) }
{
    let part = typed(alloc, scope, bound, part)?;
    negated(alloc, scope.columns, line, part)
}

#[cycle(typing)]
fn typed_denial(
    alloc: Global,
    scope: &Scope<'_>,
    bound: &[Variable],
    line: u32,
    part: &Tree,
) -> Result<Typed, TypeRefusal>
    ensures { Answers result (typed_then part.now (within scope.now bound.now) (denied_form scope.now.columns.now line)) }
{
    let part = typed(alloc, scope, bound, part)?;
    denied(alloc, scope.columns, line, part)
}

#[cycle(typing)]
fn typed_operation(
    alloc: Global,
    scope: &Scope<'_>,
    bound: &[Variable],
    line: u32,
    operator: Operator,
    left: &Tree,
    right: &Tree,
) -> Result<Typed, TypeRefusal>
    ensures { Answers result (typed_then left.now (within scope.now bound.now) (λ x. typed_then right.now (within scope.now bound.now) (operation_form scope.now.columns.now line operator x))) }
{
    let left = typed(alloc, scope, bound, left)?;
    let right = typed(alloc, scope, bound, right)?;
    operation(alloc, scope.columns, line, operator, left, right)
}

#[cycle(typing)]
fn typed_choice(
    alloc: Global,
    scope: &Scope<'_>,
    bound: &[Variable],
    line: u32,
    condition: &Tree,
    left: &Tree,
    right: &Tree,
) -> Result<Typed, TypeRefusal>
    ensures { Answers result (typed_then condition.now (within scope.now bound.now) (λ c. typed_then left.now (within scope.now bound.now) (λ x. typed_then right.now (within scope.now bound.now) (choice_form scope.now.columns.now line c x)))) }
{
    let condition = typed(alloc, scope, bound, condition)?;
    let left = typed(alloc, scope, bound, left)?;
    let right = typed(alloc, scope, bound, right)?;
    choice(alloc, scope.columns, line, condition, left, right)
}

#[cycle(typing)]
fn typed_set(
    alloc: Global,
    scope: &Scope<'_>,
    bound: &[Variable],
    line: u32,
    parts: &[Tree],
) -> Result<Typed, TypeRefusal>
    ensures { Answers result (list_then parts.now (within scope.now bound.now) (set_form scope.now.columns.now line)) }
{
    let parts = typed_parts(alloc, scope, bound, parts)?;
    set_of(alloc, scope.columns, line, parts)
}

// Each part, in order.
#[cycle(typing)]
fn typed_parts(
    alloc: Global,
    scope: &Scope<'_>,
    bound: &[Variable],
    parts: &[Tree],
) -> Result<Vec<Typed>, TypeRefusal>
    ensures { AnswersAs (λ list. list.items) result (typed_list parts.now (within scope.now bound.now)) }
{
    let mut list = Vec::new(alloc);
    for part in parts {
        match typed(alloc, scope, bound, part) {
            Ok(part) => list.push(part)?,
            Err(refusal) => return Err(refusal),
        }
    }
    Ok(list)
}

#[cycle(typing)]
fn typed_call(
    alloc: Global,
    scope: &Scope<'_>,
    bound: &[Variable],
    line: u32,
    function: Function,
    set: &Tree,
) -> Result<Typed, TypeRefusal>
    ensures { Answers result (typed_then set.now (within scope.now bound.now) (called_form scope.now.columns.now line function)) }
{
    let set = typed(alloc, scope, bound, set)?;
    called(alloc, scope.columns, line, function, set)
}

// A part in which one variable more is bound.
#[cycle(typing)]
fn typed_inside(
    alloc: Global,
    scope: &Scope<'_>,
    bound: &[Variable],
    name: &Name,
    kind: Kind,
    part: &Tree,
) -> Result<Typed, TypeRefusal>
    ensures { Answers result (typed_tree part.now (bind (within scope.now bound.now) name.now kind)) }
{
    let inner = with_variable(alloc, bound, name, kind)?;
    typed(alloc, scope, inner.as_slice(), part)
}

#[cycle(typing)]
fn typed_gathering(
    alloc: Global,
    scope: &Scope<'_>,
    bound: &[Variable],
    line: u32,
    gathering: Gathering,
    body: &Tree,
    name: &Name,
    source: &Tree,
) -> Result<Typed, TypeRefusal>
    ensures { Answers result (typed_then source.now (within scope.now bound.now) (λ s. typed_then body.now (bind (within scope.now bound.now) name.now s.kind) (λ f. gathered_form scope.now.columns.now line gathering f s (condition_left_out line)))) }
{
    let source = typed(alloc, scope, bound, source)?;
    let body = typed_inside(alloc, scope, bound, name, source.kind, body)?;
    let condition = no_condition(line);
    gathered(
        alloc,
        scope.columns,
        line,
        gathering,
        body,
        source,
        condition,
    )
}

#[cycle(typing)]
fn typed_choosing(
    alloc: Global,
    scope: &Scope<'_>,
    bound: &[Variable],
    line: u32,
    gathering: Gathering,
    body: &Tree,
    name: &Name,
    source: &Tree,
    condition: &Tree,
) -> Result<Typed, TypeRefusal>
    ensures { Answers result (typed_then source.now (within scope.now bound.now) (λ s. typed_then body.now (bind (within scope.now bound.now) name.now s.kind) (λ f. typed_then condition.now (bind (within scope.now bound.now) name.now s.kind) (gathered_form scope.now.columns.now line gathering f s)))) }
{
    let source = typed(alloc, scope, bound, source)?;
    let body = typed_inside(alloc, scope, bound, name, source.kind, body)?;
    let condition = typed_inside(alloc, scope, bound, name, source.kind, condition)?;
    gathered(
        alloc,
        scope.columns,
        line,
        gathering,
        body,
        source,
        condition,
    )
}

#[cycle(typing)]
fn typed_test(
    alloc: Global,
    scope: &Scope<'_>,
    bound: &[Variable],
    line: u32,
    quantifier: Quantifier,
    name: &Name,
    source: &Tree,
    condition: &Tree,
) -> Result<Typed, TypeRefusal>
    ensures { Answers result (typed_then source.now (within scope.now bound.now) (λ s. typed_then condition.now (bind (within scope.now bound.now) name.now s.kind) (tested_form scope.now.columns.now line quantifier s))) }
{
    let source = typed(alloc, scope, bound, source)?;
    let condition = typed_inside(alloc, scope, bound, name, source.kind, condition)?;
    tested(alloc, scope.columns, line, quantifier, source, condition)
}
