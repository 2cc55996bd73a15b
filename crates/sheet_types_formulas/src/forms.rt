// What a form makes of its typed parts: its resolved form and its type, or the mismatch of its first part at fault.
ghost use Rattle.std.specs.Prelude.{◌≡◌, [], map, IfOk};
ghost use Rattle.sheet_values.specs.declared.value.Kind.TheVariants.{Unknown};
ghost use Rattle.sheet_types_formulas.specs.declared.scope.Typed.{Typed as TheTyped};
ghost use Rattle.sheet_types_formulas.specs.Answers.{Answers};
ghost use Rattle.sheet_types_formulas.specs.Names.{within};
ghost use Rattle.sheet_types_formulas.specs.Forms.{step as step_form, up as up_form, negated as negated_form, denied as denied_form, both_agreed, compared as compared_kind, in_order as in_order_kind, operation_kind as kind_of_operation, operation_core as core_of_operation, operation as operation_form, branches as type_of_branches, choice as choice_form, all_agreed as all_agreed_kind, set_of as set_form, call_kind as kind_of_call, call_core as core_of_call, called as called_form, no_condition as condition_left_out, gathered_kind as kind_of_gathering, gathered_core as core_of_gathering, gathered as gathered_form, quantifier_of as quantifier_form, tested as tested_form};

use crate::kinds::{agree, column_above_of, object_column_of, ordered};
use crate::names::child;
use crate::{Scope, TypeRefusal, Typed};
use sheet_columns::{
    ArithmeticOperator, Columns, Connective, Core, Extremum, OrderTest, SetOperator, SetTest,
};
use sheet_syntax_trees::{Function, Gathering, Operator, Quantifier};
use sheet_values::Kind;
use sqlite_items::{Boxed, Items};
use std::alloc::{AllocError, Global};

// Two formulas as parts of one.
fn boxed_pair(
    alloc: Global,
    left: Core,
    right: Core,
) -> Result<(Boxed<Core>, Boxed<Core>), AllocError>
    ensures left { IfOk result (λ pair. pair.0 ≡ left) }
    ensures right { IfOk result (λ pair. pair.1 ≡ right) }
{
    let left = Boxed::new(alloc, left)?;
    let right = Boxed::new(alloc, right)?;
    Ok((left, right))
}

// Three formulas as parts of one.
fn boxed_three(
    alloc: Global,
    first: Core,
    second: Core,
    third: Core,
) -> Result<(Boxed<Core>, Boxed<Core>, Boxed<Core>), AllocError>
    ensures first { IfOk result (λ three. three.0 ≡ first) }
    ensures second { IfOk result (λ three. three.1 ≡ second) }
    ensures third { IfOk result (λ three. three.2 ≡ third) }
{
    let (first, second) = boxed_pair(alloc, first, second)?;
    let third = Boxed::new(alloc, third)?;
    Ok((first, second, third))
}

/// `e.c`: a child column of that of `e`.
#[tactic(auto, unfolding(crate::specs::Forms::step))]
pub fn step(
    alloc: Global,
    scope: &Scope<'_>,
    line: u32,
    name: &[u8],
    objects: Typed,
) -> Result<Typed, TypeRefusal>
    ensures { Answers result (step_form (within scope.now []) line name.now objects) }
{
    let above = object_column_of(alloc, scope.columns, &objects)?;
    match child(alloc, scope, line, objects.core, above, name)? {
        Some(step) => Ok(step),
        None => Err(TypeRefusal::UnknownName(line)),
    }
}

/// `e.up`: objects of the column above that of `e`.
#[tactic(auto, unfolding(crate::specs::Forms::up))]
pub fn up(alloc: Global, columns: &Columns, line: u32, objects: Typed) -> Result<Typed, TypeRefusal>
    ensures { Answers result (up_form columns.now line objects) }
{
    let above = column_above_of(alloc, columns, &objects)?;
    Ok(Typed {
        line,
        core: Core::Up(Boxed::new(alloc, objects.core)?),
        kind: Kind::Object(above),
    })
}

/// `-a`, a number of a number.
#[tactic(auto, unfolding(crate::specs::Forms::negated))]
pub fn negated(
    alloc: Global,
    columns: &Columns,
    line: u32,
    part: Typed,
) -> Result<Typed, TypeRefusal>
    ensures { Answers result (negated_form columns.now line part) }
{
    agree(alloc, columns, Kind::Number, &part)?;
    Ok(Typed {
        line,
        core: Core::Negate(Boxed::new(alloc, part.core)?),
        kind: Kind::Number,
    })
}

/// `not a`, a truth of a truth.
#[tactic(auto, unfolding(crate::specs::Forms::denied))]
pub fn denied(
    alloc: Global,
    columns: &Columns,
    line: u32,
    part: Typed,
) -> Result<Typed, TypeRefusal>
    ensures { Answers result (denied_form columns.now line part) }
{
    agree(alloc, columns, Kind::Truth, &part)?;
    Ok(Typed {
        line,
        core: Core::Not(Boxed::new(alloc, part.core)?),
        kind: Kind::Truth,
    })
}

// Both parts must have this type.
#[tactic(auto, unfolding(crate::specs::Forms::both_agreed))]
fn both_agree(
    alloc: Global,
    columns: &Columns,
    wanted: Kind,
    left: &Typed,
    right: &Typed,
) -> Result<Kind, TypeRefusal>
    ensures { Answers result (both_agreed columns.now wanted left.now right.now) }
{
    agree(alloc, columns, wanted, left)?;
    agree(alloc, columns, wanted, right)?;
    Ok(wanted)
}

// Both parts must agree, and a truth is made of them.
#[tactic(auto, unfolding(crate::specs::Forms::compared))]
fn compared(
    alloc: Global,
    columns: &Columns,
    left: &Typed,
    right: &Typed,
) -> Result<Kind, TypeRefusal>
    ensures { Answers result (compared_kind columns.now left.now right.now) }
{
    agree(alloc, columns, left.kind, right)?;
    Ok(Kind::Truth)
}

// Both parts must be of numbers or texts and agree, and a truth is made of them.
#[tactic(auto, unfolding(crate::specs::Forms::in_order))]
fn in_order(
    alloc: Global,
    columns: &Columns,
    left: &Typed,
    right: &Typed,
) -> Result<Kind, TypeRefusal>
    ensures { Answers result (in_order_kind columns.now left.now right.now) }
{
    ordered(alloc, columns, left)?;
    ordered(alloc, columns, right)?;
    compared(alloc, columns, left, right)
}

// The type of a form with an operator of two operands.
#[tactic(auto, unfolding(crate::specs::Forms::operation_kind))]
fn operation_kind(
    alloc: Global,
    columns: &Columns,
    operator: Operator,
    left: &Typed,
    right: &Typed,
) -> Result<Kind, TypeRefusal>
    ensures { Answers result (kind_of_operation columns.now operator left.now right.now) }
{
    match operator {
        Operator::Or | Operator::And => both_agree(alloc, columns, Kind::Truth, left, right),
        Operator::Equals | Operator::NotEquals | Operator::In => {
            compared(alloc, columns, left, right)
        }
        Operator::Less | Operator::AtMost | Operator::Greater | Operator::AtLeast => {
            in_order(alloc, columns, left, right)
        }
        Operator::Union | Operator::Intersect | Operator::Except => {
            agree(alloc, columns, left.kind, right)
        }
        Operator::Join => both_agree(alloc, columns, Kind::Text, left, right),
        Operator::Plus
        | Operator::Minus
        | Operator::Times
        | Operator::Divide
        | Operator::Remainder => both_agree(alloc, columns, Kind::Number, left, right),
    }
}

// Its resolved form.
fn operation_core(operator: Operator, a: Boxed<Core>, b: Boxed<Core>) -> Core
    ensures { result ≡ core_of_operation operator a b }
{
    match operator {
        Operator::Or => Core::Connect(Connective::Or, a, b),
        Operator::And => Core::Connect(Connective::And, a, b),
        Operator::Equals => Core::Compare(SetTest::Equal, a, b),
        Operator::NotEquals => Core::Compare(SetTest::Unequal, a, b),
        Operator::Less => Core::Order(OrderTest::Less, a, b),
        Operator::AtMost => Core::Order(OrderTest::AtMost, a, b),
        Operator::Greater => Core::Order(OrderTest::Greater, a, b),
        Operator::AtLeast => Core::Order(OrderTest::AtLeast, a, b),
        Operator::In => Core::Compare(SetTest::Within, a, b),
        Operator::Union => Core::Combine(SetOperator::Union, a, b),
        Operator::Intersect => Core::Combine(SetOperator::Intersect, a, b),
        Operator::Except => Core::Combine(SetOperator::Except, a, b),
        Operator::Plus => Core::Arithmetic(ArithmeticOperator::Add, a, b),
        Operator::Minus => Core::Arithmetic(ArithmeticOperator::Subtract, a, b),
        Operator::Join => Core::Join(a, b),
        Operator::Times => Core::Arithmetic(ArithmeticOperator::Multiply, a, b),
        Operator::Divide => Core::Arithmetic(ArithmeticOperator::Divide, a, b),
        Operator::Remainder => Core::Arithmetic(ArithmeticOperator::Remainder, a, b),
    }
}

/// A form with an operator of two operands.
#[tactic(auto, unfolding(crate::specs::Forms::operation))]
pub fn operation(
    alloc: Global,
    columns: &Columns,
    line: u32,
    operator: Operator,
    left: Typed,
    right: Typed,
) -> Result<Typed, TypeRefusal>
    ensures { Answers result (operation_form columns.now line operator left right) }
{
    let kind = operation_kind(alloc, columns, operator, &left, &right)?;
    let (left, right) = boxed_pair(alloc, left.core, right.core)?;
    let core = operation_core(operator, left, right);
    Ok(Typed { line, core, kind })
}

// The type of two branches that agree, under a truth.
#[tactic(auto, unfolding(crate::specs::Forms::branches))]
fn branches(
    alloc: Global,
    columns: &Columns,
    condition: &Typed,
    left: &Typed,
    right: &Typed,
) -> Result<Kind, TypeRefusal>
    ensures { Answers result (type_of_branches columns.now condition.now left.now right.now) }
{
    agree(alloc, columns, Kind::Truth, condition)?;
    agree(alloc, columns, left.kind, right)
}

/// `if c then a else b`: a truth, and two branches that agree, whose type it has.
#[tactic(auto, unfolding(crate::specs::Forms::choice))]
pub fn choice(
    alloc: Global,
    columns: &Columns,
    line: u32,
    condition: Typed,
    left: Typed,
    right: Typed,
) -> Result<Typed, TypeRefusal>
    ensures { Answers result (choice_form columns.now line condition left right) }
{
    let kind = branches(alloc, columns, &condition, &left, &right)?;
    let (condition, left, right) = boxed_three(alloc, condition.core, left.core, right.core)?;
    Ok(Typed {
        line,
        core: Core::If(condition, left, right),
        kind,
    })
}

// The type on which some parts agree, each with the one of those before it.
fn all_agreed(alloc: Global, columns: &Columns, parts: &[Typed]) -> Result<Kind, TypeRefusal>
    ensures { Answers result (all_agreed_kind columns.now Unknown parts.now) }
{
    let mut kind = Kind::Unknown;
    let mut rest = parts;
    while let Some((part, others)) = rest.split_first() {
        match agree(alloc, columns, kind, part) {
            Ok(common) => kind = common,
            Err(refusal) => return Err(refusal),
        }
        rest = others;
    }
    Ok(kind)
}

// The resolved forms of some parts.
fn cores_of(alloc: Global, parts: Vec<Typed>) -> Result<Items<Core>, AllocError>
    ensures { IfOk result (λ cores. cores ≡ map (λ (part : TheTyped). part.core) parts.items) }
{
    let mut cores = Items::new(alloc);
    for part in parts {
        cores.push(part.core)?;
    }
    Ok(cores)
}

/// `{a, b}`, of the type on which the parts agree; that of `{}` isn't known.
#[tactic(auto, unfolding(crate::specs::Forms::set_of))]
pub fn set_of(
    alloc: Global,
    columns: &Columns,
    line: u32,
    parts: Vec<Typed>,
) -> Result<Typed, TypeRefusal>
    ensures { Answers result (set_form columns.now line parts.items) }
{
    let kind = all_agreed(alloc, columns, parts.as_slice())?;
    let cores = cores_of(alloc, parts)?;
    Ok(Typed {
        line,
        core: Core::Set(cores),
        kind,
    })
}

// The type of a function of a set.
#[tactic(auto, unfolding(crate::specs::Forms::call_kind))]
fn call_kind(
    alloc: Global,
    columns: &Columns,
    function: Function,
    set: &Typed,
) -> Result<Kind, TypeRefusal>
    ensures { Answers result (kind_of_call columns.now function set.now) }
{
    match function {
        Function::Count => Ok(Kind::Number),
        Function::Only => Ok(set.kind),
        Function::Min | Function::Max => ordered(alloc, columns, set),
    }
}

// Its resolved form.
fn call_core(function: Function, set: Boxed<Core>) -> Core
    ensures { result ≡ core_of_call function set }
{
    match function {
        Function::Count => Core::Count(set),
        Function::Only => Core::Only(set),
        Function::Min => Core::Extreme(Extremum::Min, set),
        Function::Max => Core::Extreme(Extremum::Max, set),
    }
}

/// A function of a set.
#[tactic(auto, unfolding(crate::specs::Forms::called))]
pub fn called(
    alloc: Global,
    columns: &Columns,
    line: u32,
    function: Function,
    set: Typed,
) -> Result<Typed, TypeRefusal>
    ensures { Answers result (called_form columns.now line function set) }
{
    let kind = call_kind(alloc, columns, function, &set)?;
    let set = Boxed::new(alloc, set.core)?;
    let core = call_core(function, set);
    Ok(Typed { line, core, kind })
}

/// A condition that was left out: it always holds.
pub fn no_condition(line: u32) -> Typed
    ensures { result ≡ condition_left_out line }
{
    Typed {
        line,
        core: Core::Truth(true),
        kind: Kind::Truth,
    }
}

// The type of a comprehension or a sum.
#[tactic(auto, unfolding(crate::specs::Forms::gathered_kind))]
fn gathered_kind(
    alloc: Global,
    columns: &Columns,
    gathering: Gathering,
    body: &Typed,
    condition: &Typed,
) -> Result<Kind, TypeRefusal>
    ensures { Answers result (kind_of_gathering columns.now gathering body.now condition.now) }
{
    match gathering {
        Gathering::Union => {
            agree(alloc, columns, Kind::Truth, condition)?;
            Ok(body.kind)
        }
        Gathering::Sum => {
            agree(alloc, columns, Kind::Number, body)?;
            agree(alloc, columns, Kind::Truth, condition)?;
            Ok(Kind::Number)
        }
    }
}

// Its resolved form.
fn gathered_core(
    gathering: Gathering,
    body: Boxed<Core>,
    source: Boxed<Core>,
    condition: Boxed<Core>,
) -> Core
    ensures { result ≡ core_of_gathering gathering body source condition }
{
    match gathering {
        Gathering::Union => Core::Comprehension(body, source, condition),
        Gathering::Sum => Core::Sum(body, source, condition),
    }
}

/// `{f : x in s | p}`, of the type of `f`, and `sum(f : x in s | p)`, a number of numbers; `p` is a truth.
#[tactic(auto, unfolding(crate::specs::Forms::gathered))]
pub fn gathered(
    alloc: Global,
    columns: &Columns,
    line: u32,
    gathering: Gathering,
    body: Typed,
    source: Typed,
    condition: Typed,
) -> Result<Typed, TypeRefusal>
    ensures { Answers result (gathered_form columns.now line gathering body source condition) }
{
    let kind = gathered_kind(alloc, columns, gathering, &body, &condition)?;
    let (body, source, condition) = boxed_three(alloc, body.core, source.core, condition.core)?;
    let core = gathered_core(gathering, body, source, condition);
    Ok(Typed { line, core, kind })
}

fn quantifier_of(quantifier: Quantifier) -> sheet_columns::Quantifier
    ensures { result ≡ quantifier_form quantifier }
{
    match quantifier {
        Quantifier::Any => sheet_columns::Quantifier::Any,
        Quantifier::All => sheet_columns::Quantifier::All,
    }
}

/// `any(x in s | p)`, `all(x in s | p)`, a truth of a truth.
#[tactic(auto, unfolding(crate::specs::Forms::tested))]
pub fn tested(
    alloc: Global,
    columns: &Columns,
    line: u32,
    quantifier: Quantifier,
    source: Typed,
    condition: Typed,
) -> Result<Typed, TypeRefusal>
    ensures { Answers result (tested_form columns.now line quantifier source condition) }
{
    agree(alloc, columns, Kind::Truth, &condition)?;
    let (source, condition) = boxed_pair(alloc, source.core, condition.core)?;
    Ok(Typed {
        line,
        core: Core::Quantify(quantifier_of(quantifier), source, condition),
        kind: Kind::Truth,
    })
}
