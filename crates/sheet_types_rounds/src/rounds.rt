// The rounds.
ghost use Rattle.std.specs.Prelude.{◌≡◌, ◌≤◌, ◌<◌, ◌+◌, ◌++◌, ◌∷◌, [], false, length, option_map, slice_index_or, IfOk, OnOk};
ghost use Rattle.sheet_types_rounds.specs.Mentions.{is_touched, AgreeBelow, AgreeBut, IsSteady, AreSteady};
ghost use Rattle.sheet_values.specs.declared.value.Kind.TheVariants as kind;
ghost use Rattle.sheet_types_formulas.specs.Typing.{typed};
ghost use Rattle.sheet_types_rounds.specs.Waiting.{HoldKnown};
ghost use Rattle.sheet_types_rounds.specs.Rounds.{formulas_of, written_formulas, at_column, kind_told, next_kind as next_kind_of, next_kinds, round as round_of, final_kinds as final_kinds_of};

use crate::first::{column_kinds, count_formulas, formula_in, is_same, is_unknown};
use crate::known::{KnownNames, known_names};
use crate::mentions::mentions;
use crate::waiting::waits;
use sheet_columns::{Columns, Sequence};
use sheet_define_data::{Declaration, Definition};
use sheet_syntax_trees::Tree;
use sheet_types_formulas::{Scope, TypeRefusal, Variable, kind_at, type_formula};
use sheet_values::{Kind, Name, NoMemory};
use std::alloc::Global;
use std::slice::from_ref;

// The type of a formula of that column, under these types.
fn kind_of_formula(
    alloc: Global,
    columns: &Columns,
    kinds: &[Kind],
    column: u32,
    tree: &Tree,
) -> Result<Kind, NoMemory>
    requires not_root { 0 < column }
    requires counted { column < length columns.now }
    ensures { IfOk result (λ k. k ≡ kind_told (typed tree.now (at_column columns.now kinds.now column))) }
{
    let this = Variable {
        name: Name::of(alloc, "this")?,
        kind: Kind::Object(columns.above(column)),
    };
    let variables = [this];
    let scope = Scope {
        columns,
        kinds,
        variables: &variables,
    };
    match type_formula(alloc, &scope, tree) {
        Ok(typed) => Ok(typed.kind),
        Err(TypeRefusal::NoMemory) => Err(NoMemory),
        Err(_) => Ok(Kind::Unknown),
    }
}

// The same, where no formula is typed that waits for a column of a name that isn't known.
fn kind_unless_waiting(
    alloc: Global,
    columns: &Columns,
    kinds: &[Kind],
    known: &KnownNames,
    column: u32,
    tree: &Tree,
) -> Result<Kind, NoMemory>
    requires not_root { 0 < column }
    requires counted { column < length columns.now }
    requires known { HoldKnown known.now columns.now kinds.now }
    ensures { IfOk result (λ k. k ≡ kind_told (typed tree.now (at_column columns.now kinds.now column))) }
{
    let this = Name::of(alloc, "this")?;
    if waits(tree, false, known) && !mentions(tree, from_ref(&this)) {
        return Ok(Kind::Unknown);
    }
    kind_of_formula(alloc, columns, kinds, column, tree)
}

// What the round before has changed: all types, or those of the columns of these names.
#[derive(Drop)]
struct Changed {
    all: bool,
    names: Vec<Name>,
}

impl Changed {
    // Whether a formula may have another type than before.
    fn touches(&self, tree: &Tree) -> bool
        ensures { result ≡ is_touched self.now.all self.now.names.items tree.now }
    {
        self.all || mentions(tree, self.names.as_slice())
    }
}

// The type of a column in the round behind these types. A formula that isn't touched still has none.
fn next_kind(
    alloc: Global,
    columns: &Columns,
    kinds: &[Kind],
    changed: &Changed,
    known: &KnownNames,
    column: u32,
    formula: Option<&Tree>,
) -> Result<Kind, NoMemory>
    requires not_root { 0 < column }
    requires counted { column < length columns.now }
    requires steady { IsSteady columns.now kinds.now changed.now.all changed.now.names.items column (option_map (λ tree. tree.now) formula) }
    requires known { HoldKnown known.now columns.now kinds.now }
    ensures { IfOk result (λ k. k ≡ next_kind_of columns.now kinds.now column (option_map (λ tree. tree.now) formula.entry) (slice_index_or kinds.now column kind.Unknown)) }
{
    let old = kind_at(kinds, column);
    match formula {
        Some(tree) if is_unknown(old) && changed.touches(tree) => {
            kind_unless_waiting(alloc, columns, kinds, known, column, tree)
        }
        _ => Ok(old),
    }
}

// Adds the type of the next column, where a declaration is one.
fn add_next(
    alloc: Global,
    columns: &Columns,
    kinds: &[Kind],
    changed: &Changed,
    known: &KnownNames,
    declaration: &Declaration,
    next: &mut Sequence<Kind>,
) -> Result<(), NoMemory>
    requires not_root { 0 < length next.old }
    requires room { length next.old + length (written_formulas (declaration.now ∷ [])) ≤ length columns.now }
    requires few { length columns.now ≤ 1000 }
    requires steady { AreSteady columns.now kinds.now changed.now.all changed.now.names.items (length next.old) (written_formulas (declaration.now ∷ [])) }
    requires known { HoldKnown known.now columns.now kinds.now }
    ensures { OnOk result (next.new ≡ next.old ++ next_kinds columns.now kinds.now (length next.old) (written_formulas (declaration.now ∷ []))) }
{
    let Declaration::Column(column) = declaration else {
        return Ok(());
    };
    let number = next.len() as u32;
    let formula = formula_in(&column.content);
    let kind = next_kind(alloc, columns, kinds, changed, known, number, formula)?;
    next.push(kind)
}

// The type that the root has in the round behind these types: the same.
fn root_kind(kinds: &[Kind]) -> Kind
    ensures { result ≡ slice_index_or kinds.now 0 kind.Unknown }
{
    match kinds.first() {
        Some(kind) => *kind,
        None => Kind::Unknown,
    }
}

// One round. Only formulas that the round before may have changed are typed.
fn round(
    alloc: Global,
    columns: &Columns,
    declarations: &[Declaration],
    kinds: &[Kind],
    changed: &Changed,
) -> Result<Sequence<Kind>, NoMemory>
    requires room { length (formulas_of declarations.now) ≤ length columns.now }
    requires few { length columns.now ≤ 1000 }
    requires steady { AreSteady columns.now kinds.now changed.now.all changed.now.names.items 0 (formulas_of declarations.now) }
    ensures { IfOk result (λ next. next ≡ round_of columns.now (formulas_of declarations.now) kinds.now) }
{
    let known = known_names(alloc, columns, kinds)?;
    let mut next = Sequence::new(alloc);
    next.push(root_kind(kinds))?;
    let mut rest = declarations;
    while let Some((declaration, behind)) = rest.split_first() {
        add_next(
            alloc,
            columns,
            kinds,
            changed,
            &known,
            declaration,
            &mut next,
        )?;
        rest = behind;
    }
    Ok(next)
}

// Notes the name of a column, where its types differ.
fn note_changed(
    columns: &Columns,
    old: &[Kind],
    new: &[Kind],
    number: u32,
    names: &mut Vec<Name>,
) -> Result<(), NoMemory>
    requires counted { number < length columns.now }
    requires before { AgreeBelow number names.old.items columns.now old.now new.now }
    ensures { OnOk result (AgreeBelow (number + 1) names.new.items columns.now old.now new.now) }
{
    if kind_at(old, number) != kind_at(new, number) {
        names.push(columns.name(number).copy()?)?;
    }
    Ok(())
}

// The names of the columns whose types differ.
fn changed_names(
    alloc: Global,
    columns: &Columns,
    old: &[Kind],
    new: &[Kind],
) -> Result<Changed, NoMemory>
    ensures names { IfOk result (λ changed. AgreeBut changed.names.items columns.now old.now new.now) }
    ensures some { IfOk result (λ changed. changed.all ≡ false) }
{
    let mut names = Vec::new(alloc);
    for number in 0..columns.count() {
        note_changed(columns, old, new, number, &mut names)?;
    }
    Ok(Changed { all: false, names })
}

/// The types of all columns by number: an object column's own objects, a state column's type, a formula column's declared type, and
/// that of its formula where none is declared, as far as the rounds find it.
///
/// In each round every formula column of no known type takes the type of its formula under the types of the round before; one whose
/// formula is refused stays unknown. There are as many rounds as formula columns; no later one is worked out once a round changes
/// nothing, and in a round no formula is typed anew that mentions no column whose type the round before has found, or that has no
/// type as long as that of another column isn't found.
pub fn final_kinds(
    alloc: Global,
    columns: &Columns,
    definition: &Definition,
) -> Result<Sequence<Kind>, NoMemory>
    requires { length (formulas_of definition.now.declarations) ≤ length columns.now }
    ensures { IfOk result (λ kinds. kinds ≡ final_kinds_of columns.now (formulas_of definition.now.declarations)) }
{
    let declarations = definition.declarations.as_slice();
    let mut kinds = column_kinds(alloc, columns)?;
    let mut changed = Changed {
        all: true,
        names: Vec::new(alloc),
    };
    for _ in 0..count_formulas(declarations) {
        let next = round(alloc, columns, declarations, kinds.as_slice(), &changed)?;
        if is_same(next.as_slice(), kinds.as_slice()) {
            return Ok(kinds);
        }
        changed = changed_names(alloc, columns, kinds.as_slice(), next.as_slice())?;
        kinds = next;
    }
    Ok(kinds)
}
