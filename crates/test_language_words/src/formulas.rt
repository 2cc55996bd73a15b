// Formulas of their texts.
ghost use Rattle.std.specs.Prelude.{◌<◌, length, IfSome};

use crate::form::{
    called, chosen, denied, gathered, negated, operation, quantified, step, up, with_part,
};
use crate::trouble::Trouble;
use sheet_columns::{Columns, Core};
use sheet_syntax::{Gathering, Quantifier, SyntaxRefusal, Tree, parse_formula};
use sheet_values::Name;
use sqlite_items::Items;
use std::alloc::Global;

/// A formula.
pub type Built = Result<Core, Trouble>;

/// What the names of a formula stand for.
#[derive(Clone, Copy)]
pub struct Scope<'a> {
    /// The columns.
    pub columns: &'a Columns,
    /// The column of `this`, or nothing in a procedure or a view.
    pub home: Option<u32>,
    /// The variables, with spaces between them, from position 0 on: `this`, or `caller operator` and what follows.
    pub names: &'a str,
}

/// The formula that a text stands for, where it is one and its names are known.
pub fn formula(alloc: Global, at: Scope, text: &str) -> Built {
    if text.len() > 8000 {
        return Err(Trouble::Unreadable);
    }
    match parse_formula(alloc, text.as_bytes()) {
        Ok(tree) => built(alloc, at, &tree),
        Err(SyntaxRefusal::NoMemory) => Err(Trouble::NoMemory),
        Err(_) => Err(Trouble::Unreadable),
    }
}

/// The formula of a tree.
pub fn built(alloc: Global, at: Scope, tree: &Tree) -> Built {
    let mut names = Vec::new(alloc);
    for word in at.names.split(' ') {
        names.push(name_of(alloc, word)?)?;
    }
    resolved(alloc, at, &mut names, tree)
}

// A name of at most 1,000 bytes.
fn name_of(alloc: Global, text: &str) -> Result<Name, Trouble> {
    if text.len() > 1000 {
        return Err(Trouble::Unreadable);
    }
    Ok(Name::of(alloc, text)?)
}

#[cycle(resolving)]
fn resolved(alloc: Global, at: Scope, names: &mut Vec<Name>, tree: &Tree) -> Built {
    match tree {
        Tree::Number(_, number) => Ok(Core::Number(*number)),
        Tree::Text(_, content) => Ok(Core::Text(content.copy()?)),
        Tree::Truth(_, truth) => Ok(Core::Truth(*truth)),
        Tree::Root(_) => Ok(Core::Root),
        Tree::This(_) | Tree::Caller(_) => Ok(Core::Variable(0)),
        Tree::Operator(_) => Ok(Core::Variable(1)),
        Tree::Name(_, name) => named(alloc, at, names.as_slice(), name),
        Tree::Child(_, of, name) => {
            let of = resolved(alloc, at, names, of.get());
            stepped(alloc, at, of, name)
        }
        Tree::Up(_, of) => up(alloc, resolved(alloc, at, names, of.get())),
        Tree::Negate(_, part) => negated(alloc, resolved(alloc, at, names, part.get())),
        Tree::Not(_, part) => denied(alloc, resolved(alloc, at, names, part.get())),
        Tree::Binary(_, operator, a, b) => {
            let left = resolved(alloc, at, names, a.get());
            let right = resolved(alloc, at, names, b.get());
            operation(alloc, *operator, left, right)
        }
        Tree::If(_, c, a, b) => {
            let condition = resolved(alloc, at, names, c.get());
            let left = resolved(alloc, at, names, a.get());
            let right = resolved(alloc, at, names, b.get());
            chosen(alloc, condition, left, right)
        }
        Tree::Set(_, parts) => set_of(alloc, at, names, parts.as_slice()),
        Tree::Call(_, function, set) => {
            called(alloc, *function, resolved(alloc, at, names, set.get()))
        }
        Tree::Gather(_, gathering, body, name, source) => {
            let source = resolved(alloc, at, names, source.get());
            let body = under(alloc, at, names, name, body.get());
            gathered(alloc, *gathering, source, body, Ok(Core::Truth(true)))
        }
        Tree::GatherWhere(_, gathering, body, name, source, condition) => {
            let source = resolved(alloc, at, names, source.get());
            let body = under(alloc, at, names, name, body.get());
            let condition = under(alloc, at, names, name, condition.get());
            gathered(alloc, *gathering, source, body, condition)
        }
        Tree::Test(_, quantifier, name, source, condition) => {
            let source = resolved(alloc, at, names, source.get());
            let condition = under(alloc, at, names, name, condition.get());
            quantified(alloc, quantifier_of(*quantifier), source, condition)
        }
    }
}

// A formula in which a name stands for one variable more.
#[cycle(resolving)]
fn under(alloc: Global, at: Scope, names: &mut Vec<Name>, name: &Name, tree: &Tree) -> Built {
    names.push(name.copy()?)?;
    let built = resolved(alloc, at, names, tree);
    names.pop();
    built
}

#[cycle(resolving)]
fn set_of(alloc: Global, at: Scope, names: &mut Vec<Name>, trees: &[Tree]) -> Built {
    let mut parts = Ok(Items::new(alloc));
    for tree in trees {
        parts = with_part(parts, resolved(alloc, at, names, tree));
    }
    Ok(Core::Set(parts?))
}

fn quantifier_of(quantifier: Quantifier) -> sheet_columns::Quantifier {
    match quantifier {
        Quantifier::Any => sheet_columns::Quantifier::Any,
        Quantifier::All => sheet_columns::Quantifier::All,
    }
}

fn stepped(alloc: Global, at: Scope, of: Built, name: &Name) -> Built {
    match column_named(at.columns, name.bytes()) {
        Some(column) => step(alloc, at.columns, of, column),
        None => Err(Trouble::UnknownName),
    }
}

// The innermost variable of a name.
fn position(names: &[Name], name: &Name) -> Option<u32> {
    let mut found = None;
    let mut at: u32 = 0;
    for other in names {
        if other.bytes() == name.bytes() {
            found = Some(at);
        }
        at = at.saturating_add(1);
    }
    found
}

/// The column of that name.
pub fn column_named(columns: &Columns, name: &[u8]) -> Option<u32>
    ensures { IfSome result (λ column. column < length columns.now) }
{
    for column in 0..columns.count() {
        if columns.name(column).bytes() == name {
            return Some(column);
        }
    }
    None
}

fn named(alloc: Global, at: Scope, names: &[Name], name: &Name) -> Built {
    match position(names, name) {
        Some(position) => Ok(Core::Variable(position)),
        None => reached(alloc, at, name),
    }
}

// A column of `this`, of its parent and so on, or of the root.
fn reached(alloc: Global, at: Scope, name: &Name) -> Built {
    let Some(column) = column_named(at.columns, name.bytes()) else {
        return Err(Trouble::UnknownName);
    };
    if column == 0 {
        return Err(Trouble::UnknownName);
    }
    let above = at.columns.above(column);
    let from = match at.home {
        None => Ok(Core::Root),
        Some(home) => climbed(alloc, at.columns, home, above),
    };
    step(alloc, at.columns, from, column)
}

// From an object of one column to what it stands under in the other.
fn climbed(alloc: Global, columns: &Columns, home: u32, above: u32) -> Built {
    let mut from = Ok(Core::Variable(0));
    let mut here = home;
    for _ in 0..8 {
        if here == above || here == 0 || here >= columns.count() {
            return from;
        }
        from = up(alloc, from);
        here = columns.above(here);
    }
    from
}
