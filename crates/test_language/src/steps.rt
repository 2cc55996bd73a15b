// What statements do.
use crate::cycles::{made, one};
use crate::sheet::{
    OPERATOR, Sheet, Told, add_line, allowing, called, counts, opened, run, schema, scope,
};
use sheet_columns::Column;
use sheet_meaning::Schema;
use sheet_values::{Kind, Value};
use std::alloc::Global;
use test_language_words::{
    Body, Scope, Stated, Trouble, add, bind, branch, check, delete, formula, new, no_statements,
    remove, repeat, reply, root_column, set, then, with_column, with_formula, with_objects,
    with_state,
};

/// A workbook with objects T that hold one number k each, a set xs and a number n of the root, and formulas over them.
pub fn counting(alloc: Global) -> Result<Schema, Trouble> {
    let zero = Column::State {
        kind: Kind::Number,
        one: true,
        first: Some(Value::Number(0)),
    };
    let tree = with_objects(alloc, root_column(alloc), "$", "T");
    let tree = with_state(alloc, tree, "T", "k", Kind::Number, true);
    let tree = with_state(alloc, tree, "$", "xs", Kind::Number, false);
    let tree = with_column(alloc, tree, "$", "n", zero);
    let tree = with_formula(alloc, tree, "$", "Loop", Kind::Number);
    let tree = with_formula(alloc, tree, "$", "P", Kind::Number);
    let tree = with_formula(alloc, tree, "$", "total", Kind::Number);
    let tree = with_formula(alloc, tree, "$", "prices", Kind::Number);
    let texts = [
        ("Loop", "Loop"),
        ("P", "only(xs)"),
        ("total", "sum(t.k : t in T)"),
        ("prices", "count(T.k)"),
    ];
    schema(alloc, tree, &texts)
}

fn alone(alloc: Global, statement: Stated) -> Body {
    then(no_statements(alloc), statement)
}

fn add_equal_prices(alloc: Global, schema: &Schema, out: &mut String) -> Result<(), Trouble> {
    let mut sheet = opened(alloc, schema)?;
    add_line(out, "a line of price 5", made(alloc, &mut sheet, 5))?;
    add_line(out, "a line of price 5", made(alloc, &mut sheet, 5))?;
    add_line(out, "total", one(alloc, &mut sheet, "total"))?;
    add_line(out, "prices", one(alloc, &mut sheet, "prices"))
}

fn add_exact_sums(alloc: Global, schema: &Schema, out: &mut String) -> Result<(), Trouble> {
    let mut sheet = opened(alloc, schema)?;
    let told = made(alloc, &mut sheet, i64::MAX);
    add_line(out, "the greatest number", told)?;
    add_line(out, "1 more", made(alloc, &mut sheet, 1))?;
    add_line(out, "the sum of two", one(alloc, &mut sheet, "total"))?;
    add_line(out, "1 less", made(alloc, &mut sheet, -1))?;
    add_line(out, "the sum of three", one(alloc, &mut sheet, "total"))
}

fn add_only(alloc: Global, schema: &Schema, out: &mut String) -> Result<(), Trouble> {
    let mut sheet = opened(alloc, schema)?;
    let at = scope(schema, "caller operator");
    add_line(out, "P of none", one(alloc, &mut sheet, "P"))?;
    let two = alone(alloc, add(alloc, at, 1, "{1, 2}", "xs"));
    add_line(out, "add {1, 2} to xs", run(alloc, &mut sheet, two))?;
    add_line(out, "P of two", one(alloc, &mut sheet, "P"))?;
    let less = alone(alloc, remove(alloc, at, 1, "1", "xs"));
    add_line(out, "remove 1 from xs", run(alloc, &mut sheet, less))?;
    add_line(out, "P of one", one(alloc, &mut sheet, "P"))
}

fn filled(alloc: Global, at: Scope) -> Body {
    let body = alone(alloc, new(alloc, at, 1, "T"));
    let body = then(body, set(alloc, at, 2, "t.k", "3"));
    then(body, reply(alloc, at, 3, "t"))
}

// A refused `new` draws no number.
fn add_unfilled(alloc: Global, schema: &Schema, out: &mut String) -> Result<(), Trouble> {
    let mut sheet = opened(alloc, schema)?;
    let at = scope(schema, "caller operator t");
    let body = alone(alloc, new(alloc, at, 1, "T"));
    add_line(out, "new t = T", run(alloc, &mut sheet, body))?;
    add_line(out, "kept results and live objects", counts(alloc, &sheet))?;
    let told = run(alloc, &mut sheet, filled(alloc, at));
    add_line(out, "new t = T, set t.k = 3, reply t", told)?;
    add_line(out, "kept results and live objects", counts(alloc, &sheet))
}

// `let x = T, delete x`
fn gone(alloc: Global, at: Scope) -> Body {
    let body = alone(alloc, bind(alloc, at, 1, "T"));
    then(body, delete(alloc, at, 2, "x"))
}

fn add_gone(alloc: Global, schema: &Schema, out: &mut String) -> Result<(), Trouble> {
    let mut sheet = opened(alloc, schema)?;
    let at = scope(schema, "caller operator x");
    add_line(out, "a T of 1", made(alloc, &mut sheet, 1))?;
    add_line(out, "a T of 2", made(alloc, &mut sheet, 2))?;
    let body = then(gone(alloc, at), check(alloc, at, 3, "false", "kept"));
    let told = run(alloc, &mut sheet, body);
    add_line(out, "let x = T, delete x, check false", told)?;
    let body = then(gone(alloc, at), reply(alloc, at, 3, "count(x)"));
    let told = run(alloc, &mut sheet, body);
    add_line(out, "let x = T, delete x, reply count(x)", told)?;
    add_line(out, "kept results and live objects", counts(alloc, &sheet))?;
    let body = alone(alloc, bind(alloc, at, 1, "T"));
    let body = then(body, set(alloc, at, 2, "x.k", "1"));
    add_line(out, "let x = T, set x.k = 1", run(alloc, &mut sheet, body))
}

// `for t in T { delete T, set n = n + 1 }, reply n`
fn over_objects(alloc: Global, schema: &Schema) -> Body {
    let at = scope(schema, "caller operator t");
    let turn = alone(alloc, delete(alloc, at, 2, "T"));
    let turn = then(turn, set(alloc, at, 3, "n", "n + 1"));
    let at = scope(schema, "caller operator");
    let body = alone(alloc, repeat(alloc, at, 1, "T", turn));
    then(body, reply(alloc, at, 4, "n"))
}

// `set xs = {1, 2, 3}, for x in xs { remove xs from xs, set n = n + 1 }, reply n`
fn over_numbers(alloc: Global, schema: &Schema) -> Body {
    let at = scope(schema, "caller operator x");
    let turn = alone(alloc, remove(alloc, at, 3, "xs", "xs"));
    let turn = then(turn, set(alloc, at, 4, "n", "n + 1"));
    let at = scope(schema, "caller operator");
    let body = alone(alloc, set(alloc, at, 1, "xs", "{1, 2, 3}"));
    let body = then(body, repeat(alloc, at, 2, "xs", turn));
    then(body, reply(alloc, at, 5, "n"))
}

fn add_turns(alloc: Global, schema: &Schema, out: &mut String) -> Result<(), Trouble> {
    let mut sheet = opened(alloc, schema)?;
    add_line(out, "a T of 1", made(alloc, &mut sheet, 1))?;
    add_line(out, "a T of 2", made(alloc, &mut sheet, 2))?;
    let told = run(alloc, &mut sheet, over_objects(alloc, schema));
    add_line(out, "for t in T { delete T, set n = n + 1 }, reply n", told)?;
    let told = run(alloc, &mut sheet, over_numbers(alloc, schema));
    let title = "for x in xs { remove xs from xs, set n = n + 1 }, reply n";
    add_line(out, title, told)
}

// `if true { let a = 5 }, let b = 7, reply b`
fn bound(alloc: Global, schema: &Schema) -> Body {
    let at = scope(schema, "caller operator b");
    let inner = alone(alloc, bind(alloc, at, 2, "5"));
    let choice = branch(alloc, at, 1, "true", inner, no_statements(alloc));
    let body = then(alone(alloc, choice), bind(alloc, at, 3, "7"));
    then(body, reply(alloc, at, 4, "b"))
}

// `if false { reply 1 } else { reply 2 }`
fn otherwise(alloc: Global, at: Scope) -> Body {
    let left = alone(alloc, reply(alloc, at, 2, "1"));
    let right = alone(alloc, reply(alloc, at, 3, "2"));
    alone(alloc, branch(alloc, at, 1, "false", left, right))
}

fn add_blocks(alloc: Global, schema: &Schema, out: &mut String) -> Result<(), Trouble> {
    let mut sheet = opened(alloc, schema)?;
    let at = scope(schema, "caller operator");
    let told = run(alloc, &mut sheet, bound(alloc, schema));
    add_line(out, "if true { let a = 5 }, let b = 7, reply b", told)?;
    let told = run(alloc, &mut sheet, otherwise(alloc, at));
    add_line(out, "if false { reply 1 } else { reply 2 }", told)?;
    let body = alone(alloc, reply(alloc, at, 1, "1"));
    let body = then(body, reply(alloc, at, 2, "2"));
    add_line(out, "reply 1, reply 2", run(alloc, &mut sheet, body))?;
    let told = run(alloc, &mut sheet, no_statements(alloc));
    add_line(out, "no statement", told)
}

// A procedure of no statements that a formula allows.
fn allowed(alloc: Global, sheet: &mut Sheet, text: &str) -> Told {
    let allow = formula(alloc, scope(sheet.schema, "caller operator"), text);
    let procedure = allowing(allow, no_statements(alloc));
    called(alloc, sheet, procedure, OPERATOR, &[])
}

fn add_refusals(alloc: Global, schema: &Schema, out: &mut String) -> Result<(), Trouble> {
    let mut sheet = opened(alloc, schema)?;
    let at = scope(schema, "caller operator");
    let told = allowed(alloc, &mut sheet, "1 / 0 = 1");
    add_line(out, "allow 1 / 0 = 1", told)?;
    add_line(out, "allow false", allowed(alloc, &mut sheet, "false"))?;
    let body = alone(alloc, set(alloc, at, 1, "n", "n + 1"));
    let body = then(body, reply(alloc, at, 2, "1 / 0"));
    let told = run(alloc, &mut sheet, body);
    add_line(out, "set n = n + 1, reply 1 / 0", told)?;
    let body = alone(alloc, reply(alloc, at, 1, "n"));
    add_line(out, "reply n", run(alloc, &mut sheet, body))?;
    let body = alone(alloc, set(alloc, at, 1, "{}.k", "1 / 0"));
    add_line(out, "set {}.k = 1 / 0", run(alloc, &mut sheet, body))?;
    let body = alone(alloc, set(alloc, at, 1, "{}.k", "Loop"));
    add_line(out, "set {}.k = Loop", run(alloc, &mut sheet, body))
}

// Five texts of 991 bytes, as a set.
fn five_texts(alloc: Global) -> Result<String, Trouble> {
    let mut letters = String::new(alloc);
    for _ in 0..990 {
        letters.push_str("x")?;
    }
    Ok(format!(in alloc;
        "{{\"{letters}a\", \"{letters}b\", \"{letters}c\", \"{letters}d\", \"{letters}e\"}}"
    )?)
}

fn add_heavy(alloc: Global, schema: &Schema, out: &mut String) -> Result<(), Trouble> {
    let mut sheet = opened(alloc, schema)?;
    let texts = five_texts(alloc)?;
    let at = scope(schema, "caller operator");
    let body = alone(alloc, reply(alloc, at, 1, texts.as_str()));
    let told = run(alloc, &mut sheet, body);
    add_line(out, "a reply of five texts of 991 bytes", told)
}

fn add_all(alloc: Global, schema: &Schema, out: &mut String) -> Result<(), Trouble> {
    add_equal_prices(alloc, schema, out)?;
    add_exact_sums(alloc, schema, out)?;
    add_only(alloc, schema, out)?;
    add_unfilled(alloc, schema, out)?;
    add_gone(alloc, schema, out)?;
    add_turns(alloc, schema, out)?;
    add_blocks(alloc, schema, out)?;
    add_refusals(alloc, schema, out)?;
    add_heavy(alloc, schema, out)
}

/// The lines of statements.
pub fn add_lines(alloc: Global, out: &mut String) -> Result<(), Trouble> {
    let schema = counting(alloc)?;
    add_all(alloc, &schema, out)
}
