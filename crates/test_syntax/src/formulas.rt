// The formulas of texts.
ghost use Rattle.std.specs.Prelude.{◌≤◌, length as count};
ghost use Rattle.sheet_syntax_trees.specs.declared.token.Tokens.{Tokens};

use crate::refused::refused;
use sheet_syntax::{Tokens, Tree, lex, parse_at, parse_formula, print_formula};
use sheet_values::NoMemory;
use std::alloc::Global;

/// The printed text of the formula that a text stands for, or why it is refused.
pub fn printed(alloc: Global, text: &[u8]) -> Result<String, NoMemory>
    requires { count text.now ≤ 4294967294 }
{
    match parse_formula(alloc, text) {
        Ok(tree) => shown(alloc, &tree),
        Err(refusal) => refused(alloc, refusal),
    }
}

/// How many bytes the printed text of a formula has.
pub fn length(alloc: Global, text: &[u8]) -> Result<String, NoMemory>
    requires { count text.now ≤ 4294967294 }
{
    match parse_formula(alloc, text) {
        Ok(tree) => {
            let out = print_formula(alloc, &tree)?;
            Ok(format!(in alloc; "{} bytes", out.len())?)
        }
        Err(refusal) => refused(alloc, refusal),
    }
}

/// The formula that begins at each token, with the number of the token behind it, and what is read at the end.
pub fn from_each(alloc: Global, text: &[u8]) -> Result<String, NoMemory>
    requires { count text.now ≤ 4294967294 }
{
    let tokens = match lex(alloc, text) {
        Ok(tokens) => tokens,
        Err(refusal) => return refused(alloc, refusal),
    };
    let mut list = String::new(alloc);
    for from in 0..tokens.len() {
        let told = from_one(alloc, &tokens, from)?;
        list.push_str(told.as_str())?;
        list.push_str("; ")?;
    }
    let last = from_one(alloc, &tokens, tokens.len())?;
    list.push_str(last.as_str())?;
    Ok(list)
}

fn from_one(alloc: Global, tokens: &Tokens, from: usize) -> Result<String, NoMemory>
    requires { from ≤ count tokens.now.list }
{
    match parse_at(alloc, tokens, from) {
        Ok((tree, behind)) => {
            let formula = shown(alloc, &tree)?;
            Ok(format!(in alloc; "{from}: {formula} up to {behind}")?)
        }
        Err(refusal) => {
            let why = refused(alloc, refusal)?;
            Ok(format!(in alloc; "{from}: {why}")?)
        }
    }
}

fn shown(alloc: Global, tree: &Tree) -> Result<String, NoMemory> {
    let out = print_formula(alloc, tree)?;
    let text = str::from_utf8(out.as_slice()).unwrap_or("?");
    Ok(format!(in alloc; "{text}")?)
}
