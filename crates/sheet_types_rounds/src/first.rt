// What columns tell by themselves.
ghost use Rattle.std.specs.Prelude.{◌≡◌, ◌≤◌, length, true, IfOk, option_map};
ghost use Rattle.sheet_types_rules.specs.Columns.{kind_of_column as kind_by_itself, kinds_from};
ghost use Rattle.sheet_types_rounds.specs.Rounds.{formula_in as formula_of_content, count_formulas as count_all, written_formulas, is_unknown as has_no_kind};

use sheet_columns::{Column, Columns, Sequence};
use sheet_define_data::{Content, Declaration};
use sheet_syntax_trees::Tree;
use sheet_values::{Kind, NoMemory};
use std::alloc::Global;

fn kind_of_column(number: u32, column: &Column) -> Kind
    ensures { result ≡ kind_by_itself number column.now }
{
    match column {
        Column::Object => Kind::Object(number),
        Column::State { kind, .. } => *kind,
        Column::Formula { kind } => *kind,
    }
}

/// The types that the columns have by themselves, by number: an object column's own objects, a state column's type, and a formula
/// column's, as far as it is known.
pub fn column_kinds(alloc: Global, columns: &Columns) -> Result<Sequence<Kind>, NoMemory>
    ensures kinds { IfOk result (λ kinds. kinds ≡ kinds_from 0 columns.now) }
    ensures few { length columns.now ≤ 1000 }
{
    let mut kinds = Sequence::new(alloc);
    for number in 0..columns.count() {
        kinds.push(kind_of_column(number, columns.get(number)))?;
    }
    Ok(kinds)
}

/// Whether no type is known.
pub(crate) fn is_unknown(kind: Kind) -> bool
    ensures { result ≡ has_no_kind kind }
{
    matches!(kind, Kind::Unknown)
}

/// The formula that a column is written with.
pub fn formula_in(content: &Content) -> Option<&Tree>
    ensures { option_map (λ tree. tree.now) result ≡ formula_of_content content.now }
{
    match content {
        Content::Formula { formula, .. } => Some(formula),
        _ => None,
    }
}

/// How many formula columns there are.
pub(crate) fn count_formulas(declarations: &[Declaration]) -> usize
    ensures { result ≡ count_all (written_formulas declarations.now) }
{
    let mut count = 0;
    let mut rest = declarations;
    while let Some((declaration, behind)) = rest.split_first() {
        if let Declaration::Column(column) = declaration {
            if formula_in(&column.content).is_some() {
                count += 1;
            }
        }
        rest = behind;
    }
    count
}

/// Whether two lists of types are the same.
pub(crate) fn is_same(left: &[Kind], right: &[Kind]) -> bool
    ensures { result ≡ true → left.now ≡ right.now }
{
    let mut left = left;
    let mut right = right;
    while let (Some((a, more)), Some((b, others))) = (left.split_first(), right.split_first()) {
        if *a != *b {
            return false;
        }
        left = more;
        right = others;
    }
    left.is_empty() && right.is_empty()
}
