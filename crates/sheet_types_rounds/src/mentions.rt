// Which formulas mention a column.
ghost use Rattle.std.specs.Prelude.{◌≡◌, ◌||◌};
ghost use Rattle.sheet_types_rounds.specs.Mentions.{is_among as is_among_names, mentions as mentions_one, mentions_list};

use sheet_syntax_trees::Tree;
use sheet_values::Name;

// Whether it is one of these names.
fn is_among(names: &[Name], name: &[u8]) -> bool
    ensures { result ≡ is_among_names names.now name.now }
{
    names.iter().any(|one| name == one.bytes())
}

/// Whether a formula mentions one of these names, by itself or behind a dot.
#[cycle(formulas)]
pub(crate) fn mentions(tree: &Tree, names: &[Name]) -> bool
    ensures { result ≡ mentions_one tree.now names.now }
{
    match tree {
        Tree::Number(_, _) => false,
        Tree::Text(_, _) => false,
        Tree::Truth(_, _) => false,
        Tree::Root(_) => false,
        Tree::This(_) => false,
        Tree::Caller(_) => false,
        Tree::Operator(_) => false,
        Tree::Name(_, name) => is_among(names, name.bytes()),
        Tree::Child(_, object, name) => child_mentions(object.get(), name, names),
        Tree::Up(_, object) => mentions(object.get(), names),
        Tree::Negate(_, part) => mentions(part.get(), names),
        Tree::Not(_, part) => mentions(part.get(), names),
        Tree::Binary(_, _, a, b) => either(a.get(), b.get(), names),
        Tree::If(_, c, a, b) => one_of_three(c.get(), a.get(), b.get(), names),
        Tree::Set(_, parts) => any_mentions(parts.as_slice(), names),
        Tree::Call(_, _, set) => mentions(set.get(), names),
        Tree::Gather(_, _, body, _, source) => either(source.get(), body.get(), names),
        Tree::GatherWhere(_, _, body, _, source, condition) => {
            one_of_three(source.get(), body.get(), condition.get(), names)
        }
        Tree::Test(_, _, _, source, condition) => either(source.get(), condition.get(), names),
    }
}

#[cycle(formulas)]
fn either(a: &Tree, b: &Tree, names: &[Name]) -> bool
    ensures { result ≡ (mentions_one a.now names.now || mentions_one b.now names.now) }
{
    mentions(a, names) || mentions(b, names)
}

#[cycle(formulas)]
fn one_of_three(a: &Tree, b: &Tree, c: &Tree, names: &[Name]) -> bool
    ensures { result ≡ (mentions_one a.now names.now || (mentions_one b.now names.now || mentions_one c.now names.now)) }
{
    mentions(a, names) || either(b, c, names)
}

#[cycle(formulas)]
fn child_mentions(object: &Tree, name: &Name, names: &[Name]) -> bool
    ensures { result ≡ (is_among_names names.now name.now || mentions_one object.now names.now) }
{
    is_among(names, name.bytes()) || mentions(object, names)
}

// Whether one of some formulas mentions one of these names.
#[cycle(formulas)]
fn any_mentions(parts: &[Tree], names: &[Name]) -> bool
    ensures { result ≡ mentions_list parts.now names.now }
{
    for part in parts {
        if mentions(part, names) {
            return true;
        }
    }
    false
}
