// The tree of columns.
ghost use Rattle.std.specs.Prelude.{◌≡◌, ◌<◌, ◌≤◌, ◌+◌, ◌↔◌, ◌++◌, ◌∷◌, [], length, Some, None, Err, IfOk, OnOk, OnErr, ℕ, option_map, string_bytes};
ghost use Rattle.sheet_columns.specs.Contents.{holds_objects, with_column};
ghost use Rattle.sheet_columns.specs.Tree.{root, column_of, name_of, above_of, child_named, depth, path, HasFittingFirst, IsTree};

use crate::children::Children;
use sheet_values::{Kind, Name, NoMemory, Value};
use std::alloc::Global;
use std::marker::Model;

/// What a column holds.
#[derive(Debug, Drop)]
pub enum Column {
    /// Objects.
    Object,
    /// Stored sets, of one value each where `one` holds. A new object's cell starts with `first`, or empty without it.
    State {
        kind: Kind,
        one: bool,
        first: Option<Value>,
    },
    /// Worked-out sets.
    Formula {
        kind: Kind,
    },
}

/// Why a column isn't added.
#[derive(Clone, Copy, Debug, PartialEq, Eq)]
pub enum ColumnRefusal {
    /// This column stands directly under the same one and has the name.
    NameTaken(u32),
    /// It would stand nine columns below the root.
    TooDeep,
    /// There are 1,000 columns.
    TooMany,
    NoMemory,
}

impl From<NoMemory> for ColumnRefusal {
    ghost use Rattle.std.specs.Prelude.{◌≡◌};
    ghost use Rattle.sheet_columns.specs.declared.tree.ColumnRefusal.TheVariants as refused;

    ghost from_gives = { λ _ refusal. refusal ≡ refused.NoMemory };

    fn from(_: NoMemory) -> ColumnRefusal {
        ColumnRefusal::NoMemory
    }
}

/// How many columns there are at most, with the root.
pub const MAX_COLUMNS: u32 = 1000;

/// How many columns below the root a column stands at most.
pub const MAX_DEPTH: u32 = 8;

#[derive(Debug, Drop)]
struct Node {
    above: Option<u32>,
    name: Name,
    column: Column,
}

/// The tree of columns. The root has the number 0, and the others are numbered in the order of their coming.
#[derive(Debug, Drop)]
pub struct Columns {
    nodes: Vec<Node>,
    children: Children,
}

impl Model for Columns {
    ghost use Rattle.std.specs.Prelude.{List};
    ghost use Rattle.sheet_columns.specs.declared.tree.Node.{Node as TheNode};
    ghost use Rattle.sheet_columns.specs.Children.{AreChildren};
    ghost use Rattle.sheet_columns.specs.Tree.{IsTree};

    ghost Value = { List TheNode };

    ghost view = { λ c. c.nodes.items };

    ghost invariant = { λ c. IsTree c.nodes.items × AreChildren c.children c.nodes.items };
}

impl Columns {
    /// The root alone.
    pub fn new(alloc: Global) -> Result<Columns, NoMemory>
        ensures { IfOk result (λ columns. columns ≡ root ∷ []) }
    {
        let mut nodes = Vec::new(alloc);
        nodes.push(Node {
            above: None,
            name: Name::of(alloc, "$")?,
            column: Column::Object,
        })?;
        Ok(Columns {
            nodes,
            children: Children::new(alloc)?,
        })
    }

    /// Adds a column directly under the object column `above`, and gives its number, which is the old count. The name has at
    /// most 63 bytes, and a first value is of the column's kind and no object. Nothing changes after a refusal.
    pub fn add(&mut self, above: u32, name: Name, column: Column) -> Result<u32, ColumnRefusal>
        requires above_object { column_of self.old above ≡ Some Column.Object }
        requires short { length name ≤ 63 }
        requires fitting { HasFittingFirst column }
        ensures number { IfOk result (λ number. number ≡ length self.old) }
        ensures added { OnOk result
            (self.new ≡ self.old ++ record { above = Some above; name = name; column = column } ∷ []) }
        ensures free { OnOk result (child_named self.old above name ≡ None) }
        ensures shallow { OnOk result (depth self.old above < 8) }
        ensures few { OnOk result (length self.old < 1000) }
        ensures name_taken { (sibling : ℕ) → (result ≡ Err (ColumnRefusal.NameTaken sibling))
            ↔ (child_named self.old above name ≡ Some sibling) }
        ensures too_deep { (result ≡ Err ColumnRefusal.TooDeep)
            ↔ ((child_named self.old above name ≡ None) × (depth self.old above ≡ 8)) }
        ensures too_many { (result ≡ Err ColumnRefusal.TooMany)
            ↔ ((child_named self.old above name ≡ None) × (depth self.old above < 8) × (length self.old ≡ 1000)) }
        ensures err { OnErr result (self.new ≡ self.old) }
    {
        match self.child_named(above, name.bytes()) {
            Some(sibling) => return Err(ColumnRefusal::NameTaken(sibling)),
            None => {}
        }
        if depth_of(self.nodes.as_slice(), above as usize) >= MAX_DEPTH {
            return Err(ColumnRefusal::TooDeep);
        }
        let number = self.nodes.len() as u32;
        if number >= MAX_COLUMNS {
            return Err(ColumnRefusal::TooMany);
        }
        self.push(above, name, column)?;
        Ok(number)
    }

    // Adds the column at the end of the list, and its name to those under `above`.
    fn push(&mut self, above: u32, name: Name, column: Column) -> Result<(), NoMemory>
        requires above_object { column_of self.old above ≡ Some Column.Object }
        requires free { child_named self.old above name ≡ None }
        requires shallow { depth self.old above < 8 }
        requires few { length self.old < 1000 }
        requires short { length name ≤ 63 }
        requires fitting { HasFittingFirst column }
        ensures ok { OnOk result
            (self.new ≡ self.old ++ record { above = Some above; name = name; column = column } ∷ []) }
        ensures err { OnErr result (self.new ≡ self.old) }
    {
        let bytes = Vec::from_slice(*self.nodes.allocator(), name.bytes())?;
        let number = self.nodes.len() as u32;
        self.nodes.reserve(1)?;
        self.children.add(above, bytes, number)?;
        self.nodes.push_reserved(Node {
            above: Some(above),
            name,
            column,
        });
        Ok(())
    }

    /// Changes what a column holds. An object column holds objects still, and no other column does. A first value is of the
    /// column's kind and no object.
    pub fn set(&mut self, column: u32, content: Column)
        requires alike { option_map holds_objects (column_of self.old column) ≡ Some (holds_objects content) }
        requires fitting { HasFittingFirst content }
        ensures { self.new ≡ with_column self.old column content }
    {
        let node = &mut self.nodes[column as usize];
        node.column = content;
    }

    /// How many columns there are, with the root: 1 to 1,000.
    pub fn count(&self) -> u32
        ensures count { result ≡ length self.now }
        ensures tree { IsTree self.now }
    {
        self.nodes.len() as u32
    }

    /// What the column holds. Numbers are below the count.
    pub fn get(&self, column: u32) -> &Column
        requires { column < length self.now }
        ensures { column_of self.now column ≡ Some result.now }
    {
        &self.nodes[column as usize].column
    }

    /// The column's name; the root's is `$`.
    pub fn name(&self, column: u32) -> &Name
        requires { column < length self.now }
        ensures { name_of self.now column ≡ Some result.now }
    {
        &self.nodes[column as usize].name
    }

    /// The column that this one, which isn't the root, stands directly under.
    pub fn above(&self, column: u32) -> u32
        requires not_root { 0 < column }
        requires counted { column < length self.now }
        ensures above { above_of self.now column ≡ Some result }
        ensures smaller { result < column }
    {
        let node = &self.nodes[column as usize];
        match node.above {
            Some(above) => above,
            None => unreachable!(),
        }
    }

    /// The column that stands directly under `above` and has the name. It takes no memory.
    pub fn child_named(&self, above: u32, name: &[u8]) -> Option<u32>
        ensures { result ≡ child_named self.now above name.now }
    {
        self.children.find(above, name)
    }

    /// The names from below the root, joined by dots; `$` for the root.
    pub fn path_text(&self, column: u32) -> Result<Name, NoMemory>
        requires { column < length self.now }
        ensures { IfOk result (λ text. text ≡ path self.now column) }
    {
        let alloc = *self.nodes.allocator();
        let text = path_of(alloc, self.nodes.as_slice(), column as usize)?;
        Name::of(alloc, text.as_str())
    }
}

// How many columns below the root the column stands.
fn depth_of(nodes: &[Node], column: usize) -> u32
    requires tree { IsTree nodes.now }
    requires counted { column < length nodes.now }
    ensures { result ≡ depth nodes.now column }
{
    let node = &nodes[column];
    match node.above {
        Some(above) => depth_of(nodes, above as usize) + 1,
        None => 0,
    }
}

// The column's path, from that of the column above.
fn path_of(alloc: Global, nodes: &[Node], column: usize) -> Result<String, NoMemory>
    requires tree { IsTree nodes.now }
    requires counted { column < length nodes.now }
    ensures { IfOk result (λ text. string_bytes text ≡ path nodes.now column) }
{
    let node = &nodes[column];
    match node.above {
        None => Ok(String::from_str(alloc, "$")?),
        Some(above) => {
            if above == 0 {
                return Ok(String::from_str(alloc, node.name.text())?);
            }
            let mut text = path_of(alloc, nodes, above as usize)?;
            text.push_str(".")?;
            text.push_str(node.name.text())?;
            Ok(text)
        }
    }
}
