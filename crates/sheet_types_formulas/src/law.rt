// What holds of all typed formulas.
ghost use Rattle.std.specs.Prelude.{◌≡◌, List, ℕ, Ok, Some, map};
ghost use Rattle.sheet_values.specs.declared.value.Kind.{Kind as TheKind};
ghost use Rattle.sheet_columns.specs.declared.tree.Node.{Node};
ghost use Rattle.sheet_syntax_trees.specs.declared.tree.Tree.{Tree as TheTree};
ghost use Rattle.sheet_types_formulas.specs.declared.scope.Typed.{Typed as TheTyped};
ghost use Rattle.sheet_types_formulas.specs.declared.scope.Variable.{Variable as TheVariable};
ghost use Rattle.sheet_types_formulas.specs.Names.{reach};
ghost use Rattle.sheet_types_formulas.specs.Typing.{typed as typed_tree};
ghost use Rattle.sheet_types_rules.specs.Formulas.{kind_in};

/// A typed formula has its type by the rules for resolved formulas.
pub fn typed_formulas_have_their_kinds()
    ensures { (n : List Node) (k : List TheKind) (v : List TheVariable) (e : TheTree) (t : TheTyped) → typed_tree e (reach n k v) ≡ Ok t → kind_in t.core n k (map (λ (x : TheVariable). x.kind) v) ≡ Some t.kind }
{}
