// What holds of printed formulas.
ghost use Rattle.std.specs.Prelude.{ℕ, List};
ghost use Rattle.sheet_syntax_trees.specs.declared.tree.Tree.{Tree};
ghost use Rattle.sheet_syntax_trees.specs.Texts.{StandsFor, on_one_line};
ghost use Rattle.sheet_syntax_trees.specs.Printing.{formula_text};

/// The printed text of a formula that some text stands for stands for that formula, in one line.
pub fn a_printed_formula_reads_back()
    ensures { (text : List ℕ) (e : Tree) → StandsFor text e → StandsFor (formula_text e) (on_one_line e) }
{}
