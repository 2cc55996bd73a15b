// What holds of all formulas.
ghost use Rattle.std.specs.Prelude.{◌≡◌, ◌∷◌, ℕ, List, Ok, Err};
ghost use Rattle.sheet_syntax_trees.specs.declared.token.Token.{Token};
ghost use Rattle.sheet_syntax_trees.specs.declared.tree.Tree.{Tree};
ghost use Rattle.sheet_syntax_trees.specs.declared.tree.Formed.{Formed};
ghost use Rattle.sheet_syntax_trees.specs.Grammar.{IsFormula};
ghost use Rattle.sheet_syntax_trees.specs.Reading.{formula_at, whole_formula};
ghost use Rattle.sheet_syntax_trees.specs.Refusals.{IsBlocked, IsFirst, IsTooNested};
ghost use Rattle.sheet_syntax_trees.specs.declared.token.SyntaxRefusal.TheVariants.{Expected, TooNested};
ghost use Rattle.sheet_syntax_trees.specs.Order.{InOrder};

/// Tokens stand for one tree at most.
pub fn tokens_stand_for_one_tree()
    ensures { (tokens : List Token) (d e : Tree) → IsFormula tokens d → IsFormula tokens e → d ≡ e }
{}

/// Where tokens are refused for what stands there, no formula begins with the tokens up to and with that one.
pub fn refused_tokens_begin_no_formula()
    ensures { (end : ℕ) (tokens : List Token) (o : ℕ) → whole_formula end tokens ≡ Err (Expected o) → IsBlocked end tokens o }
{}

/// Tokens are taken as long as they begin a formula: the one behind a formula that was read goes on with none.
pub fn tokens_are_taken_as_long_as_they_begin_a_formula()
    ensures { (end : ℕ) (tokens : List Token) (f : Formed) (t : Token) (rest : List Token) → formula_at 32 32 end tokens ≡ Ok (f, t ∷ rest) → IsBlocked end tokens t.start }
{}

/// Where tokens in order are refused for what stands there, it is at the first token such that the tokens up to and with
/// it begin no formula: those before it begin one.
pub fn tokens_are_refused_at_the_first_that_goes_on_with_no_formula()
    ensures { (end : ℕ) (tokens : List Token) (o : ℕ) → InOrder 0 end tokens → whole_formula end tokens ≡ Err (Expected o) → IsFirst end tokens o }
{}

/// What is refused as nested too deeply is the 33rd open bracket or a form of depth 33.
pub fn what_is_nested_too_deeply_is_a_bracket_or_a_form()
    ensures { (end : ℕ) (tokens : List Token) (o : ℕ) → whole_formula end tokens ≡ Err (TooNested o) → IsTooNested end tokens o }
{}
