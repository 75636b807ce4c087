//! Laws of the definitions. Nothing here runs.
ghost use Rattle.std.specs.Prelude.{◌≡◌, ℕ, List, Some, None, ◌↔◌};
ghost use Rattle.grid_formulas.specs.Grammar.{IsFormula};
ghost use Rattle.grid_formulas.specs.Reading.{formula_of};
ghost use Rattle.grid_formulas.specs.declared.formula.Step.{Step};

/// What is read as a formula is in the grammar as that formula, and what is in it is read so.
pub fn what_is_read_is_the_grammar()
    ensures exact { (text : List ℕ) (steps : List Step) → formula_of text ≡ Some steps ↔ IsFormula text steps }
    ensures refused { (text : List ℕ) (steps : List Step) → formula_of text ≡ None → IsFormula text steps → ⊥ }
{}

/// A text is one formula at most.
pub fn a_text_has_one_formula()
    ensures { (text : List ℕ) (a b : List Step) → IsFormula text a → IsFormula text b → a ≡ b }
{}
