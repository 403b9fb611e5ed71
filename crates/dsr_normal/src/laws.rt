// Laws on the definitions, each the contract of a function.
ghost use Rattle.std.specs.Prelude.{◌≡◌, ◌↔◌, [], Bool, List, IsTrue};
ghost use Rattle.dsr_ir.specs.Formulas.{FormulaShape};
ghost use Rattle.dsr_ir.specs.declared.constraints.Atom.{Atom};
ghost use Rattle.dsr_meaning.specs.Counting.{IsIn, Enumerates};
ghost use Rattle.dsr_language_theory.specs.NormalForms.{is_same_atom, has_atom, different, distributed};
ghost use Rattle.dsr_normal.specs.Pushing.{pushed, spread};

/// Two atoms are told to be the same exactly where they are.
pub fn atoms_are_told_apart()
    ensures { (a b : Atom) → IsTrue (is_same_atom a b) ↔ (a ≡ b) }
{}

/// The different atoms of a list are all atoms that stand in it and no others, each once.
pub fn different_atoms_are_all()
    ensures found { (atoms : List Atom) (a : Atom) → IsTrue (has_atom atoms a) ↔ IsIn a atoms }
    ensures each_once { (atoms : List Atom) → Enumerates (λ a. IsIn a atoms) (different [] atoms) }
{}

/// The normal form is what is distributed once `not` and `given` are pushed down to the atoms.
pub fn pushed_formulas_are_distributed()
    ensures { (negated given : Bool) (formula : FormulaShape) → distributed negated given formula
        ≡ spread (pushed negated given formula) }
{}
