// What is listed for a literal is one list: a law, the contract of a function that does nothing.
ghost use Rattle.std.specs.Prelude.{◌≡◌, ℕ, List};
ghost use Rattle.dsr_ir.specs.declared.updates.Template.{Template};
ghost use Rattle.dsr_graph_theory.specs.Lists.{AreListedOf};
ghost use Rattle.dsr_graph_theory.specs.Owners.{Owner};

/// The templates that are listed for a literal are one list.
pub fn a_literal_has_one_list()
    ensures { (owner : Owner) (conj literal : ℕ) (templates others : List Template)
        → AreListedOf owner conj literal templates → AreListedOf owner conj literal others
        → templates ≡ others }
{}
