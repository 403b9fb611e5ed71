// What lists are, each law the contract of a function that does nothing.
ghost use Rattle.std.specs.Prelude.{◌≡◌, ◌≤◌, ◌<◌, ◌++◌, ℕ, List, Some, length, slice_get};
ghost use Rattle.dsr_ir.specs.declared.constraints.Atom.{Atom};
ghost use Rattle.dsr_ir.specs.declared.updates.Template.{Template};
ghost use Rattle.dsr_graph_theory.specs.Lists.{AreTaken, StandsBefore};
ghost use Rattle.dsr_graph_theory.specs.Owners.{Owner};
ghost use Rattle.dsr_graph_theory.specs.Sides.{IsKept};
ghost use Rattle.dsr_meaning.specs.Counting.{IsDistinct, IsIn};

/// Templates that are taken are kept, are among those of which they are taken, stand once and in
/// their order, and are no more than were asked for. Each one that is kept and stands before one
/// that is taken is taken too, or was before. Where they are fewer than were asked for, so is each
/// one that is kept.
pub fn the_first_kept_are_taken()
    ensures kept { (owner : Owner) (atom : Atom) (n : ℕ) (before all listed : List Template)
        → AreTaken owner atom n before all listed → (t : Template) → IsIn t listed → IsKept owner atom t }
    ensures among { (owner : Owner) (atom : Atom) (n : ℕ) (before all listed : List Template)
        → AreTaken owner atom n before all listed → (t : Template) → IsIn t listed → IsIn t all }
    ensures once { (owner : Owner) (atom : Atom) (n : ℕ) (before all listed : List Template)
        → AreTaken owner atom n before all listed → IsDistinct listed }
    ensures few { (owner : Owner) (atom : Atom) (n : ℕ) (before all listed : List Template)
        → AreTaken owner atom n before all listed → length listed ≤ n }
    ensures in_order { (owner : Owner) (atom : Atom) (n : ℕ) (before all listed : List Template)
        → AreTaken owner atom n before all listed → (p q : ℕ) (t u : Template) → p < q
        → slice_get listed p ≡ Some t → slice_get listed q ≡ Some u → StandsBefore all t u }
    ensures first { (owner : Owner) (atom : Atom) (n : ℕ) (before all listed : List Template)
        → AreTaken owner atom n before all listed → (t u : Template) → IsIn u listed
        → StandsBefore all t u → IsKept owner atom t → IsIn t (before ++ listed) }
    ensures whole { (owner : Owner) (atom : Atom) (n : ℕ) (before all listed : List Template)
        → AreTaken owner atom n before all listed → length listed < n
        → (t : Template) → IsIn t all → IsKept owner atom t → IsIn t (before ++ listed) }
{}
