// The laws on constraints.
ghost use Rattle.std.specs.Prelude.{◌≡◌, ◌≤◌, List, [], All, length, map};
ghost use Rattle.dsr_ir.specs.declared.declarations.Structures.{Structures};
ghost use Rattle.dsr_tree.specs.Trees.{ConstraintTree};
ghost use Rattle.dsr_tree.specs.declared.tree.Rule.{Rule};
ghost use Rattle.dsr_meaning.specs.Typed.{AreDifferent, AreTyped, IsTypedConstraint, constraint_limit};
ghost use Rattle.dsr_language_theory.specs.Constraints.{constraints_faults};
ghost use Rattle.dsr_language_theory.specs.Known.{known_in};
ghost use Rattle.dsr_language_theory.specs.RuleFaults.{rules_faults};
ghost use Rattle.dsr_language_theory.specs.TypedConstraints.{typed_constraints};
ghost use Rattle.dsr_language_laws.specs.Meant.{meant};

/// Over typed tables and rules without faults, constraints without faults are typed, there are few,
/// and they have different names.
pub fn constraints_without_faults_are_typed()
    ensures typed { (base : Structures) (rules : List Rule) (constraints : List ConstraintTree) →
        AreTyped base →
        rules_faults (known_in base) rules ≡ [] → constraints_faults (known_in base) rules constraints ≡ [] →
        All (IsTypedConstraint (meant base rules constraints)) (meant base rules constraints).constraints }
    ensures few { (base : Structures) (rules : List Rule) (constraints : List ConstraintTree) →
        constraints_faults (known_in base) rules constraints ≡ [] →
        length (typed_constraints (known_in base) constraints) ≤ constraint_limit base.version }
    ensures names { (base : Structures) (rules : List Rule) (constraints : List ConstraintTree) →
        constraints_faults (known_in base) rules constraints ≡ [] →
        AreDifferent (map (λ c. c.name) (typed_constraints (known_in base) constraints)) }
{}
