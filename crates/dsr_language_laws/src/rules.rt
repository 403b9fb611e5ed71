// The laws on rules.
ghost use Rattle.std.specs.Prelude.{◌≡◌, ◌≤◌, List, [], All, length};
ghost use Rattle.dsr_ir.specs.declared.declarations.Structures.{Structures};
ghost use Rattle.dsr_tree.specs.declared.tree.Rule.{Rule};
ghost use Rattle.dsr_meaning.specs.Typed.{AreTyped, IsTypedRule};
ghost use Rattle.dsr_language_theory.specs.Known.{known_in};
ghost use Rattle.dsr_language_theory.specs.RuleFaults.{rules_faults};
ghost use Rattle.dsr_language_theory.specs.TypedRules.{typed_rules};
ghost use Rattle.dsr_meaning.specs.Limits.{most_rules};

/// Over typed tables, rules without faults are typed, and there are few.
pub fn rules_without_faults_are_typed()
    ensures typed { (base : Structures) (rules : List Rule) → AreTyped base →
        rules_faults (known_in base) rules ≡ [] → All (IsTypedRule base) (typed_rules (known_in base) rules) }
    ensures few { (base : Structures) (rules : List Rule) →
        rules_faults (known_in base) rules ≡ [] → length (typed_rules (known_in base) rules) ≤ most_rules }
{}
