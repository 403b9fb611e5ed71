// The typed rules of a tree, or its first fault.
ghost use Rattle.std.specs.Prelude.{◌≡◌, [], IfOk, IfErr};
ghost use Rattle.dsr_meaning.specs.Typed.{AreTyped};
ghost use Rattle.dsr_names.specs.Tables.{known_of};
ghost use Rattle.dsr_language_theory.specs.Known.{known_in};
ghost use Rattle.dsr_language_theory.specs.RuleFaults.{rules_faults};
ghost use Rattle.dsr_language_theory.specs.TypedRules.{typed_rules};
ghost use Rattle.dsr_names.specs.FaultsTold.{Tells};

use crate::checks::check_rules;
use crate::typed_rules::typed_rules;
use dsr_ir::{Rule, Structures};
use dsr_names::{Known, SpecFault, Told, name_tables};
use dsr_tree::Tree;
use std::alloc::Global;

// The typed rules of a tree, over what its names stand for, or its first fault.
fn rules_among(alloc: Global, tree: &Tree, known: &Known<'_>) -> Result<Vec<Rule>, SpecFault>
    ensures no_fault { IfOk result (λ _. rules_faults (known_of known.now) tree.now.rules ≡ []) }
    ensures rules { IfOk result (λ rs. rs.items ≡ typed_rules (known_of known.now) tree.now.rules) }
    ensures fault { IfErr result (Tells (rules_faults (known_of known.now) tree.now.rules)) }
{
    let rules = tree.rules.items();
    let mut told = Told { fault: None };
    check_rules(known, &mut told, rules);
    match told.refusal() {
        Some(fault) => Err(fault),
        None => Ok(typed_rules(alloc, known, rules)?),
    }
}

/// The typed rules of a tree, in order, over the tables of its declarations. `At` tells the fault
/// with the least place, and of several there the one of the least condition; the conditions are
/// those of a name that is declared twice or stands for nothing, of a limit, of pools and kinds
/// that disagree, of lengths that differ, of an index that is wrong, and of a constant that is too
/// wide.
pub fn rules(alloc: Global, tree: &Tree, structures: &Structures) -> Result<Vec<Rule>, SpecFault>
    requires typed { AreTyped structures.now }
    ensures no_fault { IfOk result (λ _. rules_faults (known_in structures.now) tree.now.rules ≡ []) }
    ensures rules { IfOk result (λ rs. rs.items ≡ typed_rules (known_in structures.now) tree.now.rules) }
    ensures fault { IfErr result (Tells (rules_faults (known_in structures.now) tree.now.rules)) }
{
    let tables = name_tables(alloc, structures)?;
    let known = Known {
        base: structures,
        tables: &tables,
    };
    rules_among(alloc, tree, &known)
}
