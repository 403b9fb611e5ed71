// The specification of a tree.
ghost use Rattle.std.specs.Prelude.{◌≡◌, [], IfOk, IfErr};
ghost use Rattle.dsr_tree.specs.Trees.{tree_shape};
ghost use Rattle.dsr_meaning.specs.Typed.{IsTyped};
ghost use Rattle.dsr_language_theory.specs.Specifications.{specification, specification_faults};
ghost use Rattle.dsr_names.specs.FaultsTold.{Tells};

use dsr_constraint::constraints;
use dsr_ir::{Seq, Spec};
use dsr_names::SpecFault;
use dsr_rules::rules;
use dsr_struct::structures;
use dsr_tree::Tree;
use std::alloc::Global;

/// The specification that a tree means. Declarations are asked first, then rules, then constraints;
/// `At` tells the fault with the least place in the first of these that has any, and of several
/// there the one of the least condition.
pub fn spec(alloc: Global, tree: &Tree) -> Result<Spec, SpecFault>
    ensures no_fault { IfOk result (λ _. specification_faults (tree_shape tree.now) ≡ []) }
    ensures spec { IfOk result (λ s. s ≡ specification (tree_shape tree.now)) }
    ensures typed { IfOk result IsTyped }
    ensures fault { IfErr result (Tells (specification_faults (tree_shape tree.now))) }
{
    let base = structures(alloc, tree)?;
    let rules = Seq::new(rules(alloc, tree, &base)?);
    let constraints = Seq::new(constraints(alloc, tree, &base)?);
    Ok(Spec {
        base,
        rules,
        constraints,
    })
}
