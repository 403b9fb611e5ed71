// The typed tables of a tree, or its first fault.
ghost use Rattle.std.specs.Prelude.{◌≡◌, [], All, codes, unwrap_or, IfOk, IfErr};
ghost use Rattle.dsr_tree.specs.Trees.{tree_shape};
ghost use Rattle.dsr_language_theory.specs.Declarations.{declaration_faults};
ghost use Rattle.dsr_language_theory.specs.Tables.{tables, tables_with, version_of};
ghost use Rattle.dsr_meaning.specs.Placeable.{ArePlaceable};
ghost use Rattle.dsr_meaning.specs.Typed.{AreTyped};
ghost use Rattle.dsr_language_theory.specs.Names.{names_of};
ghost use Rattle.dsr_struct.specs.Known.{told_by, known_of, AllFit, HasLegalWidths};
ghost use Rattle.dsr_names.specs.FaultsTold.{Tells};

use crate::lookups::Names;
use crate::names::{TreeNames, head_name, name_tables};
use dsr_ir::{Name, NoMemory, Structures};
use dsr_names::SpecFault;
use dsr_tree::Tree;
use std::alloc::Global;

// 2 for version 2, and otherwise 1.
fn version_of(number: u64) -> u8
    ensures { result ≡ version_of number }
{
    if number == 2 { 2 } else { 1 }
}

impl Names<'_> {
    // The number of the structure of the record at byte 0.
    fn head_number(&self, head: &Name) -> u32
        requires head { head.now ≡ codes "Head" }
        requires fit { AllFit (known_of self.now) }
        ensures { result ≡ unwrap_or ((known_of self.now).structure (codes "Head")) 0 }
    {
        self.structure(head).unwrap_or(0)
    }

    fn typed(&self, alloc: Global, head: &Name) -> Result<Structures, NoMemory>
        requires head { head.now ≡ codes "Head" }
        requires fit { AllFit (known_of self.now) }
        requires legal { All HasLegalWidths (known_of self.now).tree.structures }
        ensures { IfOk result (λ s. s ≡ tables_with (known_of self.now)) }
    {
        let version = version_of(self.tree.version.number);
        let number = self.head_number(head);
        let structures = self.typed_structures(alloc)?;
        let pools = self.typed_pools(alloc)?;
        let sets = self.typed_sets(alloc)?;
        let rels = self.typed_relations(alloc)?;
        Ok(Structures {
            version,
            order: self.tree.order,
            head: number,
            structures,
            pools,
            sets,
            rels,
        })
    }

    // The typed tables, or the fault that is told.
    fn outcome(&self, alloc: Global, head: &Name) -> Result<Structures, SpecFault>
        requires head { head.now ≡ codes "Head" }
        requires known { known_of self.now ≡ names_of (tree_shape self.now.tree.now) }
        ensures no_fault { IfOk result (λ _. declaration_faults (tree_shape self.now.tree.now) ≡ []) }
        ensures tables { IfOk result (λ s. s ≡ tables (tree_shape self.now.tree.now)) }
        ensures typed { IfOk result AreTyped }
        ensures placeable { IfOk result ArePlaceable }
        ensures fault { IfErr result (Tells (declaration_faults (tree_shape self.now.tree.now))) }
    {
        if let Some(fault) = self.check(head) {
            return Err(SpecFault::At {
                kind: fault.condition.kind(),
                place: fault.place,
            });
        }
        Ok(self.typed(alloc, head)?)
    }
}

// The typed tables of a tree, or the fault that is told, with what its names stand for.
fn typed_with(alloc: Global, tree: &Tree, known: &TreeNames) -> Result<Structures, SpecFault>
    requires { told_by tree.now known.now ≡ names_of (tree_shape tree.now) }
    ensures no_fault { IfOk result (λ _. declaration_faults (tree_shape tree.now) ≡ []) }
    ensures tables { IfOk result (λ s. s ≡ tables (tree_shape tree.now)) }
    ensures typed { IfOk result AreTyped }
    ensures placeable { IfOk result ArePlaceable }
    ensures fault { IfErr result (Tells (declaration_faults (tree_shape tree.now))) }
{
    let names = Names {
        tree,
        tables: known,
    };
    let head = head_name(alloc)?;
    names.outcome(alloc, &head)
}

/// The typed tables of a tree's structures, pools, sets, relations and supplies; its rules and
/// constraints aren't looked at. `At` tells the fault with the least place, and of several there
/// the one of the least condition.
pub fn structures(alloc: Global, tree: &Tree) -> Result<Structures, SpecFault>
    ensures no_fault { IfOk result (λ _. declaration_faults (tree_shape tree.now) ≡ []) }
    ensures tables { IfOk result (λ s. s ≡ tables (tree_shape tree.now)) }
    ensures typed { IfOk result AreTyped }
    ensures placeable { IfOk result ArePlaceable }
    ensures fault { IfErr result (Tells (declaration_faults (tree_shape tree.now))) }
{
    let tables = name_tables(alloc, tree)?;
    typed_with(alloc, tree, &tables)
}
