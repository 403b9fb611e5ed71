// From a text to the specification that it means.
ghost use Rattle.std.specs.Prelude.{◌≡◌, ◌≢◌, [], Decides, IfNone, IfOk, IfSome};
ghost use Rattle.dsr_names.specs.declared.refusals.SpecFault.TheVariants as spec_faults;
ghost use Rattle.dsr_ir.specs.declared.declarations.Spec.{Spec};
ghost use Rattle.dsr_meaning.specs.Typed.{IsTyped};
ghost use Rattle.dsr_parse.specs.declared.parser.SyntaxFault.TheVariants as faults;
ghost use Rattle.dsr_syntax_theory.specs.Parsing.{IsTreeOf};
ghost use Rattle.dsr_syntax_theory.specs.Sentences.{IsSpecText};
ghost use Rattle.dsr_tree.specs.Trees.{tree_shape};
ghost use Rattle.dsr_language_theory.specs.Specifications as meaning;
ghost use Rattle.dsr_language_theory.specs.Specifications.{IsSpecificationOf, specification_faults};

use crate::SpecFault;
use crate::typed::spec;
use dsr_ir::{NoMemory, Spec};
use dsr_parse::{SyntaxFault, parse};
use dsr_tree::Tree;
use std::alloc::Global;

// Whether memory ran out, which says nothing of the text.
fn is_no_memory(fault: &SyntaxFault) -> bool
    ensures { Decides result (fault.now ≡ faults.NoMemory) }
{
    matches!(fault, SyntaxFault::NoMemory)
}

// Whether memory ran out, which says nothing of the tree.
fn is_short_of_memory(fault: &SpecFault) -> bool
    ensures { Decides result (fault.now ≡ spec_faults.NoMemory) }
{
    matches!(fault, SpecFault::NoMemory)
}

// The tree of a text; none where the text isn't one of the grammar within its limits.
fn tree_of(alloc: Global, text: &[u8]) -> Result<Option<Tree>, NoMemory>
    ensures tree { IfOk result (λ read. IfSome read (λ tree. IsTreeOf text.now (tree_shape tree))) }
    ensures none { IfOk result (λ read. IfNone read (IsSpecText text.now → ⊥)) }
{
    match parse(alloc, text) {
        Ok(tree) => Ok(Some(tree)),
        Err(fault) => {
            if is_no_memory(&fault) {
                return Err(NoMemory);
            }
            Ok(None)
        }
    }
}

// The specification that a tree means; none where the tree has a fault.
fn meant(alloc: Global, tree: &Tree) -> Result<Option<Spec>, NoMemory>
    ensures no_fault { IfOk result (λ read.
        IfSome read (λ _. specification_faults (tree_shape tree.now) ≡ [])) }
    ensures spec { IfOk result (λ read.
        IfSome read (λ spec. spec ≡ meaning.specification (tree_shape tree.now))) }
    ensures typed { IfOk result (λ read. IfSome read IsTyped) }
    ensures none { IfOk result (λ read.
        IfNone read (specification_faults (tree_shape tree.now) ≢ [])) }
{
    match spec(alloc, tree) {
        Ok(spec) => Ok(Some(spec)),
        Err(fault) => {
            if is_short_of_memory(&fault) {
                return Err(NoMemory);
            }
            Ok(None)
        }
    }
}

/// The specification that a text means; none where it means none.
pub fn specification(alloc: Global, text: &[u8]) -> Result<Option<Spec>, NoMemory>
    ensures means { IfOk result (λ read. IfSome read (IsSpecificationOf text.now)) }
    ensures typed { IfOk result (λ read. IfSome read IsTyped) }
    ensures none { IfOk result (λ read.
        IfNone read ((spec : Spec) → IsSpecificationOf text.now spec → ⊥)) }
{
    match tree_of(alloc, text)? {
        Some(tree) => meant(alloc, &tree),
        None => Ok(None),
    }
}
