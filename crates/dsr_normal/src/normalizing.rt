// The normal form of a formula.
ghost use Rattle.std.specs.Prelude.{◌≡◌, ◌↔◌, Bool, None, Some, IfOk, IfErr, OnOk, IsErrOf};
ghost use Rattle.dsr_ir.specs.declared.constraints.Atom.{Atom};
ghost use Rattle.dsr_language_theory.specs.NormalForms.{negated_value, too_many_conjunctions, normal_form, refusal_of, holds, one_holds};
ghost use Rattle.dsr_normal.specs.Telling.{IsTold};
ghost use Rattle.dsr_normal.specs.declared.faults.NormalFault.TheVariants as faults;

use crate::NormalFault;
use crate::atoms::has_many;
use crate::building::formula_conjs;
use crate::sizes::formula_size;
use crate::values::negates_value;
use dsr_ir::{Conj, Formula};
use std::alloc::Global;

/// The conjunctions of a formula, at least one of which is to hold: `not` is pushed down to the
/// atoms, `given` marks every literal below it, `Any` lists what its parts give, and `Every` joins
/// each conjunction of a part with each of the next, the first part varying slowest. Of several
/// faults the first in the order of `NormalFault` is told.
pub fn normal(alloc: Global, formula: &Formula) -> Result<Vec<Conj>, NormalFault>
    ensures listed { IfOk result (λ conjs. conjs.items ≡ normal_form formula.now) }
    ensures accepted { OnOk result (refusal_of formula.now ≡ None) }
    ensures refused { IfErr result (IsTold formula.now) }
    ensures negated_value { IsErrOf result faults.NegatedValue ↔ (refusal_of formula.now ≡ Some negated_value) }
    ensures too_many_conjunctions { IsErrOf result faults.TooManyConjunctions
        ↔ (refusal_of formula.now ≡ Some too_many_conjunctions) }
    ensures same_truth { IfOk result
        (λ conjs. (truth : Atom → Bool) → one_holds truth conjs.items ≡ holds truth formula.now) }
{
    let node = formula.node();
    if negates_value(false, node) {
        return Err(NormalFault::NegatedValue);
    }
    if formula_size(false, false, node).is_large() {
        return Err(NormalFault::TooManyConjunctions);
    }
    if has_many(alloc, node)? {
        return Err(NormalFault::TooManyAtoms);
    }
    let conjs = formula_conjs(alloc, false, false, node)?;
    Ok(conjs)
}
