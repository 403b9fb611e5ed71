// In which ways an instance of a rule can be made to give nothing.
ghost use Rattle.std.specs.Prelude.{◌≡◌, IfOk, option_and_then};
ghost use Rattle.dsr_meaning.specs.Typed.{AreTyped};
ghost use Rattle.dsr_ir.specs.Rules.{target_of};
ghost use Rattle.dsr_ir.specs.declared.updates.Pick.TheVariants.{NoneCode};
ghost use Rattle.dsr_update_theory.specs.Options as updating;

use crate::fields::reference_write;
use crate::guards::guard_write;
use dsr_ir::{NoMemory, Pick, Rule, Structures, Write};
use std::alloc::Global;

// The write by which a reference that is the target becomes none.
fn target_write(base: &Structures, rule: &Rule) -> Option<Write>
    ensures { result
        ≡ option_and_then (updating.reference_write base.now NoneCode) (target_of rule.now.inc) }
{
    reference_write(base, Pick::NoneCode, rule.inc.target()?)
}

/// The writes that each make an instance of the rule give nothing: of each guard that can be made
/// false, in order, and then of the target.
pub fn options(alloc: Global, base: &Structures, rule: &Rule) -> Result<Vec<Write>, NoMemory>
    requires typed { AreTyped base.now }
    ensures { IfOk result (λ ws. ws.items ≡ updating.options base.now rule.now) }
{
    let mut writes = Vec::new(alloc);
    for guard in rule.guards.items() {
        if let Some(write) = guard_write(base, false, guard) {
            writes.push(write)?;
        }
    }
    if let Some(write) = target_write(base, rule) {
        writes.push(write)?;
    }
    Ok(writes)
}
