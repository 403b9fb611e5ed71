// The templates that are listed for a literal.
ghost use Rattle.std.specs.Prelude.{All, IfOk};
ghost use Rattle.dsr_compensate.specs.Taking.{IsJudged, templates_of};
ghost use Rattle.dsr_graph_theory.specs.Lists.{AreListedOf};
ghost use Rattle.dsr_compensate.specs.Owned.{IsSound, owner_of};

use crate::judging::Judged;
use crate::owner::Owner;
use crate::passes::{all_compensable, take_all};
use dsr_ir::NoMemory;
use dsr_schema::literal_at;
use std::alloc::Global;

/// The templates that are listed for the literal with these numbers of the constraint, at most 64,
/// each with what its updates may change; none where there is no such literal.
pub fn listed(
    alloc: Global,
    owner: &Owner,
    conj: u32,
    literal: u32,
) -> Result<Vec<Judged>, NoMemory>
    requires sound { IsSound owner.now }
    ensures listed { IfOk result (λ found. AreListedOf (owner_of owner.now) conj literal
        (templates_of found.items)) }
    ensures judged { IfOk result (λ found. All (IsJudged (owner_of owner.now)) found.items) }
{
    let mut found = Vec::new(alloc);
    let Some(its) = literal_at(owner.constraint(), conj, literal) else {
        return Ok(found);
    };
    let tried = owner.raw(alloc, conj, literal)?;
    let tried = all_compensable(alloc, owner, &tried)?;
    take_all(alloc, owner, &its.atom, &tried, &mut found)?;
    Ok(found)
}
