// Whether an update can be made as it is judged.
ghost use Rattle.std.specs.Prelude.{◌≡◌, ℕ, Decides, Some, slice_get};
ghost use Rattle.dsr_ir.specs.declared.updates.Goal.{Goal as GoalOf};
ghost use Rattle.dsr_ir.specs.declared.updates.Write.{Write as WriteOf};
ghost use Rattle.dsr_graph_theory.specs.Owners.{change_of};
ghost use Rattle.dsr_graph_theory.specs.Sides.{IsNoFreshOne, MayBeMade, MaySupply};
ghost use Rattle.dsr_meaning.specs.Typed.{AreTyped};
ghost use Rattle.dsr_compensate.specs.Owned.{IsSound, owner_of};
ghost use Rattle.dsr_update_theory.specs.Avoided.{IsAvoided};
ghost use Rattle.dsr_update_theory.specs.Changes.{Change as ChangeOf, fresh_pool};
ghost use Rattle.dsr_update_theory.specs.KnownSets.{IsKnown};
ghost use Rattle.dsr_update_theory.specs.Touching.{named_by};
ghost use Rattle.dsr_update_theory.specs.Together.{MayStandBeside, MayStandTogether};

use crate::owner::Owner;
use dsr_effect::{are_related, avoided_sets, place_pool};
use dsr_ir::{Place, Structures, Update, Var, Write};
use dsr_schema::pool_at;

// Whether the writes are of different fields, whose structures are related.
fn may_stand_beside(base: &Structures, write: &Write, other: &Write) -> bool
    requires typed { AreTyped base.now }
    ensures { Decides result (MayStandBeside base.now write.now other.now) }
{
    write.path.field != other.path.field
        && are_related(base, write.path.field.structure, other.path.field.structure)
}

// Whether the write may stand beside each of the others.
fn may_join(base: &Structures, write: &Write, others: &[Write]) -> bool
    requires typed { AreTyped base.now }
    ensures { Decides result ((place : ℕ) (other : WriteOf) → slice_get others.now place ≡ Some other
        → MayStandBeside base.now write.now other) }
{
    others
        .iter()
        .all(|other| may_stand_beside(base, write, other))
}

// Whether no field is written twice, and no two fields that may share bytes.
fn may_stand_together(base: &Structures, writes: &[Write]) -> bool
    requires typed { AreTyped base.now }
    ensures { Decides result (MayStandTogether base.now writes.now) }
{
    for (place, write) in writes.iter().enumerate() {
        if !may_join(base, write, &writes[..place]) {
            return false;
        }
    }
    true
}

impl Owner<'_> {
    // Whether the variable is known to be a member of a set of which no fresh record of such a
    // supply is one.
    fn is_known_avoided(&self, var: Var, avoid: &[u32]) -> bool
        requires sound { IsSound self.now }
        ensures { Decides result ((set : ℕ) × IsKnown self.now.spec.now self.now.constraint.now.quant var set
            × IsAvoided self.now.spec.now avoid.now set) }
    {
        let avoided = avoided_sets(self.spec, avoid);
        for set in 0..self.spec.base.sets.items().len() {
            if avoided[set] && self.known.has(var, set as u32) {
                return true;
            }
        }
        false
    }

    // Whether the record that is written is known to be no fresh one of such a supply.
    fn is_no_fresh_one(&self, place: Place, avoid: &[u32]) -> bool
        requires sound { IsSound self.now }
        ensures { (c : ChangeOf) → c.spec ≡ self.now.spec.now → c.quant ≡ self.now.constraint.now.quant
            → named_by (fresh_pool c) ≡ avoid.now → Decides result (IsNoFreshOne c place) }
    {
        match place {
            Place::Of(var) => self.is_known_avoided(var, avoid),
            Place::Head | Place::Deriver => false,
        }
    }

    // Whether there is a supply of the pool, and the record that is written isn't one of its fresh
    // ones.
    fn may_supply(&self, update: &Update, pool: u32) -> bool
        requires sound { IsSound self.now }
        requires fresh { update.now.fresh ≡ Some pool }
        ensures { (goal : GoalOf) → Decides result
            (MaySupply (change_of (owner_of self.now) goal update.now) pool) }
    {
        let Some(declared) = pool_at(&self.spec.base, pool) else {
            return false;
        };
        let Some(avoid) = &declared.avoid else {
            return false;
        };
        place_pool(self.spec, &self.constraint.quant, update.rule, update.place) != Some(pool)
            || self.is_no_fresh_one(update.place, avoid.items())
    }

    /// Whether the update can be made as it is judged: its writes may stand together, and where it
    /// asks for a fresh record, there is a supply, and the record that is written isn't a fresh
    /// one.
    pub fn may_be_made(&self, update: &Update) -> bool
        requires sound { IsSound self.now }
        ensures { (goal : GoalOf) → Decides result
            (MayBeMade (change_of (owner_of self.now) goal update.now)) }
    {
        may_stand_together(&self.spec.base, update.writes.items())
            && match update.fresh {
                Some(pool) => self.may_supply(update, pool),
                None => true,
            }
    }
}
