// Fresh records.
ghost use Rattle.std.specs.Prelude.{◌≡◌, ◌⊎◌, ◌<◌, ℕ, Decides, IfErr, IfOk, IfSome, IsSome, IsSomeAnd, MatchOption, Some, option_map, true};
ghost use Rattle.std.specs.Option.{option_and_then};
ghost use Rattle.dsr_repair_theory.specs.Choices.{IsFresh, IsFreshFrom};
ghost use Rattle.dsr_repair.specs.Supplies.{AreInSlots, IsUsed};
ghost use Rattle.dsr_ir.specs.declared.tuples.Fact.TheVariants as facts;
ghost use Rattle.dsr_meaning.specs.Legal.{IsLegalLayout};
ghost use Rattle.dsr_meaning.specs.Typed as typed;
ghost use Rattle.dsr_model.specs.Facts.{IsInModel};
ghost use Rattle.dsr_repair_theory.specs.Turns.{IsUsedUp};

use dsr_ir::{Binding, Element, Fact, Layout, Measure, Spec, Symbol, Update};
use dsr_layout::pool_numbers;
use dsr_model::Model;

// Whether the record is a member of one of the sets.
fn is_taken(model: &Model, sets: &[u32], elem: Element) -> bool
    requires ordered { model.now.ordered ≡ true }
    ensures { Decides result (IsUsed (IsInModel model.now) sets.now elem) }
{
    for set in sets {
        if model.has(&Fact::Member(*set, elem)) {
            return true;
        }
    }
    false
}

// The slot of a fact that is a member of the set in the pool.
fn slot_in(fact: Fact, set: u32, pool: u32) -> Option<u32>
    ensures { IfSome result
        (λ slot. fact ≡ facts.Member set (record { pool = pool; slot = slot })) }
{
    let slot = match fact {
        Fact::Member(_, elem) => elem.slot,
        Fact::Pair(_, _, _) => return None,
    };
    if fact == Fact::Member(set, Element { pool, slot }) {
        Some(slot)
    } else {
        None
    }
}

// The slot of the set's greatest member, where its least one is the pool's first slot.
fn last_slot(model: &Model, set: u32, pool: u32) -> Option<u32>
    requires ordered { model.now.ordered ≡ true }
    ensures { IfSome result (λ last. AreInSlots (IsInModel model.now) set pool last) }
{
    let least = model.after(Symbol::Set(set), None)?;
    if slot_in(least, set, pool)? > 0 {
        return None;
    }
    let greatest = model.greatest(&Measure::Whole(set), &Binding::Once)?;
    slot_in(greatest, set, pool)
}

// Whether the slot with this number is a member of the set.
fn has_slot(model: &Model, set: u32, pool: u32, slot: u64) -> bool
    requires ordered { model.now.ordered ≡ true }
{
    let Ok(slot) = u32::try_from(slot) else {
        return false;
    };
    model.has(&Fact::Member(set, Element { pool, slot }))
}

// A number below which all slots of the pool are members of the set: how many it has, where they
// are as many as the slots up to its greatest one. That one is looked for from the pool's last slot
// down, so it isn't asked for where the set has few members, lacks the first slot, or has a member
// behind as many slots as it has members.
fn filled_to(model: &Model, set: u32, pool: u32, slots: u64) -> u64
    requires ordered { model.now.ordered ≡ true }
    ensures { (k : ℕ) → k < result
        → IsInModel model.now (facts.Member set (record { pool = pool; slot = k })) }
{
    if !has_slot(model, set, pool, 0) {
        return 0;
    }
    let members = model.size(&Measure::Whole(set), &Binding::Once);
    if members < slots / 64 {
        return 0;
    }
    if has_slot(model, set, pool, members) {
        return 0;
    }
    let Some(last) = last_slot(model, set, pool) else {
        return 0;
    };
    if members == u64::from(last) + 1 {
        members
    } else {
        0
    }
}

// The greater number.
fn later(one: u64, other: u64) -> u64
    ensures { (result ≡ one) ⊎ (result ≡ other) }
{
    if one < other { other } else { one }
}

// A number below which all slots of the pool are members of the sets.
fn taken_to(model: &Model, sets: &[u32], pool: u32, slots: u64) -> u64
    requires ordered { model.now.ordered ≡ true }
    ensures { (k : ℕ) → k < result
        → IsUsed (IsInModel model.now) sets.now (record { pool = pool; slot = k }) }
{
    let mut taken = 0;
    for set in sets {
        taken = later(taken, filled_to(model, *set, pool, slots));
    }
    taken
}

// The sets that the pool's supply avoids.
fn avoided(spec: &Spec, pool: u32) -> Option<&[u32]>
    ensures { option_map (λ sets. sets.now) result ≡
        option_and_then (λ d. d.avoid) (typed.pool_at spec.now.base pool) }
{
    let pool = spec.base.pools.items().get(pool.checked_sub(1)? as usize)?;
    Some(pool.avoid.as_ref()?.items())
}

/// The least slot of the pool that is in none of the sets which its supply avoids.
pub fn fresh_of(model: &Model, spec: &Spec, layout: &Layout, pool: u32) -> Option<Element>
    requires ordered { model.now.ordered ≡ true }
    requires supply { IsSomeAnd (typed.pool_at spec.now.base pool) (λ d. IsSome d.avoid) }
    requires legal { IsLegalLayout layout.now }
    ensures { MatchOption result (IsUsedUp (IsInModel model.now) spec.now layout.now pool)
        (IsFreshFrom (IsInModel model.now) spec.now layout.now pool) }
{
    let sets = avoided(spec, pool)?;
    let count = pool_numbers(layout, pool)?.count;
    for slot in taken_to(model, sets, pool, count)..count {
        let elem = Element {
            pool,
            slot: slot as u32,
        };
        if !is_taken(model, sets, elem) {
            return Some(elem);
        }
    }
    None
}

/// The fresh record of an update, if it takes one; or the pool whose supply is empty.
pub fn fresh_for(
    model: &Model,
    spec: &Spec,
    layout: &Layout,
    update: &Update,
) -> Result<Option<Element>, u32>
    requires ordered { model.now.ordered ≡ true }
    requires supply { IfSome update.now.fresh
        (λ pool. IsSomeAnd (typed.pool_at spec.now.base pool) (λ d. IsSome d.avoid)) }
    requires legal { IsLegalLayout layout.now }
    ensures fresh { IfOk result (IsFresh (IsInModel model.now) spec.now layout.now update.now.fresh) }
    ensures empty { IfErr result (λ pool. (update.now.fresh ≡ Some pool)
        × IsUsedUp (IsInModel model.now) spec.now layout.now pool) }
{
    let Some(pool) = update.fresh else {
        return Ok(None);
    };
    match fresh_of(model, spec, layout, pool) {
        Some(elem) => Ok(Some(elem)),
        None => Err(pool),
    }
}
