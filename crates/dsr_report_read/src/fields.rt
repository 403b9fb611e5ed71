// The fields of a pool's records.
ghost use Rattle.std.specs.Prelude.{◌≡◌, Decides, option_map};
ghost use Rattle.dsr_meaning.specs.Typed.{AreTyped, HasName};
ghost use Rattle.dsr_meaning.specs.Typed as typed;
ghost use Rattle.dsr_report_read.specs.Forms.{IsOfPool};
ghost use Rattle.dsr_report_read.specs.Reads.{IsOwn, IsViewed};

use dsr_ir::{Field, Kind, Structures};
use dsr_schema::{descends, pool_at};

// Whether records of the pool are read by a set's structure that is the other one or descends from
// it.
fn is_viewed(base: &Structures, pool: u32, structure: u32) -> bool
    requires typed { AreTyped base.now }
    ensures { Decides result (IsViewed base.now pool structure) }
{
    for set in base.sets.items() {
        if set.pool == pool && descends(base, set.structure, structure) {
            return true;
        }
    }
    false
}

// The structure of a pool's records.
fn pool_structure(base: &Structures, pool: u32) -> Option<u32>
    ensures { result ≡ option_map (λ p. p.structure) (typed.pool_at base.now pool) }
{
    match pool_at(base, pool) {
        Some(pool) => Some(pool.structure),
        None => None,
    }
}

// Whether it is the pool's own structure or an ancestor of that; of the head, where the pool is 0.
fn is_own(base: &Structures, pool: u32, structure: u32) -> bool
    requires typed { AreTyped base.now }
    ensures { Decides result (IsOwn base.now pool structure) }
{
    if pool == 0 {
        return descends(base, base.head, structure);
    }
    match pool_structure(base, pool) {
        Some(own) => descends(base, own, structure),
        None => false,
    }
}

/// Whether the structure's fields are fields of the pool's records.
pub fn is_of_pool(base: &Structures, pool: u32, structure: u32) -> bool
    requires typed { AreTyped base.now }
    ensures { Decides result (IsOfPool base.now pool structure) }
{
    is_own(base, pool, structure) || is_viewed(base, pool, structure)
}

/// Whether the field has a name, and so is no gap.
pub fn has_name(field: &Field) -> bool
    ensures { Decides result (HasName field.now) }
{
    !matches!(field.kind, Kind::Gap)
}
