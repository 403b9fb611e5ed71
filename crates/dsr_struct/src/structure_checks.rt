// The faults of structures and pools.
ghost use Rattle.std.specs.Prelude.{◌≡◌, map};
ghost use Rattle.dsr_tree.specs.Trees.{structure_shape, pool_shape};
ghost use Rattle.dsr_language_theory.specs.Declarations.{is_not_before, parent_faults, structure_faults, pool_faults};
ghost use Rattle.dsr_meaning.specs.Lists.{each_at};
ghost use Rattle.dsr_struct.specs.Known.{known_of};
ghost use Rattle.dsr_names.specs.Telling.{Finds};

use crate::expr_checks::{check_expr, check_maybe_expr};
use crate::lookups::Names;
use dsr_names::{Told, is_at};
use dsr_tree::{Condition, PlacedName, Pool, Structure};

// Whether a number was found that isn't less than another one.
fn is_not_before(number: usize, found: Option<u32>) -> bool
    ensures { result ≡ is_not_before number found }
{
    match found {
        Some(found) => number <= found as usize,
        None => false,
    }
}

impl Names<'_> {
    fn check_parent(&self, told: &mut Told, number: usize, parent: &Option<PlacedName>)
        ensures { Finds (parent_faults (known_of self.now) number parent.now) told.old.fault told.new.fault }
    {
        if let Some(parent) = parent {
            let found = self.used_structure(&parent.name);
            told.note_unknown(found, parent);
            let is_loop = is_not_before(number, found);
            told.note_if(is_loop, Condition::SubtypeLoop, parent.place);
        }
    }

    fn check_structure(&self, told: &mut Told, number: usize, structure: &Structure)
        ensures { Finds (structure_faults (known_of self.now) number
            (structure_shape structure.now)) told.old.fault told.new.fault }
    {
        let name = &structure.name;
        let is_first = is_at(number, self.structure(&name.name));
        told.note_if(!is_first, Condition::NameTwice, name.place);
        told.note_if(number == 64, Condition::Limit, name.place);
        self.check_parent(told, number, &structure.parent);
        self.check_fields(told, number, structure);
    }

    /// The faults of structures.
    pub fn check_structures(&self, told: &mut Told, structures: &[Structure])
        ensures { Finds (each_at (structure_faults (known_of self.now)) 0
            (map structure_shape structures.now)) told.old.fault told.new.fault }
    {
        for (number, structure) in structures.iter().enumerate() {
            self.check_structure(told, number, structure);
        }
    }

    fn check_pool(&self, told: &mut Told, number: usize, pool: &Pool)
        ensures { Finds (pool_faults (known_of self.now) number (pool_shape pool.now))
            told.old.fault told.new.fault }
    {
        let fixed = &self.tables.structures.numbers.fixed;
        let is_first = is_at(number, self.pool(&pool.name.name));
        told.note_if(!is_first, Condition::NameTwice, pool.name.place);
        told.note_if(number == 32, Condition::Limit, pool.name.place);
        told.note_unknown(self.used_structure(&pool.structure.name), &pool.structure);
        check_expr(told, fixed, &pool.count);
        check_maybe_expr(told, fixed, &pool.slot);
        check_expr(told, fixed, &pool.start);
        check_expr(told, fixed, &pool.code);
        check_expr(told, fixed, &pool.step);
        check_expr(told, fixed, &pool.none);
    }

    /// The faults of pools.
    pub fn check_pools(&self, told: &mut Told, pools: &[Pool])
        ensures { Finds (each_at (pool_faults (known_of self.now)) 0 (map pool_shape pools.now))
            told.old.fault told.new.fault }
    {
        for (number, pool) in pools.iter().enumerate() {
            self.check_pool(told, number, pool);
        }
    }
}
