// The faults of sets, relations and supplies.
ghost use Rattle.std.specs.Prelude.{◌≡◌, ◌∷◌, ◌+◌, length, nat_eq, option_and_then};
ghost use Rattle.dsr_language_theory.specs.Declarations.{is_unrelated, view_faults, set_faults, source_faults, target_faults, relation_faults, all_sets, is_elsewhere, is_supply_mismatch, supply_faults, unknown_name};
ghost use Rattle.dsr_meaning.specs.Lists.{any_of, each_at};
ghost use Rattle.dsr_language_theory.specs.Names.{plain_set, pool_structure, set_pool};
ghost use Rattle.dsr_struct.specs.Known.{known_of};
ghost use Rattle.dsr_names.specs.Telling.{Finds};

use crate::lookups::Names;
use dsr_names::{Told, disagree, is_at};
use dsr_tree::{Condition, Fresh, PlacedName, Relation, Set, Target, Var, View};

impl Names<'_> {
    // Whether a structure is known not to descend from another one.
    fn is_unrelated(&self, structure: Option<u32>, ancestor: Option<u32>) -> bool
        ensures { result ≡ is_unrelated (known_of self.now) structure ancestor }
    {
        let Some(structure) = structure else {
            return false;
        };
        match ancestor {
            Some(ancestor) => !self.descends(structure, ancestor),
            None => false,
        }
    }

    // The structure of the pool that a name stands for.
    pub fn structure_of_pool(&self, name: &PlacedName) -> Option<u32>
        ensures { result ≡ option_and_then (pool_structure (known_of self.now))
            ((known_of self.now).pool name.now.name) }
    {
        match self.pool(&name.name) {
            Some(pool) => self.pool_structure(pool),
            None => None,
        }
    }

    // The pool of the set that a name stands for.
    fn pool_of_set(&self, name: &PlacedName) -> Option<u32>
        ensures { result ≡ option_and_then (set_pool (known_of self.now))
            (plain_set (known_of self.now) name.now.name) }
    {
        match self.plain_set(&name.name) {
            Some(set) => self.set_pool(set),
            None => None,
        }
    }

    fn check_view(&self, told: &mut Told, set: &Set)
        ensures { Finds (view_faults (known_of self.now) set.now set.now.view) told.old.fault told.new.fault }
    {
        match &set.view {
            Some(View::As { structure, .. }) => {
                let found = self.used_structure(&structure.name);
                let is_unrelated = self.is_unrelated(found, self.structure_of_pool(&set.pool));
                told.note_unknown(found, structure);
                told.note_if(is_unrelated, Condition::PoolMismatch, set.place);
            }
            Some(View::Except { set: base, .. }) => {
                let is_elsewhere = disagree(self.pool(&set.pool.name), self.pool_of_set(base));
                told.note_unknown(self.plain_set(&base.name), base);
                told.note_if(is_elsewhere, Condition::PoolMismatch, set.place);
            }
            None => (),
        }
    }

    fn check_set(&self, told: &mut Told, number: usize, set: &Set)
        ensures { Finds (set_faults (known_of self.now) number set.now) told.old.fault told.new.fault }
    {
        let is_first = is_at(number, self.set(&set.name.name));
        told.note_if(!is_first, Condition::NameTwice, set.name.place);
        told.note_if(number == 64, Condition::Limit, set.name.place);
        told.note_unknown(self.pool(&set.pool.name), &set.pool);
        self.check_view(told, set);
    }

    /// The faults of sets.
    pub fn check_sets(&self, told: &mut Told, sets: &[Set])
        ensures { Finds (each_at (set_faults (known_of self.now)) 0 sets.now) told.old.fault told.new.fault }
    {
        for (number, set) in sets.iter().enumerate() {
            self.check_set(told, number, set);
        }
    }

    fn check_source(&self, told: &mut Told, source: &Var)
        ensures { Finds (source_faults (known_of self.now) source.now) told.old.fault told.new.fault }
    {
        if let Var::Name(pool) = source {
            told.note_unknown(self.pool(&pool.name), pool);
        }
    }

    fn check_target(&self, told: &mut Told, target: &Target)
        ensures { Finds (target_faults (known_of self.now) target.now) told.old.fault told.new.fault }
    {
        if let Target::Pool(pool) = target {
            told.note_unknown(self.pool(&pool.name), pool);
        }
    }

    // Whether sets and relations before one leave no room for it, as the first one over the limit.
    fn is_over(&self, number: usize) -> bool
        ensures { result ≡ nat_eq (length (known_of self.now).tree.sets + number) 64 }
    {
        let sets = self.tree.sets.items().len();
        sets <= 64 && number == 64 - sets
    }

    fn check_relation(&self, told: &mut Told, number: usize, relation: &Relation)
        ensures { Finds (relation_faults (known_of self.now) number relation.now) told.old.fault
            told.new.fault }
    {
        let name = &relation.name;
        let is_first = is_at(number, self.relation(&name.name));
        let is_twice = self.set(&name.name).is_some() || !is_first;
        told.note_if(is_twice, Condition::NameTwice, name.place);
        told.note_if(self.is_over(number), Condition::Limit, name.place);
        self.check_source(told, &relation.source);
        self.check_target(told, &relation.target);
    }

    /// The faults of relations.
    pub fn check_relations(&self, told: &mut Told, relations: &[Relation])
        ensures { Finds (each_at (relation_faults (known_of self.now)) 0 relations.now)
            told.old.fault told.new.fault }
    {
        for (number, relation) in relations.iter().enumerate() {
            self.check_relation(told, number, relation);
        }
    }

    fn are_sets(&self, names: &[PlacedName]) -> bool
        ensures { result ≡ all_sets (known_of self.now) names.now }
    {
        for name in names {
            if self.plain_set(&name.name).is_none() {
                return false;
            }
        }
        true
    }

    // Whether a set is known to be one of another pool.
    fn is_elsewhere(&self, pool: Option<u32>, set: &PlacedName) -> bool
        ensures { result ≡ is_elsewhere (known_of self.now) pool set.now }
    {
        disagree(pool, self.pool_of_set(set))
    }

    fn is_any_elsewhere(&self, pool: Option<u32>, sets: &[PlacedName]) -> bool
        ensures { result ≡ any_of (is_elsewhere (known_of self.now) pool) sets.now }
    {
        for set in sets {
            if self.is_elsewhere(pool, set) {
                return true;
            }
        }
        false
    }

    // Whether a supply that names sets alone avoids one of another pool.
    fn is_supply_mismatch(&self, supply: &Fresh) -> bool
        ensures { result ≡ is_supply_mismatch (known_of self.now)
            ((known_of self.now).pool supply.now.pool.name) (supply.now.first ∷ supply.now.rest) }
    {
        let pool = self.pool(&supply.pool.name);
        let rest = supply.rest.items();
        let are_sets = self.plain_set(&supply.first.name).is_some() && self.are_sets(rest);
        are_sets && (self.is_elsewhere(pool, &supply.first) || self.is_any_elsewhere(pool, rest))
    }

    fn check_plain_set(&self, told: &mut Told, name: &PlacedName)
        ensures { Finds (unknown_name (plain_set (known_of self.now)) name.now) told.old.fault told.new.fault }
    {
        told.note_unknown(self.plain_set(&name.name), name);
    }

    fn check_plain_sets(&self, told: &mut Told, names: &[PlacedName])
        ensures { Finds (each_at (λ _ q. unknown_name (plain_set (known_of self.now)) q) 1
            names.now) told.old.fault told.new.fault }
    {
        for name in names {
            self.check_plain_set(told, name);
        }
    }

    fn check_supply(&self, told: &mut Told, number: usize, supply: &Fresh)
        ensures { Finds (supply_faults (known_of self.now) number supply.now) told.old.fault told.new.fault }
    {
        let pool = &supply.pool;
        let is_first = is_at(number, self.supply(&pool.name));
        told.note_if(!is_first, Condition::NameTwice, pool.place);
        told.note_unknown(self.pool(&pool.name), pool);
        self.check_plain_set(told, &supply.first);
        self.check_plain_sets(told, supply.rest.items());
        told.note_if(
            self.is_supply_mismatch(supply),
            Condition::PoolMismatch,
            supply.place,
        );
    }

    /// The faults of supplies.
    pub fn check_supplies(&self, told: &mut Told, supplies: &[Fresh])
        ensures { Finds (each_at (supply_faults (known_of self.now)) 0 supplies.now) told.old.fault
            told.new.fault }
    {
        for (number, supply) in supplies.iter().enumerate() {
            self.check_supply(told, number, supply);
        }
    }
}
