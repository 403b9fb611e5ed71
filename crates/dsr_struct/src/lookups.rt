// What is asked of names.
ghost use Rattle.std.specs.Prelude.{◌≡◌, is_some, length, slice_get};
ghost use Rattle.dsr_language_theory.specs.Names.{used_structure, ancestors_of, own_field, inherits, descends, pool_structure, is_complement, plain_number, plain_set, set_pool};
ghost use Rattle.dsr_struct.specs.Known.{known_of};

use crate::names::{TreeNames, is_head};
use dsr_ir::Name;
use dsr_tree::{Tree, View};

/// A tree, and what its names stand for.
#[derive(Clone, Copy)]
pub struct Names<'a> {
    pub tree: &'a Tree,
    pub tables: &'a TreeNames,
}

// Whether a set is declared as a complement.
fn is_complement(view: &Option<View>) -> bool
    ensures { result ≡ is_complement view.now }
{
    match view {
        Some(View::Except { .. }) => true,
        _ => false,
    }
}

impl Names<'_> {
    pub fn structure(&self, name: &Name) -> Option<u32>
        ensures { result ≡ (known_of self.now).structure name.now }
    {
        self.tables.structures.numbers.structures.get(name).copied()
    }

    pub fn pool(&self, name: &Name) -> Option<u32>
        ensures { result ≡ (known_of self.now).pool name.now }
    {
        self.tables.symbols.pools.pools.get(name).copied()
    }

    pub fn set(&self, name: &Name) -> Option<u32>
        ensures { result ≡ (known_of self.now).set name.now }
    {
        self.tables.symbols.sets.sets.get(name).copied()
    }

    pub fn relation(&self, name: &Name) -> Option<u32>
        ensures { result ≡ (known_of self.now).relation name.now }
    {
        self.tables.symbols.sets.relations.get(name).copied()
    }

    /// The first supply of the pool that has a name.
    pub fn supply(&self, name: &Name) -> Option<u32>
        ensures { result ≡ (known_of self.now).supply name.now }
    {
        self.tables.symbols.pools.supplies.get(name).copied()
    }

    /// The structure of a name as a parent, a pool's structure or a set's.
    pub fn used_structure(&self, name: &Name) -> Option<u32>
        ensures { result ≡ used_structure (known_of self.now) name.now }
    {
        if is_head(name) {
            None
        } else {
            self.structure(name)
        }
    }

    /// The ancestors of a structure, the nearest first.
    pub fn ancestors(&self, structure: usize) -> &[u32]
        ensures { result.now ≡ ancestors_of (known_of self.now) structure }
    {
        match self.tables.structures.rows.ancestors.get(structure) {
            Some(line) => line,
            None => &[],
        }
    }

    /// The field that a structure itself declares under a name.
    pub fn own_field(&self, structure: usize, name: &Name) -> Option<u32>
        ensures { result ≡ own_field (known_of self.now) structure name.now }
    {
        match self.tables.structures.rows.fields.get(structure) {
            Some(fields) => fields.get(name).copied(),
            None => None,
        }
    }

    /// Whether an ancestor of a structure declares a field of this name.
    pub fn inherits(&self, structure: usize, name: &Name) -> bool
        ensures { result ≡ inherits (known_of self.now) structure name.now }
    {
        for ancestor in self.ancestors(structure) {
            if self.own_field(*ancestor as usize, name).is_some() {
                return true;
            }
        }
        false
    }

    /// Whether a structure is another one or descends from it.
    pub fn descends(&self, structure: u32, ancestor: u32) -> bool
        ensures { result ≡ descends (known_of self.now) structure ancestor }
    {
        structure == ancestor || self.ancestors(structure as usize).contains(&ancestor)
    }

    /// The structure of a pool.
    pub fn pool_structure(&self, pool: u32) -> Option<u32>
        ensures { result ≡ pool_structure (known_of self.now) pool }
    {
        match self.tree.pools.items().get(pool as usize) {
            Some(pool) => self.used_structure(&pool.structure.name),
            None => None,
        }
    }

    // A set by its number, where it is no complement.
    fn plain_number(&self, number: u32) -> Option<u32>
        ensures { result ≡ plain_number (known_of self.now) number }
    {
        match self.tree.sets.items().get(number as usize) {
            Some(set) if !is_complement(&set.view) => Some(number),
            _ => None,
        }
    }

    /// The set of a name where no complement may stand.
    pub fn plain_set(&self, name: &Name) -> Option<u32>
        ensures { result ≡ plain_set (known_of self.now) name.now }
    {
        match self.set(name) {
            Some(number) => self.plain_number(number),
            None => None,
        }
    }

    /// The pool of a set.
    pub fn set_pool(&self, set: u32) -> Option<u32>
        ensures { result ≡ set_pool (known_of self.now) set }
    {
        match self.tree.sets.items().get(set as usize) {
            Some(set) => self.pool(&set.pool.name),
            None => None,
        }
    }
}
