// What is asked of names.
ghost use Rattle.std.specs.Prelude.{◌≡◌, option_map};
ghost use Rattle.dsr_meaning.specs.Instances.{declared_field};
ghost use Rattle.dsr_language_theory.specs.Known.{pool_named, set_named, relation_named, plain_number, plain_set, plain_named, field_length};
ghost use Rattle.dsr_names.specs.Tables.{own_field, first_field, line_of, known_of};

use crate::tables::TableNames;
use dsr_ir::{Expr, Field, FieldRef, Name, Pool, Rel, SetDecl, Structures};

/// Declared tables, and what names stand for there.
#[derive(Clone, Copy)]
pub struct Known<'a> {
    pub base: &'a Structures,
    pub tables: &'a TableNames,
}

impl<'a> Known<'a> {
    /// The pool of a name, counted from 1.
    pub fn pool(&self, name: &Name) -> Option<u32>
        ensures { result ≡ (known_of self.now).pool name.now }
    {
        self.tables.pools.get(name).copied()
    }

    pub fn set(&self, name: &Name) -> Option<u32>
        ensures { result ≡ (known_of self.now).set name.now }
    {
        self.tables.sets.get(name).copied()
    }

    pub fn relation(&self, name: &Name) -> Option<u32>
        ensures { result ≡ (known_of self.now).relation name.now }
    {
        self.tables.relations.get(name).copied()
    }

    // The field that a structure itself declares under a name.
    fn own_field(&self, structure: u32, name: &Name) -> Option<FieldRef>
        ensures { result ≡ own_field self.now.tables.now name.now structure }
    {
        let Some(fields) = self.tables.fields.get(structure as usize) else {
            return None;
        };
        match fields.get(name) {
            Some(field) => Some(FieldRef {
                structure,
                field: *field,
            }),
            None => None,
        }
    }

    // The first of several structures to declare a field of this name.
    fn first_field(&self, structures: &[u32], name: &Name) -> Option<FieldRef>
        ensures { result ≡ first_field self.now.tables.now name.now structures.now }
    {
        for structure in structures {
            if let Some(field) = self.own_field(*structure, name) {
                return Some(field);
            }
        }
        None
    }

    // The ancestors of a structure, the nearest first.
    fn ancestors(&self, structure: u32) -> &[u32]
        ensures { result.now ≡ line_of self.now.tables.now structure }
    {
        match self.tables.ancestors.get(structure as usize) {
            Some(line) => line,
            None => &[],
        }
    }

    /// The field of a structure's records under a name: its own, or that of an ancestor.
    pub fn field(&self, structure: u32, name: &Name) -> Option<FieldRef>
        ensures { result ≡ (known_of self.now).field structure name.now }
    {
        match self.own_field(structure, name) {
            Some(field) => Some(field),
            None => self.first_field(self.ancestors(structure), name),
        }
    }

    /// The declaration of a field.
    pub fn declared_field(&self, field: FieldRef) -> Option<&'a Field>
        ensures { option_map (λ f. f.now) result ≡ declared_field self.now.base.now field }
    {
        match self.base.structures.items().get(field.structure as usize) {
            Some(structure) => structure.fields.items().get(field.field as usize),
            None => None,
        }
    }

    /// How many entries the array of a field has; none for a scalar.
    pub fn field_length(&self, field: FieldRef) -> Option<&'a Expr>
        ensures { option_map (λ e. e.now) result ≡ field_length self.now.base.now field }
    {
        match self.declared_field(field) {
            Some(field) => field.len.as_ref(),
            None => None,
        }
    }

    /// The declaration of the pool that has a name.
    pub fn pool_named(&self, name: &Name) -> Option<&'a Pool>
        ensures { option_map (λ p. p.now) result ≡ pool_named (known_of self.now) name.now }
    {
        let number = self.pool(name)?.checked_sub(1)?;
        self.base.pools.items().get(number as usize)
    }

    /// The declaration of the set that has a name.
    pub fn set_named(&self, name: &Name) -> Option<&'a SetDecl>
        ensures { option_map (λ s. s.now) result ≡ set_named (known_of self.now) name.now }
    {
        match self.set(name) {
            Some(set) => self.base.sets.items().get(set as usize),
            None => None,
        }
    }

    /// The declaration of the relation that has a name.
    pub fn relation_named(&self, name: &Name) -> Option<&'a Rel>
        ensures { option_map (λ r. r.now) result ≡ relation_named (known_of self.now) name.now }
    {
        match self.relation(name) {
            Some(relation) => self.base.rels.items().get(relation as usize),
            None => None,
        }
    }

    // A set by its number, where it is no complement.
    fn plain_number(&self, set: u32) -> Option<u32>
        ensures { result ≡ plain_number (known_of self.now) set }
    {
        match self.base.sets.items().get(set as usize) {
            Some(declared) if declared.except.is_none() => Some(set),
            _ => None,
        }
    }

    /// The set of a name where no complement may stand.
    pub fn plain_set(&self, name: &Name) -> Option<u32>
        ensures { result ≡ plain_set (known_of self.now) name.now }
    {
        match self.set(name) {
            Some(set) => self.plain_number(set),
            None => None,
        }
    }

    /// The declaration of such a set.
    pub fn plain_named(&self, name: &Name) -> Option<&'a SetDecl>
        ensures { option_map (λ s. s.now) result ≡ plain_named (known_of self.now) name.now }
    {
        match self.plain_set(name) {
            Some(set) => self.base.sets.items().get(set as usize),
            None => None,
        }
    }
}
