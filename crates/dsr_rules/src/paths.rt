// The names and the indexes of paths.
ghost use Rattle.std.specs.Prelude.{◌≡◌, ◌||◌, Some};
ghost use Rattle.dsr_language_theory.specs.Known.{is_nil, field_is};
ghost use Rattle.dsr_language_theory.specs.Rules.{field_of, path_field};
ghost use Rattle.dsr_language_theory.specs.RuleFaults.{is_scalar, is_other_head, variable_faults, field_faults, path_names, is_foreign, is_misread, has_other_length, index_faults, path_faults, counts_others, slot_faults};
ghost use Rattle.dsr_rules.specs.Scopes.{scope_told};
ghost use Rattle.dsr_names.specs.Telling.{Finds};

use crate::scopes::{Scope, slot_count};
use dsr_ir::FieldRef;
use dsr_names::{Told, differ, is_this, note_name};
use dsr_tree::{Condition, Path, PlacedName, Var};

impl Scope<'_> {
    /// Whether `head` stands where the record has a name.
    pub fn is_other_head(&self, var: &Var) -> bool
        ensures { result ≡ is_other_head (scope_told self.now) var.now }
    {
        match var {
            Var::Head { .. } => self.name.is_some(),
            Var::Name(_) => false,
        }
    }

    /// Notes a variable that isn't the rule's, and says whether it is.
    pub fn check_variable(&self, told: &mut Told, name: &PlacedName) -> bool
        ensures told { Finds (variable_faults (scope_told self.now) name.now) told.old.fault told.new.fault }
        ensures known { result ≡ is_nil (variable_faults (scope_told self.now) name.now) }
    {
        note_name(told, is_this(self.name, &name.name), name)
    }

    /// Notes a field that the record hasn't got, and says whether it may have it. What was found
    /// under its name is given.
    pub fn check_field(&self, told: &mut Told, name: &PlacedName, found: Option<FieldRef>) -> bool
        requires found { found ≡ field_of (scope_told self.now) name.now.name }
        ensures told { Finds (field_faults (scope_told self.now) name.now) told.old.fault told.new.fault }
        ensures known { result ≡ is_nil (field_faults (scope_told self.now) name.now) }
    {
        let is_known = self.structure.is_none() || found.is_some();
        note_name(told, is_known, name)
    }

    /// Notes the names of a path that stand for nothing, and says whether there are none. The field
    /// that it reads is given.
    pub fn check_path_names(
        &self,
        told: &mut Told,
        var: &Var,
        field: &PlacedName,
        found: Option<FieldRef>,
    ) -> bool
        requires found { found ≡ path_field (scope_told self.now) var.now field.now }
        ensures told { Finds (path_names (scope_told self.now) var.now field.now) told.old.fault
            told.new.fault }
        ensures known { result ≡ is_nil (path_names (scope_told self.now) var.now field.now) }
    {
        if self.is_record(var) {
            return self.check_field(told, field, found);
        }
        match var {
            Var::Head { .. } => true,
            Var::Name(name) => self.check_variable(told, name),
        }
    }

    // Whether an index has another name than the rule's.
    fn is_foreign(&self, index: &Option<PlacedName>) -> bool
        ensures { result ≡ is_foreign (scope_told self.now) index.now }
    {
        match index {
            Some(index) => !is_this(self.index, &index.name),
            None => false,
        }
    }

    // Whether a field is known that the rule's index can't read: a scalar, or any under the slots
    // of a pool.
    fn is_unread(&self, field: Option<FieldRef>) -> bool
        ensures { result ≡ field_is self.now.known.base.now (λ f. is_scalar f || self.now.over_pool) field }
    {
        match self.known.declared(field) {
            Some(field) => field.len.is_none() || self.over_pool,
            None => false,
        }
    }

    // Whether an array is read without index or under the slots of a pool, or a scalar with one.
    fn is_misread(&self, field: Option<FieldRef>, index: &Option<PlacedName>) -> bool
        ensures { result ≡ is_misread (scope_told self.now) field index.now }
    {
        match index {
            Some(_) => self.is_unread(field),
            None => self.known.is_array(field),
        }
    }

    fn is_bad_index(&self, field: Option<FieldRef>, index: &Option<PlacedName>) -> bool
        ensures { result ≡ (is_foreign (scope_told self.now) index.now
            || is_misread (scope_told self.now) field index.now) }
    {
        self.is_foreign(index) || self.is_misread(field, index)
    }

    // Whether a field at an index is longer or shorter than what the rule's index runs over.
    fn is_other_length(&self, field: FieldRef, index: &PlacedName) -> bool
        ensures { result ≡ has_other_length (scope_told self.now) (Some field) (Some index.now) }
    {
        is_this(self.index, &index.name)
            && !self.over_pool
            && differ(self.entries, self.known.field_length(field))
    }

    fn has_other_length(&self, field: Option<FieldRef>, index: &Option<PlacedName>) -> bool
        ensures { result ≡ has_other_length (scope_told self.now) field index.now }
    {
        let Some(field) = field else {
            return false;
        };
        match index {
            Some(index) => self.is_other_length(field, index),
            None => false,
        }
    }

    /// Notes what is wrong with the index by which a field is read.
    pub fn check_index(&self, told: &mut Told, field: Option<FieldRef>, index: &Option<PlacedName>)
        ensures { Finds (index_faults (scope_told self.now) field index.now) told.old.fault told.new.fault }
    {
        let is_bad = self.is_bad_index(field, index);
        let has_other_length = self.has_other_length(field, index);
        told.note_if(is_bad, Condition::BadIndex, self.place);
        told.note_if(has_other_length, Condition::LengthMismatch, self.place);
    }

    /// Notes what is wrong with a path, and gives the field that it reads, where that is known.
    pub fn check_path(&self, told: &mut Told, path: &Path) -> Option<FieldRef>
        ensures told { Finds (path_faults (scope_told self.now) path.now) told.old.fault told.new.fault }
        ensures field { result ≡ path_field (scope_told self.now) path.now.var path.now.field }
    {
        let field = self.path_field(&path.var, &path.field);
        self.check_path_names(told, &path.var, &path.field, field);
        self.check_index(told, field, &path.index);
        field
    }

    // Whether the rule's index is known not to count the slots of a pool.
    fn counts_others(&self, pool: &PlacedName, index: &PlacedName) -> bool
        ensures { result ≡ counts_others (scope_told self.now) pool.now index.now }
    {
        is_this(self.index, &index.name) && differ(self.entries, slot_count(&self.known, pool))
    }

    /// Notes what is wrong with the index of a slot.
    pub fn check_slot(&self, told: &mut Told, pool: &PlacedName, index: &PlacedName)
        ensures { Finds (slot_faults (scope_told self.now) pool.now index.now) told.old.fault told.new.fault }
    {
        let is_foreign = !is_this(self.index, &index.name);
        let counts_others = self.counts_others(pool, index);
        told.note_if(is_foreign, Condition::BadIndex, self.place);
        told.note_if(counts_others, Condition::LengthMismatch, self.place);
    }
}
