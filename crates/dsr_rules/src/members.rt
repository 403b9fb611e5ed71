// The faults of members that rules give, and of inclusions.
ghost use Rattle.std.specs.Prelude.{◌≡◌, Some, option_map};
ghost use Rattle.dsr_tree.specs.declared.tree.Var.TheVariants as vars;
ghost use Rattle.dsr_language_theory.specs.Known.{is_nil, plain_named};
ghost use Rattle.dsr_language_theory.specs.Rules.{path_field};
ghost use Rattle.dsr_language_theory.specs.RuleFaults.{inclusion_faults};
ghost use Rattle.dsr_rules.specs.Scopes.{scope_told, set_names, faults_of_member, target_names, target_faults, leads_elsewhere, slot_names, slot_member_faults, record_names, own_faults};
ghost use Rattle.dsr_names.specs.Telling.{Finds};

use crate::pairs::note_mismatch;
use crate::scopes::Scope;
use dsr_ir::FieldRef;
use dsr_names::{Told, disagree, note_found, var_place};
use dsr_tree::{Inclusion, Member, MemberPart, PlacedName, Var};

impl Scope<'_> {
    // Notes a set that is none or a complement, and says whether it is neither.
    fn check_set(&self, told: &mut Told, set: &PlacedName) -> bool
        ensures told { Finds (set_names (scope_told self.now) set.now) told.old.fault told.new.fault }
        ensures known { result ≡ is_nil (set_names (scope_told self.now) set.now) }
    {
        note_found(told, self.known.plain_set(&set.name), set)
    }

    // The pool of a set, where that is known.
    fn pool_of_set(&self, set: &PlacedName) -> Option<u32>
        ensures { result ≡ option_map (λ s. s.pool) (plain_named (scope_told self.now).known set.now.name) }
    {
        match self.known.plain_named(&set.name) {
            Some(set) => Some(set.pool),
            None => None,
        }
    }

    // The names of the target of a reference.
    fn check_target_names(
        &self,
        told: &mut Told,
        var: &Var,
        field: &PlacedName,
        index: &Option<PlacedName>,
        found: Option<FieldRef>,
        set: &PlacedName,
    ) -> bool
        requires found { found ≡ path_field (scope_told self.now) var.now field.now }
        ensures told { Finds (target_names
            (scope_told self.now) var.now field.now index.now set.now) told.old.fault
            told.new.fault }
        ensures known { result ≡ is_nil
            (target_names (scope_told self.now) var.now field.now index.now set.now) }
    {
        let is_set = self.check_set(told, set);
        let is_path = self.check_path_names(told, var, field, found);
        is_set && is_path
    }

    // Whether a path is known to lead to no record of a pool.
    fn leads_elsewhere(&self, var: &Var, field: Option<FieldRef>, pool: Option<u32>) -> bool
        ensures { result ≡ leads_elsewhere (scope_told self.now) var.now field pool }
    {
        self.is_other_head(var) || self.known.refers_elsewhere(pool, field)
    }

    // The target of a reference.
    fn check_target(
        &self,
        told: &mut Told,
        var: &Var,
        field: &PlacedName,
        index: &Option<PlacedName>,
        set: &PlacedName,
    )
        ensures { Finds (target_faults (scope_told self.now) var.now field.now index.now set.now)
            told.old.fault told.new.fault }
    {
        let found = self.path_field(var, field);
        let leads_elsewhere = self.leads_elsewhere(var, found, self.pool_of_set(set));
        let are_known = self.check_target_names(told, var, field, index, found, set);
        self.check_index(told, found, index);
        note_mismatch(told, are_known, leads_elsewhere, var_place(var));
    }

    // `head` without a field is the member of no set.
    fn check_head(&self, told: &mut Told, place: u64, set: &PlacedName)
        ensures { Finds (own_faults (scope_told self.now) (vars.Head place) set.now) told.old.fault
            told.new.fault }
    {
        let is_known = self.check_set(told, set);
        note_mismatch(told, is_known, true, place);
    }

    fn check_slot_names(
        &self,
        told: &mut Told,
        pool: &PlacedName,
        number: Option<u32>,
        index: &PlacedName,
        set: &PlacedName,
    ) -> bool
        requires number { number ≡ (scope_told self.now).known.pool pool.now.name }
        ensures told { Finds (slot_names (scope_told self.now) pool.now index.now set.now)
            told.old.fault told.new.fault }
        ensures known { result ≡ is_nil (slot_names (scope_told self.now) pool.now index.now set.now) }
    {
        let is_set = self.check_set(told, set);
        let is_pool = note_found(told, number, pool);
        is_set && is_pool
    }

    // The slot of a pool at an index.
    fn check_slot_of(
        &self,
        told: &mut Told,
        pool: &PlacedName,
        index: &PlacedName,
        set: &PlacedName,
    )
        ensures { Finds (slot_member_faults (scope_told self.now)
            (vars.Name pool.now) index.now set.now) told.old.fault told.new.fault }
    {
        let number = self.known.pool(&pool.name);
        let disagree = disagree(number, self.pool_of_set(set));
        let are_known = self.check_slot_names(told, pool, number, index, set);
        self.check_slot(told, pool, index);
        note_mismatch(told, are_known, disagree, pool.place);
    }

    fn check_slot_member(&self, told: &mut Told, var: &Var, index: &PlacedName, set: &PlacedName)
        ensures { Finds (slot_member_faults (scope_told self.now) var.now index.now set.now)
            told.old.fault told.new.fault }
    {
        match var {
            Var::Head { place } => self.check_head(told, *place, set),
            Var::Name(pool) => self.check_slot_of(told, pool, index, set),
        }
    }

    fn check_record_names(&self, told: &mut Told, name: &PlacedName, set: &PlacedName) -> bool
        ensures told { Finds (record_names (scope_told self.now) name.now set.now) told.old.fault
            told.new.fault }
        ensures known { result ≡ is_nil (record_names (scope_told self.now) name.now set.now) }
    {
        let is_set = self.check_set(told, set);
        let is_variable = self.check_variable(told, name);
        is_set && is_variable
    }

    // The rule's record by its name.
    fn check_record(&self, told: &mut Told, name: &PlacedName, set: &PlacedName)
        ensures { Finds (own_faults (scope_told self.now) (vars.Name name.now) set.now)
            told.old.fault told.new.fault }
    {
        let disagree = disagree(self.pool, self.pool_of_set(set));
        let are_known = self.check_record_names(told, name, set);
        note_mismatch(told, are_known, disagree, name.place);
    }

    fn check_own_member(&self, told: &mut Told, var: &Var, set: &PlacedName)
        ensures { Finds (own_faults (scope_told self.now) var.now set.now) told.old.fault told.new.fault }
    {
        match var {
            Var::Head { place } => self.check_head(told, *place, set),
            Var::Name(name) => self.check_record(told, name, set),
        }
    }

    fn check_part(&self, told: &mut Told, var: &Var, part: &MemberPart, set: &PlacedName)
        ensures { Finds (faults_of_member (scope_told self.now) var.now (Some part.now) set.now)
            told.old.fault told.new.fault }
    {
        match part {
            MemberPart::Field { field, index } => self.check_target(told, var, field, index, set),
            MemberPart::Slot(index) => self.check_slot_member(told, var, index, set),
        }
    }

    fn check_member(&self, told: &mut Told, member: &Member, set: &PlacedName)
        ensures { Finds (faults_of_member
            (scope_told self.now) member.now.var member.now.part set.now) told.old.fault
            told.new.fault }
    {
        match &member.part {
            Some(part) => self.check_part(told, &member.var, part, set),
            None => self.check_own_member(told, &member.var, set),
        }
    }

    /// Notes the faults of what a rule gives.
    pub fn check_inclusion(&self, told: &mut Told, inclusion: &Inclusion)
        ensures { Finds (inclusion_faults (scope_told self.now) inclusion.now) told.old.fault told.new.fault }
    {
        match inclusion {
            Inclusion::Pair {
                place,
                term,
                path,
                relation,
            } => self.check_pair(told, *place, term, path, relation),
            Inclusion::Member { member, set } => self.check_member(told, member, set),
        }
    }
}
