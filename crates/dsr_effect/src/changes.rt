// An update as it stands to be judged, and the fields that it touches.
ghost use Rattle.std.specs.Prelude.{◌≡◌, option_map};
ghost use Rattle.dsr_effect.specs.Told as told;
ghost use Rattle.dsr_effect.specs.Told.{IsTold, change_of};
ghost use Rattle.dsr_meaning.specs.Lists.{any_of};
ghost use Rattle.dsr_update_theory.specs.Changes as said;

use crate::fields::{MOST_STRUCTURES, is_foreign};
use dsr_facts::MOST_SETS;
use dsr_ir::{FieldRef, Goal, Path, Pool, Quant, Rule, Spec, Update, Write};

/// An update for a goal, with what is found for it once.
#[derive(Drop)]
pub struct Change<'a> {
    pub spec: &'a Spec,
    pub quant: &'a Quant,
    pub exclusive: &'a [(u32, u32)],
    pub goal: Goal,
    pub update: &'a Update,
    /// For each declared structure whether its fields may share bytes with one that is written.
    pub foreign: [bool; MOST_STRUCTURES],
    /// The pool of the record that is written, 0 for the head.
    pub pool: Option<u32>,
    /// For each set whether the record that is written is known to be no member.
    pub apart: [bool; MOST_SETS],
    /// The pool of the fresh record.
    pub fresh: Option<&'a Pool>,
    /// For each set whether the fresh record is known to be no member.
    pub avoided: [bool; MOST_SETS],
}

impl<'a> Change<'a> {
    /// The first write of the field.
    pub fn write_to(&self, field: FieldRef) -> Option<&Write>
        ensures { option_map (λ w. w.now) result ≡ said.write_to self.now.update.now.writes field }
    {
        let writes = self.update.writes.items();
        writes.iter().find(|write| write.path.field == field)
    }

    /// Whether the field is written.
    pub fn is_written(&self, field: FieldRef) -> bool
        ensures { result ≡ said.is_written (change_of self.now) field }
    {
        self.write_to(field).is_some()
    }

    /// Whether the field may share bytes with one that is written.
    pub fn is_foreign(&self, field: FieldRef) -> bool
        requires told { IsTold self.now }
        ensures { result ≡ said.is_foreign (change_of self.now) field }
    {
        let structures = &self.spec.base;
        if (field.structure as usize) < structures.structures.items().len() {
            self.foreign[field.structure as usize]
        } else {
            is_foreign(structures, self.update.writes.items(), field.structure)
        }
    }

    // Whether the field's value in the record that is written may be another one afterwards.
    fn is_touched(&self, field: FieldRef) -> bool
        requires told { IsTold self.now }
        ensures { result ≡ said.is_touched (change_of self.now) field }
    {
        self.is_written(field) || self.is_foreign(field)
    }

    // Whether the path is an entry of a written array.
    fn is_written_entry(&self, path: Path) -> bool
        ensures { result ≡ told.is_written_entry (change_of self.now) path }
    {
        path.indexed && self.is_written(path.field)
    }

    // Whether the path is a touched field that is no array.
    fn is_touched_scalar(&self, path: Path) -> bool
        requires told { IsTold self.now }
        ensures { result ≡ told.is_touched_scalar (change_of self.now) path }
    {
        !path.indexed && self.is_touched(path.field)
    }

    fn reads_written_entry(&self, rule: &Rule) -> bool
        ensures { result ≡ any_of (told.is_written_entry (change_of self.now))
            (said.paths_of rule.now) }
    {
        for guard in rule.guards.items() {
            if self.is_written_entry(guard.path) {
                return true;
            }
        }
        match rule.inc.target() {
            Some(path) => self.is_written_entry(path),
            None => false,
        }
    }

    fn reads_touched_scalar(&self, rule: &Rule) -> bool
        requires told { IsTold self.now }
        ensures { result ≡ any_of (told.is_touched_scalar (change_of self.now))
            (said.paths_of rule.now) }
    {
        for guard in rule.guards.items() {
            if self.is_touched_scalar(guard.path) {
                return true;
            }
        }
        match rule.inc.target() {
            Some(path) => self.is_touched_scalar(path),
            None => false,
        }
    }

    /// Whether of the rule's instances at the record only the one at the written entry reads a
    /// field whose value may be another one.
    pub fn is_at_entry(&self, rule: &Rule) -> bool
        requires told { IsTold self.now }
        ensures { result ≡ said.is_at_entry (change_of self.now) rule.now }
    {
        self.reads_written_entry(rule) && !self.reads_touched_scalar(rule)
    }
}
