// The faults of pairs that rules give.
ghost use Rattle.std.specs.Prelude.{◌≡◌, ◌&&◌, option_map};
ghost use Rattle.dsr_tree.specs.declared.faults.Condition.TheVariants as conditions;
ghost use Rattle.dsr_tree.specs.declared.tree.Term.TheVariants as terms;
ghost use Rattle.dsr_language_theory.specs.Faults.{when};
ghost use Rattle.dsr_language_theory.specs.Known.{is_nil};
ghost use Rattle.dsr_language_theory.specs.Rules.{path_field};
ghost use Rattle.dsr_language_theory.specs.RuleFaults.{term_names, term_faults, term_pool, is_no_pair, relates_others, pair_mismatches};
ghost use Rattle.dsr_rules.specs.Scopes.{scope_told, pair_names, pair_faults};
ghost use Rattle.dsr_names.specs.Telling.{Finds};

use crate::scopes::Scope;
use dsr_ir::{FieldRef, Rel};
use dsr_names::{Told, disagree, is_this, note_found};
use dsr_tree::{Condition, Path, PlacedName, Term};

/// Notes that pools or kinds disagree; that is said only where all names are known.
pub fn note_mismatch(told: &mut Told, are_known: bool, disagree: bool, place: u64)
    ensures { Finds (when (are_known && disagree) conditions.PoolMismatch place) told.old.fault told.new.fault }
{
    told.note_if(are_known && disagree, Condition::PoolMismatch, place);
}

impl Scope<'_> {
    // The names of a source that has a name.
    fn check_source_names(
        &self,
        told: &mut Told,
        name: &PlacedName,
        index: &Option<PlacedName>,
    ) -> bool
        ensures told { Finds (term_names (scope_told self.now) (terms.Named name.now index.now))
            told.old.fault told.new.fault }
        ensures known { result ≡ is_nil (term_names (scope_told self.now) (terms.Named name.now index.now)) }
    {
        match index {
            Some(_) => note_found(told, self.known.pool(&name.name), name),
            None => self.check_variable(told, name),
        }
    }

    // Notes the names of a source that stand for nothing, and says whether there are none.
    fn check_term_names(&self, told: &mut Told, term: &Term) -> bool
        ensures told { Finds (term_names (scope_told self.now) term.now) told.old.fault told.new.fault }
        ensures known { result ≡ is_nil (term_names (scope_told self.now) term.now) }
    {
        match term {
            Term::Head { .. } => true,
            Term::Named { name, index } => self.check_source_names(told, name, index),
        }
    }

    fn check_source_index(&self, told: &mut Told, name: &PlacedName, index: &Option<PlacedName>)
        ensures { Finds (term_faults (scope_told self.now) (terms.Named name.now index.now))
            told.old.fault told.new.fault }
    {
        if let Some(index) = index {
            self.check_slot(told, name, index);
        }
    }

    // Notes what is wrong with the index of a source.
    fn check_term(&self, told: &mut Told, term: &Term)
        ensures { Finds (term_faults (scope_told self.now) term.now) told.old.fault told.new.fault }
    {
        if let Term::Named { name, index } = term {
            self.check_source_index(told, name, index);
        }
    }

    fn source_pool(&self, name: &PlacedName, index: &Option<PlacedName>) -> Option<u32>
        ensures { result ≡ term_pool (scope_told self.now) (terms.Named name.now index.now) }
    {
        match index {
            Some(_) => self.known.pool(&name.name),
            None if is_this(self.name, &name.name) => self.pool,
            None => None,
        }
    }

    // The pool of a source, where that is known.
    fn term_pool(&self, term: &Term) -> Option<u32>
        ensures { result ≡ term_pool (scope_told self.now) term.now }
    {
        match term {
            Term::Head { .. } => match self.name {
                Some(_) => None,
                None => Some(0),
            },
            Term::Named { name, index } => self.source_pool(name, index),
        }
    }

    // Whether a slot stands before a field that is known not to be read at the index.
    fn is_slot_alone(
        &self,
        name: &PlacedName,
        index: &Option<PlacedName>,
        path: &Path,
        field: Option<FieldRef>,
    ) -> bool
        requires field { field ≡ path_field (scope_told self.now) path.now.var path.now.field }
        ensures { result ≡ is_no_pair (scope_told self.now) (terms.Named name.now index.now) path.now }
    {
        index.is_some() && path.index.is_none() && self.known.is_scalar(field)
    }

    // Whether `head` stands where the record has a name, or a slot before a field that isn't read
    // at the index.
    fn is_no_pair(&self, term: &Term, path: &Path, field: Option<FieldRef>) -> bool
        requires field { field ≡ path_field (scope_told self.now) path.now.var path.now.field }
        ensures { result ≡ is_no_pair (scope_told self.now) term.now path.now }
    {
        match term {
            Term::Head { .. } => self.name.is_some(),
            Term::Named { name, index } => self.is_slot_alone(name, index, path, field),
        }
    }

    // Whether a relation has another source or other targets than a pair.
    fn relates_others(
        &self,
        term: &Term,
        path: &Path,
        field: Option<FieldRef>,
        relation: Option<&Rel>,
    ) -> bool
        requires field { field ≡ path_field (scope_told self.now) path.now.var path.now.field }
        ensures { result ≡ relates_others (scope_told self.now) term.now path.now
            (option_map (λ r. r.now) relation.entry) }
    {
        match relation {
            Some(relation) => {
                disagree(Some(relation.source), self.term_pool(term))
                    || self.known.is_other_target(relation.target, field)
            }
            None => false,
        }
    }

    // Whether pools or kinds of a pair and its relation disagree.
    fn is_mismatched(
        &self,
        term: &Term,
        path: &Path,
        field: Option<FieldRef>,
        relation: Option<&Rel>,
    ) -> bool
        requires field { field ≡ path_field (scope_told self.now) path.now.var path.now.field }
        ensures { result ≡ pair_mismatches (scope_told self.now) term.now path.now
            (option_map (λ r. r.now) relation.entry) }
    {
        self.is_no_pair(term, path, field)
            || self.is_other_head(&path.var)
            || self.relates_others(term, path, field, relation)
    }

    // Notes the names of a pair that stand for nothing, and says whether there are none.
    fn check_pair_names(
        &self,
        told: &mut Told,
        term: &Term,
        path: &Path,
        field: Option<FieldRef>,
        relation: &PlacedName,
    ) -> bool
        requires field { field ≡ path_field (scope_told self.now) path.now.var path.now.field }
        ensures told { Finds (pair_names (scope_told self.now) term.now path.now relation.now)
            told.old.fault told.new.fault }
        ensures known { result ≡ is_nil (pair_names (scope_told self.now) term.now path.now relation.now) }
    {
        let is_relation = note_found(told, self.known.relation(&relation.name), relation);
        let is_source = self.check_term_names(told, term);
        let is_path = self.check_path_names(told, &path.var, &path.field, field);
        is_relation && is_source && is_path
    }

    /// Notes the faults of a pair that a rule gives.
    pub fn check_pair(
        &self,
        told: &mut Told,
        place: u64,
        term: &Term,
        path: &Path,
        relation: &PlacedName,
    )
        ensures { Finds (pair_faults (scope_told self.now) place term.now path.now relation.now)
            told.old.fault told.new.fault }
    {
        let field = self.path_field(&path.var, &path.field);
        let declared = self.known.relation_named(&relation.name);
        let is_mismatched = self.is_mismatched(term, path, field, declared);
        let are_known = self.check_pair_names(told, term, path, field, relation);
        self.check_term(told, term);
        self.check_index(told, field, &path.index);
        note_mismatch(told, are_known, is_mismatched, place);
    }
}
