// The tables of sets and relations.
ghost use Rattle.std.specs.Prelude.{◌≡◌, map, unwrap_or, option_and_then, IfOk};
ghost use Rattle.dsr_language_theory.specs.Names.{pool_structure};
ghost use Rattle.dsr_language_theory.specs.Tables.{set_structure, typed_except, typed_set, typed_source, typed_target, typed_relation};
ghost use Rattle.dsr_struct.specs.Known.{known_of, AllFit};

use crate::lookups::Names;
use crate::typed_exprs::number_in;
use dsr_ir::{NoMemory, Rel, Seq, SetDecl, TryClone};
use dsr_tree::{Relation, Set, Target, Var, View};
use std::alloc::Global;

impl Names<'_> {
    // The structure by which a set is read.
    fn set_structure(&self, set: &Set) -> u32
        requires fit { AllFit (known_of self.now) }
        ensures { result ≡ set_structure (known_of self.now) set.now set.now.view }
    {
        match &set.view {
            Some(View::As { structure, .. }) => self.structure_in(structure),
            _ => self.structure_of_pool(&set.pool).unwrap_or(0),
        }
    }

    // The set of which a set is the complement.
    fn typed_except(&self, view: &Option<View>) -> Option<u32>
        requires fit { AllFit (known_of self.now) }
        ensures { result ≡ typed_except (known_of self.now) view.now }
    {
        match view {
            Some(View::Except { set, .. }) => Some(number_in(&self.tables.symbols.sets.sets, set)),
            _ => None,
        }
    }

    fn typed_set(&self, alloc: Global, set: &Set) -> Result<SetDecl, NoMemory>
        requires fit { AllFit (known_of self.now) }
        ensures { IfOk result (λ s. s ≡ typed_set (known_of self.now) set.now) }
    {
        let pool = self.pool_in(&set.pool);
        let structure = self.set_structure(set);
        let except = self.typed_except(&set.view);
        let name = set.name.name.clone(alloc)?;
        Ok(SetDecl {
            name,
            pool,
            structure,
            except,
        })
    }

    /// The table of sets.
    pub fn typed_sets(&self, alloc: Global) -> Result<Seq<SetDecl>, NoMemory>
        requires fit { AllFit (known_of self.now) }
        ensures { IfOk result (λ ss. ss ≡ map (typed_set (known_of self.now)) (known_of self.now).tree.sets) }
    {
        let mut typed = Vec::new(alloc);
        for set in self.tree.sets.items() {
            let entry = self.typed_set(alloc, set)?;
            typed.push(entry)?;
        }
        Ok(Seq::new(typed))
    }

    fn typed_source(&self, source: &Var) -> u32
        requires fit { AllFit (known_of self.now) }
        ensures { result ≡ typed_source (known_of self.now) source.now }
    {
        match source {
            Var::Head { .. } => 0,
            Var::Name(pool) => self.pool_in(pool),
        }
    }

    fn typed_target(&self, target: &Target) -> Option<u32>
        requires fit { AllFit (known_of self.now) }
        ensures { result ≡ typed_target (known_of self.now) target.now }
    {
        match target {
            Target::Number { .. } => None,
            Target::Pool(pool) => Some(self.pool_in(pool)),
        }
    }

    fn typed_relation(&self, alloc: Global, relation: &Relation) -> Result<Rel, NoMemory>
        requires fit { AllFit (known_of self.now) }
        ensures { IfOk result (λ r. r ≡ typed_relation (known_of self.now) relation.now) }
    {
        let source = self.typed_source(&relation.source);
        let target = self.typed_target(&relation.target);
        let name = relation.name.name.clone(alloc)?;
        Ok(Rel {
            name,
            source,
            target,
        })
    }

    /// The table of relations.
    pub fn typed_relations(&self, alloc: Global) -> Result<Seq<Rel>, NoMemory>
        requires fit { AllFit (known_of self.now) }
        ensures { IfOk result (λ rs. rs
            ≡ map (typed_relation (known_of self.now)) (known_of self.now).tree.relations) }
    {
        let mut typed = Vec::new(alloc);
        for relation in self.tree.relations.items() {
            let entry = self.typed_relation(alloc, relation)?;
            typed.push(entry)?;
        }
        Ok(Seq::new(typed))
    }
}
