// The faults of rules.
ghost use Rattle.std.specs.Prelude.{◌≡◌, ◌||◌, nat_lt, nat_eq, length};
ghost use Rattle.dsr_meaning.specs.Lists.{each_at};
ghost use Rattle.dsr_names.specs.Tables.{known_of};
ghost use Rattle.dsr_tree.specs.declared.tree.Index.TheVariants as indexes;
ghost use Rattle.dsr_language_theory.specs.Rules.{guards_of};
ghost use Rattle.dsr_language_theory.specs.RuleFaults.{premise_faults, span_index_faults, span_faults, rule_faults};
ghost use Rattle.dsr_rules.specs.Scopes.{scope_told};
ghost use Rattle.dsr_names.specs.Telling.{Finds};

use crate::scopes::Scope;
use dsr_names::{Known, Told, is_this, note_found};
use dsr_tree::{Condition, Guards, Index, PlacedName, Premise, Rule, Span};

// Whether a rule has more than 4 guards.
fn has_many_guards(guards: &Option<Guards>) -> bool
    ensures { result ≡ nat_lt 4 (length (guards_of guards.now)) }
{
    match guards {
        Some(guards) => guards.rest.items().len() >= 4,
        None => false,
    }
}

// Whether a rule is the first one over the limit, or has too many guards.
fn is_over_limit(number: usize, rule: &Rule) -> bool
    ensures { result ≡ (nat_eq number 128 || nat_lt 4 (length (guards_of rule.now.guards))) }
{
    number == 128 || has_many_guards(&rule.guards)
}

fn check_premise(known: &Known<'_>, told: &mut Told, premise: &Premise)
    ensures { Finds (premise_faults (known_of known.now) premise.now) told.old.fault told.new.fault }
{
    if let Premise::Member { set, .. } = premise {
        note_found(told, known.plain_set(&set.name), set);
    }
}

impl Scope<'_> {
    // An index over a pool.
    fn check_pool_index(&self, told: &mut Told, place: u64, pool: &PlacedName)
        ensures { Finds (span_index_faults (scope_told self.now) (indexes.Pool place pool.now))
            told.old.fault told.new.fault }
    {
        told.note_if(self.name.is_some(), Condition::BadIndex, self.place);
        note_found(told, self.known.pool(&pool.name), pool);
    }

    // An index over an array.
    fn check_array_index(&self, told: &mut Told, array: &PlacedName)
        ensures { Finds (span_index_faults (scope_told self.now) (indexes.Array array.now))
            told.old.fault told.new.fault }
    {
        let field = self.field_of(&array.name);
        self.check_field(told, array, field);
        told.note_if(self.known.is_scalar(field), Condition::BadIndex, self.place);
    }

    fn check_span_index(&self, told: &mut Told, index: &Index)
        ensures { Finds (span_index_faults (scope_told self.now) index.now) told.old.fault told.new.fault }
    {
        match index {
            Index::Pool { place, pool } => self.check_pool_index(told, *place, pool),
            Index::Array(array) => self.check_array_index(told, array),
        }
    }

    fn check_span(&self, told: &mut Told, span: &Option<Span>)
        ensures { Finds (span_faults (scope_told self.now) span.now) told.old.fault told.new.fault }
    {
        if let Some(span) = span {
            let is_twice = is_this(self.name, &span.name.name);
            told.note_if(is_twice, Condition::NameTwice, span.name.place);
            self.check_span_index(told, &span.index);
        }
    }
}

fn check_rule(known: &Known<'_>, told: &mut Told, number: usize, rule: &Rule)
    ensures { Finds (rule_faults (known_of known.now) number rule.now) told.old.fault told.new.fault }
{
    let scope = Scope::new(known, rule);
    told.note_if(is_over_limit(number, rule), Condition::Limit, rule.place);
    check_premise(known, told, &rule.premise);
    scope.check_span(told, &rule.span);
    scope.check_guards(told, &rule.guards);
    scope.check_inclusion(told, &rule.inclusion);
}

/// Notes the faults of rules.
pub fn check_rules(known: &Known<'_>, told: &mut Told, rules: &[Rule])
    ensures { Finds (each_at (rule_faults (known_of known.now)) 0 rules.now) told.old.fault told.new.fault }
{
    for (number, rule) in rules.iter().enumerate() {
        check_rule(known, told, number, rule);
    }
}
