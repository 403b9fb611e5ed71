// The typed rules of a tree, where it has no fault.
ghost use Rattle.std.specs.Prelude.{◌≡◌, ◌∷◌, Some, map, IfOk};
ghost use Rattle.dsr_names.specs.Tables.{known_of};
ghost use Rattle.dsr_tree.specs.declared.tree.Term.TheVariants as terms;
ghost use Rattle.dsr_language_theory.specs.Rules.{guards_of, premise_set};
ghost use Rattle.dsr_language_theory.specs.TypedRules.{field_in, pool_in, typed_test, typed_path, path_in, typed_guard, typed_index, typed_span, typed_pair, slot_pool, typed_member, typed_inclusion, rule_in, typed_rule, typed_rules};
ghost use Rattle.dsr_rules.specs.Scopes.{scope_told};

use crate::scopes::Scope;
use dsr_ir::{FieldRef, Guard, Inc, NoMemory, Path, Rule, Seq, Span, Test};
use dsr_names::{Known, number_of, typed_compare};
use dsr_tree::{
    self, Guards, Inclusion, Index, MemberPart, PlacedName, Premise, RefTest, Term, Var,
};
use std::alloc::Global;

// The field that was found, and some field where there is none.
fn field_in(found: Option<FieldRef>) -> FieldRef
    ensures { result ≡ field_in found }
{
    found.unwrap_or(FieldRef {
        structure: 0,
        field: 0,
    })
}

fn pool_in(known: &Known<'_>, name: &PlacedName) -> u32
    ensures { result ≡ pool_in (known_of known.now) name.now }
{
    number_of(known.pool(&name.name))
}

fn typed_test(test: RefTest) -> Test
    ensures { result ≡ typed_test test }
{
    match test {
        RefTest::Legal => Test::Legal,
        RefTest::Illegal => Test::Illegal,
        RefTest::None => Test::IsNone,
        RefTest::Some => Test::IsSome,
    }
}

// The set of a premise; none where it is `head`.
fn premise_set(known: &Known<'_>, premise: &Premise) -> Option<u32>
    ensures { result ≡ premise_set (known_of known.now) premise.now }
{
    match premise {
        Premise::Head { .. } => None,
        Premise::Member { set, .. } => known.plain_set(&set.name),
    }
}

// The pool of a slot.
fn slot_pool(known: &Known<'_>, var: &Var) -> u32
    ensures { result ≡ slot_pool (known_of known.now) var.now }
{
    match var {
        Var::Head { .. } => 0,
        Var::Name(pool) => pool_in(known, pool),
    }
}

impl Scope<'_> {
    fn typed_path(&self, var: &Var, field: &PlacedName, index: &Option<PlacedName>) -> Path
        ensures { result ≡ typed_path (scope_told self.now) var.now field.now index.now }
    {
        Path {
            field: field_in(self.path_field(var, field)),
            indexed: index.is_some(),
        }
    }

    fn path_in(&self, path: &dsr_tree::Path) -> Path
        ensures { result ≡ path_in (scope_told self.now) path.now }
    {
        self.typed_path(&path.var, &path.field, &path.index)
    }

    fn typed_guard(&self, guard: &dsr_tree::Guard) -> Guard
        ensures { result ≡ typed_guard (scope_told self.now) guard.now }
    {
        match guard {
            dsr_tree::Guard::Tested { test, path, .. } => Guard {
                path: self.path_in(path),
                test: typed_test(*test),
            },
            dsr_tree::Guard::Compared {
                path,
                compare,
                number,
            } => Guard {
                path: self.path_in(path),
                test: Test::Cmp(typed_compare(*compare), number.number),
            },
        }
    }

    fn typed_guard_list(&self, alloc: Global, guards: &Guards) -> Result<Seq<Guard>, NoMemory>
        ensures { IfOk result (λ gs. gs
            ≡ map (typed_guard (scope_told self.now)) (guards.now.first ∷ guards.now.rest)) }
    {
        let mut typed = Vec::new(alloc);
        typed.push(self.typed_guard(&guards.first))?;
        for guard in guards.rest.items() {
            typed.push(self.typed_guard(guard))?;
        }
        Ok(Seq::new(typed))
    }

    fn typed_guards(&self, alloc: Global, guards: &Option<Guards>) -> Result<Seq<Guard>, NoMemory>
        ensures { IfOk result (λ gs. gs ≡ map (typed_guard (scope_told self.now)) (guards_of guards.now)) }
    {
        match guards {
            Some(guards) => self.typed_guard_list(alloc, guards),
            None => Ok(Seq::new(Vec::new(alloc))),
        }
    }

    fn typed_index(&self, index: &Index) -> Span
        ensures { result ≡ typed_index (scope_told self.now) index.now }
    {
        match index {
            Index::Pool { pool, .. } => Span::Slots(pool_in(&self.known, pool)),
            Index::Array(array) => Span::Array(field_in(self.field_of(&array.name))),
        }
    }

    fn typed_span(&self, span: &Option<dsr_tree::Span>) -> Span
        ensures { result ≡ typed_span (scope_told self.now) span.now }
    {
        match span {
            Some(span) => self.typed_index(&span.index),
            None => Span::Single,
        }
    }

    fn typed_named_pair(
        &self,
        name: &PlacedName,
        index: &Option<PlacedName>,
        relation: u32,
        path: Path,
    ) -> Inc
        ensures { result ≡ typed_pair (scope_told self.now) (terms.Named name.now index.now) relation path }
    {
        match index {
            Some(_) => Inc::SlotPair(relation, pool_in(&self.known, name), path),
            None => Inc::OwnPair(relation, path),
        }
    }

    fn typed_pair(&self, term: &Term, relation: u32, path: Path) -> Inc
        ensures { result ≡ typed_pair (scope_told self.now) term.now relation path }
    {
        match term {
            Term::Head { .. } => Inc::OwnPair(relation, path),
            Term::Named { name, index } => self.typed_named_pair(name, index, relation, path),
        }
    }

    fn typed_part(&self, set: u32, var: &Var, part: &MemberPart) -> Inc
        ensures { result ≡ typed_member (scope_told self.now) set var.now (Some part.now) }
    {
        match part {
            MemberPart::Field { field, index } => {
                Inc::Target(set, self.typed_path(var, field, index))
            }
            MemberPart::Slot(_) => Inc::Slot(set, slot_pool(&self.known, var)),
        }
    }

    fn typed_member(&self, set: u32, var: &Var, part: &Option<MemberPart>) -> Inc
        ensures { result ≡ typed_member (scope_told self.now) set var.now part.now }
    {
        match part {
            Some(part) => self.typed_part(set, var, part),
            None => Inc::Own(set),
        }
    }

    fn typed_inclusion(&self, inclusion: &Inclusion) -> Inc
        ensures { result ≡ typed_inclusion (scope_told self.now) inclusion.now }
    {
        match inclusion {
            Inclusion::Pair {
                term,
                path,
                relation,
                ..
            } => {
                let relation = number_of(self.known.relation(&relation.name));
                self.typed_pair(term, relation, self.path_in(path))
            }
            Inclusion::Member { member, set } => {
                let set = number_of(self.known.plain_set(&set.name));
                self.typed_member(set, &member.var, &member.part)
            }
        }
    }

    fn typed_rule(&self, alloc: Global, rule: &dsr_tree::Rule) -> Result<Rule, NoMemory>
        ensures { IfOk result (λ r. r ≡ rule_in (scope_told self.now) rule.now) }
    {
        let inc = self.typed_inclusion(&rule.inclusion);
        let guards = self.typed_guards(alloc, &rule.guards)?;
        Ok(Rule {
            premise: premise_set(&self.known, &rule.premise),
            span: self.typed_span(&rule.span),
            guards,
            inc,
        })
    }
}

fn typed_rule(alloc: Global, known: &Known<'_>, rule: &dsr_tree::Rule) -> Result<Rule, NoMemory>
    ensures { IfOk result (λ r. r ≡ typed_rule (known_of known.now) rule.now) }
{
    Scope::new(known, rule).typed_rule(alloc, rule)
}

/// The typed rules of a tree.
pub fn typed_rules(
    alloc: Global,
    known: &Known<'_>,
    rules: &[dsr_tree::Rule],
) -> Result<Vec<Rule>, NoMemory>
    ensures { IfOk result (λ rs. rs.items ≡ typed_rules (known_of known.now) rules.now) }
{
    let mut typed = Vec::new(alloc);
    for rule in rules {
        let entry = typed_rule(alloc, known, rule)?;
        typed.push(entry)?;
    }
    Ok(typed)
}
