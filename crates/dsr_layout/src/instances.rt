// The number of instances of rules and constraints. Sums and products stop at the last number of 64
// bits, which is far above every limit.
ghost use Rattle.std.specs.Prelude.{◌≡◌, true, is_some, map, sum};
ghost use Rattle.dsr_meaning.specs.Instances as instances;
ghost use Rattle.dsr_meaning.specs.Models.{base_of};
ghost use Rattle.dsr_meaning.specs.Refusals as meaning;
ghost use Rattle.dsr_meaning.specs.Refusals.{instance_refusals, instances_where};
ghost use Rattle.dsr_ir.specs.Rules.{gives};
ghost use Rattle.dsr_layout.specs.Tables.{clip};
ghost use Rattle.dsr_layout.specs.Telling.{told_of};

use crate::faults::LayoutFault;
use crate::lookups::{field_place, record_count, set_pool};
use dsr_ir::{Constraint, Layout, Quant, Rule, Span, Spec, Symbol};

/// The pool of the records of a rule.
pub fn premise_pool(spec: &Spec, rule: &Rule) -> u32
    ensures { result ≡ instances.premise_pool spec.now rule.now }
{
    match rule.premise {
        Some(set) => set_pool(spec, set),
        None => 0,
    }
}

/// How many entries an index runs over, 1 where there is none.
pub fn index_count(layout: &Layout, span: Span) -> u64
    ensures { result ≡ instances.index_count layout.now span }
{
    match span {
        Span::Single => 1,
        Span::Array(field) => match field_place(layout, field) {
            Some(place) => place.length.unwrap_or(0),
            None => 0,
        },
        Span::Slots(pool) => record_count(layout, pool),
    }
}

fn rule_instances(spec: &Spec, layout: &Layout, rule: &Rule) -> u64
    ensures { result ≡ clip (meaning.rule_instances spec.now layout.now rule.now) }
{
    let records = record_count(layout, premise_pool(spec, rule));
    records.saturating_mul(index_count(layout, rule.span))
}

// The instances of the rules of a symbol.
fn symbol_instances(spec: &Spec, layout: &Layout, symbol: Symbol) -> u64
    ensures { result ≡ clip (instances_where spec.now layout.now (gives symbol) spec.now.rules) }
{
    let mut total: u64 = 0;
    for rule in spec.rules.items() {
        if rule.inc.gives(symbol) {
            total = total.saturating_add(rule_instances(spec, layout, rule));
        }
    }
    total
}

// The instances of all rules.
fn all_rule_instances(spec: &Spec, layout: &Layout) -> u64
    ensures { result ≡ clip (instances_where spec.now layout.now (λ _. true) spec.now.rules) }
{
    let mut total: u64 = 0;
    for rule in spec.rules.items() {
        total = total.saturating_add(rule_instances(spec, layout, rule));
    }
    total
}

// Whether a set is declared as a complement.
fn is_complement(spec: &Spec, set: u32) -> bool
    ensures { result ≡ is_some (base_of spec.now set) }
{
    match spec.base.sets.items().get(set as usize) {
        Some(set) => set.except.is_some(),
        None => false,
    }
}

// The instances of a quantifier's symbol.
fn quantifier_instances(spec: &Spec, layout: &Layout, quant: Quant) -> u64
    ensures { result ≡ clip (meaning.quantifier_instances spec.now layout.now quant) }
{
    match quant {
        Quant::Once => 0,
        Quant::Each(set) if is_complement(spec, set) => record_count(layout, set_pool(spec, set)),
        Quant::Each(set) => symbol_instances(spec, layout, Symbol::Set(set)),
        Quant::Pairs(rel) => symbol_instances(spec, layout, Symbol::Rel(rel)),
    }
}

fn all_quantifier_instances(spec: &Spec, layout: &Layout, constraints: &[Constraint]) -> u64
    ensures { result ≡ clip (sum
        (map (λ c. meaning.quantifier_instances spec.now layout.now c.quant) constraints.now)) }
{
    let mut total: u64 = 0;
    for constraint in constraints {
        total = total.saturating_add(quantifier_instances(spec, layout, constraint.quant));
    }
    total
}

// How many instances a specification of a version may have.
fn instance_limit(version: u8) -> u64
    ensures { result ≡ meaning.instance_limit version }
{
    if version == 2 { 16_777_216 } else { 4_194_304 }
}

/// `Instances` where there are too many.
pub fn too_many_instances(spec: &Spec, layout: &Layout) -> Option<LayoutFault>
    ensures { result ≡ told_of (instance_refusals spec.now layout.now) }
{
    let quantified = all_quantifier_instances(spec, layout, spec.constraints.items());
    let total = all_rule_instances(spec, layout).saturating_add(quantified);
    if instance_limit(spec.base.version) < total {
        Some(LayoutFault::Instances)
    } else {
        None
    }
}
