// Sizes with which a constraint compares values of a field that they don't fit.
ghost use Rattle.std.specs.Prelude.{◌≡◌, ◌≤◌, length, slice_get};
ghost use Rattle.std.specs.Option.{option_map_or};
ghost use Rattle.dsr_meaning.specs.Instances.{record_count};
ghost use Rattle.dsr_meaning.specs.Lists.{any_of};
ghost use Rattle.dsr_meaning.specs.Refusals as meaning;
ghost use Rattle.dsr_meaning.specs.Refusals.{count_refusals};
ghost use Rattle.dsr_layout.specs.Telling.{told_of};
ghost use Rattle.dsr_meaning.specs.Limits.{most_constraints};

use crate::code_checks::fits;
use crate::faults::LayoutFault;
use crate::lookups::{field_place, record_count, set_pool};
use dsr_ir::{Atom, Bound, Conj, Inc, Layout, Literal, Measure, Op, Path, Rule, Spec, Symbol};

// How large a size may be.
fn greatest_size(spec: &Spec, layout: &Layout, measure: Measure) -> u64
    ensures { result ≡ meaning.greatest_size spec.now layout.now measure }
{
    match measure {
        Measure::Whole(set) => record_count(layout, set_pool(spec, set)),
        Measure::Out(_, rel) => target_count(spec, layout, rel),
        Measure::Into(rel, _) => source_count(spec, layout, rel),
    }
}

fn target_count(spec: &Spec, layout: &Layout, rel: u32) -> u64
    ensures { result ≡ option_map_or (λ r. option_map_or (record_count layout.now) r.target 0)
        (slice_get spec.now.base.rels rel) 0 }
{
    match spec.base.rels.items().get(rel as usize) {
        Some(rel) => match rel.target {
            Some(pool) => record_count(layout, pool),
            None => 0,
        },
        None => 0,
    }
}

fn source_count(spec: &Spec, layout: &Layout, rel: u32) -> u64
    ensures { result ≡ option_map_or (λ r. record_count layout.now r.source)
        (slice_get spec.now.base.rels rel) 0 }
{
    match spec.base.rels.items().get(rel as usize) {
        Some(rel) => record_count(layout, rel.source),
        None => 0,
    }
}

// The field whose value a rule gives to a relation.
fn given_path(rel: u32, inc: &Inc) -> Option<Path>
    ensures { result ≡ meaning.given_path rel inc.now }
{
    if inc.gives(Symbol::Rel(rel)) {
        inc.target()
    } else {
        None
    }
}

// Whether a rule gives values to a relation from a field that a number doesn't fit.
fn gives_narrower(layout: &Layout, rel: u32, value: u64, rule: &Rule) -> bool
    ensures { result ≡ meaning.gives_narrower layout.now rel value rule.now }
{
    let Some(path) = given_path(rel, &rule.inc) else {
        return false;
    };
    match field_place(layout, path.field) {
        Some(place) => !fits(place.width, value),
        None => false,
    }
}

fn any_gives_narrower(layout: &Layout, rel: u32, value: u64, rules: &[Rule]) -> bool
    ensures { result ≡ any_of (meaning.gives_narrower layout.now rel value) rules.now }
{
    for rule in rules {
        if gives_narrower(layout, rel, value, rule) {
            return true;
        }
    }
    false
}

// Whether a value that a comparison asks for may be as large as what it is compared with.
fn reaches_bound(op: Op) -> bool
    ensures { result ≡ meaning.reaches_bound op }
{
    matches!(op, Op::Eq | Op::Le | Op::Ge)
}

fn outgrows(spec: &Spec, layout: &Layout, atom: &Atom) -> bool
    ensures { result ≡ meaning.outgrows spec.now layout.now atom.now }
{
    let Atom::Value(_, rel, op, Bound::Size(measure)) = *atom else {
        return false;
    };
    reaches_bound(op)
        && any_gives_narrower(
            layout,
            rel,
            greatest_size(spec, layout, measure),
            spec.rules.items(),
        )
}

fn any_outgrows(spec: &Spec, layout: &Layout, literals: &[Literal]) -> bool
    ensures { result ≡ any_of (λ l. meaning.outgrows spec.now layout.now l.atom) literals.now }
{
    for literal in literals {
        if outgrows(spec, layout, &literal.atom) {
            return true;
        }
    }
    false
}

fn constraint_outgrows(spec: &Spec, layout: &Layout, conjs: &[Conj]) -> bool
    ensures { result ≡ any_of
        (λ conj. any_of (λ l. meaning.outgrows spec.now layout.now l.atom) conj.literals)
        conjs.now }
{
    for conj in conjs {
        if any_outgrows(spec, layout, conj.literals.items()) {
            return true;
        }
    }
    false
}

/// The first constraint that compares values with a size which may not fit the field of one.
pub fn count_too_wide(spec: &Spec, layout: &Layout) -> Option<LayoutFault>
    requires few { length spec.now.constraints ≤ most_constraints }
    ensures { result ≡ told_of (count_refusals spec.now layout.now) }
{
    for (i, constraint) in spec.constraints.items().iter().enumerate() {
        if constraint_outgrows(spec, layout, constraint.conjs.items()) {
            return Some(LayoutFault::CountTooWide(i as u32));
        }
    }
    None
}
