// How wide the constants may be with which the values of a relation are compared.
ghost use Rattle.std.specs.Prelude.{◌≡◌, ◌<◌, min, length, slice_index_or, slice_set, IfOk};
ghost use Rattle.dsr_names.specs.Tables.{known_of};
ghost use Rattle.dsr_language_theory.specs.Rules as rules;
ghost use Rattle.dsr_language_theory.specs.Constraints.{is_too_great};
ghost use Rattle.dsr_constraint.specs.Scoped.{Narrow};
ghost use Rattle.dsr_constraint.specs.Widest.{given_relation, read_field, field_width, given_width, least_width, AreLeast, CountRelations};

use dsr_ir::{FieldRef, NoMemory};
use dsr_names::{Known, is_too_wide, path_field, width_bits};
use dsr_tree::{Inclusion, Rule};
use std::alloc::Global;

/// What is known of the constants with which values are compared.
#[derive(Clone, Copy)]
pub struct Constants<'a> {
    /// The rules, which give relations their values.
    pub rules: &'a [Rule],
    /// For each relation the bits of the narrowest field from which a rule gives it values, or 64.
    pub least: &'a [u64],
}

fn read_field(known: &Known, rule: &Rule) -> Option<FieldRef>
    ensures { result ≡ read_field (rules.scope_of (known_of known.now) rule.now) rule.now.inclusion }
{
    match &rule.inclusion {
        Inclusion::Pair { path, .. } => path_field(known, rule, path),
        Inclusion::Member { .. } => None,
    }
}

fn given_relation(known: &Known, inclusion: &Inclusion) -> Option<u32>
    ensures { result ≡ given_relation (known_of known.now) inclusion.now }
{
    match inclusion {
        Inclusion::Pair { relation, .. } => known.relation(&relation.name),
        Inclusion::Member { .. } => None,
    }
}

fn field_width(known: &Known, place: Option<FieldRef>) -> u64
    ensures { result ≡ field_width (known_of known.now) place }
{
    match place {
        Some(place) => declared_width(known, place),
        None => 64,
    }
}

fn declared_width(known: &Known, place: FieldRef) -> u64
    ensures { result ≡ field_width (known_of known.now) (Some place) }
{
    match known.declared_field(place) {
        Some(field) => width_bits(field.width),
        None => 64,
    }
}

fn given_width(known: &Known, rule: &Rule) -> u64
    ensures { result ≡ given_width (known_of known.now) rule.now }
{
    field_width(known, read_field(known, rule))
}

/// For each relation the bits of the narrowest field from which a rule gives it values, or 64.
pub fn least_widths(alloc: Global, known: &Known, rules: &[Rule]) -> Result<Vec<u64>, NoMemory>
    requires { CountRelations (known_of known.now) }
    ensures { IfOk result (λ least. AreLeast (known_of known.now) rules.now least.items) }
{
    let mut least = vec![in alloc; 64; known.base.rels.items().len()]?;
    for rule in rules {
        if let Some(relation) = given_relation(known, &rule.inclusion) {
            lower(&mut least, relation as usize, given_width(known, rule));
        }
    }
    Ok(least)
}

// Lowers an item to a number.
fn lower(items: &mut [u64], at: usize, number: u64)
    requires { at < length items.old }
    ensures { items.new ≡ slice_set items.old at (min (slice_index_or items.old at 64) number) }
{
    items[at] = items[at].min(number);
}

impl Constants<'_> {
    // The widest that a constant may be.
    fn width(&self, relation: u32) -> u64
        ensures { result ≡ slice_index_or self.now.least.now relation 64 }
    {
        match self.least.get(relation as usize) {
            Some(width) => *width,
            None => 64,
        }
    }

    /// Whether a constant is too great for the field of some rule of a relation.
    pub fn is_too_great(&self, known: &Known, number: u64, relation: Option<u32>) -> bool
        requires { Narrow known.now self.now }
        ensures { result ≡ is_too_great (known_of known.now) self.now.rules.now number relation }
    {
        match relation {
            Some(relation) => is_too_wide(number, self.width(relation)),
            None => false,
        }
    }
}
