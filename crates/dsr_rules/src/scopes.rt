// What the parts of a rule rest on: its record and its index.
ghost use Rattle.std.specs.Prelude.{◌≡◌, option_map};
ghost use Rattle.dsr_names.specs.Tables.{known_of};
ghost use Rattle.dsr_tree.specs.declared.tree.Index.TheVariants as indexes;
ghost use Rattle.dsr_language_theory.specs.Known.{pool_named};
ghost use Rattle.dsr_language_theory.specs.Rules.{record_name, record_structure, record_pool, index_name, is_pool_index, is_over_pool, index_entries, span_entries, scope_of, is_record, field_of, path_field};
ghost use Rattle.dsr_rules.specs.Scopes.{scope_told};

use dsr_ir::{Expr, FieldRef, Name};
use dsr_names::{Known, is_this};
use dsr_tree::{Index, PlacedName, Premise, Rule, Span, Var};

/// What the parts of a rule rest on.
#[derive(Clone, Copy)]
pub struct Scope<'a> {
    pub known: Known<'a>,
    /// Where the rule begins.
    pub place: u64,
    /// The record's name; none where it is the head.
    pub name: Option<&'a Name>,
    /// The record's structure and its pool, where the premise's set is known.
    pub structure: Option<u32>,
    pub pool: Option<u32>,
    pub index: Option<&'a Name>,
    /// Whether the index runs over the slots of a pool.
    pub over_pool: bool,
    /// How many entries the index runs over, where that is known.
    pub entries: Option<&'a Expr>,
}

// The record of a rule.
#[derive(Clone, Copy)]
struct Record<'a> {
    name: Option<&'a Name>,
    structure: Option<u32>,
    pool: Option<u32>,
}

fn record_of<'a>(known: &Known<'a>, premise: &'a Premise) -> Record<'a>
    ensures name { option_map (λ n. n.now) result.name ≡ record_name premise.now }
    ensures structure { result.structure ≡ record_structure (known_of known.now) premise.now }
    ensures pool { result.pool ≡ record_pool (known_of known.now) premise.now }
{
    let Premise::Member { name, set } = premise else {
        return Record {
            name: None,
            structure: Some(known.base.head),
            pool: Some(0),
        };
    };
    match known.plain_named(&set.name) {
        Some(set) => Record {
            name: Some(&name.name),
            structure: Some(set.structure),
            pool: Some(set.pool),
        },
        None => Record {
            name: Some(&name.name),
            structure: None,
            pool: None,
        },
    }
}

fn index_name(span: &Option<Span>) -> Option<&Name>
    ensures { option_map (λ n. n.now) result ≡ index_name span.now }
{
    match span {
        Some(span) => Some(&span.name.name),
        None => None,
    }
}

fn is_pool_index(index: &Index) -> bool
    ensures { result ≡ is_pool_index index.now }
{
    match index {
        Index::Pool { .. } => true,
        Index::Array(_) => false,
    }
}

fn is_over_pool(span: &Option<Span>) -> bool
    ensures { result ≡ is_over_pool span.now }
{
    match span {
        Some(span) => is_pool_index(&span.index),
        None => false,
    }
}

// How many entries the array of a field has, where the field is known.
fn array_length<'a>(
    known: &Known<'a>,
    structure: Option<u32>,
    array: &PlacedName,
) -> Option<&'a Expr>
    ensures { option_map (λ e. e.now) result
        ≡ index_entries (known_of known.now) structure (indexes.Array array.now) }
{
    match known.array_field(structure, &array.name) {
        Some(field) => known.field_length(field),
        None => None,
    }
}

/// How many slots a pool has, where it is known.
pub fn slot_count<'a>(known: &Known<'a>, pool: &PlacedName) -> Option<&'a Expr>
    ensures { option_map (λ e. e.now) result
        ≡ option_map (λ d. d.count) (pool_named (known_of known.now) pool.now.name) }
{
    match known.pool_named(&pool.name) {
        Some(pool) => Some(&pool.count),
        None => None,
    }
}

// How many entries an index runs over, where its pool or its array is known.
fn index_entries<'a>(known: &Known<'a>, structure: Option<u32>, index: &Index) -> Option<&'a Expr>
    ensures { option_map (λ e. e.now) result ≡ index_entries (known_of known.now) structure index.now }
{
    match index {
        Index::Pool { pool, .. } => slot_count(known, pool),
        Index::Array(array) => array_length(known, structure, array),
    }
}

fn span_entries<'a>(
    known: &Known<'a>,
    structure: Option<u32>,
    span: &Option<Span>,
) -> Option<&'a Expr>
    ensures { option_map (λ e. e.now) result ≡ span_entries (known_of known.now) structure span.now }
{
    match span {
        Some(span) => index_entries(known, structure, &span.index),
        None => None,
    }
}

impl<'a> Scope<'a> {
    /// What the parts of a rule rest on.
    pub fn new(known: &Known<'a>, rule: &'a Rule) -> Scope<'a>
        ensures { scope_told result ≡ scope_of (known_of known.now) rule.now }
    {
        let record = record_of(known, &rule.premise);
        Scope {
            known: *known,
            place: rule.place,
            name: record.name,
            structure: record.structure,
            pool: record.pool,
            index: index_name(&rule.span),
            over_pool: is_over_pool(&rule.span),
            entries: span_entries(known, record.structure, &rule.span),
        }
    }

    /// Whether a variable is the rule's record.
    pub fn is_record(&self, var: &Var) -> bool
        ensures { result ≡ is_record (scope_told self.now) var.now }
    {
        match var {
            Var::Head { .. } => self.name.is_none(),
            Var::Name(name) => is_this(self.name, &name.name),
        }
    }

    /// The field that the record has under a name.
    pub fn field_of(&self, name: &Name) -> Option<FieldRef>
        ensures { result ≡ field_of (scope_told self.now) name.now }
    {
        self.known.array_field(self.structure, name)
    }

    /// The field that a path reads, where that is known.
    pub fn path_field(&self, var: &Var, field: &PlacedName) -> Option<FieldRef>
        ensures { result ≡ path_field (scope_told self.now) var.now field.now }
    {
        if self.is_record(var) {
            self.field_of(&field.name)
        } else {
            None
        }
    }
}
