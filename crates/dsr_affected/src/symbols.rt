// The least set of the symbols that some fields affect.
ghost use Rattle.std.specs.Prelude.{◌≡◌, ◌↔◌, IfOk, IsTrue, MatchOption};
ghost use Rattle.dsr_affected.specs.Marking as said;
ghost use Rattle.dsr_affected.specs.Marking.{AreComplementsMarked, AreMarksOf, AreReachedMarked, AreInOrder, IsNext, IsNextComplement, IsNextReached, has_mark};
ghost use Rattle.dsr_affected_laws.specs.Affected.{IsAffected, PassesAffected};
ghost use Rattle.dsr_ir.specs.declared.updates.Symbol as symbols;
ghost use Rattle.dsr_meaning.specs.Counting.{IsIn};
ghost use Rattle.dsr_meaning.specs.Typed.{IsTyped};

use crate::marks::Marks;
use crate::reading::reads_any;
use dsr_ir::{FieldRef, NoMemory, Rule, SetDecl, Spec, Symbol};
use std::alloc::Global;

// Whether the rule's premise is marked.
fn is_premise_marked(marks: &Marks, rule: &Rule) -> bool
    ensures { result ≡ said.is_premise_marked marks.now rule.now }
{
    match rule.premise {
        Some(set) => marks.has(Symbol::Set(set)),
        None => false,
    }
}

// Whether the rule reads what may change, or its premise is marked.
fn is_reached(spec: &Spec, fields: &[FieldRef], marks: &Marks, rule: &Rule) -> bool
    requires typed { IsTyped spec.now }
    ensures { result ≡ said.is_reached spec.now.base fields.now marks.now rule.now }
{
    is_premise_marked(marks, rule) || reads_any(spec, fields, rule)
}

// Whether the rule is reached, and its symbol isn't marked.
fn is_next(spec: &Spec, fields: &[FieldRef], marks: &Marks, rule: &Rule) -> bool
    requires typed { IsTyped spec.now }
    ensures { result ≡ said.is_next spec.now.base fields.now marks.now rule.now }
{
    !marks.has(rule.inc.symbol()) && is_reached(spec, fields, marks, rule)
}

// The symbol of the first rule that is reached whose symbol isn't marked.
fn next_reached(spec: &Spec, fields: &[FieldRef], marks: &Marks) -> Option<Symbol>
    requires typed { IsTyped spec.now }
    ensures { MatchOption result (AreReachedMarked spec.now fields.now marks.now)
        (IsNextReached spec.now fields.now marks.now) }
{
    for rule in spec.rules.items() {
        if is_next(spec, fields, marks, rule) {
            return Some(rule.inc.symbol());
        }
    }
    None
}

// Whether the set is the complement of a marked one.
fn is_base_marked(marks: &Marks, set: &SetDecl) -> bool
    ensures { result ≡ said.is_base_marked marks.now set.now }
{
    match set.except {
        Some(base) => marks.has(Symbol::Set(base)),
        None => false,
    }
}

// Whether the set with this number is the complement of a marked one, and isn't marked.
fn is_next_complement(marks: &Marks, number: u32, set: &SetDecl) -> bool
    ensures { result ≡ said.is_next_complement marks.now number set.now }
{
    !marks.has(Symbol::Set(number)) && is_base_marked(marks, set)
}

// The first complement of a marked set that isn't marked.
fn next_complement(spec: &Spec, marks: &Marks) -> Option<Symbol>
    requires typed { IsTyped spec.now }
    ensures { MatchOption result (AreComplementsMarked spec.now marks.now)
        (IsNextComplement spec.now marks.now) }
{
    for (number, set) in spec.base.sets.items().iter().enumerate() {
        if is_next_complement(marks, number as u32, set) {
            return Some(Symbol::Set(number as u32));
        }
    }
    None
}

// A symbol that is affected, where the marked ones are, and isn't marked.
fn next(spec: &Spec, fields: &[FieldRef], marks: &Marks) -> Option<Symbol>
    requires typed { IsTyped spec.now }
    ensures { MatchOption result (PassesAffected spec.now fields.now (has_mark marks.now))
        (IsNext spec.now fields.now marks.now) }
{
    match next_reached(spec, fields, marks) {
        Some(symbol) => Some(symbol),
        None => next_complement(spec, marks),
    }
}

/// Marks of exactly the symbols that the fields affect.
pub fn marks_of(spec: &Spec, fields: &[FieldRef]) -> Marks
    requires typed { IsTyped spec.now }
    ensures { AreMarksOf spec.now fields.now result }
{
    let mut marks = Marks::none();
    while let Some(symbol) = next(spec, fields, &marks) {
        marks.add(symbol);
    }
    marks
}

/// The symbols that a write of the fields may bear on: the least set of those of which a rule reads
/// one of the fields, or one that may share bytes with it; of those of which a rule has a premise
/// that is among them; and of the complements whose base is. Sets come before relations, each in
/// order of declaration.
pub fn affected(alloc: Global, spec: &Spec, fields: &[FieldRef]) -> Result<Vec<Symbol>, NoMemory>
    requires typed { IsTyped spec.now }
    ensures exactly { IfOk result (λ list. (symbol : symbols.Symbol)
        → IsIn symbol list.items ↔ IsAffected spec.now fields.now symbol) }
    ensures order { IfOk result (λ list. AreInOrder list.items) }
{
    let marks = marks_of(spec, fields);
    let sets = spec.base.sets.items().len() as u32;
    let rels = spec.base.rels.items().len() as u32;
    let mut symbols = Vec::new(alloc);
    for set in 0..sets {
        if marks.has(Symbol::Set(set)) {
            symbols.push(Symbol::Set(set))?;
        }
    }
    for rel in 0..rels {
        if marks.has(Symbol::Rel(rel)) {
            symbols.push(Symbol::Rel(rel))?;
        }
    }
    Ok(symbols)
}
