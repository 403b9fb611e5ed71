// Lines that begin an entry.
ghost use Rattle.std.specs.Prelude.{◌≡◌, Decides, IfOk, IsSome, Some, slice_get};
ghost use Rattle.dsr_meaning.specs.Typed.{IsTyped};
ghost use Rattle.dsr_report.specs.Reports.{update_line};
ghost use Rattle.dsr_report_read.specs.Forms.{IsHead, IsRecordOf};
ghost use Rattle.dsr_report_read.specs.Lenient as said;
ghost use Rattle.dsr_report_read.specs.Lines.{bare};
ghost use Rattle.dsr_report_read.specs.Reads.{IsHeadOf, Reads};
ghost use Rattle.dsr_update_theory.specs.Templates.{literal_at};

use crate::bindings::{binding, first_pool, second_pool};
use crate::lines::Head;
use crate::numbers::{is_ahead, number_ahead, place_of, skip};
use crate::printed::is_update;
use crate::records::is_record;
use dsr_answers::constraint_name;
use dsr_ir::{Binding, Constraint, NoMemory, Quant, Spec};

// Whether the constraint has the literal.
fn has_literal(constraint: &Constraint, conj: u32, literal: u32) -> bool
    ensures { Decides result (IsSome (literal_at constraint.now conj literal)) }
{
    match constraint.conjs.items().get(conj as usize) {
        Some(conj) => (literal as usize) < conj.literals.items().len(),
        None => false,
    }
}

// Whether the binding is one as the quantifier asks.
fn is_bound(spec: &Spec, quant: Quant, binding: Binding) -> bool
    ensures { Decides result (IsRecordOf spec.now quant binding) }
{
    match (quant, binding) {
        (Quant::Once, Binding::Once) => true,
        (Quant::Each(_), Binding::Each(elem)) => {
            is_record(spec, elem) && first_pool(spec, quant) == Some(elem.pool)
        }
        (Quant::Pairs(_), Binding::Pair(source, target)) => {
            is_record(spec, source)
                && is_record(spec, target)
                && first_pool(spec, quant) == Some(source.pool)
                && second_pool(spec, quant) == Some(target.pool)
        }
        _ => false,
    }
}

// What the line may tell of the constraint with this number.
fn head_in(spec: &Spec, number: u32, constraint: &Constraint, text: &[u8]) -> Head
    ensures { result ≡ said.head_in spec.now constraint.now.quant number text.now }
{
    let (_, rest) = number_ahead(skip(text, 7));
    let rest = skip(skip(rest, 1), constraint_name(spec, number).len() + 1);
    let (binding, rest) = binding(spec, constraint.quant, rest);
    let (conj, rest) = number_ahead(skip(rest, 1));
    let (literal, rest) = number_ahead(skip(rest, 1));
    let (rule, _) = number_ahead(skip(rest, 1));
    Head {
        constraint: number,
        binding,
        conj: place_of(conj),
        literal: place_of(literal),
        rule: place_of(rule),
    }
}

// What the line tells of an update for the constraint with this number.
fn read_head_of(
    printed: &mut Vec<u8>,
    spec: &Spec,
    count: u64,
    number: u32,
    constraint: &Constraint,
    text: &[u8],
) -> Result<Option<Head>, NoMemory>
    requires typed { IsTyped spec.now }
    requires constraint { slice_get spec.now.constraints number ≡ Some constraint.now }
    ensures { IfOk result (Reads (IsHeadOf spec.now number)
        (λ head. update_line spec.now count (bare head)) text.now) }
{
    let (_, rest) = number_ahead(skip(text, 7));
    if !is_ahead(constraint_name(spec, number), skip(rest, 1)) {
        return Ok(None);
    }
    let head = head_in(spec, number, constraint, text);
    if !is_bound(spec, constraint.quant, head.binding) {
        return Ok(None);
    }
    if !has_literal(constraint, head.conj, head.literal) {
        return Ok(None);
    }
    if spec.rules.items().len() <= head.rule as usize {
        return Ok(None);
    }
    if !is_update(printed, spec, count, head, text)? {
        return Ok(None);
    }
    Ok(Some(head))
}

/// What the line tells, where it begins the entry with this number.
pub fn read_head(
    printed: &mut Vec<u8>,
    spec: &Spec,
    count: u64,
    text: &[u8],
) -> Result<Option<Head>, NoMemory>
    requires typed { IsTyped spec.now }
    ensures { IfOk result (Reads (IsHead spec.now)
        (λ head. update_line spec.now count (bare head)) text.now) }
{
    for (number, constraint) in spec.constraints.items().iter().enumerate() {
        let found = read_head_of(printed, spec, count, number as u32, constraint, text)?;
        if found.is_some() {
            return Ok(found);
        }
    }
    Ok(None)
}
