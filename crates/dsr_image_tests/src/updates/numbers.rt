// The numbers that a step's writes put.
ghost use Rattle.std.specs.Prelude.{◌≡◌, Some, IfSome};
ghost use Rattle.dsr_step_theory.specs.Steps as said;

use dsr_ir::{Element, FieldRef, Layout, Pick, Spec, Write};
use dsr_layout::pool_numbers;
use dsr_schema::{element_of, referred_pool};
use dsr_step_theory::Step;

fn none_of(spec: &Spec, layout: &Layout, field: FieldRef) -> Option<u64>
    ensures { result ≡ said.none_of spec.now layout.now field }
{
    let pool = referred_pool(spec, field)?;
    Some(pool_numbers(layout, pool)?.none)
}

// The code of a slot; none also where it is too large.
fn code_of(layout: &Layout, elem: Element) -> Option<u64>
    ensures { IfSome result (λ n. said.code_of layout.now elem ≡ Some n) }
{
    let numbers = pool_numbers(layout, elem.pool)?;
    numbers
        .code
        .checked_add(u64::from(elem.slot).checked_mul(numbers.step)?)
}

fn picked_number(
    spec: &Spec,
    layout: &Layout,
    step: &Step,
    field: FieldRef,
    pick: Pick,
) -> Option<u64>
    ensures { IfSome result
        (λ n. said.picked_number spec.now layout.now step.now field pick ≡ Some n) }
{
    match pick {
        Pick::Num(number) => Some(number),
        Pick::NoneCode => none_of(spec, layout, field),
        Pick::CodeOf(var) => code_of(layout, element_of(&step.binding, var)?),
        Pick::Fresh => code_of(layout, step.fresh?),
        Pick::SizeOf(_) => Some(step.number),
    }
}

/// The number that the write puts; none where it has none, or one that is too large.
pub fn written_number(spec: &Spec, layout: &Layout, step: &Step, write: &Write) -> Option<u64>
    ensures { IfSome result
        (λ n. said.written_number spec.now layout.now step.now write.now ≡ Some n) }
{
    picked_number(spec, layout, step, write.path.field, write.pick)
}
