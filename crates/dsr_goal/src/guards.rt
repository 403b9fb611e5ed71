// The write that makes a guard true, or false.
ghost use Rattle.std.specs.Prelude.{◌≡◌, ◌+◌, ◌^◌, nat_lt, option_and_then};
ghost use Rattle.dsr_meaning.specs.Cells as cells;
ghost use Rattle.dsr_meaning.specs.Placeable.{IsLegalWidth};
ghost use Rattle.dsr_meaning.specs.Typed.{AreTyped};
ghost use Rattle.dsr_update_theory.specs.Guards as guards;

use dsr_ir::{Field, Guard, Op, Pick, Structures, Test, Width, Write};
use dsr_schema::{declared_field, width_bits};

// Whether a number fits an entry.
fn fits(width: Width, number: u64) -> bool
    ensures { result ≡ nat_lt number (2 ^ cells.width_bits width) }
{
    let bits = width_bits(width);
    bits >= 64 || number >> bits == 0
}

// The number, where the field is wide enough for it.
fn fitting(field: &Field, number: u64) -> Option<u64>
    ensures { result ≡ guards.fitting field.now number }
{
    if fits(field.width, number) {
        Some(number)
    } else {
        None
    }
}

// The next number, where the field is wide enough for it.
fn next_fitting(field: &Field, number: u64) -> Option<u64>
    requires { IsLegalWidth field.now.width }
    ensures { result ≡ guards.fitting field.now (number + 1) }
{
    match number.checked_add(1) {
        Some(next) => fitting(field, next),
        None => None,
    }
}

// The number before this one.
fn before(number: u64) -> Option<u64>
    ensures { result ≡ guards.before number }
{
    if number == 0 { None } else { Some(number - 1) }
}

// The least number other than this one.
fn least_other(number: u64) -> u64
    ensures { result ≡ guards.least_other number }
{
    if number == 0 { 1 } else { 0 }
}

// The number by which a comparison becomes true, where the field is wide enough for it.
fn number_true(field: &Field, op: Op, number: u64) -> Option<u64>
    requires { IsLegalWidth field.now.width }
    ensures { result ≡ option_and_then (guards.fitting field.now) (guards.number_true op number) }
{
    match op {
        Op::Eq | Op::Le | Op::Ge => fitting(field, number),
        Op::Ne => fitting(field, least_other(number)),
        Op::Lt => fitting(field, before(number)?),
        Op::Gt => next_fitting(field, number),
    }
}

// And by which it becomes false.
fn number_false(field: &Field, op: Op, number: u64) -> Option<u64>
    requires { IsLegalWidth field.now.width }
    ensures { result ≡ option_and_then (guards.fitting field.now) (guards.number_false op number) }
{
    match op {
        Op::Ne | Op::Lt | Op::Gt => fitting(field, number),
        Op::Eq => fitting(field, least_other(number)),
        Op::Ge => fitting(field, before(number)?),
        Op::Le => next_fitting(field, number),
    }
}

// What is to be written so that the test comes out as wanted.
fn pick_wanted(wanted: bool, field: &Field, test: Test) -> Option<Pick>
    requires { IsLegalWidth field.now.width }
    ensures { result ≡ guards.pick_wanted wanted field.now test }
{
    match test {
        Test::Cmp(op, number) => {
            if wanted {
                Some(Pick::Num(number_true(field, op, number)?))
            } else {
                Some(Pick::Num(number_false(field, op, number)?))
            }
        }
        Test::IsNone => { if wanted { Some(Pick::NoneCode) } else { None } }
        Test::Legal | Test::Illegal | Test::IsSome => {
            if wanted { None } else { Some(Pick::NoneCode) }
        }
    }
}

/// The write of the guard's field that makes the guard come out as wanted.
pub fn guard_write(base: &Structures, wanted: bool, guard: &Guard) -> Option<Write>
    requires typed { AreTyped base.now }
    ensures { result ≡ guards.guard_write base.now wanted guard.now }
{
    let field = declared_field(base, guard.path.field)?;
    if field.fixed {
        return None;
    }
    let pick = pick_wanted(wanted, field, guard.test)?;
    Some(Write {
        path: guard.path,
        pick,
        wants: Some((guard.test, wanted)),
    })
}
