// Sets of values that a cell may hold.
ghost use Rattle.std.specs.Prelude.{◌≡◌, ◌<◌, ◌≤◌, ◌^◌, ◌↔◌, ◌⊎◌, ℕ, false, true, Decides, IsSomeAnd};
ghost use Rattle.dsr_ir.specs.declared.rules.Test.TheVariants.{Cmp};
ghost use Rattle.dsr_meaning.specs.Cells as cells;
ghost use Rattle.dsr_meaning.specs.Instances.{Compares};
ghost use Rattle.dsr_meaning.specs.Placeable.{IsLegalWidth};
ghost use Rattle.dsr_update_theory.specs.Values.{CellValue, ComesOut, IllegalReference, IsPicked, LegalReference, MayHold, MayLeave, NoneReference, Number, Passes, reset_of};
ghost use Rattle.dsr_effect.specs.ValueSets.{AllReferencesComeOut, Has, HasNumber, IsComparing, IsInRange, IsNumberIn, IsNumberWanted, IsReferenceOf, IsReferenceWanted};

use dsr_ir::{Field, Kind, Op, Pick, Test, Width, Write};
use dsr_schema::width_bits;

// The numbers from the first to the last one; none where the last one is below the first.
#[derive(Clone, Copy)]
struct Range {
    first: u64,
    last: u64,
}

// Numbers of either range, and references.
#[derive(Clone, Copy)]
pub struct Values {
    low: Range,
    high: Range,
    legal: bool,
    illegal: bool,
    none: bool,
}

const NO_NUMBERS: Range = Range { first: 1, last: 0 };

// The greatest number of a width.
fn greatest(width: Width) -> u64
    requires { IsLegalWidth width }
    ensures { (n : ℕ) → (n ≤ result) ↔ (n < 2 ^ cells.width_bits width) }
{
    let bits = width_bits(width);
    if bits >= 64 {
        u64::MAX
    } else {
        (1 << bits) - 1
    }
}

// The comparison that holds exactly where this one doesn't.
fn negated(op: Op) -> Op
    ensures { (a b : ℕ) → Compares result a b ↔ (Compares op a b → ⊥) }
{
    match op {
        Op::Eq => Op::Ne,
        Op::Ne => Op::Eq,
        Op::Lt => Op::Ge,
        Op::Le => Op::Gt,
        Op::Gt => Op::Le,
        Op::Ge => Op::Lt,
    }
}

// The comparison that holds where this one comes out as wanted.
fn as_wanted(op: Op, wanted: bool) -> Op
    ensures { (a b : ℕ) → Compares result a b ↔ ComesOut wanted (Cmp op b) (Number a) }
{
    if wanted { op } else { negated(op) }
}

// The numbers below one, up to a limit.
fn below(number: u64, limit: u64) -> Range
    ensures { (n : ℕ) → IsInRange result n ↔ ((n ≤ limit) × (n < number)) }
{
    match number.checked_sub(1) {
        Some(last) => Range {
            first: 0,
            last: last.min(limit),
        },
        None => NO_NUMBERS,
    }
}

// The numbers above one, up to a limit.
fn above(number: u64, limit: u64) -> Range
    ensures { (n : ℕ) → IsInRange result n ↔ ((n ≤ limit) × (number < n)) }
{
    match number.checked_add(1) {
        Some(first) => Range { first, last: limit },
        None => NO_NUMBERS,
    }
}

// The numbers up to a limit of which the comparison holds, those below first.
fn comparing_ranges(op: Op, number: u64, limit: u64) -> (Range, Range)
    ensures { (n : ℕ) → (IsInRange result.0 n ⊎ IsInRange result.1 n)
        ↔ ((n ≤ limit) × Compares op n number) }
{
    match op {
        Op::Eq => (
            Range {
                first: number,
                last: number.min(limit),
            },
            NO_NUMBERS,
        ),
        Op::Ne => (below(number, limit), above(number, limit)),
        Op::Lt => (below(number, limit), NO_NUMBERS),
        Op::Le => (
            Range {
                first: 0,
                last: number.min(limit),
            },
            NO_NUMBERS,
        ),
        Op::Gt => (NO_NUMBERS, above(number, limit)),
        Op::Ge => (
            NO_NUMBERS,
            Range {
                first: number,
                last: limit,
            },
        ),
    }
}

impl Range {
    fn is_empty(self) -> bool
        ensures { Decides result ((n : ℕ) → IsInRange self n → ⊥) }
    {
        self.last < self.first
    }

    // Whether the comparison with this number holds of each number.
    fn all_compare(self, op: Op, number: u64) -> bool
        ensures { Decides result ((n : ℕ) → IsInRange self n → Compares op n number) }
    {
        self.is_empty()
            || match op {
                Op::Eq => self.first == number && self.last == number,
                Op::Ne => number < self.first || self.last < number,
                Op::Lt => self.last < number,
                Op::Le => self.last <= number,
                Op::Gt => number < self.first,
                Op::Ge => number <= self.first,
            }
    }
}

// Whether the code of a slot passes the test.
fn legal_passes(test: Test) -> bool
    ensures { Decides result (Passes test LegalReference) }
{
    matches!(test, Test::Legal | Test::IsSome)
}

// Whether a reference that is neither the code of a slot nor none does.
fn illegal_passes(test: Test) -> bool
    ensures { Decides result (Passes test IllegalReference) }
{
    matches!(test, Test::Illegal | Test::IsSome)
}

// Whether none does.
fn none_passes(test: Test) -> bool
    ensures { Decides result (Passes test NoneReference) }
{
    matches!(test, Test::IsNone)
}

impl Values {
    // No value.
    fn nothing() -> Values
        ensures { (v : CellValue) → Has result v → ⊥ }
    {
        Values {
            low: NO_NUMBERS,
            high: NO_NUMBERS,
            legal: false,
            illegal: false,
            none: false,
        }
    }

    fn of_numbers(low: Range, high: Range) -> Values
        ensures { (v : CellValue) → Has result v ↔ IsNumberIn low high v }
    {
        Values {
            low,
            high,
            legal: false,
            illegal: false,
            none: false,
        }
    }

    fn of_references(legal: bool, illegal: bool, none: bool) -> Values
        ensures { (v : CellValue) → Has result v ↔ IsReferenceOf legal illegal none v }
    {
        Values {
            low: NO_NUMBERS,
            high: NO_NUMBERS,
            legal,
            illegal,
            none,
        }
    }

    // The numbers up to a limit of which the comparison holds.
    fn comparing(op: Op, number: u64, limit: u64) -> Values
        ensures { (v : CellValue) → Has result v ↔ IsComparing op number limit v }
    {
        let (low, high) = comparing_ranges(op, number, limit);
        Values::of_numbers(low, high)
    }

    // The numbers of a width with which the test comes out as wanted.
    fn numbers(width: Width, test: Test, wanted: bool) -> Values
        requires { IsLegalWidth width }
        ensures { (v : CellValue) → Has result v ↔ IsNumberWanted width test wanted v }
    {
        let limit = greatest(width);
        match test {
            Test::Cmp(op, number) => Values::comparing(as_wanted(op, wanted), number, limit),
            Test::Legal | Test::Illegal | Test::IsNone | Test::IsSome => {
                if wanted {
                    Values::nothing()
                } else {
                    Values::of_numbers(
                        Range {
                            first: 0,
                            last: limit,
                        },
                        NO_NUMBERS,
                    )
                }
            }
        }
    }

    // The references with which the test comes out as wanted.
    fn references(test: Test, wanted: bool) -> Values
        ensures { (v : CellValue) → Has result v ↔ IsReferenceWanted test wanted v }
    {
        Values::of_references(
            legal_passes(test) == wanted,
            illegal_passes(test) == wanted,
            none_passes(test) == wanted,
        )
    }

    // The values that the field may hold with which the test comes out as wanted.
    fn wanted(field: &Field, test: Test, wanted: bool) -> Values
        requires { IsLegalWidth field.now.width }
        ensures { (v : CellValue) → Has result v ↔ (MayHold field.now v × ComesOut wanted test v) }
    {
        match field.kind {
            Kind::Refers { pool: _ } => Values::references(test, wanted),
            Kind::Number { init: _ } | Kind::Gap => Values::numbers(field.width, test, wanted),
        }
    }

    // The values that the field may hold.
    fn of_field(field: &Field) -> Values
        requires { IsLegalWidth field.now.width }
        ensures { (v : CellValue) → Has result v ↔ MayHold field.now v }
    {
        match field.kind {
            Kind::Refers { pool: _ } => Values::of_references(true, true, true),
            Kind::Number { init: _ } | Kind::Gap => Values::of_numbers(
                Range {
                    first: 0,
                    last: greatest(field.width),
                },
                NO_NUMBERS,
            ),
        }
    }

    // What is picked.
    fn picked(field: &Field, pick: Pick) -> Values
        requires { IsLegalWidth field.now.width }
        ensures { (v : CellValue) → Has result v ↔ IsPicked field.now pick v }
    {
        match pick {
            Pick::Num(number) => Values::of_numbers(
                Range {
                    first: number,
                    last: number,
                },
                NO_NUMBERS,
            ),
            Pick::NoneCode => Values::of_references(false, false, true),
            Pick::CodeOf(_) | Pick::Fresh => Values::of_references(true, false, false),
            Pick::SizeOf(_) => Values::of_field(field),
        }
    }

    /// What the write may leave in a cell of the field.
    pub fn left(field: &Field, is_removal: bool, write: &Write) -> Values
        requires { IsLegalWidth field.now.width }
        ensures { (v : CellValue) → Has result v ↔ MayLeave field.now is_removal write.now v }
    {
        match write.wants {
            Some((test, wanted)) if !is_removal => Values::wanted(field, test, wanted),
            _ => Values::picked(field, write.pick),
        }
    }

    // Whether none is the only reference.
    fn has_none_alone(self) -> bool
        ensures { Decides result
            ((self.legal ≡ false) × (self.illegal ≡ false) × (self.none ≡ true)) }
    {
        self.none && !self.legal && !self.illegal
    }

    // Whether there is no number.
    fn has_no_number(self) -> bool
        ensures { Decides result ((n : ℕ) → HasNumber self n → ⊥) }
    {
        self.low.is_empty() && self.high.is_empty()
    }

    // Whether the test comes out as wanted for each number.
    fn all_numbers_come_out(self, test: Test, wanted: bool) -> bool
        ensures { Decides result ((n : ℕ) → HasNumber self n → ComesOut wanted test (Number n)) }
    {
        match test {
            Test::Cmp(op, number) => {
                let op = as_wanted(op, wanted);
                self.low.all_compare(op, number) && self.high.all_compare(op, number)
            }
            Test::Legal | Test::Illegal | Test::IsNone | Test::IsSome => {
                !wanted || self.has_no_number()
            }
        }
    }

    // And for each reference.
    fn all_references_come_out(self, test: Test, wanted: bool) -> bool
        ensures { Decides result (AllReferencesComeOut self test wanted) }
    {
        (!self.legal || legal_passes(test) == wanted)
            && (!self.illegal || illegal_passes(test) == wanted)
            && (!self.none || none_passes(test) == wanted)
    }

    /// Whether the test comes out as wanted for each value.
    pub fn all_come_out(self, test: Test, wanted: bool) -> bool
        ensures { Decides result ((v : CellValue) → Has self v → ComesOut wanted test v) }
    {
        self.all_numbers_come_out(test, wanted) && self.all_references_come_out(test, wanted)
    }

    /// Whether none is the only value.
    pub fn is_none_alone(self) -> bool
        ensures { Decides result ((v : CellValue) → Has self v ↔ (v ≡ NoneReference)) }
    {
        self.has_none_alone() && self.has_no_number()
    }
}

/// Whether the test comes out as wanted for the value to which a field of this kind is reset; not
/// for a gap, which isn't reset.
pub fn reset_comes_out(kind: Kind, test: Test, wanted: bool) -> bool
    ensures { Decides result (IsSomeAnd (reset_of kind) (ComesOut wanted test)) }
{
    match kind {
        Kind::Number { init } => match test {
            Test::Cmp(op, number) => {
                let range = Range {
                    first: init,
                    last: init,
                };
                range.all_compare(as_wanted(op, wanted), number)
            }
            Test::Legal | Test::Illegal | Test::IsNone | Test::IsSome => !wanted,
        },
        Kind::Refers { pool: _ } => none_passes(test) == wanted,
        Kind::Gap => false,
    }
}
