// What is chosen for the literals of each constraint.
ghost use Rattle.std.specs.Prelude.{◌≡◌, ◌+◌, ◌-◌, ◌^◌, min};

use dsr_ir::{Seq, Template};

/// What is done about a literal of a conjunction.
#[derive(Drop)]
pub enum Way {
    /// It is tested: the conjunction is tried only where it is true.
    Test,
    /// It is made true by this template, which has this number among those that are listed for it,
    /// counted from 1.
    By(u32, Template),
}

/// The number in a way, counted from 1, of the template that has this place among those that are
/// listed for a literal, counted from 0.
pub fn way_number(place: u32) -> u32
    ensures { result ≡ min (place + 1) (2 ^ 32 - 1) }
{
    place.saturating_add(1)
}

/// The place among those that are listed for a literal, counted from 0, of the template that has
/// this number in a way, counted from 1.
pub fn way_place(number: u32) -> u32
    ensures { result ≡ number - 1 }
{
    number.saturating_sub(1)
}

/// A constraint's level, and for each literal of each conjunction its way.
#[derive(Drop)]
pub struct Row {
    /// Constraints are repaired in order of their levels, the lowest first.
    pub level: u32,
    pub ways: Seq<Seq<Way>>,
}

/// A row for each constraint, in order of declaration.
#[derive(Drop)]
pub struct Choice {
    pub rows: Seq<Row>,
}
