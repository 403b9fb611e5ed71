// The literals of a constraint, of which equal ones are of one kind.
ghost use Rattle.std.specs.Prelude.{◌≡◌, ◌≤◌, ◌^◌, All, Decides, IfOk, MatchOption, OnOk, Some, length, slice_get};
ghost use Rattle.dsr_graph.specs.Kinds.{AreAlike, AreKindsOf, Grows, HasKind, IsFirstIn, IsRowOf, KeepsKinds};
ghost use Rattle.dsr_meaning.specs.Typed.{IsTypedConj, IsTypedConstraint};

use dsr_ir::{Conj, Constraint, Literal, NoMemory, Spec};
use std::alloc::Global;

/// The first literal of a kind, with its numbers in the constraint.
#[derive(Clone, Copy)]
pub struct First {
    pub conj: u32,
    pub place: u32,
    pub literal: Literal,
}

/// The kinds of a constraint's literals: two are of one kind where they differ in `given` alone, or
/// not at all.
pub struct Kinds {
    pub firsts: Vec<First>,
    /// For each conjunction the kind of each of its literals.
    pub numbers: Vec<Vec<usize>>,
}

impl Drop for Kinds {
    fn drop(self) {
        let Kinds {
            firsts: _,
            numbers: _,
        } = self;
    }
}

fn are_alike(a: &Literal, b: &Literal) -> bool
    ensures { Decides result (AreAlike a.now b.now) }
{
    a.atom == b.atom && a.negated == b.negated
}

// The kind of the literal, where it has one.
fn kind_among(firsts: &[First], literal: &Literal) -> Option<usize>
    ensures { MatchOption result (Unit {0}) (λ kind. HasKind firsts.now kind literal.now) }
{
    for (kind, first) in firsts.iter().enumerate() {
        if are_alike(&first.literal, literal) {
            return Some(kind);
        }
    }
    None
}

// The kind of the literal, which is put behind the others where it is of none of them.
fn kind_of(firsts: &mut Vec<First>, next: First) -> Result<usize, NoMemory>
    ensures grows { OnOk result (Grows firsts.old.items next firsts.new.items) }
    ensures kind { IfOk result (λ kind. HasKind firsts.new.items kind next.literal) }
{
    if let Some(kind) = kind_among(firsts, &next.literal) {
        return Ok(kind);
    }
    let kind = firsts.len();
    firsts.push(next)?;
    Ok(kind)
}

// The kinds of the literals of the conjunction with this number.
fn conj_kinds(
    alloc: Global,
    spec: &Spec,
    constraint: &Constraint,
    number: usize,
    conj: &Conj,
    firsts: &mut Vec<First>,
) -> Result<Vec<usize>, NoMemory>
    requires typed { IsTypedConj spec.now constraint.now.quant conj.now }
    requires few { number ≤ 16 }
    requires conj { slice_get constraint.now.conjs number ≡ Some conj.now }
    requires firsts { All (IsFirstIn constraint.now) firsts.old.items }
    ensures firsts { OnOk result (All (IsFirstIn constraint.now) firsts.new.items) }
    ensures kept { OnOk result (KeepsKinds firsts.old.items firsts.new.items) }
    ensures kinds { IfOk result (λ kinds. IsRowOf firsts.new.items conj.now.literals kinds.items) }
{
    let mut kinds = Vec::new(alloc);
    for (place, literal) in conj.literals.items().iter().enumerate() {
        let next = First {
            conj: number as u32,
            place: place as u32,
            literal: *literal,
        };
        let kind = kind_of(firsts, next)?;
        kinds.push(kind)?;
    }
    Ok(kinds)
}

/// The kinds of the constraint's literals.
pub fn kinds_of(alloc: Global, spec: &Spec, constraint: &Constraint) -> Result<Kinds, NoMemory>
    requires typed { IsTypedConstraint spec.now constraint.now }
    ensures { IfOk result (AreKindsOf constraint.now) }
{
    let mut firsts = Vec::new(alloc);
    let mut numbers = Vec::new(alloc);
    for (number, conj) in constraint.conjs.items().iter().enumerate() {
        let kinds = conj_kinds(alloc, spec, constraint, number, conj, &mut firsts)?;
        numbers.push(kinds)?;
    }
    Ok(Kinds { firsts, numbers })
}
