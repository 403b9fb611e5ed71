// The faults of constraints.
ghost use Rattle.std.specs.Prelude.{◌≡◌, map, IfOk, IsSome, OnOk};
ghost use Rattle.std.specs.Str.{bytes_eq};
ghost use Rattle.indexmap.specs.IndexMap.{get};
ghost use Rattle.dsr_names.specs.Telling.{Finds};
ghost use Rattle.dsr_meaning.specs.Typed.{constraint_limit};
ghost use Rattle.dsr_names.specs.Tables.{known_of};
ghost use Rattle.dsr_normal.specs.Telling.{refusal_told};
ghost use Rattle.dsr_tree.specs.Trees.{constraint_shape};
ghost use Rattle.dsr_language_theory.specs.Constraints.{gives_numbers, binder_faults, symbol_faults, quantifier_faults, constraint_number, refusal_faults};
ghost use Rattle.dsr_constraint.specs.Scoped.{Narrow, own_faults_of};

use crate::formulas::check_formula;
use crate::negations::check_negations;
use crate::scopes::scope_of;
use crate::widths::Constants;
use dsr_ir::{Name, NoMemory};
use dsr_names::{Known, Told, first_numbers, is_at, note_found};
use dsr_normal::NormalFault;
use dsr_tree::{Binder, Condition, Constraint, PlacedName, Quantifier};
use indexmap::IndexMap;
use std::alloc::Global;

/// What constraints are checked against.
#[derive(Clone, Copy)]
pub struct Checker<'a> {
    pub known: Known<'a>,
    pub constants: Constants<'a>,
    /// For each name the number of the first constraint that has it.
    pub numbers: &'a IndexMap<Name, u32>,
}

/// The number of the first constraint of each name. 2^32 constraints or more find no memory.
pub fn constraint_numbers(
    alloc: Global,
    constraints: &[Constraint],
) -> Result<IndexMap<Name, u32>, NoMemory>
    ensures { IfOk result (λ m. get bytes_eq m ≡ constraint_number (map constraint_shape constraints.now)) }
{
    first_numbers(alloc, constraints)
}

/// How many constraints there may be.
pub fn constraint_limit(version: u8) -> usize
    ensures { result ≡ constraint_limit version }
{
    if version == 2 { 128 } else { 64 }
}

// Whether a pair is bound to a relation that gives numbers.
fn gives_numbers(known: &Known, binder: &Binder, name: &Name) -> bool
    ensures { result ≡ gives_numbers (known_of known.now) binder.now name.now }
{
    match binder {
        Binder::One(_) => false,
        Binder::Pair { .. } => dsr_names::gives_numbers(known.relation_named(name)),
    }
}

// Both variables have one name.
fn check_binder(told: &mut Told, binder: &Binder)
    ensures { Finds (binder_faults binder.now) told.old.fault told.new.fault }
{
    match binder {
        Binder::One(_) => (),
        Binder::Pair { first, second, .. } => {
            let is_twice = first.name == second.name;
            told.note_if(is_twice, Condition::NameTwice, second.place);
        }
    }
}

// The name of what is bound.
fn check_symbol(told: &mut Told, known: &Known, binder: &Binder, symbol: &PlacedName)
    ensures { Finds (symbol_faults (known_of known.now) binder.now symbol.now) told.old.fault told.new.fault }
{
    match binder {
        Binder::One(_) => note_found(told, known.set(&symbol.name), symbol),
        Binder::Pair { .. } => note_found(told, known.relation(&symbol.name), symbol),
    };
}

fn check_quantifier(told: &mut Told, known: &Known, quantifier: &Option<Quantifier>)
    ensures { Finds (quantifier_faults (known_of known.now) quantifier.now) told.old.fault told.new.fault }
{
    if let Some(quantifier) = quantifier {
        check_symbol(told, known, &quantifier.binder, &quantifier.symbol);
        check_binder(told, &quantifier.binder);
        let is_mismatch = gives_numbers(known, &quantifier.binder, &quantifier.symbol.name);
        told.note_if(is_mismatch, Condition::PoolMismatch, quantifier.place);
    }
}

impl Checker<'_> {
    /// What is wrong with the names, pools, kinds and constants of a constraint.
    pub fn check_own(&self, told: &mut Told, number: usize, constraint: &Constraint)
        requires { Narrow self.now.known self.now.constants }
        ensures { Finds (own_faults_of self.now number constraint.now) told.old.fault told.new.fault }
    {
        let name = &constraint.name;
        let is_first = is_at(number, self.numbers.get(&name.name).copied());
        told.note_if(!is_first, Condition::NameTwice, name.place);
        check_quantifier(told, &self.known, &constraint.quantifier);
        let scope = scope_of(&self.known, &constraint.quantifier);
        check_formula(&scope, told, &self.constants, &constraint.formula);
    }
}

/// Why a constraint has no normal form.
pub fn check_refusal(
    told: &mut Told,
    constraint: &Constraint,
    fault: NormalFault,
) -> Result<(), NoMemory>
    ensures known { OnOk result (IsSome (refusal_told fault)) }
    ensures found { OnOk result
        (Finds (refusal_faults (constraint_shape constraint.now) (refusal_told fault))
        told.old.fault told.new.fault) }
{
    let place = constraint.name.place;
    match fault {
        NormalFault::NegatedValue => check_negations(told, &constraint.formula),
        NormalFault::TooManyConjunctions => told.note_if(
            true,
            Condition::TooManyConjunctions,
            place,
        ),
        NormalFault::TooManyAtoms => told.note_if(true, Condition::TooManyAtoms, place),
        NormalFault::NoMemory => return Err(NoMemory),
    }
    Ok(())
}
