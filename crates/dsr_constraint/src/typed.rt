// The typed constraints of a tree, or its first fault.
ghost use Rattle.std.specs.Prelude.{◌≡◌, ◌++◌, ◌∷◌, [], None, map, IfOk, IfErr, IsSome, OnOk};
ghost use Rattle.std.specs.Str.{bytes_eq};
ghost use Rattle.indexmap.specs.IndexMap.{get};
ghost use Rattle.dsr_meaning.specs.Typed.{AreTyped};
ghost use Rattle.dsr_names.specs.Tables.{known_of};
ghost use Rattle.dsr_tree.specs.Trees.{constraint_shape, formula_shape};
ghost use Rattle.dsr_language_theory.specs.Known.{known_in};
ghost use Rattle.dsr_language_theory.specs.Constraints.{constraint_number, constraints_faults};
ghost use Rattle.dsr_normal.specs.Telling.{refusal_told};
ghost use Rattle.dsr_language_theory.specs.NormalForms.{normal_form, refusal_of};
ghost use Rattle.dsr_language_theory.specs.TypedConstraints.{scope_of, typed_formula, typed_constraint, typed_constraints};
ghost use Rattle.dsr_names.specs.FaultsTold.{Tells};
ghost use Rattle.dsr_names.specs.Telling.{Finds};
ghost use Rattle.dsr_constraint.specs.Scoped.{scope_told, Narrow, faults_of, faults_of_form, typed_of, faults_of_all, typed_of_all};
ghost use Rattle.dsr_constraint.specs.Widest.{CountRelations};

use crate::checks::{Checker, check_refusal, constraint_limit, constraint_numbers};
use crate::notes::note_part;
use crate::scopes::{Scope, scope_of};
use crate::typed_forms::all_without_complements;
use crate::typed_formulas::typed_formula;
use crate::widths::{Constants, least_widths};
use dsr_ir::{Conj, Constraint, Formula, NoMemory, Seq, Structures, TryClone};
use dsr_names::{Known, SpecFault, Told, name_tables};
use dsr_normal::{NormalFault, normal};
use dsr_tree::{Condition, Tree};
use std::alloc::Global;

// Adds a constraint that has this normal form.
fn add_constraint(
    alloc: Global,
    scope: &Scope,
    typed: &mut Vec<Constraint>,
    constraint: &dsr_tree::Constraint,
    conjs: &[Conj],
) -> Result<(), NoMemory>
    requires scope { scope_told scope.now ≡ scope_of (scope_told scope.now).known constraint.now.quantifier }
    requires conjs { conjs.now
        ≡ normal_form
        (typed_formula (scope_told scope.now) (formula_shape constraint.now.formula)) }
    ensures { OnOk result (typed.new.items ≡ typed.old.items
        ++ typed_constraint (scope_told scope.now).known (constraint_shape constraint.now) ∷ []) }
{
    let name = constraint.name.name.clone(alloc)?;
    let conjs = all_without_complements(alloc, scope.known.base, conjs)?;
    typed.push(Constraint {
        name,
        quant: scope.typed_quant(),
        conjs: Seq::new(conjs),
    })?;
    Ok(())
}

// The normal form of a formula, or why it has none.
fn normal_of(
    alloc: Global,
    scope: &Scope,
    formula: &dsr_tree::Formula,
) -> Result<Vec<Conj>, NormalFault>
    ensures listed { IfOk result
        (λ conjs. conjs.items
        ≡ normal_form (typed_formula (scope_told scope.now) (formula_shape formula.now))) }
    ensures accepted { OnOk result
        (refusal_of (typed_formula (scope_told scope.now) (formula_shape formula.now)) ≡ None) }
    ensures refused { IfErr result
        (λ fault. IsSome (refusal_told fault) →
        refusal_of (typed_formula (scope_told scope.now) (formula_shape formula.now))
        ≡ refusal_told fault) }
{
    let formula = Formula::new(typed_formula(alloc, scope, formula)?);
    normal(alloc, &formula)
}

// The typed constraint where its formula has a normal form, and otherwise why it has none.
fn add_typed(
    alloc: Global,
    known: &Known,
    told: &mut Told,
    typed: &mut Vec<Constraint>,
    constraint: &dsr_tree::Constraint,
) -> Result<(), NoMemory>
    ensures found { OnOk result
        (Finds (faults_of_form known.now constraint.now) told.old.fault told.new.fault) }
    ensures typed { OnOk result
        (faults_of_form known.now constraint.now ≡ [] → typed.new.items ≡ typed.old.items
        ++ typed_of known.now constraint.now ∷ []) }
{
    let scope = scope_of(known, &constraint.quantifier);
    match normal_of(alloc, &scope, &constraint.formula) {
        Ok(conjs) => {
            add_constraint(alloc, &scope, typed, constraint, &conjs)?;
            Ok(())
        }
        Err(fault) => check_refusal(told, constraint, fault),
    }
}

impl Checker<'_> {
    // The faults of a constraint; it is added where it has none.
    fn check_constraint(
        &self,
        alloc: Global,
        told: &mut Told,
        typed: &mut Vec<Constraint>,
        number: usize,
        constraint: &dsr_tree::Constraint,
    ) -> Result<(), NoMemory>
        requires { Narrow self.now.known self.now.constants }
        ensures found { OnOk result
            (Finds (faults_of self.now number constraint.now) told.old.fault told.new.fault) }
        ensures typed { OnOk result
            (faults_of self.now number constraint.now ≡ [] → typed.new.items ≡ typed.old.items
            ++ typed_of self.now.known constraint.now ∷ []) }
    {
        let is_over = number == constraint_limit(self.known.base.version);
        told.note_if(is_over, Condition::Limit, constraint.name.place);
        let mut own = Told { fault: None };
        self.check_own(&mut own, number, constraint);
        note_part(told, &own);
        if own.fault.is_none() {
            add_typed(alloc, &self.known, told, typed, constraint)?;
        }
        Ok(())
    }

    // The typed constraints where there is no fault.
    fn typed_constraints(
        &self,
        alloc: Global,
        told: &mut Told,
        constraints: &[dsr_tree::Constraint],
    ) -> Result<Vec<Constraint>, NoMemory>
        requires least { Narrow self.now.known self.now.constants }
        requires numbers { get bytes_eq self.now.numbers.now
            ≡ constraint_number (map constraint_shape constraints.now) }
        ensures found { OnOk result
            (Finds (faults_of_all self.now.known self.now.constants.rules.now constraints.now)
            told.old.fault told.new.fault) }
        ensures typed { IfOk result
            (λ cs. faults_of_all self.now.known self.now.constants.rules.now constraints.now ≡ [] →
            cs.items ≡ typed_of_all self.now.known constraints.now) }
    {
        let mut typed = Vec::new(alloc);
        for (number, constraint) in constraints.iter().enumerate() {
            self.check_constraint(alloc, told, &mut typed, number, constraint)?;
        }
        Ok(typed)
    }
}

// The typed constraints where the widths of constants are known and there is no fault.
fn typed_among(
    alloc: Global,
    known: &Known,
    constants: &Constants,
    told: &mut Told,
    items: &[dsr_tree::Constraint],
) -> Result<Vec<Constraint>, NoMemory>
    requires { Narrow known.now constants.now }
    ensures found { OnOk result
        (Finds (faults_of_all known.now constants.now.rules.now items.now) told.old.fault
        told.new.fault) }
    ensures typed { IfOk result
        (λ cs. faults_of_all known.now constants.now.rules.now items.now ≡ [] → cs.items
        ≡ typed_of_all known.now items.now) }
{
    let numbers = constraint_numbers(alloc, items)?;
    let checker = Checker {
        known: *known,
        constants: *constants,
        numbers: &numbers,
    };
    checker.typed_constraints(alloc, told, items)
}

// The same, or the first fault in them.
fn constraints_with(
    alloc: Global,
    known: &Known,
    constants: &Constants,
    items: &[dsr_tree::Constraint],
) -> Result<Vec<Constraint>, SpecFault>
    requires { Narrow known.now constants.now }
    ensures no_fault { IfOk result (λ _. faults_of_all known.now constants.now.rules.now items.now ≡ []) }
    ensures constraints { IfOk result (λ cs. cs.items ≡ typed_of_all known.now items.now) }
    ensures fault { IfErr result (Tells (faults_of_all known.now constants.now.rules.now items.now)) }
{
    let mut told = Told { fault: None };
    let typed = typed_among(alloc, known, constants, &mut told, items)?;
    match told.refusal() {
        Some(fault) => Err(fault),
        None => Ok(typed),
    }
}

// The typed constraints of a tree, over what its names stand for, or its first fault.
fn constraints_among(
    alloc: Global,
    tree: &Tree,
    known: &Known,
) -> Result<Vec<Constraint>, SpecFault>
    requires { CountRelations (known_of known.now) }
    ensures no_fault { IfOk result (λ _. faults_of_all known.now tree.now.rules tree.now.constraints ≡ []) }
    ensures constraints { IfOk result (λ cs. cs.items ≡ typed_of_all known.now tree.now.constraints) }
    ensures fault { IfErr result (Tells (faults_of_all known.now tree.now.rules tree.now.constraints)) }
{
    let rules = tree.rules.items();
    let least = least_widths(alloc, known, rules)?;
    let constants = Constants {
        rules,
        least: &least,
    };
    constraints_with(alloc, known, &constants, tree.constraints.items())
}

/// The typed constraints of a tree, in order, in disjunctive normal form, over the tables of its
/// declarations; complements have given way to their bases. `At` tells the fault with the least
/// place, and of several there the one of the least condition; the conditions are those of a name
/// that is declared twice or stands for nothing, of a limit, of pools and kinds that disagree, of a
/// constant that is too wide, of `not` over a size or a value, and of a normal form that is too
/// large.
pub fn constraints(
    alloc: Global,
    tree: &Tree,
    structures: &Structures,
) -> Result<Vec<Constraint>, SpecFault>
    requires typed { AreTyped structures.now }
    ensures no_fault { IfOk result
        (λ _. constraints_faults (known_in structures.now) tree.now.rules
        (map constraint_shape tree.now.constraints) ≡ []) }
    ensures constraints { IfOk result
        (λ cs. cs.items
        ≡ typed_constraints (known_in structures.now) (map constraint_shape tree.now.constraints)) }
    ensures fault { IfErr result
        (Tells (constraints_faults (known_in structures.now) tree.now.rules
        (map constraint_shape tree.now.constraints))) }
{
    let tables = name_tables(alloc, structures)?;
    let known = Known {
        base: structures,
        tables: &tables,
    };
    constraints_among(alloc, tree, &known)
}
