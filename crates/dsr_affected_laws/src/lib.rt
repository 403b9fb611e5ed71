//! Which symbols and constraints the bits of some fields bear on, and that all others stay where images
//! differ in those alone: laws on images.
//!
//! The functions do nothing when they run. Each carries its law as its contract.
#![tactic(auto)]

ghost use Rattle.std.specs.Prelude.{◌≡◌, ◌↔◌, ℕ, Bool, IsTrue, List, Some, length, slice_get};
ghost use Rattle.dsr_affected_laws.specs.Cases.{EditCase};
ghost use Rattle.dsr_affected_laws.specs.Affected.{IsAffected, IsAffectedConstraint, PassesAffected};
ghost use Rattle.dsr_affected_laws.specs.Differing.{AreAlikeBut, AreFree, CoversAffected, DifferOnlyIn, HasFieldsOf, IsCellAt, IsRising};
ghost use Rattle.dsr_ir.specs.declared.constraints.Constraint.{Constraint};
ghost use Rattle.dsr_ir.specs.declared.declarations.FieldRef.{FieldRef};
ghost use Rattle.dsr_ir.specs.declared.declarations.Pool.{Pool};
ghost use Rattle.dsr_ir.specs.declared.declarations.SetDecl.{SetDecl};
ghost use Rattle.dsr_ir.specs.declared.declarations.Spec.{Spec};
ghost use Rattle.dsr_ir.specs.declared.declarations.Structures.{Structures};
ghost use Rattle.dsr_ir.specs.declared.layouts.Cell.{Cell};
ghost use Rattle.dsr_ir.specs.declared.layouts.Layout.{Layout};
ghost use Rattle.dsr_ir.specs.declared.tuples.Element.{Element};
ghost use Rattle.dsr_ir.specs.declared.tuples.Fact.{Fact};
ghost use Rattle.dsr_ir.specs.declared.updates.Symbol.{Symbol};
ghost use Rattle.dsr_meaning.specs.Consistency.{BoundConstraint, Comes, IsConsistent, IsFirstViolated, IsViolated, NoneIsViolated};
ghost use Rattle.dsr_meaning.specs.Counting.{IsIn};
ghost use Rattle.dsr_meaning.specs.Looking.{symbol_of};
ghost use Rattle.dsr_meaning.specs.Models.{IsFact};
ghost use Rattle.dsr_meaning.specs.Typed.{AreTyped, Descends, IsTyped, pool_at};
ghost use Rattle.dsr_meaning.specs.Writes.{OthersStay};
ghost use Rattle.dsr_step_theory.specs.Images.{IsImageOf};
ghost use Rattle.dsr_update_theory.specs.Effects.{IsDeclared};

/// Each test that is closed under what affects symbols passes all that are affected. So where it
/// passes nothing else, it is exact.
pub fn the_affected_are_the_least_set()
    ensures { (spec : Spec) (fields : List FieldRef) (such : Symbol → Bool)
        → PassesAffected spec fields such → (symbol : Symbol) → IsAffected spec fields symbol
        → IsTrue (such symbol) }
{}

/// In a typed specification they are sets and relations that are declared.
pub fn the_affected_are_declared()
    ensures { (spec : Spec) (fields : List FieldRef) (symbol : Symbol) → IsTyped spec
        → IsAffected spec fields symbol → IsDeclared spec.base symbol }
{}

/// Every symbol that isn't affected has the same facts, and every constraint that isn't has the
/// same violated bindings.
pub fn what_isnt_affected_stays()
    ensures symbols { (spec : Spec) (layout : Layout) (fields : List FieldRef) (old new : List ℕ)
        → AreAlikeBut spec layout fields old new → (fact : Fact)
        → (IsAffected spec fields (symbol_of fact) → ⊥)
        → IsFact spec layout new fact ↔ IsFact spec layout old fact }
    ensures constraints { (spec : Spec) (layout : Layout) (fields : List FieldRef) (old new : List ℕ)
        → AreAlikeBut spec layout fields old new → (v : BoundConstraint) (c : Constraint)
        → slice_get spec.constraints v.constraint ≡ Some c
        → (IsAffectedConstraint spec fields c → ⊥)
        → IsViolated (IsFact spec layout new) spec v ↔ IsViolated (IsFact spec layout old) spec v }
{}

/// So where the old image is consistent, only affected constraints need be tested: all others
/// are satisfied by the new one.
pub fn testing_what_is_affected_is_enough()
    ensures violated { (spec : Spec) (layout : Layout) (fields : List FieldRef) (old new : List ℕ)
        (order : List ℕ) (v : BoundConstraint) → AreAlikeBut spec layout fields old new
        → CoversAffected spec fields order → IsConsistent spec layout old
        → IsViolated (IsFact spec layout new) spec v
        → (at : ℕ) × (slice_get order at ≡ Some v.constraint) }
    ensures consistent { (spec : Spec) (layout : Layout) (fields : List FieldRef) (old new : List ℕ)
        (order : List ℕ) → AreAlikeBut spec layout fields old new
        → CoversAffected spec fields order → IsConsistent spec layout old
        → NoneIsViolated (IsFact spec layout new) spec order → IsConsistent spec layout new }
    ensures first { (spec : Spec) (layout : Layout) (fields : List FieldRef) (old new : List ℕ)
        (order : List ℕ) (v w : BoundConstraint) → AreAlikeBut spec layout fields old new
        → CoversAffected spec fields order → IsRising order → IsConsistent spec layout old
        → IsFirstViolated (IsFact spec layout new) spec order v
        → IsViolated (IsFact spec layout new) spec w → Comes w v → ⊥ }
{}

/// Where none of the fields is a fixed one, the new image has the layout of the old one.
pub fn the_layout_stays()
    ensures { (spec : Spec) (layout : Layout) (fields : List FieldRef) (old new : List ℕ)
        → AreAlikeBut spec layout fields old new → AreFree spec fields → length new ≡ length old
        → IsImageOf spec layout new }
{}

/// A record of a pool has the fields of its pool's structure, of the structures of its sets, and of
/// the ancestors of these.
pub fn records_have_the_fields_of_their_sets()
    ensures pools { (base : Structures) (e : Element) (d : Pool) (structure : ℕ)
        → pool_at base e.pool ≡ Some d → Descends base.structures d.structure structure
        → HasFieldsOf base e structure }
    ensures sets { (base : Structures) (e : Element) (set : SetDecl) (structure : ℕ)
        → AreTyped base → IsIn set base.sets → set.pool ≡ e.pool
        → Descends base.structures set.structure structure → HasFieldsOf base e structure }
{}

/// Writes into cells of fields, one after the other, leave an image that differs only in those.
pub fn writes_differ_only_in_their_cells()
    ensures none { (spec : Spec) (layout : Layout) (fields : List FieldRef) (bytes : List ℕ)
        → DifferOnlyIn spec layout fields bytes bytes }
    ensures one { (spec : Spec) (layout : Layout) (fields : List FieldRef) (e : Element)
        (field : FieldRef) (index : ℕ) (cell : Cell) (old new : List ℕ) → IsIn field fields
        → IsCellAt spec layout e field index cell → OthersStay cell.bit cell.width old new
        → DifferOnlyIn spec layout fields old new }
    ensures more { (spec : Spec) (layout : Layout) (fields : List FieldRef)
        (old middle new : List ℕ) → DifferOnlyIn spec layout fields old middle
        → DifferOnlyIn spec layout fields middle new → DifferOnlyIn spec layout fields old new }
{}

/// The laws speak of something: there are two images that differ in a field alone, by which one
/// symbol is affected and another isn't, and fewer constraints need be tested than there are.
pub fn a_written_value_affects_two_symbols()
    ensures { EditCase }
{}
