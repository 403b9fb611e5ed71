// Laws on layouts, each the contract of a function. With them, those who use a layout show that a
// record has a field's entry, as `cell` requires, and what follows where no kind of refusal
// applies.
ghost use Rattle.std.specs.Prelude.{◌≡◌, ◌↔◌, ◌≤◌, [], ℕ, List, length, Option, IfSome, IsTrue};
ghost use Rattle.dsr_ir.specs.declared.declarations.Spec.{Spec};
ghost use Rattle.dsr_ir.specs.declared.declarations.Structure.{Structure};
ghost use Rattle.dsr_ir.specs.declared.declarations.Structures.{Structures};
ghost use Rattle.dsr_ir.specs.declared.layouts.PoolNumbers.{PoolNumbers};
ghost use Rattle.dsr_meaning.specs.Layouts.{layout_of};
ghost use Rattle.dsr_meaning.specs.Refusals.{ByteRange, share_byte, is_code_below, instances, instance_limit, refusals};
ghost use Rattle.dsr_meaning.specs.Typed.{IsTyped};
ghost use Rattle.dsr_layout.specs.InRange.{FactsLieInRange};
ghost use Rattle.dsr_layout.specs.Laws as laws;
ghost use Rattle.dsr_layout.specs.Laws.{OfEachLayout, HasByte, HasCode};

/// Each entry of a field lies in the bytes of the structure that declares the field.
pub fn fields_lie_in_structures()
    ensures { (base : Structures) (bytes : List ℕ) →
        IfSome (layout_of base bytes) (laws.FieldsLieInStructures base bytes) }
{}

/// A structure is at least as large as the one that it extends, so that the fields of its
/// ancestors lie in its bytes, too.
pub fn parents_are_no_larger()
    ensures { (fixed : ℕ → Option ℕ) (structures : List Structure) → laws.ParentsAreNoLarger fixed structures }
{}

/// A slot has room for the structure of its pool, and for the structure of each set whose records
/// are slots of that pool.
pub fn records_fit_their_slots()
    ensures pools { OfEachLayout laws.PoolsHaveRoom }
    ensures sets { OfEachLayout laws.SetsHaveRoom }
{}

/// No byte is one of the head and of a pool.
pub fn heads_are_apart_from_pools()
    ensures { OfEachLayout laws.HeadIsApart }
{}

/// A field that refers to a pool has room for the code of no slot, and for the code of each slot.
pub fn codes_fit_references()
    ensures none { OfEachLayout laws.NonesFitReferences }
    ensures slots { OfEachLayout laws.CodesFitReferences }
{}

/// As many as a size may count fit each field that gives a value which a constraint compares with
/// that size by `=`, `<=` or `>=`.
pub fn counts_fit_values()
    ensures { OfEachLayout laws.CountsFitValues }
{}

/// A fact of the model lies in the pools of its set or relation, at slots that they have; a target
/// that is a number is one of a relation to numbers.
pub fn facts_lie_in_range()
    ensures { OfEachLayout (λ spec bytes layout. IsTyped spec → FactsLieInRange spec bytes layout) }
{}

/// The instances of rules and constraints are within their limit.
pub fn instances_are_few()
    ensures { OfEachLayout (λ spec _ layout. instances spec layout ≤ instance_limit spec.base.version) }
{}

/// Where nothing is refused, the image has all bytes of the head.
pub fn heads_fit_their_images()
    ensures image { (spec : Spec) (bytes : List ℕ) → refusals spec bytes ≡ [] →
        laws.HoldHead spec.base bytes (length bytes) }
    ensures layout { OfEachLayout (λ spec bytes layout. laws.HoldHead spec.base bytes layout.length) }
{}

/// Where nothing is refused, each structure has a size.
pub fn structures_have_sizes()
    ensures { (spec : Spec) (bytes : List ℕ) → refusals spec bytes ≡ [] →
        laws.StructuresHaveSizes spec.base bytes }
{}

/// The refusal that is told has the least kind of all that apply.
pub fn least_kinds_are_told()
    ensures { (spec : Spec) (bytes : List ℕ) → laws.FirstIsLeast (refusals spec bytes) }
{}

/// Two ranges of bytes are told to share one exactly where some byte lies in both.
pub fn ranges_share_bytes()
    ensures { (a b : ByteRange) → IsTrue (share_byte a b) ↔ (at : ℕ) × HasByte a at × HasByte b at }
{}

/// A value is told to be a code exactly where it is the code of some slot of the pool.
pub fn codes_are_of_slots()
    ensures { (n : PoolNumbers) (value : ℕ) → IsTrue (is_code_below n value n.count) ↔ (slot : ℕ)
        × HasCode n slot value }
{}
