//! Which cells of an image share no bit, and on what a layout depends: laws on layouts and cells.
//! Each is the contract of a function that does nothing when it runs.
#![tactic(auto)]

ghost use Rattle.std.specs.Prelude.{◌≡◌, ◌≢◌, ◌⊎◌, ℕ, List, Some, length};
ghost use Rattle.dsr_layout_laws.specs.Entries.{IsEntry};
ghost use Rattle.dsr_ir.specs.declared.declarations.FieldRef.{FieldRef};
ghost use Rattle.dsr_ir.specs.declared.declarations.Structures.{Structures};
ghost use Rattle.dsr_ir.specs.declared.layouts.Cell.{Cell};
ghost use Rattle.dsr_ir.specs.declared.layouts.Layout.{Layout};
ghost use Rattle.dsr_ir.specs.declared.tuples.Element.{Element};
ghost use Rattle.dsr_meaning.specs.FixedFields.{fixed_value};
ghost use Rattle.dsr_meaning.specs.Layouts.{layout_of};
ghost use Rattle.dsr_meaning.specs.Legal.{IsLegalLayout};
ghost use Rattle.dsr_meaning.specs.Typed.{AreTyped, Descends};
ghost use Rattle.dsr_meaning.specs.Writes.{AreCellsApart};

/// Different entries of an array share no bit.
pub fn entries_are_apart()
    ensures { (layout : Layout) (e : Element) (field : FieldRef) (i j : ℕ) (c d : Cell) → i ≢ j
        → IsEntry layout e field i c → IsEntry layout e field j d → AreCellsApart c d }
{}

/// Nor do cells of different slots of a pool.
pub fn slots_are_apart()
    ensures { (layout : Layout) (e f : Element) (a b : FieldRef) (i j : ℕ) (c d : Cell) → e.pool ≢ 0
        → e.pool ≡ f.pool → e.slot ≢ f.slot → IsEntry layout e a i c → IsEntry layout f b j d
        → AreCellsApart c d }
{}

/// Nor do cells of different pools.
pub fn pools_are_apart()
    ensures { (layout : Layout) → IsLegalLayout layout
        → (e f : Element) (a b : FieldRef) (i j : ℕ) (c d : Cell) → e.pool ≢ 0 → f.pool ≢ 0
        → e.pool ≢ f.pool → IsEntry layout e a i c → IsEntry layout f b j d → AreCellsApart c d }
{}

/// Nor do the cells of two fields of one record, where the structure that declares one of them is
/// that of the other one or descends from it.
pub fn fields_are_apart()
    ensures { (base : Structures) (bytes : List ℕ) (layout : Layout) → AreTyped base
        → layout_of base bytes ≡ Some layout
        → (e : Element) (a b : FieldRef) (i j : ℕ) (c d : Cell) → a ≢ b
        → Descends base.structures a.structure b.structure ⊎ Descends base.structures b.structure a.structure
        → IsEntry layout e a i c → IsEntry layout e b j d → AreCellsApart c d }
{}

/// A layout depends on nothing of an image but its length and the values of its fixed fields.
pub fn layouts_depend_on_fixed_values()
    ensures { (base : Structures) (old new : List ℕ) → length new ≡ length old
        → ((field : ℕ) → fixed_value base new field ≡ fixed_value base old field)
        → layout_of base new ≡ layout_of base old }
{}
