// Structures and those from which they descend.
ghost use Rattle.std.specs.Prelude.{◌≡◌, ◌∷◌, Decides, nat_eq, option_and_then, slice_get};
ghost use Rattle.dsr_meaning.specs.Lists.{any_of};
ghost use Rattle.dsr_meaning.specs.Typed.{AreTyped, Descends, ancestors};

use dsr_ir::Structures;

/// The structure's parent.
pub fn parent(base: &Structures, structure: u32) -> Option<u32>
    ensures { result ≡ option_and_then (λ s. s.parent) (slice_get base.now.structures structure) }
{
    base.structures.items().get(structure as usize)?.parent
}

/// Whether the structure is the other one or descends from it.
pub fn descends(base: &Structures, structure: u32, other: u32) -> bool
    requires typed { AreTyped base.now }
    ensures descends { Decides result (Descends base.now.structures structure other) }
    ensures in_line { result ≡ any_of (nat_eq other)
        (structure ∷ ancestors base.now.structures structure) }
{
    let mut next = Some(structure);
    while let Some(current) = next {
        if current == other {
            return true;
        }
        next = parent(base, current);
    }
    false
}
