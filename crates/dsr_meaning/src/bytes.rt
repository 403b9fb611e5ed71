// Laws on bytes and the cells in them, each the contract of a function.
ghost use Rattle.std.specs.Prelude.{◌≡◌, ◌≤◌, ◌<◌, ◌+◌, ℕ, List};
ghost use Rattle.dsr_ir.specs.declared.layouts.Cell.{Cell};
ghost use Rattle.dsr_meaning.specs.Cells.{IsFieldCell, cell_value};
ghost use Rattle.dsr_meaning.specs.Writes.{AreBitsApart, AreBytes, HasSameBits, OthersStay};

/// Two lists of bytes with the same bits outside of a range have the same value in every cell
/// outside of it.
pub fn others_keep_their_values()
    ensures { (old new : List ℕ) (cell : Cell) (bit width : ℕ) → AreBytes old → AreBytes new →
        IsFieldCell cell →
        OthersStay bit width old new → AreBitsApart cell.bit cell.width bit width → cell_value new cell ≡ cell_value old cell }
{}

/// Two lists of bytes with the same bits in a cell have the same value there.
pub fn bits_make_values()
    ensures { (old new : List ℕ) → AreBytes old → AreBytes new → (cell : Cell) → IsFieldCell cell →
        HasSameBits cell old new → cell_value new cell ≡ cell_value old cell }
{}
