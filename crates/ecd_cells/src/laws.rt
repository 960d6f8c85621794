//! Laws of structs and cells: facts about the definitions alone.

ghost use Rattle.ecd_cells.specs.Laws.{HasOneRead, ValuesHaveCells};

/// Wherever an item with a value stands, there are cells that a read of it sets, and the value and the place tell which.
pub fn values_have_cells()
    ensures some { ValuesHaveCells }
    ensures one { HasOneRead }
{}
