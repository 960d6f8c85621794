//! Laws of shapes that are apart: facts about the definitions alone.

ghost use Rattle.ecd_apart.specs.Laws.{ApartShareNone, IsApartBothWays};

/// Shapes that are apart share no item, where the fields of their maps that may be taken at once have different keys.
pub fn apart_shapes_share_no_item()
    ensures { ApartShareNone }
{}

/// It does not matter which of the two shapes is named first.
pub fn apart_both_ways()
    ensures { IsApartBothWays }
{}
