//! Tables of cases.

ghost use Rattle.std.specs.Prelude.{◌≤◌, length};
ghost use Rattle.std.specs.List.{All};
ghost use Rattle.ecd_vectors.specs.Passing.{IsWithin};

use crate::case::Case;

/// A case of depth 0.
fn case(schema: &'static str, root: &'static str, bytes: &'static str, consumed: u64) -> Case
    requires short { length schema.now ≤ 262144 }
    requires few { length bytes.now ≤ 33554432 }
    ensures { IsWithin result }
{
    Case {
        schema,
        root,
        depth: 0,
        bytes,
        consumed,
    }
}

/// Schemas of one small number. All are within the limits of cases.
pub fn numbers() -> [Case; 8]
    ensures { All IsWithin result }
{
    [
        case("x = 5", "x", "05", 1),
        case("x = 5", "x", "06", 0),
        case("x = 5", "x", "", 0),
        case("x = 5", "x", "0506", 1),
        case("a = 0", "a", "00ff", 1),
        case("z = 23", "z", "17", 1),
        case("z = 23", "z", "1817", 0),
        case("n = 0x05 ; five", "n", "05", 1),
    ]
}
