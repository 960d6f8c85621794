//! The table of the prelude.

ghost use Rattle.std.specs.Prelude.{◌≡◌, map, IfOk};
ghost use Rattle.ecd_prelude.specs.Prelude.{prelude_rules};
ghost use Rattle.ecd_prelude.specs.Rows.{rule_of as rule_in};

use crate::row::{Body, Row};
use crate::rule::rule_of;
use ecd_list::{List, OutOfMemory};
use ecd_syntax::RuleList;
use std::alloc::Global;

/// The rules, in the order of the RFC.
const TABLE: [Row; 32] = [
    // The items of the major types 0 to 3.
    (b"any", Body::Any),
    (b"uint", Body::Major(0)),
    (b"nint", Body::Major(1)),
    (b"int", Body::Either(b"uint", b"nint")),
    (b"bstr", Body::Major(2)),
    (b"bytes", Body::Name(b"bstr")),
    (b"tstr", Body::Major(3)),
    (b"text", Body::Name(b"tstr")),
    // Dates and numbers by tags.
    (b"tdate", Body::Tag(0, b"tstr")),
    (b"biguint", Body::Tag(2, b"bstr")),
    (b"bignint", Body::Tag(3, b"bstr")),
    (b"bigint", Body::Either(b"biguint", b"bignint")),
    (b"integer", Body::Either(b"int", b"bigint")),
    (b"unsigned", Body::Either(b"uint", b"biguint")),
    (b"decfrac", Body::Fraction(4, b"e10")),
    (b"bigfloat", Body::Fraction(5, b"e2")),
    // What bytes and texts stand for, by tags.
    (b"eb64url", Body::Tag(21, b"any")),
    (b"eb64legacy", Body::Tag(22, b"any")),
    (b"eb16", Body::Tag(23, b"any")),
    (b"encoded-cbor", Body::Tag(24, b"bstr")),
    (b"uri", Body::Tag(32, b"tstr")),
    (b"b64url", Body::Tag(33, b"tstr")),
    (b"b64legacy", Body::Tag(34, b"tstr")),
    (b"regexp", Body::Tag(35, b"tstr")),
    (b"mime-message", Body::Tag(36, b"tstr")),
    (b"cbor-any", Body::Tag(55799, b"any")),
    // Simple values.
    (b"false", Body::Simple(20)),
    (b"true", Body::Simple(21)),
    (b"bool", Body::Either(b"false", b"true")),
    (b"nil", Body::Simple(22)),
    (b"null", Body::Name(b"nil")),
    (b"undefined", Body::Simple(23)),
];

/// The rules of rows, in order.
fn rules_of(alloc: Global, rows: &[Row]) -> Result<RuleList, OutOfMemory>
    ensures { IfOk result (λ rules. rules ≡ map rule_in rows.now) }
{
    let mut rules = List::new(alloc);
    for row in rows {
        rules.push(rule_of(alloc, row.0, row.1)?)?;
    }
    Ok(rules)
}

/// The rules of the prelude, in the order of the RFC, with 0 for each place.
///
/// # Errors
///
/// `OutOfMemory` where a growth was refused.
pub fn prelude(alloc: Global) -> Result<RuleList, OutOfMemory>
    ensures { IfOk result (λ rules. rules ≡ prelude_rules) }
{
    let rules = rules_of(alloc, &TABLE)?;
    Ok(rules)
}
