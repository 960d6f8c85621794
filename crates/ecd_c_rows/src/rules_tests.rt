//! Each rule by small files, and what a valid program is known to have.

ghost use Rattle.std.specs.Prelude.{IfOk, ◌≡◌, [], ◌∷◌, codes};
ghost use Rattle.ecd_cast.specs.declared.tree.Expr.TheVariants.{Number as ANumber, Var as AVar};
ghost use Rattle.ecd_cast.specs.declared.tree.Stmt.TheVariants.{Return as AReturn, Number as ADeclaration};
ghost use Rattle.ecd_cast.specs.declared.tree.Source.TheVariants.{Call as FromCall};
ghost use Rattle.ecd_cast.specs.declared.tree.CItem.TheVariants.{Function as AFunction};
ghost use Rattle.ecd_cast.specs.declared.tree.ParamKind.TheVariants.{Number as ANumberParam};

use crate::texts::{file, joined, read};
use ecd_cast::fault::CFault;
use ecd_cast::tree::{CItem, Expr, Function, Param, ParamKind, Source, Stmt};
use ecd_cbuild::build::{name, one, var};
use ecd_cbuild::builder::{Builder, Valid};
use ecd_list::OutOfMemory;
use std::alloc::Global;
use std::test::Fail;

const HEAD: &str = "uint64_t f(const uint8_t *buf, uint64_t len) { ";

/// The fault of a file.
fn fault_of(alloc: Global, depth: &str, items: &[&str]) -> Result<Option<CFault>, Fail> {
    let text = file(alloc, depth, items)?;
    Ok(read(alloc, text.as_str()).err())
}

#[test]
fn a_function_breaks_each_rule_where_it_does(rt: HostRuntime) -> Result<(), Fail> {
    for (body, rule, statement) in [
        ("uint64_t n = m; return 1ull;", 1, 1),
        ("uint64_t n = g(buf, len); return 1ull;", 1, 1),
        ("uint64_t n = 1ull; return buf;", 2, 2),
        ("uint64_t n = f(buf, len); return 1ull;", 3, 1),
        (
            "for (uint64_t i = 0ull; i < len; i += 1ull) { len = 0ull; } return 1ull;",
            4,
            2,
        ),
        (
            "for (uint64_t i = 0ull; i < len; i += 1ull) { i = 0ull; } return 1ull;",
            4,
            2,
        ),
        ("m = 0ull; len = 0ull;", 5, 0),
        (
            "len = 0ull; if (0ull < 1ull) { if (0ull < 1ull) { return 1ull; } else { len = 0ull; } } else { return 1ull; }",
            5,
            0,
        ),
        ("uint64_t len = 1ull; return 1ull;", 6, 1),
        (
            "if (0ull < 1ull) { uint64_t len = 1ull; } else { return 1ull; } return 1ull;",
            6,
            2,
        ),
        ("uint64_t len = m; return 1ull;", 1, 1),
    ] {
        let fault = fault_of(rt.alloc(), "1", &[HEAD, body, " }"])?;
        let named = CFault::Rule {
            rule,
            item: 0,
            statement,
        };
        assert_eq!(rt; fault, Some(named), "{body}");
    }
    Ok(())
}

const GOOD: &str = "uint64_t f(uint64_t a) { return a; }";

const CELLS: &str = "struct cells { uint64_t v; };";

const READER: &str =
    "uint64_t read(const uint8_t *buf, uint64_t len, struct cells *out) { return 1ull; }";

#[test]
fn a_file_breaks_each_rule_where_it_does(rt: HostRuntime) -> Result<(), Fail> {
    let calls = "uint64_t early(uint64_t a) { uint64_t n = late(a); return n; }
uint64_t late(uint64_t a) { uint64_t n = m; return n; }";
    let twins = "struct twins { uint64_t v; uint64_t v; };";
    let fill = "uint64_t fill(struct cells *out) { out->w = 0ull; return 1ull; }";
    for (depth, first, second, behind, rule, item, statement) in [
        ("1", READER, "", "", 1, 0, 0),
        ("1", CELLS, fill, "", 1, 1, 1),
        ("9", CELLS, calls, READER, 3, 1, 1),
        ("0", CELLS, CELLS, "", 6, 1, 0),
        ("0", CELLS, twins, "", 6, 1, 0),
        ("1", GOOD, GOOD, "", 6, 1, 0),
        ("2", GOOD, "", "", 7, 0, 0),
        ("1", "", "", "", 7, 0, 0),
    ] {
        let fault = fault_of(rt.alloc(), depth, &[first, second, behind])?;
        let named = CFault::Rule {
            rule,
            item,
            statement,
        };
        assert_eq!(rt; fault, Some(named), "rule {rule} item {item}");
    }
    Ok(())
}

#[test]
fn a_valid_program_has_its_depth_its_spaces_and_its_functions(rt: HostRuntime) -> Result<(), Fail> {
    let inner =
        "uint64_t inner(const uint8_t *buf, uint64_t len) { uint64_t n = 1ull; return 1ull; }";
    let middle =
        "uint64_t middle(const uint8_t *buf, uint64_t len) { uint64_t n = inner(buf, len); return 1ull; }";
    let outer =
        "uint64_t outer(const uint8_t *buf, uint64_t len) { uint64_t n = middle(buf, len); return 1ull; }";
    let text = file(rt.alloc(), "3", &[CELLS, inner, middle, READER, outer])?;
    let valid = read(rt.alloc(), text.as_str())?;
    assert!(rt; valid.call_depth() == 3);
    assert!(rt; valid.spaces() == 9);
    assert!(rt; valid.function("middle") == Some(2));
    assert!(rt; valid.function("cells").is_none());
    assert!(rt; valid.is_reader(3));
    assert!(rt; !valid.is_reader(0));
    assert!(rt; !valid.is_reader(2));
    assert!(rt; !valid.is_reader(5));
    Ok(())
}

/// A file whose one function has 3,000 variables, and this statement behind them: 1,000 declarations, each with a choice behind it that declares a variable in each of its blocks.
fn crowded(alloc: Global, last: &str) -> Result<String, Fail> {
    let mut text = file(alloc, "1", &["uint64_t f(uint64_t a) { "])?;
    for number in 0..1_000u64 {
        let variable = format!(in alloc; "{number}")?;
        let parts = [
            "uint64_t v",
            variable.as_str(),
            " = 1ull; if (a < a) { uint64_t w",
            variable.as_str(),
            " = 1ull; } else { uint64_t x",
            variable.as_str(),
            " = 1ull; }\n",
        ];
        text.push_str(joined(alloc, &parts)?.as_str())?;
    }
    text.push_str(last)?;
    text.push_str(" return a; }")?;
    Ok(text)
}

#[test]
fn the_variables_of_a_crowded_function_are_told_apart(rt: HostRuntime) -> Result<(), Fail> {
    let text = crowded(rt.alloc(), "v999 = 0ull;")?;
    let known = read(rt.alloc(), text.as_str())?;
    assert!(rt; known.spaces() == 3_001);
    for (last, rule) in [("x999 = 0ull;", 1), ("uint64_t x999 = 1ull;", 6)] {
        let text = crowded(rt.alloc(), last)?;
        let named = CFault::Rule {
            rule,
            item: 0,
            statement: 4_001,
        };
        assert_eq!(rt;
            read(rt.alloc(), text.as_str()).err(),
            Some(named),
            "{last}"
        );
    }
    Ok(())
}

#[test]
fn faults_are_printed_with_their_rule_and_place(rt: HostRuntime) -> Result<(), Fail> {
    let alloc = rt.alloc();
    let rule = CFault::Rule {
        rule: 5,
        item: 1,
        statement: 0,
    };
    assert_eq!(rt;
        rule.to_string(alloc)?.as_str(),
        "rule C5 item 1 statement 0"
    );
    let text = CFault::Text { place: 12 };
    assert_eq!(rt; text.to_string(alloc)?.as_str(), "rule C0 at byte 12");
    assert_eq!(rt;
        CFault::OutOfMemory.to_string(alloc)?.as_str(),
        "out of memory"
    );
    Ok(())
}

/// `uint64_t inner(uint64_t len) { return 1ull; }`
fn inner(alloc: Global) -> Result<CItem, OutOfMemory>
    ensures { IfOk result (λ i. i ≡ AFunction (record { name = codes "inner"; params = record { name = codes "len"; kind = ANumberParam } ∷ []; body = AReturn (ANumber 1) ∷ [] })) }
{
    let param = Param {
        name: name(alloc, b"len")?,
        kind: ParamKind::Number,
    };
    let params = one(alloc, param)?;
    let body = one(alloc, Stmt::Return(Expr::Number(1)))?;
    let name = name(alloc, b"inner")?;
    Ok(CItem::Function(Function { name, params, body }))
}

/// `uint64_t n = inner(len);`
fn call_inner(alloc: Global) -> Result<Stmt, OutOfMemory>
    ensures { IfOk result (λ s. s ≡ ADeclaration (codes "n") (FromCall (codes "inner") (AVar (codes "len") ∷ []))) }
{
    let args = one(alloc, var(alloc, b"len")?)?;
    let called = name(alloc, b"inner")?;
    let name = name(alloc, b"n")?;
    Ok(Stmt::Number {
        name,
        from: Source::Call { name: called, args },
    })
}

/// `uint64_t outer(uint64_t len) { uint64_t n = inner(len); return 1ull; }`
fn outer(alloc: Global) -> Result<CItem, OutOfMemory>
    ensures { IfOk result (λ i. i ≡ AFunction (record { name = codes "outer"; params = record { name = codes "len"; kind = ANumberParam } ∷ []; body = ADeclaration (codes "n") (FromCall (codes "inner") (AVar (codes "len") ∷ [])) ∷ AReturn (ANumber 1) ∷ [] })) }
{
    let param = Param {
        name: name(alloc, b"len")?,
        kind: ParamKind::Number,
    };
    let params = one(alloc, param)?;
    let mut body = one(alloc, call_inner(alloc)?)?;
    body.push(Stmt::Return(Expr::Number(1)))?;
    let name = name(alloc, b"outer")?;
    Ok(CItem::Function(Function { name, params, body }))
}

/// A program of both, put one after the other.
fn put(alloc: Global) -> Result<Valid, OutOfMemory> {
    let mut items = one(alloc, inner(alloc)?)?;
    items.push(outer(alloc)?)?;
    let mut builder = Builder::new(alloc);
    builder.extend(items)?;
    Ok(builder.finish())
}

#[test]
fn a_builder_takes_a_function_that_calls(rt: HostRuntime) -> Result<(), Fail> {
    let valid = put(rt.alloc())?;
    assert!(rt; valid.call_depth() == 2);
    assert!(rt; valid.spaces() == 3);
    assert!(rt; valid.function("outer") == Some(1));
    Ok(())
}
