//! Names that are given twice.

ghost use Rattle.std.specs.Prelude.{◌≡◌, ◌+◌, [], ◌∷◌, IfOk, OnOk, map};
ghost use Rattle.ecd_cast.specs.Meaning.{count_of, count_all};
ghost use Rattle.ecd_cast.specs.Validity.{named_by, named_in, head_names};
ghost use Rattle.ecd_cjudge.specs.Faults.{place_as};
ghost use Rattle.ecd_cjudge.specs.Names.{Named};

use crate::spot::{Spot, unless};
use ecd_cast::tree::{CellInfo, Param, Stmt};
use ecd_first::First;
use ecd_list::OutOfMemory;
use std::collections::BTreeSet;

/// The names so far.
pub(crate) type Names<'a> = BTreeSet<&'a [u8]>;

/// A name, which the earlier ones may have already.
fn name_one<'a>(
    first: &mut First<Spot>,
    names: &mut Names<'a>,
    spot: Spot,
    name: &'a [u8],
) -> Result<(), OutOfMemory>
    ensures { OnOk result (Named names.old first.old names.new first.new (record { name = name.entry.now; place = place_as spot } ∷ [])) }
{
    let is_new = names.insert(name)?;
    unless(first, is_new, spot, 6);
    Ok(())
}

/// The names of parameters.
pub(crate) fn name_params<'a>(
    first: &mut First<Spot>,
    names: &mut Names<'a>,
    spot: Spot,
    params: &'a [Param],
) -> Result<(), OutOfMemory>
    ensures { OnOk result (Named names.old first.old names.new first.new (head_names (place_as spot) (map (λ q. q.name) params.now))) }
{
    for param in params {
        name_one(first, names, spot, param.name.as_slice())?;
    }
    Ok(())
}

/// The names of cells.
pub(crate) fn name_cells<'a>(
    first: &mut First<Spot>,
    names: &mut Names<'a>,
    spot: Spot,
    cells: &'a [CellInfo],
) -> Result<(), OutOfMemory>
    ensures { OnOk result (Named names.old first.old names.new first.new (head_names (place_as spot) (map (λ c. c.name) cells.now))) }
{
    for cell in cells {
        name_one(first, names, spot, cell.name.as_slice())?;
    }
    Ok(())
}

/// The variables that the statements of a block declare. Answers the number behind the last statement.
#[cycle(names)]
pub(crate) fn name_block<'a>(
    first: &mut First<Spot>,
    names: &mut Names<'a>,
    spot: Spot,
    stmts: &'a [Stmt],
    levels: u32,
) -> Result<u32, OutOfMemory>
    ensures named { OnOk result (Named names.old first.old names.new first.new (named_in stmts.now (place_as spot))) }
    ensures next { IfOk result (λ n. n ≡ spot.statement + count_all stmts.now) }
{
    let deeper = levels.checked_sub(1).ok_or(OutOfMemory)?;
    let mut statement = spot.statement;
    for stmt in stmts {
        let here = Spot {
            item: spot.item,
            statement,
        };
        statement = name_stmt(first, names, here, stmt, deeper)?;
    }
    Ok(statement)
}

#[cycle(names)]
fn name_stmt<'a>(
    first: &mut First<Spot>,
    names: &mut Names<'a>,
    spot: Spot,
    stmt: &'a Stmt,
    levels: u32,
) -> Result<u32, OutOfMemory>
    ensures named { OnOk result (Named names.old first.old names.new first.new (named_by stmt.now (place_as spot))) }
    ensures next { IfOk result (λ n. n ≡ spot.statement + count_of stmt.now) }
{
    let inner = spot.statement.checked_add(1).ok_or(OutOfMemory)?;
    let inside = Spot {
        item: spot.item,
        statement: inner,
    };
    match stmt {
        Stmt::Number { name, .. } => {
            name_one(first, names, spot, name.as_slice())?;
            Ok(inner)
        }
        Stmt::Pointer { name, .. } => {
            name_one(first, names, spot, name.as_slice())?;
            Ok(inner)
        }
        Stmt::Assign { .. } | Stmt::Store { .. } | Stmt::SetCell { .. } | Stmt::Return(_) => {
            Ok(inner)
        }
        Stmt::If { yes, no, .. } => {
            let behind = name_block(first, names, inside, yes.as_slice(), levels)?;
            let second = Spot {
                item: spot.item,
                statement: behind,
            };
            let next = name_block(first, names, second, no.as_slice(), levels)?;
            Ok(next)
        }
        Stmt::For { name, body, .. } => {
            name_one(first, names, spot, name.as_slice())?;
            let next = name_block(first, names, inside, body.as_slice(), levels)?;
            Ok(next)
        }
    }
}
