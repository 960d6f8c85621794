//! Programs are checked by the rules.

ghost use Rattle.std.specs.Prelude.{◌≡◌, ◌<◌, ◌^◌, [], IfOk, IfErr, None, length};
ghost use Rattle.ecd_first.specs.Firsts.{Sees};
ghost use Rattle.ecd_cast.specs.Spelling.{IsSpelledProgram};
ghost use Rattle.ecd_cast.specs.Validity.{IsValid, faults_from};
ghost use Rattle.ecd_cbuild.specs.Built.{IsFile};
ghost use Rattle.ecd_cjudge.specs.Causes.{IsCause};
ghost use Rattle.ecd_cjudge.specs.Faults.{Among, spot_rank};

use crate::judge_item::judge_items;
use crate::spot::Spot;
use ecd_cast::fault::CFault;
use ecd_cast::tree::{CItem, Program};
use ecd_cbuild::builder::Valid;
use ecd_cbuild::chains::longest;
use ecd_cscope::directory::Directory;
use ecd_first::{Broken, First};
use ecd_list::OutOfMemory;
use std::alloc::Global;

/// The first rule that items break, of C1 to C6.
fn first_broken(alloc: Global, items: &[CItem]) -> Result<Option<Broken<Spot>>, OutOfMemory>
    requires { length items.now < 2 ^ 32 }
    ensures { IfOk result (λ b. Sees spot_rank None b (Among (faults_from [] items.now 0))) }
{
    let directory = Directory::of(alloc, items)?;
    let mut first = First { broken: None };
    judge_items(alloc, items, &directory, &mut first)?;
    Ok(first.broken)
}

/// The most variables of a chain of calls of a valid program.
fn judge(alloc: Global, program: &Program) -> Result<u32, CFault>
    requires { IsSpelledProgram program.now }
    ensures ok { IfOk result (λ spaces. IsFile program.now spaces) }
    ensures err { IfErr result (λ e. IsCause program.now e) }
{
    let items = program.items.as_slice();
    if items.len() > 0xFFFF_FFFF {
        return Err(CFault::OutOfMemory);
    }
    match first_broken(alloc, items)? {
        None => {}
        Some(broken) => {
            return Err(CFault::Rule {
                rule: broken.rule,
                item: broken.place.item,
                statement: broken.place.statement,
            });
        }
    }
    let reach = longest(alloc, items)?;
    if program.depth != reach.calls {
        return Err(CFault::Rule {
            rule: 7,
            item: 0,
            statement: 0,
        });
    }
    Ok(reach.variables)
}

/// The program itself, where it breaks none of the rules C1 to C7.
///
/// The program has a spelling.
///
/// # Errors
///
/// `Rule` with the first fault: the least item, then the least statement, then the least rule, and C7 last.
/// `OutOfMemory` where memory is wanting. These count as that: blocks inside each other in more than `MOST_LEVELS` levels, a function's own block being the first; expressions inside each other in more than `MOST_LEVELS`; 2^32 or more items, or variables in one chain of calls; 2^32 - 1 or more statements in one function.
pub fn validate(alloc: Global, program: Program) -> Result<Valid, CFault>
    requires { IsSpelledProgram program }
    ensures same { IfOk result (λ v. v ≡ program) }
    ensures ok { IfOk result (λ _. IsValid program) }
    ensures err { IfErr result (λ e. IsCause program e) }
{
    let spaces = judge(alloc, &program)?;
    Ok(Valid::of_judged(program, spaces))
}
