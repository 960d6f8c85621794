//! C files, and calls of their readers on data.

ghost use Rattle.std.specs.Prelude.{◌≡◌, ◌≤◌, ◌⊎◌, List, Some, None, IfOk, IfErr, MatchOption, length, slice_get};
ghost use Rattle.ecd_cast.specs.declared.tree.CellInfo.{CellInfo};
ghost use Rattle.ecd_cast.specs.Validity.{IsValid, structs_of};
ghost use Rattle.ecd_cast.specs.Spelling.{IsSpelling};
ghost use Rattle.ecd_commands.specs.Outcomes.{OutOfMemory as WantsMemory};
ghost use Rattle.ecd_commands.specs.Calls.{struct_named, HasReader, IsReader, TakesStruct, TakesNone, IsHalted, HasNoProgram, BreaksRule, IsReturnText, outcome_of_fault, outcome_of_halt};
ghost use Rattle.ecd_commands.specs.Answers.{outcome_of};

use crate::answer::Answer;
use crate::cells::result_text;
use ecd_cast::fault::CFault;
use ecd_cast::tree::{CItem, ParamKind, StructDecl};
use ecd_cbuild::builder::Valid;
use ecd_ceval::{Arg, Block, BlockList, Halt, Machine};
use ecd_cread::{MOST_BYTES, read_c};
use ecd_list::{ByteList, OutOfMemory};
use std::alloc::Global;

/// The most bytes of a C file.
pub const MOST_C_TEXT: usize = MOST_BYTES;

/// The answer to a C file that is refused.
fn refused(fault: CFault) -> Answer<'static>
    ensures { outcome_of result ≡ outcome_of_fault fault }
{
    match fault {
        CFault::Text { place } => Answer::NoSpelling { place },
        CFault::Rule {
            rule,
            item,
            statement,
        } => Answer::BreaksC {
            rule,
            item,
            statement,
        },
        CFault::OutOfMemory => Answer::OutOfMemory,
    }
}

/// The program of a C file, or the answer to it.
pub fn program_of(alloc: Global, text: &[u8]) -> Result<Valid, Answer<'static>>
    requires { length text.now ≤ MOST_BYTES }
    ensures program { IfOk result (λ program. IsSpelling program text.now × IsValid program) }
    ensures refused { IfErr result (λ answer. (outcome_of answer ≡ WantsMemory) ⊎ (HasNoProgram text.now (outcome_of answer) ⊎ BreaksRule text.now (outcome_of answer))) }
{
    match read_c(alloc, text) {
        Ok(program) => Ok(program),
        Err(fault) => Err(refused(fault)),
    }
}

/// The reader of a name.
#[derive(Clone, Copy)]
struct Reader<'a> {
    name: &'a str,
    /// Its item number.
    function: u32,
    /// The number of its struct among the structs.
    place: u64,
    /// Its struct.
    declaration: &'a StructDecl,
}

/// The number, among the structs, and the declaration of the struct of a name.
fn struct_of<'a>(items: &'a [CItem], name: &[u8]) -> Option<(u64, &'a StructDecl)>
    ensures { MatchOption result (struct_named (structs_of items.now) name.now ≡ None)
        (λ found. (struct_named (structs_of items.now) name.now ≡ Some found.1.now) × (slice_get (structs_of items.now) found.0 ≡ Some found.1.now)) }
{
    let mut number: u64 = 0;
    for item in items {
        if let CItem::Struct(declaration) = item {
            if declaration.name.as_slice() == name {
                return Some((number, declaration));
            }
            number += 1;
        }
    }
    None
}

/// The name of the struct that a reader takes.
fn struct_taken(items: &[CItem], function: u32) -> Option<&[u8]>
    ensures { MatchOption result (TakesNone items.now function) (λ name. TakesStruct items.now function name.now) }
{
    let Some(CItem::Function(function)) = items.get(function as usize) else {
        return None;
    };
    let [buffer, length, cells] = function.params.as_slice() else {
        return None;
    };
    match (&buffer.kind, &length.kind, &cells.kind) {
        (ParamKind::ReadPointer, ParamKind::Number, ParamKind::Struct(name)) => {
            Some(name.as_slice())
        }
        _ => None,
    }
}

/// The reader of a name, where the program has one.
fn reader_of<'a>(program: &'a Valid, name: &'a str) -> Option<Reader<'a>>
    requires { IsValid program.now }
    ensures { MatchOption result ((infos : List CellInfo) → HasReader program.entry.now name.entry.now infos → ⊥) (λ r. (r.name.now ≡ name.entry.now) × IsReader program.entry.now name.entry.now r.function r.place r.declaration.now) }
{
    let function = program.function(name)?;
    let items = program.program().items.as_slice();
    let taken = struct_taken(items, function)?;
    let (place, declaration) = struct_of(items, taken)?;
    Some(Reader {
        name,
        function,
        place,
        declaration,
    })
}

/// The answer to a call that halts.
fn halted(halt: Halt) -> Answer<'static>
    ensures { outcome_of result ≡ outcome_of_halt halt }
{
    match halt {
        Halt::Stuck {
            reason,
            item,
            statement,
        } => Answer::Stuck {
            reason,
            item,
            statement,
        },
        Halt::Spent { steps } => Answer::Spent { steps },
        Halt::OutOfMemory { .. } => Answer::OutOfMemory,
    }
}

/// What a call of the reader on the data answers, within so many steps.
fn called(
    alloc: Global,
    program: &Valid,
    reader: &Reader<'_>,
    input: &[u8],
    steps: u64,
) -> Result<ByteList, Answer<'static>>
    requires valid { IsValid program.now }
    requires reader { IsReader program.now reader.now.name.now reader.now.function reader.now.place reader.now.declaration.now }
    ensures text { IfOk result (λ text. IsReturnText program.now reader.now.name.now input.now steps text) }
    ensures halted { IfErr result (λ answer. (outcome_of answer ≡ WantsMemory) ⊎ IsHalted program.now reader.now.name.now input.now steps (outcome_of answer)) }
{
    let Ok(place) = u32::try_from(reader.place) else {
        return Err(Answer::OutOfMemory);
    };
    let mut blocks = BlockList::new(alloc);
    blocks.push(Block::Fixed(input))?;
    blocks.push(Block::Cells(place))?;
    let mut machine = Machine::prepare(alloc, program, blocks)?;
    let args = [
        Arg::Bytes {
            block: 0,
            offset: 0,
        },
        Arg::Number(input.len() as u64),
        Arg::Struct { block: 1 },
    ];
    match machine.call(reader.function, &args, Some(steps)) {
        Ok(number) => {
            let infos = reader.declaration.cells.as_slice();
            Ok(result_text(alloc, number, infos, machine.cells(1))?)
        }
        Err(halt) => Err(halted(halt)),
    }
}

/// What the function of that name, a reader, answers on the data within so many steps.
pub fn returned<'a>(
    alloc: Global,
    program: &Valid,
    name: &'a str,
    input: &[u8],
    steps: u64,
) -> Result<ByteList, Answer<'a>>
    requires { IsValid program.now }
    ensures text { IfOk result (λ text. IsReturnText program.now name.now input.now steps text) }
    ensures halted { IfErr result (λ answer. (outcome_of answer ≡ WantsMemory) ⊎ IsHalted program.now name.now input.now steps (outcome_of answer)) }
{
    match reader_of(program, name) {
        Some(reader) => called(alloc, program, &reader, input, steps),
        None => Err(Answer::NoFunction { name }),
    }
}
