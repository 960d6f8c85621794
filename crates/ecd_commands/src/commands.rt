//! The texts that the commands ask for.

ghost use Rattle.std.specs.Prelude.{◌≡◌, ◌≢◌, ◌≤◌, [], true, IfOk, IfErr};
ghost use Rattle.ecd_commands.specs.Asked.{IsInRange, check, compile, read, run};
ghost use Rattle.ecd_commands.specs.Commands.{asked_by, schema_asked};
ghost use Rattle.ecd_commands.specs.Files.{files_of, TakesFew};
ghost use Rattle.ecd_commands.specs.Causes.{IsText, HasNoText};
ghost use Rattle.ecd_commands.specs.Outcomes.{OutOfMemory as WantsMemory};
ghost use Rattle.ecd_commands.specs.Answers.{outcome_of};

use crate::answer::Answer;
use crate::cfiles::{MOST_C_TEXT, program_of, returned};
use crate::contents::{MOST_DATA, contents_of};
use crate::schemas::compile_schema;
use crate::words::{Command, SchemaWords};
use ecd_lex::MOST_BYTES;
use ecd_list::{ByteList, OutOfMemory};
use ecd_outside::Files;
use ecd_reader::consumed;
use std::alloc::Global;

/// A text of these bytes.
fn text<'a>(alloc: Global, bytes: &[u8]) -> Result<ByteList, Answer<'a>>
    ensures text { IfOk result (λ text. text ≡ bytes.now) }
    ensures wants { IfErr result (λ answer. outcome_of answer ≡ WantsMemory) }
{
    match ByteList::from_slice(alloc, bytes) {
        Ok(text) => Ok(text),
        Err(OutOfMemory) => Err(Answer::OutOfMemory),
    }
}

/// `ok`, where the schema is taken.
fn check_text<'a, F: Files>(
    alloc: Global,
    words: &SchemaWords<'a>,
    files: &mut F,
) -> Result<ByteList, Answer<'a>>
    requires { words.now.depth ≤ 32 }
    ensures text { IfOk result (λ text. IsText (F.told files.old) (check (schema_asked words.now)) text) }
    ensures none { IfErr result (λ answer. HasNoText (F.told files.old) (check (schema_asked words.now)) (F.faults files.old) (F.faults files.new) (F.begun files.new) (F.left files.new) (outcome_of answer)) }
    ensures few { F.begun files.new ≡ true → TakesFew (F.told files.old) (files_of (check (schema_asked words.now))) (F.left files.new) }
    ensures told { F.told files.new ≡ F.told files.old }
    ensures later { F.faults files.old ≤ F.faults files.new }
{
    let schema = contents_of(alloc, files, words.file, MOST_BYTES)?;
    let _compiled = match compile_schema(alloc, schema.as_slice(), words) {
        Ok(compiled) => compiled,
        Err(answer) => return Err(answer),
    };
    text(alloc, b"ok\n")
}

/// The C text of the schema.
fn compile_text<'a, F: Files>(
    alloc: Global,
    words: &SchemaWords<'a>,
    files: &mut F,
) -> Result<ByteList, Answer<'a>>
    requires { words.now.depth ≤ 32 }
    ensures text { IfOk result (λ text. IsText (F.told files.old) (compile (schema_asked words.now)) text) }
    ensures none { IfErr result (λ answer. HasNoText (F.told files.old) (compile (schema_asked words.now)) (F.faults files.old) (F.faults files.new) (F.begun files.new) (F.left files.new) (outcome_of answer)) }
    ensures few { F.begun files.new ≡ true → TakesFew (F.told files.old) (files_of (compile (schema_asked words.now))) (F.left files.new) }
    ensures told { F.told files.new ≡ F.told files.old }
    ensures later { F.faults files.old ≤ F.faults files.new }
{
    let schema = contents_of(alloc, files, words.file, MOST_BYTES)?;
    let compiled = match compile_schema(alloc, schema.as_slice(), words) {
        Ok(compiled) => compiled,
        Err(answer) => return Err(answer),
    };
    Ok(compiled.text)
}

/// How many bytes the reader of the schema takes from the data, and the value. So far that has no text but `_`.
fn read_text<'a, F: Files>(
    alloc: Global,
    words: &SchemaWords<'a>,
    name: &'a str,
    files: &mut F,
) -> Result<ByteList, Answer<'a>>
    requires { words.now.depth ≤ 32 }
    ensures text { IfOk result (λ text. IsText (F.told files.old) (read (schema_asked words.now) name.now) text) }
    ensures none { IfErr result (λ answer. HasNoText (F.told files.old) (read (schema_asked words.now) name.now) (F.faults files.old) (F.faults files.new) (F.begun files.new) (F.left files.new) (outcome_of answer)) }
    ensures few { F.begun files.new ≡ true → TakesFew (F.told files.old) (files_of (read (schema_asked words.now) name.now)) (F.left files.new) }
    ensures told { F.told files.new ≡ F.told files.old }
    ensures later { F.faults files.old ≤ F.faults files.new }
{
    let schema = contents_of(alloc, files, words.file, MOST_BYTES)?;
    let input = match contents_of(alloc, files, name, MOST_DATA) {
        Ok(input) => input,
        Err(answer) => return Err(answer),
    };
    let compiled = match compile_schema(alloc, schema.as_slice(), words) {
        Ok(compiled) => compiled,
        Err(answer) => return Err(answer),
    };
    let taken = match consumed(alloc, &compiled.program, input.as_slice()) {
        Ok(taken) => taken,
        Err(OutOfMemory) => return Err(Answer::OutOfMemory),
    };
    if taken == 0 {
        return Err(Answer::NoEncoding);
    }
    text(alloc, b"1 _\n")
}

/// What a reader of the C file does with the data in at most so many steps.
fn run_text<'a, F: Files>(
    alloc: Global,
    c_file: &'a str,
    function: &'a str,
    name: &'a str,
    steps: u64,
    files: &mut F,
) -> Result<ByteList, Answer<'a>>
    ensures text { IfOk result (λ text. IsText (F.told files.old) (run c_file.now function.now name.now steps) text) }
    ensures none { IfErr result (λ answer. HasNoText (F.told files.old) (run c_file.now function.now name.now steps) (F.faults files.old) (F.faults files.new) (F.begun files.new) (F.left files.new) (outcome_of answer)) }
    ensures few { F.begun files.new ≡ true → TakesFew (F.told files.old) (files_of (run c_file.now function.now name.now steps)) (F.left files.new) }
    ensures told { F.told files.new ≡ F.told files.old }
    ensures later { F.faults files.old ≤ F.faults files.new }
{
    let c_text = contents_of(alloc, files, c_file, MOST_C_TEXT)?;
    let input = match contents_of(alloc, files, name, MOST_DATA) {
        Ok(input) => input,
        Err(answer) => return Err(answer),
    };
    let program = match program_of(alloc, c_text.as_slice()) {
        Ok(program) => program,
        Err(answer) => return Err(answer),
    };
    match returned(alloc, &program, function, input.as_slice(), steps) {
        Ok(text) => Ok(text),
        Err(answer) => Err(answer),
    }
}

/// The text that the words ask for.
pub fn text_of<'a, F: Files>(
    alloc: Global,
    command: &Command<'a>,
    files: &mut F,
) -> Result<ByteList, Answer<'a>>
    requires { IsInRange (asked_by command.now) }
    ensures text { IfOk result (λ text. IsText (F.told files.old) (asked_by command.now) text) }
    ensures none { IfErr result (λ answer. HasNoText (F.told files.old) (asked_by command.now) (F.faults files.old) (F.faults files.new) (F.begun files.new) (F.left files.new) (outcome_of answer)) }
    ensures untouched { files_of (asked_by command.now) ≡ [] → files.new ≡ files.old }
    ensures few { files_of (asked_by command.now) ≢ [] → F.begun files.new ≡ true → TakesFew (F.told files.old) (files_of (asked_by command.now)) (F.left files.new) }
    ensures told { F.told files.new ≡ F.told files.old }
    ensures later { F.faults files.old ≤ F.faults files.new }
{
    match *command {
        Command::Check(words) => check_text(alloc, &words, files),
        Command::Compile(words) => compile_text(alloc, &words, files),
        Command::Read { schema, data } => read_text(alloc, &schema, data, files),
        Command::Run {
            file,
            function,
            data,
            steps,
        } => run_text(alloc, file, function, data, steps, files),
        Command::Write { .. } | Command::Copy { .. } | Command::Sample { .. } => {
            Err(Answer::NotBuilt)
        }
    }
}
