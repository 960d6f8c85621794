//! The words of the command line.

ghost use Rattle.std.specs.Prelude.{◌≡◌, ◌≢◌, ◌≤◌, ℕ, List, ◌∷◌, ◌++◌, codes, decimal, IsTrue, ◌↔◌, IfSome, IfNone};
ghost use Rattle.ecd_keyorder.specs.declared.Order.{Order as AnOrder};
ghost use Rattle.ecd_keyorder.specs.declared.Order.TheVariants.{Bytewise};
ghost use Rattle.ecd_commands.specs.Asked.{Asks, AskNothing, bytes_of, depth_word, with_order, schema_of as asked_schema};
ghost use Rattle.ecd_commands.specs.Commands.{asked_by, schema_asked};

use ecd_keyorder::Order;
use itoa::Buffer;

/// The most levels that items under `any` may have.
pub const MOST_DEPTH: u64 = 32;

/// The most bytes that an encoding may be allowed.
pub const MOST_CAP: u64 = 16_777_216;

/// The most steps that a run of a C function may be allowed.
pub const MOST_STEPS: u64 = 9_223_372_036_854_775_807;

/// The most entries of the sample.
pub const MOST_ENTRIES: u64 = 20_000;

/// The words of a schema: the name of its file, the name of its root, and how many levels items under `any` may have, with
/// the order in which the keys of maps ascend.
#[derive(Clone, Copy)]
pub struct SchemaWords<'a> {
    pub file: &'a str,
    pub root: &'a str,
    pub depth: u8,
    pub order: Order,
}

/// What the words ask for. Files are said by their names.
#[derive(Clone, Copy)]
pub enum Command<'a> {
    /// Whether the schema is taken.
    Check(SchemaWords<'a>),
    /// The C text of the schema's root.
    Compile(SchemaWords<'a>),
    /// The value of the item that the data begins with.
    Read {
        schema: SchemaWords<'a>,
        data: &'a str,
    },
    /// The encoding of a value, of at most `cap` bytes.
    Write {
        schema: SchemaWords<'a>,
        value: &'a str,
        cap: u64,
    },
    /// The encoding of the item that the data begins with, of at most `cap` bytes.
    Copy {
        schema: SchemaWords<'a>,
        data: &'a str,
        cap: u64,
    },
    /// What a function of a C file does with the data, in at most `steps` steps.
    Run {
        file: &'a str,
        function: &'a str,
        data: &'a str,
        steps: u64,
    },
    /// The summary of a sample of so many entries.
    Sample {
        entries: u64,
    },
}

/// Whether the word is the number in decimal digits without a leading zero.
fn is_decimal(word: &str, number: u64) -> bool
    ensures { IsTrue result ↔ (word.now ≡ decimal number) }
{
    Buffer::new().format(number) == word
}

/// The number that the word writes in decimal digits without a leading zero, where it is from `least` to `most`.
fn number_in(word: &str, least: u64, most: u64) -> Option<u64>
    ensures found { IfSome result (λ number. (word.now ≡ decimal number) × (least ≤ number) × (number ≤ most)) }
    ensures none { IfNone result ((number : ℕ) → least ≤ number → number ≤ most → word.now ≡ decimal number → ⊥) }
{
    let Ok(number) = word.parse::<u64>() else {
        return None;
    };
    if number < least {
        return None;
    }
    if most < number {
        return None;
    }
    if !is_decimal(word, number) {
        return None;
    }
    Some(number)
}

/// The digits of a word, and the order that is said behind them: the bytewise one where none is.
fn digits_and_order(word: &str) -> (&str, Order)
    ensures parts { word.now ≡ with_order result.0.now result.1 }
    ensures whole { result.1 ≡ Bytewise → (front : List ℕ) → word.now ≢ front ++ codes ",length-first" }
{
    match word.strip_suffix(",length-first") {
        Some(digits) => (digits, Order::LengthFirst),
        None => (word, Order::Bytewise),
    }
}

/// The words of a schema.
fn schema_words<'a>(file: &'a str, root: &'a str, depth: &str) -> Option<SchemaWords<'a>>
    ensures found { IfSome result (λ schema. (schema_asked schema ≡ asked_schema file.now root.now schema.depth schema.order) × (depth.now ≡ depth_word schema.depth schema.order) × (schema.depth ≤ 32)) }
    ensures none { IfNone result ((levels : ℕ) (order : AnOrder) → levels ≤ 32 → depth.now ≡ depth_word levels order → ⊥) }
{
    let (digits, order) = digits_and_order(depth);
    let Some(depth) = number_in(digits, 0, MOST_DEPTH) else {
        return None;
    };
    Some(SchemaWords {
        file,
        root,
        depth: depth as u8,
        order,
    })
}

/// The words behind `check`.
fn check_words(words: &[String]) -> Option<Command<'_>>
    ensures found { IfSome result (λ command. Asks (codes "check" ∷ bytes_of words.now) (asked_by command)) }
    ensures none { IfNone result (AskNothing (codes "check" ∷ bytes_of words.now)) }
{
    let [file, root, depth] = words else {
        return None;
    };
    let Some(schema) = schema_words(file.as_str(), root.as_str(), depth.as_str()) else {
        return None;
    };
    Some(Command::Check(schema))
}

/// The words behind `compile`.
fn compile_words(words: &[String]) -> Option<Command<'_>>
    ensures found { IfSome result (λ command. Asks (codes "compile" ∷ bytes_of words.now) (asked_by command)) }
    ensures none { IfNone result (AskNothing (codes "compile" ∷ bytes_of words.now)) }
{
    let [file, root, depth] = words else {
        return None;
    };
    let Some(schema) = schema_words(file.as_str(), root.as_str(), depth.as_str()) else {
        return None;
    };
    Some(Command::Compile(schema))
}

/// The words behind `read`.
fn read_words(words: &[String]) -> Option<Command<'_>>
    ensures found { IfSome result (λ command. Asks (codes "read" ∷ bytes_of words.now) (asked_by command)) }
    ensures none { IfNone result (AskNothing (codes "read" ∷ bytes_of words.now)) }
{
    let [file, root, depth, data] = words else {
        return None;
    };
    let Some(schema) = schema_words(file.as_str(), root.as_str(), depth.as_str()) else {
        return None;
    };
    Some(Command::Read {
        schema,
        data: data.as_str(),
    })
}

/// The words behind `write`.
fn write_words(words: &[String]) -> Option<Command<'_>>
    ensures found { IfSome result (λ command. Asks (codes "write" ∷ bytes_of words.now) (asked_by command)) }
    ensures none { IfNone result (AskNothing (codes "write" ∷ bytes_of words.now)) }
{
    let [file, root, depth, value, cap] = words else {
        return None;
    };
    let Some(schema) = schema_words(file.as_str(), root.as_str(), depth.as_str()) else {
        return None;
    };
    let Some(cap) = number_in(cap.as_str(), 0, MOST_CAP) else {
        return None;
    };
    Some(Command::Write {
        schema,
        value: value.as_str(),
        cap,
    })
}

/// The words behind `copy`.
fn copy_words(words: &[String]) -> Option<Command<'_>>
    ensures found { IfSome result (λ command. Asks (codes "copy" ∷ bytes_of words.now) (asked_by command)) }
    ensures none { IfNone result (AskNothing (codes "copy" ∷ bytes_of words.now)) }
{
    let [file, root, depth, data, cap] = words else {
        return None;
    };
    let Some(schema) = schema_words(file.as_str(), root.as_str(), depth.as_str()) else {
        return None;
    };
    let Some(cap) = number_in(cap.as_str(), 0, MOST_CAP) else {
        return None;
    };
    Some(Command::Copy {
        schema,
        data: data.as_str(),
        cap,
    })
}

/// The words behind `run`.
fn run_words(words: &[String]) -> Option<Command<'_>>
    ensures found { IfSome result (λ command. Asks (codes "run" ∷ bytes_of words.now) (asked_by command)) }
    ensures none { IfNone result (AskNothing (codes "run" ∷ bytes_of words.now)) }
{
    let [file, function, data, steps] = words else {
        return None;
    };
    let Some(steps) = number_in(steps.as_str(), 1, MOST_STEPS) else {
        return None;
    };
    Some(Command::Run {
        file: file.as_str(),
        function: function.as_str(),
        data: data.as_str(),
        steps,
    })
}

/// The words behind `sample`.
fn sample_words(words: &[String]) -> Option<Command<'_>>
    ensures found { IfSome result (λ command. Asks (codes "sample" ∷ bytes_of words.now) (asked_by command)) }
    ensures none { IfNone result (AskNothing (codes "sample" ∷ bytes_of words.now)) }
{
    let [entries] = words else {
        return None;
    };
    let Some(entries) = number_in(entries.as_str(), 1, MOST_ENTRIES) else {
        return None;
    };
    Some(Command::Sample { entries })
}

/// What the words ask for, where they are in the table of commands.
pub fn command_in(words: &[String]) -> Option<Command<'_>>
    ensures asks { IfSome result (λ command. Asks (bytes_of words.now) (asked_by command)) }
    ensures none { IfNone result (AskNothing (bytes_of words.now)) }
{
    let (command, rest) = words.split_first()?;
    match command.as_str() {
        "check" => check_words(rest),
        "compile" => compile_words(rest),
        "read" => read_words(rest),
        "write" => write_words(rest),
        "copy" => copy_words(rest),
        "run" => run_words(rest),
        "sample" => sample_words(rest),
        _ => None,
    }
}
