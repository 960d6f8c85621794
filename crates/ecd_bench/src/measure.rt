//! The measurements.

use crate::sample::{array_bytes, chained_names, counted_map, mixed_bytes, repeated, worded_map};
use anyhow::{Result, bail, ensure};
use ecd_item::{Item, is_valid, read_item, write_item};
use ecd_keyorder::Order;
use ecd_lex::{MOST_BYTES, lex};
use ecd_names::resolve;
use ecd_parse::parse;
use std::alloc::Global;
use std::rt::Clock;
use std::time::{Duration, Instant};

/// The integers of the array that is read and written. Its encoding has 16,000,005 bytes.
const ARRAY_COUNT: u32 = 16_000_000;

/// The integers of the array of four widths, in fours. Its encoding has 16,000,000 bytes.
const MIXED_FOURS: u32 = 1_454_545;

/// The pairs of the map that is checked.
const MAP_COUNT: u32 = 100_000;

/// The rules of the schema whose names are resolved.
const NAME_COUNT: u32 = 20_000;

/// Makes the measurement of that name, and prints its line.
///
/// # Errors
///
/// Where there is no such measurement, memory runs out, or the clock or the output fails.
pub fn measure(alloc: Global, rt: &(impl Clock + Print), word: &str) -> Result<()> {
    match word {
        "read_item" | "read_mixed" => {
            print_line(
                rt,
                word,
                time_read(alloc, rt, array_for(alloc, word)?.as_slice())?,
                "2",
            )
        }
        "write_item" | "write_mixed" => {
            print_line(
                rt,
                word,
                time_write(alloc, rt, array_for(alloc, word)?)?,
                "2",
            )
        }
        "is_valid" => print_line(
            rt,
            word,
            time_check(rt, &counted_map(alloc, MAP_COUNT)?)?,
            "0.5",
        ),
        "is_valid_words" => {
            print_line(
                rt,
                word,
                time_check(rt, &worded_map(alloc, MAP_COUNT)?)?,
                "0.5",
            )
        }
        "many_rules" => print_line(rt, word, time_schema(alloc, rt, "", "a = 5\n", "")?, "0.3"),
        "long_choice" => print_line(
            rt,
            word,
            time_schema(alloc, rt, "a = 5", " / 5", "")?,
            "0.3",
        ),
        "long_string" => print_line(
            rt,
            word,
            time_schema(alloc, rt, "a = \"", "x", "\"")?,
            "0.3",
        ),
        "chained_names" => {
            let text = chained_names(alloc, NAME_COUNT)?;
            print_line(rt, word, time_names(alloc, rt, text.as_str())?, "1")
        }
        "many_bodies" => {
            let text = repeated(alloc, "", "a /= 5\n", "")?;
            print_line(rt, word, time_names(alloc, rt, text.as_str())?, "1")
        }
        _ => bail!("no such measurement: {word}"),
    }
}

/// The array of a measurement: of one width, or of four.
fn array_for(alloc: Global, word: &str) -> Result<Vec<u8>> {
    if word.ends_with("mixed") {
        Ok(mixed_bytes(alloc, MIXED_FOURS)?)
    } else {
        Ok(array_bytes(alloc, ARRAY_COUNT)?)
    }
}

/// How long an array's bytes take to be read.
fn time_read(alloc: Global, rt: &impl Clock, bytes: &[u8]) -> Result<Duration> {
    let start = Instant::now(rt)?;
    let (_item, end) = read_item(alloc, Order::Bytewise, bytes, 0, 1)?;
    let took = start.elapsed(rt)?;
    ensure!(end == bytes.len(), "the array ends at byte {end}");
    Ok(took)
}

/// How long the array that the bytes encode takes to be written.
fn time_write(alloc: Global, rt: &impl Clock, mut bytes: Vec<u8>) -> Result<Duration> {
    let (item, _end) = read_item(alloc, Order::Bytewise, bytes.as_slice(), 0, 1)?;
    let start = Instant::now(rt)?;
    let end = write_item(Order::Bytewise, &item, bytes.as_mut_slice(), 0)?;
    let took = start.elapsed(rt)?;
    ensure!(end == bytes.len(), "the array ends at byte {end}");
    Ok(took)
}

/// How long a map takes to be checked.
fn time_check(rt: &impl Clock, item: &Item) -> Result<Duration> {
    let start = Instant::now(rt)?;
    let valid = is_valid(Order::Bytewise, item, 1);
    let took = start.elapsed(rt)?;
    ensure!(valid, "the map is not valid");
    Ok(took)
}

/// How long a schema's text takes to be read as a tree. The text is as long as a schema may be, but for a part of `piece`.
fn time_schema(
    alloc: Global,
    rt: &impl Clock,
    first: &str,
    piece: &str,
    last: &str,
) -> Result<Duration> {
    let text = repeated(alloc, first, piece, last)?;
    ensure!(text.len() <= MOST_BYTES, "the schema is too long");
    let start = Instant::now(rt)?;
    let tokens = lex(alloc, text.as_str())?;
    let tree = parse(alloc, &tokens, text.len() as u32)?;
    let took = start.elapsed(rt)?;
    ensure!(!tree.rules.is_empty(), "the schema has no rule");
    Ok(took)
}

/// How long the names of a schema take to be resolved.
fn time_names(alloc: Global, rt: &impl Clock, text: &str) -> Result<Duration> {
    ensure!(text.len() <= MOST_BYTES, "the schema is too long");
    let tokens = lex(alloc, text)?;
    let tree = parse(alloc, &tokens, text.len() as u32)?;
    let start = Instant::now(rt)?;
    let names = resolve(alloc, tree)?;
    let took = start.elapsed(rt)?;
    ensure!(names.plugs("a") > 0, "there is no rule a");
    Ok(took)
}

/// Prints a measurement: its name, the seconds, the unit and the most seconds that are wanted.
fn print_line(rt: &impl Print, name: &str, took: Duration, goal: &str) -> Result<()> {
    let seconds = took.as_secs();
    let millis = took.subsec_millis();
    println!(rt; "{name} {seconds}.{millis:03} s {goal}")?;
    Ok(())
}
