//! Times the reading, writing and checking of a large data item (RFC 8949), and the reading of large schemas (RFC 8610): the
//! word after the program's name says which.
//! The word `runtime` prints the fixed functions of emitted files, with `,length-first` behind it those for that order of keys.
//! Without a word it does nothing.
#![tactic(auto)]

mod measure;
mod runtime;
mod sample;

use anyhow::Result;
use ecd_keyorder::Order;
use measure::measure;
use runtime::print_runtime;
use std::env;

fn main(rt: HostRuntime) -> Result<()> {
    let mut words = env::args(&rt)?.skip(1);
    match words.next() {
        None => Ok(()),
        Some(word) => match word.as_str() {
            "runtime" => print_runtime(rt.alloc(), Order::Bytewise, &rt),
            "runtime,length-first" => print_runtime(rt.alloc(), Order::LengthFirst, &rt),
            other => measure(rt.alloc(), &rt, other),
        },
    }
}
