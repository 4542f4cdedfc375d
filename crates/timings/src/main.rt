//! Does one thing many times, so that it can be timed from outside. The first argument says what.
//!
//! `orders`: operations on an order of traces. Then the number of ids; how often; `fill`, `walk`,
//! `get`, `insert`, `remove` or `move`. It prints a sum of the answers, which is the same each
//! time.
//!
//! `records`: the record of each trace of a SEG-Y file. Then the file; `load`, which only loads it,
//! or `records`, which makes the record of each trace too. It prints the number of traces, and of
//! their samples, their least, greatest and sum where records were made.
#![tactic(auto)]

mod orders;
mod traces;

use crate::orders::sum_of;
use crate::traces::count_records;
use std::{env, io};

// The number that the word says, or 0.
fn number(word: &str) -> u32 {
    word.parse::<u32>().ok().unwrap_or(0)
}

fn main(rt: HostRuntime) -> io::Result<()> {
    let alloc = rt.alloc();
    let mut words = env::args(&rt)?;
    let _program = words.next();
    let mut next = || words.next().unwrap_or(String::new(alloc));
    let (what, first, second) = (next(), next(), next());
    if what.as_str() == "orders" {
        let name = next();
        let (ids, times) = (number(first.as_str()), number(second.as_str()));
        let sum = sum_of(alloc, ids, times, name.as_str());
        return println!(rt; "{sum}");
    }
    let Some((traces, total)) = count_records(&rt, first.as_str(), second.as_str() == "records")
    else {
        return println!(rt; "not loaded");
    };
    let (samples, sum) = (total.samples, total.sum);
    println!(rt;
        "{traces} {samples} {} {} {sum}",
        total.least, total.greatest
    )
}
