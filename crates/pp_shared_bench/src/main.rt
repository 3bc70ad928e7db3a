//! Work to be timed: turns, loads and raises of the stop word, offers with takes, and steals, by one thread and by four.
#![tactic(auto)]

mod deals;
mod stops;
mod turns;

use std::{env, io};
use stops::Act;

/// How much is done of the work that is asked for.
const MANY: u32 = 1_000_000;

/// How much is done of all other work.
const FEW: u32 = 10;

fn main(rt: HostRuntime) -> io::Result<()> {
    let words: Vec<String> = env::args(&rt)?.skip(1).collect(rt.alloc())?;
    let threads = if asks(&words, "beside") { 4 } else { 1 };
    let turned = turns::turns(&rt, rt.alloc(), threads, amount(&words, "turns"))?;
    println!(rt; "turns {turned}")?;
    let loaded = stops::counted(&rt, rt.alloc(), threads, amount(&words, "loads"), Act::Load)?;
    println!(rt; "loads {loaded}")?;
    let raised = stops::counted(
        &rt,
        rt.alloc(),
        threads,
        amount(&words, "raises"),
        Act::Raise,
    )?;
    println!(rt; "raises {raised}")?;
    let offered = deals::offers(&rt, rt.alloc(), threads, amount(&words, "offers"))?;
    println!(rt; "offers {offered}")?;
    let filled = deals::fills(rt.alloc(), amount(&words, "fills"))?;
    println!(rt; "fills {filled}")?;
    let stolen = deals::steals(&rt, rt.alloc(), threads, amount(&words, "steals"))?;
    println!(rt; "steals {stolen}")
}

/// How much of this work is done.
fn amount(words: &[String], work: &str) -> u32 {
    if asks(words, work) { MANY } else { FEW }
}

/// Whether this is one of the words.
fn asks(words: &[String], word: &str) -> bool {
    for asked in words {
        if asked.as_str() == word {
            return true;
        }
    }
    false
}
