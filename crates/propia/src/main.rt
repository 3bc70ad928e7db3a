//! `propia`: a propagation engine for clauses. The work is done by `pp_run`; here are the real ends and the words.
#![tactic(auto)]

mod ends;
mod serve;
#[cfg(test)]
mod tests;

use ends::{StdinSource, StdoutSink};
use serve::{ended, served};
use std::process::ExitCode;
use std::{env, io};

fn main(rt: HostRuntime) -> ExitCode {
    let mut source = StdinSource::new(rt.stdin());
    let mut sink = StdoutSink::new(rt.stdout());
    let words = words(&rt);
    ended(served(&rt, rt.alloc(), &words, &mut source, &mut sink))
}

/// All words of the command line, the program's own name first.
fn words(rt: &HostRuntime) -> io::Result<Vec<String>> {
    let words: Vec<String> = env::args(rt)?.collect(rt.alloc())?;
    Ok(words)
}
