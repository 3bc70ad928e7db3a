// Standard input and output as a source and a sink. They tell no bytes: what the system gives and takes is not proved.
ghost use Rattle.std.specs.Prelude.{◌≡◌, None};

use pp_io::{Failed, Sink, Source};
use std::io::{Read, Stdin, Stdout, Write};

/// Standard input, with the number of its calls that failed.
#[derive(Drop)]
pub struct StdinSource {
    stdin: Stdin,
    faults: u64,
}

impl StdinSource {
    /// Standard input, of which no call failed yet.
    pub fn new(stdin: Stdin) -> StdinSource
        ensures { result.faults ≡ 0 }
    {
        StdinSource { stdin, faults: 0 }
    }
}

impl Source for StdinSource {
    ghost left = { λ _. None };

    ghost faults = { λ s. s.faults };

    fn read(&mut self, buf: &mut [u8]) -> Result<usize, Failed> {
        match self.stdin.read(buf) {
            Ok(n) => Ok(n),
            Err(_) => {
                self.faults = self.faults.saturating_add(1);
                Err(Failed)
            }
        }
    }
}

/// Standard output, with the number of its calls that failed or took nothing.
#[derive(Drop)]
pub struct StdoutSink {
    stdout: Stdout,
    faults: u64,
}

impl StdoutSink {
    /// Standard output, of which no call failed yet.
    pub fn new(stdout: Stdout) -> StdoutSink
        ensures { result.faults ≡ 0 }
    {
        StdoutSink { stdout, faults: 0 }
    }
}

impl Sink for StdoutSink {
    ghost taken = { λ _. None };

    ghost faults = { λ s. s.faults };

    fn write(&mut self, bytes: &[u8]) -> Result<usize, Failed> {
        match self.stdout.write(bytes) {
            Ok(n) if n > 0 || bytes.is_empty() => Ok(n),
            _ => {
                self.faults = self.faults.saturating_add(1);
                Err(Failed)
            }
        }
    }
}
