//! What no contract says: that memory is found, how often and with how many bytes a call is made, and what a run leaves
//! where an end fails.
mod copies;
mod reading;
mod runs;
mod watchers;
mod workers;
mod writing;

use std::alloc::Global;
use std::process::Abort;

/// The bytes 0, 1, 2 and so on.
fn counted(rt: &impl Abort, alloc: Global, length: usize) -> Vec<u8> {
    let mut bytes = Vec::new(alloc);
    for i in 0..length {
        bytes.push((i % 256) as u8).expect(rt, "memory");
    }
    bytes
}

/// The list of this call alone.
fn only(rt: &impl Abort, alloc: Global, call: u64) -> Vec<u64> {
    let mut calls = Vec::new(alloc);
    calls.push(call).expect(rt, "memory");
    calls
}

/// A command line of these words.
fn words_of(rt: &impl Abort, alloc: Global, words: &[&str]) -> Vec<String> {
    let mut texts = Vec::new(alloc);
    for word in words {
        let text = String::from_str(alloc, word).expect(rt, "memory");
        texts.push(text).expect(rt, "memory");
    }
    texts
}
