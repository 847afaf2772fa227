//! Counts the words of its input by two threads, and prints how often some of them stand there.
#![tactic(auto)]

use anyhow::Result;
use cuckoo_map::{Fault, Handle, KeyFault, Settings, TextKey};
use std::alloc::Global;
use std::io;
use std::thread::{self, Threads};

type Counter = Handle<TextKey, u64>;

/// Counts the words; one of more than 64 bytes is left out.
fn count(alloc: Global, counter: &mut Counter, words: &[&str]) -> Result<(), Fault> {
    for word in words {
        match TextKey::new(alloc, word.as_bytes()) {
            Ok(key) => counter.upsert(key, |count| count.saturating_add(1), 1)?,
            Err(KeyFault::TooLong) => continue,
            Err(fault) => return Err(fault.into()),
        };
    }
    Ok(())
}

/// Counts all words by two threads, and looks some up.
fn count_all(
    rt: &(impl Threads + Sync),
    alloc: Global,
    words: &[&str],
) -> Result<[Option<u64>; 3], Fault> {
    let mut counters = Handle::open(alloc, Settings::for_keys(10_000, 2))?;
    let (Some(mut first), Some(mut second)) = (counters.pop(), counters.pop()) else {
        unreachable!()
    };
    let (left, right) = words.split_at(words.len() / 2);
    let (one, two) = thread::join(
        rt,
        || count(alloc, &mut first, left),
        || count(alloc, &mut second, right),
    );
    one.and(two)?;
    Ok(first.find_all(["the", "cuckoo", "magpie"])?)
}

fn main(rt: HostRuntime) -> Result<()> {
    let alloc = rt.alloc();
    let text = io::read_to_string(alloc, rt.stdin())?;
    let words: Vec<&str> = text.split_ascii_whitespace().collect(alloc)?;
    let counts = count_all(&rt, alloc, &words)?;
    println!(rt; "{counts:?}")?;
    Ok(())
}
