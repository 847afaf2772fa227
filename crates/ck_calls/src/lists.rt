//! The pairs of a table, and how they are printed.
use crate::locked_calls::NumLocked;
use anyhow::{Result, bail};
use cuckoo_map::NumKey;
use std::alloc::Global;
use std::io;

/// Whether a call of this name lists pairs.
pub fn is_list(call: &str) -> bool {
    matches!(call, "iter" | "export" | "drain")
}

/// The pairs that a call of this name lists, in its order.
pub fn listed(alloc: Global, locked: &mut NumLocked, call: &str) -> Result<Vec<(NumKey, u64)>> {
    match call {
        "iter" => pairs_of(alloc, locked),
        "export" => Ok(locked.export(alloc)?),
        "drain" => Ok(locked.drain(alloc)?),
        _ => bail!("no such list"),
    }
}

fn pairs_of(alloc: Global, locked: &NumLocked) -> Result<Vec<(NumKey, u64)>> {
    let mut pairs = Vec::new(alloc);
    for (key, value) in locked.iter() {
        pairs.push((*key, *value))?;
    }
    Ok(pairs)
}

/// Prints the pairs, each in a line.
pub fn print_pairs(rt: &impl Print, pairs: &[(NumKey, u64)]) -> io::Result<()> {
    if pairs.is_empty() {
        println!(rt; "no pairs")?;
    }
    for (key, value) in pairs {
        println!(rt; "{} {value}", key.0)?;
    }
    Ok(())
}
