//! The pairs of a table are taken out and printed.
use crate::lists::print_pairs;
use crate::stage::Stage;
use anyhow::Result;
use cuckoo_map::{DrainFault, NotDrained};
use std::io;

impl Stage {
    /// Drains the table, and prints its pairs, or why it doesn't.
    pub fn drain(&mut self, rt: &impl Print, who: usize) -> Result<()> {
        let alloc = self.alloc();
        match self.lend(who)?.drain(alloc) {
            Ok((handle, pairs)) => {
                *self.place(who)? = Some(handle);
                print_pairs(rt, &pairs)?;
            }
            Err(NotDrained { caller, why }) => {
                *self.place(who)? = Some(caller);
                print_why(rt, why)?;
            }
        }
        Ok(())
    }
}

fn print_why(rt: &impl Print, why: DrainFault) -> io::Result<()> {
    match why {
        DrainFault::Busy(t) => println!(rt; "busy {t}"),
        DrainFault::Memory => println!(rt; "memory"),
    }
}
