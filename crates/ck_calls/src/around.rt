//! Calls of other handles while a call of one holds the stripes of its keys: its closure plays them.
use crate::answer::{Answer, answered, print};
use crate::calls::NumHandle;
use crate::line::Line;
use crate::stage::{END, Stage};
use crate::watch::Watch;
use anyhow::Result;
use cuckoo_map::NumKey;

impl Stage {
    /// Plays the lines of a block in the closure of a call, and prints what the call is answered
    /// below the end of the block.
    pub fn around(&mut self, rt: &impl Print, line: &Line, lines: &[Line]) -> Result<()> {
        let mut handle = self.lend(line.who)?;
        let watch = Watch::new();
        let mut played = Ok(());
        let play = || {
            played = self.play_others(rt, lines);
            watch.note(());
        };
        let answer = if line.call == "around" {
            around_one(&mut handle, line, play)
        } else {
            around_two(&mut handle, line, play)
        };
        *self.place(line.who)? = Some(handle);
        played?;
        println!(rt; "{END}")?;
        print(rt, answer, &watch)?;
        Ok(())
    }

    fn play_others(&mut self, rt: &impl Print, lines: &[Line]) -> Result<()> {
        for line in lines {
            println!(rt; "{}", line.text)?;
            self.play_other(rt, line)?;
        }
        Ok(())
    }
}

// Around an `update_fn`, which binds the key to a value that the line names, or leaves its own.
fn around_one<F: FnOnce() + Drop>(handle: &mut NumHandle, line: &Line, play: F) -> Answer
    requires { F.IsAlwaysCallable play }
{
    let key = NumKey(line.numbers[0]);
    let new = line.all().get(1).copied();
    let change = |old: u64| {
        play();
        new.unwrap_or(old)
    };
    answered(handle.update_fn(&key, change), Answer::Yes)
}

// Around an `update_two`, which moves one from the first key to the other. Of a key with itself no
// call is made.
fn around_two<F: FnOnce() + Drop>(handle: &mut NumHandle, line: &Line, play: F) -> Answer
    requires { F.IsAlwaysCallable play }
{
    let from = NumKey(line.numbers[0]);
    let to = NumKey(line.numbers[1]);
    if from.0 == to.0 {
        return Answer::Yes(false);
    }
    let move_one = |less: u64, more: u64| {
        play();
        (less.saturating_sub(1), more.saturating_add(1))
    };
    answered(handle.update_two(&from, &to, move_one), Answer::Yes)
}
