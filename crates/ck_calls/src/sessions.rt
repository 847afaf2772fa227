//! Blocks of lines while a handle has locked the table, or some keys.
use crate::answer::{Answer, print};
use crate::calls::NumHandle;
use crate::line::{Line, MOST_KEYS};
use crate::session::{Begun, Session};
use crate::stage::Stage;
use crate::watch::Watch;
use anyhow::{Result, bail, ensure};
use cuckoo_map::{KeysWithoutRoom, NumKey};
use std::alloc::Global;

const SO_MANY: &str = "no session has so many keys";

/// The keys of the line, and then others.
fn keys_of(line: &Line) -> [NumKey; MOST_KEYS] {
    let [a, b, c, d, e, f, g, h, ..] = line.numbers;
    [a, b, c, d, e, f, g, h].map(NumKey)
}

impl Stage {
    /// Plays the lines while the handle of the first line has locked what that asks for. Where it
    /// is refused, no line is played.
    pub fn play_session(
        &mut self,
        rt: &impl Print,
        alloc: Global,
        first: &Line,
        lines: &[Line],
    ) -> Result<()> {
        let keys = keys_of(first);
        match self.begin(first, &keys.each_ref())? {
            Ok(session) => {
                let mut session = session;
                let played = self.play_lines(rt, alloc, &mut session, lines);
                self.put_back(first.who, session.end());
                played
            }
            Err(back) => self.tell_refusal(rt, first.who, back),
        }
    }

    /// Says whether the handle of the line may lock what that asks for, by trying.
    pub fn try_session(&mut self, rt: &impl Print, line: &Line) -> Result<()> {
        let keys = keys_of(line);
        match self.begin(line, &keys.each_ref())? {
            Ok(session) => {
                self.put_back(line.who, session.end());
                print(rt, Answer::Locked, &Watch::new())?;
                Ok(())
            }
            Err(back) => self.tell_refusal(rt, line.who, back),
        }
    }

    // Takes the handle of the line out of its place, and locks what the line asks for.
    fn begin<'k>(&mut self, line: &Line, keys: &'k [&'k NumKey]) -> Result<Begun<'k>> {
        ensure!(line.count <= MOST_KEYS, SO_MANY);
        let keys = &keys[..line.count.min(keys.len())];
        match Session::begin(self.lend(line.who)?, line.call, keys) {
            Some(begun) => Ok(begun),
            None => bail!(SO_MANY),
        }
    }

    fn put_back(&mut self, who: usize, handle: NumHandle) {
        if let Ok(place) = self.place(who) {
            *place = Some(handle);
        }
    }

    fn tell_refusal(
        &mut self,
        rt: &impl Print,
        who: usize,
        back: KeysWithoutRoom<NumHandle>,
    ) -> Result<()> {
        let KeysWithoutRoom { caller, why } = back;
        self.put_back(who, caller);
        print(rt, Answer::NotLocked(why), &Watch::new())?;
        Ok(())
    }

    fn play_lines(
        &mut self,
        rt: &impl Print,
        alloc: Global,
        session: &mut Session<'_>,
        lines: &[Line],
    ) -> Result<()> {
        for line in lines {
            println!(rt; "{}", line.text)?;
            if line.call.is_empty() || line.who != 0 {
                self.play_other(rt, line)?;
            } else {
                session.play(rt, alloc, line)?;
            }
        }
        Ok(())
    }
}
