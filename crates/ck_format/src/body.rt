//! The blocks of a script that were read so far.
ghost use Rattle.std.specs.Prelude.{◌≡◌, ◌≢◌, ◌+◌, ◌≤◌, [], Ok, Err, OnOk, IfOk, IfErr, length};
ghost use Rattle.ck_model.specs.Ranges.{AreInRange};
ghost use Rattle.ck_format.specs.Formats.{most_workers};

use crate::line::command_of;
use crate::script::{Command, Version, What, Work};
use crate::script_key::ScriptKey;
use ck_model::settings::Settings;
use std::alloc::Global;
use std::mem;

const MOST_COMMANDS: u32 = 1_000_000;

/// The blocks so far, of which the last one goes on.
#[derive(Drop)]
pub struct Body<K> {
    version: Version,
    settings: Settings,
    whole: Vec<Vec<Command<K>>>,
    last: Vec<Command<K>>,
    commands: u32,
    ghost range: { AreInRange settings },
    ghost callers: { settings.callers ≡ length whole.items + 1 },
}

// How many workers a format may have.
fn most_workers(version: Version) -> u32
    ensures { result ≡ most_workers version }
{
    match version {
        Version::One => 256,
        Version::Two => 1024,
    }
}

impl<K: ScriptKey> Body<K> {
    ghost use Rattle.ck_format.specs.Script.{said_in, OnTextFault};
    ghost use Rattle.ck_format.specs.Blocks.{blocks_of, first_block, take_command, take_worker, said_by};

    /// The first worker's block begins.
    pub fn new(alloc: Global, version: Version, settings: Settings) -> Body<K>
        requires range { AreInRange settings }
        requires first { settings.callers ≡ 1 }
        ensures { blocks_of K.kind K.name result ≡ first_block version K.kind settings }
    {
        Body {
            version,
            settings,
            whole: Vec::new(alloc),
            last: Vec::new(alloc),
            commands: 0,
        }
    }

    /// Takes a command line.
    pub(crate) fn take_command(&mut self, alloc: Global, line: &[u8]) -> Result<(), What>
        ensures ok { OnOk result (take_command (blocks_of K.kind K.name self.old) line.now
            ≡ Ok (blocks_of K.kind K.name self.new)) }
        ensures err { IfErr result (λ what. OnTextFault what
            (take_command (blocks_of K.kind K.name self.old) line.now ≡ Err what)) }
        ensures text { IfErr result (λ what. what ≢ What.Read) }
    {
        let command = command_of::<K>(alloc, self.version, line)?;
        if self.commands >= MOST_COMMANDS {
            return Err(What::TooLong);
        }
        match self.last.push(command) {
            Ok(()) => {
                self.commands += 1;
                Ok(())
            }
            Err(_) => Err(What::Memory),
        }
    }

    /// Takes a further line `worker`.
    pub(crate) fn take_worker(&mut self, alloc: Global) -> Result<(), What>
        ensures ok { OnOk result (take_worker (blocks_of K.kind K.name self.old)
            ≡ Ok (blocks_of K.kind K.name self.new)) }
        ensures err { IfErr result (λ what. OnTextFault what
            (take_worker (blocks_of K.kind K.name self.old) ≡ Err what)) }
        ensures text { IfErr result (λ what. what ≢ What.Read) }
    {
        if self.settings.callers >= most_workers(self.version) {
            return Err(What::TooLong);
        }
        let block = mem::replace(&mut self.last, Vec::new(alloc));
        match self.whole.push(block) {
            Ok(()) => {
                self.settings.callers += 1;
                Ok(())
            }
            Err(_) => Err(What::Memory),
        }
    }

    /// Takes the line `end`.
    pub fn end(self) -> Result<Work<K>, What>
        ensures ok { IfOk result (λ work.
            said_in K.kind K.name work ≡ said_by (blocks_of K.kind K.name self)) }
        ensures err { IfErr result (λ what. what ≡ What.Memory) }
    {
        let mut workers = self.whole;
        match workers.push(self.last) {
            Ok(()) => Ok(Work {
                settings: self.settings,
                workers,
            }),
            Err(_) => Err(What::Memory),
        }
    }
}
