//! Where in a script a line stands, and what is known there.
ghost use Rattle.std.specs.Prelude.{◌≡◌, ◌≢◌, false, codes, Ok, Err, IfOk, IfErr, IfSome, IfNone, OnOk};
ghost use Rattle.ck_format.specs.Script.{OnTextFault};
ghost use Rattle.ck_format.specs.Blocks.{blocks_of};
ghost use Rattle.ck_format.specs.FirstFault.{is_worker, is_end};
ghost use Rattle.ck_format.specs.SettingLines.{found_of};
ghost use Rattle.ck_format.specs.State.{parse_state, step, header_step, first_worker, block_step, has_ended, Block};

use crate::body::Body;
use crate::given::Given;
use crate::script::{Keys, Script, Version, What, Work};
use crate::script_key::ScriptKey;
use ck_key::{NumKey, TextKey};
use std::alloc::Global;
use std::mem;

/// What is known where a line begins.
#[derive(Drop)]
pub enum Stage {
    /// Line 1.
    Header,
    /// Before the first line `worker`.
    Settings(Given),
    /// In a block of a script on numbers.
    Num(Body<NumKey>),
    /// In a block of a script on words.
    Text(Body<TextKey>),
    /// Behind the line `end`.
    After(Script),
}

// Behind line 1.
fn behind_header(line: &[u8]) -> Result<Stage, What>
    ensures ok { IfOk result (λ s. header_step line.now ≡ Ok (parse_state s)) }
    ensures err { IfErr result (λ what. header_step line.now ≡ Err what) }
    ensures text { IfErr result (λ what. what ≡ What.Header) }
{
    if line == b"cuckoo 1".as_slice() {
        Ok(Stage::Settings(Given::none(Version::One)))
    } else if line == b"cuckoo 2".as_slice() {
        Ok(Stage::Settings(Given::none(Version::Two)))
    } else {
        Err(What::Header)
    }
}

// Behind the first line `worker`.
fn behind_settings(alloc: Global, given: &Given) -> Result<Stage, What>
    ensures ok { IfOk result (λ s. first_worker (found_of given.now) ≡ Ok (parse_state s)) }
    ensures err { IfErr result (λ what. first_worker (found_of given.now) ≡ Err what) }
    ensures text { IfErr result (λ what. what ≡ What.Setting) }
{
    if !given.do_fit() {
        return Err(What::Setting);
    }
    let settings = given.settings();
    Ok(match given.keys() {
        Keys::Num => Stage::Num(Body::new(alloc, given.version, settings)),
        Keys::Text => Stage::Text(Body::new(alloc, given.version, settings)),
    })
}

// Whether a line is `worker`.
fn is_worker(line: &[u8]) -> bool
    ensures { result ≡ is_worker line.now }
{
    matches!(line, b"worker")
}

// Whether a line is `end`.
fn is_end(line: &[u8]) -> bool
    ensures { result ≡ is_end line.now }
{
    matches!(line, b"end")
}

// Takes a line of a block, which is not `end`.
fn take_line<K: ScriptKey>(alloc: Global, body: &mut Body<K>, line: &[u8]) -> Result<(), What>
    requires { is_end line.now ≡ false }
    ensures ok { OnOk result (block_step (blocks_of K.kind K.name body.old) line.now
        ≡ Ok (Block (blocks_of K.kind K.name body.new))) }
    ensures err { IfErr result (λ what.
        OnTextFault what (block_step (blocks_of K.kind K.name body.old) line.now ≡ Err what)) }
    ensures text { IfErr result (λ what. what ≢ What.Read) }
{
    if is_worker(line) {
        body.take_worker(alloc)
    } else {
        body.take_command(alloc, line)
    }
}

impl Stage {
    /// The script, behind the line `end`.
    pub fn script(self) -> Option<Script>
        ensures some { IfSome result (λ s. self ≡ Stage.After s) }
        ensures none { IfNone result (has_ended (parse_state self) ≡ false) }
    {
        match self {
            Stage::After(script) => Some(script),
            Stage::Header => None,
            Stage::Settings(_given) => None,
            Stage::Num(_body) => None,
            Stage::Text(_body) => None,
        }
    }

    // Takes the line `end`.
    fn end(&mut self) -> Result<(), What>
        ensures ok { OnOk result
            (step (parse_state self.old) (codes "end") ≡ Ok (parse_state self.new)) }
        ensures err { IfErr result (λ what.
            OnTextFault what (step (parse_state self.old) (codes "end") ≡ Err what)) }
        ensures text { IfErr result (λ what. what ≢ What.Read) }
    {
        *self = match mem::replace(self, Stage::Header) {
            Stage::Header => return Err(What::Header),
            Stage::Settings(_) => return Err(What::Command),
            Stage::Num(body) => Stage::After(Script::Num(body.end()?)),
            Stage::Text(body) => Stage::After(Script::Text(body.end()?)),
            Stage::After(_) => return Err(What::Command),
        };
        Ok(())
    }

    /// Takes a line. An `Err` is what is wrong with it; no further line can be taken then.
    pub fn take(&mut self, alloc: Global, line: &[u8]) -> Result<(), What>
        ensures ok { OnOk result (step (parse_state self.old) line.now ≡ Ok (parse_state self.new)) }
        ensures err { IfErr result (λ what.
            OnTextFault what (step (parse_state self.old) line.now ≡ Err what)) }
        ensures text { IfErr result (λ what. what ≢ What.Read) }
    {
        if is_end(line) {
            return self.end();
        }
        match self {
            Stage::Header => {
                *self = behind_header(line)?;
                Ok(())
            }
            Stage::Settings(given) if is_worker(line) => {
                *self = behind_settings(alloc, given)?;
                Ok(())
            }
            Stage::Settings(given) => given.take(line),
            Stage::Num(body) => take_line(alloc, body, line),
            Stage::Text(body) => take_line(alloc, body, line),
            Stage::After(_) => Err(What::Command),
        }
    }
}
