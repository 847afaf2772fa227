//! What a command line says.
ghost use Rattle.std.specs.Prelude.{◌≡◌, ◌≢◌, Ok, Err, IfOk, IfErr};
ghost use Rattle.std.specs.Option.{ok_or};
ghost use Rattle.ck_format.specs.Script.{OnTextFault, on_names};
ghost use Rattle.ck_format.specs.FirstFault.{key_fault};
ghost use Rattle.ck_format.specs.Parse.{alone_command, key_command, pair_command, with_key, with_pair, number_behind, number_or_fault, move_command, has_moves, command_at, name_of, SaysOnNames};

use crate::script::{Command, Version, What};
use crate::script_key::ScriptKey;
use crate::tokens::{Tokens, number_of, tokens_of};
use std::alloc::Global;

// A command, or what is wrong with the words.
type Reading<K> = Result<Command<K>, What>;

// The number that a word is.
fn number(word: &[u8]) -> Result<u64, What>
    ensures { result ≡ number_or_fault word.now }
{
    match number_of(word) {
        Some(n) => Ok(n),
        None => Err(What::Number),
    }
}

// The key and the number that two words are. What is wrong with the key is told first.
fn key_and_number<K: ScriptKey>(alloc: Global, key: &[u8], word: &[u8]) -> Result<(K, u64), What>
    ensures name { IfOk result (λ r. K.name r.0 ≡ name_of K.kind key.now) }
    ensures ok { IfOk result (λ r. number_behind K.kind key.now word.now ≡ Ok r.1) }
    ensures err { IfErr result (λ what.
        OnTextFault what (number_behind K.kind key.now word.now ≡ Err what)) }
    ensures text { IfErr result (λ what. what ≢ What.Read) }
{
    let key = K::read(alloc, key)?;
    Ok((key, number(word)?))
}

// The command of this name.
fn alone<K: ScriptKey>(name: &[u8]) -> Reading<K>
    ensures ok { IfOk result (λ c.
        SaysOnNames K.kind (ok_or (alone_command name.now) What.Command) (on_names K.name c)) }
    ensures err { IfErr result (λ what. ok_or (alone_command name.now) What.Command ≡ Err what) }
    ensures text { IfErr result (λ what. what ≡ What.Command) }
{
    match name {
        b"len" => Ok(Command::Len),
        b"list" => Ok(Command::List),
        _ => Err(What::Command),
    }
}

// The command of this name on a key. A wrong name is told before a wrong key.
fn on_key<K: ScriptKey>(alloc: Global, name: &[u8], word: &[u8]) -> Reading<K>
    ensures ok { IfOk result (λ c. SaysOnNames K.kind
        (with_key (key_command name.now) word.now (key_fault K.kind word.now)) (on_names K.name c)) }
    ensures err { IfErr result (λ what. OnTextFault what
        (with_key (key_command name.now) word.now (key_fault K.kind word.now) ≡ Err what)) }
    ensures text { IfErr result (λ what. what ≢ What.Read) }
{
    match name {
        b"find" => Ok(Command::Find(K::read(alloc, word)?)),
        b"has" => Ok(Command::Has(K::read(alloc, word)?)),
        b"erase" => Ok(Command::Erase(K::read(alloc, word)?)),
        _ => Err(What::Command),
    }
}

// The command of this name on a key and a number. A wrong name is told before a wrong word.
fn on_pair<K: ScriptKey>(alloc: Global, name: &[u8], key: &[u8], word: &[u8]) -> Reading<K>
    ensures ok { IfOk result (λ c. SaysOnNames K.kind
        (with_pair (pair_command name.now) key.now (number_behind K.kind key.now word.now))
        (on_names K.name c)) }
    ensures err { IfErr result (λ what. OnTextFault what
        (with_pair (pair_command name.now) key.now (number_behind K.kind key.now word.now)
        ≡ Err what)) }
    ensures text { IfErr result (λ what. what ≢ What.Read) }
{
    match name {
        b"insert" => key_and_number(alloc, key, word).map(|(key, n)| Command::Insert(key, n)),
        b"assign" => key_and_number(alloc, key, word).map(|(key, n)| Command::Assign(key, n)),
        b"update" => key_and_number(alloc, key, word).map(|(key, n)| Command::Update(key, n)),
        b"add" => key_and_number(alloc, key, word).map(|(key, n)| Command::Add(key, n)),
        _ => Err(What::Command),
    }
}

// The command `move` on two keys and a number. That the keys are one is told last.
fn on_two<K: ScriptKey>(alloc: Global, source: &[u8], target: &[u8], word: &[u8]) -> Reading<K>
    ensures ok { IfOk result (λ c. SaysOnNames K.kind
        (move_command K.kind source.now target.now word.now) (on_names K.name c)) }
    ensures err { IfErr result (λ what. OnTextFault what
        (move_command K.kind source.now target.now word.now ≡ Err what)) }
    ensures text { IfErr result (λ what. what ≢ What.Read) }
{
    let from = K::read(alloc, source)?;
    let (to, n) = key_and_number::<K>(alloc, target, word)?;
    if source == target {
        return Err(What::Command);
    }
    Ok(Command::Move(from, to, n))
}

// Whether a format has `move`.
fn has_moves(version: Version) -> bool
    ensures { result ≡ has_moves version }
{
    match version {
        Version::One => false,
        Version::Two => true,
    }
}

/// The command that a line is.
#[tactic(auto, unfolding(crate::specs::Parse::command_at))]
pub(crate) fn command_of<K: ScriptKey>(alloc: Global, version: Version, line: &[u8]) -> Reading<K>
    ensures ok { IfOk result (λ c.
        SaysOnNames K.kind (command_at version K.kind line.now) (on_names K.name c)) }
    ensures err { IfErr result (λ what.
        OnTextFault what (command_at version K.kind line.now ≡ Err what)) }
    ensures text { IfErr result (λ what. what ≢ What.Read) }
{
    match tokens_of(line) {
        Tokens::One(name) => alone(name),
        Tokens::Two(name, key) => {
            if key.is_empty() {
                return Err(What::Command);
            }
            on_key(alloc, name, key)
        }
        Tokens::Three(name, key, number) => {
            if key.is_empty() || number.is_empty() {
                return Err(What::Command);
            }
            on_pair(alloc, name, key, number)
        }
        Tokens::Four(name, source, target, number) => {
            if source.is_empty() || target.is_empty() || number.is_empty() {
                return Err(What::Command);
            }
            if has_moves(version) && name == b"move".as_slice() {
                on_two(alloc, source, target, number)
            } else {
                Err(What::Command)
            }
        }
        Tokens::More => Err(What::Command),
    }
}
