//! Keys of scripts: how a word becomes a key, and why it may not.
ghost use Rattle.std.specs.Prelude.{◌≡◌, ◌≢◌, Some, None, IfOk, IfErr};
ghost use Rattle.ck_format.specs.declared.script.Keys.{Keys};
ghost use Rattle.ck_format.specs.declared.script.Keys.TheVariants as keys;
ghost use Rattle.std.specs.List.{list_all};
ghost use Rattle.ck_format.specs.Tokens.{is_printed};
ghost use Rattle.ck_format.specs.Script.{OnTextFault};
ghost use Rattle.ck_format.specs.FirstFault.{key_fault};
ghost use Rattle.ck_format.specs.Parse.{name_of};

use crate::script::What;
use crate::tokens::number_of;
use ck_key::{KeyFault, NumKey, TableKey, TextKey};
use std::alloc::Global;

/// Keys that a script may be on.
pub trait ScriptKey: TableKey + Drop {
    // Which they are.
    ghost kind: { Keys };

    /// The key that a word is, or what is wrong with the word.
    fn read(alloc: Global, word: &[u8]) -> Result<Self, What>
        ensures ok { IfOk result (λ _. key_fault kind word.now ≡ None) }
        ensures name { IfOk result (λ k. Self.name k ≡ name_of kind word.now) }
        ensures err { IfErr result (λ what. OnTextFault what (key_fault kind word.now ≡ Some what)) }
        ensures text { IfErr result (λ what. what ≢ What.Read) };
}

impl ScriptKey for NumKey {
    ghost kind = { keys.Num };

    fn read(_alloc: Global, word: &[u8]) -> Result<NumKey, What> {
        match number_of(word) {
            Some(number) => Ok(NumKey(number)),
            None => Err(What::Number),
        }
    }
}

// Whether each byte is printed, and none is a space.
fn are_printed(word: &[u8]) -> bool
    ensures { result ≡ list_all is_printed word.now }
{
    word.iter().all(|b| 32 < *b && *b < 127)
}

impl ScriptKey for TextKey {
    ghost kind = { keys.Text };

    fn read(alloc: Global, word: &[u8]) -> Result<TextKey, What> {
        if !are_printed(word) {
            return Err(What::Command);
        }
        match TextKey::new(alloc, word) {
            Ok(key) => Ok(key),
            Err(KeyFault::TooLong) => Err(What::TooLong),
            Err(KeyFault::Memory) => Err(What::Memory),
        }
    }
}
