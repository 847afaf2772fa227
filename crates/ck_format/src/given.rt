//! The settings that the lines of a script have given so far.
ghost use Rattle.std.specs.Prelude.{◌≡◌, ◌≢◌, ◌≤◌, true, OnOk, IfErr, Ok, Err};
ghost use Rattle.ck_model.specs.Ranges.{AreInRange};
ghost use Rattle.ck_format.specs.Tokens.{tokens, number_at};
ghost use Rattle.ck_format.specs.Formats.{least_of, most_of, default_of, most_power};
ghost use Rattle.ck_format.specs.FirstFault.{setting_at};
ghost use Rattle.ck_format.specs.GivenRange.{AreGivenInRange};

use crate::script::{Keys, Setting, Version, What};
use crate::tokens::{Tokens, number_of, tokens_of};
use ck_model::settings::Settings;

/// What the lines of settings have given so far, each in its range.
#[derive(Drop)]
pub struct Given {
    pub version: Version,
    keys: Option<Keys>,
    s: Option<u32>,
    power: Option<u32>,
    max: Option<u32>,
    turns: Option<u32>,
    rounds: Option<u32>,
    load: Option<u32>,
    ghost range: { AreGivenInRange s power max turns rounds load },
}

// The setting of this name.
fn setting_of(name: &[u8]) -> Option<Setting>
    ensures { result ≡ setting_at name.now }
{
    if name == b"s".as_slice() {
        Some(Setting::S)
    } else if name == b"power".as_slice() {
        Some(Setting::Power)
    } else if name == b"max".as_slice() {
        Some(Setting::Max)
    } else if name == b"turns".as_slice() {
        Some(Setting::Turns)
    } else if name == b"rounds".as_slice() {
        Some(Setting::Rounds)
    } else if name == b"load".as_slice() {
        Some(Setting::Load)
    } else {
        None
    }
}

// The least number that a setting may have.
fn least(setting: Setting) -> u64
    ensures { result ≡ least_of setting }
{
    match setting {
        Setting::S | Setting::Rounds | Setting::Load => 0,
        Setting::Power | Setting::Max | Setting::Turns => 1,
    }
}

// The greatest power of a format.
fn most_power(version: Version) -> u64
    ensures { result ≡ most_power version }
{
    match version {
        Version::One => 24,
        Version::Two => 26,
    }
}

// The greatest number that a setting may have.
fn most(version: Version, setting: Setting) -> u64
    ensures { result ≡ most_of version setting }
{
    match setting {
        Setting::S => 10,
        Setting::Power | Setting::Max => most_power(version),
        Setting::Turns => 4_294_967_295,
        Setting::Rounds => 64,
        Setting::Load => 100,
    }
}

// The number that a setting has where none is given.
fn default(setting: Setting) -> u32
    ensures { result ≡ default_of setting }
{
    match setting {
        Setting::S => 1,
        Setting::Power => 2,
        Setting::Max => 20,
        Setting::Turns => 1_000_000_000,
        Setting::Rounds => 4,
        Setting::Load => 5,
    }
}

impl Given {
    ghost use Rattle.ck_format.specs.SettingLines.{found_of, none_given, given_to, value_of, with_number, take_number, take_keys, keys_at, take_words, do_given_fit, settings_of, keys_of};

    /// Nothing is given yet.
    pub fn none(version: Version) -> Given
        ensures { found_of result ≡ none_given version }
    {
        Given {
            version,
            keys: None,
            s: None,
            power: None,
            max: None,
            turns: None,
            rounds: None,
            load: None,
        }
    }

    // The number that is given to a setting.
    fn number(&self, setting: Setting) -> Option<u32>
        ensures { result ≡ given_to (found_of self.now) setting }
    {
        match setting {
            Setting::S => self.s,
            Setting::Power => self.power,
            Setting::Max => self.max,
            Setting::Turns => self.turns,
            Setting::Rounds => self.rounds,
            Setting::Load => self.load,
        }
    }

    // The number that a setting has.
    fn value(&self, setting: Setting) -> u32
        ensures { result ≡ value_of (found_of self.now) setting }
    {
        match self.number(setting) {
            Some(n) => n,
            None => default(setting),
        }
    }

    // Gives a number to a setting.
    fn put(&mut self, setting: Setting, n: u32)
        requires least { least_of setting ≤ n }
        requires most { n ≤ most_of self.old.version setting }
        ensures { found_of self.new ≡ with_number (found_of self.old) setting n }
    {
        match setting {
            Setting::S => self.s = Some(n),
            Setting::Power => self.power = Some(n),
            Setting::Max => self.max = Some(n),
            Setting::Turns => self.turns = Some(n),
            Setting::Rounds => self.rounds = Some(n),
            Setting::Load => self.load = Some(n),
        }
    }

    // Takes a word in the place of a setting's number.
    fn take_number(&mut self, setting: Setting, word: &[u8]) -> Result<(), What>
        ensures ok { OnOk result (take_number (found_of self.old) setting (number_at word.now)
            ≡ Ok (found_of self.new)) }
        ensures err { IfErr result (λ what.
            take_number (found_of self.old) setting (number_at word.now) ≡ Err what) }
        ensures text { IfErr result (λ what. what ≢ What.Read) }
    {
        let Some(n) = number_of(word) else {
            return Err(What::Number);
        };
        if self.number(setting).is_some() || n < least(setting) || most(self.version, setting) < n {
            return Err(What::Setting);
        }
        self.put(setting, n as u32);
        Ok(())
    }

    // Takes the word that says which keys there are.
    fn take_keys(&mut self, word: &[u8]) -> Result<(), What>
        ensures ok { OnOk result (take_keys (found_of self.old) (keys_at word.now)
            ≡ Ok (found_of self.new)) }
        ensures err { IfErr result (λ what.
            take_keys (found_of self.old) (keys_at word.now) ≡ Err what) }
        ensures text { IfErr result (λ what. what ≢ What.Read) }
    {
        if self.keys.is_some() {
            return Err(What::Setting);
        }
        if word == b"num".as_slice() {
            self.keys = Some(Keys::Num);
            Ok(())
        } else if word == b"text".as_slice() {
            self.keys = Some(Keys::Text);
            Ok(())
        } else {
            Err(What::Setting)
        }
    }

    /// Takes a line of settings.
    pub fn take(&mut self, line: &[u8]) -> Result<(), What>
        ensures ok { OnOk result (take_words (found_of self.old) (tokens line.now)
            ≡ Ok (found_of self.new)) }
        ensures err { IfErr result (λ what.
            take_words (found_of self.old) (tokens line.now) ≡ Err what) }
        ensures text { IfErr result (λ what. what ≢ What.Read) }
    {
        let Tokens::Two(name, word) = tokens_of(line) else {
            return Err(What::Command);
        };
        if word.is_empty() {
            return Err(What::Command);
        }
        if name == b"keys".as_slice() {
            return self.take_keys(word);
        }
        match setting_of(name) {
            Some(setting) => self.take_number(setting, word),
            None => Err(What::Command),
        }
    }

    /// Whether there are no fewer buckets than stripes, and no more than there may be.
    pub(crate) fn do_fit(&self) -> bool
        ensures { result ≡ do_given_fit (found_of self.now) }
    {
        self.value(Setting::S) <= self.value(Setting::Power)
            && self.value(Setting::Power) <= self.value(Setting::Max)
    }

    /// The settings for a first worker.
    pub fn settings(&self) -> Settings
        requires { do_given_fit (found_of self.now) ≡ true }
        ensures value { result ≡ settings_of (found_of self.now) 1 }
        ensures range { AreInRange result }
    {
        Settings {
            s: self.value(Setting::S),
            power: self.value(Setting::Power),
            max: self.value(Setting::Max),
            callers: 1,
            turns: self.value(Setting::Turns),
            rounds: self.value(Setting::Rounds),
            min_load: self.value(Setting::Load),
        }
    }

    /// Which keys there are.
    pub fn keys(&self) -> Keys
        ensures { result ≡ keys_of (found_of self.now) }
    {
        match self.keys {
            Some(keys) => keys,
            None => Keys::Num,
        }
    }
}
