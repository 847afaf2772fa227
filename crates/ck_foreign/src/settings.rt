//! What C opens a table with.
ghost use Rattle.std.specs.Prelude.{◌≡◌};
ghost use Rattle.ck_foreign.specs.NewTables.{settings_of};

use cuckoo_map::Settings;

/// What a table is opened with, field by field as `Settings` has it.
#[repr(C)]
#[derive(Clone, Copy)]
pub struct CuckooSettings {
    pub s: u32,
    pub power: u32,
    pub max: u32,
    pub callers: u32,
    pub turns: u32,
    pub rounds: u32,
    pub min_load: u32,
}

impl CuckooSettings {
    /// The settings.
    pub fn settings(self) -> Settings
        ensures { result ≡ settings_of self }
    {
        let CuckooSettings {
            s,
            power,
            max,
            callers,
            turns,
            rounds,
            min_load,
        } = self;
        Settings {
            s,
            power,
            max,
            callers,
            turns,
            rounds,
            min_load,
        }
    }
}
