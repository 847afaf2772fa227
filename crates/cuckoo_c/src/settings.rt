//! Settings, as C asks for them.
ghost use Rattle.std.specs.Prelude.{◌≡◌};
ghost use Rattle.ck_foreign.specs.NewTables.{settings_of, IsFor};

use ck_foreign::settings::CuckooSettings;
use cuckoo_map::Settings;

/// Settings for about so many keys.
#[unsafe(no_mangle)]
pub extern "C" fn cuckoo_settings_for(
    keys: u64,
    callers: u32,
    turns: u32,
    settings: &mut CuckooSettings,
)
    ensures callers { settings.new.callers ≡ callers }
    ensures turns { settings.new.turns ≡ turns }
    ensures keys { IsFor keys (settings_of settings.new) }
{
    let Settings {
        s,
        power,
        max,
        callers,
        turns: _,
        rounds,
        min_load,
    } = Settings::for_keys(keys, callers);
    *settings = CuckooSettings {
        s,
        power,
        max,
        callers,
        turns,
        rounds,
        min_load,
    };
}
