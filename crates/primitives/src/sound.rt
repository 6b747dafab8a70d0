// Settings that passed their tests.
ghost use Rattle.std.specs.Prelude.{◌≡◌, true};
ghost use Rattle.rules.specs.Acceptance.{sound_settings};
ghost use Rattle.primitives.specs.Settings.{settings_of};

use crate::Settings;

#[derive(Clone, Copy)]
pub struct SoundSettings {
    pub settings: Settings,
    ghost sound: { sound_settings (settings_of settings) ≡ true },
}
