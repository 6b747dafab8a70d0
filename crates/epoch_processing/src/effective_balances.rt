// The effective balance step: an effective balance follows its balance where that leaves the hysteresis band.
ghost use Rattle.std.specs.Prelude.{◌≡◌, ◌||◌, List, ℕ, ◌+◌, ◌<◌, ◌^◌, ltb};
ghost use Rattle.rules.specs.EpochProcessing as rule;
ghost use Rattle.primitives.specs.Settings.{settings_of};
ghost use Rattle.records.specs.Layout.{effective_balance_at, balance_at, identities_fit, validators_fit};
ghost use Rattle.records.specs.Books.{Stepped, tables};
ghost use Rattle.epoch_processing.specs.Updates.{downward_threshold, upward_threshold, Updated};
ghost use Rattle.epoch_processing.specs.Ready.{UpdatesReady};

use primitives::sound::SoundSettings;
use primitives::{Gwei, Scalars, Settings, ValidatorIndex};

// How far a balance may stand below and above its effective balance.
#[derive(Clone, Copy)]
struct Band {
    downward: Gwei,
    upward: Gwei,
}

impl Band {
    fn of(sound: SoundSettings) -> Band
        ensures { (result.downward.0 ≡ downward_threshold (settings_of sound.settings))
            × (result.upward.0 ≡ upward_threshold (settings_of sound.settings)) }
    {
        let settings = sound.settings;
        let increment = settings.effective_balance_increment.0 / settings.hysteresis_quotient;
        Band {
            downward: Gwei(increment * settings.hysteresis_downward_multiplier),
            upward: Gwei(increment * settings.hysteresis_upward_multiplier),
        }
    }

    // The balance stands outside the band around the effective balance.
    fn needs_update(self, effective_balance: Gwei, balance: Gwei) -> bool
        requires { (balance.0 + self.downward.0 < 2 ^ 64) × (effective_balance.0 + self.upward.0 < 2 ^ 64) }
        ensures { result ≡ (ltb (balance.0 + self.downward.0) effective_balance.0
            || ltb (effective_balance.0 + self.upward.0) balance.0) }
    {
        balance.0 + self.downward.0 < effective_balance.0
            || effective_balance.0 + self.upward.0 < balance.0
    }
}

// One validator, with the band of the settings.
fn update_effective_balance(
    settings: Settings,
    identities: &[u8],
    validators: &mut [u64],
    i: ValidatorIndex,
    band: Band,
)
    requires held { (i.0 < identities_fit identities.now) × (i.0 < validators_fit validators.old) }
    requires thresholds { (band.downward.0 ≡ downward_threshold (settings_of settings))
        × (band.upward.0 ≡ upward_threshold (settings_of settings))
        × (0 < settings.effective_balance_increment.0) }
    requires sums_fit { (balance_at validators.old i.0 + band.downward.0 < 2 ^ 64)
        × (effective_balance_at validators.old i.0 + band.upward.0 < 2 ^ 64) }
    ensures { Updated (settings_of settings) i.0 identities.now
        validators.old validators.new }
{
    let effective_balance = records::registry::effective_balance_at(validators, i);
    let balance = records::registry::balance_at(validators, i);
    if !band.needs_update(effective_balance, balance) {
        return;
    }
    let most = records::registry::max_effective_balance_at(settings, identities, i);
    let rounded = balance.0 - balance.0 % settings.effective_balance_increment.0;
    let updated = Gwei(rounded.min(most.0));
    records::registry::set_effective_balance(validators, i, updated);
}

pub fn process_effective_balance_updates(
    sound: SoundSettings,
    scalars: Scalars,
    identities: &[u8],
    validators: &mut [u64],
) -> Scalars
    requires { UpdatesReady (settings_of sound.settings) scalars identities.now validators.old }
    ensures stepped { (ds ps cs : List ℕ)
        → Stepped (rule.process_effective_balance_updates (settings_of sound.settings)) scalars
        (tables identities.now validators.old ds ps cs)
        (tables identities.now validators.new ds ps cs) result }
    ensures scalars_kept { result ≡ scalars }
{
    let band = Band::of(sound);
    for i in 0..scalars.validators {
        update_effective_balance(
            sound.settings,
            identities,
            validators,
            ValidatorIndex(i),
            band,
        );
    }
    scalars
}
