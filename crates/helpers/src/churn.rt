// The total active balance and the churn limits. Each function walks the registry once.

// Registry stays a clause beside scalars and one table: callers write that table, and have the others lent apart.

ghost use Rattle.std.specs.Prelude.{◌≡◌, List, ℕ};
ghost use Rattle.rules.specs.Helpers.{get_total_active_balance, get_balance_churn_limit};
ghost use Rattle.rules.specs.Helpers.{get_activation_exit_churn_limit, get_consolidation_churn_limit};
ghost use Rattle.primitives.specs.Settings.{settings_of};
ghost use Rattle.records.specs.Books.{tables, books_of};
ghost use Rattle.helpers.specs.Ready.{Registry};

use primitives::sound::SoundSettings;
use primitives::{Gwei, Scalars, Settings, ValidatorIndex};

pub fn get_total_active_balance(settings: Settings, scalars: Scalars, validators: &[u64]) -> Gwei
    requires { Registry scalars validators.now }
    ensures { (ids ds ps cs : List ℕ)
        → result.0 ≡ get_total_active_balance (settings_of settings)
        (books_of scalars (tables ids validators.now ds ps cs)) }
{
    let epoch = scalars.epoch;
    let mut sum = 0;
    for i in 0..scalars.validators {
        let active = records::registry::active_effective_balance_at(
            validators,
            ValidatorIndex(i),
            epoch,
        );
        sum += active.0;
    }
    Gwei(settings.effective_balance_increment.0.max(sum))
}

pub fn get_balance_churn_limit(sound: SoundSettings, scalars: Scalars, validators: &[u64]) -> Gwei
    requires registry { Registry scalars validators.now }
    ensures { (ids ds ps cs : List ℕ)
        → result.0 ≡ get_balance_churn_limit (settings_of sound.settings)
        (books_of scalars (tables ids validators.now ds ps cs)) }
{
    let settings = sound.settings;
    let total = get_total_active_balance(settings, scalars, validators);
    let churn_limit = total.0 / settings.churn_limit_quotient;
    let churn = settings
        .min_per_epoch_churn_limit_electra
        .0
        .max(churn_limit);
    Gwei(churn - churn % settings.effective_balance_increment.0)
}

pub fn get_activation_exit_churn_limit(
    sound: SoundSettings,
    scalars: Scalars,
    validators: &[u64],
) -> Gwei
    requires registry { Registry scalars validators.now }
    ensures { (ids ds ps cs : List ℕ)
        → result.0 ≡ get_activation_exit_churn_limit (settings_of sound.settings)
        (books_of scalars (tables ids validators.now ds ps cs)) }
{
    let churn = get_balance_churn_limit(sound, scalars, validators);
    Gwei(
        sound
            .settings
            .max_per_epoch_activation_exit_churn_limit
            .0
            .min(churn.0),
    )
}

pub fn get_consolidation_churn_limit(
    sound: SoundSettings,
    scalars: Scalars,
    validators: &[u64],
) -> Gwei
    requires registry { Registry scalars validators.now }
    ensures { (ids ds ps cs : List ℕ)
        → result.0 ≡ get_consolidation_churn_limit (settings_of sound.settings)
        (books_of scalars (tables ids validators.now ds ps cs)) }
{
    let churn = get_balance_churn_limit(sound, scalars, validators);
    let activation_exit = sound
        .settings
        .max_per_epoch_activation_exit_churn_limit
        .0
        .min(churn.0);
    Gwei(churn.0 - activation_exit)
}
