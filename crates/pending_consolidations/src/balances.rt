// What the step reads of a validator's balance.
ghost use Rattle.std.specs.Prelude.{◌≡◌, ◌<◌};
ghost use Rattle.rules.specs.Helpers.{get_active_balance};
ghost use Rattle.primitives.specs.Settings.{settings_of};
ghost use Rattle.records.specs.Layout.{validator_at, identities_fit, validators_fit};

use primitives::{Gwei, Settings, ValidatorIndex};

pub fn get_active_balance(
    settings: Settings,
    identities: &[u8],
    validators: &[u64],
    i: ValidatorIndex,
) -> Gwei
    requires { (i.0 < identities_fit identities.now) × (i.0 < validators_fit validators.now) }
    ensures { result.0 ≡ get_active_balance (settings_of settings)
        (validator_at identities.now validators.now i.0) }
{
    let most = records::registry::max_effective_balance_at(settings, identities, i);
    let balance = records::registry::balance_at(validators, i);
    Gwei(balance.0.min(most.0))
}
