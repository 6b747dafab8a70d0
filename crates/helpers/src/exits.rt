// The churn accounts of exits and consolidations, and the exit of a validator. An account is made of its two scalars
// and lent in `churn_account`; it is handed on by value, so that a caller can judge its epochs before the first store.

// Registry and Accounts stay clauses: callers change the scalars and write the table between one function and the next.

ghost use Rattle.std.specs.Prelude.{◌≡◌, List, ℕ, ◌+◌, ◌<◌, ◌≤◌, ◌^◌};
ghost use Rattle.rules.specs.Types.{FAR, BOUND};
ghost use Rattle.rules.specs.Helpers.{assign_epoch, compute_activation_exit_epoch};
ghost use Rattle.rules.specs.Helpers.{compute_exit_epoch_and_update_churn};
ghost use Rattle.primitives.specs.Settings.{settings_of};
ghost use Rattle.records.specs.Layout.{validators_fit};
ghost use Rattle.records.specs.Books.{Tables, tables, books_of, Stepped};
ghost use Rattle.helpers.specs.Assigned.{plain_assignment};
ghost use Rattle.helpers.specs.Exits.{exit_assignment, consolidation_assignment, begin_exit};
ghost use Rattle.helpers.specs.Ready.{Registry, Accounts};

use crate::assignment::Assignment;
use churn_account::ChurnAccount;
use primitives::sound::SoundSettings;
use primitives::{Epoch, Gwei, Scalars, Settings, ValidatorIndex};

pub fn compute_activation_exit_epoch(sound: SoundSettings, scalars: Scalars) -> Epoch
    requires epoch_bound { scalars.epoch.0 ≤ BOUND }
    ensures { (t : Tables)
        → result.0 ≡ compute_activation_exit_epoch (settings_of sound.settings) (books_of scalars t) }
{
    Epoch(scalars.epoch.0 + 1 + sound.settings.max_seed_lookahead)
}

// A churn account after an assignment of `amount`.
fn assign_account(
    sound: SoundSettings,
    scalars: Scalars,
    account: ChurnAccount,
    churn: Gwei,
    amount: Gwei,
) -> Assignment
    requires epochs_bound { (scalars.epoch.0 ≤ BOUND) × (account.earliest_epoch.0 ≤ BOUND) }
    requires churn_and_amount { (0 < churn.0) × (amount.0 ≤ BOUND) }
    ensures assigned { (t : Tables)
        → plain_assignment result
        ≡ assign_epoch account.balance_to_consume.0 account.earliest_epoch.0
        (compute_activation_exit_epoch (settings_of sound.settings) (books_of scalars t)) churn.0 amount.0 }
    ensures far_off { result.epoch.0 + 2 ^ 16 < FAR }
{
    let activation_exit = compute_activation_exit_epoch(sound, scalars);
    let account = account.account_after(activation_exit, churn, amount);
    Assignment::from(account)
}

// The exits' churn account after an exit of `amount`.
pub fn compute_exit_epoch_and_update_churn(
    sound: SoundSettings,
    scalars: Scalars,
    validators: &[u64],
    amount: Gwei,
) -> Assignment
    requires registry { Registry scalars validators.now }
    requires accounts { Accounts scalars }
    requires amount_bound { amount.0 ≤ BOUND }
    ensures assigned { (ids ds ps cs : List ℕ)
        → plain_assignment result
        ≡ compute_exit_epoch_and_update_churn (settings_of sound.settings)
        (books_of scalars (tables ids validators.now ds ps cs)) amount.0 }
    ensures far_off { result.epoch.0 + 2 ^ 16 < FAR }
{
    let churn = crate::churn::get_activation_exit_churn_limit(sound, scalars, validators);
    let account = ChurnAccount {
        balance_to_consume: scalars.exit_balance_to_consume,
        earliest_epoch: scalars.earliest_exit_epoch,
    };
    assign_account(sound, scalars, account, churn, amount)
}

// The consolidations' churn account after a consolidation of `amount`, where the churn is known.
pub fn assign_consolidation_epoch(
    sound: SoundSettings,
    scalars: Scalars,
    churn: Gwei,
    amount: Gwei,
) -> Assignment
    requires accounts { Accounts scalars }
    requires churn_and_amount { (0 < churn.0) × (amount.0 ≤ BOUND) }
    ensures assigned { (t : Tables)
        → plain_assignment result
        ≡ consolidation_assignment (settings_of sound.settings) (books_of scalars t) churn.0 amount.0 }
    ensures far_off { result.epoch.0 + 2 ^ 16 < FAR }
{
    let account = ChurnAccount {
        balance_to_consume: scalars.consolidation_balance_to_consume,
        earliest_epoch: scalars.earliest_consolidation_epoch,
    };
    assign_account(sound, scalars, account, churn, amount)
}

// ---- the exit of a validator: `assign_exit` and `begin_exit` are the halves of initiate_validator_exit, apart because
// answer 42 is judged between them, on `withdrawable_epoch`

// What the exit of validator i is assigned.
pub fn assign_exit(
    sound: SoundSettings,
    scalars: Scalars,
    validators: &[u64],
    i: ValidatorIndex,
) -> Assignment
    requires registry { Registry scalars validators.now }
    requires accounts { Accounts scalars }
    requires i_lt_validators { i.0 < scalars.validators }
    ensures assigned { (ids ds ps cs : List ℕ)
        → plain_assignment result
        ≡ exit_assignment (settings_of sound.settings) i.0
        (books_of scalars (tables ids validators.now ds ps cs)) }
    ensures far_off { result.epoch.0 + 2 ^ 16 < FAR }
{
    let amount = records::registry::effective_balance_at(validators, i);
    compute_exit_epoch_and_update_churn(sound, scalars, validators, amount)
}

// The withdrawable epoch that goes with an assigned epoch: the last epoch that an exit writes.
pub fn withdrawable_epoch(settings: Settings, a: Assignment) -> Epoch
    requires { a.epoch.0 + settings.min_validator_withdrawability_delay < 2 ^ 64 }
    ensures { result.0 ≡ a.epoch.0 + settings.min_validator_withdrawability_delay }
{
    Epoch(a.epoch.0 + settings.min_validator_withdrawability_delay)
}

// Stores what the exit of validator i was assigned.
pub fn begin_exit(
    settings: Settings,
    scalars: Scalars,
    validators: &mut [u64],
    i: ValidatorIndex,
    a: Assignment,
) -> Scalars
    requires validators_in { (i.0 < scalars.validators) × (scalars.validators ≤ validators_fit validators.old) }
    requires delay_fits { a.epoch.0 + settings.min_validator_withdrawability_delay < 2 ^ 64 }
    ensures { (ids ds ps cs : List ℕ)
        → Stepped (begin_exit (settings_of settings) i.0 (plain_assignment a)) scalars
        (tables ids validators.old ds ps cs) (tables ids validators.new ds ps cs) result }
{
    let withdrawable = withdrawable_epoch(settings, a);
    records::registry::set_exit(validators, i, a.epoch, withdrawable);
    Scalars {
        exit_balance_to_consume: a.left,
        earliest_exit_epoch: a.epoch,
        ..scalars
    }
}
