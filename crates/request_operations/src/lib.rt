// Withdrawal requests of the execution layer. A request that fails a test is set aside: it is done and changes nothing.

// Registry, Accounts and Partials stay clauses: they tie the scalars to tables of which a request writes some, or are
// of scalars that it alters.

#![tactic(auto)]

ghost use Rattle.std.specs.Prelude.{◌≡◌, not, ◌&&◌, List, ℕ, ◌+◌, ◌<◌, ◌≤◌, eqb};
ghost use Rattle.rules.specs.Types as rule;
ghost use Rattle.rules.specs.BlockProcessing.{request_partial_withdrawal};
ghost use Rattle.rules.specs.Acceptance.{partial_amounts};
ghost use Rattle.rules.specs.Calls.{handed_refusal, withdrawal_request};
ghost use Rattle.rule_laws.specs.Accepted.{SoundBooks};
ghost use Rattle.primitives.specs.Answers.{answer_number, answer_or};
ghost use Rattle.primitives.specs.Settings.{settings_of};
ghost use Rattle.records.specs.Layout.{validator_at, exit_epoch_at, partials_fit};
ghost use Rattle.records.specs.Plain.{plain_validator};
ghost use Rattle.records.specs.Books.{tables, books_of, room_of, Called};
ghost use Rattle.helpers.specs.Ready.{Registry, Accounts, Partials};
ghost use Rattle.call_answers.specs.Answers.{Judged};
ghost use Rattle.request_operations.specs.Requests.{may_request, request_full_exit, queue_partial_withdrawal};
ghost use Rattle.request_operations.specs.Requests.{has_excess, to_withdraw};

use primitives::answers::Refusal;
use primitives::sound::SoundSettings;
use primitives::{BOUND, Epoch, FAR_FUTURE_EPOCH, Gwei, Scalars, Settings, ValidatorIndex};
use records::queues::PendingPartialWithdrawal;
use records::validator::Validator;

// ---- tests

// Whether the queue is full for a request of this amount: a full exit needs no entry.
fn queue_is_full(settings: Settings, scalars: Scalars, amount: Gwei) -> bool
    ensures { result
        ≡ (eqb scalars.partials settings.pending_partial_withdrawals_limit && not (eqb amount.0 0)) }
{
    scalars.partials == settings.pending_partial_withdrawals_limit && amount != Gwei(0)
}

// Whether a validator with this address may request a withdrawal.
fn may_request(
    sound: SoundSettings,
    current_epoch: Epoch,
    v: Validator,
    source_address: [u8; 20],
) -> bool
    requires current_epoch_bound { current_epoch.0 ≤ rule.BOUND }
    ensures { result ≡ may_request (settings_of sound.settings) current_epoch.0 (plain_validator v) source_address }
{
    if !v.has_execution_withdrawal_credential() {
        return false;
    }
    let address = v.withdrawal_address();
    if address != source_address {
        return false;
    }
    if !v.is_active_validator(current_epoch) {
        return false;
    }
    if v.exit_epoch.0 != FAR_FUTURE_EPOCH {
        return false;
    }
    v.activation_epoch.0 + sound.settings.shard_committee_period <= current_epoch.0
}

// Whether a compounding validator has a balance above the minimum and what its waiting withdrawals owe it.
#[tactic(auto, unfolding(crate::specs::Requests::has_excess))]
fn has_excess(sound: SoundSettings, v: Validator, pending: Gwei) -> bool
    requires pending_bound { pending.0 ≤ rule.BOUND }
    ensures { result ≡ has_excess (settings_of sound.settings) (plain_validator v) pending.0 }
{
    let least = sound.settings.min_activation_balance;
    v.has_compounding_withdrawal_credential()
        && least <= v.effective_balance
        && least.0 + pending.0 < v.balance.0
}

// ---- a partial withdrawal

// The sum of the waiting partial withdrawals.
fn partial_amounts(scalars: Scalars, partials: &[u64]) -> Gwei
    requires { Partials scalars partials.now }
    ensures { (ids vs ds cs : List ℕ)
        → result.0 ≡ partial_amounts (books_of scalars (tables ids vs ds partials.now cs)) }
{
    let mut sum = 0;
    for k in 0..scalars.partials {
        sum += records::queues::entry_at::<PendingPartialWithdrawal>(partials, k)
            .amount
            .0;
    }
    Gwei(sum)
}

// What is withdrawn of a balance with an excess.
#[tactic(auto, unfolding(crate::specs::Requests::to_withdraw))]
fn to_withdraw(settings: Settings, v: Validator, pending: Gwei, amount: Gwei) -> Gwei
    requires { settings.min_activation_balance.0 + pending.0 < v.balance.0 }
    ensures { result.0 ≡ to_withdraw (settings_of settings) (plain_validator v) pending.0 amount.0 }
{
    let excess = v.balance.0 - settings.min_activation_balance.0 - pending.0;
    amount.min(Gwei(excess))
}

// The queue's new entry, unless the result is too large: its sum is judged before its epochs.
fn queue_partial_withdrawal(
    sound: SoundSettings,
    scalars: Scalars,
    validators: &[u64],
    partials: &mut [u64],
    i: ValidatorIndex,
    amount: Gwei,
) -> Result<Scalars, Refusal>
    requires registry { Registry scalars validators.now }
    requires accounts { Accounts scalars }
    requires partials { Partials scalars partials.old }
    requires amount_and_room { (amount.0 ≤ rule.BOUND) × (scalars.partials < partials_fit partials.old) }
    ensures { (ids ds cs : List ℕ)
        → SoundBooks (settings_of sound.settings)
        (books_of scalars (tables ids validators.now ds partials.old cs))
        → Judged (settings_of sound.settings)
        (queue_partial_withdrawal (settings_of sound.settings) i.0 amount.0) scalars
        (tables ids validators.now ds partials.old cs)
        (tables ids validators.now ds partials.new cs)
        (answer_number result) (answer_or scalars result) }
{
    let n = scalars.partials;
    let sum = partial_amounts(scalars, partials);
    let a = helpers::exits::compute_exit_epoch_and_update_churn(sound, scalars, validators, amount);
    let withdrawable = helpers::exits::withdrawable_epoch(sound.settings, a);
    call_answers::size_number(true, sum.0 <= BOUND - amount.0, withdrawable.0 <= BOUND)?;
    let entry = PendingPartialWithdrawal {
        index: i,
        amount,
        withdrawable_epoch: withdrawable,
    };
    records::queues::push(partials, n, entry);
    Ok(Scalars {
        exit_balance_to_consume: a.left,
        earliest_exit_epoch: a.epoch,
        partials: n + 1,
        ..scalars
    })
}

fn request_partial_withdrawal(
    sound: SoundSettings,
    scalars: Scalars,
    validators: &[u64],
    partials: &mut [u64],
    i: ValidatorIndex,
    v: Validator,
    amount: Gwei,
) -> Result<Scalars, Refusal>
    requires registry { Registry scalars validators.now }
    requires accounts { Accounts scalars }
    requires partials { Partials scalars partials.old }
    requires known_validator { (i.0 < scalars.validators)
        × (v.balance.0 ≤ rule.BOUND)
        × (scalars.partials < partials_fit partials.old) }
    ensures { (ids ds cs : List ℕ)
        → plain_validator v ≡ validator_at ids validators.now i.0
        → SoundBooks (settings_of sound.settings)
        (books_of scalars (tables ids validators.now ds partials.old cs))
        → Judged (settings_of sound.settings)
        (request_partial_withdrawal (settings_of sound.settings) i.0 amount.0) scalars
        (tables ids validators.now ds partials.old cs)
        (tables ids validators.now ds partials.new cs)
        (answer_number result) (answer_or scalars result) }
{
    let pending = helpers::lookups::get_pending_balance_to_withdraw(scalars, partials, i);
    if !has_excess(sound, v, pending) {
        return Ok(scalars);
    }
    let withdrawn = to_withdraw(sound.settings, v, pending, amount);
    queue_partial_withdrawal(sound, scalars, validators, partials, i, withdrawn)
}

// ---- a full exit

// The validator exits where no partial withdrawal waits.
fn request_full_exit(
    sound: SoundSettings,
    scalars: Scalars,
    validators: &mut [u64],
    partials: &[u64],
    i: ValidatorIndex,
) -> Result<Scalars, Refusal>
    requires registry { Registry scalars validators.old }
    requires accounts { Accounts scalars }
    requires partials { Partials scalars partials.now }
    requires not_begun { (i.0 < scalars.validators) × (exit_epoch_at validators.old i.0 ≡ rule.FAR) }
    ensures { (ids ds cs : List ℕ)
        → SoundBooks (settings_of sound.settings)
        (books_of scalars (tables ids validators.old ds partials.now cs))
        → Judged (settings_of sound.settings)
        (request_full_exit (settings_of sound.settings) i.0) scalars
        (tables ids validators.old ds partials.now cs)
        (tables ids validators.new ds partials.now cs)
        (answer_number result) (answer_or scalars result) }
{
    let pending = helpers::lookups::get_pending_balance_to_withdraw(scalars, partials, i);
    if pending.0 != 0 {
        return Ok(scalars);
    }
    exit_operations::exit_within_bound(sound, scalars, validators, i)
}

// ---- the call

// The tables stay apart: the call writes some and only reads the others, as C lends them.
pub fn process_execution_layer_withdrawal_request(
    settings: Settings,
    scalars: Scalars,
    identities: &[u8],
    validators: &mut [u64],
    deposits: &[u64],
    partials: &mut [u64],
    consolidations: &[u64],
    source_address: [u8; 20],
    public_key: [u8; 48],
    amount: Gwei,
) -> Result<Scalars, Refusal>
    requires { handed_refusal (settings_of settings)
        (books_of scalars
        (tables identities.now validators.old deposits.now partials.old consolidations.now))
        (room_of (tables identities.now validators.old deposits.now partials.old consolidations.now))
        ≡ 0 }
    ensures { Called (settings_of settings) (withdrawal_request source_address public_key amount.0) scalars
        (tables identities.now validators.old deposits.now
        partials.old consolidations.now)
        (tables identities.now validators.new deposits.now
        partials.new consolidations.now)
        (answer_number result) (answer_or scalars result) }
{
    if queue_is_full(settings, scalars, amount) {
        return Ok(scalars);
    }
    let found = helpers::lookups::position(scalars, identities, public_key);
    let Some(i) = found else {
        return Ok(scalars);
    };
    let v = records::registry::validator_at(identities, validators, i);
    let sound = SoundSettings { settings };
    if !may_request(sound, scalars.epoch, v, source_address) {
        return Ok(scalars);
    }
    if amount.0 == 0 {
        return request_full_exit(sound, scalars, validators, partials, i);
    }
    request_partial_withdrawal(sound, scalars, validators, partials, i, v, amount)
}
