// Deposit receipts. A bad signature is no refusal: an unknown key is not added, a known key is not switched.

// ReceiptReady stays a clause, and what `sums` says too: they tie the scalars to tables that a receipt writes, which
// stay apart as C lends them.

#![tactic(auto)]

ghost use Rattle.std.specs.Prelude.{◌≡◌, true, List, ℕ, ◌+◌, ◌<◌, leb};
ghost use Rattle.lists.specs.Base.{when◌then◌else◌};
ghost use Rattle.rules.specs.Types as rule;
ghost use Rattle.rules.specs.Helpers.{has_eth1_withdrawal_credential};
ghost use Rattle.rules.specs.BlockProcessing.{switches, apply_deposit, get_validator_from_deposit};
ghost use Rattle.rules.specs.BlockProcessing.{add_validator_to_registry};
ghost use Rattle.rules.specs.Acceptance.{held};
ghost use Rattle.rules.specs.Calls.{handed_refusal, deposit_receipt};
ghost use Rattle.rule_laws.specs.Accepted.{SoundBooks};
ghost use Rattle.primitives.specs.Answers.{answer_number, answer_or};
ghost use Rattle.primitives.specs.Settings.{settings_of};
ghost use Rattle.records.specs.Layout.{validator_at};
ghost use Rattle.records.specs.Plain.{plain_validator};
ghost use Rattle.records.specs.Books.{tables, books_of, room_of, Called};
ghost use Rattle.compounding.specs.Laws.{excess_entry_count};
ghost use Rattle.call_answers.specs.Answers.{Judged};
ghost use Rattle.receipt_operations.specs.Receipts.{started, known_deposit, ReceiptReady};

use primitives::answers::Refusal;
use primitives::{Epoch, FAR_FUTURE_EPOCH, Gwei, Scalars, Settings, ValidatorIndex};
use records::queues::PendingBalanceDeposit;
use records::validator::Validator;

// The first receipt's index is kept.
fn start_receipts(scalars: Scalars, index: u64) -> Scalars
    ensures { result ≡ started scalars index }
{
    if scalars.deposit_receipts_start_index != FAR_FUTURE_EPOCH {
        return scalars;
    }
    Scalars {
        deposit_receipts_start_index: index,
        ..scalars
    }
}

// ---- a known key

// Whether a deposit to validator v switches it to compounding.
fn switches(withdrawal_credentials: [u8; 32], valid: bool, v: Validator) -> bool
    ensures { result ≡ switches withdrawal_credentials valid (plain_validator v) }
{
    let eth1 = v.has_eth1_withdrawal_credential();
    (withdrawal_credentials[0] == 2) & eth1 & valid
}

// How many entries a switch of validator v queues.
fn queued_by_switch(settings: Settings, v: Validator, switch: bool) -> usize
    ensures { result ≡ (when switch then excess_entry_count settings.min_activation_balance.0 v.balance.0 else 0) }
{
    if !switch {
        return 0;
    }
    compounding::excess_entry_count(settings.min_activation_balance, v.balance.0)
}

// The deposit's own entry, then the switch's.
fn deposit_to_known(
    settings: Settings,
    scalars: Scalars,
    identities: &mut [u8],
    validators: &mut [u64],
    deposits: &mut [u64],
    i: ValidatorIndex,
    v: Validator,
    amount: Gwei,
    switch: bool,
    sums: bool,
) -> Result<Scalars, Refusal>
    requires receipt_ready { ReceiptReady (settings_of settings) scalars identities.old validators.old deposits.old }
    requires known_validator { (i.0 < scalars.validators)
        × (plain_validator v ≡ validator_at identities.old validators.old i.0)
        × (switch ≡ true → has_eth1_withdrawal_credential (plain_validator v) ≡ true) }
    requires sums_is { (ids ps cs : List ℕ)
        → sums
        ≡ leb (held (books_of scalars (tables ids validators.old deposits.old ps cs)) + amount.0) rule.BOUND }
    ensures { (ps cs : List ℕ)
        → SoundBooks (settings_of settings)
        (books_of scalars
        (tables identities.old validators.old deposits.old ps cs))
        → Judged (settings_of settings) (known_deposit (settings_of settings) i.0 amount.0 switch) scalars
        (tables identities.old validators.old deposits.old ps cs)
        (tables identities.new validators.new deposits.new ps cs)
        (answer_number result) (answer_or scalars result) }
{
    let n = scalars.deposits;
    let more = queued_by_switch(settings, v, switch);
    let within = n + 1 + more <= settings.pending_balance_deposits_limit;
    call_answers::size_number(within, sums, true)?;
    records::queues::push(deposits, n, PendingBalanceDeposit { index: i, amount });
    let queued = Scalars {
        deposits: n + 1,
        ..scalars
    };
    if !switch {
        return Ok(queued);
    }
    let switched = compounding::switch_to_compounding_validator(
        settings, queued, identities, validators, deposits, i,
    );
    Ok(switched)
}

// ---- an unknown key

fn get_validator_from_deposit(public_key: [u8; 48], withdrawal_credentials: [u8; 32]) -> Validator
    ensures { plain_validator result ≡ get_validator_from_deposit public_key withdrawal_credentials }
{
    Validator {
        public_key,
        withdrawal_credentials,
        slashed: 0,
        effective_balance: Gwei(0),
        activation_eligibility_epoch: Epoch(FAR_FUTURE_EPOCH),
        activation_epoch: Epoch(FAR_FUTURE_EPOCH),
        exit_epoch: Epoch(FAR_FUTURE_EPOCH),
        withdrawable_epoch: Epoch(FAR_FUTURE_EPOCH),
        balance: Gwei(0),
    }
}

// The new validator, and the deposit's entry.
fn add_validator_to_registry(
    settings: Settings,
    scalars: Scalars,
    identities: &mut [u8],
    validators: &mut [u64],
    deposits: &mut [u64],
    public_key: [u8; 48],
    withdrawal_credentials: [u8; 32],
    amount: Gwei,
    sums: bool,
) -> Result<Scalars, Refusal>
    requires receipt_ready { ReceiptReady (settings_of settings) scalars identities.old validators.old deposits.old }
    requires sums_is { (ids ps cs : List ℕ)
        → sums
        ≡ leb (held (books_of scalars (tables ids validators.old deposits.old ps cs)) + amount.0) rule.BOUND }
    ensures { (ps cs : List ℕ)
        → SoundBooks (settings_of settings)
        (books_of scalars
        (tables identities.old validators.old deposits.old ps cs))
        → Judged (settings_of settings)
        (add_validator_to_registry public_key withdrawal_credentials amount.0) scalars
        (tables identities.old validators.old deposits.old ps cs)
        (tables identities.new validators.new deposits.new ps cs)
        (answer_number result) (answer_or scalars result) }
{
    let n = scalars.validators;
    let m = scalars.deposits;
    let within = (n + 1 <= settings.validator_registry_limit)
        & (m + 1 <= settings.pending_balance_deposits_limit);
    call_answers::size_number(within, sums, true)?;
    let v = get_validator_from_deposit(public_key, withdrawal_credentials);
    records::registry::push_validator(identities, validators, n, v);
    records::queues::push(
        deposits,
        m,
        PendingBalanceDeposit {
            index: ValidatorIndex(n),
            amount,
        },
    );
    Ok(Scalars {
        validators: n + 1,
        deposits: m + 1,
        ..scalars
    })
}

// ---- the call

fn apply_deposit(
    settings: Settings,
    scalars: Scalars,
    identities: &mut [u8],
    validators: &mut [u64],
    deposits: &mut [u64],
    public_key: [u8; 48],
    withdrawal_credentials: [u8; 32],
    amount: Gwei,
    valid: bool,
    sums: bool,
) -> Result<Scalars, Refusal>
    requires receipt_ready { ReceiptReady (settings_of settings) scalars identities.old validators.old deposits.old }
    requires sums_is { (ids ps cs : List ℕ)
        → sums
        ≡ leb (held (books_of scalars (tables ids validators.old deposits.old ps cs)) + amount.0) rule.BOUND }
    ensures { (ps cs : List ℕ)
        → SoundBooks (settings_of settings)
        (books_of scalars
        (tables identities.old validators.old deposits.old ps cs))
        → Judged (settings_of settings)
        (apply_deposit (settings_of settings) public_key withdrawal_credentials amount.0 valid) scalars
        (tables identities.old validators.old deposits.old ps cs)
        (tables identities.new validators.new deposits.new ps cs)
        (answer_number result) (answer_or scalars result) }
{
    let found = helpers::lookups::position(scalars, identities, public_key);
    if let Some(i) = found {
        let v = records::registry::validator_at(identities, validators, i);
        let switch = switches(withdrawal_credentials, valid, v);
        return deposit_to_known(
            settings, scalars, identities, validators, deposits, i, v, amount, switch, sums,
        );
    }
    if !valid {
        return Ok(scalars);
    }
    add_validator_to_registry(
        settings,
        scalars,
        identities,
        validators,
        deposits,
        public_key,
        withdrawal_credentials,
        amount,
        sums,
    )
}

// `sums` says whether the result's sums are within the bound.
// The tables stay apart: the call writes some and only reads the others, as C lends them.
pub fn process_deposit_receipt(
    settings: Settings,
    scalars: Scalars,
    identities: &mut [u8],
    validators: &mut [u64],
    deposits: &mut [u64],
    partials: &[u64],
    consolidations: &[u64],
    public_key: [u8; 48],
    withdrawal_credentials: [u8; 32],
    amount: Gwei,
    index: u64,
    valid: bool,
    sums: bool,
) -> Result<Scalars, Refusal>
    requires accepted { handed_refusal (settings_of settings)
        (books_of scalars
        (tables identities.old validators.old deposits.old partials.now consolidations.now))
        (room_of (tables identities.old validators.old deposits.old partials.now consolidations.now))
        ≡ 0 }
    requires sums_is { sums
        ≡ leb (held (books_of scalars
        (tables identities.old validators.old deposits.old partials.now consolidations.now))
        + amount.0) rule.BOUND }
    ensures { Called (settings_of settings)
        (deposit_receipt public_key withdrawal_credentials amount.0 index valid) scalars
        (tables identities.old validators.old deposits.old
        partials.now consolidations.now)
        (tables identities.new validators.new deposits.new
        partials.now consolidations.now)
        (answer_number result) (answer_or scalars result) }
{
    let start = start_receipts(scalars, index);
    apply_deposit(
        settings,
        start,
        identities,
        validators,
        deposits,
        public_key,
        withdrawal_credentials,
        amount,
        valid,
        sums,
    )
}
