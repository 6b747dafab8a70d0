// Consolidations: a validator is exited and its balance queued for another.

#![tactic(auto)]

ghost use Rattle.std.specs.Prelude.{◌≡◌, List, ℕ, ◌<◌, ◌≤◌};
ghost use Rattle.rules.specs.Helpers.{get_consolidation_churn_limit};
ghost use Rattle.rules.specs.BlockProcessing.{consolidation_refusal, process_consolidation};
ghost use Rattle.rules.specs.Calls.{handed_refusal, consolidation};
ghost use Rattle.rule_laws.specs.Accepted.{SoundBooks};
ghost use Rattle.primitives.specs.Answers.{answer_number, answer_or};
ghost use Rattle.primitives.specs.Settings.{settings_of};
ghost use Rattle.records.specs.Layout.{identities_fit, validators_fit, consolidations_fit};
ghost use Rattle.records.specs.Plain.{plain_validator};
ghost use Rattle.records.specs.Lent.{plain_books};
ghost use Rattle.records.specs.Books.{tables, books_of, room_of, Called};
ghost use Rattle.helpers.specs.Ready.{Registry, Accounts};
ghost use Rattle.call_answers.specs.Answers.{Judged};
ghost use Rattle.consolidation_operations.specs.Consolidations.{pair_refusal};

use primitives::answers::Refusal;
use primitives::sound::SoundSettings;
use primitives::{BOUND, Epoch, FAR_FUTURE_EPOCH, Gwei, Scalars, Settings, ValidatorIndex};
use records::books::Books;
use records::queues::PendingConsolidation;
use records::validator::Validator;

// The tests of source and target as records.
fn pair_refusal(
    current_epoch: Epoch,
    source: Validator,
    target: Validator,
    epoch: Epoch,
    valid: bool,
) -> Result<(), Refusal>
    ensures { answer_number result
        ≡ pair_refusal current_epoch.0 (plain_validator source) (plain_validator target) epoch.0 valid }
{
    if !source.is_active_validator(current_epoch) {
        return Err(Refusal::NotActive);
    }
    if !target.is_active_validator(current_epoch) {
        return Err(Refusal::NotActive);
    }
    if source.exit_epoch.0 != FAR_FUTURE_EPOCH {
        return Err(Refusal::ExitBegun);
    }
    if target.exit_epoch.0 != FAR_FUTURE_EPOCH {
        return Err(Refusal::ExitBegun);
    }
    if current_epoch.0 < epoch.0 {
        return Err(Refusal::StatedEpochAhead);
    }
    if !source.has_execution_withdrawal_credential() {
        return Err(Refusal::NoExecutionCredential);
    }
    if !target.has_execution_withdrawal_credential() {
        return Err(Refusal::NoExecutionCredential);
    }
    let source_address = source.withdrawal_address();
    let target_address = target.withdrawal_address();
    if source_address != target_address {
        return Err(Refusal::AddressesDiffer);
    }
    if !valid {
        return Err(Refusal::BadSignature);
    }
    Ok(())
}

// The first test of a consolidation that fails; Ok where none does. The consolidation churn is known.
pub fn consolidation_refusal(
    settings: Settings,
    books: &Books<'_>,
    churn: Gwei,
    source: ValidatorIndex,
    target: ValidatorIndex,
    epoch: Epoch,
    valid: bool,
) -> Result<(), Refusal>
    requires tables_hold { (books.now.scalars.validators ≤ identities_fit books.now.identities.now)
        × (books.now.scalars.validators ≤ validators_fit books.now.validators.now) }
    requires churn_is { churn.0 ≡ get_consolidation_churn_limit (settings_of settings) (plain_books books.now) }
    ensures { (ds ps cs : List ℕ)
        → answer_number result
        ≡ consolidation_refusal (settings_of settings)
        (books_of books.now.scalars
        (tables books.now.identities.now books.now.validators.now ds ps cs))
        source.0 target.0 epoch.0 valid }
{
    let scalars = books.scalars;
    if settings.pending_consolidations_limit <= scalars.consolidations {
        return Err(Refusal::ConsolidationQueueFull);
    }
    if churn.0 <= settings.min_activation_balance.0 {
        return Err(Refusal::ConsolidationChurnTooLow);
    }
    if source.0 == target.0 {
        return Err(Refusal::SourceIsTarget);
    }
    if scalars.validators <= source.0 {
        return Err(Refusal::NoSuchValidator);
    }
    if scalars.validators <= target.0 {
        return Err(Refusal::NoSuchValidator);
    }
    let source_validator = records::registry::validator_at(
        books.identities,
        books.validators,
        source,
    );
    let target_validator = records::registry::validator_at(
        books.identities,
        books.validators,
        target,
    );
    pair_refusal(
        scalars.epoch,
        source_validator,
        target_validator,
        epoch,
        valid,
    )
}

// The source's exit and the queue's new entry, unless an epoch that they write is over the bound.
// Registry and Accounts stay clauses: the one ties the scalars to a table that the call writes, and the other is of
// scalars that a call alters.
fn consolidation_within_bound(
    sound: SoundSettings,
    scalars: Scalars,
    validators: &mut [u64],
    consolidations: &mut [u64],
    churn: Gwei,
    source: ValidatorIndex,
    target: ValidatorIndex,
) -> Result<Scalars, Refusal>
    requires registry { Registry scalars validators.old }
    requires accounts { Accounts scalars }
    requires churn_is_some { (0 < churn.0)
        × ((ids ds ps cs : List ℕ)
        → churn.0 ≡ get_consolidation_churn_limit (settings_of sound.settings)
        (books_of scalars (tables ids validators.old ds ps cs))) }
    requires known_source_and_room { (source.0 < scalars.validators)
        × (scalars.consolidations < consolidations_fit consolidations.old) }
    ensures { (ids ds ps : List ℕ)
        → SoundBooks (settings_of sound.settings)
        (books_of scalars (tables ids validators.old ds ps consolidations.old))
        → Judged (settings_of sound.settings)
        (process_consolidation (settings_of sound.settings) source.0 target.0) scalars
        (tables ids validators.old ds ps consolidations.old)
        (tables ids validators.new ds ps consolidations.new)
        (answer_number result) (answer_or scalars result) }
{
    let amount = records::registry::effective_balance_at(validators, source);
    let a = helpers::exits::assign_consolidation_epoch(sound, scalars, churn, amount);
    let withdrawable = helpers::exits::withdrawable_epoch(sound.settings, a);
    if BOUND < withdrawable.0 {
        return Err(Refusal::ResultEpochOverBound);
    }
    let n = scalars.consolidations;
    let entry = PendingConsolidation {
        source_index: source,
        target_index: target,
    };
    records::registry::set_exit(validators, source, a.epoch, withdrawable);
    records::queues::push(consolidations, n, entry);
    Ok(Scalars {
        consolidation_balance_to_consume: a.left,
        earliest_consolidation_epoch: a.epoch,
        consolidations: n + 1,
        ..scalars
    })
}

// The tables stay apart: the call writes some and only reads the others, as C lends them.
pub fn process_consolidation(
    settings: Settings,
    scalars: Scalars,
    identities: &[u8],
    validators: &mut [u64],
    deposits: &[u64],
    partials: &[u64],
    consolidations: &mut [u64],
    source: ValidatorIndex,
    target: ValidatorIndex,
    epoch: Epoch,
    valid: bool,
) -> Result<Scalars, Refusal>
    requires { handed_refusal (settings_of settings)
        (books_of scalars
        (tables identities.now validators.old deposits.now partials.now consolidations.old))
        (room_of (tables identities.now validators.old deposits.now partials.now consolidations.old))
        ≡ 0 }
    ensures { Called (settings_of settings) (consolidation source.0 target.0 epoch.0 valid) scalars
        (tables identities.now validators.old deposits.now
        partials.now consolidations.old)
        (tables identities.now validators.new deposits.now
        partials.now consolidations.new)
        (answer_number result) (answer_or scalars result) }
{
    let sound = SoundSettings { settings };
    let churn = helpers::churn::get_consolidation_churn_limit(sound, scalars, validators);
    let books = Books {
        scalars,
        identities,
        validators,
        deposits,
        partials,
        consolidations,
    };
    consolidation_refusal(settings, &books, churn, source, target, epoch, valid)?;
    consolidation_within_bound(
        sound,
        scalars,
        validators,
        consolidations,
        churn,
        source,
        target,
    )
}
