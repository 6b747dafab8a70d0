// process_pending_consolidations: entries are consolidated in order, up to the first whose source is not withdrawable.

// In this file the tables stay apart: a step writes some and only reads the others, as C lends them.

#![tactic(auto)]

pub mod balances; // what the step reads of a validator's balance

ghost use Rattle.std.specs.Prelude.{◌≡◌, true, List, ℕ, ◌+◌, ◌<◌, ◌≤◌, length};
ghost use Rattle.rules.specs.Types.{BOUND};
ghost use Rattle.rules.specs.EpochProcessing as rule;
ghost use Rattle.rules.specs.Acceptance.{balances, held, sound_books};
ghost use Rattle.rules.specs.Calls.{enough_room};
ghost use Rattle.rules.specs.Counting.{excess_entry};
ghost use Rattle.primitives.specs.Settings.{settings_of};
ghost use Rattle.primitives.specs.Scalars.{with_deposits};
ghost use Rattle.records.specs.Layout.{identities_fit, validators_fit, deposits_fit};
ghost use Rattle.records.specs.Plain.{plain_consolidation};
ghost use Rattle.records.specs.Books.{Stepped, books_of, room_of, tables};
ghost use Rattle.pending_consolidations.specs.Consolidations.{Consolidated};
ghost use Rattle.pending_consolidations.specs.Ready.{ConsolidationsReady};

use primitives::{Scalars, Settings, ValidatorIndex};
use records::queues::PendingConsolidation;

// The source's active balance moves to the target.
fn move_active_balance(
    settings: Settings,
    scalars: Scalars,
    identities: &[u8],
    validators: &mut [u64],
    source: ValidatorIndex,
    target: ValidatorIndex,
)
    requires known { (source.0 < scalars.validators) × (target.0 < scalars.validators) }
    requires held { (scalars.validators ≤ identities_fit identities.now)
        × (scalars.validators ≤ validators_fit validators.old) }
    requires balances_small { (ds ps cs : List ℕ)
        → balances (books_of scalars (tables identities.now validators.old ds ps cs)) ≤ BOUND }
    ensures { (ds ps cs : List ℕ)
        → Stepped (rule.move_active_balance (settings_of settings) source.0 target.0) scalars
        (tables identities.now validators.old ds ps cs)
        (tables identities.now validators.new ds ps cs) scalars }
{
    let active_balance = balances::get_active_balance(settings, identities, validators, source);
    records::registry::decrease_balance(validators, source, active_balance);
    records::registry::increase_balance(validators, target, active_balance);
}

// One entry: the target switches to compounding, then the balance moves.
fn consolidate(
    settings: Settings,
    scalars: Scalars,
    identities: &mut [u8],
    validators: &mut [u64],
    deposits: &mut [u64],
    c: PendingConsolidation,
) -> Scalars
    requires known { (c.source_index.0 < scalars.validators) × (c.target_index.0 < scalars.validators) }
    requires held { (scalars.validators ≤ identities_fit identities.old)
        × (scalars.validators ≤ validators_fit validators.old) }
    requires held_small { (ps cs : List ℕ)
        → held (books_of scalars (tables identities.old validators.old deposits.old ps cs)) ≤ BOUND }
    requires queue_room { (ps cs : List ℕ)
        → scalars.deposits
        + length (excess_entry (settings_of settings) c.target_index.0
        (books_of scalars (tables identities.old validators.old deposits.old ps cs)))
        ≤ deposits_fit deposits.old }
    ensures stepped { (ps cs : List ℕ)
        → Stepped (rule.consolidate (settings_of settings) (plain_consolidation c)) scalars
        (tables identities.old validators.old deposits.old ps cs)
        (tables identities.new validators.new deposits.new ps cs) result }
    ensures deposits_counted { (ps cs : List ℕ)
        → result ≡ with_deposits scalars
        (scalars.deposits
        + length (excess_entry (settings_of settings) c.target_index.0
        (books_of scalars
        (tables identities.old validators.old deposits.old ps cs)))) }
{
    let source = c.source_index;
    let target = c.target_index;
    let after = compounding::switch_to_compounding_validator(
        settings, scalars, identities, validators, deposits, target,
    );
    move_active_balance(settings, after, identities, validators, source, target);
    after
}

// What the consolidation loop leaves: the scalars, and the position of the first entry not reached.
#[derive(Clone, Copy)]
pub struct ProcessedConsolidations {
    pub scalars: Scalars,
    pub next: usize,
}

// The consolidation loop: a slashed source's entry is passed over.
fn process_consolidations(
    settings: Settings,
    scalars: Scalars,
    identities: &mut [u8],
    validators: &mut [u64],
    deposits: &mut [u64],
    partials: &[u64],
    consolidations: &[u64],
) -> ProcessedConsolidations
    requires { ConsolidationsReady (settings_of settings) scalars
        (tables identities.old validators.old deposits.old partials.now consolidations.now) }
    ensures { Consolidated (settings_of settings) scalars
        (tables identities.old validators.old deposits.old
        partials.now consolidations.now)
        (tables identities.new validators.new deposits.new
        partials.now consolidations.now) result.scalars result.next }
{
    let m = scalars.consolidations;
    let epoch = scalars.epoch;
    let mut after = scalars;
    for i in 0..m {
        let c: PendingConsolidation = records::queues::entry_at(consolidations, i);
        let source = c.source_index;
        if records::registry::slashed_at(validators, source) == 1 {
            continue;
        }
        let withdrawable = records::registry::withdrawable_epoch_at(validators, source);
        if epoch < withdrawable {
            return ProcessedConsolidations {
                scalars: after,
                next: i,
            };
        }
        after = consolidate(settings, after, identities, validators, deposits, c);
    }
    ProcessedConsolidations {
        scalars: after,
        next: m,
    }
}

// The deposit queue that the step leaves is known to be within its limit.
pub fn process_pending_consolidations(
    settings: Settings,
    scalars: Scalars,
    identities: &mut [u8],
    validators: &mut [u64],
    deposits: &mut [u64],
    partials: &[u64],
    consolidations: &mut [u64],
) -> Scalars
    requires room { enough_room (settings_of settings)
        (room_of (tables identities.old validators.old deposits.old partials.now consolidations.old))
        ≡ true }
    requires books_are_sound { sound_books (settings_of settings)
        (books_of scalars
        (tables identities.old validators.old deposits.old partials.now consolidations.old))
        ≡ true }
    requires queue_fits { length (rule.process_pending_consolidations (settings_of settings)
        (books_of scalars
        (tables identities.old validators.old deposits.old partials.now consolidations.old))
        ).pending_balance_deposits
        ≤ settings.pending_balance_deposits_limit }
    ensures { Stepped (rule.process_pending_consolidations (settings_of settings)) scalars
        (tables identities.old validators.old deposits.old
        partials.now consolidations.old)
        (tables identities.new validators.new deposits.new
        partials.now consolidations.new) result }
{
    let m = scalars.consolidations;
    let processed = process_consolidations(
        settings,
        scalars,
        identities,
        validators,
        deposits,
        partials,
        consolidations,
    );
    let next = processed.next;
    let after = processed.scalars;
    let left = m - next;
    records::queues::drain::<PendingConsolidation>(consolidations, next, left);
    Scalars {
        consolidations: left,
        ..after
    }
}
