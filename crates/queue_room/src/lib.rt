// Answer 40 of the consolidation step and of a turn, before the first store: whether the deposit queue is within its
// limit afterwards. The step is carried out on a copy of the balances that a switch can still take an excess from.

// StepReady and TurnReady stay clauses: as types, what a turn lends would have to be turned into what the step asks
// for, within each function that calls another.

#![tactic(auto)]

ghost use Rattle.std.specs.Prelude.{◌≡◌, List, ℕ, ◌+◌, ◌<◌, ◌≤◌, ◌^◌, length, get_or, leb};
ghost use Rattle.rules.specs.Types as rule;
ghost use Rattle.rules.specs.Helpers.{prefix, get_activation_exit_churn_limit};
ghost use Rattle.rules.specs.EpochProcessing.{process_pending_consolidations, turn};
ghost use Rattle.rules.specs.Counting.{excess_entries};
ghost use Rattle.primitives.specs.Settings.{settings_of};
ghost use Rattle.records.specs.Layout.{withdrawal_credentials_at, identities_fit};
ghost use Rattle.compounding.specs.Laws.{excess_entry_count};
ghost use Rattle.queue_room.specs.Balances.{Switchable, switchable_amount};
ghost use Rattle.queue_room.specs.Balances.{credited_balances, consolidated_balances};
ghost use Rattle.queue_room.specs.Represented.{Represented, DepositsProcessed};
ghost use Rattle.queue_room.specs.Room.{queued, available_amount};
ghost use Rattle.queue_room.specs.Ready.{lent_validators, lent_deposits, lent_consolidations, books_with};
ghost use Rattle.queue_room.specs.Ready.{StepReady, TurnReady, AllowanceReady};

use primitives::{Gwei, Settings, ValidatorIndex};
use records::books::Books;
use records::queues::{PendingBalanceDeposit, PendingConsolidation};

// ---- one balance

// An amount of a validator that can switch: its prefix is 01.
fn switchable_amount(prefix: u8, amount: Gwei) -> u64
    ensures { result ≡ switchable_amount prefix amount.0 }
{
    if prefix == 1 { amount.0 } else { 0 }
}

// ---- the balances of the validators that can switch, and 0 for the others

#[tactic(auto, using(crate::proofs::Filling::filling_none, crate::proofs::Filling::filling_end))]
fn set_switchable_balances(books: &Books<'_>, balances: &mut [u64; 65536])
    requires ready { StepReady books.now }
    ensures { (length balances.new ≡ 65536)
        × Switchable books.now.scalars.validators (lent_validators books.now) balances.new }
{
    for i in 0..books.scalars.validators {
        let prefix = records::registry::prefix_at(books.identities, ValidatorIndex(i));
        let balance = records::registry::balance_at(books.validators, ValidatorIndex(i));
        balances[i] = switchable_amount(prefix, balance);
    }
}

fn credit_deposit(identities: &[u8], d: PendingBalanceDeposit, balances: &mut [u64; 65536])
    requires index_bound { (d.index.0 < 65536) × (d.index.0 < identities_fit identities.now) }
    requires amount_bound { get_or balances.old d.index.0 0 + d.amount.0 < 2 ^ 64 }
    ensures { balances.new
        ≡ credited_balances d.index.0 (prefix (withdrawal_credentials_at identities.now d.index.0))
        d.amount.0 balances.old }
{
    let prefix = records::registry::prefix_at(identities, d.index);
    let more = switchable_amount(prefix, d.amount);
    balances[d.index.0] += more;
}

// The balances after the deposit loop; the result is how many deposits it credits.
#[tactic(auto, using(crate::proofs::Crediting::crediting_loop))]
fn process_deposits(books: &Books<'_>, available: Gwei, balances: &mut [u64; 65536]) -> usize
    requires ready { TurnReady books.now }
    ensures { (length balances.new ≡ 65536)
        × DepositsProcessed available.0 books.now.scalars.validators (lent_deposits books.now)
        (lent_validators books.now) balances.new result }
{
    set_switchable_balances(books, balances);
    let mut processed_amount = 0;
    for k in 0..books.scalars.deposits {
        let d: PendingBalanceDeposit = records::queues::entry_at(books.deposits, k);
        let amount = d.amount.0;
        if available.0 < processed_amount + amount {
            return k;
        }
        credit_deposit(books.identities, d, balances);
        processed_amount += amount;
    }
    books.scalars.deposits
}

// The target switches, then the source's active balance goes; the result is how many entries the switch queues.
fn consolidate(minimum: Gwei, c: PendingConsolidation, balances: &mut [u64; 65536]) -> usize
    requires { (c.source_index.0 < 65536) × (c.target_index.0 < 65536) }
    ensures { (result ≡ excess_entry_count minimum.0 (get_or balances.old c.target_index.0 0))
        × (balances.new
        ≡ consolidated_balances minimum.0 c.source_index.0 c.target_index.0 balances.old) }
{
    let source = c.source_index.0;
    let target = c.target_index.0;
    let entries = compounding::excess_entry_count(minimum, balances[target]);
    balances[target] = 0;
    balances[source] = balances[source].saturating_sub(minimum.0);
    entries
}

// How many entries the switches of the consolidation step queue, on any books that words and balances represent.
#[tactic(auto, using(crate::proofs::Counting::counting_loop))]
fn count_excess_entries(settings: Settings, books: &Books<'_>, balances: &mut [u64; 65536]) -> usize
    requires ready { StepReady books.now }
    ensures { (result ≤ books.now.scalars.consolidations)
        × ((b : rule.Books) → Represented books.now.scalars books.now.validators.now balances.old b
        → result ≡ length (excess_entries (settings_of settings) (lent_consolidations books.now) b)) }
{
    let mut entries = 0;
    for k in 0..books.scalars.consolidations {
        let c: PendingConsolidation = records::queues::entry_at(books.consolidations, k);
        if records::registry::slashed_at(books.validators, c.source_index) == 1 {
            continue;
        }
        let withdrawable_epoch = records::registry::withdrawable_epoch_at(
            books.validators,
            c.source_index,
        );
        if books.scalars.epoch.0 < withdrawable_epoch.0 {
            return entries;
        }
        entries += consolidate(settings.min_activation_balance, c, balances);
    }
    entries
}

// ---- the queue's length afterwards; each of the two owns the one array of balances on its call chain

fn queue_after_consolidations(settings: Settings, books: &Books<'_>) -> usize
    requires { StepReady books.now }
    ensures { (ds ps : List ℕ)
        → result ≡ queued (process_pending_consolidations (settings_of settings) (books_with books.now ds ps)) }
{
    let mut balances = [0u64; 65536];
    set_switchable_balances(books, &mut balances);
    let entries = count_excess_entries(settings, books, &mut balances);
    books.scalars.deposits + entries
}

fn queue_after_turn(settings: Settings, books: &Books<'_>, available: Gwei) -> usize
    requires { TurnReady books.now }
    ensures { (ps : List ℕ)
        → let b = books_with books.now books.now.deposits.now ps in
        available.0 ≡ available_amount (settings_of settings) b → result ≡ queued (turn (settings_of settings) b) }
{
    let mut balances = [0u64; 65536];
    let credited = process_deposits(books, available, &mut balances);
    let entries = count_excess_entries(settings, books, &mut balances);
    books.scalars.deposits - credited + entries
}

// ---- the two tests; a queue that has room for an entry of every consolidation needs no count

// Whether the deposit queue is within its limit after the consolidation step.
pub fn consolidations_fit(settings: Settings, books: &Books<'_>) -> bool
    requires { StepReady books.now }
    ensures { (ds ps : List ℕ)
        → result
        ≡ leb (queued (process_pending_consolidations (settings_of settings) (books_with books.now ds ps)))
        (settings_of settings).pending_balance_deposits_limit }
{
    let limit = settings.pending_balance_deposits_limit;
    let most = books.scalars.deposits + books.scalars.consolidations;
    if most <= limit {
        return true;
    }
    queue_after_consolidations(settings, books) <= limit
}

// Whether the deposit queue is within its limit after a turn.
pub fn turn_fits(settings: Settings, books: &Books<'_>, allowance: Gwei) -> bool
    requires ready { TurnReady books.now }
    requires allowance_ready { AllowanceReady settings books.now.scalars }
    requires allowance_is { (ps : List ℕ)
        → allowance.0
        ≡ get_activation_exit_churn_limit (settings_of settings) (books_with books.now books.now.deposits.now ps) }
    ensures { (ps : List ℕ)
        → result
        ≡ leb (queued (turn (settings_of settings) (books_with books.now books.now.deposits.now ps)))
        (settings_of settings).pending_balance_deposits_limit }
{
    let limit = settings.pending_balance_deposits_limit;
    let most = books.scalars.deposits + books.scalars.consolidations;
    if most <= limit {
        return true;
    }
    let available = Gwei(books.scalars.deposit_balance_to_consume.0 + allowance.0);
    let queue = queue_after_turn(settings, books, available);
    queue <= limit
}
