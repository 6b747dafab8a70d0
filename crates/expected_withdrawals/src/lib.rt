// The withdrawals that a block is expected to make: get_expected_withdrawals of electra/block_processing.rs.

#![tactic(auto)]

ghost use Rattle.std.specs.Prelude.{◌≡◌, List, ℕ, ◌+◌, ◌-◌, ◌%◌, ◌<◌, ◌≤◌, ◌^◌, min};
ghost use Rattle.rules.specs.BlockProcessing.{is_partial_payable, sweep_amount};
ghost use Rattle.primitives.specs.Settings.{settings_of};
ghost use Rattle.records.specs.Layout.{validator_at, balance_at, partial_at, identities_fit, validators_fit};
ghost use Rattle.records.specs.Plain.{plain_partial};
ghost use Rattle.records.specs.Books.{books_of, tables};
ghost use Rattle.tables.specs.Rows.{rows};
ghost use Rattle.expected_withdrawals.specs.Expected.{no_withdrawals, coded_withdrawal, expected_of};
ghost use Rattle.expected_withdrawals.specs.Listing.{with_withdrawal, withdrawal_of, may_withdraw};
ghost use Rattle.expected_withdrawals.specs.Listing.{partial_amount, list_partials, list_swept};
ghost use Rattle.expected_withdrawals.specs.Ready.{SweepReady, Ready};

use primitives::{Epoch, FAR_FUTURE_EPOCH, Gwei, Settings, ValidatorIndex, WithdrawalIndex};
use records::books::Books;
use records::queues::PendingPartialWithdrawal;

#[derive(Clone, Copy, Debug, PartialEq, Eq)]
pub struct Withdrawal {
    pub index: WithdrawalIndex,
    pub validator_index: ValidatorIndex,
    pub address: [u8; 20],
    pub amount: Gwei,
}

// Of the sixteen records the first `count` are withdrawals and the others are blank; of the withdrawals the first
// `partials` are partial withdrawals.
// The array with its counts stays: the project's scope names this form (docs/FORMS.md).
#[derive(Clone, Copy)]
pub struct ExpectedWithdrawals {
    pub list: [Withdrawal; 16],
    pub count: usize,
    pub partials: usize,
}

impl ExpectedWithdrawals {
    pub fn none() -> ExpectedWithdrawals
        ensures { result ≡ no_withdrawals }
    {
        let blank = Withdrawal {
            index: WithdrawalIndex(0),
            validator_index: ValidatorIndex(0),
            address: [0u8; 20],
            amount: Gwei(0),
        };
        ExpectedWithdrawals {
            list: [blank; 16],
            count: 0,
            partials: 0,
        }
    }

    // One withdrawal more.
    fn push(&mut self, w: Withdrawal)
        requires { self.old.count < 16 }
        ensures { self.new ≡ with_withdrawal self.old w }
    {
        self.list[self.count] = w;
        self.count += 1;
    }
}

// The withdrawal behind `count` others, of validator i.
fn withdrawal_of(books: &Books<'_>, count: usize, i: ValidatorIndex, amount: Gwei) -> Withdrawal
    requires room { (count < 16) × (books.now.scalars.next_withdrawal_index.0 ≤ 2 ^ 62) }
    requires held { (i.0 < identities_fit books.now.identities.now)
        × (i.0 < validators_fit books.now.validators.now) }
    ensures { result ≡ coded_withdrawal (withdrawal_of books.now.scalars.next_withdrawal_index.0 count i.0
        (validator_at books.now.identities.now books.now.validators.now i.0) amount.0) }
{
    let first = books.scalars.next_withdrawal_index;
    let v = records::registry::validator_at(books.identities, books.validators, i);
    let address = v.withdrawal_address();
    Withdrawal {
        index: WithdrawalIndex(first.0 + count as u64),
        validator_index: i,
        address,
        amount,
    }
}

// Whether a waiting partial withdrawal of validator i is paid.
// The bound on i stays a clause: it is the one that indexing a slice asks for.
#[tactic(auto, unfolding(rules::specs::BlockProcessing::is_partial_payable))]
fn is_partial_payable(settings: Settings, validators: &[u64], i: ValidatorIndex) -> bool
    requires { i.0 < validators_fit validators.now }
    ensures { (ids : List ℕ)
        → result ≡ is_partial_payable (settings_of settings) (validator_at ids validators.now i.0) }
{
    let least = settings.min_activation_balance;
    let exit = records::registry::exit_epoch_at(validators, i);
    let effective = records::registry::effective_balance_at(validators, i);
    let balance = records::registry::balance_at(validators, i);
    exit.0 == FAR_FUTURE_EPOCH && (least <= effective && least < balance)
}

// What a partial withdrawal that is paid takes: no more than stands above the minimum.
fn partial_amount(settings: Settings, validators: &[u64], p: PendingPartialWithdrawal) -> Gwei
    requires held { p.index.0 < validators_fit validators.now }
    requires above_least { settings.min_activation_balance.0 ≤ balance_at validators.now p.index.0 }
    ensures { (ids : List ℕ)
        → result.0 ≡ partial_amount (settings_of settings) (plain_partial p)
        (validator_at ids validators.now p.index.0) }
{
    let i = p.index;
    let balance = records::registry::balance_at(validators, i);
    let above = balance.0 - settings.min_activation_balance.0;
    Gwei(above.min(p.amount.0))
}

// Whether the sweep may take something of validator i, by three of its words. Most validators are passed so, and the
// rest of their records is not read.
// The bound on i stays a clause: it is the one that indexing a slice asks for.
fn may_withdraw(epoch: Epoch, validators: &[u64], i: ValidatorIndex) -> bool
    requires { i.0 < validators_fit validators.now }
    ensures { (ids : List ℕ) → result ≡ may_withdraw epoch.0 (validator_at ids validators.now i.0) }
{
    let withdrawable = records::registry::withdrawable_epoch_at(validators, i);
    let effective = records::registry::effective_balance_at(validators, i);
    let balance = records::registry::balance_at(validators, i);
    withdrawable <= epoch || effective < balance
}

// What the sweep takes of validator i.
#[tactic(auto, using(crate::proofs::Walk::taken))]
fn sweep_amount(settings: Settings, books: &Books<'_>, i: ValidatorIndex) -> Gwei
    requires { (i.0 < identities_fit books.now.identities.now) × (i.0 < validators_fit books.now.validators.now) }
    ensures { result.0 ≡ sweep_amount (settings_of settings) books.now.scalars.epoch.0
        (validator_at books.now.identities.now books.now.validators.now i.0) }
{
    let epoch = books.scalars.epoch;
    if !may_withdraw(epoch, books.validators, i) {
        return Gwei(0);
    }
    let v = records::registry::validator_at(books.identities, books.validators, i);
    if v.is_fully_withdrawable_validator(epoch) {
        return v.balance;
    }
    if !v.is_partially_withdrawable_validator(settings) {
        return Gwei(0);
    }
    let max = v.get_validator_max_effective_balance(settings);
    Gwei(v.balance.0 - max.0)
}

// The waiting partial withdrawals that are paid.
fn partial_withdrawals(settings: Settings, books: &Books<'_>) -> ExpectedWithdrawals
    requires { Ready settings books.now.scalars books.now.identities.now books.now.validators.now
        books.now.partials.now }
    ensures { (ds cs : List ℕ)
        → result ≡ list_partials (settings_of settings)
        (books_of books.now.scalars
        (tables books.now.identities.now books.now.validators.now ds books.now.partials.now cs))
        (rows books.now.scalars.partials (partial_at books.now.partials.now)) no_withdrawals }
{
    let scalars = books.scalars;
    let most = settings.max_pending_partials_per_withdrawals_sweep;
    let n = scalars.partials;
    let mut e = ExpectedWithdrawals::none();
    for k in 0..n {
        if most <= e.count {
            return e;
        }
        let p: PendingPartialWithdrawal = records::queues::entry_at(books.partials, k);
        if scalars.epoch.0 < p.withdrawable_epoch.0 {
            return e;
        }
        let i = p.index;
        if is_partial_payable(settings, books.validators, i) {
            let amount = partial_amount(settings, books.validators, p);
            let w = withdrawal_of(books, e.count, i, amount);
            e.push(w);
        }
    }
    e
}

// The index behind i around a registry of n. The sweep asks for each validator, and a comparison is much faster than a
// division.
fn index_after(i: usize, n: usize) -> usize
    requires { i < n }
    ensures { result ≡ (i + 1) % n }
{
    let next = i + 1;
    if next == n {
        return 0;
    }
    next
}

// The sweep around the registry, behind the withdrawals that are listed.
fn sweep_withdrawals(
    settings: Settings,
    books: &Books<'_>,
    listed: ExpectedWithdrawals,
) -> ExpectedWithdrawals
    requires { SweepReady settings books.now.scalars books.now.identities.now books.now.validators.now }
    ensures { (ds ps cs : List ℕ)
        → result ≡ list_swept (settings_of settings)
        (books_of books.now.scalars
        (tables books.now.identities.now books.now.validators.now ds ps cs))
        (min books.now.scalars.validators settings.max_validators_per_withdrawals_sweep)
        books.now.scalars.next_withdrawal_validator_index.0 listed }
{
    let scalars = books.scalars;
    let most = settings.max_withdrawals_per_payload;
    let cursor = scalars.next_withdrawal_validator_index;
    let n = scalars.validators;
    let bound = n.min(settings.max_validators_per_withdrawals_sweep);
    let mut e = listed;
    let mut i = cursor.0;
    for _k in 0..bound {
        if most <= e.count {
            return e;
        }
        let amount = sweep_amount(settings, books, ValidatorIndex(i));
        if 0 < amount.0 {
            let w = withdrawal_of(books, e.count, ValidatorIndex(i), amount);
            e.push(w);
        }
        i = index_after(i, n);
    }
    e
}

// The partial withdrawals, and then the sweep.
pub fn get_expected_withdrawals(settings: Settings, books: &Books<'_>) -> ExpectedWithdrawals
    requires { Ready settings books.now.scalars books.now.identities.now books.now.validators.now
        books.now.partials.now }
    ensures { (ds cs : List ℕ)
        → result ≡ expected_of (settings_of settings)
        (books_of books.now.scalars
        (tables books.now.identities.now books.now.validators.now ds books.now.partials.now cs)) }
{
    // A copy: behind the reference the tables' places and lengths would be read again for each validator.
    let lent = *books;
    let mut e = partial_withdrawals(settings, &lent);
    e.partials = e.count;
    sweep_withdrawals(settings, &lent, e)
}
