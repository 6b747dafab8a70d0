// Edges run through the public calls on the mainnet row, but for one with another minimum churn. One line an edge: the
// answer, then what the edge is about. The expected output stands in the file stdout.

// The calls stay written out one by one: each case is another public call with numbers of its own, and a shared
// function would hide which.

#![tactic(auto)]

use expected_withdrawals::ExpectedWithdrawals;
use helpers::assignment::{self, Assignment};
use primitives::answers::answer_number;
use primitives::{
    BOUND, Epoch, FAR_FUTURE_EPOCH, Gwei, Scalars, Settings, ValidatorIndex, WithdrawalIndex,
};
use records::books;
use std::io;

const G: u64 = 1_000_000_000;

// Settings, scalars and the five tables, with room for two validators, four deposits, a partial withdrawal and two
// consolidations.
#[derive(Drop)]
struct Books {
    settings: Settings,
    scalars: Scalars,
    identities: [u8; 160],
    validators: [u64; 14],
    deposits: [u64; 8],
    partials: [u64; 3],
    consolidations: [u64; 4],
}

// At epoch 1000, with two validators and all other scalars 0.
fn scalars(deposits: usize, partials: usize, consolidations: usize) -> Scalars {
    Scalars {
        epoch: Epoch(1000),
        next_withdrawal_index: WithdrawalIndex(0),
        next_withdrawal_validator_index: ValidatorIndex(0),
        deposit_receipts_start_index: 0,
        deposit_balance_to_consume: Gwei(0),
        exit_balance_to_consume: Gwei(0),
        earliest_exit_epoch: Epoch(0),
        consolidation_balance_to_consume: Gwei(0),
        earliest_consolidation_epoch: Epoch(0),
        validators: 2,
        deposits,
        partials,
        consolidations,
    }
}

// Two validators that are active since epoch 0, with effective balances of 32 G; the second has 40 G. By columns: word
// k of validator i stands at 2 k + i.
fn validators(balance: u64) -> [u64; 14] {
    [
        0,
        0,
        32 * G,
        32 * G,
        0,
        0,
        0,
        0,
        FAR_FUTURE_EPOCH,
        FAR_FUTURE_EPOCH,
        FAR_FUTURE_EPOCH,
        FAR_FUTURE_EPOCH,
        balance,
        40 * G,
    ]
}

// Credentials of prefix 02 for both, or 01 for both, behind the two keys.
fn identities(prefix: u8) -> [u8; 160] {
    let mut out = [0; 160];
    out[96] = prefix;
    out[128] = prefix;
    out
}

impl Books {
    // With empty queues; the first validator has this balance.
    fn new(prefix: u8, balance: u64) -> Books {
        Books {
            settings: Settings::mainnet(2, 4, 1, 2),
            scalars: scalars(0, 0, 0),
            identities: identities(prefix),
            validators: validators(balance),
            deposits: [0; 8],
            partials: [0; 3],
            consolidations: [0; 4],
        }
    }

    // With these scalars, lent for reading.
    fn lent(&self, scalars: Scalars) -> books::Books<'_> {
        books::Books {
            scalars,
            identities: &self.identities,
            validators: &self.validators,
            deposits: &self.deposits,
            partials: &self.partials,
            consolidations: &self.consolidations,
        }
    }
}

fn assign(to: &impl Print, amount: u64, churn: u64) -> io::Result<()> {
    let answer = assignment::epoch_assignment(
        Gwei(32 * G),
        Epoch(1005),
        Epoch(1005),
        Gwei(churn),
        Gwei(amount),
    );
    let given = answer.unwrap_or(Assignment {
        left: Gwei(0),
        epoch: Epoch(0),
    });
    println!(to;
        "assignment {} {} {}",
        answer_number(&answer),
        given.epoch.0,
        given.left.0
    )
}

// A carry of 2 G, and deposits of 30 G and of this amount for the first validator; the allowance is 128 G.
fn deposit_step(to: &impl Print, amount: u64) -> io::Result<()> {
    let mut books = Books::new(1, 32 * G);
    books.deposits = [0, 30 * G, 0, amount, 0, 0, 0, 0];
    books.scalars = Scalars {
        deposit_balance_to_consume: Gwei(2 * G),
        ..scalars(2, 0, 0)
    };
    let r = electra::deposits::process_pending_balance_deposits(
        books.settings,
        books.scalars,
        &books.identities,
        &mut books.validators,
        &mut books.deposits,
        &books.partials,
        &books.consolidations,
    );
    let left = r.unwrap_or(books.scalars);
    println!(to;
        "deposits {} {} {} {}",
        answer_number(&r),
        books.validators[12],
        left.deposits,
        left.deposit_balance_to_consume.0
    )
}

fn effective_step(to: &impl Print, balance: u64) -> io::Result<()> {
    let mut books = Books::new(2, balance);
    let r = electra::effective_balances::process_effective_balance_updates(
        books.settings,
        books.scalars,
        &books.identities,
        &mut books.validators,
        &books.deposits,
        &books.partials,
        &books.consolidations,
    );
    println!(to; "effective {} {}", answer_number(&r), books.validators[2])
}

// The first validator, exited and withdrawable at this epoch, into the second, whose prefix is 01.
fn consolidation_step(to: &impl Print, slashed: u64, withdrawable: u64) -> io::Result<()> {
    let mut books = Books::new(1, 32 * G);
    books.validators[0] = slashed;
    books.validators[8] = 990;
    books.validators[10] = withdrawable;
    books.consolidations = [0, 1, 0, 0];
    books.scalars = scalars(0, 0, 1);
    let Books {
        settings,
        scalars,
        mut identities,
        mut validators,
        mut deposits,
        partials,
        mut consolidations,
    } = books;
    let r = electra::consolidations::process_pending_consolidations(
        settings,
        scalars,
        &mut identities,
        &mut validators,
        &mut deposits,
        &partials,
        &mut consolidations,
    );
    let left = r.unwrap_or(scalars);
    println!(to;
        "consolidations {} {} {} {} {}",
        answer_number(&r),
        validators[13],
        identities[128],
        deposits[1],
        left.consolidations
    )
}

// A turn from this epoch with one deposit of 1 G waiting, and the total after it.
fn turn(to: &impl Print, epoch: u64) -> io::Result<()> {
    let mut books = Books::new(1, 40 * G);
    books.deposits[1] = G;
    books.scalars = Scalars {
        epoch: Epoch(epoch),
        ..scalars(1, 0, 0)
    };
    let r = electra::turns::turn(
        books.settings,
        books.scalars,
        &mut books.identities,
        &mut books.validators,
        &mut books.deposits,
        &books.partials,
        &mut books.consolidations,
    );
    let left = r.unwrap_or(books.scalars);
    let held = electra::total::held(books.settings, &books.lent(left));
    print!(to;
        "turn {} {} {}",
        answer_number(&r),
        books.validators[12],
        left.epoch.0
    )?;
    if let Ok(sum) = held {
        print!(to; " {}", sum.0)?;
    }
    println!(to)
}

fn reward(to: &impl Print, i: usize, amount: u64) -> io::Result<()> {
    let mut books = Books::new(1, 32 * G);
    let r = electra::reward::reward(
        books.settings,
        books.scalars,
        &books.identities,
        &mut books.validators,
        &books.deposits,
        &books.partials,
        &books.consolidations,
        ValidatorIndex(i),
        Gwei(amount),
    );
    println!(to; "reward {} {}", answer_number(&r), books.validators[12])
}

fn penalty(to: &impl Print, amount: u64) -> io::Result<()> {
    let mut books = Books::new(1, 32 * G);
    let r = electra::penalty::penalty(
        books.settings,
        books.scalars,
        &books.identities,
        &mut books.validators,
        &books.deposits,
        &books.partials,
        &books.consolidations,
        ValidatorIndex(0),
        Gwei(amount),
    );
    println!(to; "penalty {} {}", answer_number(&r), books.validators[12])
}

// A waiting partial withdrawal of 5 G, effective balance 32 G, this balance: the list that is expected.
fn expected(to: &impl Print, balance: u64) -> io::Result<()> {
    let mut books = Books::new(2, balance);
    books.partials = [0, 5 * G, 1000];
    books.scalars = scalars(0, 1, 0);
    let e = operations::expected::get_expected_withdrawals(
        books.settings,
        &books.lent(books.scalars),
    );
    let listed = e.unwrap_or(ExpectedWithdrawals::none());
    let [first, ..] = listed.list;
    println!(to;
        "expected {} {} {} {}",
        answer_number(&e),
        listed.count,
        first.validator_index.0,
        first.amount.0
    )
}

// The partial queue is full with the second validator's entry; the first, whose key ends in 1, asks for this amount.
fn request(to: &impl Print, amount: u64) -> io::Result<()> {
    let mut books = Books::new(2, 40 * G);
    books.identities[47] = 1;
    books.partials = [1, 1, 1000];
    books.scalars = scalars(0, 1, 0);
    let mut key = [0; 48];
    key[47] = 1;
    let r = operations::withdrawal_requests::process_execution_layer_withdrawal_request(
        books.settings,
        books.scalars,
        &books.identities,
        &mut books.validators,
        &books.deposits,
        &mut books.partials,
        &books.consolidations,
        [0; 20],
        key,
        Gwei(amount),
    );
    let left = r.unwrap_or(books.scalars);
    println!(to;
        "request {} {} {}",
        answer_number(&r),
        books.validators[8],
        left.partials
    )
}

// The first validator into the second, with a minimum churn of 320 G, which leaves 64 G to consolidations.
fn consolidation(to: &impl Print, epoch: u64) -> io::Result<()> {
    let mut books = Books::new(1, 32 * G);
    let mut row = primitives::MAINNET;
    row[3] = 320 * G;
    books.settings = Settings::from_row(row, 2, 4, 1, 2);
    let Books {
        settings,
        scalars,
        identities,
        mut validators,
        deposits,
        partials,
        mut consolidations,
    } = books;
    let r = operations::consolidations::process_consolidation(
        settings,
        scalars,
        &identities,
        &mut validators,
        &deposits,
        &partials,
        &mut consolidations,
        ValidatorIndex(0),
        ValidatorIndex(1),
        Epoch(epoch),
        true,
    );
    let left = r.unwrap_or(scalars);
    println!(to;
        "consolidation {} {} {} {}",
        answer_number(&r),
        validators[8],
        validators[10],
        left.consolidation_balance_to_consume.0
    )
}

fn main(rt: HostRuntime) -> io::Result<()> {
    for (amount, churn) in [
        (32 * G, 128 * G),
        (32 * G + 1, 128 * G),
        (32 * G, 0),
        (FAR_FUTURE_EPOCH, 1),
    ] {
        assign(&rt, amount, churn)?;
    }
    for amount in [100 * G, 100 * G + 1] {
        deposit_step(&rt, amount)?;
    }
    for balance in [
        33_250_000_000,
        33_250_000_001,
        31_750_000_000,
        31_749_999_999,
    ] {
        effective_step(&rt, balance)?;
    }
    for (slashed, withdrawable) in [(1, 995), (0, 1001), (0, 1000)] {
        consolidation_step(&rt, slashed, withdrawable)?;
    }
    for epoch in [1000, BOUND] {
        turn(&rt, epoch)?;
    }
    for (i, amount) in [(0, G), (2, G), (0, BOUND - 72 * G), (0, BOUND - 72 * G + 1)] {
        reward(&rt, i, amount)?;
    }
    for amount in [G, FAR_FUTURE_EPOCH] {
        penalty(&rt, amount)?;
    }
    for balance in [33 * G, 32 * G] {
        expected(&rt, balance)?;
    }
    for amount in [1, 0] {
        request(&rt, amount)?;
    }
    for epoch in [1000, 1001] {
        consolidation(&rt, epoch)?;
    }
    Ok(())
}
