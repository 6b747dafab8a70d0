// What books hold, balances plus waiting deposits, whether they are sound or not.
use primitives::ValidatorIndex;
use recorded_cases::books::Books;
use records::queues::{PendingBalanceDeposit, entries_fit, entry_at};
use records::registry::{balance_at, validators_fit};

// The plain sum: what a table has no room for is left out, and the sum wraps.
fn plain_total(n: usize, validators: &[u64], m: usize, deposits: &[u64]) -> u64 {
    let mut sum: u64 = 0;
    for i in 0..n.min(validators_fit(validators)) {
        sum = sum.wrapping_add(balance_at(validators, ValidatorIndex(i)).0);
    }
    for i in 0..m.min(entries_fit::<PendingBalanceDeposit>(deposits)) {
        sum = sum.wrapping_add(entry_at::<PendingBalanceDeposit>(deposits, i).amount.0);
    }
    sum
}

// By the library where it accepts the books, else the plain sum.
pub fn total(books: &Books) -> u64 {
    let lent = books.see();
    match electra::total::held(books.settings, &lent) {
        Ok(sum) => sum.0,
        Err(_) => plain_total(
            lent.scalars.validators,
            lent.validators,
            lent.scalars.deposits,
            lent.deposits,
        ),
    }
}
