use crate::amounts::{Amounts, Balances, Deposits, Partials, sum};
use primitives::{BOUND, FAR_FUTURE_EPOCH, Gwei};

// Validators 0 and 1 by columns: flags, effective balances, four epochs, balances.
const VALIDATORS: [u64; 14] = [
    0,
    1,
    32,
    64,
    0,
    0,
    0,
    0,
    FAR_FUTURE_EPOCH,
    9,
    FAR_FUTURE_EPOCH,
    9,
    33,
    60,
];

// Deposits of 5 to validator 0 and of 7 to validator 2.
const DEPOSITS: [u64; 4] = [0, 5, 2, 7];

// Partial withdrawals of 3 from validator 1 and of 4 from validator 2, both payable from epoch 8 on.
const PARTIALS: [u64; 6] = [1, 3, 8, 2, 4, 8];

#[test]
fn balances_up_to_an_effective_balance(rt: HostRuntime) {
    let most_64 = Balances { most: Gwei(64) };
    assert_eq!(rt; most_64.amount_at(&VALIDATORS, 1), Some(Gwei(60)));
    assert_eq!(rt; sum(most_64, Gwei(7), &VALIDATORS, 2), Some(Gwei(100)));
    let most_63 = Balances { most: Gwei(63) };
    assert_eq!(rt; most_63.amount_at(&VALIDATORS, 0), Some(Gwei(33)));
    assert_eq!(rt; most_63.amount_at(&VALIDATORS, 1), None);
    assert_eq!(rt; sum(most_63, Gwei(7), &VALIDATORS, 2), None);
}

#[test]
fn deposits_to_so_many_validators(rt: HostRuntime) {
    let of_three = Deposits { validators: 3 };
    assert_eq!(rt; of_three.amount_at(&DEPOSITS, 1), Some(Gwei(7)));
    assert_eq!(rt; sum(of_three, Gwei(30), &DEPOSITS, 2), Some(Gwei(42)));
    assert_eq!(rt;
        sum(of_three, Gwei(BOUND - 12), &DEPOSITS, 2),
        Some(Gwei(BOUND))
    );
    assert_eq!(rt; sum(of_three, Gwei(BOUND - 11), &DEPOSITS, 2), None);
    let of_two = Deposits { validators: 2 };
    assert_eq!(rt; of_two.amount_at(&DEPOSITS, 1), None);
    assert_eq!(rt; sum(of_two, Gwei(30), &DEPOSITS, 1), Some(Gwei(35)));
    assert_eq!(rt; sum(of_two, Gwei(30), &DEPOSITS, 2), None);
}

#[test]
fn partials_from_so_many_validators(rt: HostRuntime) {
    let of_two = Partials { validators: 2 };
    assert_eq!(rt; of_two.amount_at(&PARTIALS, 0), Some(Gwei(3)));
    assert_eq!(rt; of_two.amount_at(&PARTIALS, 1), None);
    let of_three = Partials { validators: 3 };
    assert_eq!(rt; of_three.amount_at(&PARTIALS, 1), Some(Gwei(4)));
    assert_eq!(rt; sum(of_three, Gwei(0), &PARTIALS, 2), Some(Gwei(7)));
    let of_one = Partials { validators: 1 };
    assert_eq!(rt; of_one.amount_at(&PARTIALS, 1), None);
}
