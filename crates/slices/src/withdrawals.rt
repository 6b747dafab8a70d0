// Withdrawals as slices: three numbers each (index, validator, amount), and twenty bytes each for their addresses.
ghost use Rattle.std.specs.Prelude.{◌≡◌, [], ◌∷◌, ◌<◌, ◌≤◌, ◌/◌, leb, length};
ghost use Rattle.slices.specs.Exported.{fit};
ghost use Rattle.slices.specs.Withdrawals.{address_at, withdrawal_at, withdrawals_in};
ghost use Rattle.slices.specs.Withdrawals.{with_records, with_addresses};

use expected_withdrawals::Withdrawal;
use primitives::{Gwei, ValidatorIndex, WithdrawalIndex};
use std::array;

pub fn address_at(addresses: &[u8], i: usize) -> [u8; 20]
    requires { i < 16 }
    ensures { result ≡ address_at addresses.now i }
{
    crate::row_at(addresses, 20 * i, 0)
}

fn withdrawal_at(records: &[u64], addresses: &[u8], i: usize) -> Withdrawal
    requires { i < 16 }
    ensures { result ≡ withdrawal_at records.now addresses.now i }
{
    let [index, validator, amount] = crate::row_at::<u64, 3>(records, 3 * i, 0);
    Withdrawal {
        index: WithdrawalIndex(index),
        validator_index: ValidatorIndex(validator as usize),
        address: address_at(addresses, i),
        amount: Gwei(amount),
    }
}

// The first sixteen withdrawals; what is missing reads as 0.
pub fn withdrawals_from(records: &[u64], addresses: &[u8]) -> [Withdrawal; 16]
    ensures { result ≡ withdrawals_in records.now addresses.now }
{
    array::from_fn(|i| withdrawal_at(records, addresses, i))
}

// There are n records and n addresses.
pub fn handed_fit(scalars: &[u64], records: &[u64], addresses: &[u8], n: u64) -> bool
    ensures { result
        ≡ fit scalars.now
        (leb n (length records.now / 3) ∷ leb n (length addresses.now / 20) ∷ []) }
{
    crate::both_fit(
        scalars,
        n <= (records.len() / 3) as u64,
        n <= (addresses.len() / 20) as u64,
    )
}

// There is room for sixteen.
pub fn expected_fit(scalars: &[u64], records: &[u64], addresses: &[u8]) -> bool
    ensures { result
        ≡ fit scalars.now
        (leb 48 (length records.now) ∷ leb 320 (length addresses.now) ∷ []) }
{
    crate::both_fit(scalars, 48 <= records.len(), 320 <= addresses.len())
}

pub fn store_records(records: &mut [u64], list: [Withdrawal; 16])
    requires { 48 ≤ length records.old }
    ensures { records.new ≡ with_records records.old list }
{
    for (i, w) in list.iter().enumerate() {
        let record = [w.index.0, w.validator_index.0 as u64, w.amount.0];
        records[3 * i..3 * i + 3].copy_from_slice(&record);
    }
}

pub fn store_addresses(addresses: &mut [u8], list: [Withdrawal; 16])
    requires { 320 ≤ length addresses.old }
    ensures { addresses.new ≡ with_addresses addresses.old list }
{
    for (i, w) in list.iter().enumerate() {
        addresses[20 * i..20 * i + 20].copy_from_slice(&w.address);
    }
}
