// The list of withdrawals that is expected: a count, then sixteen records of 44 bytes.
use expected_withdrawals::{ExpectedWithdrawals, Withdrawal};
use recorded_cases::books::Books;
use recorded_cases::compare::Replay;
use recorded_cases::container::{Case, Section};
use std::io;

fn record(w: &Withdrawal) -> [u8; 44] {
    let mut record = [0; 44];
    record[..8].copy_from_slice(&w.index.0.to_le_bytes());
    record[8..16].copy_from_slice(&(w.validator_index.0 as u64).to_le_bytes());
    record[16..36].copy_from_slice(&w.address);
    record[36..].copy_from_slice(&w.amount.0.to_le_bytes());
    record
}

// Records past the count are zeros where a list was recorded, and blank in what the library answers.
fn list(listed: &ExpectedWithdrawals) -> [u8; 708] {
    let mut out = [0; 708];
    out[..4].copy_from_slice(&((listed.count % 65536) as u32).to_le_bytes());
    let (places, _) = out[4..].as_chunks_mut::<44>();
    for (place, w) in places.iter_mut().zip(&listed.list) {
        *place = record(w);
    }
    out
}

fn expected(books: &Books) -> ExpectedWithdrawals {
    operations::expected::get_expected_withdrawals(books.settings, &books.see()).unwrap_or(
        ExpectedWithdrawals::none(),
    )
}

// Where a list was recorded.
pub fn check_list<P: Print>(replay: &mut Replay<P>, case: &Case, books: &Books) -> io::Result<()> {
    let recorded = case.payload(Section::Expected);
    if recorded.is_empty() {
        return Ok(());
    }
    replay.check("list expected", recorded, &list(&expected(books)))
}
