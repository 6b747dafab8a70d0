// Bare assignments: rows of five numbers, and the answer, what is left, and the epoch.
use helpers::assignment::{self, Assignment};
use primitives::answers::answer_number;
use primitives::{Epoch, Gwei};
use recorded_cases::books::Output;
use recorded_cases::compare::{Counts, Replay};
use std::io;

// The five numbers of a row.
fn numbers(row: &[u8; 60]) -> [u64; 5] {
    let mut numbers = [0; 5];
    let (eights, _) = row.as_chunks::<8>();
    for (number, bytes) in numbers.iter_mut().zip(eights) {
        *number = u64::from_le_bytes(*bytes);
    }
    numbers
}

// The last twenty bytes of a row.
fn answer(number: u8, left: Gwei, epoch: Epoch) -> [u8; 20] {
    let mut answer = [0; 20];
    answer[..4].copy_from_slice(&u32::from(number).to_le_bytes());
    answer[4..12].copy_from_slice(&left.0.to_le_bytes());
    answer[12..].copy_from_slice(&epoch.0.to_le_bytes());
    answer
}

// The row with the answer that the library gives.
fn answered(row: &[u8; 60]) -> [u8; 60] {
    let [left, earliest, activation_exit, churn, amount] = numbers(row);
    let assigned = assignment::epoch_assignment(
        Gwei(left),
        Epoch(earliest),
        Epoch(activation_exit),
        Gwei(churn),
        Gwei(amount),
    );
    let number = answer_number(&assigned);
    let given = assigned.unwrap_or(Assignment {
        left: Gwei(0),
        epoch: Epoch(0),
    });
    let mut answered = *row;
    answered[40..].copy_from_slice(&answer(number, given.left, given.epoch));
    answered
}

pub fn replay<P: Print>(
    replay: &mut Replay<P>,
    recorded: &[u8],
    out: &mut Output,
) -> io::Result<()> {
    let (rows, _) = recorded.as_chunks::<60>();
    let (places, _) = out.as_chunks_mut::<60>();
    for (place, row) in places.iter_mut().zip(rows) {
        *place = answered(row);
    }
    let n = rows.len() % 5333;
    replay.check("assignments", recorded, &out[..n * 60])?;
    replay.count(Counts {
        assignments: n as u64,
        ..Counts::default()
    });
    Ok(())
}
