// A calls file made in a lent buffer. The buffer always begins with a complete file, of the length that the last call
// returned; each call is added at its end. 60, then 61, before the first store.

// A buffer and a word of it stay two parameters, as in file_stores. A list stays an array and a count, as the reader
// gives it.

#![tactic(auto)]

ghost use Rattle.std.specs.Prelude.{◌≡◌, [], ◌∷◌, ◌+◌, ◌-◌, ◌*◌, ◌/◌, ◌≤◌, length, false, MatchOption};
ghost use Rattle.rules.specs.Calls.{deposit_receipt, voluntary_exit, withdrawal_request};
ghost use Rattle.rules.specs.Calls.{consolidation, withdrawals};
ghost use Rattle.primitives.specs.Answers.{answer_number, answer_or};
ghost use Rattle.expected_withdrawals.specs.Expected.{plain_withdrawal, handed_list};
ghost use Rattle.file_format.specs.Words.{word};
ghost use Rattle.file_format.specs.Fields.{each};
ghost use Rattle.file_format.specs.Calls.{amount_fields, withdrawal, call};
ghost use Rattle.file_format.specs.PutLaws.{put};
ghost use Rattle.calls_reader.specs.Plain.{plain_call};
ghost use Rattle.calls_writer.specs.Added.{Begun, Added};
ghost use Rattle.calls_writer.specs.Handed.{Few, call_width};
ghost use Rattle.calls_writer.specs.Listed.{Listed};
ghost use Rattle.calls_writer.specs.Opened.{Opened};
ghost use Rattle.calls_writer.specs.Closed.{Ready, closed};

use calls_reader::{
    Amount, Call, Consolidation, Exit, Receipt, Request, Withdrawals, calls_count, calls_file_ok,
};
use expected_withdrawals::Withdrawal;
use file_stores::{put_count, put_end, put_field, put_number, put_signature, put_word};
use primitives::answers::Refusal;

// ---- around each call

// Whether a call of so many words can be added.
fn open(out: &[u8], size: usize, width: usize) -> Result<(), Refusal>
    requires { width ≤ 258 }
    ensures { Opened size width out.now (answer_number result) }
{
    if out.len() < size {
        return Err(Refusal::BrokenFile);
    }
    if !calls_file_ok(&out[..size]) {
        return Err(Refusal::BrokenFile);
    }
    let count = calls_count(&out[..size]);
    if count >= 9_999 {
        return Err(Refusal::BrokenFile);
    }
    if out.len() - size < width * 4 {
        return Err(Refusal::WriterBufferShort);
    }
    Ok(())
}

// The code, kind 9.
fn put_code(out: &mut [u8], k: usize, code: u32)
    requires k_in_bounds { (k + 1) * 4 ≤ length out.old }
    requires code_bound { code ≤ 8 }
    ensures { out.new ≡ put out.old k (word 9 code ∷ []) }
{
    put_word(out, k, 0x9000_0000 + code);
}

// The count raised by one, and the end word behind the call's words, which stand where the old end word was. The
// file's length is answered.
fn close(out: &mut [u8], size: usize, width: usize) -> usize
    requires { Ready size width out.old }
    ensures { (out.new ≡ closed out.old (size / 4 - 1 + width)) × (result ≡ size + width * 4) }
{
    let count = calls_count(out);
    put_count(out, 1, count + 1);
    put_end(out, size / 4 - 1 + width);
    size + width * 4
}

// ---- the file of no calls

// Its length; refused with 61 where the buffer is shorter than its twelve bytes.
pub fn new_calls(out: &mut [u8]) -> Result<usize, Refusal>
    ensures { Begun out.old out.new (answer_number result) (answer_or 0 result) }
{
    if out.len() < 12 {
        return Err(Refusal::WriterBufferShort);
    }
    put_word(out, 0, 0x1000_0002);
    put_count(out, 1, 0);
    put_end(out, 2);
    Ok(12)
}

// ---- what is stored of each call

// Codes 1 and 2.
fn put_amount(out: &mut [u8], k: usize, code: u32, a: Amount)
    requires k_in_bounds { (k + 7) * 4 ≤ length out.old }
    requires code_bound { code ≤ 8 }
    ensures { out.new ≡ put out.old k (word 9 code ∷ amount_fields.write (a.i.0, a.amount.0)) }
{
    put_code(out, k, code);
    put_number(out, k + 1, a.i.0 as u64);
    put_number(out, k + 4, a.amount.0);
}

// Code 3.
fn put_receipt(out: &mut [u8], k: usize, r: Receipt)
    requires { (k + 35) * 4 ≤ length out.old }
    ensures { out.new
        ≡ put out.old k
        (call.write (deposit_receipt r.public_key r.withdrawal_credentials r.amount.0 r.index r.valid)) }
{
    put_code(out, k, 3);
    put_field(out, k + 1, &r.public_key);
    put_field(out, k + 17, &r.withdrawal_credentials);
    put_number(out, k + 28, r.amount.0);
    put_number(out, k + 31, r.index);
    put_signature(out, k + 34, r.valid);
}

// Code 4.
fn put_exit(out: &mut [u8], k: usize, e: Exit)
    requires { (k + 8) * 4 ≤ length out.old }
    ensures { out.new ≡ put out.old k (call.write (voluntary_exit e.i.0 e.epoch.0 e.valid)) }
{
    put_code(out, k, 4);
    put_number(out, k + 1, e.i.0 as u64);
    put_number(out, k + 4, e.epoch.0);
    put_signature(out, k + 7, e.valid);
}

// Code 5.
fn put_request(out: &mut [u8], k: usize, r: Request)
    requires { (k + 27) * 4 ≤ length out.old }
    ensures { out.new
        ≡ put out.old k (call.write (withdrawal_request r.source_address r.public_key r.amount.0)) }
{
    put_code(out, k, 5);
    put_field(out, k + 1, &r.source_address);
    put_field(out, k + 8, &r.public_key);
    put_number(out, k + 24, r.amount.0);
}

// Code 6.
fn put_consolidation(out: &mut [u8], k: usize, c: Consolidation)
    requires { (k + 11) * 4 ≤ length out.old }
    ensures { out.new
        ≡ put out.old k
        (call.write (consolidation c.source_index.0 c.target_index.0 c.epoch.0 c.valid)) }
{
    put_code(out, k, 6);
    put_number(out, k + 1, c.source_index.0 as u64);
    put_number(out, k + 4, c.target_index.0 as u64);
    put_number(out, k + 7, c.epoch.0);
    put_signature(out, k + 10, c.valid);
}

fn put_withdrawal(out: &mut [u8], k: usize, w: Withdrawal)
    requires { (k + 16) * 4 ≤ length out.old }
    ensures { out.new ≡ put out.old k (withdrawal.write (plain_withdrawal w)) }
{
    put_number(out, k, w.index.0);
    put_number(out, k + 3, w.validator_index.0 as u64);
    put_field(out, k + 6, &w.address);
    put_number(out, k + 13, w.amount.0);
}

// The first `count` of the sixteen records.
fn put_list(out: &mut [u8], k: usize, list: [Withdrawal; 16], count: usize)
    requires listed { Listed list }
    requires count_bound { count ≤ 16 }
    requires count_in_bounds { (k + count * 16) * 4 ≤ length out.old }
    ensures { out.new ≡ put out.old k (each withdrawal.write (handed_list list count)) }
{
    for i in 0..count {
        put_withdrawal(out, k + i * 16, list[i]);
    }
}

// Code 8.
fn put_withdrawals(out: &mut [u8], k: usize, w: Withdrawals)
    requires listed { Listed w.list }
    requires count_bound { w.count ≤ 16 }
    requires count_in_bounds { (k + (2 + w.count * 16)) * 4 ≤ length out.old }
    ensures { out.new ≡ put out.old k (call.write (withdrawals (handed_list w.list w.count))) }
{
    put_code(out, k, 8);
    put_count(out, k + 1, w.count);
    put_list(out, k + 2, w.list, w.count);
}

fn put_call(out: &mut [u8], k: usize, c: Call)
    requires writable { Few c }
    requires in_bounds { (k + call_width c) * 4 ≤ length out.old }
    ensures { out.new ≡ put out.old k (call.write (plain_call c)) }
{
    match c {
        Call::Reward(a) => put_amount(out, k, 1, a),
        Call::Penalty(a) => put_amount(out, k, 2, a),
        Call::DepositReceipt(r) => put_receipt(out, k, r),
        Call::VoluntaryExit(e) => put_exit(out, k, e),
        Call::WithdrawalRequest(r) => put_request(out, k, r),
        Call::Consolidation(c) => put_consolidation(out, k, c),
        Call::Turn => put_code(out, k, 7),
        Call::Withdrawals(w) => put_withdrawals(out, k, w),
    }
}

// ---- a call added

// How many words it has with its code; None where it lists more than 16 withdrawals.
fn call_width(c: Call) -> Option<usize>
    ensures { MatchOption result
        (call.domain (plain_call c) ≡ false)
        (λ w. Few c × (w ≡ call_width c)) }
{
    match c {
        Call::Reward(_) | Call::Penalty(_) => Some(7),
        Call::DepositReceipt(_) => Some(35),
        Call::VoluntaryExit(_) => Some(8),
        Call::WithdrawalRequest(_) => Some(27),
        Call::Consolidation(_) => Some(11),
        Call::Turn => Some(1),
        Call::Withdrawals(w) if w.count > 16 => None,
        Call::Withdrawals(w) => Some(2 + w.count * 16),
    }
}

// 60 too where the call lists more than 16 withdrawals.
pub fn add_call(out: &mut [u8], size: usize, call: Call) -> Result<usize, Refusal>
    ensures { Added (plain_call call) size out.old out.new (answer_number result) (answer_or size result) }
{
    let Some(width) = call_width(call) else {
        return Err(Refusal::BrokenFile);
    };
    open(out, size, width)?;
    put_call(out, size / 4 - 1, call);
    Ok(close(out, size, width))
}
