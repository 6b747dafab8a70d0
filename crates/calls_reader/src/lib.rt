// The reader of a calls file: whether lent bytes are one, and its calls one after another, from the words where they
// stand. Nothing is copied but what a call holds.

#![tactic(auto)]

ghost use Rattle.std.specs.Prelude.{◌≡◌, true, map, ◌+◌, ◌*◌, ◌≤◌, ◌<◌, ◌^◌, length, get_or, drop};
ghost use Rattle.rules.specs.Calls.{reward, penalty, deposit_receipt, voluntary_exit, withdrawal_request};
ghost use Rattle.rules.specs.Calls.{consolidation, withdrawals};
ghost use Rattle.expected_withdrawals.specs.Expected.{coded_withdrawal, padded, handed_list};
ghost use Rattle.file_format.specs.Words.{words, payload};
ghost use Rattle.file_format.specs.Fields.{many};
ghost use Rattle.file_format.specs.Calls.{receipt_fields, exit_fields, request_fields, consolidation_fields};
ghost use Rattle.file_format.specs.Calls.{withdrawal, withdrawals_fields, call, calls_format};
ghost use Rattle.file_format.specs.File.{file_ok};
ghost use Rattle.file_format.specs.Places.{count_at};
ghost use Rattle.calls_reader.specs.Widths.{fields_width, code_of};
ghost use Rattle.calls_reader.specs.Laws.{fields_ok, calls_end_ok};
ghost use Rattle.calls_reader.specs.Plain.{kind_code, plain_call, BlankBehind};

use expected_withdrawals::{ExpectedWithdrawals, Withdrawal};
use file_bytes::field_at;
use file_words::{
    behind, count_at, end_ok, field_ok, flag_at, flag_ok, is_word, number_at, number_ok,
    numbers_ok, word_at,
};
use primitives::{Epoch, Gwei, ValidatorIndex, WithdrawalIndex};

// ---- whether the fields of a call stand at the front of what is left of a file, by its code

fn receipt_ok(rest: &[u8]) -> bool
    ensures { result ≡ receipt_fields.ok (words rest.now) }
{
    let key = field_ok(rest, 48);
    let credentials = field_ok(behind(rest, 16), 32);
    let numbers = numbers_ok(behind(rest, 27), 2);
    let valid = flag_ok(behind(rest, 33));
    key & credentials & numbers & valid
}

fn exit_ok(rest: &[u8]) -> bool
    ensures { result ≡ exit_fields.ok (words rest.now) }
{
    numbers_ok(rest, 2) & flag_ok(behind(rest, 6))
}

fn request_ok(rest: &[u8]) -> bool
    ensures { result ≡ request_fields.ok (words rest.now) }
{
    let address = field_ok(rest, 20);
    let key = field_ok(behind(rest, 7), 48);
    address & key & number_ok(behind(rest, 23))
}

fn consolidation_ok(rest: &[u8]) -> bool
    ensures { result ≡ consolidation_fields.ok (words rest.now) }
{
    numbers_ok(rest, 3) & flag_ok(behind(rest, 9))
}

fn withdrawal_ok(rest: &[u8]) -> bool
    ensures { result ≡ withdrawal.ok (words rest.now) }
{
    let numbers = numbers_ok(rest, 2);
    let address = field_ok(behind(rest, 6), 20);
    numbers & address & number_ok(behind(rest, 13))
}

// n withdrawals.
// The bound on n stays a clause, which a count of 28 bits has: it keeps `i * 16` within 64 bits.
fn withdrawal_list_ok(rest: &[u8], n: usize) -> bool
    requires { n < 2 ^ 28 }
    ensures { result ≡ (many withdrawal n).ok (words rest.now) }
{
    (0..n).all(|i| withdrawal_ok(behind(rest, i * 16)))
}

// A count to 16, and as many withdrawals.
fn withdrawals_ok(rest: &[u8]) -> bool
    ensures { result ≡ withdrawals_fields.ok (words rest.now) }
{
    let count = is_word(2, 17, word_at(rest, 0));
    let n = count_at(rest);
    count & withdrawal_list_ok(behind(rest, 1), n)
}

fn fields_ok(rest: &[u8], code: u32) -> bool
    ensures { result ≡ fields_ok code (words rest.now) }
{
    match code {
        1 => numbers_ok(rest, 2),
        2 => numbers_ok(rest, 2),
        3 => receipt_ok(rest),
        4 => exit_ok(rest),
        5 => request_ok(rest),
        6 => consolidation_ok(rest),
        7 => true,
        8 => withdrawals_ok(rest),
        _ => false,
    }
}

// ---- the call at the front of what is left of a file

pub fn code_at(rest: &[u8]) -> u32
    ensures { result ≡ payload (get_or (words rest.now) 0 0) }
{
    word_at(rest, 0) % 0x1000_0000
}

// Whether a call stands there.
pub fn call_ok(rest: &[u8]) -> bool
    ensures { result ≡ call.ok (words rest.now) }
{
    let w = word_at(rest, 0);
    let code = is_word(9, 9, w);
    code & fields_ok(behind(rest, 1), w % 0x1000_0000)
}

// The words of its fields.
fn fields_width(rest: &[u8], code: u32) -> usize
    ensures { result ≡ fields_width code (words rest.now) }
{
    match code {
        1 => 6,
        2 => 6,
        3 => 34,
        4 => 7,
        5 => 26,
        6 => 10,
        8 => 1 + count_at(rest) * 16,
        _ => 0,
    }
}

// Which call it is, by its code.
#[derive(Clone, Copy, PartialEq, Eq)]
pub enum Kind {
    Reward = 1,
    Penalty,
    DepositReceipt,
    VoluntaryExit,
    WithdrawalRequest,
    Consolidation,
    Turn,
    Withdrawals,
}

// A call that was judged good: the bytes of its file from its code on.
#[derive(Clone, Copy)]
pub struct EncodedCall<'a> {
    pub rest: &'a [u8],
    ghost good: { call.ok (words rest.now) ≡ true },
}

// ---- what a call holds

// Reward and penalty.
#[derive(Clone, Copy)]
pub struct Amount {
    pub i: ValidatorIndex,
    pub amount: Gwei,
}

#[derive(Clone, Copy)]
pub struct Receipt {
    pub public_key: [u8; 48],
    pub withdrawal_credentials: [u8; 32],
    pub amount: Gwei,
    pub index: u64,
    pub valid: bool,
}

#[derive(Clone, Copy)]
pub struct Exit {
    pub i: ValidatorIndex,
    pub epoch: Epoch,
    pub valid: bool,
}

#[derive(Clone, Copy)]
pub struct Request {
    pub source_address: [u8; 20],
    pub public_key: [u8; 48],
    pub amount: Gwei,
}

#[derive(Clone, Copy)]
pub struct Consolidation {
    pub source_index: ValidatorIndex,
    pub target_index: ValidatorIndex,
    pub epoch: Epoch,
    pub valid: bool,
}

// Of the sixteen records the first `count` are withdrawals and the others are blank.
// The array stays beside a count: there is no heap, and a caller hands both on to the call of the library.
#[derive(Clone, Copy)]
pub struct Withdrawals {
    pub list: [Withdrawal; 16],
    pub count: usize,
}

// A call with what it holds. `plain_call` gives the rules' operation of each.
#[derive(Clone, Copy)]
pub enum Call {
    Reward(Amount),
    Penalty(Amount),
    DepositReceipt(Receipt),
    VoluntaryExit(Exit),
    WithdrawalRequest(Request),
    Consolidation(Consolidation),
    Turn,
    Withdrawals(Withdrawals),
}

// One withdrawal.
fn withdrawal_at(rest: &[u8]) -> Withdrawal
    requires { withdrawal.ok (words rest.now) ≡ true }
    ensures { result ≡ coded_withdrawal (withdrawal.value (words rest.now)) }
{
    Withdrawal {
        index: WithdrawalIndex(number_at(rest)),
        validator_index: ValidatorIndex(number_at(behind(rest, 3)) as usize),
        address: field_at(behind(rest, 6)),
        amount: Gwei(number_at(behind(rest, 13))),
    }
}

impl<'a> EncodedCall<'a> {
    pub fn kind(self) -> Kind
        ensures { kind_code result ≡ code_of (words self.entry.rest.now) }
    {
        match code_at(self.rest) {
            1 => Kind::Reward,
            2 => Kind::Penalty,
            3 => Kind::DepositReceipt,
            4 => Kind::VoluntaryExit,
            5 => Kind::WithdrawalRequest,
            6 => Kind::Consolidation,
            8 => Kind::Withdrawals,
            _ => Kind::Turn, // 7, the one code left
        }
    }

    // What stands behind it.
    pub fn next(self) -> &'a [u8]
        ensures { words result.now ≡ call.rest (words self.entry.rest.now) }
    {
        let fields = behind(self.rest, 1);
        behind(fields, fields_width(fields, code_at(self.rest)))
    }

    // Of a reward or a penalty.
    pub fn amount(self) -> Amount
        requires { (0 < code_of (words self.rest.now)) × (code_of (words self.rest.now) ≤ 2) }
        ensures { (code_of (words self.entry.rest.now) ≡ 1
            → reward result.i.0 result.amount.0 ≡ call.value (words self.entry.rest.now))
            × (code_of (words self.entry.rest.now) ≡ 2
            → penalty result.i.0 result.amount.0 ≡ call.value (words self.entry.rest.now)) }
    {
        Amount {
            i: ValidatorIndex(number_at(behind(self.rest, 1)) as usize),
            amount: Gwei(number_at(behind(self.rest, 4))),
        }
    }

    pub fn receipt(self) -> Receipt
        requires { code_of (words self.rest.now) ≡ 3 }
        ensures { deposit_receipt result.public_key result.withdrawal_credentials result.amount.0 result.index
            result.valid
            ≡ call.value (words self.entry.rest.now) }
    {
        Receipt {
            public_key: field_at(behind(self.rest, 1)),
            withdrawal_credentials: field_at(behind(self.rest, 17)),
            amount: Gwei(number_at(behind(self.rest, 28))),
            index: number_at(behind(self.rest, 31)),
            valid: flag_at(behind(self.rest, 34)) == 1,
        }
    }

    pub fn exit(self) -> Exit
        requires { code_of (words self.rest.now) ≡ 4 }
        ensures { voluntary_exit result.i.0 result.epoch.0 result.valid ≡ call.value (words self.entry.rest.now) }
    {
        Exit {
            i: ValidatorIndex(number_at(behind(self.rest, 1)) as usize),
            epoch: Epoch(number_at(behind(self.rest, 4))),
            valid: flag_at(behind(self.rest, 7)) == 1,
        }
    }

    pub fn request(self) -> Request
        requires { code_of (words self.rest.now) ≡ 5 }
        ensures { withdrawal_request result.source_address result.public_key result.amount.0
            ≡ call.value (words self.entry.rest.now) }
    {
        Request {
            source_address: field_at(behind(self.rest, 1)),
            public_key: field_at(behind(self.rest, 8)),
            amount: Gwei(number_at(behind(self.rest, 24))),
        }
    }

    pub fn consolidation(self) -> Consolidation
        requires { code_of (words self.rest.now) ≡ 6 }
        ensures { consolidation result.source_index.0 result.target_index.0 result.epoch.0 result.valid
            ≡ call.value (words self.entry.rest.now) }
    {
        Consolidation {
            source_index: ValidatorIndex(number_at(behind(self.rest, 1)) as usize),
            target_index: ValidatorIndex(number_at(behind(self.rest, 4)) as usize),
            epoch: Epoch(number_at(behind(self.rest, 7))),
            valid: flag_at(behind(self.rest, 10)) == 1,
        }
    }

    pub fn withdrawals(self) -> Withdrawals
        requires { code_of (words self.rest.now) ≡ 8 }
        ensures { (withdrawals (handed_list result.list result.count) ≡ call.value (words self.entry.rest.now))
            × (result.list ≡ map coded_withdrawal (padded 16 (handed_list result.list result.count))) }
    {
        let count = count_at(behind(self.rest, 1));
        let none = ExpectedWithdrawals::none();
        let mut list = none.list;
        for i in 0..count {
            list[i] = withdrawal_at(behind(self.rest, 2 + i * 16));
        }
        Withdrawals { list, count }
    }

    // The call with what it holds.
    pub fn call(self) -> Call
        ensures operation { plain_call result ≡ call.value (words self.entry.rest.now) }
        ensures blank { BlankBehind result }
    {
        match self.kind() {
            Kind::Reward => Call::Reward(self.amount()),
            Kind::Penalty => Call::Penalty(self.amount()),
            Kind::DepositReceipt => Call::DepositReceipt(self.receipt()),
            Kind::VoluntaryExit => Call::VoluntaryExit(self.exit()),
            Kind::WithdrawalRequest => Call::WithdrawalRequest(self.request()),
            Kind::Consolidation => Call::Consolidation(self.consolidation()),
            Kind::Turn => Call::Turn,
            Kind::Withdrawals => Call::Withdrawals(self.withdrawals()),
        }
    }
}

// ---- the file

// How many calls it holds, by the word that says so.
pub fn calls_count(file: &[u8]) -> usize
    ensures { result ≡ count_at (words file.now) 1 }
{
    count_at(behind(file, 1))
}

// From the first call on.
pub fn calls_from(file: &[u8]) -> &[u8]
    ensures { words result.now ≡ drop 2 (words file.now) }
{
    behind(file, 2)
}

// Whether n calls stand there, then the end word, and nothing after it.
fn calls_end_ok(file: &[u8], n: usize) -> bool
    ensures { result ≡ calls_end_ok (words file.now) n (drop 2 (words file.now)) }
{
    let mut rest = calls_from(file);
    for _i in 0..n {
        if !call_ok(rest) {
            return false;
        }
        rest = EncodedCall { rest }.next();
    }
    end_ok(file, rest)
}

// Whether these bytes are a calls file; where they are not, the answer is 60.
pub fn calls_file_ok(file: &[u8]) -> bool
    ensures { result ≡ file_ok calls_format file.now }
{
    let whole = file.len() % 4 == 0;
    let head = word_at(file, 0) == 0x1000_0002;
    let count = is_word(2, 10_000, word_at(file, 1));
    let n = calls_count(file);
    whole & head & count & calls_end_ok(file, n)
}
