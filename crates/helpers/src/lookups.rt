// A validator by its key, and what its waiting partial withdrawals owe it.
ghost use Rattle.std.specs.Prelude.{◌≡◌, List, ℕ, ◌≤◌};
ghost use Rattle.rules.specs.Helpers.{position, owed_to, get_pending_balance_to_withdraw};
ghost use Rattle.records.specs.Layout.{identities_fit};
ghost use Rattle.records.specs.Plain.{plain_partial};
ghost use Rattle.records.specs.Books.{tables, books_of};
ghost use Rattle.helpers.specs.Ready.{Partials};
ghost use Rattle.helpers.specs.Found.{Finds};

use primitives::{Gwei, Scalars, ValidatorIndex};
use records::queues::PendingPartialWithdrawal;

// The first validator with this key.
#[tactic(auto, using(crate::proofs::Loops::position_loop), unfolding(records::specs::Books::books_of))]
pub fn position(scalars: Scalars, identities: &[u8], public_key: [u8; 48]) -> Option<ValidatorIndex>
    requires { scalars.validators ≤ identities_fit identities.now }
    ensures { (vs ds ps cs : List ℕ)
        → Finds result scalars.validators
        (position public_key (books_of scalars (tables identities.now vs ds ps cs)).validators) }
{
    for i in 0..scalars.validators {
        if records::registry::has_public_key(identities, ValidatorIndex(i), public_key) {
            return Some(ValidatorIndex(i));
        }
    }
    None
}

fn owed_to(i: ValidatorIndex, p: PendingPartialWithdrawal) -> Gwei
    ensures { result.0 ≡ owed_to i.0 (plain_partial p) }
{
    if p.index.0 == i.0 { p.amount } else { Gwei(0) }
}

// Partials stays a clause: it ties the scalars to a table that callers write.
#[tactic(auto, using(crate::proofs::Loops::owed_loop), unfolding(records::specs::Books::books_of))]
pub fn get_pending_balance_to_withdraw(
    scalars: Scalars,
    partials: &[u64],
    i: ValidatorIndex,
) -> Gwei
    requires { Partials scalars partials.now }
    ensures { (ids vs ds cs : List ℕ)
        → result.0 ≡ get_pending_balance_to_withdraw
        (books_of scalars (tables ids vs ds partials.now cs)) i.0 }
{
    let mut sum = 0;
    for k in 0..scalars.partials {
        let p: PendingPartialWithdrawal = records::queues::entry_at(partials, k);
        sum += owed_to(i, p).0;
    }
    Gwei(sum)
}
