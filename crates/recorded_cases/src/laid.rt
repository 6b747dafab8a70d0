// Books of a file laid into lent tables as they are, sound or not: for what no reader accepts. What a table has no room
// for is left out.
ghost use Rattle.std.specs.Prelude.{◌<◌, ◌≤◌};

use crate::books::{Books, Lent, Tables};
use primitives::{Epoch, Gwei, Scalars, Settings, ValidatorIndex, WithdrawalIndex};
use records::registry::{identities_fit, push_validator, validators_fit};
use records::validator::Validator;

// The words of a file from here on; behind its end they are 0.
#[derive(Drop)]
struct Fields<'a>(&'a [u8]);

impl Fields<'_> {
    fn word(&mut self) -> u32 {
        match self.0.split_first_chunk::<4>() {
            Some((word, rest)) => {
                self.0 = rest;
                u32::from_le_bytes(*word)
            }
            None => 0,
        }
    }

    fn count(&mut self) -> usize {
        (self.word() % 0x1000_0000) as usize
    }

    // Goes past n records of so many words. They are not looked at: a count says nothing of how many stand there.
    fn skip(&mut self, n: usize, words: usize) {
        let bytes = n.saturating_mul(words).saturating_mul(4);
        self.0 = &self.0[bytes.min(self.0.len())..];
    }

    fn number(&mut self) -> u64 {
        let low = self.word() % 0x1000_0000;
        let middle = self.word() % 0x1000_0000;
        let top = self.word() % 256;
        u64::from(top) << 56 | u64::from(middle) << 28 | u64::from(low)
    }

    fn index(&mut self) -> ValidatorIndex {
        ValidatorIndex(self.number() as usize)
    }

    // Three bytes a word, the first highest.
    fn bytes<const N: usize>(&mut self) -> [u8; N] {
        let mut out = [0; N];
        for three in out.chunks_mut(3) {
            let [_, a, b, c] = self.word().to_be_bytes();
            for (to, from) in three.iter_mut().zip([a, b, c]) {
                *to = from;
            }
        }
        out
    }

    fn settings(&mut self) -> Settings {
        let mut row = [0; 15];
        for value in &mut row {
            *value = self.number();
        }
        let registry = self.number() as usize;
        let deposits = self.number() as usize;
        let partials = self.number() as usize;
        let consolidations = self.number() as usize;
        Settings::from_row(row, registry, deposits, partials, consolidations)
    }

    // With empty tables.
    fn scalars(&mut self) -> Scalars {
        Scalars {
            epoch: Epoch(self.number()),
            next_withdrawal_index: WithdrawalIndex(self.number()),
            next_withdrawal_validator_index: self.index(),
            deposit_receipts_start_index: self.number(),
            deposit_balance_to_consume: Gwei(self.number()),
            exit_balance_to_consume: Gwei(self.number()),
            earliest_exit_epoch: Epoch(self.number()),
            consolidation_balance_to_consume: Gwei(self.number()),
            earliest_consolidation_epoch: Epoch(self.number()),
            validators: 0,
            deposits: 0,
            partials: 0,
            consolidations: 0,
        }
    }

    fn validator(&mut self) -> Validator {
        Validator {
            public_key: self.bytes(),
            withdrawal_credentials: self.bytes(),
            slashed: self.count() as u64,
            effective_balance: Gwei(self.number()),
            activation_eligibility_epoch: Epoch(self.number()),
            activation_epoch: Epoch(self.number()),
            exit_epoch: Epoch(self.number()),
            withdrawable_epoch: Epoch(self.number()),
            balance: Gwei(self.number()),
        }
    }

    // The counted validators, and how many they are.
    fn validators(&mut self, identities: &mut [u8], validators: &mut [u64]) -> usize {
        let n = self.count();
        let room = n
            .min(identities_fit(identities))
            .min(validators_fit(validators));
        for i in 0..room {
            let validator = self.validator();
            if i < identities_fit(identities) && i < validators_fit(validators) {
                push_validator(identities, validators, i, validator);
            }
        }
        self.skip(n - room, 46);
        n
    }

    // The counted records of a queue, which has W words a record as the file has W numbers, and how many they are.
    fn queue<const W: usize>(&mut self, table: &mut [u64]) -> usize
        requires { (0 < W) × (W ≤ 3) }
    {
        let n = self.count();
        let (records, _) = table.as_chunks_mut::<W>();
        let room = n.min(records.len());
        for record in &mut records[..room] {
            for word in record {
                *word = self.number();
            }
        }
        self.skip(n - room, 3 * W);
        n
    }
}

// Settings, scalars and the four lists.
pub fn lay<'a>(file: &[u8], tables: &'a mut Tables) -> Books<'a> {
    let mut fields = Fields(file);
    let _head = fields.word();
    let settings = fields.settings();
    let mut scalars = fields.scalars();
    let Lent {
        identities,
        validators,
        deposits,
        partials,
        consolidations,
    } = tables.lend();
    scalars.validators = fields.validators(identities, validators);
    scalars.deposits = fields.queue::<2>(deposits);
    scalars.partials = fields.queue::<3>(partials);
    scalars.consolidations = fields.queue::<2>(consolidations);
    Books {
        settings,
        scalars,
        tables,
    }
}
