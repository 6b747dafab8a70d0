// Units, settings, scalars, and the constant rows of chain values.

#![tactic(auto)]

pub mod answers; // the causes of a refusal, with their numbers
pub mod sound; // settings that passed their tests
mod numbers; // settings and scalars as rows of numbers

ghost use Rattle.std.specs.Prelude.{◌≡◌};
ghost use Rattle.rules.specs.Profiles.{mainnet_row};
ghost use Rattle.primitives.specs.Profiles.{row_settings};

// An epoch that never comes; also the receipt start that is not set.
pub const FAR_FUTURE_EPOCH: u64 = 0xffff_ffff_ffff_ffff;

// The bound of sums, of epochs other than FAR_FUTURE_EPOCH, and of scalars: 2^62.
pub const BOUND: u64 = 0x4000_0000_0000_0000;

// The aliases of the Rust, as separate kinds of unit.
#[derive(Clone, Copy, Debug, PartialEq, Eq, PartialOrd, Ord)]
pub struct Gwei(pub u64);

#[derive(Clone, Copy, Debug, PartialEq, Eq, PartialOrd, Ord)]
pub struct Epoch(pub u64);

#[derive(Clone, Copy, Debug, PartialEq, Eq, PartialOrd, Ord)]
pub struct ValidatorIndex(pub usize);

#[derive(Clone, Copy, Debug, PartialEq, Eq, PartialOrd, Ord)]
pub struct WithdrawalIndex(pub u64);

// The fifteen chain values, then the limits of the registry and of the three queues.
#[derive(Clone, Copy)]
pub struct Settings {
    pub min_activation_balance: Gwei,
    pub max_effective_balance_electra: Gwei,
    pub effective_balance_increment: Gwei,
    pub min_per_epoch_churn_limit_electra: Gwei,
    pub max_per_epoch_activation_exit_churn_limit: Gwei,
    pub churn_limit_quotient: u64,
    pub shard_committee_period: u64,
    pub min_validator_withdrawability_delay: u64,
    pub max_seed_lookahead: u64,
    pub hysteresis_quotient: u64,
    pub hysteresis_downward_multiplier: u64,
    pub hysteresis_upward_multiplier: u64,
    pub max_pending_partials_per_withdrawals_sweep: usize,
    pub max_withdrawals_per_payload: usize,
    pub max_validators_per_withdrawals_sweep: usize,
    pub validator_registry_limit: usize,
    pub pending_balance_deposits_limit: usize,
    pub pending_partial_withdrawals_limit: usize,
    pub pending_consolidations_limit: usize,
}

// The numbers of the books that stand in no table, then how many records each table holds.
#[derive(Clone, Copy)]
pub struct Scalars {
    pub epoch: Epoch,
    pub next_withdrawal_index: WithdrawalIndex,
    pub next_withdrawal_validator_index: ValidatorIndex,
    pub deposit_receipts_start_index: u64,
    pub deposit_balance_to_consume: Gwei,
    pub exit_balance_to_consume: Gwei,
    pub earliest_exit_epoch: Epoch,
    pub consolidation_balance_to_consume: Gwei,
    pub earliest_consolidation_epoch: Epoch,
    pub validators: usize,
    pub deposits: usize,
    pub partials: usize,
    pub consolidations: usize,
}

// The fifteen chain values of mainnet, in the order of the settings.
pub const MAINNET: [u64; 15] = [
    32_000_000_000,
    2_048_000_000_000,
    1_000_000_000,
    128_000_000_000,
    256_000_000_000,
    65536,
    256,
    256,
    4,
    4,
    1,
    5,
    8,
    16,
    16384,
];

impl Settings {
    // A row of chain values, with the limits of the registry and of the three queues. It stays a function of its own:
    // `From` would take all five as one tuple.
    pub fn from_row(
        row: [u64; 15],
        registry: usize,
        deposits: usize,
        partials: usize,
        consolidations: usize,
    ) -> Settings
        ensures { result ≡ row_settings row registry deposits partials consolidations }
    {
        Settings {
            min_activation_balance: Gwei(row[0]),
            max_effective_balance_electra: Gwei(row[1]),
            effective_balance_increment: Gwei(row[2]),
            min_per_epoch_churn_limit_electra: Gwei(row[3]),
            max_per_epoch_activation_exit_churn_limit: Gwei(row[4]),
            churn_limit_quotient: row[5],
            shard_committee_period: row[6],
            min_validator_withdrawability_delay: row[7],
            max_seed_lookahead: row[8],
            hysteresis_quotient: row[9],
            hysteresis_downward_multiplier: row[10],
            hysteresis_upward_multiplier: row[11],
            max_pending_partials_per_withdrawals_sweep: row[12] as usize,
            max_withdrawals_per_payload: row[13] as usize,
            max_validators_per_withdrawals_sweep: row[14] as usize,
            validator_registry_limit: registry,
            pending_balance_deposits_limit: deposits,
            pending_partial_withdrawals_limit: partials,
            pending_consolidations_limit: consolidations,
        }
    }

    // The mainnet row, with four limits.
    // The four limits stay parameters: `from_row` alone takes them together too.
    pub fn mainnet(
        registry: usize,
        deposits: usize,
        partials: usize,
        consolidations: usize,
    ) -> Settings
        ensures { result ≡ row_settings mainnet_row registry deposits partials consolidations }
    {
        Settings::from_row(MAINNET, registry, deposits, partials, consolidations)
    }
}
