// Settings and scalars as rows of numbers, in the order of their structs.
ghost use Rattle.std.specs.Prelude.{◌≡◌};
ghost use Rattle.primitives.specs.Numbers.{settings_in, setting_numbers, scalars_in, scalar_numbers};

use crate::{Epoch, Gwei, Scalars, Settings, ValidatorIndex, WithdrawalIndex};

impl From<[u64; 19]> for Settings {
    ghost from_gives = { λ numbers settings. settings ≡ settings_in numbers };

    fn from(n: [u64; 19]) -> Settings {
        Settings {
            min_activation_balance: Gwei(n[0]),
            max_effective_balance_electra: Gwei(n[1]),
            effective_balance_increment: Gwei(n[2]),
            min_per_epoch_churn_limit_electra: Gwei(n[3]),
            max_per_epoch_activation_exit_churn_limit: Gwei(n[4]),
            churn_limit_quotient: n[5],
            shard_committee_period: n[6],
            min_validator_withdrawability_delay: n[7],
            max_seed_lookahead: n[8],
            hysteresis_quotient: n[9],
            hysteresis_downward_multiplier: n[10],
            hysteresis_upward_multiplier: n[11],
            max_pending_partials_per_withdrawals_sweep: n[12] as usize,
            max_withdrawals_per_payload: n[13] as usize,
            max_validators_per_withdrawals_sweep: n[14] as usize,
            validator_registry_limit: n[15] as usize,
            pending_balance_deposits_limit: n[16] as usize,
            pending_partial_withdrawals_limit: n[17] as usize,
            pending_consolidations_limit: n[18] as usize,
        }
    }
}

impl From<Settings> for [u64; 19] {
    ghost from_gives = { λ settings numbers. numbers ≡ setting_numbers settings };

    fn from(s: Settings) -> [u64; 19] {
        [
            s.min_activation_balance.0,
            s.max_effective_balance_electra.0,
            s.effective_balance_increment.0,
            s.min_per_epoch_churn_limit_electra.0,
            s.max_per_epoch_activation_exit_churn_limit.0,
            s.churn_limit_quotient,
            s.shard_committee_period,
            s.min_validator_withdrawability_delay,
            s.max_seed_lookahead,
            s.hysteresis_quotient,
            s.hysteresis_downward_multiplier,
            s.hysteresis_upward_multiplier,
            s.max_pending_partials_per_withdrawals_sweep as u64,
            s.max_withdrawals_per_payload as u64,
            s.max_validators_per_withdrawals_sweep as u64,
            s.validator_registry_limit as u64,
            s.pending_balance_deposits_limit as u64,
            s.pending_partial_withdrawals_limit as u64,
            s.pending_consolidations_limit as u64,
        ]
    }
}

impl From<[u64; 13]> for Scalars {
    ghost from_gives = { λ numbers scalars. scalars ≡ scalars_in numbers };

    fn from(n: [u64; 13]) -> Scalars {
        Scalars {
            epoch: Epoch(n[0]),
            next_withdrawal_index: WithdrawalIndex(n[1]),
            next_withdrawal_validator_index: ValidatorIndex(n[2] as usize),
            deposit_receipts_start_index: n[3],
            deposit_balance_to_consume: Gwei(n[4]),
            exit_balance_to_consume: Gwei(n[5]),
            earliest_exit_epoch: Epoch(n[6]),
            consolidation_balance_to_consume: Gwei(n[7]),
            earliest_consolidation_epoch: Epoch(n[8]),
            validators: n[9] as usize,
            deposits: n[10] as usize,
            partials: n[11] as usize,
            consolidations: n[12] as usize,
        }
    }
}

impl From<Scalars> for [u64; 13] {
    ghost from_gives = { λ scalars numbers. numbers ≡ scalar_numbers scalars };

    fn from(s: Scalars) -> [u64; 13] {
        [
            s.epoch.0,
            s.next_withdrawal_index.0,
            s.next_withdrawal_validator_index.0 as u64,
            s.deposit_receipts_start_index,
            s.deposit_balance_to_consume.0,
            s.exit_balance_to_consume.0,
            s.earliest_exit_epoch.0,
            s.consolidation_balance_to_consume.0,
            s.earliest_consolidation_epoch.0,
            s.validators as u64,
            s.deposits as u64,
            s.partials as u64,
            s.consolidations as u64,
        ]
    }
}
