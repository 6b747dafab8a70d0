// The validator record, and its tests as methods.
ghost use Rattle.std.specs.Prelude.{◌≡◌};
ghost use Rattle.rules.specs.Helpers.{has_eth1_withdrawal_credential, has_compounding_withdrawal_credential};
ghost use Rattle.rules.specs.Helpers.{has_execution_withdrawal_credential, get_validator_max_effective_balance};
ghost use Rattle.rules.specs.Helpers.{is_fully_withdrawable_validator, is_partially_withdrawable_validator};
ghost use Rattle.rules.specs.Helpers.{is_active_validator, withdrawal_address};
ghost use Rattle.primitives.specs.Settings.{settings_of};
ghost use Rattle.records.specs.Plain.{plain_validator, validator_words};

use crate::bytes::bytes_at;
use primitives::{Epoch, Gwei, Settings};

// A flag in `slashed`: 0 or 1.
#[derive(Clone, Copy)]
pub struct Validator {
    pub public_key: [u8; 48],
    pub withdrawal_credentials: [u8; 32],
    pub slashed: u64,
    pub effective_balance: Gwei,
    pub activation_eligibility_epoch: Epoch,
    pub activation_epoch: Epoch,
    pub exit_epoch: Epoch,
    pub withdrawable_epoch: Epoch,
    pub balance: Gwei,
}

impl Validator {
    pub fn has_eth1_withdrawal_credential(self) -> bool
        ensures { result ≡ has_eth1_withdrawal_credential (plain_validator self) }
    {
        self.withdrawal_credentials[0] == 1
    }

    pub fn has_compounding_withdrawal_credential(self) -> bool
        ensures { result ≡ has_compounding_withdrawal_credential (plain_validator self) }
    {
        self.withdrawal_credentials[0] == 2
    }

    pub fn has_execution_withdrawal_credential(self) -> bool
        ensures { result ≡ has_execution_withdrawal_credential (plain_validator self) }
    {
        self.has_compounding_withdrawal_credential() || self.has_eth1_withdrawal_credential()
    }

    pub fn get_validator_max_effective_balance(self, settings: Settings) -> Gwei
        ensures { result.0 ≡ get_validator_max_effective_balance (settings_of settings) (plain_validator self) }
    {
        if self.has_compounding_withdrawal_credential() {
            settings.max_effective_balance_electra
        } else {
            settings.min_activation_balance
        }
    }

    #[tactic(auto, unfolding(rules::specs::Helpers::is_fully_withdrawable_validator))]
    pub fn is_fully_withdrawable_validator(self, epoch: Epoch) -> bool
        ensures { result ≡ is_fully_withdrawable_validator epoch.0 (plain_validator self) }
    {
        self.has_execution_withdrawal_credential()
            && (self.withdrawable_epoch.0 <= epoch.0 && 0 < self.balance.0)
    }

    #[tactic(auto, unfolding(rules::specs::Helpers::is_partially_withdrawable_validator))]
    pub fn is_partially_withdrawable_validator(self, settings: Settings) -> bool
        ensures { result ≡ is_partially_withdrawable_validator (settings_of settings) (plain_validator self) }
    {
        let max = self.get_validator_max_effective_balance(settings);
        self.has_execution_withdrawal_credential()
            && (self.effective_balance.0 == max.0 && max.0 < self.balance.0)
    }

    pub fn is_active_validator(self, epoch: Epoch) -> bool
        ensures { result ≡ is_active_validator epoch.0 (plain_validator self) }
    {
        self.activation_epoch.0 <= epoch.0 && epoch.0 < self.exit_epoch.0
    }

    // The last twenty bytes of the credentials.
    pub fn withdrawal_address(self) -> [u8; 20]
        ensures { result ≡ withdrawal_address (plain_validator self) }
    {
        bytes_at(&self.withdrawal_credentials, 12)
    }

    // In the order of the registry's columns.
    pub fn words(self) -> [u64; 7]
        ensures { result ≡ validator_words (plain_validator self) }
    {
        [
            self.slashed,
            self.effective_balance.0,
            self.activation_eligibility_epoch.0,
            self.activation_epoch.0,
            self.exit_epoch.0,
            self.withdrawable_epoch.0,
            self.balance.0,
        ]
    }
}
