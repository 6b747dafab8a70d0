// The rest of electra/epoch_processing.rs: the effective balances, and the turn made of the three steps.

#![tactic(auto)]

pub mod effective_balances; // process_effective_balance_updates

ghost use Rattle.std.specs.Prelude.{◌≡◌, true, ◌+◌, ◌≤◌, length};
ghost use Rattle.rules.specs.Types.{BOUND};
ghost use Rattle.rules.specs.Helpers.{get_activation_exit_churn_limit};
ghost use Rattle.rules.specs.EpochProcessing as rule;
ghost use Rattle.rules.specs.Acceptance.{sound_books};
ghost use Rattle.rules.specs.Calls.{enough_room};
ghost use Rattle.primitives.specs.Settings.{settings_of};
ghost use Rattle.records.specs.Books.{Stepped, books_of, room_of, tables};

use primitives::sound::SoundSettings;
use primitives::{Epoch, Gwei, Scalars};

// The three steps, then the next epoch. The epoch and the deposit queue that the turn leaves are known to be within
// their bounds.
// The tables stay apart: the call writes some and only reads the others, as C lends them.
pub fn turn(
    sound: SoundSettings,
    scalars: Scalars,
    identities: &mut [u8],
    validators: &mut [u64],
    deposits: &mut [u64],
    partials: &[u64],
    consolidations: &mut [u64],
    allowance: Gwei,
) -> Scalars
    requires room { enough_room (settings_of sound.settings)
        (room_of (tables identities.old validators.old deposits.old partials.now consolidations.old))
        ≡ true }
    requires books_are_sound { sound_books (settings_of sound.settings)
        (books_of scalars
        (tables identities.old validators.old deposits.old partials.now consolidations.old))
        ≡ true }
    requires allowance_is_limit { allowance.0 ≡ get_activation_exit_churn_limit (settings_of sound.settings)
        (books_of scalars
        (tables identities.old validators.old deposits.old partials.now consolidations.old)) }
    requires epoch_fits { scalars.epoch.0 + 1 ≤ BOUND }
    requires queue_fits { length (rule.turn (settings_of sound.settings)
        (books_of scalars
        (tables identities.old validators.old deposits.old partials.now consolidations.old))
        ).pending_balance_deposits
        ≤ sound.settings.pending_balance_deposits_limit }
    ensures { Stepped (rule.turn (settings_of sound.settings)) scalars
        (tables identities.old validators.old deposits.old
        partials.now consolidations.old)
        (tables identities.new validators.new deposits.new
        partials.now consolidations.new) result }
{
    let credited = pending_deposits::process_pending_balance_deposits(
        sound,
        scalars,
        identities,
        validators,
        deposits,
        partials,
        consolidations,
        allowance,
    );
    let consolidated = pending_consolidations::process_pending_consolidations(
        sound.settings,
        credited,
        identities,
        validators,
        deposits,
        partials,
        consolidations,
    );
    let updated = effective_balances::process_effective_balance_updates(
        sound,
        consolidated,
        identities,
        validators,
    );
    let epoch = Epoch(updated.epoch.0 + 1);
    Scalars { epoch, ..updated }
}
