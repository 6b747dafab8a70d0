// A reward, for other languages.
ghost use Rattle.std.specs.Prelude.{[]};
ghost use Rattle.rules.specs.Calls.{reward};
ghost use Rattle.records.specs.Books.{tables};
ghost use Rattle.slices.specs.Exported.{Exported};

use primitives::{Gwei, ValidatorIndex};

// The tables stay apart: C lends each by itself. The function stays beside solarbasil_penalty: C has both names.
#[unsafe(no_mangle)]
pub extern "C" fn solarbasil_reward(
    settings: &[u64],
    scalars: &mut [u64],
    identities: &[u8],
    validators: &mut [u64],
    deposits: &[u64],
    partials: &[u64],
    consolidations: &[u64],
    validator: u64,
    amount: u64,
) -> u8
    ensures { Exported settings.now (reward validator amount) []
        (tables identities.now validators.old deposits.now
        partials.now consolidations.now)
        (tables identities.now validators.new deposits.now
        partials.now consolidations.now)
        scalars.old scalars.new result }
{
    let fits = slices::scalars_fit(scalars);
    let mut call = |chain, before| {
        electra::reward::reward(
            chain,
            before,
            identities,
            validators,
            deposits,
            partials,
            consolidations,
            ValidatorIndex(validator as usize),
            Gwei(amount),
        )
    };
    slices::exported(settings, scalars, fits, &mut call)
}
