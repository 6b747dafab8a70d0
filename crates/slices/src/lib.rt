// Settings, scalars, keys and addresses as plain slices, for calls from other languages.

// What C lends stays slices of numbers here, and a number stays the answer that C takes: `settings_from` and
// `scalars_from` stay beside the From that they call, since a slice has no length in its type. What is missing of
// settings reads as 0; of scalars nothing may be missing.

#![tactic(auto)]

pub mod bytes; // keys, credentials, addresses
pub mod withdrawals; // lists of withdrawals

ghost use Rattle.std.specs.Prelude.{IsTrue, IsFalse, Result, ◌≡◌, [], ◌∷◌, ◌+◌, ◌^◌, ◌<◌, ◌≤◌, length, get_or};
ghost use Rattle.tables.specs.Rows.{rows};
ghost use Rattle.primitives.specs.declared.Scalars.{Scalars};
ghost use Rattle.primitives.specs.declared.answers.Refusal.{Refusal};
ghost use Rattle.primitives.specs.Answers.{answer_number, answer_or};
ghost use Rattle.primitives.specs.Settings.{settings_of};
ghost use Rattle.slices.specs.Numbers.{settings_in, with_settings};
ghost use Rattle.slices.specs.Numbers.{scalars_in, with_scalars};
ghost use Rattle.slices.specs.Exported.{fit, unfit_answer};

use primitives::answers::{self, Refusal};
use primitives::{Scalars, Settings};
use std::array;

// How many numbers settings are.
pub const SETTINGS: usize = 19;

// How many numbers scalars are, the four counts among them.
pub const SCALARS: usize = 13;

// N items from place `at` on; `missing` stands for those past the end.
fn row_at<T: Copy + Drop, const N: usize>(items: &[T], at: usize, missing: T) -> [T; N]
    requires { at + N < 2 ^ 64 }
    ensures { result ≡ rows N (λ k. get_or items.now (at + k) missing) }
{
    array::from_fn(|k| items.get(at + k).copied().unwrap_or(missing))
}

pub fn settings_from(settings: &[u64]) -> Settings
    ensures { result ≡ settings_in settings.now }
{
    Settings::from(row_at::<u64, SETTINGS>(settings, 0, 0))
}

pub fn store_settings(settings: &mut [u64], s: Settings)
    requires { 19 ≤ length settings.old }
    ensures { settings.new ≡ with_settings settings.old s }
{
    let numbers: [u64; SETTINGS] = s.into();
    settings[..SETTINGS].copy_from_slice(&numbers);
}

pub fn scalars_from(scalars: &[u64]) -> Scalars
    requires { 13 ≤ length scalars.now }
    ensures { result ≡ scalars_in scalars.now }
{
    Scalars::from(row_at::<u64, SCALARS>(scalars, 0, 0))
}

pub fn store_scalars(scalars: &mut [u64], s: Scalars)
    requires { 13 ≤ length scalars.old }
    ensures { scalars.new ≡ with_scalars scalars.old s }
{
    let numbers: [u64; SCALARS] = s.into();
    scalars[..SCALARS].copy_from_slice(&numbers);
}

// The number of an answer. The scalars of a call that is done are stored.
pub fn store_answer(scalars: &mut [u64], answer: Result<Scalars, Refusal>) -> u8
    requires { 13 ≤ length scalars.old }
    ensures number { result ≡ answer_number answer }
    ensures stored { scalars.new ≡ with_scalars scalars.old (answer_or (scalars_in scalars.old) answer) }
{
    match answer {
        Ok(after) => {
            store_scalars(scalars, after);
            answers::DONE
        }
        Err(refusal) => refusal.number(),
    }
}

// What a call answers that was lent a slice of a wrong length.
pub fn unfit_answer(settings: Settings) -> u8
    ensures { result ≡ unfit_answer (settings_of settings) }
{
    if acceptance::settings_sound(settings) {
        Refusal::ShortBuffer.number()
    } else {
        Refusal::UnsoundSettings.number()
    }
}

pub fn scalars_fit(scalars: &[u64]) -> bool
    ensures { result ≡ fit scalars.now [] }
{
    SCALARS <= scalars.len()
}

// There is room for the scalars, and two other slices pass their tests.
fn both_fit(scalars: &[u64], first: bool, second: bool) -> bool
    ensures { result ≡ fit scalars.now (first ∷ second ∷ []) }
{
    scalars_fit(scalars) && first && second
}

// The frame of an exported call: what `call` answers on the settings and scalars of the slices, its scalars stored.
pub fn exported<F: FnMut(Settings, Scalars) -> Result<Scalars, Refusal>>(
    settings: &[u64],
    scalars: &mut [u64],
    fits: bool,
    call: &mut F,
) -> u8
    requires always { F.IsAlwaysCallable call.old }
    requires room { IsTrue fits → 13 ≤ length scalars.old }
    ensures fit { IsTrue fits → (a : Result Scalars Refusal)
        × F.step call.old (settings_in settings.now) (scalars_in scalars.old) a call.new
        × (result ≡ answer_number a) × (scalars.new ≡ with_scalars scalars.old (answer_or (scalars_in scalars.old) a)) }
    ensures unfit { IsFalse fits → (result ≡ unfit_answer (settings_of (settings_in settings.now)))
        × (scalars.new ≡ scalars.old) × (call.new ≡ call.old) }
{
    let chain = settings_from(settings);
    if !fits {
        return unfit_answer(chain);
    }
    let answer = call(chain, scalars_from(scalars));
    store_answer(scalars, answer)
}
