// The two files judged, and the calls carried out on the opening books.
ghost use Rattle.std.specs.Prelude.{◌≡◌, List, ℕ, MatchResult};
ghost use Rattle.primitives.specs.Answers.{refusal_number};
ghost use Rattle.books_output.specs.Files.{refused, files};
ghost use Rattle.books_output.specs.Carried.{tables_in, Opens, Done};

use crate::buffers::Buffers;
use books_reader::Opened;
use primitives::answers::Refusal;
use primitives::{Scalars, Settings};

// A longer file is not read.
const MOST_BYTES: usize = 65536;

// What the calls leave: the closing books stand in the tables, and a line for each of `count` calls in the results.
#[derive(Clone, Copy)]
pub struct Closing {
    pub settings: Settings,
    pub scalars: Scalars,
    pub count: usize,
}

fn open(file: &[u8], buffers: &mut Buffers) -> Result<Opened, Refusal>
    ensures { MatchResult result (Opens file.now (tables_in buffers.new))
        (λ e. (calls : List ℕ) → files file.now calls ≡ refused (refusal_number e)) }
{
    if file.len() > MOST_BYTES {
        return Err(Refusal::BrokenFile);
    }
    books_reader::read_books(
        file,
        &mut buffers.identities,
        &mut buffers.validators,
        &mut buffers.deposits,
        &mut buffers.partials,
        &mut buffers.consolidations,
    )
}

// The opening is judged before the calls are looked at.
pub fn carry_out_files(
    opening: &[u8],
    calls: &[u8],
    buffers: &mut Buffers,
) -> Result<Closing, Refusal>
    ensures { MatchResult result (Done (files opening.now calls.now) (tables_in buffers.new) buffers.new.results)
        (λ e. files opening.now calls.now ≡ refused (refusal_number e)) }
{
    let opened = open(opening, buffers)?;
    if calls.len() > MOST_BYTES {
        return Err(Refusal::BrokenFile);
    }
    let carried = runs::carry_out(
        opened.settings,
        opened.scalars,
        &mut buffers.identities,
        &mut buffers.validators,
        &mut buffers.deposits,
        &mut buffers.partials,
        &mut buffers.consolidations,
        calls,
        &mut buffers.results,
    )?;
    Ok(Closing {
        settings: opened.settings,
        scalars: carried.scalars,
        count: carried.count,
    })
}
