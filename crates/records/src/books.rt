// The books that scalars and lent tables hold, lent together for reading.
use primitives::Scalars;

#[derive(Clone, Copy)]
pub struct Books<'a> {
    pub scalars: Scalars,
    pub identities: &'a [u8],
    pub validators: &'a [u64],
    pub deposits: &'a [u64],
    pub partials: &'a [u64],
    pub consolidations: &'a [u64],
}
