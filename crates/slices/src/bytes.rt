// Keys, credentials and addresses, which come as slices of exactly their length.
ghost use Rattle.std.specs.Prelude.{◌≡◌, [], ◌∷◌, eqb, length};
ghost use Rattle.slices.specs.Exported.{fit};

pub fn fixed<const N: usize>(bytes: &[u8]) -> [u8; N]
    requires { length bytes.now ≡ N }
    ensures { result ≡ bytes.now }
{
    bytes.try_into().unwrap()
}

pub fn receipt_fits(scalars: &[u64], public_key: &[u8], credentials: &[u8]) -> bool
    ensures { result
        ≡ fit scalars.now
        (eqb (length public_key.now) 48 ∷ eqb (length credentials.now) 32 ∷ []) }
{
    crate::both_fit(scalars, public_key.len() == 48, credentials.len() == 32)
}

pub fn request_fits(scalars: &[u64], address: &[u8], public_key: &[u8]) -> bool
    ensures { result
        ≡ fit scalars.now
        (eqb (length address.now) 20 ∷ eqb (length public_key.now) 48 ∷ []) }
{
    crate::both_fit(scalars, address.len() == 20, public_key.len() == 48)
}
