//! One number of several, by which things are spread over lists. Nothing rests on it but that it is made of them.
ghost use Rattle.std.specs.Prelude.{◌≡◌};
ghost use Rattle.occ_base.specs.Mixing.{mixed as spec_mixed, number_of_bytes as spec_number_of_bytes};

/// One number of two.
pub fn mixed(seed: u64, more: u64) -> u64
    ensures { result ≡ spec_mixed seed more }
{
    seed.wrapping_add(more).wrapping_mul(0x9E37_79B9_7F4A_7C15)
}

/// One number of bytes.
pub fn number_of_bytes(bytes: &[u8]) -> u64
    ensures { result ≡ spec_number_of_bytes 0 bytes.now }
{
    let mut number = 0;
    for byte in bytes {
        number = mixed(number, u64::from(*byte));
    }
    number
}
