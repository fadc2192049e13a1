// Bits of a number.
ghost use Rattle.std.specs.Prelude.{◌≡◌, ◌%◌, ◌^◌};
ghost use Rattle.definition.specs.Walk030.{low_of};
ghost use Rattle.definition.specs.Words.{bit_of};

// Bit `k` of `x`; there is none from 32 on.
pub fn bit(x: u32, k: u32) -> bool
    ensures { result ≡ bit_of x k }
{
    if k < 32 {
        return (x >> k) % 2 == 1;
    }
    false
}

// The low 32 - consumed bits of the address (0 if consumed is 32 or more).
pub fn low_bits(address: u32, consumed: u32) -> u32
    ensures { result ≡ low_of address consumed }
{
    if consumed < 32 {
        return (address << consumed) >> consumed;
    }
    0
}

// The address's low `shift` bits.
pub fn in_page(address: u32, shift: u32) -> u32
    ensures { result ≡ address % 2 ^ shift }
{
    if shift < 32 {
        return low_bits(address, 32 - shift);
    }
    address
}
