// What a 68030 page's descriptor gives, and the page shift.
ghost use Rattle.std.specs.Prelude.{◌≡◌, ◌+◌};
ghost use Rattle.definition.specs.Translate.{base_of, hit_address};
ghost use Rattle.definition.specs.Walk030.{widths_of, used, sum_of, is_of, physical_of, shift_of};

use crate::bits::{in_page, low_bits};

// The four index widths TIA, TIB, TIC and TID: TC nibbles 15:12 to 3:0.
pub fn widths(tc: u32) -> [u32; 4]
    ensures { result ≡ widths_of tc }
{
    [(tc >> 12) % 16, (tc >> 8) % 16, (tc >> 4) % 16, tc % 16]
}

// Physical = (field & FFFFFF00) + the low 32 - consumed bits of the address, wrapping.
pub fn physical(field: u32, consumed: u32, address: u32) -> u32
    ensures { result ≡ physical_of field consumed address }
{
    let low = low_bits(address, consumed);
    (((field - field % 256) as u64 + low as u64) % 4294967296) as u32
}

// IS (19:16) and the widths up to the first zero.
pub fn consumed(tc: u32) -> u32
    ensures { result ≡ is_of tc + sum_of (used (widths_of tc)) }
{
    let mut sum = (tc >> 16) % 16;
    for w in &widths(tc) {
        if *w == 0 {
            return sum;
        }
        sum += *w;
    }
    sum
}

// The page shift is 32 - (IS + levels up to the first zero) if that sum is 1 to 31; else nothing is cached.
pub fn page_shift(tc: u32) -> Option<u32>
    ensures { result ≡ shift_of tc }
{
    let sum = consumed(tc);
    match sum {
        1..=31 => Some(32 - sum),
        _ => None,
    }
}

// The page's base that is cached: physical less the address's low page-shift bits, wrapping.
pub fn page_base(physical: u32, address: u32, shift: u32) -> u32
    ensures { result ≡ base_of physical address shift }
{
    let low = in_page(address, shift);
    ((physical as u64 + (4294967296 - low as u64)) % 4294967296) as u32
}

// A hit adds the address's low page-shift bits.
pub fn hit_address(base: u64, address: u32, shift: u32) -> u32
    ensures { result ≡ hit_address base address shift }
{
    let low = in_page(address, shift);
    ((base % 4294967296 + low as u64) % 4294967296) as u32
}
