// What a 68040 page's descriptor gives.
ghost use Rattle.std.specs.Prelude.{◌≡◌};
ghost use Rattle.definition.specs.Translate.{joined};
ghost use Rattle.definition.specs.Walk040.{frame_of, page_bits, physical040};

use crate::bits::{bit, in_page};

// How many low bits lie in a 68040 page: 13 with TC bit 14, else 12.
pub fn page_bits(tc: u32) -> u32
    ensures { result ≡ page_bits tc }
{
    if bit(tc, 14) {
        return 13;
    }
    12
}

// The page descriptor without its low 12 (or 13) bits.
pub fn frame_base(tc: u32, page: u32) -> u32
    ensures { result ≡ frame_of tc page }
{
    let bits = page_bits(tc);
    let low = in_page(page, bits);
    page - low
}

// Physical is the page descriptor, its low 12 (or 13) bits replaced by the address's.
pub fn physical_040(tc: u32, page: u32, address: u32) -> u32
    ensures { result ≡ physical040 tc page address }
{
    let frame = frame_base(tc, page);
    let bits = page_bits(tc);
    let low = in_page(address, bits);
    frame + low
}

// A 68040 hit joins the stored base and the address's low bits by OR.
pub fn joined_040(tc: u32, base: u64, address: u32) -> u32
    ensures { result ≡ joined tc base address }
{
    let bits = page_bits(tc);
    let low = in_page(address, bits);
    ((base | low as u64) % 4294967296) as u32
}
