// A number as hex digits by hand: a formatter's `{:08X}` goes digit by digit through what serves any number and width.
ghost use Rattle.std.specs.Prelude.{◌≡◌, ◌%◌, true};
ghost use Rattle.std.specs.Fmt.{digit_glyph};
ghost use Rattle.streams.specs.Digits.{eight};

// The low hex digit of n, upper case.
fn digit(n: u64) -> u8
    ensures { result ≡ digit_glyph true (n % 16) }
{
    match n % 16 {
        0 => b'0',
        1 => b'1',
        2 => b'2',
        3 => b'3',
        4 => b'4',
        5 => b'5',
        6 => b'6',
        7 => b'7',
        8 => b'8',
        9 => b'9',
        10 => b'A',
        11 => b'B',
        12 => b'C',
        13 => b'D',
        14 => b'E',
        15.. => b'F',
    }
}

// The eight low hex digits of n, upper case.
pub fn eight(n: u64) -> [u8; 8]
    ensures { result ≡ eight n }
{
    [
        digit(n >> 28),
        digit(n >> 24),
        digit(n >> 20),
        digit(n >> 16),
        digit(n >> 12),
        digit(n >> 8),
        digit(n >> 4),
        digit(n),
    ]
}
