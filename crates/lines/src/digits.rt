// Hexadecimal digits, and the levels that two of them make.
ghost use Rattle.std.specs.Prelude.{◌≡◌, ◌+◌, ◌*◌, ◌<◌, IfSome};
ghost use Rattle.lines.specs.Digits.{nibble as nibble_of, level, digit, high_digit, low_digit, RoundTrip};

// What a digit is worth, from 0 to 9 and from a to f.
// Kept: `char::to_digit` lets capitals pass too, so it would need a test beside it.
pub(crate) fn nibble(byte: u8) -> Option<u8>
    ensures value { result ≡ nibble_of byte }
    ensures small { IfSome result (λ n. n < 16) }
{
    match byte {
        b'0'..=b'9' => Some(byte - b'0'),
        b'a'..=b'f' => Some(byte - b'a' + 10),
        _ => None,
    }
}

// The byte of a digit's worth.
// Kept: `char::from_digit` gives an Option of a char, to be unwrapped and cast, which is no plainer.
fn digit_of(nibble: u8) -> u8
    requires { nibble < 16 }
    ensures { result ≡ digit nibble }
{
    if nibble < 10 {
        b'0' + nibble
    } else {
        b'a' + (nibble - 10)
    }
}

// What two digits make, by what they are worth: a byte in two's complement.
pub(crate) fn level_of(high: u8, low: u8) -> i8
    requires high { high < 16 }
    requires low { low < 16 }
    ensures { result ≡ level (high * 16 + low) }
{
    (high * 16 + low).cast_signed()
}

// The two digits of a level; read again, they make the level.
pub fn digits_of(level: i8) -> (u8, u8)
    ensures digits { result ≡ (high_digit level, low_digit level) }
    ensures again { RoundTrip }
{
    let byte = level.cast_unsigned();
    (digit_of(byte / 16), digit_of(byte % 16))
}
