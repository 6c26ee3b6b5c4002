// The bytes of a text by their kind, and a number that grows by a digit.
// A number too large for a word stays at the largest word.
ghost use Rattle.std.specs.Prelude.{◌≡◌, ◌+◌, ◌*◌, ◌≤◌};
ghost use Rattle.texts.specs.Texts.{is_space, is_gap, is_digit, capped};

pub const LINE_END: u8 = b'\n';

// What a line that is passed over begins with.
pub const HASH: u8 = b'#';

// A byte that parts words within a line.
pub fn is_space(byte: u8) -> bool
    ensures { result ≡ is_space byte }
{
    byte == b' ' || byte == b'\r'
}

// A byte that parts words.
pub fn is_gap(byte: u8) -> bool
    ensures { result ≡ is_gap byte }
{
    byte == LINE_END || is_space(byte)
}

pub fn is_digit(byte: u8) -> bool
    ensures { result ≡ is_digit byte }
{
    byte.is_ascii_digit()
}

// The number with one more digit at its end.
pub fn append_digit(number: u32, digit: u8) -> u32
    requires { digit ≤ 9 }
    ensures { result ≡ capped (10 * number + digit) }
{
    // In one wider number: two sums that saturate take four instructions more for each digit.
    let wide = 10 * u64::from(number) + u64::from(digit);
    u32::try_from(wide).unwrap_or(u32::MAX)
}
