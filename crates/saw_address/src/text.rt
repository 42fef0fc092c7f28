//! Texts of hex digits.

ghost use Rattle.std.specs.Prelude.{◌≡◌, ◌≤◌, ◌<◌, ◌*◌, ◌%◌, ◌↔◌, ◌⊎◌, ℕ, [], ◌∷◌, length, nat_eq, slice_index, IsTrue};
ghost use Rattle.std.specs.List.{list_all, starts_with};
ghost use Rattle.hex.specs.Hex.{encode_lower, lower_digits};
ghost use Rattle.saw_address.specs.Texts.{is_hex_digit, is_hex_text, is_prefix_text};

// The value of each byte as a hex digit in lower case; 256 where it is none.
static VALUES: [u16; 256] = [
    256, 256, 256, 256, 256, 256, 256, 256, 256, 256, 256, 256, 256, 256, 256, 256, 256, 256, 256,
    256, 256, 256, 256, 256, 256, 256, 256, 256, 256, 256, 256, 256, 256, 256, 256, 256, 256, 256,
    256, 256, 256, 256, 256, 256, 256, 256, 256, 256, 0, 1, 2, 3, 4, 5, 6, 7, 8, 9, 256, 256, 256,
    256, 256, 256, 256, 256, 256, 256, 256, 256, 256, 256, 256, 256, 256, 256, 256, 256, 256, 256,
    256, 256, 256, 256, 256, 256, 256, 256, 256, 256, 256, 256, 256, 256, 256, 256, 256, 10, 11,
    12, 13, 14, 15, 256, 256, 256, 256, 256, 256, 256, 256, 256, 256, 256, 256, 256, 256, 256, 256,
    256, 256, 256, 256, 256, 256, 256, 256, 256, 256, 256, 256, 256, 256, 256, 256, 256, 256, 256,
    256, 256, 256, 256, 256, 256, 256, 256, 256, 256, 256, 256, 256, 256, 256, 256, 256, 256, 256,
    256, 256, 256, 256, 256, 256, 256, 256, 256, 256, 256, 256, 256, 256, 256, 256, 256, 256, 256,
    256, 256, 256, 256, 256, 256, 256, 256, 256, 256, 256, 256, 256, 256, 256, 256, 256, 256, 256,
    256, 256, 256, 256, 256, 256, 256, 256, 256, 256, 256, 256, 256, 256, 256, 256, 256, 256, 256,
    256, 256, 256, 256, 256, 256, 256, 256, 256, 256, 256, 256, 256, 256, 256, 256, 256, 256, 256,
    256, 256, 256, 256, 256, 256, 256, 256, 256, 256, 256, 256, 256, 256, 256, 256, 256, 256, 256,
    256, 256, 256, 256,
];

fn is_hex_digit(byte: u8) -> bool
    ensures { result ≡ is_hex_digit byte }
{
    byte.is_ascii_digit() || (b'a'..=b'f').contains(&byte)
}

/// Whether all bytes are hex digits in lower case.
pub fn are_hex_digits(bytes: &[u8]) -> bool
    ensures { result ≡ list_all is_hex_digit bytes.now }
{
    bytes.iter().all(|byte| is_hex_digit(*byte))
}

/// Whether the text is exactly so many hex digits, in lower case.
pub fn is_hex_text(count: usize, text: &str) -> bool
    ensures { result ≡ is_hex_text count text.now }
{
    text.len() == count && are_hex_digits(text.as_bytes())
}

/// Whether the text is a prefix: an even number, from 0 to 70, of hex digits in lower case.
pub fn is_prefix_text(text: &str) -> bool
    ensures { result ≡ is_prefix_text text.now }
{
    text.len() % 2 == 0 && text.len() <= 70 && are_hex_digits(text.as_bytes())
}

// The value of a digit; 256 where the byte is none.
fn digit_value(byte: u8) -> u16
    ensures digit { (value : ℕ) → value < 16 → (result ≡ value) ↔ (byte ≡ slice_index lower_digits value) }
    ensures other { (result < 16) ⊎ (result ≡ 256) }
{
    VALUES[byte as usize]
}

// The byte that two digits spell; above 255 where one is none.
fn byte_of(high: u8, low: u8) -> u16
    ensures { (byte : ℕ) → byte < 256 → (result ≡ byte) ↔ (encode_lower (byte ∷ []) ≡ high ∷ low ∷ []) }
{
    digit_value(high) * 16 + digit_value(low)
}

/// Reads two digits for each byte. `false`: one is none, and `out` may be written in part.
pub(crate) fn read_digits(text: &[u8], out: &mut [u8]) -> bool
    requires room { length text.now ≡ 2 * length out.old }
    ensures valid { result ≡ list_all is_hex_digit text.now }
    ensures value { IsTrue result → encode_lower out.new ≡ text.now }
{
    for i in 0..out.len() {
        let byte = byte_of(text[2 * i], text[2 * i + 1]);
        if byte > 255 {
            return false;
        }
        out[i] = byte as u8;
    }
    true
}

// The digit of a value. `a` lies 40 behind `9`, so from 10 on there are 39 more.
fn digit_of(value: u8) -> u8
    requires { value < 16 }
    ensures { result ≡ slice_index lower_digits value }
{
    b'0' + value + 39 * ((value + 6) >> 4)
}

/// Writes two digits for each byte.
pub(crate) fn write_digits(bytes: &[u8], out: &mut [u8])
    requires room { length out.old ≡ 2 * length bytes.now }
    ensures { out.new ≡ encode_lower bytes.now }
{
    for i in 0..bytes.len() {
        out[2 * i] = digit_of(bytes[i] >> 4);
        out[2 * i + 1] = digit_of(bytes[i] & 15);
    }
}

/// Whether the bytes, as they are written, begin with the text.
pub(crate) fn begins_with(text: &[u8], bytes: &[u8]) -> bool
    requires pairs { length text.now % 2 ≡ 0 }
    requires room { length text.now ≤ 2 * length bytes.now }
    ensures { result ≡ starts_with nat_eq (encode_lower bytes.now) text.now }
{
    for i in 0..text.len() / 2 {
        if byte_of(text[2 * i], text[2 * i + 1]) != u16::from(bytes[i]) {
            return false;
        }
    }
    true
}
