ghost use Rattle.std.specs.Prelude.{◌≡◌, ◌==◌, ◌*◌, ◌<◌, ℕ, IfSome, Ok, length, true};
ghost use Rattle.std.specs.List.{list_all, position};
ghost use Rattle.std.specs.Result.{is_ok};
ghost use Rattle.hex.specs.Hex.{decode_of, is_hex_digit, pair_value};

use memchr::memchr;

/// The index of the first byte of this value.
pub fn position_of(bytes: &[u8], byte: u8) -> Option<usize>
    ensures place { result ≡ position (λ b. b == byte) bytes.now }
    ensures within { IfSome result (λ at. at < length bytes.now) }
{
    memchr(byte, bytes)
}

/// Whether a text is pairs of hexadecimal digits, as `hex` reads them.
pub fn is_hexadecimal(text: &[u8]) -> bool
    ensures { result ≡ is_ok (decode_of text.now) }
{
    text.len() % 2 == 0 && has_hex_digits_alone(text)
}

/// Whether each byte of a text is a hexadecimal digit. Reads all of them without a branch for each: in a payload
/// such branches would be mispredicted, and take most of the time of reading it.
fn has_hex_digits_alone(text: &[u8]) -> bool
    ensures { result ≡ list_all is_hex_digit text.now }
{
    let mut alone = true;
    for byte in text {
        alone = alone & byte.is_ascii_hexdigit();
    }
    alone
}

/// Decodes pairs of hexadecimal digits into a buffer, as `hex::decode` does.
pub fn decode_hexadecimal(text: &[u8], bytes: &mut [u8])
    requires spelled { is_ok (decode_of text.now) ≡ true }
    requires room { length text.now ≡ 2 * length bytes.old }
    ensures { decode_of text.now ≡ Ok bytes.new }
{
    for i in 0..bytes.len() {
        bytes[i] = byte_of(text[2 * i], text[2 * i + 1]);
    }
}

/// The byte of two hexadecimal digits. Both are computed in one number, so that the loop over a payload compiles to
/// SIMD steps of 16 bytes: this is most of the time of reading it.
fn byte_of(high: u8, low: u8) -> u8
    requires high { is_hex_digit high ≡ true }
    requires low { is_hex_digit low ≡ true }
    ensures { (at : ℕ) → pair_value high low at ≡ Ok result }
{
    let digits = u16::from_le_bytes([high, low]);
    let values = (digits & 0x0f0f) + 9 * ((digits >> 6) & 0x0101);
    (values % 256 * 16 + values / 256) as u8
}
