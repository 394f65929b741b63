//! The form of an address, as far as a plan's text shows it. Only the system judges addresses.

ghost use Rattle.std.specs.Prelude.{◌≡◌, ◌==◌, not, option_copied};
ghost use Rattle.std.specs.Char.{is_ascii_digit};
ghost use Rattle.std.specs.List.{list_all, list_any};
ghost use Rattle.rly_plan_show.specs.AddressForms.{after_last_colon, are_two_families, has_port, is_numeric_byte};
ghost use Rattle.rly_plan_show.specs.AddressForms.{is_port, is_v4, is_v6};

/// Whether an address ends with a port other than 0.
pub(crate) fn has_port(address: &str) -> bool
    ensures { result ≡ has_port address.now }
{
    match after_last_colon(address.as_bytes()) {
        Some(digits) => is_port(digits),
        None => false,
    }
}

/// Whether these are digits, one of them not 0.
fn is_port(digits: &[u8]) -> bool
    ensures { result ≡ is_port digits.now }
{
    are_digits(digits) && is_above_0(digits)
}

fn are_digits(bytes: &[u8]) -> bool
    ensures { result ≡ list_all is_ascii_digit bytes.now }
{
    bytes.iter().all(|byte| byte.is_ascii_digit())
}

fn is_above_0(digits: &[u8]) -> bool
    ensures { result ≡ list_any (λ b. not (b == 48)) digits.now }
{
    digits.iter().any(|byte| *byte != b'0')
}

/// The bytes after the last colon, if there is one.
fn after_last_colon(text: &[u8]) -> Option<&[u8]>
    ensures { option_copied result ≡ after_last_colon text.now }
{
    let mut found = None;
    let mut rest = text;
    while let Some((byte, later)) = rest.split_first() {
        if *byte == b':' {
            found = Some(later);
        }
        rest = later;
    }
    found
}

/// Whether one address is of IPv4 and the other of IPv6.
pub(crate) fn are_two_families(one: &str, other: &str) -> bool
    ensures { result ≡ are_two_families one.now other.now }
{
    let (one, other) = (one.as_bytes(), other.as_bytes());
    is_v4(one) && is_v6(other) || is_v6(one) && is_v4(other)
}

/// Whether an address is of IPv4: digits, dots and colons, and a dot.
fn is_v4(address: &[u8]) -> bool
    ensures { result ≡ is_v4 address.now }
{
    is_numeric(address) && has_dot(address)
}

fn is_numeric(address: &[u8]) -> bool
    ensures { result ≡ list_all is_numeric_byte address.now }
{
    address.iter().all(|byte| is_numeric_byte(*byte))
}

fn is_numeric_byte(byte: u8) -> bool
    ensures { result ≡ is_numeric_byte byte }
{
    byte.is_ascii_digit() || byte == b'.' || byte == b':'
}

fn has_dot(address: &[u8]) -> bool
    ensures { result ≡ list_any (λ b. b == 46) address.now }
{
    address.iter().any(|byte| *byte == b'.')
}

/// Whether an address is of IPv6: it begins with a bracket.
fn is_v6(address: &[u8]) -> bool
    ensures { result ≡ is_v6 address.now }
{
    match address.first() {
        Some(byte) => *byte == b'[',
        None => false,
    }
}
