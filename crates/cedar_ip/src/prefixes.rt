//! The length of a prefix.
ghost use Rattle.std.specs.Prelude.{◌≡◌, ◌^◌, length, true, option_copied};
ghost use Rattle.std.specs.List.{list_all};
ghost use Rattle.std.specs.Char.{is_ascii_digit};
ghost use Rattle.std.specs.Str.Parse.{digits_value};
ghost use Rattle.cedar_ip.specs.Texts.{prefix_behind, prefix_of, is_plain, is_numeral, starts_with_zero};
ghost use Rattle.cedar_ip.specs.Bounds.{below_256};

// The length of the prefix that the text behind a slash writes, or all bits where there is no slash.
pub(crate) fn prefix_behind(text: Option<&str>, bits: u8) -> Option<u8>
    ensures { result ≡ prefix_behind bits (option_copied text.entry) }
{
    match text {
        Some(digits) => prefix_of(digits, bits),
        None => Some(bits),
    }
}

fn prefix_of(text: &str, bits: u8) -> Option<u8>
    ensures { result ≡ prefix_of bits text.now }
{
    if !is_plain(text) {
        return None;
    }
    let length = number(text)?;
    if length <= bits { Some(length) } else { None }
}

// Digits, of which the first is a zero only where it is the only one.
fn is_plain(text: &str) -> bool
    ensures { result ≡ is_plain text.now }
{
    is_numeral(text) && (text.len() == 1 || !starts_with_zero(text.as_bytes()))
}

fn starts_with_zero(bytes: &[u8]) -> bool
    ensures { result ≡ starts_with_zero bytes.now }
{
    match bytes {
        [] => false,
        [first, ..] => *first == b'0',
    }
}

// One digit or more, and nothing else.
fn is_numeral(text: &str) -> bool
    ensures { result ≡ is_numeral text.now }
{
    !text.is_empty() && are_digits(text.as_bytes())
}

fn are_digits(bytes: &[u8]) -> bool
    ensures { result ≡ list_all is_ascii_digit bytes.now }
{
    bytes.iter().all(|byte| byte.is_ascii_digit())
}

// The number that the digits write, if it is below 256.
fn number(digits: &str) -> Option<u8>
    requires { is_numeral digits.now ≡ true }
    ensures { result ≡ below_256 (digits_value 10 digits.now) }
{
    digits.parse().ok()
}
