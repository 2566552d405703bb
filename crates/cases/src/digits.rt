// Digits: decimal numbers, and byte strings in hex, which are decoded where they stand.

// The digits that a number has at most, and a signed one.
const DIGITS: usize = 20;

const SIGNED_DIGITS: usize = 19;

// The number with one more decimal digit, if it fits. Std's `parse` takes a plus sign and more than 20
// digits, which are bad here.
fn with_digit(n: u64, byte: u8) -> Option<u64> {
    let digit = char::from(byte).to_digit(10)?;
    n.checked_mul(10)?.checked_add(u64::from(digit))
}

// The number that 1 to `most` decimal digits write. Leading zeros are taken.
fn parse_digits(text: &[u8], most: usize) -> Option<u64> {
    if text.is_empty() || most < text.len() {
        return None;
    }
    text.iter().try_fold(0, |n, byte| with_digit(n, *byte))
}

pub(crate) fn parse_number(text: &[u8]) -> Option<u64> {
    parse_digits(text, DIGITS)
}

// `N` or `-N`
pub(crate) fn parse_signed(text: &[u8]) -> Option<i64> {
    match text.strip_prefix(b"-") {
        Some(digits) => {
            let size = parse_digits(digits, SIGNED_DIGITS)?;
            if i64::MIN.unsigned_abs() < size {
                return None;
            }
            Some(size.wrapping_neg().cast_signed())
        }
        None => i64::try_from(parse_digits(text, SIGNED_DIGITS)?).ok(),
    }
}

// The value of a hex digit, lower-case where it is a letter. `char::to_digit(16)` takes upper-case letters,
// which are bad here.
fn hex_value(byte: u8) -> Option<u8> {
    match byte {
        b'0'..=b'9' => Some(byte - b'0'),
        b'a'..=b'f' => Some(byte - b'a' + 10),
        _ => None,
    }
}

fn hex_byte(high: u8, low: u8) -> Option<u8> {
    Some((hex_value(high)? << 4) | hex_value(low)?)
}

// Whether a word is a byte string: hex digits, two to a byte, or `-` alone where there are no bytes.
pub(crate) fn is_hex(word: &[u8]) -> bool {
    if word == b"-".as_slice() {
        return true;
    }
    !word.is_empty() && word.len() % 2 == 0 && word.iter().all(|byte| hex_value(*byte).is_some())
}

// The bytes of such a word, which then stand at its front.
pub(crate) fn decode(word: &mut [u8]) -> Option<&[u8]> {
    if !is_hex(word) {
        return None;
    }
    let count = word.len() / 2;
    for i in 0..count {
        word[i] = hex_byte(word[2 * i], word[2 * i + 1])?;
    }
    Some(&word[..count])
}
