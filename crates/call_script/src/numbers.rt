// What a word says as a number.
ghost use Rattle.std.specs.Prelude.{◌≡◌, ◌<◌, ◌≤◌, IfSome, IfOk, vec_items};
ghost use Rattle.std.specs.Option.{option_map};
ghost use Rattle.call_script.specs.Numbers.{digit_in, hex_digit, written, up_to, number_in, setting_in, byte_in, bytes_in};

use std::alloc::{AllocError, Global};

// The most digits of a setting word.
const SETTING_DIGITS: usize = 8;

// A digit of a base.
fn digit(byte: u8, base: u32) -> Option<u32>
    requires low { 2 ≤ base }
    requires high { base ≤ 36 }
    ensures value { result ≡ digit_in base byte }
    ensures bound { IfSome result (λ d. d < base) }
{
    char::from(byte).to_digit(base)
}

// A hexadecimal digit.
#[tactic(auto, using(crate::proofs::Written::hex_same))]
fn hex_digit(byte: u8) -> Option<u32>
    ensures value { result ≡ hex_digit byte }
    ensures bound { IfSome result (λ d. d < 16) }
{
    digit(byte, 16)
}

// The number that digits of a base write, up to a limit. Digits alone: `parse` also takes a sign in front.
#[tactic(auto, using(crate::proofs::Written::one_digit))]
fn read_digits(word: &[u8], base: u32, limit: u32) -> Option<u32>
    requires low { 2 ≤ base }
    requires high { base ≤ 36 }
    ensures { result ≡ up_to limit (written (digit_in base) base 0 word.now) }
{
    let mut number: u32 = 0;
    for byte in word {
        let digit = digit(*byte, base)?;
        let longer = u64::from(base) * u64::from(number) + u64::from(digit);
        if longer > u64::from(limit) {
            return None;
        }
        // By `as`, here and below: it is proved to lose no bit, so TryFrom's error could not come.
        number = longer as u32;
    }
    Some(number)
}

// A number: one or more decimal digits and nothing else, up to a limit.
#[tactic(auto, using(crate::proofs::Written::number_is))]
pub fn read_number(word: &[u8], limit: u32) -> Option<u32>
    ensures { result ≡ number_in limit word.now }
{
    if word.is_empty() {
        return None;
    }
    read_digits(word, 10, limit)
}

// A setting word: one to eight hexadecimal digits, in either case.
#[tactic(auto, using(crate::proofs::Written::setting_is))]
pub fn read_setting(word: &[u8]) -> Option<u32>
    ensures { result ≡ setting_in word.now }
{
    if word.is_empty() || word.len() > SETTING_DIGITS {
        return None;
    }
    read_digits(word, 16, u32::MAX)
}

// A byte: two hexadecimal digits, in either case.
pub fn read_byte(word: &[u8]) -> Option<u8>
    ensures { result ≡ byte_in word.now }
{
    let [high, low] = word else {
        return None;
    };
    let high = hex_digit(*high)?;
    let low = hex_digit(*low)?;
    Some((16 * high + low) as u8)
}

// Bytes one after the other, two hexadecimal digits each.
pub fn read_bytes(heap: Global, word: &[u8]) -> Result<Option<Vec<u8>>, AllocError>
    ensures { IfOk result (λ o. option_map vec_items o ≡ bytes_in word.now) }
{
    let mut bytes = Vec::new(heap);
    for digits in word.chunks(2) {
        let Some(byte) = read_byte(digits) else {
            return Ok(None);
        };
        bytes.push(byte)?;
    }
    Ok(Some(bytes))
}
