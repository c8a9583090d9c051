// Decimals, and the fields that hold them.
ghost use Rattle.std.specs.Prelude.{◌≡◌, ℕ, ◌≤◌, [], ◌∷◌, Some, decimal};
ghost use Rattle.text.specs.Number.{read_on, numeral, within, field_of, AtMost};

use crate::word::is_word;

// The number n with one more digit behind it, where that is at most `most`.
fn with_digit(n: u32, digit: u8, most: u32) -> Option<u32>
    ensures { result ≡ within most (read_on n (digit ∷ [])) }
{
    let digit = char::from(digit).to_digit(10)?;
    n.checked_mul(10)?
        .checked_add(digit)
        .filter(|next| *next <= most)
}

// The bound is tested at each digit, so that no number grows past it.
fn digits(bytes: &[u8], most: u32) -> Option<u32>
    ensures { result ≡ within most (read_on 0 bytes.now) }
{
    let mut n = 0;
    // `try_fold` says the same; from what it promises, no lemma leads to a recursion on the digits
    for b in bytes {
        n = with_digit(n, *b, most)?;
    }
    Some(n)
}

/// A number up to `most`. No leading zero, so that each number has one text.
pub fn number(bytes: &[u8], most: u32) -> Option<u32>
    ensures reads { result ≡ within most (numeral bytes.now) }
    ensures only { (n : ℕ) → result ≡ Some n → (n ≤ most) × (bytes.now ≡ decimal n) }
    ensures each { (n : ℕ) → n ≤ most → bytes.now ≡ decimal n → result ≡ Some n }
{
    match bytes {
        [] => None,
        [b'0', _, ..] => None,
        _ => digits(bytes, most),
    }
}

/// A field that is neither a number in range nor a blank.
#[derive(Clone, Copy, Debug, PartialEq, Eq)]
pub struct FieldError;

/// A field's number, or None for a blank, which some calls want.
/// The bound comes from the caller: slots have 16 bits, generations and values 32.
pub fn read_field(bytes: &[u8], most: u32) -> Result<Option<u32>, FieldError>
    ensures reads { result ≡ field_of most bytes.now }
    ensures small { AtMost most result }
{
    if is_word(bytes, b"-") {
        return Ok(None);
    }
    number(bytes, most).map(Some).ok_or(FieldError)
}
