//! Numbers in decimal digits.
ghost use Rattle.std.specs.Prelude.{◌≡◌};
ghost use Rattle.text.specs.Numbers.{digit as digit_of, number as number_of, signed as signed_of};

/// What a decimal digit stands for.
fn digit(byte: u8) -> Option<u32>
    ensures { result ≡ digit_of byte }
{
    char::from(byte).to_digit(10)
}

/// The number that a word of digits spells, if it is at most `u32::MAX`.
#[tactic(auto, using(crate::proofs::Spelling::stops, crate::proofs::Spelling::goes_on, crate::proofs::Spelling::overflows))]
pub fn number(word: &[u8]) -> Option<u32>
    ensures { result ≡ number_of word.now }
{
    if word.is_empty() {
        return None;
    }
    let mut value: u32 = 0;
    for byte in word {
        let digit = digit(*byte)?;
        value = value.checked_mul(10)?.checked_add(digit)?;
    }
    Some(value)
}

/// The number that a word of digits spells, perhaps after a minus sign, if an `i32` holds it.
pub fn signed(word: &[u8]) -> Option<i32>
    ensures { result ≡ signed_of word.now }
{
    match word {
        [b'-', digits @ ..] => i32::try_from(-i64::from(number(digits)?)).ok(),
        _ => i32::try_from(number(word)?).ok(),
    }
}
