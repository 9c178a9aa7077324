// Numbers in texts.
ghost use Rattle.std.specs.Prelude.{◌≡◌, ◌≤◌, ◌+◌, ◌*◌, ◌^◌, ◌∷◌, true, false, IfSome, IfNone, ◌⊎◌};
ghost use Rattle.std.specs.Char.{is_ascii_digit, digit_value};
ghost use Rattle.mw_text.specs.Numerals.{number_in};

/// The number with one digit more behind it; none where the byte is no digit, or the number would not be below 2^128.
fn with_digit(number: u128, byte: u8) -> Option<u128>
    ensures digit { IfSome result (λ n. is_ascii_digit byte ≡ true) }
    ensures value { IfSome result (λ n. n ≡ number * 10 + digit_value byte) }
    ensures none { IfNone result ((is_ascii_digit byte ≡ false) ⊎ (2 ^ 128 ≤ number * 10 + digit_value byte)) }
{
    if !byte.is_ascii_digit() {
        return None;
    }
    number.checked_mul(10)?.checked_add((byte - b'0') as u128)
}

#[tactic(auto, using(crate::proofs::Numbers::goes_on, crate::proofs::Numbers::no_more, crate::proofs::Numbers::at_end))]
/// The number that decimal digits write, where it is below 2^128 and there is nothing but digits, one at least.
pub fn number(text: &[u8]) -> Option<u128>
    ensures { result ≡ number_in text.now }
{
    if text.is_empty() {
        return None;
    }
    let mut rest = text;
    let mut number = 0;
    while let [byte, after @ ..] = rest {
        number = with_digit(number, *byte)?;
        rest = after;
    }
    Some(number)
}
