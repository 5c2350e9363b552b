// The numbers that numerals and `#` literals write.
ghost use Rattle.std.specs.Prelude.{◌≡◌, ◌+◌, ◌*◌, ◌<◌, ◌≤◌, length, IfSome};
ghost use Rattle.std.specs.Option.{option_map};
ghost use Rattle.tokens.specs.Numbers.{digit_of, digit_in, numeral, low16, value_of, literal};

// The value of a hexadecimal digit.
fn digit_of(byte: u8) -> Option<u16>
    ensures value { result ≡ digit_of byte }
    ensures small { IfSome result (λ d. d < 16) }
{
    char::from(byte).to_digit(16).map(|digit| digit as u16)
}

// The value of a digit in a base.
fn digit_in(base: u16, byte: u8) -> Option<u16>
    ensures value { result ≡ digit_in base (digit_of byte) }
    ensures small { IfSome result (λ d. d < 16) }
{
    digit_of(byte).filter(|digit| *digit < base)
}

// The value of a numeral: decimal digits with no leading zero, at most 65,535.
#[tactic(auto, unfolding(crate::specs::Numbers::numeral))]
pub(crate) fn numeral(run: &[u8]) -> Option<u16>
    ensures { result ≡ numeral run.now }
{
    if let [b'0', _, ..] = run {
        return None;
    }
    let mut value: u16 = 0;
    for byte in run {
        let digit = digit_in(10, *byte)?;
        value = value.checked_mul(10)?.checked_add(digit)?;
    }
    Some(value)
}

// The lowest 16 bits of the value of one or more digits.
fn value_of(base: u16, run: &[u8]) -> Option<u16>
    ensures { result ≡ value_of base run.now }
{
    if run.is_empty() {
        return None;
    }
    let mut value: u16 = 0;
    for byte in run {
        value = value
            .wrapping_mul(base)
            .wrapping_add(digit_in(base, *byte)?);
    }
    Some(value)
}

// The width and value of digits of so many bits each.
fn digits(base: u16, bits: usize, run: &[u8]) -> Option<(usize, u16)>
    requires bits { bits ≤ 4 }
    requires few { length run.now ≤ 4096 }
    ensures { result ≡ option_map (λ v. (bits * length run.now, v)) (value_of base run.now) }
{
    Some((bits * run.len(), value_of(base, run)?))
}

// The width and value of a `#` literal.
#[tactic(auto, unfolding(crate::specs::Numbers::literal))]
pub(crate) fn literal(run: &[u8]) -> Option<(usize, u16)>
    requires { length run.now ≤ 4096 }
    ensures { result ≡ literal run.now }
{
    match run {
        [b'#', b'b', figures @ ..] => digits(2, 1, figures),
        [b'#', b'x', figures @ ..] => digits(16, 4, figures),
        _ => None,
    }
}
