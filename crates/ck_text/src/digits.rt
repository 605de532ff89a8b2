//! Decimal digits and their value.

ghost use Rattle.std.specs.Prelude.{◌≡◌, ◌^◌, true, nat_lt, Some, None, if◌then◌else◌};
ghost use Rattle.std.specs.List.{list_all};
ghost use Rattle.ck_base.specs.Names.{is_digit};
ghost use Rattle.ck_text.specs.Tokens.{value_from};

pub(crate) fn is_digit(b: u8) -> bool
    ensures { result ≡ is_digit b }
{
    b.is_ascii_digit()
}

/// The value of the digits, where it is below 2^128.
pub(crate) fn value(digits: &[u8]) -> Option<u128>
    requires { list_all is_digit digits.now ≡ true }
    ensures { result ≡ (if nat_lt (value_from 0 digits.now) (2 ^ 128) then Some (value_from 0 digits.now) else None) }
{
    let mut value: u128 = 0;
    let mut rest = digits;
    while let [digit, more @ ..] = rest {
        value = value
            .checked_mul(10)?
            .checked_add(u128::from(*digit - b'0'))?;
        rest = more;
    }
    Some(value)
}
