//! Numbers in decimal digits.
ghost use Rattle.std.specs.Prelude.{◌≡◌};
ghost use Rattle.line_reading.specs.tokens.Number.{number_of, signed_of};

use crate::marks::read_number;

/// Returns the number that the digits write: no sign, no leading zero, within 64 bits.
fn whole_number(digits: &[u8]) -> Option<u64>
    ensures { result ≡ number_of digits.now }
{
    let number = read_number(digits, 0);
    if number.end == 0 {
        return None;
    }
    if number.end < digits.len() {
        return None;
    }
    Some(number.value)
}

/// Reads a number, or `-` and a number other than 0, within 32 bits.
pub(crate) fn read_signed(field: &[u8]) -> Option<i32>
    ensures { result ≡ signed_of field.now }
{
    match field {
        [b'-', digits @ ..] => {
            let size = whole_number(digits)?;
            if size == 0 {
                return None;
            }
            i32::try_from(-i128::from(size)).ok()
        }
        _ => i32::try_from(whole_number(field)?).ok(),
    }
}
