ghost use Rattle.std.specs.Prelude.{◌≡◌, ◌≤◌, ◌<◌, ◌^◌, length, IfSome};
ghost use Rattle.std.specs.Str.{all_ascii_digits};
ghost use Rattle.job_schedule.specs.Reading as reading;

/// The rank that stands for all numbers that are too great for one. It is no rank.
const NO_RANK: u32 = 65535;

/// The number that the digits stand for.
fn value_of(digits: &[u8]) -> Option<u32>
    requires { length digits.now ≤ 9 }
    ensures { result ≡ reading.value_of digits.now }
{
    let mut value: u32 = 0;
    for digit in digits {
        if !digit.is_ascii_digit() {
            return None;
        }
        value = value * 10 + u32::from(*digit - b'0');
    }
    Some(value)
}

/// The number that the text is.
pub fn number(text: &[u8]) -> Option<u32>
    ensures { result ≡ reading.number_of text.now }
{
    if text.is_empty() || text.len() > 9 {
        return None;
    }
    if text[0] == b'0' && text.len() > 1 {
        return None;
    }
    value_of(text)
}

/// The rank that the text is.
pub fn rank(text: &[u8]) -> Option<u16>
    ensures { result ≡ reading.rank_of text.now }
{
    let number = number(text)?;
    Some(number.min(NO_RANK) as u16)
}
