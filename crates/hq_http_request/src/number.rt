ghost use Rattle.std.specs.Prelude.{◌≡◌, ◌<◌, ◌≤◌, MatchOption, true};
ghost use Rattle.hq_http_request.specs.Requests.{number, is_number};
ghost use Rattle.std.specs.List.{list_all};
ghost use Rattle.std.specs.Char.{is_ascii_digit};

/// The most bytes of a body.
pub const BODY_LIMIT: usize = 1_048_576;

fn are_digits(value: &[u8]) -> bool
    ensures { result ≡ list_all is_ascii_digit value.now }
{
    value.iter().all(|b| b.is_ascii_digit())
}

// Whether a value is digits, at least one.
pub fn is_number(value: &[u8]) -> bool
    ensures { result ≡ is_number value.now }
{
    !value.is_empty() && are_digits(value)
}

// The number that the digits write, or None where it is above the limit of a body.
pub fn body_length(digits: &[u8]) -> Option<usize>
    requires { is_number digits.now ≡ true }
    ensures { MatchOption result (1048576 < number 0 digits.now) (λ n. (n ≡ number 0 digits.now) × (n ≤ 1048576)) }
{
    let mut sum: usize = 0;
    for digit in digits {
        sum = sum * 10 + (*digit - b'0') as usize;
        if sum > BODY_LIMIT {
            return None;
        }
    }
    Some(sum)
}
