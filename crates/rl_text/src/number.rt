//! Numbers, as far as it matters.
ghost use Rattle.std.specs.Prelude.{◌≡◌, min};
ghost use Rattle.rl_text.specs.Numbers.{number_of};

/// The number that decimal digits write, and `limit` for each that is greater.
pub fn capped_number(digits: &[u8], limit: u32) -> u32
    ensures { result ≡ min (number_of digits.now) limit }
{
    let most = u64::from(limit);
    let mut n: u64 = 0;
    for d in digits {
        n = (n * 10 + u64::from(d.saturating_sub(48))).min(most);
    }
    n as u32
}
