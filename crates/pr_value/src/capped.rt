ghost use Rattle.std.specs.Prelude.{◌≡◌, ◌+◌, ◌^◌, ◌<◌, ◌≤◌};
ghost use Rattle.pr_value.specs.Capped.{capped_add, capped_sub, capped_mul, capped_div, log2};

/// The largest number and the largest cost, 10^18.
pub const CAP: u64 = 1_000_000_000_000_000_000;

/// The sum, or `CAP` where it would be more.
pub fn cap_add(a: u64, b: u64) -> u64
    ensures value { result ≡ capped_add a b }
    ensures within { result ≤ CAP }
{
    a.saturating_add(b).min(CAP)
}

/// The difference, or 0 where it would be less, and `CAP` where it would be more.
pub fn cap_sub(a: u64, b: u64) -> u64
    ensures value { result ≡ capped_sub a b }
    ensures within { result ≤ CAP }
{
    a.saturating_sub(b).min(CAP)
}

/// The product, or `CAP` where it would be more.
pub fn cap_mul(a: u64, b: u64) -> u64
    ensures value { result ≡ capped_mul a b }
    ensures within { result ≤ CAP }
{
    a.saturating_mul(b).min(CAP)
}

/// The quotient, rounded down, or `CAP` where it would be more or the divisor is 0.
pub fn cap_div(a: u64, b: u64) -> u64
    ensures value { result ≡ capped_div a b }
    ensures within { result ≤ CAP }
{
    if b == 0 { CAP } else { (a / b).min(CAP) }
}

/// The greatest n with `2^n <= a`, or 0 where `a` is 0.
pub fn cap_log2(a: u64) -> u64
    ensures value { result ≡ log2 a }
    ensures within { result < 64 }
    ensures power_le { 0 < a → 2 ^ result ≤ a }
    ensures next_power_gt { 0 < a → a < 2 ^ (result + 1) }
{
    if a == 0 { 0 } else { u64::from(a.ilog2()) }
}
