ghost use Rattle.std.specs.Prelude.{ℕ, ◌+◌, ◌<◌, ◌≤◌};

use crate::capped::CAP;

/// The least x from `lo` to `hi` with `f(x) >= limit`, or `hi + 1` where there is none. It calls
/// `f` on numbers from `lo` to `hi` alone, on which `f` never falls and so gives one answer for
/// each. It takes no memory.
pub fn bisect<P: Fn(u64) -> u64>(lo: u64, hi: u64, limit: u64, f: &P) -> u64
    requires order { lo ≤ hi }
    requires capped { hi ≤ CAP }
    requires callable { (x : ℕ) → lo ≤ x → x ≤ hi → P.pre f.now x }
    requires never_falls { (x y a b : ℕ) → lo ≤ x → x ≤ y → y ≤ hi → P.post f.now x a → P.post f.now y b → a ≤ b }
    ensures within { (lo ≤ result) × (result ≤ hi + 1) }
    ensures below { (x a : ℕ) → lo ≤ x → x < result → P.post f.now x a → a < limit }
    ensures reached { result ≤ hi → (a : ℕ) × P.post f.now result a × (limit ≤ a) }
{
    let mut low = lo;
    let mut high = hi + 1;
    while low < high {
        let mid = low + (high - low) / 2;
        let value = f(mid);
        if value < limit {
            low = mid + 1;
        } else {
            high = mid;
        }
    }
    low
}
