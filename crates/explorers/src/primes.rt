//! Primes, so that remainders spread.
ghost use Rattle.std.specs.Prelude.{◌≡◌, ℕ, ◌<◌, ◌≤◌, ◌⊎◌, ◌↔◌, IsTrue};
ghost use Rattle.explorers.specs.Primes.{IsPrime};

/// The smallest prime that is at least `from` and below `limit`, or else `limit`.
pub fn prime_at_least(from: usize, limit: usize) -> usize
    requires { from ≤ limit }
    ensures enough { from ≤ result }
    ensures within { result ≤ limit }
    ensures prime { IsPrime result ⊎ (result ≡ limit) }
    ensures least { (n : ℕ) → from ≤ n → n < result → ¬ (IsPrime n) }
{
    for size in from..limit {
        if is_prime(size) {
            return size;
        }
    }
    limit
}

/// Whether a number is a prime. A number that is not prime has a divisor up to its square root.
fn is_prime(n: usize) -> bool
    ensures { IsTrue result ↔ IsPrime n }
{
    let mut divisor = 2;
    while divisor <= n / divisor {
        if n % divisor == 0 {
            return false;
        }
        divisor += 1;
    }
    1 < n
}
