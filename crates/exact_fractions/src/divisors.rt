//! The greatest common divisor, by halving and subtracting, and exact quotients.
ghost use Rattle.std.specs.Prelude.{◌≡◌, ◌*◌, ◌%◌, ◌^◌, ◌<◌, ◌*ℤ◌, pos};
ghost use Rattle.std.specs.Int.{IsGcd, trailing_zeros, w64, w128};
ghost use Rattle.bounds_model.specs.Ranges.{IsNumber};
ghost use Rattle.exact_fractions.specs.Divisors.{IsDivisorOf};

/// The greatest common divisor of two numbers. That of 0 and 0 is 0.
pub fn gcd(a: u128, b: u128) -> u128
    ensures { IsGcd a b result }
{
    if b == 0 {
        return a;
    }
    let rest = a % b;
    if rest == 0 {
        return b;
    }
    let twos = rest.trailing_zeros().min(b.trailing_zeros());
    gcd_of_odd(odd_part(rest), odd_part(b)) << twos
}

/// The number without its factors of 2.
fn odd_part(n: u128) -> u128
    requires { 0 < n }
    ensures odd { result % 2 ≡ 1 }
    ensures part { 2 ^ trailing_zeros w128 n * result ≡ n }
{
    n >> n.trailing_zeros()
}

/// The same of a number of 64 bits.
fn odd_part_64(n: u64) -> u64
    requires { 0 < n }
    ensures odd { result % 2 ≡ 1 }
    ensures part { 2 ^ trailing_zeros w64 n * result ≡ n }
{
    n >> n.trailing_zeros()
}

/// The greatest common divisor of two odd numbers. The difference of odd numbers is even, so each step halves the greater at least once.
fn gcd_of_odd(a: u128, b: u128) -> u128
    requires a { a % 2 ≡ 1 }
    requires b { b % 2 ≡ 1 }
    ensures { IsGcd a b result }
{
    let mut x = a;
    let mut y = b;
    while x != y {
        let less = x.min(y);
        let more = x.max(y);
        if more <= u64::MAX as u128 {
            return gcd_of_odd_64(less as u64, more as u64) as u128;
        }
        x = less;
        y = odd_part(more - less);
    }
    x
}

/// The same of numbers of 64 bits, whose steps are faster.
fn gcd_of_odd_64(a: u64, b: u64) -> u64
    requires a { a % 2 ≡ 1 }
    requires b { b % 2 ≡ 1 }
    ensures { IsGcd a b result }
{
    let mut x = a;
    let mut y = b;
    while x != y {
        let less = x.min(y);
        let more = x.max(y);
        x = less;
        y = odd_part_64(more - less);
    }
    x
}

/// The number over one of its divisors.
pub fn quotient(n: i128, divisor: u128) -> i128
    requires number { IsNumber n }
    requires divisor { IsDivisorOf divisor n }
    ensures { pos divisor *ℤ result ≡ n }
{
    n / divisor as i128
}
