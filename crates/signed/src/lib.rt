// Signed numbers: the absolute value, and rounding up.

#![tactic(auto)]

ghost use Rattle.std.specs.Prelude.{◌≡◌, ◌≤◌, nat_abs};
ghost use Rattle.signed.specs.Signed.{ceiling};

const WHOLE: i64 = 1_000_000;

// A number without its sign, by negation: the form that the project names for a net.
pub fn absolute(x: i64) -> u64
    requires { nat_abs x ≤ 4000000000000000000 }
    ensures { result ≡ nat_abs x }
{
    if x < 0 {
        return (-x) as u64;
    }
    x as u64
}

// Millionths as a whole number, rounded up. Division drops the fraction, and below zero that is up.
pub fn rounded_up(x: i64) -> i64
    requires { nat_abs x ≤ 4000000000000000000 }
    ensures { result ≡ ceiling x 1000000 }
{
    if x < 0 {
        return x / WHOLE;
    }
    (x + 999_999) / WHOLE
}
