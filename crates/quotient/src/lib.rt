// A scaled number over its power of ten, as one float. Above it stand the column summaries and the matrix.
#![tactic(auto)]

ghost use Rattle.std.specs.Prelude.{◌≡◌};
ghost use Rattle.quotient.specs.rule.Value.{value_of};
ghost use Rattle.quotient.specs.Limits.{Scaled, Power};

// Both numbers are converted exactly, so the division alone rounds.
pub fn value_of(scaled: i64, power: u64) -> f64
    requires scaled { Scaled scaled }
    requires power { Power power }
    ensures { result ≡ value_of scaled power }
{
    let n = scaled as f64;
    let p = power as f64;
    n / p
}
