// A column's summary: how many values are present, the smallest and the largest of them. By value, extended record by record. Above it
// stands the matrix.
#![tactic(auto)]

ghost use Rattle.std.specs.Prelude.{◌≡◌, ◌<◌};
ghost use Rattle.summary.specs.rule.Summary.{none_summed, extend_of, lower_of, higher_of};

#[derive(Clone, Copy)]
pub struct Summary {
    pub count: u64,
    pub least: f64,
    pub most: f64,
}

pub fn empty() -> Summary
    ensures { result ≡ none_summed }
{
    Summary {
        count: 0,
        least: 0.0,
        most: 0.0,
    }
}

fn lower(a: f64, x: f64) -> f64
    ensures { result ≡ lower_of a x }
{
    if x < a { x } else { a }
}

fn higher(a: f64, x: f64) -> f64
    ensures { result ≡ higher_of a x }
{
    if a < x { x } else { a }
}

// The summary of one value more.
pub fn extend(s: Summary, x: f64) -> Summary
    requires { s.count < 18446744073709551615 }
    ensures { result ≡ extend_of s x }
{
    if s.count == 0 {
        return Summary {
            count: 1,
            least: x,
            most: x,
        };
    }
    let least = lower(s.least, x);
    let most = higher(s.most, x);
    Summary {
        count: s.count + 1,
        least,
        most,
    }
}
