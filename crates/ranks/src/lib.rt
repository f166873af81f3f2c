// Which of the faults of a statement that was read whole is answered: the lowest number, of equal numbers the first place. Above it stand
// the elements, which gather them.
#![tactic(auto)]

ghost use Rattle.std.specs.Prelude.{◌≡◌};
ghost use Rattle.ranks.specs.rule.Rank.{found_at, precedes, lower_found};

// A fault, or none: number 0.
#[derive(Clone, Copy)]
pub struct Found {
    pub number: usize,
    pub place: usize,
}

// The fault of that number at a place; none where place 0 says that there is none.
pub fn fault_at(number: usize, place: usize) -> Found
    ensures { result ≡ found_at number place }
{
    if place == 0 {
        return Found {
            number: 0,
            place: 0,
        };
    }
    Found { number, place }
}

// Whether b comes before a: by number, then by place.
fn comes_first(b: Found, a: Found) -> bool
    ensures { result ≡ precedes b a }
{
    (b.number < a.number) | ((b.number == a.number) & (b.place < a.place))
}

// Of two the one that counts.
pub fn lower(a: Found, b: Found) -> Found
    ensures { result ≡ lower_found a b }
{
    if a.number == 0 {
        return b;
    }
    if b.number == 0 {
        return a;
    }
    if comes_first(b, a) {
        return b;
    }
    a
}
