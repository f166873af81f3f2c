// Values of VALUES over what a stretch says: sign, whole part, point and decimals, as 1.1 has them; and which of two numbers is the
// smaller, by their true values. Above it stand the elements.
#![tactic(auto)]

ghost use Rattle.std.specs.Prelude.{◌≡◌, Bool, true, List, ℕ, ◌+◌, ◌-◌, ◌≤◌, ◌<◌, eqb, length};
ghost use Rattle.scan.specs.Order.{order_then, is_less};
ghost use Rattle.spans.specs.rule.Heard.{heard, All};
ghost use Rattle.reading.specs.rule.Token.{amount_read};
ghost use Rattle.amounts.specs.rule.Said.{Less};
ghost use Rattle.amounts.specs.Filled.{filled};
ghost use Rattle.amounts.specs.Parts.{Marked, Ran, Ahead, Picked, Stripped};

use scan::{Digits, Order};
use spans::First;
use tokens::{Mark, Value};

// Whether a character stands first from a place on, and the place after it or the same place.
fn find_mark(s: &[u8], at: usize, mark: u64) -> Mark
    requires { at ≤ length s.now }
    ensures { (result.next ≤ length s.now) × Marked s.now at mark result }
{
    match spans::next_char(s, at) {
        First::One { code, next } => {
            if code == mark {
                return Mark { there: true, next };
            }
            Mark {
                there: false,
                next: at,
            }
        }
        First::End => Mark {
            there: false,
            next: at,
        },
        First::Not => Mark {
            there: false,
            next: at,
        },
    }
}

// The longest run of digits from a place on, behind digits that said `v`.
fn read_digits(s: &[u8], at: usize, v: u64) -> Digits
    requires at_in_bounds { at ≤ length s.now }
    requires v_bound { v ≤ 1000000000000000 }
    ensures { (result.next ≤ length s.now) × (result.size ≤ 1000000000000000) × Ran s.now at v result }
{
    let mut n = at;
    let mut size = v;
    let mut count: usize = 0;
    loop {
        match spans::next_char(s, n) {
            First::One { code, next } => {
                if !spans::is_digit(code) {
                    return Digits {
                        size,
                        count,
                        next: n,
                    };
                }
                size = spans::push(size, code);
                count += 1;
                n = next;
            }
            First::End => {
                return Digits {
                    size,
                    count,
                    next: n,
                };
            }
            First::Not => {
                return Digits {
                    size,
                    count,
                    next: n,
                };
            }
        }
    }
}

// Whether nothing is left from a place on.
fn is_over(s: &[u8], at: usize) -> bool
    requires { at ≤ length s.now }
    ensures { (cs : List ℕ) → heard s.now at ≡ All cs → result ≡ eqb (length cs) 0 }
{
    match spans::next_char(s, at) {
        First::One { code: _, next: _ } => false,
        First::End => true,
        First::Not => false,
    }
}

// The value that a stretch says, whose places in the file are `place` and `next`. A minus or none, digits, a point or none, digits; it
// is formed if that is all, with a digit in it.
pub fn value_in(s: &[u8], place: usize, next: usize) -> Value
    ensures { (cs : List ℕ) → heard s.now 0 ≡ All cs → result ≡ filled place next (amount_read place next cs) }
{
    let sign = find_mark(s, 0, 45);
    let whole = read_digits(s, sign.next, 0);
    let dot = find_mark(s, whole.next, 46);
    let rest = read_digits(s, dot.next, whole.size);
    let over = is_over(s, rest.next);
    Value {
        minus: sign.there,
        size: rest.size,
        whole: whole.count,
        decimals: rest.count,
        point: dot.there,
        formed: over & ((0 < whole.count) | (0 < rest.count)),
        place,
        first: place,
        last: next,
        next,
    }
}

// The next digit from a place on, whatever else stands before it, and the place after it.
fn next_digit(s: &[u8], at: usize) -> Option<(u64, usize)>
    requires { at ≤ length s.now }
    ensures { Ahead at (length s.now) result × Picked s.now at result }
{
    let mut n = at;
    loop {
        match spans::next_char(s, n) {
            First::One { code, next } => {
                if spans::is_digit(code) {
                    return Some((code, next));
                }
                n = next;
            }
            First::End => {
                return None;
            }
            First::Not => {
                return None;
            }
        }
    }
}

// The place behind the zeros in front.
fn significant(s: &[u8]) -> usize
    ensures { (result ≤ length s.now) × Stripped s.now result }
{
    let mut n: usize = 0;
    while let Some((code, next)) = next_digit(s, n) {
        if code != 48 {
            return n;
        }
        n = next;
    }
    n
}

fn then_order(o: Order, x: u64, y: u64) -> Order
    ensures { result ≡ order_then o x y }
{
    match o {
        Order::Less => Order::Less,
        Order::Same => {
            if x < y {
                return Order::Less;
            }
            if y < x { Order::More } else { Order::Same }
        }
        Order::More => Order::More,
    }
}

fn is_less(o: Order) -> bool
    ensures { result ≡ is_less o }
{
    match o {
        Order::Less => true,
        Order::Same => false,
        Order::More => false,
    }
}

// Whether the number that the digits of one stretch say is below the one of another, however many they are.
pub fn less_in(a: &[u8], b: &[u8]) -> bool
    ensures { Less a.now b.now result }
{
    let mut i = significant(a);
    let mut j = significant(b);
    let mut o = Order::Same;
    loop {
        match next_digit(a, i) {
            Some((x, m)) => match next_digit(b, j) {
                Some((y, n)) => {
                    o = then_order(o, x, y);
                    i = m;
                    j = n;
                }
                None => {
                    return false;
                }
            },
            None => match next_digit(b, j) {
                Some(_) => {
                    return true;
                }
                None => {
                    return is_less(o);
                }
            },
        }
    }
}
