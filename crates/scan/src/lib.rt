// The definition as kept text: its bytes of 32 and above with their places. Keywords, runs of digits and of value bytes, and
// numbers of any length. Above it stand the strings and comments, and every token of a definition.
#![tactic(auto)]

ghost use Rattle.std.specs.Prelude.{◌≡◌, true, ◌+◌, ◌-◌, ◌≤◌, length, ltb};
ghost use Rattle.ascii.specs.Class.{Classes};
ghost use Rattle.ascii.specs.rule.Class.{upper_of};
ghost use Rattle.scan.specs.rule.Text.{text, place_of};
ghost use Rattle.scan.specs.Text.{step_of};
ghost use Rattle.scan.specs.rule.Word.{word_at};
ghost use Rattle.scan.specs.rule.Number.{is_space, is_digit, is_value, run_of};
ghost use Rattle.scan.specs.Number.{digits_from};
ghost use Rattle.scan.specs.Number.{push_of};
ghost use Rattle.scan.specs.Order.{figure_of, stripped, order_then, is_less};
ghost use Rattle.scan.specs.Order.{digits_to, value_of};

// The next byte that is not dropped, with its place and the place after it; or the end.
#[derive(Clone, Copy)]
pub enum Step {
    Byte { byte: u8, place: usize, next: usize },
    End { place: usize },
}

pub fn next_byte(classes: &[u8; 256], d: &[u8], at: usize) -> Step
    requires { Classes classes.now }
    ensures { result ≡ step_of (text d.now at) }
{
    for i in at..d.len() {
        let b = d[i];
        if ascii::class_of(classes, b) != ascii::DROPPED {
            return Step::Byte {
                byte: b,
                place: i,
                next: i + 1,
            };
        }
    }
    Step::End {
        place: at.max(d.len()),
    }
}

// The place of the next byte that is not dropped, or of the end.
pub fn place_at(classes: &[u8; 256], d: &[u8], at: usize) -> usize
    requires { Classes classes.now }
    ensures { result ≡ place_of (text d.now at) }
{
    match next_byte(classes, d, at) {
        Step::Byte {
            byte: _,
            place,
            next: _,
        } => place,
        Step::End { place } => place,
    }
}

// Whether a keyword, in capitals, stands from a place on, and the place after it.
#[derive(Clone, Copy)]
pub enum Word {
    Matched(usize),
    Not,
}

// Whether a byte is kept and not the letter x, in capitals or small.
fn unlike(b: u8, x: u8) -> bool
    ensures { result ≡ true → (32 ≤ b) × (upper_of b ≡ x → ⊥) }
{
    if b == x {
        return false;
    }
    if (b as u16) == (x as u16) + 32 {
        return false;
    }
    32 <= b
}

// Whether the byte at a place is not a keyword's first letter: most keywords that are tried end here.
fn misses(d: &[u8], at: usize, w: &[u8]) -> bool
    ensures { result ≡ true → word_at d.now at w.now ≡ Word.Not }
{
    if w.len() == 0 {
        return false;
    }
    if d.len() <= at {
        return true;
    }
    unlike(d[at], w[0])
}

// Whether a keyword stands just as it is given, with no dropped byte inside. Nothing leaves the loop early: so the compiler compares
// the letters of a keyword that it knows all at once.
fn spelled(d: &[u8], at: usize, w: &[u8]) -> bool
    requires { at + length w.now ≤ length d.now }
    ensures { result ≡ true → word_at d.now at w.now ≡ Word.Matched (at + length w.now) }
{
    let mut same = true;
    for (i, x) in w.iter().enumerate() {
        same = same & ((d[at + i] == *x) & ((32 <= *x) & (*x < 97)));
    }
    same
}

// The same as keyword, letter by letter.
fn letters(classes: &[u8; 256], d: &[u8], at: usize, w: &[u8]) -> Word
    requires { Classes classes.now }
    ensures { result ≡ word_at d.now at w.now }
{
    let mut n = at;
    for x in w {
        match next_byte(classes, d, n) {
            Step::Byte {
                byte,
                place: _,
                next,
            } => {
                if ascii::upper(byte) != *x {
                    return Word::Not;
                }
                n = next;
            }
            Step::End { place: _ } => {
                return Word::Not;
            }
        }
    }
    Word::Matched(n)
}

pub fn keyword(classes: &[u8; 256], d: &[u8], at: usize, w: &[u8]) -> Word
    requires { Classes classes.now }
    ensures { result ≡ word_at d.now at w.now }
{
    if misses(d, at, w) {
        return Word::Not;
    }
    if at < d.len() {
        if w.len() <= d.len() - at {
            if spelled(d, at, w) {
                return Word::Matched(at + w.len());
            }
        }
    }
    letters(classes, d, at, w)
}

// The spaces from a place on: the place after them.
pub fn spaces(classes: &[u8; 256], d: &[u8], at: usize) -> usize
    requires { Classes classes.now }
    ensures { result ≡ run_of is_space at (text d.now at) }
{
    let mut n = at;
    loop {
        match next_byte(classes, d, n) {
            Step::Byte {
                byte,
                place: _,
                next,
            } => {
                if ascii::class_of(classes, byte) != ascii::SPACE {
                    return n;
                }
                n = next;
            }
            Step::End { place: _ } => {
                return n;
            }
        }
    }
}

// Whether a byte is one of a value: a digit, a point, a plus or a minus.
pub fn of_value(classes: &[u8; 256], b: u8) -> bool
    requires { Classes classes.now }
    ensures { result ≡ is_value b }
{
    if ascii::class_of(classes, b) == ascii::DIGIT {
        return true;
    }
    if b == 43 {
        return true;
    }
    if b == 45 {
        return true;
    }
    b == 46
}

// The longest run of digits, points, pluses and minuses: the place after it.
pub fn value_run(classes: &[u8; 256], d: &[u8], at: usize) -> usize
    requires { Classes classes.now }
    ensures { result ≡ run_of is_value at (text d.now at) }
{
    let mut n = at;
    loop {
        match next_byte(classes, d, n) {
            Step::Byte {
                byte,
                place: _,
                next,
            } => {
                if of_value(classes, byte) {
                    n = next;
                } else {
                    return n;
                }
            }
            Step::End { place: _ } => {
                return n;
            }
        }
    }
}

// A run of digits: the number that they say, at most CAP, how many they are, and the place after them.
#[derive(Clone, Copy)]
pub struct Digits {
    pub size: u64,
    pub count: usize,
    pub next: usize,
}

// What is above is read as CAP, which every limit lies below.
pub const CAP: u64 = 1_000_000_000_000_000;

fn digit_of(b: u8) -> u64
    ensures { (result ≡ b - 48) × (result ≤ 255) }
{
    if b < 48 { 0 } else { (b as u64) - 48 }
}

// A number with one more digit.
fn pushed(v: u64, b: u8) -> u64
    requires { v ≤ 1000000000000000 }
    ensures { (result ≡ push_of v b) × (result ≤ 1000000000000000) }
{
    let r = v * 10 + digit_of(b);
    if CAP < r { CAP } else { r }
}

// The longest run of digits, behind digits that said `v`.
pub fn read_digits(classes: &[u8; 256], d: &[u8], at: usize, v: u64) -> Digits
    requires classes { Classes classes.now }
    requires v_bound { v ≤ 1000000000000000 }
    ensures { result ≡ digits_from v 0 at (text d.now at) }
{
    let mut n = at;
    let mut size = v;
    let mut count: usize = 0;
    loop {
        match next_byte(classes, d, n) {
            Step::Byte {
                byte,
                place: _,
                next,
            } => {
                if ascii::class_of(classes, byte) != ascii::DIGIT {
                    return Digits {
                        size,
                        count,
                        next: n,
                    };
                }
                size = pushed(size, byte);
                count += 1;
                n = next;
            }
            Step::End { place: _ } => {
                return Digits {
                    size,
                    count,
                    next: n,
                };
            }
        }
    }
}

// The next digit before a place, and the place after it.
#[derive(Clone, Copy)]
pub enum Figure {
    One { digit: u8, next: usize },
    Nothing,
}

fn next_digit(classes: &[u8; 256], d: &[u8], at: usize, end: usize) -> Figure
    requires { Classes classes.now }
    ensures { result ≡ figure_of end (text d.now at) }
{
    let mut n = at;
    loop {
        match next_byte(classes, d, n) {
            Step::Byte { byte, place, next } => {
                if end <= place {
                    return Figure::Nothing;
                }
                if ascii::class_of(classes, byte) == ascii::DIGIT {
                    return Figure::One { digit: byte, next };
                }
                n = next;
            }
            Step::End { place: _ } => {
                return Figure::Nothing;
            }
        }
    }
}

// The place from which the digits up to `end` are those from `at` on without the zeros in front.
fn significant(classes: &[u8; 256], d: &[u8], at: usize, end: usize) -> usize
    requires { Classes classes.now }
    ensures { digits_to end (text d.now result) ≡ stripped (digits_to end (text d.now at)) }
{
    let mut n = at;
    loop {
        match next_digit(classes, d, n, end) {
            Figure::One { digit, next } => {
                if digit != 48 {
                    return n;
                }
                n = next;
            }
            Figure::Nothing => {
                return n;
            }
        }
    }
}

// How two numbers of as many digits compare, as far as they are read.
#[derive(Clone, Copy)]
pub enum Order {
    Less,
    Same,
    More,
}

fn then_order(o: Order, x: u8, y: u8) -> Order
    ensures { result ≡ order_then o x y }
{
    match o {
        Order::Less => Order::Less,
        Order::Same => {
            if x < y {
                return Order::Less;
            }
            if y < x { Order::More } else { Order::Same }
        }
        Order::More => Order::More,
    }
}

fn is_less(o: Order) -> bool
    ensures { result ≡ is_less o }
{
    match o {
        Order::Less => true,
        Order::Same => false,
        Order::More => false,
    }
}

// Whether the number that the digits from `a` to `aend` say is below the one from `b` to `bend`, however many they are.
pub fn less(classes: &[u8; 256], d: &[u8], a: usize, aend: usize, b: usize, bend: usize) -> bool
    requires { Classes classes.now }
    ensures { result ≡ ltb (value_of d.now a aend) (value_of d.now b bend) }
{
    let mut i = significant(classes, d, a, aend);
    let mut j = significant(classes, d, b, bend);
    let mut o = Order::Same;
    loop {
        match next_digit(classes, d, i, aend) {
            Figure::One { digit: x, next: m } => match next_digit(classes, d, j, bend) {
                Figure::One { digit: y, next: n } => {
                    o = then_order(o, x, y);
                    i = m;
                    j = n;
                }
                Figure::Nothing => {
                    return false;
                }
            },
            Figure::Nothing => match next_digit(classes, d, j, bend) {
                Figure::One { digit: _, next: _ } => {
                    return true;
                }
                Figure::Nothing => {
                    return is_less(o);
                }
            },
        }
    }
}
