// Comma-separated text cut into fields: a field, what stops it, or that it is malformed. Above it stands the import of a text.
#![tactic(auto)]

ghost use Rattle.std.specs.Prelude.{◌≡◌, ◌≤◌, length, drop};
ghost use Rattle.csv_fields.specs.rule.Page.{page, fresh, inside, bare};
ghost use Rattle.csv_fields.specs.Page.{BareTo, QuoteTo, StopsAs, CutAs, CutFrom, Ahead, SpanOf, cut_of, quote_at};

// A field in the text: its bytes, in which a quote is written as two, from a place to another; whether there is none; and where what
// follows
// begins. It has a comma behind it, or ends its line, or is malformed.
#[derive(Clone, Copy)]
pub enum Cut {
    Comma {
        from: usize,
        to: usize,
        bare: bool,
        next: usize,
    },
    Last {
        from: usize,
        to: usize,
        bare: bool,
        next: usize,
    },
    Torn,
}

// The same without its case, for whoever treats every field alike: one call in a loop, which the compiler then puts into it.
#[derive(Clone, Copy)]
pub struct Span {
    pub from: usize,
    pub to: usize,
    pub next: usize,
    pub bare: bool,
    pub ends: bool,
    pub torn: bool,
}

// What stands where a field has ended.
#[derive(Clone, Copy)]
pub enum Stop {
    Comma(usize),
    Last(usize),
    Torn,
}

// The first comma, quote, CR or LF from a place on, or the end.
pub fn bare_to(d: &[u8], at: usize) -> usize
    requires { at ≤ length d.now }
    ensures { BareTo d.now at result }
{
    for i in at..d.len() {
        if commas::special(d[i]) {
            return i;
        }
    }
    d.len()
}

// The first quote from a place on, or the end.
fn quote_to(d: &[u8], at: usize) -> usize
    requires { at ≤ length d.now }
    ensures { QuoteTo d.now at result }
{
    for i in at..d.len() {
        if d[i] == 34 {
            return i;
        }
    }
    d.len()
}

fn stop_at(d: &[u8], i: usize) -> Stop
    ensures { StopsAs d.now i result }
{
    if d.len() <= i {
        return Stop::Torn;
    }
    if d[i] == 44 {
        return Stop::Comma(i + 1);
    }
    if d[i] != 13 {
        return Stop::Torn;
    }
    let j = i + 1;
    if d.len() <= j {
        return Stop::Torn;
    }
    if d[j] == 10 {
        return Stop::Last(i + 2);
    }
    Stop::Torn
}

// A field that stands from a place to another and is stopped so.
fn field_of(from: usize, to: usize, bare: bool, stop: Stop) -> Cut
    ensures { result ≡ cut_of from to bare stop }
{
    match stop {
        Stop::Comma(next) => Cut::Comma {
            from,
            to,
            bare,
            next,
        },
        Stop::Last(next) => Cut::Last {
            from,
            to,
            bare,
            next,
        },
        Stop::Torn => Cut::Torn,
    }
}

fn is_quote(d: &[u8], i: usize) -> bool
    ensures { result ≡ quote_at d.now i }
{
    if i < d.len() { d[i] == 34 } else { false }
}

// A field in quotes, which opened just before a place.
fn quoted_field(d: &[u8], at: usize) -> Cut
    requires { at ≤ length d.now }
    ensures { CutAs d.now (page inside (drop at d.now)) result × Ahead at result }
{
    let mut i = at;
    let mut bare = true;
    loop {
        let q = quote_to(d, i);
        if d.len() <= q {
            return Cut::Torn;
        }
        let k = q + 1;
        if !is_quote(d, k) {
            return field_of(at, q, bare, stop_at(d, k));
        }
        bare = false;
        i = k + 1;
    }
}

// A field without quotes, up to a place that is known to be its end.
pub fn ended_field(d: &[u8], at: usize, to: usize) -> Cut
    requires { BareTo d.now at to }
    ensures { CutAs d.now (page bare (drop at d.now)) result × Ahead at result × CutFrom at to result }
{
    field_of(at, to, true, stop_at(d, to))
}

// A field without quotes.
fn bare_field(d: &[u8], at: usize) -> Cut
    requires { at ≤ length d.now }
    ensures { CutAs d.now (page bare (drop at d.now)) result × Ahead at result }
{
    ended_field(d, at, bare_to(d, at))
}

// THE FIELD from a place on, where one is due.
pub fn next_field(d: &[u8], at: usize) -> Cut
    requires { at ≤ length d.now }
    ensures { CutAs d.now (page fresh (drop at d.now)) result × Ahead at result }
{
    if is_quote(d, at) {
        return quoted_field(d, at + 1);
    }
    bare_field(d, at)
}

pub fn span_of(cut: Cut) -> Span
    ensures { SpanOf cut result.from result.to result.next result.bare result.ends result.torn }
{
    match cut {
        Cut::Comma {
            from,
            to,
            bare,
            next,
        } => Span {
            from,
            to,
            next,
            bare,
            ends: false,
            torn: false,
        },
        Cut::Last {
            from,
            to,
            bare,
            next,
        } => Span {
            from,
            to,
            next,
            bare,
            ends: true,
            torn: false,
        },
        Cut::Torn => Span {
            from: 0,
            to: 0,
            next: 0,
            bare: true,
            ends: false,
            torn: true,
        },
    }
}
