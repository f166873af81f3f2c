// The start tag of a variable with its use, and names compared: those that have served as filters, the filter that a text names, and the
// names of all variables. Above it stands the sheet.
#![tactic(auto)]

ghost use Rattle.std.specs.Prelude.{◌≡◌, true, cond, ◌+◌, ◌*◌, ◌≤◌, ◌<◌, eqb, length};
ghost use Rattle.ascii.specs.Class.{Classes};
ghost use Rattle.ascii.specs.rule.Class.{upper_of};
ghost use Rattle.layout.specs.rule.Layout.{row_size, most_rows};
ghost use Rattle.names.specs.Name.{fits, key_of};
ghost use Rattle.contents.specs.rule.Content.{begun, signs_from};
ghost use Rattle.tags.specs.rule.Tag.{stretch_fits};
ghost use Rattle.reading.specs.rule.Result.{Is};
ghost use Rattle.bridge.specs.Tokens.{to_number};
ghost use Rattle.xml_reading.specs.rule.Element.{figure_of};
ghost use Rattle.xml_reading.specs.rule.Role.{type_at, use_at, may_serve, signs_in, alike, same_name};
ghost use Rattle.filters.specs.Code.{text_at, like_of, Ready, Meets, plain_of, Leads, column_in, name_in, served_in, Lying};
ghost use Rattle.filters.specs.Code.{title_tag, titled_by, TitleSaid, NamingSaid, FilteringSaid};
ghost use Rattle.filters.specs.Sums.{folded_of, sum_with, sum_from, sum_in, bin_of, Adds, Summing, Known, all_apart, Apart};
ghost use Rattle.filters.specs.Code.{ServedSaid, CountSaid, FoundSaid, FilterSaid, TakenSaid, UseSaid, NamesSaid};

use contents::{Cursor, Part};
use layout::{Header, Row};
use signs::Sign;
use tags::Tag;
use tokens::{Fault, Figures, OrFault, Quoted};

// ---- names, sign by sign
fn same_byte(standard: bool, b: u8, c: u8) -> bool
    ensures { result ≡ cond standard (eqb (upper_of b) (upper_of c)) (eqb b c) }
{
    if standard {
        return ascii::upper(b) == ascii::upper(c);
    }
    b == c
}

fn like(standard: bool, x: Sign, y: Sign) -> bool
    ensures { result ≡ like_of standard x y }
{
    match x {
        Sign::Byte(b) => match y {
            Sign::Byte(c) => same_byte(standard, b, c),
            Sign::Break => false,
        },
        Sign::Break => match y {
            Sign::Byte(_) => false,
            Sign::Break => true,
        },
    }
}

// Two names a sign on, which they share; or whether they are one.
#[derive(Clone, Copy)]
pub enum Met {
    On { a: Cursor, b: Cursor },
    Over(bool),
}

fn meet(latin: bool, standard: bool, s: &[u8], t: &[u8], a: Cursor, b: Cursor) -> Met
    requires { Ready s.now a × Ready t.now b }
    ensures { Meets latin standard s.now t.now a b result }
{
    let u = contents::next_sign(latin, s, a);
    let v = contents::next_sign(latin, t, b);
    match u {
        Part::One { sign: x, cursor: m } => match v {
            Part::One { sign: y, cursor: n } => {
                if like(standard, x, y) {
                    return Met::On { a: m, b: n };
                }
                Met::Over(false)
            }
            Part::Over => Met::Over(false),
        },
        Part::Over => match v {
            Part::One { sign: _, cursor: _ } => Met::Over(false),
            Part::Over => Met::Over(true),
        },
    }
}

// A byte that says itself wherever it stands in a text.
fn is_plain(b: u8) -> bool
    ensures { result ≡ plain_of b }
{
    (b < 128) & ((b != 60) & ((b != 38) & ((b != 93) & (b != 13))))
}

// How many bytes that say themselves two texts share at their start; none where they differ there. It answers for most names.
fn lead_of(standard: bool, s: &[u8], t: &[u8], p: usize, q: usize) -> Option<usize>
    requires { (p ≤ length s.now) × (q ≤ length t.now) }
    ensures { Leads standard s.now t.now p q result }
{
    let most = s.len() - p;
    for k in 0..most {
        if t.len() - q <= k {
            return Some(k);
        }
        let b = s[p + k];
        let c = t[q + k];
        if !(is_plain(b) & is_plain(c)) {
            return Some(k);
        }
        if !same_byte(standard, b, c) {
            return None;
        }
    }
    Some(most)
}

// The texts from p to the end of s and from q to the end of t.
fn same_rest(latin: bool, standard: bool, s: &[u8], t: &[u8], p: usize, q: usize) -> bool
    requires { (p ≤ length s.now) × (q ≤ length t.now) }
    ensures { result ≡ alike standard (signs_from latin s.now (begun p)) (signs_from latin t.now (begun q)) }
{
    let mut a = contents::start_at(p);
    let mut b = contents::start_at(q);
    loop {
        match meet(latin, standard, s, t, a, b) {
            Met::On { a: m, b: n } => {
                a = m;
                b = n;
            }
            Met::Over(r) => {
                return r;
            }
        }
    }
}

fn same_from(latin: bool, standard: bool, s: &[u8], t: &[u8], p: usize, q: usize) -> bool
    requires { (p ≤ length s.now) × (q ≤ length t.now) }
    ensures { result ≡ alike standard (signs_from latin s.now (begun p)) (signs_from latin t.now (begun q)) }
{
    match lead_of(standard, s, t, p, q) {
        Some(k) => same_rest(latin, standard, s, t, p + k, q + k),
        None => false,
    }
}

// Whether two texts that were read are one name: the text of n bytes from p on, and that of m bytes from q on.
pub fn same_name(
    latin: bool,
    standard: bool,
    d: &[u8],
    p: usize,
    n: usize,
    q: usize,
    m: usize,
) -> bool
    requires { (p + n ≤ length d.now) × (q + m ≤ length d.now) }
    ensures { result ≡ same_name latin standard d.now (text_at p n) (text_at q m) }
{
    let e = p + n;
    let f = q + m;
    same_from(latin, standard, &d[..e], &d[..f], p, q)
}

// ---- sums of names
// Names that are one have one sum, so that names whose sums differ need not be compared. The room holds the sum of each row's name; behind
// them stand bins, by what is left of a sum: 1 where a name with such a sum has served as a filter.
pub const SUMS: usize = 2 * Header::MOST_ROWS;

fn bin_of(sum: u16) -> usize
    ensures { (result ≡ bin_of sum) × (most_rows ≤ result) × (result < 1024) }
{
    Header::MOST_ROWS + (sum % 512) as usize
}

// A sum with one sign more: case is set aside whatever the names' rule.
fn sum_with(sum: u16, x: u64) -> u16
    requires { x ≤ 256 }
    ensures { result ≡ sum_with sum x }
{
    ((sum as u64 * 31 + x) % 65536) as u16
}

fn folded(sign: Sign) -> u64
    ensures { (result ≡ folded_of sign) × (result ≤ 256) }
{
    match sign {
        Sign::Byte(b) => ascii::upper(b) as u64,
        Sign::Break => 256,
    }
}

// The sum of a text's first bytes that say themselves, and the place behind them.
#[derive(Clone, Copy)]
pub struct Summed {
    pub sum: u16,
    pub next: usize,
}

fn lead_sum(d: &[u8], at: usize) -> Summed
    requires { at ≤ length d.now }
    ensures { Adds d.now at result }
{
    let mut sum: u16 = 0;
    for i in at..d.len() {
        let b = d[i];
        if !is_plain(b) {
            return Summed { sum, next: i };
        }
        sum = sum_with(sum, ascii::upper(b) as u64);
    }
    Summed { sum, next: d.len() }
}

// That of the signs from a place on, behind those of a sum.
fn rest_sum(latin: bool, d: &[u8], at: usize, before: u16) -> u16
    requires { at ≤ length d.now }
    ensures { result ≡ sum_from before (signs_from latin d.now (begun at)) }
{
    // most names end here
    if d.len() <= at {
        return before;
    }
    let mut c = contents::start_at(at);
    let mut sum = before;
    loop {
        match contents::next_sign(latin, d, c) {
            Part::One { sign, cursor } => {
                sum = sum_with(sum, folded(sign));
                c = cursor;
            }
            Part::Over => {
                return sum;
            }
        }
    }
}

fn sum_from(latin: bool, d: &[u8], at: usize) -> u16
    requires { at ≤ length d.now }
    ensures { result ≡ sum_from 0 (signs_from latin d.now (begun at)) }
{
    let s = lead_sum(d, at);
    rest_sum(latin, d, s.next, s.sum)
}

// That of the text of n bytes from p on.
fn name_sum(latin: bool, d: &[u8], p: usize, n: usize) -> u16
    requires { p + n ≤ length d.now }
    ensures { result ≡ sum_in latin d.now (text_at p n) }
{
    let e = p + n;
    sum_from(latin, &d[..e], p)
}

// ---- the rows of the variables before
// A number of row i.
fn column(rows: &[i64], i: usize, k: usize) -> usize
    requires { (length rows.now ≡ row_size * most_rows) × (i < most_rows) × (k < row_size) }
    ensures { result ≡ column_in rows.now i k }
{
    cells::count_at(rows, Row::SIZE * i + k)
}

// One row more: the sum of its name, and the bin of the name that filters it.
pub fn note_row(latin: bool, d: &[u8], rows: &[i64], i: usize, sums: &mut [u16; SUMS])
    requires lying { Lying (length d.now) rows.now (i + 1) }
    requires summing { Summing latin d.now rows.now i sums.old }
    ensures { Summing latin d.now rows.now (i + 1) sums.new }
{
    let q = column(rows, i, Row::NAME);
    let m = column(rows, i, Row::NAME_LEN);
    sums[i] = name_sum(latin, d, q, m);
    let f = column(rows, i, Row::FILTER);
    if f != 0 {
        let k = bin_of(sums[f - 1]);
        sums[k] = 1;
    }
}

// Whether the text of n bytes from p on is the name of row i.
fn is_name(
    latin: bool,
    standard: bool,
    d: &[u8],
    rows: &[i64],
    count: usize,
    i: usize,
    p: usize,
    n: usize,
    sums: &[u16],
    sum: u16,
) -> bool
    requires known { Known latin d.now rows.now count sums.now }
    requires i_lt_count { (i < count) × (p + n ≤ length d.now) × (sum ≡ sum_in latin d.now (text_at p n)) }
    ensures { result ≡ same_name latin standard d.now (text_at p n) (name_in rows.now i) }
{
    if sums[i] != sum {
        return false;
    }
    let q = column(rows, i, Row::NAME);
    let m = column(rows, i, Row::NAME_LEN);
    same_name(latin, standard, d, p, n, q, m)
}

// Whether none of the sixteen sums from i on is that sum. Nothing leaves the loop early: so the compiler looks at all of them at once.
fn all_apart(sums: &[u16], i: usize, sum: u16) -> bool
    requires { i + 16 ≤ length sums.now }
    ensures { result ≡ all_apart sums.now sum i 16 }
{
    let mut apart = true;
    for k in 0..16 {
        apart = apart & (sums[i + k] != sum);
    }
    apart
}

// A row from a row on with none of that sum before it, at whole steps of sixteen.
fn pass_wide(sums: &[u16], count: usize, from: usize, sum: u16) -> usize
    requires { (from ≤ count) × (count ≤ length sums.now) }
    ensures { Apart sums.now sum count from result }
{
    if count < 16 {
        return from;
    }
    let last = count - 16;
    let mut i = from;
    // no `for`: the place where the steps stop is the answer
    while i <= last {
        if !all_apart(sums, i, sum) {
            return i;
        }
        i += 16;
    }
    i
}

// The first row from a row on whose name has that sum; the count where none has. Most rows have another, and names are compared only
// where sums agree: so a name is asked of all rows before at less than an instruction each.
fn pass_apart(sums: &[u16], count: usize, from: usize, sum: u16) -> usize
    requires { (from ≤ count) × (count ≤ length sums.now) }
    ensures { Apart sums.now sum count from result }
{
    for i in pass_wide(sums, count, from, sum)..count {
        if sums[i] == sum {
            return i;
        }
    }
    count
}

// Whether row i has a filter, and the text is that one's name.
fn is_served(
    latin: bool,
    standard: bool,
    d: &[u8],
    rows: &[i64],
    count: usize,
    i: usize,
    p: usize,
    n: usize,
    sums: &[u16],
    sum: u16,
) -> bool
    requires known { Known latin d.now rows.now count sums.now }
    requires i_lt_count { (i < count) × (p + n ≤ length d.now) × (sum ≡ sum_in latin d.now (text_at p n)) }
    ensures { result ≡ served_in latin standard d.now rows.now (text_at p n) i }
{
    let f = column(rows, i, Row::FILTER);
    if f == 0 {
        return false;
    }
    is_name(latin, standard, d, rows, count, f - 1, p, n, sums, sum)
}

// Whether the text is the name of a row that has served as a filter.
pub fn has_served(
    latin: bool,
    standard: bool,
    d: &[u8],
    rows: &[i64],
    count: usize,
    p: usize,
    n: usize,
    sums: &[u16],
) -> bool
    requires known { Known latin d.now rows.now count sums.now }
    requires n_in_bounds { p + n ≤ length d.now }
    ensures { ServedSaid latin standard d.now rows.now count (text_at p n) result }
{
    let sum = name_sum(latin, d, p, n);
    let bin = bin_of(sum);
    if sums[bin] == 0 {
        return false;
    }
    if pass_apart(sums, count, 0, sum) == count {
        return false;
    }
    for i in 0..count {
        if is_served(latin, standard, d, rows, count, i, p, n, sums, sum) {
            return true;
        }
    }
    false
}

// How many rows have the text as their name.
fn count_named(
    latin: bool,
    standard: bool,
    d: &[u8],
    rows: &[i64],
    count: usize,
    p: usize,
    n: usize,
    sums: &[u16],
    sum: u16,
) -> usize
    requires known { Known latin d.now rows.now count sums.now }
    requires n_in_bounds { (p + n ≤ length d.now) × (sum ≡ sum_in latin d.now (text_at p n)) }
    ensures { CountSaid latin standard d.now rows.now count (text_at p n) result }
{
    let mut found: usize = 0;
    let mut i: usize = 0;
    while i < count {
        let k = pass_apart(sums, count, i, sum);
        if count <= k {
            return found;
        }
        i = k + 1;
        if is_name(latin, standard, d, rows, count, k, p, n, sums, sum) {
            found += 1;
        }
    }
    found
}

// The row, plus one, of the first logical with that name; 0 where there is none.
fn find_logical(
    latin: bool,
    standard: bool,
    d: &[u8],
    rows: &[i64],
    count: usize,
    p: usize,
    n: usize,
    sums: &[u16],
    sum: u16,
) -> usize
    requires known { Known latin d.now rows.now count sums.now }
    requires n_in_bounds { (p + n ≤ length d.now) × (sum ≡ sum_in latin d.now (text_at p n)) }
    ensures { FoundSaid latin standard d.now rows.now count (text_at p n) result }
{
    let mut i: usize = 0;
    while i < count {
        let k = pass_apart(sums, count, i, sum);
        if count <= k {
            return 0;
        }
        let named = is_name(latin, standard, d, rows, count, k, p, n, sums, sum);
        let kind = column(rows, k, Row::TYPE);
        i = k + 1;
        if named & (kind == 5) {
            return i;
        }
    }
    0
}

// The filter that the text of n bytes from p on names, for a variable whose own name has m bytes from q on: 0 where the rule is broken.
pub fn find_filter(
    latin: bool,
    standard: bool,
    d: &[u8],
    rows: &[i64],
    count: usize,
    q: usize,
    m: usize,
    usage: usize,
    p: usize,
    n: usize,
    sums: &[u16],
) -> usize
    requires known { Known latin d.now rows.now count sums.now }
    requires m_in_bounds { (q + m ≤ length d.now) × (p + n ≤ length d.now) }
    ensures { FilterSaid latin standard d.now rows.now count (text_at q m) usage (text_at p n) result }
{
    if usage != 0 {
        return 0;
    }
    if same_name(latin, standard, d, p, n, q, m) {
        return 0;
    }
    let sum = name_sum(latin, d, p, n);
    if count_named(latin, standard, d, rows, count, p, n, sums, sum) != 1 {
        return 0;
    }
    find_logical(latin, standard, d, rows, count, p, n, sums, sum)
}

// ---- uses
// A serial is a character or a quantity, a weight a quantity.
fn may_serve(usage: usize, kind: usize) -> bool
    ensures { result ≡ may_serve usage kind }
{
    (kind == 3) | ((usage == 1) & (kind == 4))
}

// Whether a row has that use.
fn use_taken(rows: &[i64], count: usize, usage: usize) -> bool
    requires { (length rows.now ≡ row_size * most_rows) × (count ≤ most_rows) }
    ensures { TakenSaid rows.now count usage result }
{
    for i in 0..count {
        if column(rows, i, Row::USE) == usage {
            return true;
        }
    }
    false
}

// Whether a use is wrong for a variable of that type, or taken.
pub fn use_wrong(rows: &[i64], count: usize, usage: usize, kind: usize) -> bool
    requires { (length rows.now ≡ row_size * most_rows) × (count ≤ most_rows) }
    ensures { UseSaid rows.now count usage kind result }
{
    if usage == 0 {
        return false;
    }
    if !may_serve(usage, kind) {
        return true;
    }
    use_taken(rows, count, usage)
}

// ---- the start tag of a variable
// Its ident, its type, its use, and the place behind it.
#[derive(Clone, Copy)]
pub enum Titled {
    Is {
        ident: u64,
        kind: usize,
        usage: usize,
        next: usize,
    },
    Not(Fault),
}

// Version 1.1 has no use.
fn read_title(bad: bool, d: &[u8], place: usize, end: usize, old: bool) -> Tag
    requires { end ≤ length d.now }
    ensures { result ≡ title_tag bad d.now old place end }
{
    if old {
        return tags::read_tag(bad, d, place, end, b"ident", b"type", b"", 1, 4, 0, 2);
    }
    tags::read_tag(bad, d, place, end, b"ident", b"type", b"use", 1, 4, 5, 2)
}

// The number that a stretch of that form says.
fn figure_at(d: &[u8], v: usize, e: usize, next: usize) -> OrFault<Figures>
    requires { (v ≤ e) × (e ≤ length d.now) × (stretch_fits 1 d.now v e ≡ true) }
    ensures { result ≡ to_number (Is (figure_of d.now v e) next) }
{
    match spans::figures_in(&d[v..e]) {
        Some((size, count)) => Ok(Figures {
            size,
            count,
            place: v,
            next,
        }),
        None => Err(Fault {
            number: 2,
            place: v,
        }),
    }
}

fn kind_at(d: &[u8], v: usize, e: usize) -> usize
    requires { (v ≤ e) × (e ≤ length d.now) }
    ensures { result ≡ type_at d.now v e }
{
    forms::kind_in(&d[v..e])
}

fn use_at(d: &[u8], v: usize, e: usize) -> usize
    requires { (v ≡ 0 → ⊥) → (v ≤ e) × (e ≤ length d.now) }
    ensures { result ≡ use_at d.now v e }
{
    if v == 0 {
        return 0;
    }
    forms::use_in(&d[v..e])
}

// 5 and 8, then 51, then 52; then 2 at `/>`, since something was due inside.
fn judge_title(
    i: OrFault<Figures>,
    unknown: usize,
    wrong: bool,
    at: usize,
    empty: bool,
    place: usize,
    kind: usize,
    usage: usize,
) -> Titled
    ensures { result ≡ titled_by i unknown wrong at empty place kind usage }
{
    match i {
        Ok(x) => {
            if unknown != 0 {
                return Titled::Not(Fault {
                    number: 51,
                    place: unknown,
                });
            }
            if wrong {
                return Titled::Not(Fault {
                    number: 52,
                    place: at,
                });
            }
            if empty {
                return Titled::Not(Fault { number: 2, place });
            }
            Titled::Is {
                ident: x.size,
                kind,
                usage,
                next: x.next,
            }
        }
        Err(f) => Titled::Not(f),
    }
}

// The start tag of a variable, whose < stands at `place` and whose name ends at `end`, behind `count` variables with these rows, whose
// idents are marked.
pub fn title_at(
    bad: bool,
    d: &[u8],
    place: usize,
    end: usize,
    old: bool,
    seen: &[u8],
    count: usize,
    rows: &[i64],
) -> Titled
    requires end_in_bounds { (end ≤ length d.now) × (length seen.now ≡ 10000) }
    requires rows_len { (length rows.now ≡ row_size * most_rows) × (count ≤ most_rows) }
    ensures { TitleSaid bad d.now old seen.now rows.now count place end result }
{
    match read_title(bad, d, place, end, old) {
        Tag::Read {
            held,
            empty,
            place: q,
            next,
        } => {
            let n = figure_at(d, held.a, held.ae, next);
            let i = variables::judge_ident(seen, count, n);
            let kind = kind_at(d, held.b, held.be);
            let usage = use_at(d, held.c, held.ce);
            let wrong = use_wrong(rows, count, usage, kind);
            judge_title(i, held.unknown, wrong, held.c, empty, q, kind, usage)
        }
        Tag::Fault { number, place: q } => Titled::Not(Fault { number, place: q }),
    }
}

// ---- names and filters
// `<name>`: 52 where it is that of a row that has served as a filter.
pub fn naming_at(
    bad: bool,
    latin: bool,
    standard: bool,
    d: &[u8],
    rows: &[i64],
    count: usize,
    place: usize,
    end: usize,
    sums: &[u16],
) -> OrFault<Quoted>
    requires known { Known latin d.now rows.now count sums.now }
    requires end_in_bounds { end ≤ length d.now }
    ensures { NamingSaid bad latin standard d.now rows.now count place end result }
{
    match elements::text_at(bad, d, place, end, b"name", 0) {
        Ok(t) => {
            if has_served(latin, standard, d, rows, count, t.place, t.length, sums) {
                return Err(Fault {
                    number: 52,
                    place: t.place,
                });
            }
            Ok(t)
        }
        Err(f) => Err(f),
    }
}

// The row, plus one, that filters a variable, and the place behind `</filter>`.
#[derive(Clone, Copy)]
pub enum Filtered {
    Is { filter: usize, next: usize },
    Not(Fault),
}

// `<filter>`, of a variable of that use whose name has m bytes from q on.
pub fn filter_at(
    bad: bool,
    latin: bool,
    standard: bool,
    d: &[u8],
    rows: &[i64],
    count: usize,
    q: usize,
    m: usize,
    usage: usize,
    place: usize,
    end: usize,
    sums: &[u16],
) -> Filtered
    requires known { Known latin d.now rows.now count sums.now }
    requires m_in_bounds { (q + m ≤ length d.now) × (end ≤ length d.now) }
    ensures { FilteringSaid bad latin standard d.now rows.now count (text_at q m) usage place end result }
{
    match elements::text_at(bad, d, place, end, b"filter", 0) {
        Ok(t) => {
            let filter = find_filter(
                latin, standard, d, rows, count, q, m, usage, t.place, t.length, sums,
            );
            if filter == 0 {
                return Filtered::Not(Fault {
                    number: 52,
                    place: t.place,
                });
            }
            Filtered::Is {
                filter,
                next: t.next,
            }
        }
        Err(f) => Filtered::Not(f),
    }
}

// ---- standard names
// Whether a byte may stand behind so many bytes of a name: as crate names has it.
fn may_stand(classes: &[u8; 256], count: usize, b: u8) -> bool
    requires { Classes classes.now }
    ensures { result ≡ fits count b }
{
    let class = ascii::class_of(classes, b);
    (class == ascii::LETTER) | ((0 < count) & (class == ascii::DIGIT))
}

// The number, as crate names has them, of the name from a place to the end of d.
fn name_key(classes: &[u8; 256], latin: bool, d: &[u8], at: usize) -> u64
    requires classes { Classes classes.now }
    requires at_in_bounds { at ≤ length d.now }
    ensures { result ≡ key_of 0 0 (signs_from latin d.now (begun at)) }
{
    let mut c = contents::start_at(at);
    let mut key: u64 = 0;
    for count in 0..9 {
        match contents::next_sign(latin, d, c) {
            Part::One { sign, cursor } => match sign {
                Sign::Byte(byte) => {
                    if !may_stand(classes, count, byte) {
                        return 0;
                    }
                    if count == 8 {
                        return 0;
                    }
                    key = key * 256 + ascii::upper(byte) as u64;
                    c = cursor;
                }
                Sign::Break => {
                    return 0;
                }
            },
            Part::Over => {
                return key;
            }
        }
    }
    0
}

fn row_key(classes: &[u8; 256], latin: bool, d: &[u8], rows: &[i64], count: usize, i: usize) -> u64
    requires classes { Classes classes.now }
    requires lying { Lying (length d.now) rows.now count }
    requires i_lt_count { i < count }
    ensures { result ≡ key_of 0 0 (signs_in latin d.now (name_in rows.now i)) }
{
    let q = column(rows, i, Row::NAME);
    let e = q + column(rows, i, Row::NAME_LEN);
    name_key(classes, latin, &d[..e], q)
}

// The first row whose name breaks the rule of standard names; the count where none does.
pub fn names_fault(classes: &[u8; 256], latin: bool, d: &[u8], rows: &[i64], count: usize) -> usize
    requires classes { Classes classes.now }
    requires lying { Lying (length d.now) rows.now count }
    ensures { NamesSaid latin d.now rows.now count result }
{
    let mut keys = [0u64; Header::MOST_ROWS];
    for i in 0..count {
        keys[i] = row_key(classes, latin, d, rows, count, i);
    }
    names::first_fault(&keys, count)
}
