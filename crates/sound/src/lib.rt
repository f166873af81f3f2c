// The test behind refusal 20: is a table well formed? It asks nothing of the table. Above it stand all calls on records and files,
// which test the table by it and then use what it gives.
#![tactic(auto)]

ghost use Rattle.std.specs.Prelude.{◌≡◌, ◌+◌, ◌*◌, ◌≤◌, ◌<◌, min, max, leb, length, true, ◌&&◌};
ghost use Rattle.ascii.specs.rule.Tens.{Tens, digits_of};
ghost use Rattle.below.specs.rule.Below.{◌and◌};
ghost use Rattle.widths.specs.rule.Width.{need, size_of};
ghost use Rattle.widths.specs.Width.{FewDecimals};
ghost use Rattle.sound.specs.rule.Sound.{head_counts, head_sums, texts_good, subfields_good, line_plain, lines_plain, range_width};
ghost use Rattle.sound.specs.rule.Sound.{holds_width, room_good, row_good, rows_good, value_at, idents_differ, TableTested};
ghost use Rattle.sound.specs.Types.{whole_is, undivided_is, format_good, unranged_is, valued_is, valueless_is, type_good, shared_good};
ghost use Rattle.sound.specs.Types.{Sited};
ghost use Rattle.strides.specs.Hull.{Blocked, hull_from};
ghost use Rattle.sound.specs.Block.{Standing, hull_width, Placed};
ghost use Rattle.sound.specs.Laid.{Over};
ghost use Rattle.sound.specs.Values.{range_within, numbers_within, bottom_of, top_of, ends_width, valued_by, spread_by, multiple_of};
ghost use Rattle.sound.specs.Values.{quantity_of, values_by, range_block, BlockTold};
ghost use Rattle.layout.specs.rule.Layout.{row_size, columns_at};
ghost use Rattle.layout.specs.rule.Row.{kind_of, row_of};
ghost use Rattle.layout.specs.declared.Kind.TheVariants.{Single};
ghost use Rattle.layout.specs.declared.Spread.TheVariants.{Bits, Fields};

use layout::{Columns, Format, Header, Kind, Line, Row, Spread};
use strides::{Block, Hull};

fn head_counts(h: Header) -> bool
    ensures { result ≡ head_counts h }
{
    ((h.mark == Header::MARK) | (h.mark == Header::MARK_XML))
        & (1 <= h.rows)
        & (h.rows <= Header::MOST_ROWS)
        & (h.lines <= Header::MOST_LINES)
}

fn head_sums(h: Header, length: usize) -> bool
    requires { (h.rows ≤ 512) × (h.lines ≤ 4096) }
    ensures { result ≡ head_sums h length }
{
    (h.rows_at == Header::SIZE)
        & (h.lines_at == Row::base(h.rows))
        & (Line::base(h.rows, h.lines) <= length)
}

// No decimals and no point.
fn whole(c: Columns) -> bool
    ensures { result ≡ whole_is c }
{
    (c.decimals == 0) & (c.point == 0)
}

fn undivided(c: Columns) -> bool
    ensures { result ≡ undivided_is c }
{
    (c.subfields == 0) & (c.subwidth == 0)
}

// A point and few decimals, some where its code is 2, or neither.
fn format_good(c: Columns) -> bool
    ensures { result ≡ format_good c }
{
    if c.point == 0 {
        return c.decimals == 0;
    }
    ((c.point == 1) | ((c.point == 2) & (1 <= c.decimals))) & (c.decimals <= 9)
}

// A range, or at least a line.
fn valued(c: Columns) -> bool
    ensures { result ≡ valued_is c }
{
    if c.range == 1 {
        return true;
    }
    (c.range == 0) & unranged(c) & (1 <= c.lines)
}

// A range's ends, where there is none.
fn unranged(c: Columns) -> bool
    ensures { result ≡ unranged_is c }
{
    let from = c.from;
    let to = c.to;
    cells::same(from, 0) & cells::same(to, 0)
}

fn valueless(c: Columns) -> bool
    ensures { result ≡ valueless_is c }
{
    (c.range == 0) & (c.lines == 0) & unranged(c)
}

// Does a row have the columns that its type has, and no others? Each type tests its own, so that a row passes few tests. Those without
// numbers are tested apart.
fn type_good(c: Columns) -> bool
    requires { c.kind < 4 }
    ensures { result ≡ type_good c }
{
    let kind = c.kind;
    match kind {
        1 => whole(c) & undivided(c) & valued(c),
        2 => whole(c) & ((c.subfields == 0) == (c.subwidth == 0)) & valued(c),
        3 => undivided(c) & format_good(c) & valued(c),
        _ => false,
    }
}

fn texts_good(c: Columns) -> bool
    ensures { result ≡ texts_good c }
{
    (c.name <= 1_048_576)
        & (c.name_len <= 1_048_576)
        & (c.label <= 1_048_576)
        & (c.label_len <= 1_048_576)
}

// Are the columns good that rows of all types have, with `before` lines before a row's own, of the table's e?
fn shared_good(e: usize, before: usize, c: Columns) -> bool
    requires { before ≤ e }
    ensures { result ≡ shared_good e before c }
{
    ((1 <= c.ident) & (c.ident <= 9_999))
        & ((1 <= c.start) & (c.start <= c.finish) & (c.finish <= 16_384))
        & texts_good(c)
        & (c.before == before)
        & (c.lines <= e - before)
}

fn line_plain(l: Line) -> bool
    ensures { result ≡ line_plain l }
{
    if 1 < l.special {
        return false;
    }
    if 1_048_576 < l.text {
        return false;
    }
    l.text_len <= 1_048_576
}

// What the numbers of some lines make, one over the other: none is above that.
#[derive(Clone, Copy)]
struct Laid {
    special: usize,
    text: usize,
    text_len: usize,
}

// The same with line k.
fn with_line(t: &[i64], v: usize, k: usize, l: Laid) -> Laid
    requires standing { Standing t.now v k 1 }
    requires over { Over t.now v k l }
    ensures { Over t.now v (k + 1) result }
{
    let line = Line::read(t, Line::base(v, k));
    Laid {
        special: l.special | line.special,
        text: l.text | line.text,
        text_len: l.text_len | line.text_len,
    }
}

// The same with four lines from k on.
fn with_four(t: &[i64], v: usize, k: usize, l: Laid) -> Laid
    requires standing { Standing t.now v k 4 }
    requires over { Over t.now v k l }
    ensures { Over t.now v (k + 4) result }
{
    let one = with_line(t, v, k, l);
    let two = with_line(t, v, k + 1, one);
    let three = with_line(t, v, k + 2, two);
    with_line(t, v, k + 3, three)
}

// The same with line k, where the table has it.
fn with_next(t: &[i64], v: usize, e: usize, k: usize, l: Laid) -> Laid
    requires standing { Standing t.now v 0 e }
    requires over { Over t.now v (min e k) l }
    ensures { Over t.now v (min e (k + 1)) result }
{
    if e <= k {
        return l;
    }
    with_line(t, v, k, l)
}

// Are the flags and texts of all e lines low, where those of all but the last three, from k on, make l?
fn rest_low(t: &[i64], v: usize, e: usize, k: usize, l: Laid) -> bool
    requires standing { Standing t.now v 0 e × (k ≤ e) × (e ≤ k + 3) }
    requires over { Over t.now v k l }
    ensures { result ≡ true → lines_plain t.now v 0 e ≡ true }
{
    let one = with_next(t, v, e, k, l);
    let two = with_next(t, v, e, k + 1, one);
    let laid = with_next(t, v, e, k + 2, two);
    (laid.special < 2) & (laid.text < 1_048_576) & (laid.text_len < 1_048_576)
}

// Are the flags and texts of all e lines of a table low? It goes by what all of them make, four in a turn, and may miss lines that are
// good, but only where a text begins or ends at the last byte of the longest definition.
fn lines_low(t: &[i64], v: usize, e: usize) -> bool
    requires { Standing t.now v 0 e }
    ensures { result ≡ true → lines_plain t.now v 0 e ≡ true }
{
    let mut laid = Laid {
        special: 0,
        text: 0,
        text_len: 0,
    };
    let fours = e / 4;
    for k in 0..fours {
        laid = with_four(t, v, 4 * k, laid);
    }
    rest_low(t, v, e, 4 * fours, laid)
}

// Are the flags and texts of the n lines from b on good? Where those of all lines are low, nobody looks again.
fn lines_plain(t: &[i64], v: usize, b: usize, n: usize, low: bool) -> bool
    requires standing { Standing t.now v b n }
    requires n_value { low ≡ true → lines_plain t.now v b n ≡ true }
    ensures { result ≡ lines_plain t.now v b n }
{
    if low {
        return true;
    }
    for k in 0..n {
        if !line_plain(Line::read(t, Line::base(v, b + k))) {
            return false;
        }
    }
    true
}

// Whether the values of the n lines from b on differ, and the least and the most of them.
fn block_of(t: &[i64], v: usize, b: usize, n: usize) -> Block
    requires { Standing t.now v b n × (1 ≤ n) }
    ensures { Blocked (value_at t.now v b) n result }
{
    strides::block_of(t, Line::base(v, b), Line::SIZE, n)
}

pub fn larger(a: usize, b: usize) -> usize
    ensures { result ≡ max a b }
{
    a.max(b)
}

// The bytes that the wider of two numbers takes.
fn wider(powers: &[u64; 16], kind: Kind, a: i64, b: i64) -> usize
    requires tens { Tens powers.now }
    requires few_decimals { FewDecimals kind }
    ensures { result ≡ max (need kind a) (need kind b) }
{
    larger(
        widths::needed(powers, kind, a),
        widths::needed(powers, kind, b),
    )
}

// The bytes that the range's ends take.
pub fn range_width(powers: &[u64; 16], r: Row) -> usize
    requires tens { Tens powers.now }
    requires few_decimals { FewDecimals r.kind }
    ensures { result ≡ range_width r }
{
    let kind = r.kind;
    let from = r.from;
    let to = r.to;
    if r.range {
        wider(powers, kind, from, to)
    } else {
        0
    }
}

// Do n subfields of b bytes fit a position?
fn subfields_fit(n: usize, b: usize, start: usize, finish: usize) -> bool
    requires le_n { (1 ≤ n) × (1 ≤ b) }
    requires le_start { (1 ≤ start) × (start ≤ 16384) × (finish ≤ 16384) }
    ensures { result ≡ leb (start + n * b) (finish + 1) }
{
    if 16_384 < n {
        return false;
    }
    if 16_384 < b {
        return false;
    }
    start + n * b <= finish + 1
}

// Does the position hold the row's value?
pub fn room_good(r: Row) -> bool
    requires { Placed r × (r.width ≤ 9999) }
    ensures { result ≡ room_good r.kind r }
{
    let kind = r.kind;
    let holds = r.start + r.width <= r.finish + 1;
    match kind {
        Kind::Multiple(s) => match s {
            Spread::Fields { count, width } => {
                (r.width <= width) & subfields_fit(count, width, r.start, r.finish)
            }
            Spread::Bits => holds,
        },
        Kind::Single => holds,
        Kind::Quantity(_) => holds,
        Kind::Character => holds,
        Kind::Logical => holds,
    }
}

// The bytes that the widest number of a hull takes.
pub fn hull_width(powers: &[u64; 16], kind: Kind, h: Hull) -> usize
    requires tens { Tens powers.now }
    requires few_decimals { FewDecimals kind }
    ensures { result ≡ hull_width kind h }
{
    let least = h.least;
    let most = h.most;
    wider(powers, kind, least, most)
}

// Is a row's range, where it has one, not reversed and within limits?
fn range_fits(c: Columns, low: i64, high: i64) -> bool
    ensures { result ≡ range_within (row_of c) low high }
{
    let from = c.from;
    let to = c.to;
    if c.range == 1 {
        return (low <= from) & (from <= to) & (to <= high);
    }
    true
}

// Do a row's range and the hull of its lines lie within limits?
fn numbers_fit(c: Columns, h: Hull, low: i64, high: i64) -> bool
    ensures { result ≡ numbers_within (row_of c) h low high }
{
    let least = h.least;
    let most = h.most;
    if !range_fits(c, low, high) {
        return false;
    }
    (low <= least) & (most <= high)
}

// The least of a row's range and lines.
fn bottom_of(c: Columns, h: Hull) -> i64
    ensures { result ≡ bottom_of (row_of c) h }
{
    let from = c.from;
    let least = h.least;
    if c.range == 1 {
        return strides::lesser(least, from);
    }
    least
}

// The most of a row's range and lines.
fn top_of(c: Columns, h: Hull) -> i64
    ensures { result ≡ top_of (row_of c) h }
{
    let to = c.to;
    let most = h.most;
    if c.range == 1 {
        return strides::greater(most, to);
    }
    most
}

// The digits of a row's largest number.
fn top_digits(powers: &[u64; 16], c: Columns, h: Hull) -> usize
    requires { Tens powers.now }
    ensures { result ≡ digits_of (size_of (top_of (row_of c) h)) }
{
    ascii::digit_count(powers, cells::signed_of(top_of(c, h)).size)
}

// Does the position hold the row's width?
fn width_held(c: Columns) -> bool
    requires { Sited c }
    ensures { result ≡ holds_width (row_of c) }
{
    c.width <= c.finish + 1 - c.start
}

// Are the numbers and the width of a single good? The largest number is the widest.
fn single_fits(powers: &[u64; 16], c: Columns, h: Hull) -> bool
    requires tens { Tens powers.now }
    requires sited { Sited c }
    ensures { result ≡ valued_by Single (row_of c) h }
{
    if !numbers_fit(c, h, 1, 9_999) {
        return false;
    }
    (c.width == top_digits(powers, c, h)) & width_held(c)
}

// Is the width of a bitstring its largest number, and does the position hold it?
fn bits_fit(c: Columns, h: Hull) -> bool
    requires { Sited c }
    ensures { result ≡ spread_by Bits (row_of c) h }
{
    (c.width == cells::signed_of(top_of(c, h)).size as usize) & width_held(c)
}

// Is the width of a spread that of its largest number, and do its subfields hold it and fit the position?
fn fields_fit(powers: &[u64; 16], c: Columns, h: Hull) -> bool
    requires tens { Tens powers.now }
    requires sited { Sited c }
    requires le_subfields { (1 ≤ c.subfields) × (1 ≤ c.subwidth) }
    ensures { result ≡ spread_by (Fields c.subfields c.subwidth) (row_of c) h }
{
    if c.width != top_digits(powers, c, h) {
        return false;
    }
    (c.width <= c.subwidth) & subfields_fit(c.subfields, c.subwidth, c.start, c.finish)
}

// Are the numbers and the width of a multiple good?
fn multiple_fits(powers: &[u64; 16], c: Columns, h: Hull) -> bool
    requires tens { Tens powers.now }
    requires sited { Sited c }
    requires c_value { subfields_good c ≡ true }
    ensures { result ≡ valued_by (multiple_of c) (row_of c) h }
{
    if !numbers_fit(c, h, 1, 9_999) {
        return false;
    }
    if c.subfields == 0 {
        return bits_fit(c, h);
    }
    fields_fit(powers, c, h)
}

// The bytes that the wider end of a quantity's numbers takes.
fn quantity_ends(powers: &[u64; 16], c: Columns, h: Hull) -> usize
    requires tens { Tens powers.now }
    requires decimals_bound { c.decimals ≤ 9 }
    ensures { result ≡ ends_width (quantity_of c) (row_of c) h }
{
    let f = Format {
        decimals: c.decimals,
        point: c.point,
    };
    larger(
        widths::quantity_width(powers, f, bottom_of(c, h)),
        widths::quantity_width(powers, f, top_of(c, h)),
    )
}

// Are the numbers and the width of a quantity good?
fn quantity_fits(powers: &[u64; 16], c: Columns, h: Hull) -> bool
    requires tens { Tens powers.now }
    requires sited { Sited c }
    requires decimals_bound { c.decimals ≤ 9 }
    ensures { result ≡ valued_by (quantity_of c) (row_of c) h }
{
    let f = Format {
        decimals: c.decimals,
        point: c.point,
    };
    let most = widths::most_size(powers, f);
    if !numbers_fit(
        c,
        h,
        cells::number_of(true, most),
        cells::number_of(false, most),
    ) {
        return false;
    }
    (c.width == quantity_ends(powers, c, h)) & width_held(c)
}

// Are the numbers and the width of a row good, by the hull of its lines, or of its range where it has none?
fn values_good(powers: &[u64; 16], c: Columns, h: Hull) -> bool
    requires tens { Tens powers.now }
    requires sited { Sited c }
    requires c_value { (type_good c ≡ true) × (c.kind < 4) }
    ensures { result ≡ values_by (kind_of c) (row_of c) h }
{
    let kind = c.kind;
    match kind {
        1 => single_fits(powers, c, h),
        2 => multiple_fits(powers, c, h),
        _ => quantity_fits(powers, c, h),
    }
}

// Has a row none of the columns that go by its type?
fn lacks_all(c: Columns) -> bool
    ensures { result ≡ (whole_is c && undivided_is c && valueless_is c) }
{
    whole(c) & undivided(c) & valueless(c)
}

// Is a row of a type without numbers good apart from the columns that all types have? It has no line.
fn bare_good(c: Columns) -> bool
    requires sited { Sited c }
    requires le_kind { 4 ≤ c.kind }
    ensures { result ≡ (type_good c and values_by (kind_of c) (row_of c) (hull_from c.from c.to)) }
{
    if 5 < c.kind {
        return false;
    }
    if !lacks_all(c) {
        return false;
    }
    if c.kind == 4 {
        return (1 <= c.width) & (c.width <= 4_096) & width_held(c);
    }
    (c.width == 1) & width_held(c)
}

// Is a row of a type with numbers good apart from the columns that all types have, and from its lines but for their hull?
fn typed_good(powers: &[u64; 16], c: Columns, h: Hull) -> bool
    requires tens { Tens powers.now }
    requires sited { Sited c × (c.kind < 4) }
    ensures { result ≡ (type_good c and values_by (kind_of c) (row_of c) h) }
{
    if !type_good(c) {
        return false;
    }
    values_good(powers, c, h)
}

// An answer for a row whose lines were not looked at, with the hull of its range.
fn range_block(c: Columns, differ: bool) -> Block
    ensures { result ≡ range_block c differ }
{
    let from = c.from;
    let to = c.to;
    let hull = Hull {
        least: from,
        most: to,
    };
    Block { differ, hull }
}

// Whether a row's lines are plain and their values differ, and the hull of these, or of the range where there are none.
fn lines_block(t: &[i64], v: usize, c: Columns, low: bool) -> Block
    requires standing { Standing t.now v c.before c.lines }
    requires lines_value { low ≡ true → lines_plain t.now v c.before c.lines ≡ true }
    ensures { BlockTold t.now v c result }
{
    if c.lines == 0 {
        return range_block(c, true);
    }
    if !lines_plain(t, v, c.before, c.lines, low) {
        return range_block(c, false);
    }
    block_of(t, v, c.before, c.lines)
}

// Is a row good, with `before` lines before its own? Its columns are read again behind its lines: they would be kept on the stack else.
fn whole_row_good(
    t: &[i64],
    powers: &[u64; 16],
    v: usize,
    e: usize,
    before: usize,
    at: usize,
    low: bool,
) -> bool
    requires tens { Tens powers.now }
    requires standing { Standing t.now v 0 e × (before ≤ e) × (at + row_size ≤ length t.now) }
    requires e_value { low ≡ true → lines_plain t.now v 0 e ≡ true }
    ensures { result ≡ row_good t.now v e before (columns_at t.now at) }
{
    let c = Columns::read(t, at);
    if !shared_good(e, before, c) {
        return false;
    }
    if 4 <= c.kind {
        return bare_good(Columns::read(t, at));
    }
    let block = lines_block(t, v, c, low);
    if !block.differ {
        return false;
    }
    let hull = block.hull;
    typed_good(powers, Columns::read(t, at), hull)
}

// Are all rows good, their lines counted up, and L the highest finish?
fn rows_good(t: &[i64], powers: &[u64; 16], h: Header, low: bool) -> bool
    requires tens { Tens powers.now }
    requires standing { Standing t.now h.rows 0 h.lines }
    requires lines_value { low ≡ true → lines_plain t.now h.rows 0 h.lines ≡ true }
    ensures { result ≡ rows_good t.now h }
{
    let v = h.rows;
    let e = h.lines;
    let mut sum: usize = 0;
    let mut high: usize = 0;
    for i in 0..v {
        let at = Row::base(i);
        if !whole_row_good(t, powers, v, e, sum, at, low) {
            return false;
        }
        let c = Columns::read(t, at);
        sum += c.lines;
        high = larger(high, c.finish);
    }
    (sum == e) & (high == h.length)
}

// Are the idents pairwise different?
fn idents_differ(t: &[i64], v: usize) -> bool
    requires { Standing t.now v 0 0 }
    ensures { result ≡ idents_differ t.now v }
{
    strides::differ(t, Header::SIZE, Row::SIZE, v)
}

// Is the table well formed?
pub fn well_formed(t: &[i64]) -> bool
    ensures { TableTested t.now result }
{
    let h = Header::read(t);
    if !head_counts(h) {
        return false;
    }
    if !head_sums(h, t.len()) {
        return false;
    }
    let powers = ascii::powers();
    let low = lines_low(t, h.rows, h.lines);
    if !rows_good(t, &powers, h, low) {
        return false;
    }
    if !idents_differ(t, h.rows) {
        return false;
    }
    uses::kind_good(t, h)
}
