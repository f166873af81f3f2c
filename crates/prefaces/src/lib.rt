// A definition in XML before its first variable and behind its last: the root with its version, the heading, the survey with its titles,
// the record; then what follows the variables. Above it stands the sheet, which puts the variables between.
#![tactic(auto)]

ghost use Rattle.std.specs.Prelude.{◌≡◌, cond, [], ◌+◌, ◌≤◌, ◌<◌, length};
ghost use Rattle.pairs.specs.declared.Stand.TheVariants as stand;
ghost use Rattle.pairs.specs.rule.Stand.{stand_of};
ghost use Rattle.tags.specs.rule.Tag.{tag_of};
ghost use Rattle.xml_reading.specs.rule.Word.{VERSION, OPTIONS, LANGUAGES, IDENT, HREF};
ghost use Rattle.reading.specs.rule.Result.{bind};
ghost use Rattle.reading.specs.rule.Token.{passed};
ghost use Rattle.xml_reading.specs.rule.Block.{rich};
ghost use Rattle.xml_reading.specs.rule.Sheet.{says_word, rooted, root, manner, perhaps_element, heading, survey, titles, preface};
ghost use Rattle.xml_reading.specs.rule.Sheet.{sheet_closed};
ghost use Rattle.xml_reading.specs.rule.Sheet as sheet;
ghost use Rattle.elements.specs.Code.{open_of, read_of, due_of, Within};
ghost use Rattle.prefaces.specs.Code.{rule_of, prefaced_of, reading_of, Begun, Ends, Inside, mannered_of, entered_of, titled_of};
ghost use Rattle.prefaces.specs.Code.{text_then, inner_of, inner_then, outer_of, end_of, cleared_of, end_then, survey_due, record_due};

use elements::{Due, Open};
use markup::Skip;
use pairs::Stand;
use prologs::{Prolog, Tail};
use tags::{Held, Tag};
use tokens::{Fault, OrFault};

// What the preface says that the variables go by: version 1.1, languages, standardnames; and the file's encoding.
#[derive(Clone, Copy)]
pub struct Manner {
    pub old: bool,
    pub languages: bool,
    pub standard: bool,
    pub latin: bool,
}

// The preface and the place behind it, or the refusal.
#[derive(Clone, Copy)]
pub enum Prefaced {
    Is { manner: Manner, next: usize },
    Not(Fault),
}

// A start tag where the root is due: the root's, or another, which is read for its form and is 51.
fn start_root(bad: bool, d: &[u8], place: usize, end: usize) -> Due
    requires { (place + 1 ≤ end) × (end ≤ length d.now) }
    ensures { (result ≡ due_of (rooted bad d.now (stand.Start place end))) × Begun d.now result }
{
    if tags::is_named(d, place + 1, end, b"sss") {
        return Due::At { place, end };
    }
    Due::Not(elements::misplaced(bad, d, place, end))
}

// An end tag where the root is due: it is read whole, then it is 50.
fn close_root(bad: bool, d: &[u8], place: usize, end: usize) -> Due
    requires { (place + 2 ≤ end) × (end ≤ length d.now) }
    ensures { (result ≡ due_of (rooted bad d.now (stand.Close place end))) × Begun d.now result }
{
    match pairs::read_shut(bad, d, place, end, b"") {
        Skip::Past(n) => Due::Not(Fault {
            number: 50,
            place: n,
        }),
        Skip::Broken(p) => Due::Not(Fault {
            number: 50,
            place: p,
        }),
    }
}

// What document 000 doesn't name, where the root is due: 51 for a processing instruction, else 50.
fn foreign_root(bad: bool, d: &[u8], p: usize) -> Due
    requires { p ≤ length d.now }
    ensures { (result ≡ due_of (rooted bad d.now (stand.Foreign p))) × Begun d.now result }
{
    if markup::is_there(d, p, b"<?") {
        return Due::Not(Fault {
            number: 51,
            place: p,
        });
    }
    Due::Not(Fault {
        number: 50,
        place: p,
    })
}

// The root, or what stands in its place.
fn root_at(bad: bool, d: &[u8], at: usize) -> Due
    requires { at ≤ length d.now }
    ensures { (result ≡ due_of (rooted bad d.now (stand_of bad d.now at))) × Begun d.now result }
{
    match pairs::find_stand(bad, d, at) {
        Stand::Start { place, end } => start_root(bad, d, place, end),
        Stand::Close { place, end } => close_root(bad, d, place, end),
        Stand::Foreign(p) => foreign_root(bad, d, p),
        Stand::Text(p) => Due::Not(Fault {
            number: 50,
            place: p,
        }),
        Stand::Broken(p) => Due::Not(Fault {
            number: 50,
            place: p,
        }),
    }
}

// From behind the declaration to behind the root's name.
fn read_root(bad: bool, latin: bool, d: &[u8], at: usize) -> Due
    requires { at ≤ length d.now }
    ensures { (result ≡ due_of (root bad d.now latin at)) × Begun d.now result }
{
    match prologs::read_head(bad, latin, d, at) {
        Prolog::Read { latin: _, next } => root_at(bad, d, next),
        Prolog::Fault { number, place } => Due::Not(Fault { number, place }),
    }
}

// Whether the stretch from v to e is just a word.
fn says_word(d: &[u8], v: usize, e: usize, w: &[u8]) -> bool
    requires { (v ≤ e) × (e ≤ length d.now) }
    ensures { result ≡ says_word d.now v e w.now }
{
    spans::is_word(&d[v..e], w)
}

// The root's tag, read: its version is one of the two, it has no unknown attribute, and in version 1.1 no third one; and something stands
// inside.
fn judge_manner(
    h: Held,
    old: bool,
    new: bool,
    latin: bool,
    empty: bool,
    place: usize,
    next: usize,
) -> Prefaced
    ensures { result ≡ prefaced_of (mannered_of h old new latin empty place next) }
{
    let extra = old & (h.c != 0);
    if !old & !new {
        return Prefaced::Not(Fault {
            number: 4,
            place: h.a,
        });
    }
    if h.unknown == 0 {
        if extra {
            return Prefaced::Not(Fault {
                number: 51,
                place: h.third,
            });
        }
        if empty {
            return Prefaced::Not(Fault { number: 2, place });
        }
        return Prefaced::Is {
            manner: Manner {
                old,
                languages: h.c != 0,
                standard: h.b != 0,
                latin,
            },
            next,
        };
    }
    if extra & (h.third < h.unknown) {
        return Prefaced::Not(Fault {
            number: 51,
            place: h.third,
        });
    }
    Prefaced::Not(Fault {
        number: 51,
        place: h.unknown,
    })
}

// A version has to be there; it is judged by what it says.
fn root_tag(bad: bool, d: &[u8], opened: usize, at: usize) -> Tag
    requires { at ≤ length d.now }
    ensures { result ≡ tag_of bad d.now opened at VERSION OPTIONS LANGUAGES 0 6 0 1 }
{
    tags::read_tag(
        bad,
        d,
        opened,
        at,
        b"version",
        b"options",
        b"languages",
        0,
        6,
        0,
        1,
    )
}

// The root's tag from behind its name on.
fn read_manner(bad: bool, latin: bool, d: &[u8], opened: usize, at: usize) -> Prefaced
    requires { at ≤ length d.now }
    ensures { (result ≡ prefaced_of (manner bad d.now latin opened at)) × Ends d.now result }
{
    match root_tag(bad, d, opened, at) {
        Tag::Read {
            held,
            empty,
            place,
            next,
        } => {
            let old = says_word(d, held.a, held.ae, b"1.1");
            let new = says_word(d, held.a, held.ae, b"1.2");
            judge_manner(held, old, new, latin, empty, place, next)
        }
        Tag::Fault { number, place } => Prefaced::Not(Fault { number, place }),
    }
}

// A start tag alone, read: an unknown attribute is 51; else something has to stand inside.
fn enter_tag(unknown: usize, empty: bool, place: usize, next: usize) -> OrFault<usize>
    ensures { result ≡ reading_of (entered_of unknown empty place next) }
{
    if unknown != 0 {
        return Err(Fault {
            number: 51,
            place: unknown,
        });
    }
    if empty {
        return Err(Fault { number: 2, place });
    }
    Ok(next)
}

// `<survey>`, from behind its name on.
fn read_survey(bad: bool, d: &[u8], opened: usize, at: usize) -> OrFault<usize>
    requires { at ≤ length d.now }
    ensures { (result ≡ reading_of (survey bad d.now opened at)) × Inside d.now result }
{
    match pairs::read_bare(bad, d, opened, at) {
        Tag::Read {
            held,
            empty,
            place,
            next,
        } => enter_tag(held.unknown, empty, place, next),
        Tag::Fault { number, place } => Err(Fault { number, place }),
    }
}

// Version 1.1 knows no href.
fn record_tag(bad: bool, d: &[u8], old: bool, opened: usize, at: usize) -> Tag
    requires { at ≤ length d.now }
    ensures { result ≡ tag_of bad d.now opened at IDENT (cond old [] HREF) [] 3 0 0 1 }
{
    if old {
        return tags::read_tag(bad, d, opened, at, b"ident", b"", b"", 3, 0, 0, 1);
    }
    tags::read_tag(bad, d, opened, at, b"ident", b"href", b"", 3, 0, 0, 1)
}

// `<record ident [href]>`, from behind its name on.
fn read_record(bad: bool, d: &[u8], m: Manner, opened: usize, at: usize) -> OrFault<usize>
    requires { at ≤ length d.now }
    ensures { (result ≡ reading_of (sheet.record_tag bad d.now (rule_of m) opened at)) × Inside d.now result }
{
    match record_tag(bad, d, m.old, opened, at) {
        Tag::Read {
            held,
            empty,
            place,
            next,
        } => enter_tag(held.unknown, empty, place, next),
        Tag::Fault { number, place } => Err(Fault { number, place }),
    }
}

// A text that was found, and then what stands behind it.
fn text_then(
    bad: bool,
    d: &[u8],
    place: usize,
    end: usize,
    around: &[u8],
    w: &[u8],
    mode: usize,
) -> Open
    requires { end ≤ length d.now }
    ensures { (result ≡ open_of (text_then bad d.now around.now w.now mode place end))
        × Within d.now 0 result }
{
    match elements::text_at(bad, d, place, end, w, mode) {
        Ok(t) => elements::find_open(bad, d, t.next, around),
        Err(f) => Open::Not(f),
    }
}

// A text that may be left out, inside an element `around`; what stands behind.
fn perhaps_text(bad: bool, d: &[u8], o: Open, around: &[u8], w: &[u8], mode: usize) -> Open
    requires { Within d.now 0 o }
    ensures { (result ≡ open_of (bind (read_of o) (perhaps_element bad d.now around.now w.now mode)))
        × Within d.now 0 result }
{
    match o {
        Open::Start { place, end } => {
            if tags::is_named(d, place + 1, end, w) {
                return text_then(bad, d, place, end, around, w, mode);
            }
            Open::Start { place, end }
        }
        Open::Shut { place, next } => Open::Shut { place, next },
        Open::Not(f) => Open::Not(f),
    }
}

// Inside the root: date, time, origin, user, each of which may be left out.
fn read_heading(bad: bool, d: &[u8], at: usize) -> Open
    requires { at ≤ length d.now }
    ensures { (result ≡ open_of (heading bad d.now at)) × Within d.now 0 result }
{
    let first = elements::find_open(bad, d, at, b"sss");
    let date = perhaps_text(bad, d, first, b"sss", b"date", 0);
    let time = perhaps_text(bad, d, date, b"sss", b"time", 0);
    let origin = perhaps_text(bad, d, time, b"sss", b"origin", 0);
    perhaps_text(bad, d, origin, b"sss", b"user", 0)
}

// Version 1.1 knows no name and no version of a survey.
fn pass_names(bad: bool, d: &[u8], old: bool, o: Open) -> Open
    requires { Within d.now 0 o }
    ensures { (result ≡ open_of (bind (read_of o) (titled_of bad d.now old))) × Within d.now 0 result }
{
    if old {
        return o;
    }
    let name = perhaps_text(bad, d, o, b"survey", b"name", 0);
    perhaps_text(bad, d, name, b"survey", b"version", 0)
}

// What a title may hold: breaks, and where the file has languages, texts in other languages.
fn title_mode(languages: bool) -> usize
    ensures { result ≡ rich languages }
{
    if languages { 2 } else { 1 }
}

// Inside the survey: name, version, title, each of which may be left out.
fn read_titles(bad: bool, d: &[u8], m: Manner, at: usize) -> Open
    requires { at ≤ length d.now }
    ensures { (result ≡ open_of (titles bad d.now (rule_of m) at)) × Within d.now 0 result }
{
    let first = elements::find_open(bad, d, at, b"survey");
    let names = pass_names(bad, d, m.old, first);
    let mode = title_mode(m.languages);
    perhaps_text(bad, d, names, b"survey", b"title", mode)
}

fn survey_on(bad: bool, d: &[u8], o: Open) -> OrFault<usize>
    requires { Within d.now 0 o }
    ensures { (result ≡ reading_of (bind (read_of o) (survey_due bad d.now))) × Inside d.now result }
{
    match elements::tag_due(bad, d, o, b"survey") {
        Due::At { place, end } => read_survey(bad, d, place, end),
        Due::Not(f) => Err(f),
    }
}

fn titles_on(bad: bool, d: &[u8], m: Manner, s: OrFault<usize>) -> Open
    requires { Inside d.now s }
    ensures { (result ≡ open_of (bind (passed s) λ u. titles bad d.now (rule_of m))) × Within d.now 0 result }
{
    match s {
        Ok(n) => read_titles(bad, d, m, n),
        Err(f) => Open::Not(f),
    }
}

fn record_on(bad: bool, d: &[u8], m: Manner, o: Open) -> OrFault<usize>
    requires { Within d.now 0 o }
    ensures { (result ≡ reading_of (bind (read_of o) (record_due bad d.now (rule_of m)))) × Inside d.now result }
{
    match elements::tag_due(bad, d, o, b"record") {
        Due::At { place, end } => read_record(bad, d, m, place, end),
        Due::Not(f) => Err(f),
    }
}

// From behind the root's tag to behind the record's.
fn read_inner(bad: bool, d: &[u8], m: Manner, at: usize) -> OrFault<usize>
    requires { at ≤ length d.now }
    ensures { (result ≡ reading_of (inner_of bad d.now (rule_of m) at)) × Inside d.now result }
{
    let heading = read_heading(bad, d, at);
    let survey = survey_on(bad, d, heading);
    let titles = titles_on(bad, d, m, survey);
    record_on(bad, d, m, titles)
}

fn inner_on(bad: bool, d: &[u8], m: Manner, at: usize) -> Prefaced
    requires { at ≤ length d.now }
    ensures { (result ≡ prefaced_of (inner_then bad d.now (rule_of m) at)) × Ends d.now result }
{
    match read_inner(bad, d, m, at) {
        Ok(n) => Prefaced::Is { manner: m, next: n },
        Err(f) => Prefaced::Not(f),
    }
}

// From behind the root's name to behind the record's tag.
fn preface_on(bad: bool, latin: bool, d: &[u8], place: usize, end: usize) -> Prefaced
    requires { end ≤ length d.now }
    ensures { (result ≡ prefaced_of (outer_of bad d.now latin place end)) × Ends d.now result }
{
    match read_manner(bad, latin, d, place, end) {
        Prefaced::Is { manner, next } => inner_on(bad, d, manner, next),
        Prefaced::Not(f) => Prefaced::Not(f),
    }
}

// From behind the declaration to behind the record's tag: what the variables go by, and where they begin.
pub fn read_preface(bad: bool, latin: bool, d: &[u8], at: usize) -> Prefaced
    requires { at ≤ length d.now }
    ensures { (result ≡ prefaced_of (preface bad d.now latin at)) × Ends d.now result }
{
    match read_root(bad, latin, d, at) {
        Due::At { place, end } => preface_on(bad, latin, d, place, end),
        Due::Not(f) => Prefaced::Not(f),
    }
}

// The end tag of an element w.
fn pass_end(bad: bool, d: &[u8], at: usize, w: &[u8]) -> OrFault<usize>
    requires { at ≤ length d.now }
    ensures { (result ≡ reading_of (end_of bad d.now w.now at)) × Inside d.now result }
{
    match elements::find_open(bad, d, at, w) {
        Open::Start { place, end } => Err(elements::misplaced(bad, d, place, end)),
        Open::Shut { place: _, next } => Ok(next),
        Open::Not(f) => Err(f),
    }
}

fn pass_tail(bad: bool, d: &[u8], at: usize) -> OrFault<usize>
    requires { at ≤ length d.now }
    ensures { (result ≡ reading_of (cleared_of bad d.now at)) × Inside d.now result }
{
    match prologs::read_tail(bad, d, at) {
        Tail::Clean => Ok(at),
        Tail::Foul { number, place } => Err(Fault { number, place }),
    }
}

// `</sss>`, and what follows.
fn close_sss(bad: bool, d: &[u8], at: usize) -> OrFault<usize>
    requires { at ≤ length d.now }
    ensures { (result ≡ reading_of (end_then bad d.now at)) × Inside d.now result }
{
    match pass_end(bad, d, at, b"sss") {
        Ok(n) => pass_tail(bad, d, n),
        Err(f) => Err(f),
    }
}

// From behind `</record>` to the file's end: `</survey>`, `</sss>`, white space and comments.
pub fn read_closing(bad: bool, d: &[u8], at: usize) -> OrFault<usize>
    requires { at ≤ length d.now }
    ensures { (result ≡ reading_of (sheet_closed bad d.now at)) × Inside d.now result }
{
    match pass_end(bad, d, at, b"survey") {
        Ok(n) => close_sss(bad, d, n),
        Err(f) => Err(f),
    }
}
