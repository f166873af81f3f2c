// What a < opens, where a tag, a comment or a text may stand and a comment doesn't: a start tag, an end tag, or what document 000 doesn't
// name; and the end of an end tag. Above it stand contents and elements.
#![tactic(auto)]

ghost use Rattle.std.specs.Prelude.{◌≡◌, ◌+◌, ◌-◌, ◌≤◌, ◌<◌, length, drop};
ghost use Rattle.angles.specs.rule.Angle.{close_of, bang_of, angle_of, end_of};

use markup::Skip;

// A start tag or an end tag, with the place where its name ends; a processing instruction or CDATA; or the place that is faulted with 50.
#[derive(Clone, Copy)]
pub enum Angle {
    Start(usize),
    Close(usize),
    Foreign,
    Broken(usize),
}

fn read_close(bad: bool, d: &[u8], at: usize) -> Angle
    requires { at + 2 ≤ length d.now }
    ensures { result ≡ close_of bad d.now at }
{
    let n = at + 2;
    if d.len() <= n {
        return Angle::Broken(markup::end_fault(bad, n, at));
    }
    if markup::starts_name(d[n]) {
        return Angle::Close(markup::run(1, d, n));
    }
    Angle::Broken(at)
}

fn read_bang(d: &[u8], at: usize) -> Angle
    requires { at ≤ length d.now }
    ensures { result ≡ bang_of d.now at }
{
    if markup::is_there(d, at, b"<![CDATA[") {
        return Angle::Foreign;
    }
    Angle::Broken(at)
}

// What the < at a place opens.
pub fn read_angle(bad: bool, d: &[u8], at: usize) -> Angle
    requires { at < length d.now }
    ensures { result ≡ angle_of bad d.now at }
{
    let n = at + 1;
    if d.len() <= n {
        return Angle::Broken(markup::end_fault(bad, n, at));
    }
    let b = d[n];
    if b == 47 {
        return read_close(bad, d, at);
    }
    if b == 63 {
        return Angle::Foreign;
    }
    if b == 33 {
        return read_bang(d, at);
    }
    if markup::starts_name(b) {
        return Angle::Start(markup::run(1, d, n));
    }
    Angle::Broken(at)
}

// The rest of the end tag whose < stands at `opened` and whose name ends at e: the place after its >.
pub fn read_end(bad: bool, d: &[u8], opened: usize, e: usize) -> Skip
    requires { e ≤ length d.now }
    ensures { result ≡ end_of bad d.now opened e }
{
    let n = markup::run(0, d, e);
    if d.len() <= n {
        return Skip::Broken(markup::end_fault(bad, n, opened));
    }
    if d[n] == 62 {
        return Skip::Past(n + 1);
    }
    Skip::Broken(n)
}
