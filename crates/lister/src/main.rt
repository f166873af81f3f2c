// The lister: lists `survey.asc` by the definition `survey.sss`, both in the folder that it is run in, value by value. What it lists is
// the library's; here files are opened, read and measured, and full buffers written out.
#![tactic(auto)]

ghost use Rattle.std.specs.Prelude.{◌≡◌, ◌+◌, ◌^◌, ◌≤◌, ◌<◌, length, IfSome};
ghost use Rattle.ascii.specs.rule.Tens.{Tens};
ghost use Rattle.cuts.specs.rule.Cut.{Found};
ghost use Rattle.files.specs.rule.Tested.{Tested};
ghost use Rattle.lines.specs.rule.Lines.{line_room};

use cuts::Terminator;
use definition::Answer;
use layout::Header;
use listing::{Place, Turn};
use std::fs::Files;
use std::io::{Read, Write};
use std::{fs, io};

// The most bytes that a file may have.
const MOST: usize = 65_536;

// One byte more, so that a file that is too long shows.
const ROOM: usize = 65_537;

const TABLE: usize = 8_192;

// The most members that a set may have, and the marks that judging a record needs.
const MEMBERS: usize = 9_999;

const MARKS: usize = 10_000;

// Room for what is written out at once: full before another line might not fit.
const OUT: usize = 131_072;

// Reads a file that is open until it ends or the buffer is full: how many bytes came, if it can be read.
fn read_whole(file: &mut impl Read, buf: &mut [u8]) -> Option<usize>
    ensures { IfSome result (λ n. n ≤ length buf.new) }
{
    let mut done: usize = 0;
    while done < buf.len() {
        let got = file.read(&mut buf[done..]).ok()?;
        if got == 0 {
            return Some(done);
        }
        done += got;
    }
    Some(done)
}

// The same of a file that may not be there.
fn load(rt: &impl Files, path: &str, buf: &mut [u8]) -> Option<usize>
    ensures { IfSome result (λ n. n ≤ length buf.new) }
{
    let mut file = fs::open(rt, path).ok()?;
    read_whole(&mut file, buf)
}

// Writes all of it, or says on standard error why not.
fn write(rt: &(impl Print + Eprint), bytes: &[u8]) -> bool {
    match io::writer(rt).write_all(bytes) {
        Ok(()) => true,
        Err(e) => {
            let _told = eprintln!(rt; "standard output: {e}").is_ok();
            false
        }
    }
}

// Where the buffer is filled on: behind what it holds while another line fits, or from the start once that is written out; nowhere where it
// can't be written.
fn make_space(rt: &(impl Print + Eprint), out: &[u8], end: usize) -> Option<usize>
    requires { (end ≤ length out.now) × (line_room ≤ length out.now) }
    ensures { IfSome result (λ at. at + line_room ≤ length out.now) }
{
    if out.len() - end >= lines::LINE_ROOM {
        return Some(end);
    }
    if write(rt, &out[..end]) {
        return Some(0);
    }
    None
}

// Lists the data by a table that was tested.
fn list_all(
    rt: &(impl Print + Eprint),
    powers: &[u64; 16],
    t: &[i64],
    h: Header,
    d: &[u8],
    w: Terminator,
    list: &mut [i64],
    scratch: &mut [u8],
    out: &mut [u8],
)
    requires tens { Tens powers.now × Tested t.now h × Found d.now w × (length d.now ≤ 65536) }
    requires list_len { (length list.old ≡ 9999) × (length scratch.old ≡ 10000) × (line_room ≤ length out.old) }
{
    let mut p = Place {
        from: 0,
        n: 0,
        first: 0,
        row: 0,
    };
    let mut at: usize = 0;
    loop {
        match listing::list_on(powers, t, h, d, w, p, list, scratch, out, at) {
            Turn::On { place, end } => match make_space(rt, out, end) {
                Some(free) => {
                    p = place;
                    at = free;
                }
                None => {
                    return;
                }
            },
            Turn::Over { end } => {
                write(rt, &out[..end]);
                return;
            }
        }
    }
}

// Tests the table once and lists the data by it.
fn list_by(rt: &(impl Print + Eprint), powers: &[u64; 16], t: &[i64], d: &[u8], out: &mut [u8])
    requires { Tens powers.now × (length d.now ≤ 65536) × (line_room ≤ length out.old) }
{
    if sound::well_formed(t) {
        let h = Header::read(t);
        let w = cuts::find_terminator(d);
        let mut list = [0i64; MEMBERS];
        let mut scratch = [0u8; MARKS];
        list_all(rt, powers, t, h, d, w, &mut list, &mut scratch, out);
        return;
    }
    let end = lines::append_fault(powers, out, 0, 20, 0, 0);
    write(rt, &out[..end]);
}

// A refusal's number or place as it is printed, which a line has room for: 0 for one of 10^16 or more. There is none, since a number is at
// most
// 52 and a place at most the file's length; but that is proved of 1.1 definitions alone (crate `refusals`), and this holds without it.
fn printed(n: usize) -> usize
    ensures { result < 10 ^ 16 }
{
    if n < 10_000_000_000_000_000 { n } else { 0 }
}

// Reads the definition, of either kind, and lists the data by its table, or says why it is refused.
fn list_files(rt: &(impl Print + Eprint), definition: &[u8], d: &[u8])
    requires { (length definition.now ≤ 65536) × (length d.now ≤ 65536) }
{
    let powers = ascii::powers();
    let mut table = [0i64; TABLE];
    let mut out = [0u8; OUT];
    match kinds::read_definition(definition, &mut table) {
        Answer::Read { rows: _, lines: _ } => {
            list_by(rt, &powers, &table, d, &mut out);
        }
        Answer::Refused { number, place } => {
            let k = printed(number);
            let p = printed(place);
            let end = lines::append_definition(&powers, &mut out, 0, k, p);
            write(rt, &out[..end]);
        }
    }
}

fn main(rt: HostRuntime) {
    let mut sss = [0u8; ROOM];
    let mut asc = [0u8; ROOM];
    let a = load(&rt, "survey.sss", &mut sss);
    let b = load(&rt, "survey.asc", &mut asc);
    let (Some(n), Some(m)) = (a, b) else {
        write(&rt, b"no file\n");
        return;
    };
    if (MOST < n) | (MOST < m) {
        write(&rt, b"too long\n");
        return;
    }
    list_files(&rt, &sss[..n], &asc[..m]);
}
