// Tells of each version record of a name whether it is current, and if not, why. The name is the program's argument; the pack is
// read from standard input, as the listing reads it.
#![tactic(auto)]

ghost use Rattle.std.specs.Prelude.{◌≡◌, ◌+◌, ◌*◌, ◌≤◌, length};
ghost use Rattle.io.specs.Counts.{IsPrefixLen};
ghost use Rattle.current_version.specs.Current.{is_name};
ghost use Rattle.console.specs.Put.{Put};
ghost use Rattle.why_current.specs.Text.{bucket_of, object_of, text};
ghost use Rattle.why_current.specs.Rows.{reason_text, row_text, rows_text, no_rows};

use console::{Unread, put, put_decimal, put_refusal};
use explanation::Fault;
use std::env::FillError;
use std::rt::Env;

// ---- the text

// Each of the functions below writes at a place of a buffer that has room, and answers the place after
// what it wrote. The first takes a reason, its place and the current version's ULID, and writes 32 bytes at most.
fn put_reason(out: &mut [u8], at: usize, reason: u64, place: u64, ulid: &[u8]) -> usize
    requires { (length ulid.now ≤ 26) × (at + 32 ≤ length out.old) }
    ensures { Put out.old at (reason_text reason place ulid.now) out.new result }
{
    if reason == explanation::OLDER {
        let word = put(out, at, b"older ");
        return put(out, word, ulid);
    }
    if reason == explanation::REPEATED {
        let word = put(out, at, b"repeat ");
        return put_decimal(out, word, place);
    }
    if reason == explanation::REMOVED {
        let word = put(out, at, b"removed ");
        return put_decimal(out, word, place);
    }
    if reason == explanation::CURRENT_MARKER {
        return put(out, at, b"current marker");
    }
    put(out, at, b"current")
}

// A line has at most 54 bytes.
fn put_row(out: &mut [u8], at: usize, start: u64, reason: u64, place: u64, ulid: &[u8]) -> usize
    requires { (length ulid.now ≤ 26) × (at + 54 ≤ length out.old) }
    ensures { Put out.old at (row_text start reason place ulid.now) out.new result }
{
    let number = put_decimal(out, at, start);
    let before = put(out, number, b" ");
    let after = put_reason(out, before, reason, place, ulid);
    put(out, after, b"\n")
}

// A line for each of the first n rows.
fn put_rows(out: &mut [u8], told: &[u64], n: usize, ulid: &[u8]) -> usize
    requires { ((n ≤ 2048) × (3 * n ≤ length told.now)) × (length ulid.now ≤ 26) × (110592 ≤ length out.old) }
    ensures { Put out.old 0 (rows_text n told.now ulid.now) out.new result × (result ≤ 110592) }
{
    let mut at = 0;
    let mut i = 0;
    while i < n {
        let row = 3 * i;
        at = put_row(out, at, told[row], told[row + 1], told[row + 2], ulid);
        i += 1;
    }
    at
}

// Three words for each of 2,048 rows.
fn no_rows() -> [u64; 6144]
    ensures { result ≡ no_rows }
{
    [0; 6144]
}

// The whole text. A pack of this length has at most 2,048 records, so that the list is never too short.
fn put_explanation(out: &mut [u8], name: &[u8], pack: &[u8]) -> usize
    requires { (length pack.now ≤ 65536) × (110592 ≤ length out.old) }
    ensures { Put out.old 0 (text name.now pack.now) out.new result × (result ≤ 110592) }
{
    let mut told = no_rows();
    match explanation::explain(pack, bucket(name), object(name), &mut told) {
        Ok(e) => put_rows(out, &told, e.count, slices::part(pack, e.ulid)),
        Err(Fault::Lookup(f)) => match f {
            lookup::Fault::Inadmissible => console::put_refusal_alone(out, 20),
            _ => put_refusal(out, u8::from(f), f.place()),
        },
        Err(Fault::NoRoom) => 0,
    }
}

// ---- the name

// What stands before the first slash, and what after it.
fn bucket(name: &[u8]) -> &[u8]
    ensures { result.now ≡ bucket_of name.now }
{
    slices::front(name, identifier::count_before_slash(name))
}

fn object(name: &[u8]) -> &[u8]
    ensures { result.now ≡ object_of name.now }
{
    slices::from(name, identifier::count_before_slash(name) + 1)
}

fn is_name(name: &[u8]) -> bool
    ensures { result ≡ is_name (bucket_of name.now) (object_of name.now) }
{
    identifier::is_bucket(bucket(name)) & identifier::is_object(object(name))
}

// The program's one argument, and how long it is. None, several, or one that is longer than any name are no
// bytes, which are no name.
fn read_name(rt: &impl Env, name: &mut [u8]) -> usize
    ensures { IsPrefixLen result name.new }
{
    let mut other = [0u8; 1];
    match rt.arg(2, &mut other) {
        Err(FillError::NotPresent) => rt.arg(1, name).unwrap_or(0),
        Ok(_) | Err(FillError::TooLong) => 0,
    }
}

// ---- the program

fn write_out(rt: &(impl Print + Eprint), text: &[u8]) {
    if rt.write_all(text).is_err() {
        let _ = eprintln!(rt; "why_current: standard output cannot be written");
    }
}

fn show(rt: &(impl Print + Eprint), name: &[u8], pack: &[u8])
    requires { length pack.now ≤ 65536 }
{
    let mut out = [0u8; 110592];
    let n = put_explanation(&mut out, name, pack);
    write_out(rt, &out[..n]);
}

fn show_too_long(rt: &(impl Print + Eprint)) {
    let mut out = [0u8; 64];
    let n = put_refusal(&mut out, 1, 0);
    write_out(rt, &out[..n]);
}

fn show_failure(rt: &impl Eprint) {
    let _ = eprintln!(rt; "why_current: standard input cannot be read");
}

fn read_and_show(rt: &(impl std::io::Input + Print + Eprint), name: &[u8]) {
    let mut buffer = [0u8; 65536];
    match console::read_input(rt, &mut buffer) {
        Ok(n) => show(rt, name, &buffer[..n]),
        Err(Unread::TooLong) => show_too_long(rt),
        Err(Unread::Failed) => show_failure(rt),
    }
}

// A name that breaks the rules is refused before a pack is read, and in every pack: in an empty one too.
fn main(rt: HostRuntime) {
    let mut name = [0u8; 1088];
    let n = read_name(&rt, &mut name);
    if is_name(&name[..n]) {
        read_and_show(&rt, &name[..n]);
    } else {
        show(&rt, &name[..n], b"");
    }
}
