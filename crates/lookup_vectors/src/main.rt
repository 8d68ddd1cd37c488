// Looks up the names of standard input in its packs. The input is a number of cases, in 4 bytes, and
// the cases, each a field: bytes with their length before them in 4 bytes. A case has three fields, a
// title, a pack, and the names, of two fields each, a bucket and an object. A line of standard output
// is `TITLE, BUCKET/OBJECT: FOUND`.
#![tactic(auto)]

ghost use Rattle.std.specs.Prelude.{◌+◌, ◌≤◌, length};

use lookup::{Fault, Version};
use slices::Place;
use std::io::Read as _;

// ---- what is found, printed

fn say(rt: &impl Print, text: &[u8]) {
    let _ = rt.write_all(text);
}

fn say_refusal(rt: &impl Print, number: u8, place: usize) {
    let _ = print!(rt; "refused {number} at {place}");
}

fn say_name(rt: &impl Print, bucket: &[u8], object: &[u8]) {
    say(rt, bucket);
    say(rt, b"/");
    say(rt, object);
}

fn say_version(rt: &impl Print, pack: &[u8], v: Version) {
    let texts = v.identifier;
    say(rt, slices::part(pack, texts.ulid));
    say(rt, b" ");
    say_name(
        rt,
        slices::part(pack, texts.bucket),
        slices::part(pack, texts.object),
    );
    let kind = if v.deleted {
        "delete marker"
    } else {
        "version"
    };
    let start = v.start;
    let len = v.len;
    let hash = xxh64::xxh64(lookup::value(pack, v));
    let _ = print!(rt; " {kind} at {start} value {len} {hash:016x}");
}

fn say_found(rt: &impl Print, pack: &[u8], bucket: &[u8], object: &[u8]) {
    match lookup::lookup(pack, bucket, object) {
        Ok(None) => say(rt, b"nothing"),
        Ok(Some(v)) => say_version(rt, pack, v),
        Err(Fault::Inadmissible) => say(rt, b"refused 20"),
        Err(f) => say_refusal(rt, u8::from(f), f.place()),
    }
}

fn say_line(rt: &impl Print, title: &[u8], pack: &[u8], bucket: &[u8], object: &[u8]) {
    say(rt, title);
    say(rt, b", ");
    say_name(rt, bucket, object);
    say(rt, b": ");
    say_found(rt, pack, bucket, object);
    say(rt, b"\n");
}

// ---- the cases

// The field at a place; an empty one at 0, where none is whole.
fn field(s: &[u8], at: usize) -> Place
    ensures { result.start + result.len ≤ length s.now }
{
    let none = Place { start: 0, len: 0 };
    if s.len() < at {
        return none;
    }
    if s.len() - at < 4 {
        return none;
    }
    let start = at + 4;
    let Some(n) = endian::read_big(s, at, 4) else {
        return none;
    };
    let len = n as usize;
    if s.len() - start < len {
        return none;
    }
    Place { start, len }
}

fn names(rt: &impl Print, title: &[u8], pack: &[u8], s: &[u8]) {
    let mut at = 0;
    while at < s.len() {
        let bucket = field(s, at);
        let object = field(s, bucket.start + bucket.len);
        say_line(
            rt,
            title,
            pack,
            slices::part(s, bucket),
            slices::part(s, object),
        );
        let next = object.start + object.len;
        if next <= at {
            return;
        }
        at = next;
    }
}

fn say_case(rt: &impl Print, s: &[u8]) {
    let title = field(s, 0);
    let pack = field(s, title.start + title.len);
    let list = field(s, pack.start + pack.len);
    names(
        rt,
        slices::part(s, title),
        slices::part(s, pack),
        slices::part(s, list),
    );
}

// ---- the input

fn read_number(rt: &impl Input) -> usize {
    let mut bytes = [0u8; 4];
    let _ = rt.reader().read_exact(&mut bytes);
    u32::from_be_bytes(bytes) as usize
}

// A case is read into the buffer, if it holds it.
fn run_case(rt: &(impl Input + Print), buffer: &mut [u8]) {
    let n = read_number(rt);
    if n <= buffer.len() {
        let _ = rt.reader().read_exact(&mut buffer[0..n]);
        say_case(rt, &buffer[0..n]);
    }
}

fn run(rt: &(impl Input + Print), buffer: &mut [u8]) {
    let count = read_number(rt);
    for _ in 0..count {
        run_case(rt, buffer);
    }
}

fn main(rt: HostRuntime) {
    let mut buffer = io::large_buffer();
    run(&rt, &mut buffer);
}
