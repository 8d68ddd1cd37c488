// The lines that a listing has: one for a record of a pack, and one for their number.
#![tactic(auto)]

ghost use Rattle.std.specs.Prelude.{◌+◌, ◌^◌, ◌≤◌, ◌<◌, length};
ghost use Rattle.console.specs.Put.{Put, PutWithRoom};
ghost use Rattle.entry_lines.specs.Text.{hex, front, line, count_line};

use console::{put, put_decimal};
use pack::Entry;

// Each of the functions below writes at a place of a buffer, and answers the place after what it
// wrote. Where there is no room the public ones write nothing, and answer the place.
fn put_hex(out: &mut [u8], at: usize, n: u64, width: usize) -> usize
    requires { ((1 ≤ width) × (width ≤ 16)) × ((n < 16 ^ width) × (at + width ≤ length out.old)) }
    ensures { Put out.old at (hex width n) out.new result }
{
    let mut digits = [0u8; 16];
    let k = io::hex(n, width, &mut digits);
    put(out, at, &digits[..k])
}

// Start, tag and length, a space behind each: at most 47 bytes.
fn put_front(out: &mut [u8], at: usize, e: Entry) -> usize
    requires { at + 47 ≤ length out.old }
    ensures { Put out.old at (front e) out.new result }
{
    let start = put_decimal(out, at, e.start as u64);
    let before = put(out, start, b" ");
    let tag = put_hex(out, before, e.tag as u64, 4);
    let after = put(out, tag, b" ");
    let length = put_decimal(out, after, e.length);
    put(out, length, b" ")
}

// A record's line has at most 64 bytes, and that is the room it is given.
pub fn put_line(out: &mut [u8], at: usize, e: Entry) -> usize
    ensures { PutWithRoom 64 out.old at (line e) out.new result }
{
    if out.len() < 64 {
        return at;
    }
    if out.len() - 64 < at {
        return at;
    }
    let front = put_front(out, at, e);
    let hash = put_hex(out, front, e.hash, 16);
    put(out, hash, b"\n")
}

// The number of records; at most 29 bytes.
pub fn put_count(out: &mut [u8], at: usize, n: usize) -> usize
    ensures { PutWithRoom 29 out.old at (count_line n) out.new result }
{
    if out.len() < 29 {
        return at;
    }
    if out.len() - 29 < at {
        return at;
    }
    let word = put(out, at, b"records ");
    let count = put_decimal(out, word, n as u64);
    put(out, count, b"\n")
}
