// Runs vectors through the crates xxh64 and msgpack. Standard input, which tests/vectors.py makes, is how
// many vectors there are, and for each its title, its kind, its bytes, and what else the kind takes. A
// line of standard output is the title and what is found.
#![tactic(auto)]

use crate::heads::Head;
use crate::show::say;
use console::{read_field, read_number};

mod heads;
mod show;

// What is done with a vector's bytes.
#[derive(Clone, Copy)]
enum Kind {
    Hash,
    Item,
    Integer,
    Text,
    Binary,
    Boolean,
    Array,
    Map,
    Key,
    Pair,
    Head(Head),
}

impl From<usize> for Kind {
    fn from(number: usize) -> Kind {
        match number {
            0 => Kind::Hash,
            1 => Kind::Item,
            2 => Kind::Integer,
            3 => Kind::Text,
            4 => Kind::Binary,
            5 => Kind::Boolean,
            6 => Kind::Array,
            7 => Kind::Map,
            8 => Kind::Key,
            9 => Kind::Pair,
            10 => Kind::Head(Head::Text),
            11 => Kind::Head(Head::Binary),
            12 => Kind::Head(Head::Array),
            13 => Kind::Head(Head::Map),
            _ => Kind::Head(Head::Unsigned),
        }
    }
}

// A key, by its code.
fn look_up(rt: &impl Print, map: &[u8], code: u64) {
    show::say_found(rt, msgpack::read_pairs(map, [code, 0, 0, 0, 0, 0, 0, 0]));
}

fn run_kind(rt: &(impl Input + Print), kind: Kind, bytes: &[u8]) {
    match kind {
        Kind::Hash => show::say_hash(rt, xxh64::xxh64(bytes)),
        Kind::Item => show::say_passed(rt, msgpack::pass_over(bytes)),
        Kind::Integer => show::say_integer(rt, msgpack::read_integer(bytes)),
        Kind::Text => show::say_content(rt, msgpack::read_text(bytes)),
        Kind::Binary => show::say_content(rt, msgpack::read_binary(bytes)),
        Kind::Boolean => show::say_boolean(rt, msgpack::read_boolean(bytes)),
        Kind::Array => show::say_items(rt, msgpack::read_array(bytes)),
        Kind::Map => show::say_items(rt, msgpack::read_map(bytes)),
        Kind::Key => look_up(rt, bytes, read_number(rt, &mut [0; 8]) as u64),
        Kind::Pair => show::say_pair(rt, msgpack::pair_at(bytes, read_number(rt, &mut [0; 8]))),
        Kind::Head(head) => heads::run(rt, head),
    }
}

fn run_vector(rt: &(impl Input + Print), buffer: &mut [u8]) {
    let title = read_field(rt, buffer);
    let _ = rt.write_all(&buffer[..title]);
    let kind = Kind::from(read_number(rt, &mut [0; 8]));
    let n = read_field(rt, buffer);
    run_kind(rt, kind, &buffer[..n]);
    say(rt, "\n");
}

// Below 65,536 of them, so that a wrong input too comes to an end.
fn run(rt: &(impl Input + Print), buffer: &mut [u8]) {
    let count = read_number(rt, &mut [0; 8]) % 65536;
    for _ in 0..count {
        run_vector(rt, buffer);
    }
}

fn main(rt: HostRuntime) {
    let mut buffer = io::large_buffer();
    run(&rt, &mut buffer);
}
