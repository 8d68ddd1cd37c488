// Runs vectors through the crates pack, identifier, value, primary, pack_list, records and writer.
// Standard input, which tests/record_vectors.py makes, is how many vectors there are, and for each its
// title, its kind, its bytes, and what else the kind takes. A line of standard output is the title and
// what is found.
#![tactic(auto)]

use crate::show::say;
use crate::writings::Writing;
use console::{read_field, read_number};

mod names;
mod pack_lists;
mod readings;
mod show;
mod writings;

// What is done with a vector's bytes.
#[derive(Clone, Copy)]
enum Kind {
    Identifier,
    Value,
    Block,
    Version,
    Delete,
    Record,
    At,
    Parts,
    Walk,
    PackList,
    FindBlock,
    Names,
    Write(Writing),
}

impl From<usize> for Kind {
    fn from(number: usize) -> Kind {
        match number {
            0 => Kind::Identifier,
            1 => Kind::Value,
            2 => Kind::Block,
            3 => Kind::Version,
            4 => Kind::Delete,
            5 => Kind::Record,
            6 => Kind::At,
            7 => Kind::Parts,
            8 => Kind::Walk,
            9 => Kind::PackList,
            10 => Kind::FindBlock,
            11 => Kind::Names,
            12 => Kind::Write(Writing::Block),
            13 => Kind::Write(Writing::Version),
            14 => Kind::Write(Writing::Delete),
            15 => Kind::Write(Writing::PackList),
            _ => Kind::Write(Writing::DeleteOf),
        }
    }
}

fn run_kind(rt: &(impl Input + Print), kind: Kind, bytes: &[u8]) {
    match kind {
        Kind::Identifier => readings::composite(rt, bytes),
        Kind::Value => readings::header(rt, bytes),
        Kind::Block => readings::block(rt, bytes),
        Kind::Version => readings::version(rt, bytes),
        Kind::Delete => readings::version_delete(rt, bytes),
        Kind::Record => readings::record(rt, bytes, read_number(rt, &mut [0; 8])),
        Kind::At => readings::at_place(rt, bytes, read_number(rt, &mut [0; 8])),
        Kind::Parts => readings::parts(rt, bytes),
        Kind::Walk => readings::walked(rt, bytes, read_number(rt, &mut [0; 8])),
        Kind::PackList => pack_lists::entries(rt, bytes),
        Kind::FindBlock => pack_lists::found(rt, bytes, read_number(rt, &mut [0; 8])),
        Kind::Names => names::run(rt, bytes),
        Kind::Write(writing) => writings::run(rt, writing, bytes),
    }
}

fn run_vector(rt: &(impl Input + Print), buffer: &mut [u8]) {
    let title = read_field(rt, buffer);
    say(rt, &buffer[..title]);
    let kind = Kind::from(read_number(rt, &mut [0; 8]));
    let n = read_field(rt, buffer);
    run_kind(rt, kind, &buffer[..n]);
    say(rt, b"\n");
}

// Below 65,536 of them, so that a wrong input too comes to an end.
fn run(rt: &(impl Input + Print), buffer: &mut [u8]) {
    let count = read_number(rt, &mut [0; 8]) % 65536;
    for _ in 0..count {
        run_vector(rt, buffer);
    }
}

fn main(rt: HostRuntime) {
    let mut buffer = io::large_buffer();
    run(&rt, &mut buffer);
}
