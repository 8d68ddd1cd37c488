// The kinds of vectors that write a head. Where it is to stand and its number follow the bytes.
use crate::show::{say, say_number};
use console::read_number;

// Which head is written.
#[derive(Clone, Copy)]
pub(crate) enum Head {
    Text,
    Binary,
    Array,
    Map,
    Unsigned,
}

fn write(head: Head, out: &mut [u8], at: usize, n: usize) -> Option<usize> {
    let count = (n % 4294967296) as u32;
    match head {
        Head::Text => msgpack_heads::write_text_head(out, at, count),
        Head::Binary => msgpack_heads::write_binary_head(out, at, count),
        Head::Array => msgpack_heads::write_array_head(out, at, count),
        Head::Map => msgpack_heads::write_map_head(out, at, count),
        Head::Unsigned => msgpack_heads::write_unsigned(out, at, n as u64),
    }
}

fn say_written(rt: &impl Print, next: Option<usize>) {
    match next {
        Some(n) => say_number(rt, '@', n),
        None => say(rt, " no room"),
    }
    say(rt, " ");
}

fn say_bytes(rt: &impl Print, s: &[u8]) {
    for b in s {
        let _ = print!(rt; "{b:02x}");
    }
}

// What becomes of ten bytes EE.
pub(crate) fn run(rt: &(impl Input + Print), head: Head) {
    let mut out = [0xeeu8; 10];
    let at = read_number(rt, &mut [0; 8]);
    let n = read_number(rt, &mut [0; 8]);
    say_written(rt, write(head, &mut out, at, n));
    say_bytes(rt, &out);
}
