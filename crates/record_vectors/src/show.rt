// What is found, printed: numbers and texts behind a letter. `v`, `e`, `s`, `c`, `z` and `d` are keys
// of the format, and in an entry of a pack list `p`, `o`, `t`, `E` and `N`; `u`, `b` and `o` ULID, bucket
// and object, `?` a delete identifier; `@` is a place, `l` a length, `n` a count, `t` a tag, `P` an
// entry's number, `#` a block's; `=` is whether two identifiers are the same, `~` whether one has a name.
use held_identifier::Identifier;
use primary::Texts;
use slices::Place;
use value::{Part, Told};

pub(crate) fn say(rt: &impl Print, text: &[u8]) {
    let _ = rt.write_all(text);
}

pub(crate) fn say_number(rt: &impl Print, letter: char, n: usize) {
    let _ = print!(rt; " {letter} {n}");
}

pub(crate) fn say_refusal(rt: &impl Print, number: u8) {
    let _ = print!(rt; " refused {number}");
}

// A length and a hash.
pub(crate) fn say_hash(rt: &impl Print, letter: char, length: usize, hash: u64) {
    let _ = print!(rt; " {letter} {length} {hash:016x}");
}

// Bytes, by their length and their hash.
pub(crate) fn say_hashed(rt: &impl Print, letter: char, s: &[u8]) {
    say_hash(rt, letter, s.len(), xxh64::xxh64(s));
}

fn say_text(rt: &impl Print, letter: char, text: &[u8]) {
    let _ = print!(rt; " {letter} ");
    say(rt, text);
}

pub(crate) fn say_text_in(rt: &impl Print, letter: char, s: &[u8], t: Place) {
    say_text(rt, letter, slices::part(s, t));
}

pub(crate) fn say_texts(rt: &impl Print, s: &[u8], t: Texts) {
    say_text_in(rt, 'u', s, t.ulid);
    say_text_in(rt, 'b', s, t.bucket);
    say_text_in(rt, 'o', s, t.object);
}

pub(crate) fn say_identifier(rt: &impl Print, id: Identifier) {
    say_text(rt, 'u', &id.ulid);
    say_text(rt, 'b', slices::front(&id.bucket, id.bucketlen));
    say_text(rt, 'o', slices::front(&id.object, id.objectlen));
}

fn say_part(rt: &impl Print, letter: char, start: usize, p: Part) {
    say_number(rt, letter, p.start.wrapping_sub(start));
    say_number(rt, 'l', p.len);
    say_number(rt, 'c', p.compression as usize);
    say_number(rt, 'z', p.encrypted as usize);
}

// What a value that starts at a place tells, as places of the value: `v`, the primary part, how many
// maps stand in `s`, and the secondary part.
pub(crate) fn say_told(rt: &impl Print, start: usize, t: Told) {
    say_number(rt, 'v', t.version as usize);
    say_part(rt, 'e', start, t.primary);
    say_number(rt, 's', t.present as usize);
    say_part(rt, '@', start, t.secondary);
}
