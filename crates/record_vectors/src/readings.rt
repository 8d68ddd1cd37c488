// The kinds of vectors that read.
use crate::show;
use crate::show::{say_number, say_refusal};
use primary::Texts;
use records::{Kind, PlaceFault, Record};
use slices::Place;

// Where the slash is, and the identifier.
pub(crate) fn composite(rt: &impl Print, text: &[u8]) {
    match identifier::split_composite(text) {
        Some(n) => say_number(rt, '/', n),
        None => say_refusal(rt, 18),
    }
    match held_identifier::read_composite(text) {
        Some(id) => show::say_identifier(rt, id),
        None => say_refusal(rt, 18),
    }
}

pub(crate) fn header(rt: &impl Print, s: &[u8]) {
    match value::read(s) {
        Ok(t) => show::say_told(rt, 0, t),
        Err(f) => say_refusal(rt, u8::from(f)),
    }
}

// The parts of a value, each by its length and its hash.
pub(crate) fn parts(rt: &impl Print, s: &[u8]) {
    show::say_hashed(rt, 'e', value::primary(s));
    show::say_hashed(rt, 's', value::secondary(s));
}

// What a primary part tells: the identifier, and what belongs to its kind.
fn say_part(rt: &impl Print, s: &[u8], t: Texts, kind: Kind) {
    show::say_texts(rt, s, t);
    match kind {
        Kind::Block => (),
        Kind::Version(deleted) => say_number(rt, 'd', deleted as usize),
        Kind::VersionDelete(id) => show::say_text_in(rt, '?', s, id),
        Kind::PackList => (),
    }
}

pub(crate) fn block(rt: &impl Print, s: &[u8]) {
    match primary::read_block(s) {
        Ok(t) => say_part(rt, s, t, Kind::Block),
        Err(f) => say_refusal(rt, u8::from(f)),
    }
}

pub(crate) fn version(rt: &impl Print, s: &[u8]) {
    match primary::read_version(s) {
        Ok((t, deleted)) => say_part(rt, s, t, Kind::Version(deleted)),
        Err(f) => say_refusal(rt, u8::from(f)),
    }
}

pub(crate) fn version_delete(rt: &impl Print, s: &[u8]) {
    match primary::read_delete(s) {
        Ok((t, id)) => say_part(rt, s, t, Kind::VersionDelete(id)),
        Err(f) => say_refusal(rt, u8::from(f)),
    }
}

// Of a record whose value starts at a place.
fn say_record(rt: &impl Print, s: &[u8], start: usize, r: Record) {
    say_part(rt, s, r.identifier, r.kind);
    show::say_told(rt, start, r.told);
}

pub(crate) fn record(rt: &impl Print, value: &[u8], tag: usize) {
    let whole = Place {
        start: 0,
        len: value.len(),
    };
    match records::read((tag % 65536) as u16, value, whole) {
        Ok(r) => say_record(rt, value, 0, r),
        Err(f) => say_refusal(rt, u8::from(f)),
    }
}

fn say_refusal_at(rt: &impl Print, f: pack::Fault) {
    say_refusal(rt, u8::from(f));
    say_number(rt, '@', f.place());
}

// Where the value lies, and the record.
pub(crate) fn at_place(rt: &impl Print, pack: &[u8], place: usize) {
    match records::read_at(pack, place) {
        Ok(p) => {
            say_number(rt, '@', p.value.start);
            say_number(rt, 'l', p.value.len);
            say_record(rt, pack, p.value.start, p.record);
        }
        Err(PlaceFault::Outside) => say_refusal(rt, 20),
        Err(PlaceFault::Pack(f)) => say_refusal_at(rt, f),
        Err(PlaceFault::Record(f)) => say_refusal(rt, u8::from(f)),
    }
}

// What the walker answers to its call number n, from 0.
pub(crate) fn walked(rt: &impl Print, pack: &[u8], n: usize) {
    match pack::nth(pack, n) {
        Ok(Some(e)) => {
            say_number(rt, '@', e.start);
            say_number(rt, 't', e.tag as usize);
            show::say_hash(rt, 'l', e.length as usize, e.hash);
        }
        Ok(None) => show::say(rt, b" end"),
        Err(f) => say_refusal_at(rt, f),
    }
}
