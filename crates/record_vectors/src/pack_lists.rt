// The kinds of vectors that read pack lists.
use crate::show;
use crate::show::{say_number, say_refusal};
use block_of_byte::Found;
use pack_list::{Entry, Numbers, Range};

fn say_range(rt: &impl Print, letter: char, r: Range) {
    say_number(rt, letter, r.start as usize);
    say_number(rt, 'l', r.len as usize);
}

// The pack's ULID, both ranges, and how many lengths and deltas there are.
fn say_entry(rt: &impl Print, s: &[u8], e: Entry) {
    show::say_text_in(rt, 'p', s, e.pack);
    say_range(rt, 'o', e.source);
    say_range(rt, 't', e.stored);
    say_number(rt, 'E', e.lengths.count);
    say_number(rt, 'N', e.deltas.count);
}

fn say_entries(rt: &impl Print, s: &[u8], entries: Numbers) {
    let mut at = entries.first;
    for _ in 0..entries.count {
        let Some(found) = pack_list::next_entry(s, at) else {
            return;
        };
        say_entry(rt, s, found.entry);
        at = found.next;
    }
}

// The identifier, how many entries there are, and each of them.
pub(crate) fn entries(rt: &impl Print, s: &[u8]) {
    match pack_list::read(s) {
        Ok(list) => {
            show::say_texts(rt, s, list.identifier);
            say_number(rt, 'n', list.entries.count);
            say_entries(rt, s, list.entries);
        }
        Err(f) => say_refusal(rt, u8::from(f)),
    }
}

// The pack of an entry, and a range of it.
fn say_stored(rt: &impl Print, s: &[u8], e: Entry, stored: Range) {
    show::say_text_in(rt, 'p', s, e.pack);
    say_range(rt, '@', stored);
}

// Where a byte of the version stands.
pub(crate) fn found(rt: &impl Print, s: &[u8], byte: usize) {
    match block_of_byte::find(s, byte as u64) {
        Ok(Found::Nowhere) => show::say(rt, b" none"),
        Ok(Found::Entry(number, e)) => {
            say_number(rt, 'P', number);
            say_stored(rt, s, e, e.stored);
        }
        Ok(Found::Block(number, e, block)) => {
            say_number(rt, 'P', number);
            say_number(rt, '#', block.number);
            say_stored(rt, s, e, block.stored);
        }
        Err(f) => say_refusal(rt, u8::from(f)),
    }
}
