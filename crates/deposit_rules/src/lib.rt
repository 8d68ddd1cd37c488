// What the deposit profile (request 9) asks of the keys of a map in their order, of a block's two maps,
// and of a bucket's name.
#![tactic(auto)]

ghost use Rattle.std.specs.Prelude.{◌≡◌, false, length};
ghost use Rattle.value.specs.Header.{header_keys};
ghost use Rattle.deposit_rules.specs.Keys.{keys_from, keys_of, are_among, are_these};
ghost use Rattle.deposit_rules.specs.Letters.{part_keys, written_keys};
ghost use Rattle.deposit_rules.specs.Codes.{is_listed, AmongThose, AreThose};
ghost use Rattle.deposit_rules.specs.Buckets.{is_letter_or_digit, is_name_byte, are_name_bytes, is_bucket_name};
ghost use Rattle.deposit_rules.specs.Blocks.{has_length_alone, has_identifier_alone};

use msgpack::{Items, Pair};

// ---- the keys of a map, by their codes

fn is_listed(codes: &[u64], code: u64) -> bool
    ensures { result ≡ is_listed codes.now code }
{
    codes.contains(&code)
}

// Whether the keys of so many pairs, from a place on, all have one of these codes.
fn among_from(s: &[u8], from: usize, count: usize, codes: &[u64]) -> bool
    ensures { AmongThose codes.now (keys_from count s.now from) result }
{
    let mut at = from;
    for _ in 0..count {
        let Ok(Pair { code, next, .. }) = msgpack::pair_at(s, at) else {
            return false;
        };
        if !is_listed(codes, code) {
            return false;
        }
        at = next;
    }
    true
}

// Whether the keys of the map at the front all have one of these codes, each of a text of at most three
// bytes.
fn are_among(s: &[u8], codes: &[u64]) -> bool
    ensures { AmongThose codes.now (keys_of s.now) result }
{
    match msgpack::read_map(s) {
        Some(Items { count, size, .. }) => among_from(s, size, count, codes),
        None => false,
    }
}

// Whether the keys of as many pairs, from a place on, have these codes in this order.
fn these_from(s: &[u8], from: usize, codes: &[u64]) -> bool
    ensures { AreThose codes.now (keys_from (length codes.now) s.now from) result }
{
    let mut at = from;
    for &wanted in codes {
        let Ok(Pair { code, next, .. }) = msgpack::pair_at(s, at) else {
            return false;
        };
        if code != wanted {
            return false;
        }
        at = next;
    }
    true
}

// Whether the keys of the map at the front have these codes, in this order, and no others; each of a
// text of at most three bytes.
fn are_these(s: &[u8], codes: &[u64]) -> bool
    ensures { AreThose codes.now (keys_of s.now) result }
{
    match msgpack::read_map(s) {
        Some(Items { count, size, .. }) => count == codes.len() && these_from(s, size, codes),
        None => false,
    }
}

// ---- which keys a map may have, and the header's order

// The codes of the keys that document 001 gives: of a header; and, of a primary part, by its record's
// tag.
const HEADER_KEYS: [u64; 5] = [0x165, 0x173, 0x163, 0x17a, 0x176];

const BLOCK_KEYS: [u64; 1] = [0x149];

const VERSION_KEYS: [u64; 15] = [
    0x162, 0x16f, 0x176, 0x177, 0x141, 0x16c, 0x165, 0x164, 0x14e, 0x143, 0x170, 0x173, 0x16d,
    0x168, 0x144,
];

const DELETE_KEYS: [u64; 4] = [0x162, 0x16f, 0x176, 0x13f_3f3f];

const PACK_LIST_KEYS: [u64; 3] = [0x149, 0x155, 0x150];

// The codes of the keys of the writer's headers: `s` and `e` of a block, `e` of every other record.
const BLOCK_HEADER: [u64; 2] = [0x173, 0x165];

const PART_HEADER: [u64; 1] = [0x165];

// Whether document 001 gives each key of the header at the front.
pub fn header_keys_are_given(header: &[u8]) -> bool
    ensures { result ≡ are_among header_keys (keys_of header.now) }
{
    are_among(header, &HEADER_KEYS)
}

// Whether it gives each key of the primary part of a record with this tag.
pub fn part_keys_are_given(tag: u16, part: &[u8]) -> bool
    ensures { result ≡ are_among (part_keys tag) (keys_of part.now) }
{
    match tag {
        records::BLOCK => are_among(part, &BLOCK_KEYS),
        records::VERSION => are_among(part, &VERSION_KEYS),
        records::VERSION_DELETE => are_among(part, &DELETE_KEYS),
        _ => are_among(part, &PACK_LIST_KEYS),
    }
}

// Whether the header's keys are the writer's for this tag, in its order.
pub fn header_is_in_order(tag: u16, header: &[u8]) -> bool
    ensures { result ≡ are_these (written_keys tag) (keys_of header.now) }
{
    if tag == records::BLOCK {
        are_these(header, &BLOCK_HEADER)
    } else {
        are_these(header, &PART_HEADER)
    }
}

// ---- a block's two maps

// The codes of `s`, of `l` and of `I`.
const SECONDARY: [u64; 8] = [0x173, 0, 0, 0, 0, 0, 0, 0];

const LENGTH: [u64; 1] = [0x16c];

const IDENTIFIER: [u64; 8] = [0x149, 0, 0, 0, 0, 0, 0, 0];

// Whether a list of one map, whose only key is `l`, stands under `s` of the header.
pub fn has_length_alone(header: &[u8]) -> bool
    ensures { result ≡ has_length_alone header.now }
{
    let places = msgpack::read_pairs(header, SECONDARY).places;
    let at = places[0];
    if at == 0 {
        return false;
    }
    let list = slices::from(header, at);
    match msgpack::read_array(list) {
        Some(Items { count, size, .. }) => {
            count == 1 && are_these(slices::from(list, size), &LENGTH)
        }
        None => false,
    }
}

// Whether `I` is the only key of the primary part, and a text stands under it.
pub fn has_identifier_alone(part: &[u8]) -> bool
    ensures { result ≡ has_identifier_alone part.now }
{
    if !are_these(part, &BLOCK_KEYS) {
        return false;
    }
    let places = msgpack::read_pairs(part, IDENTIFIER).places;
    let at = places[0];
    if at == 0 {
        return false;
    }
    msgpack::read_text(slices::from(part, at)).is_some()
}

// ---- a bucket's name

fn is_letter_or_digit(b: u8) -> bool
    ensures { result ≡ is_letter_or_digit b }
{
    b.is_ascii_lowercase() || b.is_ascii_digit()
}

fn is_name_byte(b: u8) -> bool
    ensures { result ≡ is_name_byte b }
{
    is_letter_or_digit(b) || b == b'.' || b == b'-'
}

// 3 to 63 small letters, digits, dots and hyphens, which begin and end with a letter or digit, and in
// which no dot follows a dot.
pub fn is_bucket_name(text: &[u8]) -> bool
    ensures { result ≡ is_bucket_name text.now }
{
    let n = text.len();
    3 <= n
        && n <= 63
        && is_letter_or_digit(text[0])
        && is_letter_or_digit(text[n - 1])
        && are_name_bytes(text)
}

fn are_name_bytes(text: &[u8]) -> bool
    ensures { result ≡ are_name_bytes false text.now }
{
    let mut after = false;
    for &b in text {
        let here = b == b'.';
        if !is_name_byte(b) || after && here {
            return false;
        }
        after = here;
    }
    true
}
