// The value of a record: the header, which is one MessagePack map, and then the secondary part.
#![tactic(auto)]

ghost use Rattle.std.specs.Prelude.{None, ◌≡◌, ◌+◌, ◌≤◌, length, take, drop};
ghost use Rattle.refusals.specs.Limit.{pack_limit};
ghost use Rattle.msgpack.specs.Items.{WholeItem};
ghost use Rattle.msgpack.specs.Lookup.{at_place};
ghost use Rattle.msgpack.specs.Pairs.{place_told};
ghost use Rattle.msgpack.specs.Readers.{part_of, read_binary};
ghost use Rattle.msgpack.specs.Views.{repeats, byte_view};
ghost use Rattle.value.specs.Fields.{read_natural, shifted};
ghost use Rattle.value.specs.Header.{secondary_key, secondary_keys, with_map, with_list, items_repeat, list_repeats, header_repeats, tested, header, telling_of, header_alone, told_with, HeaderAt};
ghost use Rattle.value.specs.Reading.{filled, reading, number_of, fault_of, answer_of, primary_part, secondary_part, IsPart};

use msgpack::{Content, Integer};
use slices::Place;

// Refusals 9 to 12 of document 01, and 22.
#[derive(Clone, Copy)]
pub enum Fault {
    // The value begins with no whole item.
    Cut,
    TooDeep,
    // The first item is no header as described.
    Header,
    // A key that is read stands twice in its map.
    Repeated,
    // Header and secondary part do not fill the value.
    NotFilled,
}

// The number of a refusal, as document 01 has it.
impl From<Fault> for u8 {
    ghost from_gives = { λ f n. n ≡ number_of f };

    fn from(f: Fault) -> u8 {
        match f {
            Fault::Cut => 9,
            Fault::TooDeep => 10,
            Fault::Header => 11,
            Fault::Repeated => 22,
            Fault::NotFilled => 12,
        }
    }
}

// The first item is passed over.
impl From<msgpack::Fault> for Fault {
    ghost from_gives = { λ m f. f ≡ fault_of m };

    fn from(m: msgpack::Fault) -> Fault {
        match m {
            msgpack::Fault::Cut => Fault::Cut,
            msgpack::Fault::TooDeep => Fault::TooDeep,
        }
    }
}

// A part of a value: where it stands; `c`, its compression; and whether `z` is there, which tells of
// its encryption.
#[derive(Clone, Copy)]
pub struct Part {
    pub start: usize,
    pub len: usize,
    pub compression: u64,
    pub encrypted: bool,
}

// What a value tells: `v`, the parts, and whether a secondary part is present. Where none is, it has
// length 0 and the primary's `c` and `z`, and starts at the header's end.
#[derive(Clone, Copy)]
pub struct Told {
    pub version: u64,
    pub primary: Part,
    pub present: bool,
    pub secondary: Part,
}

// ---- what stands under a key of a map, by the place told of it: 0 where the key is missing

// The integer of at least 0 at the front of s.
pub fn natural_at(s: &[u8]) -> Option<u64>
    ensures { result ≡ read_natural s.now }
{
    match msgpack::read_integer(s)? {
        Integer::NonNegative(n, _) => Some(n),
        Integer::Negative(_, _) => None,
    }
}

// The integer of at least 0 under a key; absent, where the key is missing.
pub fn natural_under(map: &[u8], place: usize, absent: Option<u64>) -> Option<u64>
    ensures { result ≡ at_place absent (λ p. read_natural (drop p map.now)) (place_told place) }
{
    if place == 0 {
        return absent;
    }
    natural_at(slices::from(map, place))
}

// The bytes at a place; what is told of them is counted from the front of the map.
fn bytes_at(map: &[u8], p: usize) -> Option<Content>
    requires { p ≤ length map.now }
    ensures { part_of result ≡ shifted p (read_binary (drop p map.now)) }
{
    let b = msgpack::read_binary(&map[p..])?;
    Some(Content {
        start: p + b.start,
        len: b.len,
        short: b.short,
    })
}

// The bytes under a key.
fn bytes_under(map: &[u8], place: usize) -> Option<Content>
    requires { place ≤ length map.now }
    ensures { part_of result ≡ at_place None (λ p. shifted p (read_binary (drop p map.now))) (place_told place) }
{
    if place == 0 {
        return None;
    }
    bytes_at(map, place)
}

// ---- the header

// The codes of a header's keys: `e`, `s`, `c`, `z` and `v`.
const HEADER_KEYS: [u64; 8] = [0x165, 0x173, 0x163, 0x17a, 0x176, 0, 0, 0];

// Where their values stand, 0 where a key is missing; and whether one of the keys repeats.
#[derive(Clone, Copy)]
struct HeaderPlaces {
    e: usize,
    s: usize,
    c: usize,
    z: usize,
    v: usize,
    repeated: bool,
}

// The codes of the keys of the map in `s`: `l`, `c` and `z`.
const SECONDARY_KEYS: [u64; 8] = [0x16c, 0x163, 0x17a, 0, 0, 0, 0, 0];

// What the header tells where it lists no secondary part; none where it is not as document 01
// describes it.
fn alone(map: &[u8], places: HeaderPlaces) -> Option<Told>
    requires { HeaderAt map.now places }
    ensures { result ≡ header_alone map.now }
{
    let bytes = bytes_under(map, places.e)?;
    let compression = natural_under(map, places.c, Some(0))?;
    let version = natural_under(map, places.v, Some(0))?;
    let encrypted = 0 < places.z;
    Some(Told {
        version,
        primary: Part {
            start: bytes.start,
            len: bytes.len,
            compression,
            encrypted,
        },
        present: false,
        secondary: Part {
            start: map.len(),
            len: 0,
            compression,
            encrypted,
        },
    })
}

// The same with the secondary part of which the map in `s` tells.
fn with_map(t: Told, map: &[u8]) -> Result<Told, Fault>
    requires { WholeItem map.now }
    ensures { answer_of result ≡ tested (repeats byte_view secondary_keys map.now)
        (told_with t (with_map byte_view pack_limit (telling_of t) map.now)) }
{
    let primary = t.primary;
    let part = t.secondary;
    let pairs = msgpack::read_pairs(map, SECONDARY_KEYS);
    if !pairs.map {
        return Err(Fault::Header);
    }
    let places = pairs.places;
    let Some(l) = natural_under(map, places[0], None) else {
        return Err(Fault::Header);
    };
    let len = l as usize;
    if refusals::PACK_LIMIT < len {
        return Err(Fault::Header);
    }
    let Some(compression) = natural_under(map, places[1], Some(primary.compression)) else {
        return Err(Fault::Header);
    };
    let repeated = pairs.repeated;
    if repeated[0] | repeated[1] | repeated[2] {
        return Err(Fault::Repeated);
    }
    let encrypted = (0 < places[2]) | primary.encrypted;
    Ok(Told {
        version: t.version,
        primary,
        present: true,
        secondary: Part {
            start: part.start,
            len,
            compression,
            encrypted,
        },
    })
}

// The same with the list at the front of s, which is of no item or of one map.
fn with_list(t: Told, s: &[u8]) -> Result<Told, Fault>
    requires { WholeItem s.now }
    ensures { answer_of result ≡ tested (items_repeat byte_view (byte_view.items s.now))
        (told_with t (with_list byte_view pack_limit (telling_of t) s.now)) }
{
    let Some(items) = msgpack::read_array(s) else {
        return Err(Fault::Header);
    };
    match items.count {
        0 => Ok(t),
        1 => {
            let size = items.size;
            with_map(t, &s[size..])
        }
        _ => Err(Fault::Header),
    }
}

// The header, which is a whole map.
fn header(map: &[u8], places: HeaderPlaces) -> Result<Told, Fault>
    requires { HeaderAt map.now places }
    ensures { answer_of result ≡ tested (list_repeats byte_view (byte_view.under secondary_key map.now)) (header pack_limit map.now) }
{
    let Some(t) = alone(map, places) else {
        return Err(Fault::Header);
    };
    let at = places.s;
    if at == 0 {
        return Ok(t);
    }
    with_list(t, &map[at..])
}

// ---- the value

// The value by its first n bytes, which are the header.
fn filled(value: &[u8], n: usize, places: HeaderPlaces) -> Result<Told, Fault>
    requires { (n ≤ length value.now) × HeaderAt (take n value.now) places }
    ensures { answer_of result ≡ filled n value.now
        (tested (header_repeats byte_view (take n value.now)) (header pack_limit (take n value.now))) }
{
    let told = header(&value[..n], places)?;
    let part = told.secondary;
    let fills = part.len == value.len() - n;
    let repeated = places.repeated;
    if repeated {
        return Err(Fault::Repeated);
    }
    if fills {
        Ok(told)
    } else {
        Err(Fault::NotFilled)
    }
}

// What a value tells. The refusals are tested in the order of their numbers.
pub fn read(value: &[u8]) -> Result<Told, Fault>
    ensures { answer_of result ≡ reading pack_limit value.now }
{
    let pairs = msgpack::read_pairs(value, HEADER_KEYS);
    let places = pairs.places;
    let repeated = pairs.repeated;
    let passed = pairs.passed;
    let n = passed?;
    if !pairs.map {
        return Err(Fault::Header);
    }
    filled(
        value,
        n,
        HeaderPlaces {
            e: places[0],
            s: places[1],
            c: places[2],
            z: places[3],
            v: places[4],
            repeated: repeated[0] | repeated[1] | repeated[2] | repeated[3] | repeated[4],
        },
    )
}

// A part that lies inside the value.
fn part_of(value: &[u8], part: Part) -> &[u8]
    requires { part.start + part.len ≤ length value.now }
    ensures { IsPart value.entry part result }
{
    slices::part(
        value,
        Place {
            start: part.start,
            len: part.len,
        },
    )
}

// The primary part, as a part of the value; of a refused value the empty part.
pub fn primary(value: &[u8]) -> &[u8]
    ensures { IsPart value.entry (primary_part (reading pack_limit value.now)) result }
{
    match read(value) {
        Ok(t) => part_of(value, t.primary),
        Err(_) => &value[..0],
    }
}

// The secondary part, as a part of the value; of a refused value, and where none is present, the
// empty part.
pub fn secondary(value: &[u8]) -> &[u8]
    ensures { IsPart value.entry (secondary_part (reading pack_limit value.now)) result }
{
    match read(value) {
        Ok(t) => part_of(value, t.secondary),
        Err(_) => &value[..0],
    }
}
