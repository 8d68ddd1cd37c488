// MessagePack items by the public specification: one passed over, read at the front of a slice, or
// looked up in a map by a text key.
#![tactic(auto)]

ghost use Rattle.std.specs.Prelude.{ℕ, ◌≡◌, ◌-◌, ◌%◌, ◌≤◌, ◌<◌, ◌^◌, eqb, min, length, drop, get_or};
ghost use Rattle.msgpack.specs.Formats.{kind_index, integer_kind, array_kind, map_kind, format_read, format_of};
ghost use Rattle.msgpack.specs.Items.{head, head_read, HeadAt, items_of, pass_items, pass_item, number_of, pass_over, passage_of};
ghost use Rattle.msgpack.specs.Readers.{is_whole, content_at, read_text, read_binary, part_of, part_short, read_boolean, plus, minus, twos_complement, integer_of, read_integer, integer_read, integer_short, count_at, read_array, read_map, counted_of, counted_short};
ghost use Rattle.msgpack.specs.Short.{fixed_holds, short_width, is_signed, short_front, length_read, count_read, IntegerTold};
ghost use Rattle.msgpack.specs.Pairs.{code_at, position, pair_of, pair_at, Sized, WithValue, NoPairs, PairsFrom, PairsRead};

// The kinds of items. Unused is that of the first byte C1.
#[derive(Clone, Copy, PartialEq, Eq)]
pub enum Kind {
    Unused,
    Nil,
    Boolean,
    Integer,
    Float,
    Text,
    Binary,
    Extension,
    Array,
    Map,
}

// A kind, by itself or by its number in the order above. What holds items comes last, and so a number past
// the kinds is taken for a map's.
pub trait ToKind {
    ghost index: { Self → ℕ };

    fn to_kind(self) -> Kind
        ensures { kind_index result ≡ min (index self) map_kind };
}

impl ToKind for Kind {
    ghost index = { kind_index };

    fn to_kind(self) -> Kind {
        self
    }
}

impl ToKind for usize {
    ghost index = { λ number. number };

    fn to_kind(self) -> Kind {
        match self {
            0 => Kind::Unused,
            1 => Kind::Nil,
            2 => Kind::Boolean,
            3 => Kind::Integer,
            4 => Kind::Float,
            5 => Kind::Text,
            6 => Kind::Binary,
            7 => Kind::Extension,
            8 => Kind::Array,
            _ => Kind::Map,
        }
    }
}

// How deep containers may stand in containers.
pub const ALLOWANCE: usize = 16;

// What a first byte says: the kind of item; the width of the number that follows; and an amount.
// After that number stand as many bytes (of an array items, of a map pairs) as it and the amount
// together say.
#[derive(Clone, Copy)]
struct Format(Kind, usize, usize);

// What a first byte from C0 to DF says.
fn sized_format(b: u8) -> Format
    requires { (0xc0 ≤ b) × (b < 0xe0) }
    ensures { format_read result ≡ format_of b }
{
    match b {
        0xc0 => Format(Kind::Nil, 0, 0),
        0xc1 => Format(Kind::Unused, 0, 0),
        0xc2 => Format(Kind::Boolean, 0, 0),
        0xc3 => Format(Kind::Boolean, 0, 0),
        0xc4 => Format(Kind::Binary, 1, 0),
        0xc5 => Format(Kind::Binary, 2, 0),
        0xc6 => Format(Kind::Binary, 4, 0),
        0xc7 => Format(Kind::Extension, 1, 1),
        0xc8 => Format(Kind::Extension, 2, 1),
        0xc9 => Format(Kind::Extension, 4, 1),
        0xca => Format(Kind::Float, 0, 4),
        0xcb => Format(Kind::Float, 0, 8),
        0xcc | 0xd0 => Format(Kind::Integer, 0, 1),
        0xcd | 0xd1 => Format(Kind::Integer, 0, 2),
        0xce | 0xd2 => Format(Kind::Integer, 0, 4),
        0xcf | 0xd3 => Format(Kind::Integer, 0, 8),
        0xd4 => Format(Kind::Extension, 0, 2),
        0xd5 => Format(Kind::Extension, 0, 3),
        0xd6 => Format(Kind::Extension, 0, 5),
        0xd7 => Format(Kind::Extension, 0, 9),
        0xd8 => Format(Kind::Extension, 0, 17),
        0xd9 => Format(Kind::Text, 1, 0),
        0xda => Format(Kind::Text, 2, 0),
        0xdb => Format(Kind::Text, 4, 0),
        0xdc => Format(Kind::Array, 2, 0),
        0xdd => Format(Kind::Array, 4, 0),
        0xde => Format(Kind::Map, 2, 0),
        _ => Format(Kind::Map, 4, 0),
    }
}

// The first byte of an item, and the number that may follow it: the item's kind, the head's own
// length, and how many bytes (of an array items, of a map pairs) follow the head. The kind is Unused
// where no item can begin so.
#[derive(Clone, Copy)]
pub struct Head {
    pub kind: Kind,
    pub size: usize,
    pub count: usize,
}

// No item begins so.
const NO_HEAD: Head = Head {
    kind: Kind::Unused,
    size: 0,
    count: 0,
};

// The head at a place of s, whose first byte b is one from C0 to DF.
fn sized_head(s: &[u8], at: usize, b: u8) -> Head
    requires { (at < length s.now) × (b ≡ get_or s.now at 0) × (0xc0 ≤ b) × (b < 0xe0) }
    ensures { HeadAt (drop at s.now) (head_read result) }
{
    let f = sized_format(b);
    let kind = f.0;
    let width = f.1;
    let amount = f.2;
    match endian::read_big(s, at + 1, width) {
        Some(n) => Head {
            kind,
            size: 1 + width,
            count: amount + n as usize,
        },
        None => NO_HEAD,
    }
}

// A head of one byte.
fn short_head(kind: Kind, count: usize) -> Head
    ensures { head_read result ≡ head (kind_index kind) 1 count }
{
    Head {
        kind,
        size: 1,
        count,
    }
}

// The head at a place of s.
pub fn head_at(s: &[u8], at: usize) -> Head
    ensures { HeadAt (drop at s.now) (head_read result) }
{
    if s.len() <= at {
        return NO_HEAD;
    }
    let b = s[at];
    let n = b as usize;
    if n < 0x80 {
        return short_head(Kind::Integer, 0);
    }
    if n < 0x90 {
        return short_head(Kind::Map, n - 0x80);
    }
    if n < 0xa0 {
        return short_head(Kind::Array, n - 0x90);
    }
    if n < 0xc0 {
        return short_head(Kind::Text, n - 0xa0);
    }
    if n < 0xe0 {
        return sized_head(s, at, b);
    }
    short_head(Kind::Integer, 0)
}

// How many items a container holds whose head counts so many, modulo 2^64: no head counts more than 2^33.
pub fn items_of(kind: Kind, count: usize) -> usize
    ensures { result ≡ items_of (kind_index kind) count % 2 ^ 64 }
{
    if kind == Kind::Map {
        count.wrapping_add(count)
    } else {
        count
    }
}

// Why an item cannot be passed over.
#[derive(Clone, Copy)]
pub enum Fault {
    // The slice ends early, or a byte C1 stands where an item should begin.
    Cut,
    // A container stands at depth 17, and its count has been read.
    TooDeep,
}

// By document 01's refusal sheet.
impl From<Fault> for u8 {
    ghost from_gives = { λ f n. n ≡ number_of f };

    fn from(f: Fault) -> u8 {
        match f {
            Fault::Cut => 9,
            Fault::TooDeep => 10,
        }
    }
}

// Passes over the array or map at a place, whose head is h.
#[cycle(pass_container_pass_item_pass_items)]
fn pass_container(s: &[u8], at: usize, h: Head, allowance: usize) -> Result<usize, Fault>
    requires { HeadAt (drop at s.now) (head_read h) × (array_kind ≤ kind_index h.kind) }
    ensures { passage_of result ≡ pass_item allowance (drop at s.now) }
{
    if allowance == 0 {
        return Err(Fault::TooDeep);
    }
    let size = h.size;
    let n = pass_items(s, at + size, items_of(h.kind, h.count), allowance - 1)?;
    Ok(size + n)
}

// Passes over the item at a place, whose head is h and in which containers may stand so deep.
#[cycle(pass_container_pass_item_pass_items)]
fn pass_item(s: &[u8], at: usize, h: Head, allowance: usize) -> Result<usize, Fault>
    requires { HeadAt (drop at s.now) (head_read h) }
    ensures { passage_of result ≡ pass_item allowance (drop at s.now) }
{
    let length = h.size + h.count;
    match h.kind {
        Kind::Unused => Err(Fault::Cut),
        Kind::Array | Kind::Map => pass_container(s, at, h, allowance),
        _ if length <= s.len() - at => Ok(length),
        _ => Err(Fault::Cut),
    }
}

// Passes over count items from a place on; stops at the first that is not whole. Not inlined, so that
// passing over an item that holds no others is.
#[cycle(pass_container_pass_item_pass_items)]
#[inline(never)]
fn pass_items(s: &[u8], from: usize, count: usize, allowance: usize) -> Result<usize, Fault>
    ensures { passage_of result ≡ pass_items (pass_item allowance) count (drop from s.now) }
{
    let mut at = from;
    for _ in 0..count {
        at += pass_item(s, at, head_at(s, at), allowance)?;
    }
    Ok(at - from)
}

// Passes over the item at the front of s, and answers how many bytes it has.
pub fn pass_over(s: &[u8]) -> Result<usize, Fault>
    ensures { passage_of result ≡ pass_over s.now }
{
    pass_item(s, 0, head_at(s, 0), ALLOWANCE)
}

// ---- the short form: the fixed one if it holds the argument, else the least that does

// Whether a first byte alone holds n: an integer, a length or a count, as the kind says.
fn fixed_holds(kind: Kind, n: u64) -> bool
    ensures { result ≡ fixed_holds (kind_index kind) (plus n) }
{
    match kind {
        Kind::Integer => n < 128,
        Kind::Text => n < 32,
        Kind::Binary => false,
        Kind::Extension => (n == 1) | (n == 2) | (n == 4) | (n == 8) | (n == 16),
        Kind::Array | Kind::Map => n < 16,
        Kind::Unused | Kind::Nil | Kind::Boolean | Kind::Float => true,
    }
}

// How many bytes the short form of n has for it behind its first byte.
pub fn short_width<K: ToKind>(kind: K, n: u64) -> usize
    ensures { result ≡ short_width (K.index kind) (plus n) }
{
    width_of(kind.to_kind(), n)
}

fn width_of(kind: Kind, n: u64) -> usize
    ensures { result ≡ short_width (kind_index kind) (plus n) }
{
    if fixed_holds(kind, n) {
        return 0;
    }
    if n < 256 {
        return match kind {
            Kind::Array | Kind::Map => 2,
            _ => 1,
        };
    }
    if n < 65536 {
        return 2;
    }
    if n < 4294967296 { 4 } else { 8 }
}

// The same of the integer -n.
fn negative_width(n: u64) -> usize
    ensures { result ≡ short_width integer_kind (minus n) }
{
    if n <= 32 {
        return 0;
    }
    if n <= 128 {
        return 1;
    }
    if n <= 32768 {
        return 2;
    }
    if n <= 2147483648 { 4 } else { 8 }
}

// Whether the first byte is that of a signed integer, int 8 to int 64.
fn is_signed(b: u8) -> bool
    ensures { result ≡ is_signed b }
{
    (0xd0 <= b) & (b < 0xd4)
}

// Whether a head, of no integer, is the short form of its count.
fn short_count(h: Head) -> bool
    requires { 0 < h.size }
    ensures { result ≡ eqb (h.size - 1) (short_width (kind_index h.kind) (plus h.count)) }
{
    let width = h.size - 1;
    width == short_width(h.kind, h.count as u64)
}

// ---- the readers

// Whether a head is of this kind, and all the bytes that it asks for lie within len.
fn is_whole(kind: Kind, h: Head, len: usize) -> bool
    requires { h.size ≤ len }
    ensures { result ≡ is_whole (kind_index kind) (head_read h) len }
{
    if h.kind == kind {
        h.count <= len - h.size
    } else {
        false
    }
}

// The content of a text, or of bytes: where it starts, how long it is, and whether its head is the short
// one.
#[derive(Clone, Copy)]
pub struct Content {
    pub start: usize,
    pub len: usize,
    pub short: bool,
}

// The content of the text or bytes at the front of s, as the kind says; none where it is not there whole.
fn content_at(kind: Kind, s: &[u8]) -> Option<Content>
    requires { integer_kind < kind_index kind }
    ensures result_value { part_of result ≡ content_at (kind_index kind) s.now }
    ensures short { part_short result ≡ short_front s.now (length_read (content_at (kind_index kind) s.now)) }
{
    let h = head_at(s, 0);
    if is_whole(kind, h, s.len()) {
        Some(Content {
            start: h.size,
            len: h.count,
            short: short_count(h),
        })
    } else {
        None
    }
}

// The text at the front of s.
pub fn read_text(s: &[u8]) -> Option<Content>
    ensures result_value { part_of result ≡ read_text s.now }
    ensures short { part_short result ≡ short_front s.now (length_read (read_text s.now)) }
{
    content_at(Kind::Text, s)
}

// The bytes at the front of s.
pub fn read_binary(s: &[u8]) -> Option<Content>
    ensures result_value { part_of result ≡ read_binary s.now }
    ensures short { part_short result ≡ short_front s.now (length_read (read_binary s.now)) }
{
    content_at(Kind::Binary, s)
}

// The boolean at the front of s.
pub fn read_boolean(s: &[u8]) -> Option<bool>
    ensures { result ≡ read_boolean s.now }
{
    let h = head_at(s, 0);
    if !is_whole(Kind::Boolean, h, s.len()) {
        return None;
    }
    Some(s[0] == 0xc3)
}

// An integer from -2^63 to 2^64 - 1, by its magnitude, and whether its form is the short one.
#[derive(Clone, Copy)]
pub enum Integer {
    NonNegative(u64, bool),
    Negative(u64, bool),
}

// The integer n, in the form with this first byte and width bytes behind it.
fn non_negative(b: u8, width: usize, n: u64) -> Integer
    ensures { IntegerTold b width (plus n) result }
{
    Integer::NonNegative(n, (width == short_width(Kind::Integer, n)) & !is_signed(b))
}

// The integer -n, in a form with width bytes behind its first byte.
fn negative(width: usize, n: u64) -> Integer
    ensures result_value { integer_read (Some result) ≡ Some (minus n) }
    ensures short { integer_short (Some result) ≡ eqb width (short_width integer_kind (minus n)) }
{
    Integer::Negative(n, width == negative_width(n))
}

// Half of the numbers of 0 to 8 bytes.
const HALVES: [u64; 9] = [
    0,
    0x80,
    0x8000,
    0x80_0000,
    0x8000_0000,
    0x80_0000_0000,
    0x8000_0000_0000,
    0x80_0000_0000_0000,
    0x8000_0000_0000_0000,
];

// The number n of width bytes behind this first byte, in two's complement. 2^64 need not be held.
fn twos_complement(b: u8, width: usize, n: u64) -> Integer
    requires { (width ≤ 8) × (n < 256 ^ width) }
    ensures { IntegerTold b width (twos_complement width n) result }
{
    let half = HALVES[width];
    if n < half {
        non_negative(b, width, n)
    } else {
        negative(width, half - (n - half))
    }
}

// The integer with this first byte, whose width bytes after it are the number n.
fn integer_of(b: u8, width: usize, n: u64) -> Integer
    requires { (width ≤ 8) × (n < 256 ^ width) }
    ensures { IntegerTold b width (integer_of b width n) result }
{
    let first = b as u64;
    if first < 0x80 {
        return non_negative(b, width, first);
    }
    if first < 0xd0 {
        return non_negative(b, width, n);
    }
    if first < 0xe0 {
        return twos_complement(b, width, n);
    }
    negative(width, 256 - first)
}

// The integer at the front of s.
pub fn read_integer(s: &[u8]) -> Option<Integer>
    ensures result_value { integer_read result ≡ read_integer s.now }
    ensures short { integer_short result ≡ short_front s.now (read_integer s.now) }
{
    let h = head_at(s, 0);
    if is_whole(Kind::Integer, h, s.len()) {
        let count = h.count;
        // Never None: an integer has at most 8 bytes, and they are there.
        let n = endian::read_big(s, h.size, count)?;
        Some(integer_of(s[0], count, n))
    } else {
        None
    }
}

// The head of an array or map: how many items, or pairs, its own length, and whether it is the short one.
#[derive(Clone, Copy)]
pub struct Items {
    pub count: usize,
    pub size: usize,
    pub short: bool,
}

// The head of the array or map at the front of s, as the kind says.
fn count_at(kind: Kind, s: &[u8]) -> Option<Items>
    requires { integer_kind < kind_index kind }
    ensures result_value { counted_of result ≡ count_at (kind_index kind) s.now }
    ensures short { counted_short result ≡ short_front s.now (count_read (count_at (kind_index kind) s.now)) }
{
    let h = head_at(s, 0);
    if h.kind == kind {
        Some(Items {
            count: h.count,
            size: h.size,
            short: short_count(h),
        })
    } else {
        None
    }
}

// The head of an array at the front of s.
pub fn read_array(s: &[u8]) -> Option<Items>
    ensures result_value { counted_of result ≡ read_array s.now }
    ensures short { counted_short result ≡ short_front s.now (count_read (read_array s.now)) }
{
    count_at(Kind::Array, s)
}

// The head of a map at the front of s.
pub fn read_map(s: &[u8]) -> Option<Items>
    ensures result_value { counted_of result ≡ read_map s.now }
    ensures short { counted_short result ≡ short_front s.now (count_read (read_map s.now)) }
{
    count_at(Kind::Map, s)
}

// ---- the pairs of a map

// How deep containers may stand in an outermost map.
const INSIDE: usize = 15;

// The code of every key that is no text of at most 3 bytes.
const OTHER: u64 = 0xffff_ffff;

// The code of the key at a place, whose head is h: of a text of at most 3 bytes these bytes, with a 1
// before them, as a number.
fn code_at(s: &[u8], at: usize, h: Head) -> u64
    requires { HeadAt (drop at s.now) (head_read h) }
    ensures { result ≡ code_at (drop at s.now) }
{
    let count = h.count;
    let size = h.size;
    if h.kind != Kind::Text {
        return OTHER;
    }
    if 3 < count {
        return OTHER;
    }
    match endian::read_big(s, at + size, count) {
        Some(n) => (1 << (8 * count)) + n,
        None => OTHER,
    }
}

// A pair of an outermost map, passed over: the code of its key, where its value stands, and where the
// next pair does.
#[derive(Clone, Copy)]
pub struct Pair {
    pub code: u64,
    pub value: usize,
    pub next: usize,
}

// The pair at a place of s. The code of a key that is a text of at most 3 bytes is these bytes, with a
// 1 before them, as a number; all other keys have one code. Of its two items the first that is not
// whole settles the fault.
pub fn pair_at(s: &[u8], at: usize) -> Result<Pair, Fault>
    ensures { pair_of result ≡ pair_at s.now at }
{
    let h = head_at(s, at);
    let value = at + pass_item(s, at, h, INSIDE)?;
    let next = value + pass_item(s, value, head_at(s, value), INSIDE)?;
    let code = code_at(s, at, h);
    Ok(Pair { code, value, next })
}

// Where a code first stands among the keys; 8 where it does not.
fn position(keys: [u64; 8], code: u64) -> usize
    ensures { result ≡ position keys code }
{
    keys.iter().position(|&key| key == code).unwrap_or(8)
}

// The values of the keys asked for, among the pairs passed so far: where the last of each stands, 0
// where there is none; and whether there are several.
#[derive(Clone, Copy)]
struct Values {
    places: [usize; 8],
    repeated: [bool; 8],
}

// The values with one more, of the j-th key, at a place. 8 stands for every key not asked for.
fn with_value(values: Values, j: usize, place: usize) -> Values
    requires { Sized values }
    ensures { WithValue values j place result }
{
    let mut places = values.places;
    let mut repeated = values.repeated;
    if 8 <= j {
        return values;
    }
    // Of a repeated key the last counts.
    repeated[j] = repeated[j] | (0 < places[j]);
    places[j] = place;
    Values { places, repeated }
}

// An item passed over; whether it is a whole map; and if so, of each key asked for where its last value
// stands, 0 where the key is missing, and whether it is repeated.
#[derive(Clone, Copy)]
pub struct Pairs {
    pub passed: Result<usize, Fault>,
    pub map: bool,
    pub places: [usize; 8],
    pub repeated: [bool; 8],
}

// An item that is no whole map.
fn no_pairs(passed: Result<usize, Fault>) -> Pairs
    ensures { NoPairs (passage_of passed) result }
{
    Pairs {
        passed,
        map: false,
        places: [0; 8],
        repeated: [false; 8],
    }
}

// The pairs of a map, so many from a place on.
fn pairs_from(s: &[u8], from: usize, pairs: usize, keys: [u64; 8]) -> Pairs
    requires { 0 < from }
    ensures { PairsFrom s.now keys from pairs result }
{
    let mut at = from;
    let mut values = Values {
        places: [0; 8],
        repeated: [false; 8],
    };
    for _ in 0..pairs {
        match pair_at(s, at) {
            Ok(pair) => {
                values = with_value(values, position(keys, pair.code), pair.value);
                at = pair.next;
            }
            Err(f) => return no_pairs(Err(f)),
        }
    }
    let places = values.places;
    let repeated = values.repeated;
    Pairs {
        passed: Ok(at),
        map: true,
        places,
        repeated,
    }
}

// The item at the front of s passed over once, and the values of the keys with these codes in it.
pub fn read_pairs(s: &[u8], keys: [u64; 8]) -> Pairs
    ensures { PairsRead s.now keys result }
{
    let h = head_at(s, 0);
    if h.kind == Kind::Map {
        let count = h.count;
        let from = h.size;
        return pairs_from(s, from, count, keys);
    }
    no_pairs(pass_item(s, 0, h, ALLOWANCE))
}
