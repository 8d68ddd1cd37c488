// The primary part of a pack list: which range of a version lies in which range of which pack, and in how
// many blocks. Entries and lengths are read where they stand; nothing is copied.
#![tactic(auto)]

ghost use Rattle.std.specs.Prelude.{true, cond, ◌&&◌, [], ◌≡◌, ◌+◌, ◌-◌, ◌≤◌, ◌<◌, ltb, length, drop};
ghost use Rattle.msgpack.specs.Items.{passage_of, pass_over, WholeItem};
ghost use Rattle.msgpack.specs.Readers.{plus, minus};
ghost use Rattle.msgpack.specs.Lookup.{at_place, over};
ghost use Rattle.msgpack.specs.Pairs.{place_told};
ghost use Rattle.msgpack.specs.Views.{size_of, byte_view};
ghost use Rattle.value.specs.Fields.{read_natural};
ghost use Rattle.pack_list.specs.Lists.{each_of, greatest, is_short, pack_list};
ghost use Rattle.pack_list.specs.Blocks.{rest_of, ceiling, is_in};
ghost use Rattle.pack_list.specs.declared.Fault.TheVariants.{Part};
ghost use Rattle.pack_list.specs.Answers.{number_of, range_told, ValueAt, items_in, numbers_of, numbers_by, WholeItems, NumbersInside, within_from, WithDelta, DeltasSummed, entry_of, told_of, told_in, SameEntry, entry_told, EntryAt, EntryInside, with_tests, holder_with, survey_of, surveyed, SurveyedInside, fault_beside, list_by, ReadFor, reading_of, ReadingInside, next_of, next_entry, NextInside};

use msgpack::Integer;
use primary::Texts;
use slices::Place;

// The codes of the keys that are asked for. Of a list, beside its identifier's: `P`.
const ENTRIES: u64 = 0x150;

// Of an entry: `p`, `o`, `t`, `E` and `N`.
const ENTRY_KEYS: [u64; 8] = [0x170, 0x16f, 0x174, 0x145, 0x14e, 0, 0, 0];

// Of a range: `s` and `l`.
const RANGE_KEYS: [u64; 8] = [0x173, 0x16c, 0, 0, 0, 0, 0, 0];

// Refusals 16 to 18 of document 01, 21 and 22.
#[derive(Clone, Copy)]
pub enum Fault {
    Part(primary::Fault),
    // A range ends above 2^64 - 1, or the lengths listed exceed the pack's range.
    Unfilled,
}

impl From<primary::Fault> for Fault {
    ghost from_gives = { λ p f. f ≡ Part p };

    fn from(fault: primary::Fault) -> Fault {
        Fault::Part(fault)
    }
}

// The number of a refusal.
impl From<Fault> for u8 {
    ghost from_gives = { λ f n. n ≡ number_of f };

    fn from(f: Fault) -> u8 {
        match f {
            Fault::Part(p) => u8::from(p),
            Fault::Unfilled => 21,
        }
    }
}

// ---- ranges

#[derive(Clone, Copy)]
pub struct Range {
    pub start: u64,
    pub len: u64,
}

// The range at a place, with whether a key repeats in its map.
fn range_at(part: &[u8], at: usize) -> Option<(Range, bool)>
    requires { WholeItem (drop at part.now) }
    ensures { result ≡ range_told (drop at part.now) }
{
    let map = slices::from(part, at);
    let pairs = msgpack::read_pairs(map, RANGE_KEYS);
    if !pairs.map {
        return None;
    }
    let places = pairs.places;
    let start = value::natural_under(map, places[0], Some(0))?;
    let len = value::natural_under(map, places[1], Some(0))?;
    let repeated = pairs.repeated;
    Some((Range { start, len }, repeated[0] | repeated[1]))
}

// The range under a key of the map at a place, by the place told of the key.
fn range_under(part: &[u8], at: usize, place: usize) -> Option<(Range, bool)>
    requires { (at ≤ length part.now) × ValueAt (drop at part.now) place }
    ensures { result ≡ at_place None (λ p. range_told (drop p (drop at part.now))) (place_told place) }
{
    if place == 0 {
        return None;
    }
    range_at(part, at + place)
}

// Whether a range ends within 64 bits.
fn is_short(r: Range) -> bool
    ensures { result ≡ is_short r }
{
    r.start.checked_add(r.len).is_some()
}

// ---- arrays of numbers

// How many, and where the first of them stands.
#[derive(Clone, Copy)]
pub struct Numbers {
    pub count: usize,
    pub first: usize,
}

// The array under a key of the map at a place, by the place told of the key; empty, where the key is
// missing.
fn numbers_under(part: &[u8], at: usize, place: usize) -> Option<Numbers>
    requires { (at ≤ length part.now) × ValueAt (drop at part.now) place }
    ensures result_value { numbers_of part.now result
        ≡ at_place (Some []) (λ p. byte_view.items (drop p (drop at part.now))) (place_told place) }
    ensures inside { NumbersInside part.now result }
    ensures place { result ≡ numbers_by part.now at (place_told place) }
{
    if place == 0 {
        return Some(Numbers {
            count: 0,
            first: at,
        });
    }
    let items = msgpack::read_array(slices::from(part, at + place))?;
    Some(Numbers {
        count: items.count,
        first: at + place + items.size,
    })
}

// Where the item after the one at a place stands; that place, where no whole item does.
pub fn after(part: &[u8], at: usize) -> usize
    ensures { result ≡ at + size_of (pass_over (drop at part.now)) }
{
    match msgpack::pass_over(slices::from(part, at)) {
        Ok(n) => at + n,
        Err(_) => at,
    }
}

// Whether all lengths together are at most the total, and what they leave of it. Nothing is added before
// it is compared.
fn lengths_within(part: &[u8], lengths: Numbers, total: u64) -> Option<(bool, u64)>
    ensures { result ≡ over (within_from true total) (each_of read_natural (items_in part.now lengths)) }
{
    let mut at = lengths.first;
    let mut left = total;
    let mut within = true;
    for _ in 0..lengths.count {
        let n = value::natural_at(slices::from(part, at))?;
        within = within & (n <= left);
        left = left.saturating_sub(n);
        at = after(part, at);
    }
    Some((within, left))
}

// So many blocks as lengths are listed, and one more, where these leave a rest.
fn with_rest(listed: usize, rest: u64) -> usize
    requires { listed < greatest }
    ensures { result ≡ listed + length (rest_of rest) }
{
    if rest == 0 {
        return listed;
    }
    listed + 1
}

// ---- deltas

// Of the blocks of an entry: the sum of the deltas above 0, and the source length with the magnitudes
// of those below; and whether both are within 64 bits.
#[derive(Clone, Copy)]
struct Sums {
    gains: u64,
    losses: u64,
    counted: bool,
}

fn with_gain(sums: Sums, n: u64) -> Sums
    ensures { WithDelta (plus n) sums result }
{
    match sums.gains.checked_add(n) {
        Some(gains) => Sums { gains, ..sums },
        None => Sums {
            counted: false,
            ..sums
        },
    }
}

fn with_loss(sums: Sums, n: u64) -> Sums
    ensures { WithDelta (minus n) sums result }
{
    match sums.losses.checked_add(n) {
        Some(losses) => Sums { losses, ..sums },
        None => Sums {
            counted: false,
            ..sums
        },
    }
}

// The deltas of so many blocks; those after play no part, but must be integers.
fn deltas_summed(part: &[u8], deltas: Numbers, blocks: usize, source: u64) -> Option<Sums>
    ensures { DeltasSummed (items_in part.now deltas) blocks source result }
{
    let mut at = deltas.first;
    let mut sums = Sums {
        gains: 0,
        losses: source,
        counted: true,
    };
    for k in 0..deltas.count {
        let delta = msgpack::read_integer(slices::from(part, at))?;
        if k < blocks {
            sums = match delta {
                Integer::NonNegative(n, _) => with_gain(sums, n),
                Integer::Negative(n, _) => with_loss(sums, n),
            };
        }
        at = after(part, at);
    }
    Some(sums)
}

// The least stride with which so many blocks hold the source range; 0, where there are none, or the sums
// are not counted.
fn stride_for(sums: Sums, blocks: usize) -> u64
    ensures { result ≡ cond (ltb 0 blocks && sums.counted) (ceiling (sums.losses - sums.gains) (blocks - 1)) 0 }
{
    if blocks == 0 {
        return 0;
    }
    if !sums.counted {
        return 0;
    }
    let bytes = sums.losses.saturating_sub(sums.gains);
    bytes.div_ceil(blocks as u64)
}

// ---- entries

// Where the pack's ULID stands, the range of the version, that of the pack, the stored lengths of blocks
// that are listed, and the deltas of source lengths from the stride.
#[derive(Clone, Copy)]
pub struct Entry {
    pub pack: Place,
    pub source: Range,
    pub stored: Range,
    pub lengths: Numbers,
    pub deltas: Numbers,
}

// What is told of an entry: how many bytes it has; whether a key repeats in it; whether it keeps the rule
// for ULIDs, and that for ranges and lengths; how many blocks it has; the stride that it asks for, and
// whether it takes part in finding the list's.
#[derive(Clone, Copy)]
struct Tests {
    size: usize,
    repeated: bool,
    named: bool,
    filled: bool,
    blocks: usize,
    stride: u64,
    counted: bool,
}

// How many bytes an entry has; where the values of its keys stand, 0 where a key is missing; and whether
// one repeats.
#[derive(Clone, Copy)]
struct EntryPlaces {
    size: usize,
    pack: usize,
    source: usize,
    stored: usize,
    lengths: usize,
    deltas: usize,
    repeated: bool,
}

// With what its lengths and deltas tell.
fn tested(part: &[u8], e: Entry, repeated: bool, size: usize) -> Option<(Entry, Tests)>
    requires { WholeItems e.lengths.count (drop e.lengths.first part.now) }
    ensures result_value { told_in part.now result ≡ over (λ x. told_of x repeated size) (entry_of part.now e) }
    ensures pack { SameEntry part.now e result }
{
    let source = e.source;
    let stored = e.stored;
    let lengths = e.lengths;
    let (within, rest) = lengths_within(part, lengths, stored.len)?;
    let blocks = with_rest(lengths.count, rest);
    let sums = deltas_summed(part, e.deltas, blocks, source.len)?;
    Some((
        e,
        Tests {
            size,
            repeated,
            named: identifier::is_ulid(slices::part(part, e.pack)),
            filled: is_short(source) & (is_short(stored) & within),
            blocks,
            stride: stride_for(sums, blocks),
            counted: (0 < blocks) & sums.counted,
        },
    ))
}

// The entry at a place, by where its values stand.
fn entry_by(part: &[u8], at: usize, places: EntryPlaces) -> Option<(Entry, Tests)>
    requires { (at ≤ length part.now) × EntryAt (drop at part.now) places }
    ensures result_value { told_in part.now result ≡ entry_told (drop at part.now) }
    ensures inside { EntryInside part.now at result }
{
    if places.pack == 0 {
        return None;
    }
    let pack = primary::text_at(part, at + places.pack)?;
    let (source, twice) = range_under(part, at, places.source)?;
    let (stored, again) = range_under(part, at, places.stored)?;
    let lengths = numbers_under(part, at, places.lengths)?;
    let deltas = numbers_under(part, at, places.deltas)?;
    let repeated = places.repeated | (twice | again);
    tested(
        part,
        Entry {
            pack,
            source,
            stored,
            lengths,
            deltas,
        },
        repeated,
        places.size,
    )
}

// How many bytes an item has that was passed over; 0, where none was whole.
fn size_of(passed: Result<usize, msgpack::Fault>) -> usize
    ensures { result ≡ size_of (passage_of passed) }
{
    passed.unwrap_or(0)
}

// The entry at a place, which is a whole item; it is passed over once.
fn entry_at(part: &[u8], at: usize) -> Option<(Entry, Tests)>
    requires { WholeItem (drop at part.now) }
    ensures result_value { told_in part.now result ≡ entry_told (drop at part.now) }
    ensures inside { EntryInside part.now at result }
{
    let pairs = msgpack::read_pairs(slices::from(part, at), ENTRY_KEYS);
    if !pairs.map {
        return None;
    }
    let passed = pairs.passed;
    let size = size_of(passed);
    let places = pairs.places;
    let repeated = pairs.repeated;
    entry_by(
        part,
        at,
        EntryPlaces {
            size,
            pack: places[0],
            source: places[1],
            stored: places[2],
            lengths: places[3],
            deltas: places[4],
            repeated: repeated[0] | repeated[1] | repeated[2] | repeated[3] | repeated[4],
        },
    )
}

// ---- all entries

// Whether a range of the version holds a byte.
fn holds(source: Range, byte: u64) -> bool
    ensures { result ≡ is_in source byte }
{
    if byte < source.start {
        return false;
    }
    byte - source.start < source.len
}

// What the entries so far tell together.
#[derive(Clone, Copy)]
struct Survey {
    repeated: bool,
    named: bool,
    filled: bool,
    stride: u64,
}

// An entry that holds the byte: its number, and where it stands; how many blocks it has, and whether it
// takes part in finding the stride.
#[derive(Clone, Copy)]
pub struct Held {
    pub number: usize,
    pub at: usize,
    pub entry: Entry,
    pub blocks: usize,
    pub counted: bool,
}

// With one entry more.
fn with_entry(all: Survey, t: Tests) -> Survey
    ensures { result ≡ with_tests all t }
{
    Survey {
        repeated: all.repeated | t.repeated,
        named: all.named & t.named,
        filled: all.filled & t.filled,
        stride: all.stride.max(t.stride),
    }
}

// With one entry more, which holds the byte or not.
fn with_holder(holder: Option<Held>, holds: bool, held: Held) -> Option<Held>
    ensures { result ≡ holder_with holder holds held }
{
    if holds { holder.or(Some(held)) } else { holder }
}

// What all entries tell together, and the first of them that holds the byte; none, where one is not as
// described.
fn survey_entries(part: &[u8], entries: Numbers, byte: u64) -> Option<(Survey, Option<Held>)>
    requires { WholeItems entries.count (drop entries.first part.now) }
    ensures result_value { survey_of part.now result ≡ surveyed byte (items_in part.now entries) }
    ensures inside { SurveyedInside part.now result }
{
    let mut at = entries.first;
    let mut all = Survey {
        repeated: false,
        named: true,
        filled: true,
        stride: 0,
    };
    let mut holder = None;
    for k in 0..entries.count {
        let (e, t) = entry_at(part, at)?;
        all = with_entry(all, t);
        let held = Held {
            number: k,
            at,
            entry: e,
            blocks: t.blocks,
            counted: t.counted,
        };
        holder = with_holder(holder, holds(e.source, byte), held);
        at += t.size;
    }
    Some((all, holder))
}

// ---- the list

// The identifier of the version, and where the entries stand.
#[derive(Clone, Copy)]
pub struct PackList {
    pub identifier: Texts,
    pub entries: Numbers,
}

// 22 of the entries comes before 18 of the identifier.
fn fault_beside(f: primary::Fault, repeated: bool) -> primary::Fault
    ensures { result ≡ fault_beside f repeated }
{
    match f {
        primary::Fault::RuleBroken if repeated => primary::Fault::Repeated,
        _ => f,
    }
}

// By the identifier, and by what all entries tell.
fn list_by(
    identifier: Result<Texts, primary::Fault>,
    entries: Numbers,
    all: Survey,
    holder: Option<Held>,
) -> Result<(PackList, u64, Option<Held>), Fault>
    ensures { result ≡ list_by identifier entries all holder }
{
    let identifier = identifier.map_err(|f| fault_beside(f, all.repeated))?;
    if all.repeated {
        return Err(Fault::Part(primary::Fault::Repeated));
    }
    if !all.named {
        return Err(Fault::Part(primary::Fault::RuleBroken));
    }
    if !all.filled {
        return Err(Fault::Unfilled);
    }
    let list = PackList {
        identifier,
        entries,
    };
    Ok((list, all.stride, holder))
}

// The list, its stride, and the first entry that holds a byte of the version.
pub fn read_for(part: &[u8], byte: u64) -> Result<(PackList, u64, Option<Held>), Fault>
    ensures { ReadFor part.now byte result }
{
    let both = primary::read_block_beside(part, ENTRIES);
    let pairs = both.pairs;
    let passed = pairs.passed;
    if !primary::fills(passed, part.len()) {
        return Err(Fault::Part(primary::Fault::NotWhole));
    }
    if !pairs.map {
        return Err(Fault::Part(primary::Fault::NotAsDescribed));
    }
    let places = pairs.places;
    let Some(entries) = numbers_under(part, 0, places[1]) else {
        return Err(Fault::Part(primary::Fault::NotAsDescribed));
    };
    let Some((inside, holder)) = survey_entries(part, entries, byte) else {
        return Err(Fault::Part(primary::Fault::NotAsDescribed));
    };
    let repeated = pairs.repeated;
    let all = Survey {
        repeated: repeated[1] | inside.repeated,
        named: inside.named,
        filled: inside.filled,
        stride: inside.stride,
    };
    let identifier = both.block;
    list_by(identifier, entries, all, holder)
}

// The primary part of a pack list.
pub fn read(part: &[u8]) -> Result<PackList, Fault>
    ensures result_value { reading_of part.now result ≡ pack_list part.now }
    ensures inside { ReadingInside part.now result }
{
    let (list, _, _) = read_for(part, 0)?;
    Ok(list)
}

// An entry, how many blocks it has, and where the next one stands.
#[derive(Clone, Copy)]
pub struct NextEntry {
    pub entry: Entry,
    pub blocks: usize,
    pub next: usize,
}

// The entry at a place of a list that has been read.
pub fn next_entry(part: &[u8], at: usize) -> Option<NextEntry>
    ensures result_value { next_of part.now result ≡ next_entry part.now at }
    ensures inside { NextInside part.now at result }
{
    let Ok(n) = msgpack::pass_over(slices::from(part, at)) else {
        return None;
    };
    let (entry, tests) = entry_at(part, at)?;
    Some(NextEntry {
        entry,
        blocks: tests.blocks,
        next: at + n,
    })
}
