// The primary parts of blocks, versions and version deletes. Answers tell where the texts stand in the
// part; nothing is copied.
#![tactic(auto)]

ghost use Rattle.std.specs.Prelude.{false, None, Some, ◌||◌, ◌≡◌, ◌+◌, ◌≤◌, length, drop};
ghost use Rattle.slices.specs.Places.{part_at, Inside};
ghost use Rattle.refusals.specs.Answers.{granted, or_refused};
ghost use Rattle.msgpack.specs.Items.{passage_of, WholeItem};
ghost use Rattle.msgpack.specs.Readers.{read_boolean, read_text};
ghost use Rattle.msgpack.specs.Lookup.{at_place};
ghost use Rattle.msgpack.specs.Pairs.{place_told, PairsRead};
ghost use Rattle.msgpack.specs.Views.{repeats, text_at, byte_view};
ghost use Rattle.identifier.specs.Identity.{is_valid};
ghost use Rattle.identifier.specs.Ulid.{is_ulid};
ghost use Rattle.identifier.specs.Composite.{identity_in};
ghost use Rattle.primary.specs.Parts.{is_of_length, identity_keys, texts_under, shape_of, shape_at, valid, block_by, block, version, version_delete};
ghost use Rattle.primary.specs.Answers.{number_of, places_by, BlockPairs, beside_block, IdentifierAt, texts_in, text_of, placed_at, texts_of, block_of, version_of, version_delete_of, AllInside, TextInside, TextsInside, BlockInside, VersionInside, DeleteInside};

use msgpack::Pairs;
use slices::Place;

// Keys of an identifier's map.
pub const BUCKET: [u8; 1] = *b"b";

pub const OBJECT: [u8; 1] = *b"o";

pub const ULID: [u8; 1] = *b"v";

// Of a version delete: its own identifier. Provisional in document 001, which prints it so.
pub const DELETE_ID: [u8; 3] = *b"???";

// The codes of the keys that are asked for. Of an identifier's map: `v`, `b` and `o`.
const IDENTIFIER_KEYS: [u64; 8] = [0x176, 0x162, 0x16f, 0, 0, 0, 0, 0];

// Of a block: `I`.
const BLOCK_KEYS: [u64; 8] = [0x149, 0, 0, 0, 0, 0, 0, 0];

// Of a version: those of an identifier, and `d`, whether it is a delete marker.
const VERSION_KEYS: [u64; 8] = [0x176, 0x162, 0x16f, 0x164, 0, 0, 0, 0];

// Of a version delete: those of an identifier, and `???`.
const DELETE_KEYS: [u64; 8] = [0x176, 0x162, 0x16f, 0x13f_3f3f, 0, 0, 0, 0];

// Refusals 16 to 18 of document 01, and 22.
#[derive(Clone, Copy)]
pub enum Fault {
    NotWhole,
    NotAsDescribed,
    // A key that is read stands twice in its map.
    Repeated,
    RuleBroken,
}

// The number of a refusal, as document 01 has it.
impl From<Fault> for u8 {
    ghost from_gives = { λ f n. n ≡ number_of f };

    fn from(f: Fault) -> u8 {
        match f {
            Fault::NotWhole => 16,
            Fault::NotAsDescribed => 17,
            Fault::Repeated => 22,
            Fault::RuleBroken => 18,
        }
    }
}

// Where the texts of an identifier stand in the part.
#[derive(Clone, Copy)]
pub struct Texts {
    pub ulid: Place,
    pub bucket: Place,
    pub object: Place,
}

// Whether one whole item fills a part of so many bytes.
pub fn fills(passed: Result<usize, msgpack::Fault>, len: usize) -> bool
    ensures { result ≡ is_of_length len (passage_of passed) }
{
    match passed {
        Ok(n) => n == len,
        Err(_) => false,
    }
}

// The text at a place.
pub fn text_at(part: &[u8], at: usize) -> Option<Place>
    ensures result_value { text_of part.now result ≡ text_at (drop at part.now) }
    ensures inside { TextInside part.now result }
    ensures place { result ≡ placed_at at (read_text (drop at part.now)) }
{
    let text = msgpack::read_text(slices::from(part, at))?;
    Some(Place {
        start: at + text.start,
        len: text.len,
    })
}

// The text under a key of the map at a place, by the place told of the key.
fn text_under(part: &[u8], at: usize, place: usize) -> Option<Place>
    requires { at + place ≤ length part.now }
    ensures result_value { text_of part.now result ≡ at_place None (λ p. text_at (drop p (drop at part.now))) (place_told place) }
    ensures inside { TextInside part.now result }
{
    if place == 0 {
        return None;
    }
    text_at(part, at + place)
}

// The three texts of the identifier map at a place, by the places told of its keys.
fn texts_under(part: &[u8], at: usize, places: [usize; 8]) -> Option<Texts>
    requires { (at ≤ length part.now) × IdentifierAt (drop at part.now) places }
    ensures result_value { texts_of part.now result ≡ texts_under byte_view (drop at part.now) }
    ensures inside { TextsInside part.now result }
{
    let ulid = text_under(part, at, places[0])?;
    let bucket = text_under(part, at, places[1])?;
    let object = text_under(part, at, places[2])?;
    Some(Texts {
        ulid,
        bucket,
        object,
    })
}

// Whether the three texts keep the rules.
fn is_valid(part: &[u8], t: Texts) -> bool
    ensures { result ≡ is_valid (texts_in part.now t) }
{
    identifier::is_identifier(
        slices::part(part, t.ulid),
        slices::part(part, t.bucket),
        slices::part(part, t.object),
    )
}

// Whether a text is a ULID.
fn is_ulid(part: &[u8], t: Place) -> bool
    ensures { result ≡ is_ulid (part_at part.now t) }
{
    identifier::is_ulid(slices::part(part, t))
}

// The identifier in a composite text.
fn from_composite(part: &[u8], text: Place) -> Result<Texts, Fault>
    requires { Inside part.now text }
    ensures result_value { block_of part.now result ≡ or_refused 18 (identity_in (part_at part.now text)) granted }
    ensures inside { BlockInside part.now result }
{
    let start = text.start;
    let Some(slash) = identifier::split_composite(slices::part(part, text)) else {
        return Err(Fault::RuleBroken);
    };
    let from = slash + 1;
    Ok(Texts {
        ulid: Place { start, len: 26 },
        bucket: Place {
            start: start + 27,
            len: slash - 27,
        },
        object: Place {
            start: start + from,
            len: text.len - from,
        },
    })
}

// The identifier of three texts.
fn from_texts(part: &[u8], texts: Texts) -> Result<Texts, Fault>
    requires { AllInside part.now texts }
    ensures result_value { block_of part.now result ≡ or_refused 18 (valid (texts_in part.now texts)) granted }
    ensures inside { BlockInside part.now result }
{
    if is_valid(part, texts) {
        Ok(texts)
    } else {
        Err(Fault::RuleBroken)
    }
}

// The identifier map at a place; repeated tells whether a key repeats outside it.
fn from_map(part: &[u8], at: usize, repeated: bool) -> Result<Texts, Fault>
    requires { (at ≤ length part.now) × WholeItem (drop at part.now) }
    ensures result_value { block_of part.now result ≡ block_by (shape_of None (texts_under byte_view (drop at part.now)))
        (repeated || repeats byte_view identity_keys (drop at part.now)) }
    ensures inside { BlockInside part.now result }
{
    let pairs = msgpack::read_pairs(&part[at..], IDENTIFIER_KEYS);
    if !pairs.map {
        return Err(Fault::NotAsDescribed);
    }
    let places = pairs.places;
    let Some(t) = texts_under(part, at, places) else {
        return Err(Fault::NotAsDescribed);
    };
    let inner = pairs.repeated;
    if repeated | inner[0] | inner[1] | inner[2] {
        return Err(Fault::Repeated);
    }
    from_texts(part, t)
}

// The identifier at a place, in either shape; repeated tells whether a key repeats outside it.
fn identifier_at(part: &[u8], at: usize, repeated: bool) -> Result<Texts, Fault>
    requires { (at ≤ length part.now) × WholeItem (drop at part.now) }
    ensures result_value { block_of part.now result ≡ block_by (shape_at byte_view (drop at part.now))
        (repeated || repeats byte_view identity_keys (drop at part.now)) }
    ensures inside { BlockInside part.now result }
{
    let Some(text) = text_at(part, at) else {
        return from_map(part, at, repeated);
    };
    if repeated {
        return Err(Fault::Repeated);
    }
    from_composite(part, text)
}

// Where the values of the keys asked for stand, as one pass over the part told, in a part that is a map.
fn map_places(part: &[u8], pairs: Pairs) -> Result<[usize; 8], Fault>
    ensures { result ≡ places_by (is_of_length (length part.now) (passage_of pairs.passed)) pairs.map pairs.places }
{
    let passed = pairs.passed;
    if !fills(passed, part.len()) {
        return Err(Fault::NotWhole);
    }
    if !pairs.map {
        return Err(Fault::NotAsDescribed);
    }
    let places = pairs.places;
    Ok(places)
}

// The identifier of a block, by what one pass over the part told of its keys, `I` first.
fn block_by(part: &[u8], pairs: Pairs) -> Result<Texts, Fault>
    requires { BlockPairs part.now pairs }
    ensures result_value { block_of part.now result ≡ block part.now }
    ensures inside { BlockInside part.now result }
{
    let found = map_places(part, pairs)?;
    let at = found[0];
    if at == 0 {
        return Err(Fault::NotAsDescribed);
    }
    let repeated = pairs.repeated;
    identifier_at(part, at, repeated[0])
}

// The primary part of a block.
pub fn read_block(part: &[u8]) -> Result<Texts, Fault>
    ensures result_value { block_of part.now result ≡ block part.now }
    ensures inside { BlockInside part.now result }
{
    block_by(part, msgpack::read_pairs(part, BLOCK_KEYS))
}

// What a block's reader tells of a part, and what the same pass tells of the part's map: of `I`, and of
// the key that was asked for beside it.
#[derive(Clone, Copy)]
pub struct BlockBeside {
    pub block: Result<Texts, Fault>,
    pub pairs: Pairs,
}

// The primary part of a block, with the key that has this code.
pub fn read_block_beside(part: &[u8], code: u64) -> BlockBeside
    ensures block_value { block_of part.now result.block ≡ block part.now }
    ensures inside { BlockInside part.now result.block }
    ensures beside { PairsRead part.now (beside_block code) result.pairs }
{
    let pairs = msgpack::read_pairs(part, [0x149, code, 0, 0, 0, 0, 0, 0]);
    BlockBeside {
        block: block_by(part, pairs),
        pairs,
    }
}

// The delete flag of a version's map, by the place told of its key; absent means false.
fn deleted_under(part: &[u8], place: usize) -> Option<bool>
    requires { place ≤ length part.now }
    ensures { result ≡ at_place (Some false) (λ p. read_boolean (drop p part.now)) (place_told place) }
{
    if place == 0 {
        return Some(false);
    }
    msgpack::read_boolean(&part[place..])
}

// The primary part of a version, with whether it is a delete marker.
pub fn read_version(part: &[u8]) -> Result<(Texts, bool), Fault>
    ensures result_value { version_of part.now result ≡ version part.now }
    ensures inside { VersionInside part.now result }
{
    let pairs = msgpack::read_pairs(part, VERSION_KEYS);
    let places = map_places(part, pairs)?;
    let Some(t) = texts_under(part, 0, places) else {
        return Err(Fault::NotAsDescribed);
    };
    let Some(deleted) = deleted_under(part, places[3]) else {
        return Err(Fault::NotAsDescribed);
    };
    let repeated = pairs.repeated;
    if repeated[3] | repeated[0] | repeated[1] | repeated[2] {
        return Err(Fault::Repeated);
    }
    if is_valid(part, t) {
        Ok((t, deleted))
    } else {
        Err(Fault::RuleBroken)
    }
}

// The primary part of a version delete: the version that goes, and the delete identifier.
pub fn read_delete(part: &[u8]) -> Result<(Texts, Place), Fault>
    ensures result_value { version_delete_of part.now result ≡ version_delete part.now }
    ensures inside { DeleteInside part.now result }
{
    let pairs = msgpack::read_pairs(part, DELETE_KEYS);
    let places = map_places(part, pairs)?;
    let Some(t) = texts_under(part, 0, places) else {
        return Err(Fault::NotAsDescribed);
    };
    let Some(id) = text_under(part, 0, places[3]) else {
        return Err(Fault::NotAsDescribed);
    };
    let repeated = pairs.repeated;
    if repeated[3] | repeated[0] | repeated[1] | repeated[2] {
        Err(Fault::Repeated)
    } else if is_valid(part, t) && is_ulid(part, id) {
        Ok((t, id))
    } else {
        Err(Fault::RuleBroken)
    }
}
