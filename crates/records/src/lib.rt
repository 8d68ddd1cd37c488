// One record of a pack: what its tag and value tell, and the record at a place. Answers tell places of
// the pack; nothing is copied.
#![tactic(auto)]

ghost use Rattle.std.specs.Prelude.{◌≡◌, ◌+◌, ◌^◌, ◌<◌};
ghost use Rattle.slices.specs.Places.{part_at, shift_place};
ghost use Rattle.refusals.specs.Sheet.{lowest};
ghost use Rattle.refusals.specs.Limit.{pack_limit};
ghost use Rattle.refusals.specs.Answers.{unless};
ghost use Rattle.value.specs.Header.{telling_of};
ghost use Rattle.primary.specs.Parts.{block, version, version_delete};
ghost use Rattle.pack_list.specs.Lists.{pack_list};
ghost use Rattle.records.specs.Record.{is_known, of_block, of_version, of_version_delete, of_pack_list, contents, told_rows, primary_in, with_told, read_record, record_at, part_from, told_from, answer_from, there_from};
ghost use Rattle.records.specs.declared.Fault.TheVariants.{Value, Primary};
ghost use Rattle.records.specs.declared.PlaceFault.TheVariants.{Pack, Record as RecordFault};
ghost use Rattle.records.specs.Answers.{number_of, of_list_fault, part_of, answer_of, place_of, shift_texts, shift_kind, KindFits, PartInside, ToldInside, RecordInside, PlaceInside};

use primary::Texts;
use slices::Place;
use tlv::RecordHeader;
use value::{Part, Told};

pub const BLOCK: u16 = 0x626b;

pub const VERSION: u16 = 0x7672;

pub const VERSION_DELETE: u16 = 0x7664;

pub const PACK_LIST: u16 = 0x6f6c;

// Refusals 9 to 18 of document 01, 21 and 22.
#[derive(Clone, Copy)]
pub enum Fault {
    // 9 to 12, and 22.
    Value(value::Fault),
    UnknownTag,
    // `v` is not 0.
    Version,
    // The primary part is compressed or encrypted.
    Encoded,
    // 16 to 18, and 22.
    Primary(primary::Fault),
    // A pack list's ranges or lengths.
    Unfilled,
}

// The number of a refusal, as document 01 has it.
impl From<Fault> for u8 {
    ghost from_gives = { λ f n. n ≡ number_of f };

    fn from(f: Fault) -> u8 {
        match f {
            Fault::Value(value) => u8::from(value),
            Fault::UnknownTag => 13,
            Fault::Version => 14,
            Fault::Encoded => 15,
            Fault::Primary(part) => u8::from(part),
            Fault::Unfilled => 21,
        }
    }
}

impl From<value::Fault> for Fault {
    ghost from_gives = { λ a b. b ≡ Value a };

    fn from(f: value::Fault) -> Fault {
        Fault::Value(f)
    }
}

impl From<primary::Fault> for Fault {
    ghost from_gives = { λ a b. b ≡ Primary a };

    fn from(f: primary::Fault) -> Fault {
        Fault::Primary(f)
    }
}

impl From<pack_list::Fault> for Fault {
    ghost from_gives = { λ a b. b ≡ of_list_fault a };

    fn from(f: pack_list::Fault) -> Fault {
        match f {
            pack_list::Fault::Part(p) => Fault::Primary(p),
            pack_list::Fault::Unfilled => Fault::Unfilled,
        }
    }
}

// The kind of a record, with what that kind alone tells.
#[derive(Clone, Copy)]
pub enum Kind {
    Block,
    // Whether it is a delete marker.
    Version(bool),
    // The delete identifier.
    VersionDelete(Place),
    // Its entries stand in the primary part.
    PackList,
}

// What a record tells, as places of the pack: its value's parts; and, in the primary part, its
// identifier and what belongs to its kind.
#[derive(Clone, Copy)]
pub struct Record {
    pub told: Told,
    pub identifier: Texts,
    pub kind: Kind,
}

// ---- the primary part

fn block(part: &[u8]) -> Result<(Texts, Kind), Fault>
    ensures result_value { part_of part.now result ≡ of_block (block part.now) }
    ensures inside { PartInside part.now result }
{
    let t = primary::read_block(part)?;
    Ok((t, Kind::Block))
}

fn version(part: &[u8]) -> Result<(Texts, Kind), Fault>
    ensures result_value { part_of part.now result ≡ of_version (version part.now) }
    ensures inside { PartInside part.now result }
{
    let (t, deleted) = primary::read_version(part)?;
    Ok((t, Kind::Version(deleted)))
}

fn version_delete(part: &[u8]) -> Result<(Texts, Kind), Fault>
    ensures result_value { part_of part.now result ≡ of_version_delete (version_delete part.now) }
    ensures inside { PartInside part.now result }
{
    let (t, id) = primary::read_delete(part)?;
    Ok((t, Kind::VersionDelete(id)))
}

fn pack_list(part: &[u8]) -> Result<(Texts, Kind), Fault>
    ensures result_value { part_of part.now result ≡ of_pack_list (pack_list part.now) }
    ensures inside { PartInside part.now result }
{
    let l = pack_list::read(part)?;
    Ok((l.identifier, Kind::PackList))
}

// The primary part of a record with this tag, which is a known one.
fn contents(tag: u16, part: &[u8]) -> Result<(Texts, Kind), Fault>
    ensures result_value { part_of part.now result ≡ contents tag part.now }
    ensures inside { PartInside part.now result }
{
    if tag == BLOCK {
        return block(part);
    }
    if tag == VERSION {
        return version(part);
    }
    if tag == VERSION_DELETE {
        return version_delete(part);
    }
    pack_list(part)
}

// ---- from places of a part, or of a value, to places of the pack, in which it begins at `by`

fn place_from(by: usize, p: Place) -> Place
    requires { by + p.start < 2 ^ 64 }
    ensures { result ≡ shift_place by p }
{
    Place {
        start: by + p.start,
        len: p.len,
    }
}

fn texts_from(by: usize, t: Texts) -> Texts
    requires { (by + t.ulid.start < 2 ^ 64) × (by + t.bucket.start < 2 ^ 64) × (by + t.object.start < 2 ^ 64) }
    ensures { result ≡ shift_texts by t }
{
    let ulid = place_from(by, t.ulid);
    let bucket = place_from(by, t.bucket);
    let object = place_from(by, t.object);
    Texts {
        ulid,
        bucket,
        object,
    }
}

fn kind_from(by: usize, kind: Kind) -> Kind
    requires { KindFits by kind }
    ensures { result ≡ shift_kind by kind }
{
    match kind {
        Kind::Block => Kind::Block,
        Kind::Version(deleted) => Kind::Version(deleted),
        Kind::VersionDelete(id) => Kind::VersionDelete(place_from(by, id)),
        Kind::PackList => Kind::PackList,
    }
}

fn part_from(by: usize, p: Part) -> Part
    requires { by + p.start < 2 ^ 64 }
    ensures { result ≡ part_from by p }
{
    Part {
        start: by + p.start,
        len: p.len,
        compression: p.compression,
        encrypted: p.encrypted,
    }
}

fn told_from(by: usize, t: Told) -> Told
    requires { (by + t.primary.start < 2 ^ 64) × (by + t.secondary.start < 2 ^ 64) }
    ensures { result ≡ told_from by t }
{
    let primary = part_from(by, t.primary);
    let secondary = part_from(by, t.secondary);
    Told {
        version: t.version,
        primary,
        present: t.present,
        secondary,
    }
}

// ---- the value

fn is_known(tag: u16) -> bool
    ensures { result ≡ is_known tag }
{
    (tag == BLOCK) | (tag == VERSION) | (tag == VERSION_DELETE) | (tag == PACK_LIST)
}

fn with_part(tag: u16, pack: &[u8], told: Told) -> Result<Record, Fault>
    requires { ToldInside pack.now told }
    ensures result_value { answer_of pack.now result ≡ with_told told (contents tag (primary_in pack.now told)) }
    ensures inside { RecordInside pack.now result }
{
    let start = told.primary.start;
    let end = start + told.primary.len;
    let (t, k) = contents(tag, &pack[start..end])?;
    let identifier = texts_from(start, t);
    let kind = kind_from(start, k);
    Ok(Record {
        told,
        identifier,
        kind,
    })
}

// The tests come in the order of their numbers.
fn by_told(tag: u16, pack: &[u8], told: Told) -> Result<Record, Fault>
    requires { ToldInside pack.now told }
    ensures result_value { answer_of pack.now result ≡ unless (lowest (told_rows tag (telling_of told)))
        (with_told told (contents tag (primary_in pack.now told))) }
    ensures inside { RecordInside pack.now result }
{
    let primary = told.primary;
    if !is_known(tag) {
        return Err(Fault::UnknownTag);
    }
    if told.version != 0 {
        return Err(Fault::Version);
    }
    if primary.encrypted | (primary.compression != 0) {
        return Err(Fault::Encoded);
    }
    with_part(tag, pack, told)
}

// The record with this tag whose value stands at a place of the pack; of a place that is not inside,
// the value is what is there.
pub fn read(tag: u16, pack: &[u8], value: Place) -> Result<Record, Fault>
    ensures result_value { answer_of pack.now result ≡ answer_from value.start (read_record pack_limit tag (part_at pack.now value)) }
    ensures inside { RecordInside pack.now result }
{
    let t = value::read(slices::part(pack, value))?;
    by_told(tag, pack, told_from(value.start, t))
}

// ---- the record at a place of a pack

// A record, and where its value stands in the pack.
#[derive(Clone, Copy)]
pub struct Placed {
    pub record: Record,
    pub value: Place,
}

#[derive(Clone, Copy)]
pub enum PlaceFault {
    // The place is not inside the pack: refusal 20.
    Outside,
    // Refusal 1, at 0; 2 to 8, at the place.
    Pack(pack::Fault),
    // Refusals 9 to 18, 21 and 22.
    Record(Fault),
}

impl From<pack::Fault> for PlaceFault {
    ghost from_gives = { λ a b. b ≡ Pack a };

    fn from(f: pack::Fault) -> PlaceFault {
        PlaceFault::Pack(f)
    }
}

impl From<Fault> for PlaceFault {
    ghost from_gives = { λ a b. b ≡ RecordFault a };

    fn from(f: Fault) -> PlaceFault {
        PlaceFault::Record(f)
    }
}

// What stands at a place of a pack, which need not be where a record of the pack starts.
pub fn read_at(pack: &[u8], at: usize) -> Result<Placed, PlaceFault>
    ensures result_value { place_of pack.now result ≡ there_from (at + 32) (record_at pack_limit pack.now at) }
    ensures inside { PlaceInside pack.now at result }
{
    if pack.len() <= at {
        return Err(PlaceFault::Outside);
    }
    if RecordHeader::LIMIT < pack.len() {
        return Err(PlaceFault::Pack(pack::Fault::TooLong));
    }
    let step = tlv::step_at(pack, at).map_err(|f| pack::Fault::Record(f, at))?;
    let h = step.ok_or(PlaceFault::Outside)?;
    let value = Place {
        start: at + RecordHeader::LENGTH,
        len: h.length as usize,
    };
    let record = read(h.tag, pack, value)?;
    Ok(Placed { record, value })
}
