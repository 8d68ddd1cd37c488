// One record of a pack: a header of 32 bytes and a value.
#![tactic(auto)]

ghost use Rattle.std.specs.Prelude.{◌≡◌, ◌+◌, ◌≤◌, ◌<◌, ◌^◌, leb, length, drop};
ghost use Rattle.refusals.specs.Sheet.{lowest};
ghost use Rattle.tlv.specs.Layout.{field};
ghost use Rattle.tlv.specs.Found.{header, step, made, no_header, fields_of, found, found_unless, value_rows, number_of, found_header, found_step};
ghost use Rattle.tlv.specs.Passing.{inside, pass_at};

// Refusals 2 to 8 of document 01.
#[derive(Clone, Copy)]
pub enum Fault {
    HeaderCut,
    Magic,
    Version,
    HashType,
    HeaderHash,
    ValueCut,
    ValueHash,
}

impl From<Fault> for u8 {
    ghost from_gives = { λ f n. n ≡ number_of f };

    fn from(f: Fault) -> u8 {
        match f {
            Fault::HeaderCut => 2,
            Fault::Magic => 3,
            Fault::Version => 4,
            Fault::HashType => 5,
            Fault::HeaderHash => 6,
            Fault::ValueCut => 7,
            Fault::ValueHash => 8,
        }
    }
}

// What a header says of its record: the tag, and the length and the hash of the value.
#[derive(Clone, Copy)]
pub struct RecordHeader {
    pub tag: u16,
    pub length: u64,
    pub hash: u64,
}

impl RecordHeader {
    // The header's length, and the longest pack.
    pub const LENGTH: usize = 32;

    pub const LIMIT: usize = refusals::PACK_LIMIT;

    // Where the fields begin.
    const VALUE_LENGTH: usize = 8;

    const VALUE_HASH: usize = 16;

    const VERSION: usize = 24;

    const TAG: usize = 25;

    const HASH_TYPE: usize = 27;

    const HEADER_HASH: usize = 30;

    pub const MAGIC: u64 = 0x89544C560D0A1A0A;

    // The header at the front of what is left. Its tests come in the order of their numbers.
    pub fn read(s: &[u8]) -> Result<RecordHeader, Fault>
        ensures { found_header result ≡ header s.now }
    {
        if s.len() < RecordHeader::LENGTH {
            return Err(Fault::HeaderCut);
        }
        if field(s, 0, 8) != RecordHeader::MAGIC {
            return Err(Fault::Magic);
        }
        if field(s, RecordHeader::VERSION, 1) != 0 {
            return Err(Fault::Version);
        }
        if field(s, RecordHeader::HASH_TYPE, 1) != 8 {
            return Err(Fault::HashType);
        }
        let hash = xxh64::xxh64(&s[..RecordHeader::HEADER_HASH]) % 65536;
        if field(s, RecordHeader::HEADER_HASH, 2) != hash {
            return Err(Fault::HeaderHash);
        }
        Ok(RecordHeader::fields(s))
    }

    // The fields at the front of a slice, tested by nobody: for a pack that has been checked before.
    // Zeros where fewer than 32 bytes are left.
    pub fn fields(s: &[u8]) -> RecordHeader
        ensures { result ≡ fields_of s.now }
    {
        if s.len() < RecordHeader::LENGTH {
            return no_header();
        }
        RecordHeader {
            tag: field(s, RecordHeader::TAG, 2) as u16,
            length: field(s, RecordHeader::VALUE_LENGTH, 8),
            hash: field(s, RecordHeader::VALUE_HASH, 8),
        }
    }

    // The header of a record that is to be written.
    pub fn make(tag: u16, value: &[u8]) -> RecordHeader
        ensures { result ≡ made tag value.now }
    {
        RecordHeader {
            tag,
            length: value.len() as u64,
            hash: xxh64::xxh64(value),
        }
    }
}

fn no_header() -> RecordHeader
    ensures { result ≡ no_header }
{
    RecordHeader {
        tag: 0,
        length: 0,
        hash: 0,
    }
}

// A field of a header that is whole.
fn field(s: &[u8], at: usize, width: usize) -> u64
    requires { (width ≤ 8) × (at + width ≤ length s.now) }
    ensures { (result ≡ field s.now at width) × (result < 256 ^ width) }
{
    endian::read_big(s, at, width).unwrap()
}

// Whether a value of this length ends within what is left. Nothing is added to the length before it
// is compared.
fn value_fits(length: u64, left: usize) -> bool
    ensures { result ≡ leb length left }
{
    length <= left as u64
}

// The step where a header stands.
fn step_value(s: &[u8], h: RecordHeader) -> Result<RecordHeader, Fault>
    requires { header s.now ≡ found h }
    ensures { found_header result ≡ found_unless (lowest (value_rows s.now)) h }
{
    let left = s.len() - RecordHeader::LENGTH;
    let length = h.length;
    if !value_fits(length, left) {
        return Err(Fault::ValueCut);
    }
    let end = RecordHeader::LENGTH + length as usize;
    let start = RecordHeader::LENGTH;
    if h.hash != xxh64::xxh64(&s[start..end]) {
        return Err(Fault::ValueHash);
    }
    Ok(h)
}

fn step_front(s: &[u8]) -> Result<RecordHeader, Fault>
    requires { 0 < length s.now }
    ensures { found_header result ≡ step s.now }
{
    let h = RecordHeader::read(s)?;
    step_value(s, h)
}

// What stands at a place of a pack. None: its end.
pub fn step_at(pack: &[u8], at: usize) -> Result<Option<RecordHeader>, Fault>
    ensures { found_step result ≡ step (drop at pack.now) }
{
    if pack.len() <= at {
        return Ok(None);
    }
    let h = step_front(&pack[at..])?;
    Ok(Some(h))
}

// A record of a pack that has been checked before, and the place after it.
#[derive(Clone, Copy)]
pub struct Passed {
    pub header: RecordHeader,
    pub next: usize,
}

// Whether a record with a value of this length, at this place, lies within len bytes.
fn inside(len: usize, at: usize, length: u64) -> bool
    ensures { result ≡ inside len at length }
{
    slices::lies(len, at, RecordHeader::LENGTH)
        && value_fits(length, len - RecordHeader::LENGTH - at)
}

fn fields_at(pack: &[u8], at: usize) -> RecordHeader
    ensures { result ≡ fields_of (drop at pack.now) }
{
    if pack.len() <= at {
        return no_header();
    }
    RecordHeader::fields(&pack[at..])
}

// The record at a place, with no test of its hashes; one that does not lie inside is not passed.
pub fn pass_at(pack: &[u8], at: usize) -> Passed
    ensures { result ≡ pass_at pack.now at }
{
    let header = fields_at(pack, at);
    let length = header.length;
    if inside(pack.len(), at, length) {
        Passed {
            header,
            next: at + RecordHeader::LENGTH + length as usize,
        }
    } else {
        Passed {
            header: no_header(),
            next: at,
        }
    }
}
