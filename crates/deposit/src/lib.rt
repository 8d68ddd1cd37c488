// A pack checked against the deposit profile (request 9), a narrower rule for packs that are deposited.
// After the check of the pack, which hashes, each record is read, and then tested by the six rules.
#![tactic(auto)]

ghost use Rattle.std.specs.Prelude.{◌≡◌, ◌+◌, ◌≤◌, eqb, length};
ghost use Rattle.slices.specs.Places.{part_at};
ghost use Rattle.refusals.specs.Sheet.{lowest};
ghost use Rattle.refusals.specs.Limit.{pack_limit};
ghost use Rattle.pack.specs.Reading.{whole, records};
ghost use Rattle.deposit.specs.Profile.{is_block_plain, profile_rows, fault_of};
ghost use Rattle.deposit.specs.Packs.{spare_at, first_fault, outcome_by, deposit};
ghost use Rattle.deposit.specs.Answers.{number_of, fault_number, fault_place, kept_of, outcome_of};
ghost use Rattle.deposit.specs.declared.RecordFault.TheVariants.{Unreadable};
ghost use Rattle.deposit.specs.declared.Fault.TheVariants.{Pack};

use slices::Place;
use tlv::RecordHeader;

// Why a record may not be deposited: it cannot be read, or refusals 23 to 28.
#[derive(Clone, Copy)]
pub enum RecordFault {
    Unreadable(records::Fault),
    // An item is not in its short form.
    NotShort,
    // A key that document 001 does not give for its map.
    KeyNotGiven,
    // The header's keys are not the writer's, in its order.
    HeaderOrder,
    // A block's `s` or `I` is not as the writer writes it.
    BlockForm,
    // Byte 28 or 29 is not 0.
    SpareNotZero,
    // No bucket name that may be deposited.
    BucketName,
}

impl From<records::Fault> for RecordFault {
    ghost from_gives = { λ a b. b ≡ Unreadable a };

    fn from(fault: records::Fault) -> RecordFault {
        RecordFault::Unreadable(fault)
    }
}

impl From<RecordFault> for u8 {
    ghost from_gives = { λ f n. n ≡ number_of f };

    fn from(f: RecordFault) -> u8 {
        match f {
            RecordFault::Unreadable(f) => u8::from(f),
            RecordFault::NotShort => 23,
            RecordFault::KeyNotGiven => 24,
            RecordFault::HeaderOrder => 25,
            RecordFault::BlockForm => 26,
            RecordFault::SpareNotZero => 27,
            RecordFault::BucketName => 28,
        }
    }
}

// Why a pack is not deposited: it is refused, or the first record at fault, with its place.
#[derive(Clone, Copy)]
pub enum Fault {
    Pack(pack::Fault),
    Record(RecordFault, usize),
}

impl From<pack::Fault> for Fault {
    ghost from_gives = { λ a b. b ≡ Pack a };

    fn from(fault: pack::Fault) -> Fault {
        Fault::Pack(fault)
    }
}

impl From<Fault> for u8 {
    ghost from_gives = { λ f n. n ≡ fault_number f };

    fn from(f: Fault) -> u8 {
        match f {
            Fault::Pack(f) => u8::from(f),
            Fault::Record(f, _) => u8::from(f),
        }
    }
}

impl Fault {
    // The place in the pack.
    pub fn place(self) -> usize
        ensures { result ≡ fault_place self }
    {
        match self {
            Fault::Pack(f) => f.place(),
            Fault::Record(_, at) => at,
        }
    }
}

// Whether bytes 28 and 29 of the record at a place are 0.
fn is_spare_zero(pack: &[u8], at: usize) -> bool
    requires { at + 32 ≤ length pack.now }
    ensures { result ≡ eqb (spare_at pack.now at) 0 }
{
    endian::read_big(&pack[at..], 28, 2) == Some(0)
}

// Whether a record that is a block has the writer's `s` and `I`.
fn is_block_plain(tag: u16, header: &[u8], part: &[u8]) -> bool
    ensures { result ≡ is_block_plain tag header.now part.now }
{
    if tag != records::BLOCK {
        return true;
    }
    deposit_rules::has_length_alone(header) & deposit_rules::has_identifier_alone(part)
}

// The first rule that is broken. The tests come in the order of their numbers.
fn keep_rules(
    tag: u16,
    pack: &[u8],
    at: usize,
    header: &[u8],
    part: &[u8],
    bucket: &[u8],
) -> Result<(), RecordFault>
    requires { at + 32 ≤ length pack.now }
    ensures { kept_of result ≡ lowest (profile_rows tag (spare_at pack.now at) header.now part.now bucket.now) }
{
    if !(msgpack_forms::all_short(header) & msgpack_forms::all_short(part)) {
        return Err(RecordFault::NotShort);
    }
    if !(deposit_rules::header_keys_are_given(header)
        & deposit_rules::part_keys_are_given(tag, part))
    {
        return Err(RecordFault::KeyNotGiven);
    }
    if !deposit_rules::header_is_in_order(tag, header) {
        return Err(RecordFault::HeaderOrder);
    }
    if !is_block_plain(tag, header, part) {
        return Err(RecordFault::BlockForm);
    }
    if !is_spare_zero(pack, at) {
        return Err(RecordFault::SpareNotZero);
    }
    if !deposit_rules::is_bucket_name(bucket) {
        return Err(RecordFault::BucketName);
    }
    Ok(())
}

// The record at a place, with this tag, whose value stands at this place.
fn check_record(pack: &[u8], at: usize, tag: u16, value: Place) -> Result<(), RecordFault>
    requires { at + 32 ≤ length pack.now }
    ensures { kept_of result ≡ fault_of pack_limit tag (spare_at pack.now at) (part_at pack.now value) }
{
    let r = records::read(tag, pack, value)?;
    let primary = Place {
        start: r.told.primary.start,
        len: r.told.primary.len,
    };
    keep_rules(
        tag,
        pack,
        at,
        slices::part(pack, value),
        slices::part(pack, primary),
        slices::part(pack, r.identifier.bucket),
    )
}

// The records of a pack that has been checked, of which there are so many.
fn check_records(pack: &[u8], count: usize) -> Result<usize, Fault>
    requires { (records 0 0 pack.now).ending ≡ whole }
    ensures { outcome_of result ≡ outcome_by count (first_fault pack_limit pack.now (records 0 0 pack.now).entries) }
{
    let mut at = 0;
    while at < pack.len() {
        let passed = tlv::pass_at(pack, at);
        let header = passed.header;
        let value = Place {
            start: at + RecordHeader::LENGTH,
            len: header.length as usize,
        };
        if let Err(f) = check_record(pack, at, header.tag, value) {
            return Err(Fault::Record(f, at));
        }
        at = passed.next;
    }
    Ok(count)
}

// How many records the pack has, where all may be deposited; else the first refusal.
pub fn check(pack: &[u8]) -> Result<usize, Fault>
    ensures { outcome_of result ≡ deposit pack_limit pack.now }
{
    let count = pack::check(pack)?;
    check_records(pack, count)
}
