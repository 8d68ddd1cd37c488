// One record at a place of a pack: sixteen words, and the composite text of its identifier.
ghost use Rattle.std.specs.Prelude.{◌≡◌, ℕ};
ghost use Rattle.held_identifier.specs.Writing.{outcome_of, outcome, left};
ghost use Rattle.value.specs.declared.Told.{Told};
ghost use Rattle.primary.specs.Answers.{texts_in};
ghost use Rattle.records.specs.Record.{told_from};
ghost use Rattle.capi_records.specs.Record.{RecordHolds, record_words, kind_told, IsRecord};

use crate::values;
use primary::Texts;
use records::{Kind, PlaceFault, Placed, Record};
use refusals::Unwritten;
use slices::Place;

// ---- the words

// Tag, delete flag, and start and length of a delete identifier.
#[derive(Clone, Copy)]
struct KindWords {
    tag: u64,
    deleted: u64,
    start: u64,
    len: u64,
}

fn kind_words(kind: Kind) -> KindWords
    ensures { result ≡ kind_told kind }
{
    match kind {
        Kind::Block => KindWords {
            tag: records::BLOCK as u64,
            deleted: 0,
            start: 0,
            len: 0,
        },
        Kind::Version(deleted) => KindWords {
            tag: records::VERSION as u64,
            deleted: words::flag(deleted),
            start: 0,
            len: 0,
        },
        Kind::VersionDelete(id) => KindWords {
            tag: records::VERSION_DELETE as u64,
            deleted: 0,
            start: id.start as u64,
            len: id.len as u64,
        },
        Kind::PackList => KindWords {
            tag: records::PACK_LIST as u64,
            deleted: 0,
            start: 0,
            len: 0,
        },
    }
}

// Of a record with its value at this place, whose identifier's text has so many bytes.
fn record_words(value: Place, r: Record, text: usize) -> [u64; 16]
    ensures { (t : Told) → r.told ≡ told_from value.start t → result
        ≡ record_words value.start value.len t (kind_told r.kind) text }
{
    let parts = values::told_words(r.told);
    let kind = r.kind;
    let k = kind_words(kind);
    [
        k.tag,
        value.start as u64,
        value.len as u64,
        parts[0],
        parts[1],
        parts[2],
        parts[3],
        parts[4],
        parts[5],
        parts[6],
        parts[7],
        parts[8],
        k.deleted,
        text as u64,
        k.start,
        k.len,
    ]
}

// ---- the composite text

// Of the identifier whose texts stand in the pack.
fn write_text(id: &mut [u8], pack: &[u8], t: Texts) -> Result<usize, Unwritten>
    ensures answer { outcome_of result ≡ outcome (Some (texts_in pack.now t)) id.old 0 }
    ensures holds { id.new ≡ left (Some (texts_in pack.now t)) id.old 0 }
{
    held_identifier::write_parts(
        id,
        0,
        slices::part(pack, t.ulid),
        slices::part(pack, t.bucket),
        slices::part(pack, t.object),
    )
}

// ---- the record

// A record that was read, where there is room for all it tells.
fn tell(pack: &[u8], placed: Placed, told: &mut [u64], id: &mut [u8]) -> u64
    ensures { (at : ℕ) → IsRecord pack.now at placed.value placed.«record»
        → RecordHolds pack.now at told.old id.old result told.new id.new }
{
    let r = placed.record;
    if told.len() < 16 {
        return words::answer(19, 0);
    }
    let Ok(n) = write_text(id, pack, r.identifier) else {
        return words::answer(19, 0);
    };
    words::store(told, 0, &record_words(placed.value, r, n));
    words::answer(0, 0)
}

// Tag; start and length of the value; the nine words of its parts; delete flag; length of the composite
// text, which goes to id; start and length of a delete identifier. Places are those of the pack. 19: fewer
// than sixteen words, or fewer bytes than the text has.
#[unsafe(no_mangle)]
pub extern "C" fn vof_record(pack: &[u8], at: usize, told: &mut [u64], id: &mut [u8]) -> u64
    ensures { RecordHolds pack.now at told.old id.old result told.new id.new }
{
    match records::read_at(pack, at) {
        Ok(placed) => tell(pack, placed, told, id),
        Err(PlaceFault::Outside) => words::answer(20, 0),
        Err(PlaceFault::Pack(f)) => words::answer(u8::from(f), f.place()),
        Err(PlaceFault::Record(f)) => words::answer(u8::from(f), 0),
    }
}
