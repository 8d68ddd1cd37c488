// What the customer signs, of the code that runs: the functions here only call the writer, the reader and
// the lookup, and ensure demand 3 and demand 2's read-back. The theorems are those of crates/demands_laws
// and crates/writer_laws.
#![tactic(auto)]

ghost use Rattle.std.specs.Prelude.{◌≡◌};
ghost use Rattle.held_identifier.specs.Held.{named};
ghost use Rattle.writer.specs.Writing.{block, version, version_delete, pack_list, deletion, of_identity, answer_of};
ghost use Rattle.current_version.specs.Current.{is_name};
ghost use Rattle.demands.specs.Answers.{of_front, CountInside, answers_of, looked_up, WritesFor, DeletionInside, DeletionHolds, BothHold, read_back_of, read_behind, ReadInside, ReadBackHolds};

use held_identifier::Identifier;
use lookup::Version;
use records::{PlaceFault, Placed};
use refusals::Unwritten;

// ---- a deletion, and a lookup after it

// The count returned, and what is found in the front as long as it.
#[derive(Clone, Copy)]
pub struct LookedUp {
    pub count: usize,
    pub found: Result<Option<Version>, lookup::Fault>,
}

fn is_name(bucket: &[u8], object: &[u8]) -> bool
    ensures { result ≡ is_name bucket.now object.now }
{
    identifier::is_bucket(bucket) & identifier::is_object(object)
}

// The writer's two calls, where the name is admissible; else nothing is written.
fn write_part(
    buf: &mut [u8],
    used: usize,
    part: &[u8],
    admissible: bool,
) -> Result<usize, Unwritten>
    ensures { WritesFor admissible used (Some (version_delete part.now)) buf.old result buf.new }
{
    if !admissible {
        return Err(Unwritten::Inadmissible);
    }
    writer::write_delete(buf, used, part)
}

fn write_made(
    buf: &mut [u8],
    used: usize,
    id: Identifier,
    deleteid: &[u8],
    admissible: bool,
) -> Result<usize, Unwritten>
    ensures { WritesFor admissible used (of_identity (λ i. deletion i deleteid.now) (named id)) buf.old result
        buf.new }
{
    if !admissible {
        return Err(Unwritten::Inadmissible);
    }
    writer::write_delete_of(buf, used, id, deleteid)
}

// The lookup, where the writer returned a count.
fn look_up(
    buf: &[u8],
    written: Result<usize, Unwritten>,
    bucket: &[u8],
    object: &[u8],
) -> Result<LookedUp, Unwritten>
    requires { CountInside buf.now written }
    ensures result_value { answers_of buf.now result ≡ of_front (looked_up bucket.now object.now) buf.now (answer_of written) }
    ensures inside { DeletionInside buf.now result }
{
    let count = written?;
    Ok(LookedUp {
        count,
        found: lookup::lookup(&buf[..count], bucket, object),
    })
}

// The deletion is a primary part handed in.
pub fn delete_then_look_up(
    buf: &mut [u8],
    used: usize,
    part: &[u8],
    bucket: &[u8],
    object: &[u8],
) -> Result<LookedUp, Unwritten>
    ensures { DeletionHolds used (Some (version_delete part.now)) buf.old bucket.now
        object.now result buf.new }
{
    let written = write_part(buf, used, part, is_name(bucket, object));
    look_up(buf, written, bucket, object)
}

// The deletion is made from the identifier of the version that goes and a delete ULID.
pub fn delete_version_then_look_up(
    buf: &mut [u8],
    used: usize,
    id: Identifier,
    deleteid: &[u8],
    bucket: &[u8],
    object: &[u8],
) -> Result<LookedUp, Unwritten>
    ensures { DeletionHolds used (of_identity (λ i. deletion i deleteid.now) (named id)) buf.old
        bucket.now object.now result buf.new }
{
    let written = write_made(buf, used, id, deleteid, is_name(bucket, object));
    look_up(buf, written, bucket, object)
}

// ---- a lookup in two packs

#[derive(Clone, Copy)]
pub struct Both {
    pub first: Result<Option<Version>, lookup::Fault>,
    pub second: Result<Option<Version>, lookup::Fault>,
}

pub fn look_up_in_both(first: &[u8], second: &[u8], bucket: &[u8], object: &[u8]) -> Both
    ensures { BothHold first.now second.now bucket.now object.now result }
{
    let found = lookup::lookup(first, bucket, object);
    Both {
        first: found,
        second: lookup::lookup(second, bucket, object),
    }
}

// ---- a record written, and read at its place: one function for each way of writing

// The count returned, and what is read where the pack so far ended, in the front as long as it.
#[derive(Clone, Copy)]
pub struct ReadBack {
    pub count: usize,
    pub read: Result<Placed, PlaceFault>,
}

// The reading, where the writer returned a count.
fn read_back(
    buf: &[u8],
    used: usize,
    written: Result<usize, Unwritten>,
) -> Result<ReadBack, Unwritten>
    requires { CountInside buf.now written }
    ensures result_value { read_back_of buf.now result ≡ of_front (read_behind used) buf.now (answer_of written) }
    ensures inside { ReadInside used buf.now result }
{
    let count = written?;
    Ok(ReadBack {
        count,
        read: records::read_at(&buf[..count], used),
    })
}

pub fn write_block_then_read(
    buf: &mut [u8],
    used: usize,
    id: Identifier,
    content: &[u8],
) -> Result<ReadBack, Unwritten>
    ensures { ReadBackHolds used (of_identity (λ i. block i content.now) (named id)) buf.old result buf.new }
{
    let written = writer::write_block(buf, used, id, content);
    read_back(buf, used, written)
}

pub fn write_version_then_read(
    buf: &mut [u8],
    used: usize,
    part: &[u8],
) -> Result<ReadBack, Unwritten>
    ensures { ReadBackHolds used (Some (version part.now)) buf.old result buf.new }
{
    let written = writer::write_version(buf, used, part);
    read_back(buf, used, written)
}

pub fn write_delete_then_read(
    buf: &mut [u8],
    used: usize,
    part: &[u8],
) -> Result<ReadBack, Unwritten>
    ensures { ReadBackHolds used (Some (version_delete part.now)) buf.old result buf.new }
{
    let written = writer::write_delete(buf, used, part);
    read_back(buf, used, written)
}

pub fn write_pack_list_then_read(
    buf: &mut [u8],
    used: usize,
    part: &[u8],
) -> Result<ReadBack, Unwritten>
    ensures { ReadBackHolds used (Some (pack_list part.now)) buf.old result buf.new }
{
    let written = writer::write_pack_list(buf, used, part);
    read_back(buf, used, written)
}

pub fn write_delete_of_then_read(
    buf: &mut [u8],
    used: usize,
    id: Identifier,
    deleteid: &[u8],
) -> Result<ReadBack, Unwritten>
    ensures { ReadBackHolds used (of_identity (λ i. deletion i deleteid.now) (named id)) buf.old result
        buf.new }
{
    let written = writer::write_delete_of(buf, used, id, deleteid);
    read_back(buf, used, written)
}
