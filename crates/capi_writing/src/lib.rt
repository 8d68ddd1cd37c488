// For C, Rust and Python: records written, one a call, and a version's primary part alone. Every answer
// holds the new count, or the part's length. A text that is no identifier is refused with 20, and what is
// lent stays as it was.
#![tactic(auto)]

ghost use Rattle.std.specs.Prelude.{◌≡◌, length};
ghost use Rattle.refusals.specs.Limit.{pack_limit};
ghost use Rattle.identifier.specs.Composite.{identity_in};
ghost use Rattle.writer.specs.Writing.{block, version, version_delete, pack_list, deletion, of_identity, answer_of, written, buffer_after, version_part_of, part_written, part_after};
ghost use Rattle.capi_writing.specs.Write.{written_word, CountWithin, is_set};

use refusals::Unwritten;

fn word_of(written: Result<usize, Unwritten>) -> u64
    requires { CountWithin written }
    ensures { result ≡ written_word (answer_of written) }
{
    match written {
        Ok(n) => words::answer(0, n),
        Err(f) => words::answer(u8::from(f), 0),
    }
}

// A block, from the composite text of its identifier.
#[unsafe(no_mangle)]
pub extern "C" fn vof_write_block(buf: &mut [u8], used: usize, id: &[u8], content: &[u8]) -> u64
    ensures answer { result
        ≡ written_word (written pack_limit (length buf.old) used
        (of_identity (λ i. block i content.now) (identity_in id.now))) }
    ensures buffer { buf.new
        ≡ buffer_after pack_limit used (of_identity (λ i. block i content.now) (identity_in id.now)) buf.old }
{
    let Some(identifier) = held_identifier::read_composite(id) else {
        return words::answer(20, 0);
    };
    word_of(writer::write_block(buf, used, identifier, content))
}

// A version, from its primary part.
#[unsafe(no_mangle)]
pub extern "C" fn vof_write_version(buf: &mut [u8], used: usize, primary: &[u8]) -> u64
    ensures answer { result ≡ written_word (written pack_limit (length buf.old) used (Some (version primary.now))) }
    ensures buffer { buf.new ≡ buffer_after pack_limit used (Some (version primary.now)) buf.old }
{
    word_of(writer::write_version(buf, used, primary))
}

// A version delete, from its primary part.
#[unsafe(no_mangle)]
pub extern "C" fn vof_write_delete(buf: &mut [u8], used: usize, primary: &[u8]) -> u64
    ensures answer { result ≡ written_word (written pack_limit (length buf.old) used (Some (version_delete primary.now))) }
    ensures buffer { buf.new ≡ buffer_after pack_limit used (Some (version_delete primary.now)) buf.old }
{
    word_of(writer::write_delete(buf, used, primary))
}

// A pack list, from its primary part.
#[unsafe(no_mangle)]
pub extern "C" fn vof_write_pack_list(buf: &mut [u8], used: usize, primary: &[u8]) -> u64
    ensures answer { result ≡ written_word (written pack_limit (length buf.old) used (Some (pack_list primary.now))) }
    ensures buffer { buf.new ≡ buffer_after pack_limit used (Some (pack_list primary.now)) buf.old }
{
    word_of(writer::write_pack_list(buf, used, primary))
}

// A version delete, made from the composite text of the version that goes and a delete ULID.
#[unsafe(no_mangle)]
pub extern "C" fn vof_write_delete_of(
    buf: &mut [u8],
    used: usize,
    id: &[u8],
    deleteid: &[u8],
) -> u64
    ensures answer { result
        ≡ written_word (written pack_limit (length buf.old) used
        (of_identity (λ i. deletion i deleteid.now) (identity_in id.now))) }
    ensures buffer { buf.new
        ≡ buffer_after pack_limit used (of_identity (λ i. deletion i deleteid.now) (identity_in id.now)) buf.old }
{
    let Some(identifier) = held_identifier::read_composite(id) else {
        return words::answer(20, 0);
    };
    word_of(writer::write_delete_of(buf, used, identifier, deleteid))
}

// The primary part of a version, made from the composite text of its identifier; it is a delete marker
// unless the number is 0.
#[unsafe(no_mangle)]
pub extern "C" fn vof_version_part(out: &mut [u8], id: &[u8], marker: u64) -> u64
    ensures answer { result ≡ written_word (part_written (length out.old) (version_part_of (is_set marker) (identity_in id.now))) }
    ensures buffer { out.new ≡ part_after (version_part_of (is_set marker) (identity_in id.now)) out.old }
{
    let Some(identifier) = held_identifier::read_composite(id) else {
        return words::answer(20, 0);
    };
    word_of(writer::write_version_part(out, identifier, marker != 0))
}
