// For C, Rust and Python: the current version of an object, and why it is current.
#![tactic(auto)]

ghost use Rattle.std.specs.Prelude.{◌≡◌, cond, not, eqb, length};
ghost use Rattle.slices.specs.Overwriting.{overwritten};
ghost use Rattle.refusals.specs.Limit.{pack_limit};
ghost use Rattle.current_version.specs.Current.{lookup};
ghost use Rattle.lookup.specs.Answers.{is_refusal, ScratchAfter};
ghost use Rattle.explanation.specs.Reasons.{explain};
ghost use Rattle.explanation.specs.Answers.{told_after};
ghost use Rattle.words.specs.Words.{answer};
ghost use Rattle.capi_lookup.specs.Current.{fits, current_answer, current_told, current_ulid};
ghost use Rattle.capi_lookup.specs.Explanation.{explain_answer};

use explanation::Fault;

// Four words and a text, where there is room for both.
fn tell(told: &mut [u64], ulid: &mut [u8], row: [u64; 4], text: &[u8]) -> u64
    ensures answer { result ≡ cond (fits told.old ulid.old text.now) (answer 0 0) (answer 19 0) }
    ensures told { told.new
        ≡ cond (fits told.old ulid.old text.now)
        (overwritten told.old 0 row) told.old }
    ensures ulid { ulid.new
        ≡ cond (fits told.old ulid.old text.now)
        (overwritten ulid.old 0 text.now) ulid.old }
{
    if told.len() < 4 {
        return words::answer(19, 0);
    }
    if !slices::write_bytes(ulid, 0, text) {
        return words::answer(19, 0);
    }
    words::store(told, 0, &row);
    words::answer(0, 0)
}

// Whether there is one, its record's start, its value's length, the delete flag; and its ULID. The
// word is a refusal's place. 19: fewer than four words, or fewer than 26 bytes for a ULID.
fn look_up(
    pack: &[u8],
    bucket: &[u8],
    object: &[u8],
    scratch: &mut [u32],
    out: &mut [u64],
    ulid: &mut [u8],
) -> u64
    ensures answer { result
        ≡ current_answer (lookup pack_limit pack.now bucket.now object.now)
        (length out.old) (length ulid.old) }
    ensures told { out.new
        ≡ current_told (lookup pack_limit pack.now bucket.now object.now)
        out.old (length ulid.old) }
    ensures ulid { ulid.new
        ≡ current_ulid (lookup pack_limit pack.now bucket.now object.now)
        (length out.old) ulid.old }
    ensures scratch { ScratchAfter (is_refusal (lookup pack_limit pack.now bucket.now object.now))
        scratch.old scratch.new }
{
    match lookup::lookup_with(pack, bucket, object, scratch) {
        Ok(None) => tell(out, ulid, [0; 4], b""),
        Ok(Some(v)) => {
            let row = [1, v.start as u64, v.len as u64, words::flag(v.deleted)];
            tell(out, ulid, row, slices::part(pack, v.identifier.ulid))
        }
        Err(f) => words::answer(u8::from(f), f.place()),
    }
}

// With no memory lent for the search.
#[unsafe(no_mangle)]
pub extern "C" fn vof_current(
    pack: &[u8],
    bucket: &[u8],
    object: &[u8],
    told: &mut [u64],
    ulid: &mut [u8],
) -> u64
    ensures answer { result
        ≡ current_answer (lookup pack_limit pack.now bucket.now object.now)
        (length told.old) (length ulid.old) }
    ensures told { told.new
        ≡ current_told (lookup pack_limit pack.now bucket.now object.now)
        told.old (length ulid.old) }
    ensures ulid { ulid.new
        ≡ current_ulid (lookup pack_limit pack.now bucket.now object.now)
        (length told.old) ulid.old }
{
    let mut none = [0u32; 0];
    look_up(pack, bucket, object, &mut none, told, ulid)
}

// The same, with memory of any length lent for hints. Where the answer is not 0 it is as it was, else
// what it then holds is free: where a version that is found might not be told, none of it is used.
#[unsafe(no_mangle)]
pub extern "C" fn vof_current_with(
    pack: &[u8],
    bucket: &[u8],
    object: &[u8],
    scratch: &mut [u32],
    out: &mut [u64],
    ulid: &mut [u8],
) -> u64
    ensures answer { result
        ≡ current_answer (lookup pack_limit pack.now bucket.now object.now)
        (length out.old) (length ulid.old) }
    ensures told { out.new
        ≡ current_told (lookup pack_limit pack.now bucket.now object.now)
        out.old (length ulid.old) }
    ensures ulid { ulid.new
        ≡ current_ulid (lookup pack_limit pack.now bucket.now object.now)
        (length out.old) ulid.old }
    ensures scratch { ScratchAfter (not (eqb result 0)) scratch.old scratch.new }
{
    if out.len() < 4 {
        return vof_current(pack, bucket, object, out, ulid);
    }
    if ulid.len() < 26 {
        return vof_current(pack, bucket, object, out, ulid);
    }
    look_up(pack, bucket, object, scratch, out, ulid)
}

// Start, reason and place of each version record of the name, in order. The word is a refusal's place,
// or else the count. 19: fewer than three words for each.
#[unsafe(no_mangle)]
pub extern "C" fn vof_explain(pack: &[u8], bucket: &[u8], object: &[u8], told: &mut [u64]) -> u64
    ensures answer { result
        ≡ explain_answer (explain pack_limit pack.now bucket.now object.now) (length told.old) }
    ensures told { told.new
        ≡ told_after (explain pack_limit pack.now bucket.now object.now) told.old }
{
    match explanation::explain(pack, bucket, object, told) {
        Ok(e) => words::answer(0, e.count),
        Err(Fault::Lookup(f)) => words::answer(u8::from(f), f.place()),
        Err(Fault::NoRoom) => words::answer(19, 0),
    }
}
