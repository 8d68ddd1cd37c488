// Two blocks of deposited packs compared (request 9). Where they have the same identifier and the same
// data, all their bytes are the same, header included: the theorem is `equal-bytes` of
// crates/deposit_laws.
#![tactic(auto)]

ghost use Rattle.std.specs.Prelude.{◌≡◌, true};
ghost use Rattle.slices.specs.Bytes.{same_bytes};
ghost use Rattle.slices.specs.Places.{part_at};
ghost use Rattle.refusals.specs.Limit.{pack_limit};
ghost use Rattle.identifier.specs.Identity.{same_identity};
ghost use Rattle.primary.specs.Answers.{texts_in};
ghost use Rattle.deposited_blocks.specs.Same.{deposited_block, same_block, EqualBytes};
ghost use Rattle.deposited_blocks.specs.Answers.{held_of};

use primary::Texts;
use records::Record;
use slices::Place;

// Record number n of a pack, from 0, where the pack is deposited and the record is a block.
fn deposited_block(pack: &[u8], n: usize) -> Option<Record>
    ensures { held_of pack.now result ≡ deposited_block pack_limit pack.now n }
{
    deposit::check(pack).ok()?;
    let e = pack::nth(pack, n).ok()??;
    if e.tag != records::BLOCK {
        return None;
    }
    let placed = records::read_at(pack, e.start).ok()?;
    Some(placed.record)
}

fn same_part(first: &[u8], a: Place, second: &[u8], b: Place) -> bool
    ensures { result ≡ same_bytes (part_at first.now a) (part_at second.now b) }
{
    slices::same_bytes(slices::part(first, a), slices::part(second, b))
}

fn same_texts(first: &[u8], a: Texts, second: &[u8], b: Texts) -> bool
    ensures { result ≡ same_identity (texts_in first.now a) (texts_in second.now b) }
{
    same_part(first, a.ulid, second, b.ulid)
        & same_part(first, a.bucket, second, b.bucket)
        & same_part(first, a.object, second, b.object)
}

// Whether record number n of the first pack and number m of the second, from 0, are blocks with the same
// identifier and the same data, and both packs are deposited. Then all bytes of the two are the same.
pub fn is_same_block(first: &[u8], n: usize, second: &[u8], m: usize) -> bool
    ensures value { result ≡ same_block (deposited_block pack_limit first.now n) (deposited_block pack_limit second.now m) }
    ensures bytes { result ≡ true → EqualBytes pack_limit first.now n second.now m }
{
    let Some(a) = deposited_block(first, n) else {
        return false;
    };
    let Some(b) = deposited_block(second, m) else {
        return false;
    };
    let content = Place {
        start: a.told.secondary.start,
        len: a.told.secondary.len,
    };
    let other = Place {
        start: b.told.secondary.start,
        len: b.told.secondary.len,
    };
    same_texts(first, a.identifier, second, b.identifier) & same_part(first, content, second, other)
}
