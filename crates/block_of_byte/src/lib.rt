// The block that holds a byte of a version, by its pack list: the first entry that holds the byte, and in it
// the block, by the lengths of its blocks. They are read where they stand; nothing is copied.
#![tactic(auto)]

ghost use Rattle.std.specs.Prelude.{cond, ◌≡◌, ◌+◌, ◌-◌, leb, drop};
ghost use Rattle.refusals.specs.Answers.{granted};
ghost use Rattle.msgpack.specs.Items.{pass_over};
ghost use Rattle.msgpack.specs.Readers.{plus, integer_read, read_integer};
ghost use Rattle.msgpack.specs.Lookup.{if_there};
ghost use Rattle.msgpack.specs.Views.{size_of};
ghost use Rattle.value.specs.Fields.{read_natural};
ghost use Rattle.pack_list.specs.Answers.{entry_of, held_of, HeldIs};
ghost use Rattle.block_of_byte.specs.Finding.{found_in};
ghost use Rattle.block_of_byte.specs.Answers.{moved_by, at_most, noted_of, block_at, Offset, FoundStands, found_of, find_in};

use msgpack::Integer;
use pack_list::{Entry, Held, Numbers, Range};

// A block by its number in its entry, and its record's range of the pack.
#[derive(Clone, Copy)]
pub struct Block {
    pub number: usize,
    pub stored: Range,
}

// The source length of a block that is not the last: the stride with its delta, at least 0 and at most what
// is left.
fn source_length(stride: u64, delta: Integer, left: u64) -> Option<u64>
    ensures { result ≡ at_most left (moved_by stride (integer_read (Some delta))) }
{
    let len = match delta {
        Integer::NonNegative(n, _) => stride.checked_add(n)?,
        Integer::Negative(n, _) => stride.checked_sub(n)?,
    };
    if len <= left { Some(len) } else { None }
}

// The k-th length that is listed, which stands at a place.
fn length_at(part: &[u8], lengths: Numbers, k: usize, at: usize) -> Option<u64>
    ensures { result ≡ cond (leb lengths.count k) None (read_natural (drop at part.now)) }
{
    if lengths.count <= k {
        return None;
    }
    value::natural_at(slices::from(part, at))
}

// The k-th delta, which stands at a place, and 0 behind the last.
fn delta_at(part: &[u8], deltas: Numbers, k: usize, at: usize) -> Option<Integer>
    ensures { integer_read result ≡ cond (leb deltas.count k) (Some (plus 0)) (read_integer (drop at part.now)) }
{
    if deltas.count <= k {
        return Some(Integer::NonNegative(0, true));
    }
    msgpack::read_integer(slices::from(part, at))
}

// Where the delta of the next block stands.
fn delta_after(part: &[u8], deltas: Numbers, k: usize, at: usize) -> usize
    ensures { result ≡ cond (leb deltas.count k) at (at + size_of (pass_over (drop at part.now))) }
{
    if deltas.count <= k {
        return at;
    }
    pack_list::after(part, at)
}

// This block, where it is the first to hold the byte.
fn noted(found: Option<Block>, holds: bool, block: Block) -> Option<Block>
    ensures { result ≡ noted_of found holds block }
{
    if holds { found.or(Some(block)) } else { found }
}

// The block of an entry of so many blocks that holds the byte at an offset of its source range; none, where
// a block would have a length below 0. The lengths listed and the rest fill the range of the pack, so
// that the last block has what is left of it.
fn block_in(part: &[u8], e: Entry, blocks: usize, stride: u64, offset: u64) -> Option<Block>
    requires { Offset part.now e blocks offset }
    ensures { result ≡ if_there (entry_of part.now e) (block_at stride offset) }
{
    let lengths = e.lengths;
    let deltas = e.deltas;
    let last = blocks - 1;
    let mut start = e.stored.start;
    let mut stored = e.stored.len;
    let mut source = e.source.len;
    let mut behind = offset;
    let mut at = lengths.first;
    let mut delta = deltas.first;
    let mut found = None;
    for k in 0..last {
        let len = length_at(part, lengths, k, at)?;
        let moved = delta_at(part, deltas, k, delta)?;
        let n = source_length(stride, moved, source)?;
        let block = Block {
            number: k,
            stored: Range { start, len },
        };
        found = noted(found, behind < n, block);
        behind = behind.saturating_sub(n);
        start += len;
        stored -= len;
        source -= n;
        at = pack_list::after(part, at);
        delta = delta_after(part, deltas, k, delta);
    }
    let block = Block {
        number: last,
        stored: Range { start, len: stored },
    };
    noted(found, true, block)
}

#[derive(Clone, Copy)]
pub enum Found {
    Nowhere,
    // The entry with this number, whose lengths place the byte in no block.
    Entry(usize, Entry),
    Block(usize, Entry, Block),
}

// The byte in the entry that holds it.
fn find_in(part: &[u8], held: Held, stride: u64, byte: u64) -> Found
    requires { HeldIs part.now byte held }
    ensures result_value { found_of part.now (Ok result) ≡ granted (found_in stride byte (held_of part.now held)) }
    ensures inside { FoundStands part.now (Ok result) }
{
    let number = held.number;
    let e = held.entry;
    let source = e.source;
    if !held.counted {
        return Found::Entry(number, e);
    }
    match block_in(part, e, held.blocks, stride, byte - source.start) {
        Some(b) => Found::Block(number, e, b),
        None => Found::Entry(number, e),
    }
}

// The block that holds a byte of the version.
pub fn find(part: &[u8], byte: u64) -> Result<Found, pack_list::Fault>
    ensures result_value { found_of part.now result ≡ find_in part.now byte }
    ensures inside { FoundStands part.now result }
{
    let (_, stride, holder) = pack_list::read_for(part, byte)?;
    match holder {
        None => Ok(Found::Nowhere),
        Some(held) => Ok(find_in(part, held, stride, byte)),
    }
}
