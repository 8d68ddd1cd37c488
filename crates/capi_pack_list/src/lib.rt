// For C, Rust and Python: the entries of a pack list, six words for each, and the block that holds a byte of a version.
#![tactic(auto)]

ghost use Rattle.std.specs.Prelude.{◌≡◌, length, ◌*◌, ◌≤◌};
ghost use Rattle.slices.specs.Overwriting.{overwritten};
ghost use Rattle.pack_list.specs.Lists.{pack_list};
ghost use Rattle.pack_list.specs.Answers.{entries_in, ListInside};
ghost use Rattle.block_of_byte.specs.Answers.{find_in};
ghost use Rattle.capi_pack_list.specs.PackLists.{list_words, list_answer, list_told, find_answer, find_told};

use block_of_byte::Found;
use pack_list::PackList;

// The entries of a list that has been read go to the front.
fn fill(primary: &[u8], list: PackList, told: &mut [u64])
    requires { ListInside primary.now list × (6 * list.entries.count ≤ length told.old) }
    ensures { told.new
        ≡ overwritten told.old 0 (list_words primary.now 0 (entries_in primary.now list.entries)) }
{
    let entries = list.entries;
    let mut at = entries.first;
    for i in 0..entries.count {
        let Some(found) = pack_list::next_entry(primary, at) else {
            return;
        };
        let e = found.entry;
        let pack = e.pack.start as u64;
        let source = e.source;
        let stored = e.stored;
        let blocks = found.blocks as u64;
        let entry = [
            pack,
            source.start,
            source.len,
            stored.start,
            stored.len,
            blocks,
        ];
        words::store(told, 6 * i, &entry);
        at = found.next;
    }
}

// Of each entry, in order: start of the pack's ULID in the part, start and length of the range of the
// version, start and length of the range of the pack, how many blocks. The word is the count. 19: fewer
// than six words for each entry.
#[unsafe(no_mangle)]
pub extern "C" fn vof_pack_list(primary: &[u8], told: &mut [u64]) -> u64
    ensures answer { result ≡ list_answer (pack_list primary.now) (length told.old) }
    ensures told { told.new ≡ list_told primary.now (pack_list primary.now) told.old }
{
    match pack_list::read(primary) {
        Ok(list) => {
            let count = list.entries.count;
            if told.len() / 6 < count {
                return words::answer(19, 0);
            }
            fill(primary, list, told);
            words::answer(0, count)
        }
        Err(f) => words::answer(u8::from(f), 0),
    }
}

// Kind; entry and block, counted from 0; start of the pack's ULID in the part; start and length of the
// stored range. Of an entry alone the block is 0, and the range the entry's. 19: fewer than six words.
#[unsafe(no_mangle)]
pub extern "C" fn vof_find_block(primary: &[u8], byte: u64, told: &mut [u64]) -> u64
    ensures answer { result ≡ find_answer (find_in primary.now byte) (length told.old) }
    ensures told { told.new ≡ find_told primary.now (find_in primary.now byte) told.old }
{
    match block_of_byte::find(primary, byte) {
        Ok(Found::Nowhere) => words::tell(told, &[0, 0, 0, 0, 0, 0]),
        Ok(Found::Entry(k, e)) => {
            let pack = e.pack.start as u64;
            let stored = e.stored;
            words::tell(told, &[1, k as u64, 0, pack, stored.start, stored.len])
        }
        Ok(Found::Block(k, e, b)) => {
            let pack = e.pack.start as u64;
            let stored = b.stored;
            words::tell(
                told,
                &[2, k as u64, b.number as u64, pack, stored.start, stored.len],
            )
        }
        Err(f) => words::answer(u8::from(f), 0),
    }
}
