// The records of a pack, four words for each, and the search among them.
ghost use Rattle.std.specs.Prelude.{◌≡◌, ◌*◌, ◌/◌, ◌≤◌, length};
ghost use Rattle.slices.specs.Overwriting.{overwritten};
ghost use Rattle.refusals.specs.Limit.{pack_limit};
ghost use Rattle.pack.specs.Reading.{reading};
ghost use Rattle.pack.specs.Scan.{scanned, first_entries};
ghost use Rattle.capi_pack.specs.Scan.{entry_words, outcome_answer, scan_told};
ghost use Rattle.capi_pack.specs.Search.{search_word, search_answer};

// The first n records of a pack that has been checked go to the front.
fn fill(pack: &[u8], told: &mut [u64], n: usize)
    requires { 4 * n ≤ length told.old }
    ensures { told.new ≡ overwritten told.old 0 (entry_words (first_entries n pack.now 0)) }
{
    let mut at = 0;
    for i in 0..n {
        let passed = tlv::pass_at(pack, at);
        let header = passed.header;
        let entry = [at as u64, header.tag as u64, header.length, header.hash];
        words::store(told, 4 * i, &entry);
        at = passed.next;
    }
}

// Start, tag, value length and value hash of each record, in order. The word is a refusal's place, or
// else the count. 19: fewer than four words for each record.
#[unsafe(no_mangle)]
pub extern "C" fn vof_scan(pack: &[u8], told: &mut [u64]) -> u64
    ensures answer { result ≡ outcome_answer (scanned (reading pack_limit pack.now) (length told.old / 4)) }
    ensures told { told.new ≡ scan_told (reading pack_limit pack.now) told.old }
{
    match pack::check(pack) {
        Ok(n) => {
            if told.len() / 4 < n {
                return words::answer(19, 0);
            }
            fill(pack, told, n);
            words::answer(0, n)
        }
        Err(f) => words::answer(u8::from(f), f.place()),
    }
}

// ---- the search by a value's hash, among words as `vof_scan` tells them

// The most words that are searched.
const SEARCHED: usize = 1 << 34;

// 1 and the place of the first entry with this hash, or 0. A rest of fewer than four words is no entry.
fn find(told: &[u64], hash: u64) -> usize
    ensures { result ≡ search_word hash told.now }
{
    for i in 0..told.len() / 4 {
        if told[4 * i + 3] == hash {
            return i + 1;
        }
    }
    0
}

// The word is 1 and the place in the list, counted from 0, of the first entry with this hash; 0 where
// none has it. 20: more than 2^34 words.
#[unsafe(no_mangle)]
pub extern "C" fn vof_find_hash(told: &[u64], hash: u64) -> u64
    ensures { result ≡ search_answer hash told.now }
{
    if SEARCHED < told.len() {
        return words::answer(20, 0);
    }
    words::answer(0, find(told, hash))
}
