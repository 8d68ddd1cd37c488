// A whole pack: records end to end.
#![tactic(auto)]

ghost use Rattle.std.specs.Prelude.{◌≡◌, ◌≤◌, ◌++◌, length, drop};
ghost use Rattle.refusals.specs.Limit.{pack_limit};
ghost use Rattle.pack.specs.declared.ScanFault.TheVariants.{Pack};
ghost use Rattle.pack.specs.Reading.{reading, entry_at, outcome, outcome_of, fault_number, fault_place};
ghost use Rattle.pack.specs.Scan.{scanned_of, scanned, listed_at, first_entries, list_after};
ghost use Rattle.pack.specs.Search.{first_with};
ghost use Rattle.pack.specs.Walk.{yield_of, call_of, turn_at, nth_yield};

use tlv::RecordHeader;

// A record of a pack: where it starts, its tag, and its value's length and hash.
#[derive(Clone, Copy)]
pub struct Entry {
    pub start: usize,
    pub tag: u16,
    pub length: u64,
    pub hash: u64,
}

// The entry of the record with this header at a place.
fn entry_at(at: usize, header: RecordHeader) -> Entry
    ensures { result ≡ entry_at at header }
{
    Entry {
        start: at,
        tag: header.tag,
        length: header.length,
        hash: header.hash,
    }
}

// Why a pack is refused: it is longer than the limit, or what stands at a place is no record.
#[derive(Clone, Copy)]
pub enum Fault {
    TooLong,
    Record(tlv::Fault, usize),
}

impl From<Fault> for u8 {
    ghost from_gives = { λ f n. n ≡ fault_number f };

    fn from(f: Fault) -> u8 {
        match f {
            Fault::TooLong => 1,
            Fault::Record(f, _) => u8::from(f),
        }
    }
}

impl Fault {
    pub fn place(self) -> usize
        ensures { result ≡ fault_place self }
    {
        match self {
            Fault::TooLong => 0,
            Fault::Record(_, at) => at,
        }
    }
}

// How many records a pack has.
pub fn check(pack: &[u8]) -> Result<usize, Fault>
    ensures { outcome_of result ≡ outcome (reading pack_limit pack.now) }
{
    if RecordHeader::LIMIT < pack.len() {
        return Err(Fault::TooLong);
    }
    let mut at: usize = 0;
    let mut count: usize = 0;
    loop {
        match tlv::step_at(pack, at) {
            Ok(None) => return Ok(count),
            Err(f) => return Err(Fault::Record(f, at)),
            Ok(Some(h)) => {
                at = at + RecordHeader::LENGTH + h.length as usize;
                count += 1;
            }
        }
    }
}

// ---- the scan, which fills a lent list

// Why none was filled in. NoRoom: the list is too short, refusal 19.
#[derive(Clone, Copy)]
pub enum ScanFault {
    Pack(Fault),
    NoRoom,
}

impl From<Fault> for ScanFault {
    ghost from_gives = { λ f s. s ≡ Pack f };

    fn from(f: Fault) -> ScanFault {
        ScanFault::Pack(f)
    }
}

// The entry of the record at a place, and the place after it.
#[derive(Clone, Copy)]
pub struct Listed {
    pub entry: Entry,
    pub next: usize,
}

fn listed_at(pack: &[u8], at: usize) -> Listed
    ensures { result ≡ listed_at pack.now at }
{
    let passed = tlv::pass_at(pack, at);
    Listed {
        entry: entry_at(at, passed.header),
        next: passed.next,
    }
}

// The first n entries of a pack that has been checked go to the front of the list.
fn fill(pack: &[u8], list: &mut [Entry], n: usize)
    requires { n ≤ length list.old }
    ensures { list.new ≡ first_entries n pack.now 0 ++ drop n list.old }
{
    let mut at = 0;
    for i in 0..n {
        let listed = listed_at(pack, at);
        list[i] = listed.entry;
        at = listed.next;
    }
}

// One entry a record, in order, and how many; entries after those keep their content, and on a
// refusal all do.
pub fn scan(pack: &[u8], list: &mut [Entry]) -> Result<usize, ScanFault>
    ensures { (scanned_of result ≡ scanned (reading pack_limit pack.now) (length list.old))
        × (list.new ≡ list_after (reading pack_limit pack.now) list.old) }
{
    let n = check(pack)?;
    if list.len() < n {
        return Err(ScanFault::NoRoom);
    }
    fill(pack, list, n);
    Ok(n)
}

// ---- the search by a value's hash

// The place in a list of the first entry whose value has this hash, counted from 0.
pub fn find_hash(entries: &[Entry], hash: u64) -> Option<usize>
    ensures { result ≡ first_with hash entries.now }
{
    entries.iter().position(|e| e.hash == hash)
}

// ---- the walker, which yields one record a call

// The lent pack, and the place reached.
#[derive(Clone, Copy)]
pub struct Walker<'a> {
    pack: &'a [u8],
    at: usize,
}

// What a call answers, and the place that it leaves the walker at.
#[derive(Clone, Copy)]
pub struct Turn {
    pub walked: Result<Option<Entry>, Fault>,
    pub at: usize,
}

fn turn_at(pack: &[u8], at: usize) -> Turn
    ensures { call_of result ≡ turn_at pack_limit pack.now at }
{
    if RecordHeader::LIMIT < pack.len() {
        return Turn {
            walked: Err(Fault::TooLong),
            at,
        };
    }
    match tlv::step_at(pack, at) {
        Ok(None) => Turn {
            walked: Ok(None),
            at,
        },
        Err(f) => Turn {
            walked: Err(Fault::Record(f, at)),
            at,
        },
        Ok(Some(h)) => Turn {
            walked: Ok(Some(entry_at(at, h))),
            at: at + RecordHeader::LENGTH + h.length as usize,
        },
    }
}

impl<'a> Walker<'a> {
    pub fn new(pack: &'a [u8]) -> Walker<'a>
        ensures { (result.pack ≡ pack.entry) × (result.at ≡ 0) }
    {
        Walker { pack, at: 0 }
    }

    // The record at the place reached, and on to the next. At the end (None), or at a fault, the
    // walker stays, and answers the same at each later call.
    pub fn next(&mut self) -> Result<Option<Entry>, Fault>
        ensures { (yield_of result ≡ (turn_at pack_limit self.old.pack.now self.old.at).yield)
            × ((self.new.pack ≡ self.old.pack)
            × (self.new.at ≡ (turn_at pack_limit self.old.pack.now self.old.at).place)) }
    {
        let turn = turn_at(self.pack, self.at);
        self.at = turn.at;
        turn.walked
    }
}

// What the walker answers to its call number n, from 0: for callers that need no walker.
pub fn nth(pack: &[u8], n: usize) -> Result<Option<Entry>, Fault>
    ensures { yield_of result ≡ nth_yield (reading pack_limit pack.now) n }
{
    let mut w = Walker::new(pack);
    for _ in 0..n {
        let _ = w.next();
    }
    w.next()
}
