// A pack that comes in parts (request 6): a call takes a part, and tells of a record as it completes.
#![tactic(auto)]

ghost use Rattle.std.specs.Prelude.{◌≡◌, true, cond, ◌&&◌, [], ◌++◌, ◌+◌, ◌*◌, ◌≤◌, ◌<◌, ◌^◌, leb, ltb, length, take as front};
ghost use Rattle.slices.specs.Overwriting.{overwritten};
ghost use Rattle.refusals.specs.Sheet.{lowest};
ghost use Rattle.xxh64.specs.Parts.{hashing_of};
ghost use Rattle.tlv.specs.Found.{header_rows, header_of};
ghost use Rattle.pipe.specs.Limit.{pipe_limit};
ghost use Rattle.pipe.specs.Taking.{in_header, going, at_start, wanted, valued, opened, refusing, proceed, stepped, advance, fits, take, finish, close};
ghost use Rattle.pipe.specs.Step.{standing};
ghost use Rattle.pipe.specs.States.{record_at, progress_in, progress_of, notice_of, call_of};
ghost use Rattle.pipe.specs.Feeding.{words_in, words_of, ending_in, ending_of, feeding_of, fed, words_after, part_end};
ghost use Rattle.pipe.specs.Whole.{piped};

use pack::Entry;
use tlv::RecordHeader;

// The longest pack.
pub const LIMIT: usize = 1_099_511_627_776;

// What of a record is taken now; or the refusal with its place, or that the end was announced.
#[derive(Clone, Copy)]
pub enum Phase {
    Header,
    Value,
    Refused(u8, usize),
    Ended,
}

// What is kept between calls: where the record that is taken now starts, how many were complete
// before it, its header's bytes, of which so many are held, and the hash of its value so far.
#[derive(Clone, Copy)]
pub struct State {
    pub phase: Phase,
    pub start: usize,
    pub records: usize,
    pub header: [u8; 32],
    pub held: usize,
    pub hash: xxh64::State,
}

// More is wanted, a record is complete, a refusal with its place, or the pack has ended with so many
// records. Malformed: the state is none that a call leaves.
#[derive(Clone, Copy)]
pub enum Event {
    Wanted,
    Complete(Entry),
    Refusal(u8, usize),
    Over(usize),
    Malformed,
}

// What a call leaves, what it tells, and how many bytes it took.
#[derive(Clone, Copy)]
pub struct Taken {
    pub state: State,
    pub event: Event,
    pub taken: usize,
}

// Before the first byte.
pub fn fresh() -> State
    ensures { progress_of result ≡ going at_start }
{
    State {
        phase: Phase::Header,
        start: 0,
        records: 0,
        header: [0; 32],
        held: 0,
        hash: xxh64::State::new(),
    }
}

// ---- whether each number of a state is in its range

// Whether a record's bytes so far end within the limit, and so many records can lie before it.
fn in_range(start: usize, size: usize, records: usize) -> bool
    ensures { result ≡ (leb (start + size) pipe_limit && leb records start) }
{
    if LIMIT < size {
        return false;
    }
    if LIMIT - size < start {
        return false;
    }
    records <= start
}

fn well_formed(state: State) -> bool
    ensures { result ≡ fits pipe_limit (progress_of state) }
{
    match state.phase {
        Phase::Header => {
            if RecordHeader::LENGTH <= state.held {
                return false;
            }
            in_range(state.start, state.held, state.records)
        }
        Phase::Value => {
            let count = state.hash.count;
            if RecordHeader::fields(&state.header).length <= count {
                return false;
            }
            if LIMIT < count as usize {
                return false;
            }
            in_range(
                state.start,
                RecordHeader::LENGTH + count as usize,
                state.records,
            )
        }
        Phase::Refused(number, place) => {
            if number < 1 {
                return false;
            }
            if 8 < number {
                return false;
            }
            place <= LIMIT
        }
        Phase::Ended => state.records <= LIMIT,
    }
}

// ---- one call

// The header with the bytes of the part after those that are held.
fn filled(header: [u8; 32], held: usize, part: &[u8]) -> [u8; 32]
    requires { held + length part.now ≤ 32 }
    ensures { front (held + length part.now) result ≡ front held header ++ part.now }
{
    let mut all = header;
    let _ = slices::write_bytes(&mut all, held, part);
    all
}

// More is wanted, and n bytes were taken.
fn onward(state: State, n: usize) -> Taken
    ensures { call_of result ≡ record { after = progress_of state; notice = wanted; taken = n } }
{
    Taken {
        state,
        event: Event::Wanted,
        taken: n,
    }
}

// Nothing is taken.
fn still(state: State, event: Event) -> Taken
    ensures { call_of result ≡ record { after = progress_of state; notice = notice_of event; taken = 0 } }
{
    Taken {
        state,
        event,
        taken: 0,
    }
}

// What a state tells by itself: a refusal and the verdict at the end are given again at each call.
fn standing(state: State) -> Taken
    ensures { call_of result ≡ standing (progress_of state) }
{
    match state.phase {
        Phase::Header => still(state, Event::Wanted),
        Phase::Value => still(state, Event::Wanted),
        Phase::Refused(number, place) => still(state, Event::Refusal(number, place)),
        Phase::Ended => still(state, Event::Over(state.records)),
    }
}

// The state goes over to a phase in which it stays.
fn close(state: State, phase: Phase) -> Taken
    ensures { call_of result ≡ standing (progress_in phase state) }
{
    standing(State { phase, ..state })
}

fn refuse(state: State, number: u8, place: usize) -> Taken
    ensures { call_of result ≡ refusing number place }
{
    close(state, Phase::Refused(number, place))
}

// The value goes on, or it is whole, and its hash decides.
fn settle(state: State, taken: usize) -> Taken
    requires { (state.start + (32 + state.hash.count) ≤ pipe_limit) × (state.records ≤ state.start) }
    ensures { call_of result ≡ stepped taken (valued (record_at state (in_header [])) state.header (hashing_of state.hash)) }
{
    let fields = RecordHeader::fields(&state.header);
    let hash = state.hash;
    let start = state.start;
    if hash.count < fields.length {
        let after = State {
            phase: Phase::Value,
            ..state
        };
        return onward(after, taken);
    }
    if fields.hash != hash.finish() {
        return refuse(state, 8, start);
    }
    let after = State {
        phase: Phase::Header,
        start: start + RecordHeader::LENGTH + fields.length as usize,
        records: state.records + 1,
        held: 0,
        ..state
    };
    let entry = Entry {
        start,
        tag: fields.tag,
        length: fields.length,
        hash: fields.hash,
    };
    Taken {
        state: after,
        event: Event::Complete(entry),
        taken,
    }
}

// The bytes of a part that belong to the value; so many of the part were taken before them.
fn take_value(state: State, part: &[u8], taken: usize) -> Taken
    requires count_bound { (state.hash.count ≤ (header_of state.header).length) × (state.start + (32 + state.hash.count) ≤ pipe_limit) }
    requires records_le_start { (state.records ≤ state.start) × (taken + length part.now < 2 ^ 64) }
    ensures { call_of result ≡ proceed taken (valued (record_at state (in_header [])) state.header (hashing_of state.hash))
        (λ next. advance pipe_limit (going next) part.now) }
{
    let count = state.hash.count;
    let left = RecordHeader::fields(&state.header).length - count;
    let n = (left as usize).min(part.len());
    if LIMIT - (state.start + RecordHeader::LENGTH + count as usize) < n {
        return refuse(state, 1, 0);
    }
    let after = State {
        phase: Phase::Value,
        hash: state.hash.update(&part[..n]),
        ..state
    };
    settle(after, taken + n)
}

// The header is whole: 3 to 6, or its value begins, an empty one is there at once.
fn read_header(state: State, part: &[u8], taken: usize) -> Taken
    requires { (state.start + 32 ≤ pipe_limit) × (state.records ≤ state.start) × (taken + length part.now < 2 ^ 64) }
    ensures { call_of result ≡ proceed taken (opened (record_at state (in_header [])) state.header (lowest (header_rows state.header)))
        (λ next. advance pipe_limit (going next) part.now) }
{
    match RecordHeader::read(&state.header) {
        Err(f) => refuse(state, u8::from(f), state.start),
        Ok(_) => {
            let after = State {
                phase: Phase::Value,
                hash: xxh64::State::new(),
                ..state
            };
            take_value(after, part, taken)
        }
    }
}

// The bytes of a part that belong to the header, and those of its value.
fn take_header(state: State, part: &[u8]) -> Taken
    requires { (state.held < 32) × (state.start + state.held ≤ pipe_limit) × (state.records ≤ state.start) }
    ensures { call_of result ≡ advance pipe_limit (going (record_at state (in_header (front state.held state.header)))) part.now }
{
    let held = state.held;
    let start = state.start;
    let n = (RecordHeader::LENGTH - held).min(part.len());
    if LIMIT - (start + held) < n {
        return refuse(state, 1, 0);
    }
    let after = State {
        phase: Phase::Header,
        header: filled(state.header, held, &part[..n]),
        held: held + n,
        ..state
    };
    if held + n < RecordHeader::LENGTH {
        return onward(after, n);
    }
    read_header(after, &part[n..], n)
}

// Takes a part, up to the byte that completes a record. Nothing is taken with a refusal, which is
// given again at each later call.
pub fn take(state: State, part: &[u8]) -> Taken
    ensures { call_of result ≡ take pipe_limit (progress_of state) part.now }
{
    if !well_formed(state) {
        return still(state, Event::Malformed);
    }
    match state.phase {
        Phase::Header => take_header(state, part),
        Phase::Value => take_value(state, part, 0),
        Phase::Refused(_, _) => standing(state),
        Phase::Ended => standing(state),
    }
}

// ---- the end

// The end is announced: a refusal, or the number of records, again at each later call.
pub fn end(state: State) -> Taken
    ensures { call_of result ≡ finish pipe_limit (progress_of state) }
{
    if !well_formed(state) {
        return still(state, Event::Malformed);
    }
    match state.phase {
        Phase::Header => {
            if state.held == 0 {
                return close(state, Phase::Ended);
            }
            refuse(state, 2, state.start)
        }
        Phase::Value => refuse(state, 7, state.start),
        Phase::Refused(_, _) => standing(state),
        Phase::Ended => standing(state),
    }
}

// ---- a whole pack, handed over in parts

// How a pack ends: whole, or with a refusal's number and place.
pub type Verdict = Result<(), (u8, usize)>;

// How many records a pack has before its end or the first fault, and how it ends.
#[derive(Clone, Copy)]
pub struct Count {
    pub records: usize,
    pub verdict: Verdict,
}

// Where the part that begins at a place ends: the k-th has the k-th length, as far as the pack goes,
// and the one after the last length is what is left.
fn part_end(len: usize, lengths: &[usize], k: usize, at: usize) -> usize
    requires { at ≤ len }
    ensures { result ≡ part_end len lengths.now k at }
{
    if lengths.len() <= k {
        return len;
    }
    at + lengths[k].min(len - at)
}

// The words of a record, where it is one of the first so many.
fn tell(told: &mut [u64], count: usize, room: usize, e: Entry)
    requires { 4 * room ≤ length told.old }
    ensures { told.new ≡ cond (ltb count room) (overwritten told.old (4 * count) (words_in e)) told.old }
{
    if count < room {
        let words = [e.start as u64, e.tag as u64, e.length, e.hash];
        let _ = words::store(told, 4 * count, &words);
    }
}

// How the pack ends where all its bytes were taken.
fn announced(state: State) -> Verdict
    requires { fits pipe_limit (progress_of state) ≡ true }
    ensures { ending_of result ≡ ending_in (close (progress_of state)) }
{
    match end(state).event {
        Event::Refusal(number, place) => Err((number, place)),
        Event::Wanted => Ok(()),
        Event::Complete(_) => Ok(()),
        Event::Over(_) => Ok(()),
        Event::Malformed => Ok(()),
    }
}

// The pack is handed over part by part; what a call did not take is handed over again. The words of
// the first so many records are written.
fn feed(pack: &[u8], lengths: &[usize], told: &mut [u64], room: usize) -> Count
    requires { 4 * room ≤ length told.old }
    ensures records_value { (result.records ≡ length (piped pipe_limit pack.now).entries)
        × (ending_of result.verdict ≡ (piped pipe_limit pack.now).ending) }
    ensures told_after { told.new ≡ overwritten told.old 0 (words_of (front room (piped pipe_limit pack.now).entries)) }
{
    let len = pack.len();
    let mut state = fresh();
    let mut at: usize = 0;
    let mut k: usize = 0;
    let mut stop = part_end(len, lengths, 0, 0);
    let mut count: usize = 0;
    loop {
        let call = take(state, &pack[at..stop]);
        state = call.state;
        at += call.taken;
        match call.event {
            Event::Wanted => {
                if lengths.len() <= k {
                    return Count {
                        records: count,
                        verdict: announced(state),
                    };
                }
                k += 1;
                stop = part_end(len, lengths, k, at);
            }
            Event::Complete(e) => {
                tell(told, count, room, e);
                count += 1;
            }
            Event::Refusal(number, place) => {
                return Count {
                    records: count,
                    verdict: Err((number, place)),
                };
            }
            Event::Over(_) => {
                return Count {
                    records: count,
                    verdict: Ok(()),
                };
            }
            Event::Malformed => {
                return Count {
                    records: count,
                    verdict: Ok(()),
                };
            }
        }
    }
}

// The pack is handed over in parts of these lengths, what is left of it as one part more, and the
// end is announced. The records before the end or the first fault are told, four words for each:
// start, tag, length and hash. Words after those keep their content, and where they are too few, all
// do, and nothing is answered.
pub fn in_parts(pack: &[u8], lengths: &[usize], told: &mut [u64]) -> Option<Count>
    ensures { (feeding_of result ≡ fed (piped pipe_limit pack.now) (length told.old))
        × (told.new ≡ words_after (piped pipe_limit pack.now) told.old) }
{
    let counted = feed(pack, lengths, told, 0);
    let n = counted.records;
    if told.len() / 4 < n {
        return None;
    }
    let all = feed(pack, lengths, told, n);
    Some(Count {
        records: n,
        verdict: all.verdict,
    })
}
