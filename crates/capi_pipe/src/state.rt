// The state of a pipe in lent words, read and written.
ghost use Rattle.std.specs.Prelude.{◌≡◌, ◌+◌, ◌≤◌, ◌<◌, length, get_or, take, drop};
ghost use Rattle.endian.specs.Numbers.{big};
ghost use Rattle.pipe.specs.States.{progress_of};
ghost use Rattle.capi_pipe.specs.Bytes.{unpacked};
ghost use Rattle.capi_pipe.specs.State.{bytes_in, phase_in, state_in, Says, phase_words};

use pipe::{Phase, State};

// "VOF PIPE"
const MARK: u64 = 0x564F462050495045;

// ---- read

// A word, or 0 past the end.
fn word(words: &[u64], i: usize) -> u64
    ensures { result ≡ get_or words.now i 0 }
{
    words.get(i).copied().unwrap_or(0)
}

// The 32 bytes of the four words from at on.
fn bytes_in(words: &[u64], at: usize) -> [u8; 32]
    requires { at ≤ 15 }
    ensures { result ≡ bytes_in words.now at }
{
    let mut bytes = [0u8; 32];
    endian::write_big(&mut bytes, 0, 8, word(words, at));
    endian::write_big(&mut bytes, 8, 8, word(words, at + 1));
    endian::write_big(&mut bytes, 16, 8, word(words, at + 2));
    endian::write_big(&mut bytes, 24, 8, word(words, at + 3));
    bytes
}

// None where the words say no state.
#[tactic(auto, unfolding(crate::specs::State::phase_in))]
fn phase_in(words: &[u64]) -> Option<Phase>
    ensures { result ≡ phase_in words.now }
{
    if words.len() < 19 {
        return None;
    }
    if words[0] != MARK {
        return None;
    }
    match words[1] {
        0 => Some(Phase::Header),
        1 => Some(Phase::Value),
        3 => Some(Phase::Ended),
        2 if words[4] < 256 => Some(Phase::Refused(words[4] as u8, words[2] as usize)),
        _ => None,
    }
}

// Where words say no state, its phase is a refusal of number 0, which is malformed.
pub(crate) fn read_state(words: &[u64]) -> State
    ensures { result ≡ state_in words.now }
{
    let hash = xxh64::State {
        acc1: word(words, 6),
        acc2: word(words, 7),
        acc3: word(words, 8),
        acc4: word(words, 9),
        held: bytes_in(words, 15),
        count: word(words, 10),
    };
    State {
        phase: phase_in(words).unwrap_or(Phase::Refused(0, 0)),
        start: word(words, 2) as usize,
        records: word(words, 3) as usize,
        header: bytes_in(words, 11),
        held: word(words, 5) as usize,
        hash,
    }
}

// ---- written

// What a phase is in words: which, where the record starts, or a refusal's place, and a refusal's
// number.
#[derive(Clone, Copy)]
struct PhaseWords {
    phase: u64,
    start: u64,
    number: u64,
}

fn phase_words(phase: Phase, start: usize) -> PhaseWords
    ensures value { result ≡ phase_words phase start }
    ensures number_bound { result.number < 256 }
{
    match phase {
        Phase::Header => PhaseWords {
            phase: 0,
            start: start as u64,
            number: 0,
        },
        Phase::Value => PhaseWords {
            phase: 1,
            start: start as u64,
            number: 0,
        },
        Phase::Refused(n, place) => PhaseWords {
            phase: 2,
            start: place as u64,
            number: n as u64,
        },
        Phase::Ended => PhaseWords {
            phase: 3,
            start: start as u64,
            number: 0,
        },
    }
}

fn number(bytes: &[u8], at: usize) -> u64
    requires { at + 8 ≤ length bytes.now }
    ensures { result ≡ big (take 8 (drop at bytes.now)) }
{
    endian::read_big(bytes, at, 8).unwrap_or(0)
}

// The words that hold these bytes.
fn pack(bytes: &[u8]) -> [u64; 4]
    requires { length bytes.now ≡ 32 }
    ensures { (length result ≡ 4) × (unpacked result ≡ bytes.now) }
{
    [
        number(bytes, 0),
        number(bytes, 8),
        number(bytes, 16),
        number(bytes, 24),
    ]
}

pub(crate) fn write_state(words: &mut [u64], state: State)
    requires { 19 ≤ length words.old }
    ensures { Says (progress_of state) words.old words.new }
{
    let phase = phase_words(state.phase, state.start);
    let hash = state.hash;
    let scalars = [
        MARK,
        phase.phase,
        phase.start,
        state.records as u64,
        phase.number,
        state.held as u64,
        hash.acc1,
        hash.acc2,
        hash.acc3,
        hash.acc4,
        hash.count,
    ];
    let front = pack(&state.header);
    let back = pack(&hash.held);
    words::store(words, 0, &scalars);
    words::store(words, 11, &front);
    words::store(words, 15, &back);
}
