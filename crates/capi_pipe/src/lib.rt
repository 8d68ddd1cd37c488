// For C, Rust and Python: a pack that comes in parts. The state between calls stands in lent words.
#![tactic(auto)]

mod state;

ghost use Rattle.std.specs.Prelude.{◌≡◌, cond, ◌≤◌, leb, length};
ghost use Rattle.slices.specs.Overwriting.{written_bytes};
ghost use Rattle.pipe.specs.States.{progress_of};
ghost use Rattle.pipe.specs.Taking.{going, at_start};
ghost use Rattle.words.specs.Words.{answer};
ghost use Rattle.capi_pipe.specs.Answers.{take_from, end_from, Leaves, has_room, room_answer, take_answer, TakeLeaves, take_told, end_answer, EndLeaves};

use pipe::{Event, State};

// A fresh state. 19: fewer than 19 words.
#[unsafe(no_mangle)]
pub extern "C" fn vof_pipe_start(state: &mut [u64]) -> u64
    ensures answer { result ≡ cond (leb 19 (length state.old)) (answer 0 0) (answer 19 0) }
    ensures state { Leaves (leb 19 (length state.old)) (going at_start) state.old state.new }
{
    if state.len() < 19 {
        return words::answer(19, 0);
    }
    state::write_state(state, pipe::fresh());
    words::answer(0, 0)
}

// Six words, and with them the next state, where there is room for the words.
fn tell(state: &mut [u64], next: State, told: &mut [u64], row: [u64; 6]) -> u64
    requires { 19 ≤ length state.old }
    ensures answer { result ≡ room_answer (length told.old) }
    ensures state { Leaves (has_room (length told.old)) (progress_of next) state.old state.new }
    ensures told { told.new ≡ written_bytes told.old 0 row }
{
    if !words::store(told, 0, &row) {
        return words::answer(19, 0);
    }
    state::write_state(state, next);
    words::answer(0, 0)
}

// A part is taken, up to the byte that completes a record: bytes taken; 0 more is wanted, 1 a record is
// complete, 2 the pack has ended; and of that record its start, tag, length and hash. The word is a
// refusal's place. 20: the words say no state. 19, after a refusal: fewer than six words to be told.
#[unsafe(no_mangle)]
pub extern "C" fn vof_pipe_take(state: &mut [u64], part: &[u8], told: &mut [u64]) -> u64
    ensures answer { result ≡ take_answer (take_from state.old part.now) (length told.old) }
    ensures state { TakeLeaves (take_from state.old part.now) (length told.old)
        state.old state.new }
    ensures told { told.new ≡ take_told (take_from state.old part.now) told.old }
{
    let found = state::read_state(state);
    let taken = pipe::take(found, part);
    let event = taken.event;
    let next = taken.state;
    let bytes = taken.taken as u64;
    match event {
        Event::Malformed => words::answer(20, 0),
        Event::Refusal(n, place) => {
            state::write_state(state, next);
            words::answer(n, place)
        }
        Event::Wanted => tell(state, next, told, [bytes, 0, 0, 0, 0, 0]),
        Event::Complete(e) => {
            let row = [bytes, 1, e.start as u64, e.tag as u64, e.length, e.hash];
            tell(state, next, told, row)
        }
        Event::Over(_) => tell(state, next, told, [bytes, 2, 0, 0, 0, 0]),
    }
}

// The end is announced. The word is a refusal's place, or else the number of records. 20: the words
// say no state.
#[unsafe(no_mangle)]
pub extern "C" fn vof_pipe_end(state: &mut [u64]) -> u64
    ensures answer { result ≡ end_answer (end_from state.old) }
    ensures state { EndLeaves (end_from state.old) state.old state.new }
{
    let ended = pipe::end(state::read_state(state));
    let event = ended.event;
    match event {
        Event::Refusal(n, at) => {
            state::write_state(state, ended.state);
            words::answer(n, at)
        }
        Event::Over(records) => {
            state::write_state(state, ended.state);
            words::answer(0, records)
        }
        Event::Malformed => words::answer(20, 0),
        // No end wants more, or completes a record.
        Event::Wanted => words::answer(20, 0),
        Event::Complete(_) => words::answer(20, 0),
    }
}
