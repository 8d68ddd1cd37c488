// Lists a pack of any size as it comes from standard input: a line as each record completes, and at
// the end their number, or the refusal after the lines before it.
#![tactic(auto)]

ghost use Rattle.std.specs.Prelude.{◌≡◌, true, ◌≤◌, length};
ghost use Rattle.console.specs.Put.{Put};
ghost use Rattle.entry_lines.specs.Text.{lines};
ghost use Rattle.pipe.specs.Limit.{pipe_limit};
ghost use Rattle.pipe.specs.Taking.{close, fits};
ghost use Rattle.pipe.specs.States.{progress_of};
ghost use Rattle.pipe.specs.Sessions.{run};
ghost use Rattle.stream_pack.specs.Text.{verdict_line};

use console::put_refusal;
use entry_lines::{put_count, put_line};
use pipe::{Event, Phase, State};

// The state after a part, and where the lines of the records that it completes end.
#[derive(Drop)]
struct Listed {
    state: State,
    end: usize,
}

// A part of this length completes at most 2,048 records.
fn put_part(out: &mut [u8], state: State, part: &[u8]) -> Listed
    requires { (fits pipe_limit (progress_of state) ≡ true) × ((length part.now ≤ 65536) × (131072 ≤ length out.old)) }
    ensures put { Put out.old 0 (lines (run pipe_limit (progress_of state) part.now).told) out.new result.end }
    ensures state_value { progress_of result.state ≡ (run pipe_limit (progress_of state) part.now).after }
    ensures state_value_2 { (fits pipe_limit (progress_of result.state) ≡ true) × (result.end ≤ 131072) }
{
    let mut next = state;
    let mut at = 0;
    let mut end = 0;
    loop {
        let call = pipe::take(next, &part[at..]);
        next = call.state;
        let Event::Complete(e) = call.event else {
            return Listed { state: next, end };
        };
        end = put_line(out, end, e);
        at += call.taken;
    }
}

// The last line, once the end is announced, or at a refusal.
fn put_verdict(out: &mut [u8], state: State) -> usize
    requires { (fits pipe_limit (progress_of state) ≡ true) × (64 ≤ length out.old) }
    ensures { Put out.old 0 (verdict_line (close (progress_of state))) out.new result × (result ≤ 64) }
{
    match pipe::end(state).event {
        Event::Over(records) => put_count(out, 0, records),
        Event::Refusal(n, place) => put_refusal(out, n, place),
        Event::Wanted => 0,
        Event::Complete(_) => 0,
        Event::Malformed => 0,
    }
}

// ---- the program

fn show_part(rt: &impl Print, state: State, part: &[u8]) -> State
    requires { (fits pipe_limit (progress_of state) ≡ true) × (length part.now ≤ 65536) }
    ensures { fits pipe_limit (progress_of result) ≡ true }
{
    let mut out = [0u8; 131072];
    let listed = put_part(&mut out, state, part);
    let _ = rt.write_all(&out[..listed.end]);
    listed.state
}

fn show_verdict(rt: &impl Print, state: State)
    requires { fits pipe_limit (progress_of state) ≡ true }
{
    let mut out = [0u8; 64];
    let n = put_verdict(&mut out, state);
    let _ = rt.write_all(&out[..n]);
}

fn show_failure(rt: &impl Eprint) {
    let _ = eprintln!(rt; "stream_pack: standard input cannot be read");
}

// Each turn takes a byte at least, and the byte past the limit is refused, so that the turns do not
// run out.
fn stream(rt: &(impl Input + Print + Eprint), buffer: &mut [u8])
    requires { length buffer.old ≤ 65536 }
{
    let mut state = pipe::fresh();
    for _ in 0..pipe::LIMIT + 1 {
        let Ok(n) = console::read_part(rt, buffer) else {
            show_failure(rt);
            return;
        };
        if n == 0 {
            show_verdict(rt, state);
            return;
        }
        state = show_part(rt, state, &buffer[..n]);
        if matches!(state.phase, Phase::Refused(_, _)) {
            show_verdict(rt, state);
            return;
        }
    }
}

fn main(rt: HostRuntime) {
    let mut buffer = [0u8; 65536];
    stream(&rt, &mut buffer);
}
