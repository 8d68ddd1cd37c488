// What the programs read and print with: standard input read whole, and numbers and refusals as text in a
// buffer.
#![tactic(auto)]

ghost use Rattle.console.specs.Put.{PutWithRoom, Next};
ghost use Rattle.console.specs.Text.{decimal, refusal_line, refusal_alone};
ghost use Rattle.std.specs.Prelude.{◌≡◌, ◌≤◌, length, IfOk};
ghost use Rattle.std.specs.Io.{ReadsAtMost};
ghost use Rattle.std.specs.Int.{w64, from_be_bytes};
ghost use Rattle.console.specs.declared.Unread.TheVariants.{Failed};

use std::io::{Input, Read as _};

// ---- text in a buffer

// Each of the functions below writes at a place of a buffer, and answers the place after what it wrote. Where
// there is no room it writes nothing, and answers the place.
pub fn put(out: &mut [u8], at: usize, text: &[u8]) -> usize
    ensures { Next out.old at text.now out.new result }
{
    if slices::write_bytes(out, at, text) {
        at + text.len()
    } else {
        at
    }
}

pub fn put_decimal(out: &mut [u8], at: usize, n: u64) -> usize
    ensures { Next out.old at (decimal n) out.new result }
{
    let mut digits = [0u8; 20];
    let k = io::decimal(n, &mut digits);
    put(out, at, &digits[..k])
}

// The line has at most 53 bytes, and that is the room it is given.
pub fn put_refusal(out: &mut [u8], number: u8, place: usize) -> usize
    ensures { PutWithRoom 53 out.old 0 (refusal_line number place) out.new result }
{
    if out.len() < 53 {
        return 0;
    }
    let word = put(out, 0, b"refused ");
    let after = put_decimal(out, word, number as u64);
    let between = put(out, after, b" at ");
    let end = put_decimal(out, between, place as u64);
    put(out, end, b"\n")
}

// The same for a refusal that has no place; at most 29 bytes.
pub fn put_refusal_alone(out: &mut [u8], number: u8) -> usize
    ensures { PutWithRoom 29 out.old 0 (refusal_alone number) out.new result }
{
    if out.len() < 29 {
        return 0;
    }
    let word = put(out, 0, b"refused ");
    let after = put_decimal(out, word, number as u64);
    put(out, after, b"\n")
}

// ---- standard input

// Reads once: what there is by now, as far as the buffer holds it; nothing where the input has ended.
pub fn read_part(rt: &impl Input, buffer: &mut [u8]) -> std::io::Result<usize>
    ensures { ReadsAtMost result buffer.new }
{
    rt.reader().read(buffer)
}

// Reads until the buffer is full or the input ends: a read may give fewer bytes than there are.
fn fill(rt: &impl Input, buffer: &mut [u8]) -> std::io::Result<usize>
    ensures { IfOk result (λ n. n ≤ length buffer.new) }
{
    let mut n = 0;
    while n < buffer.len() {
        let more = read_part(rt, &mut buffer[n..])?;
        if more == 0 {
            break;
        }
        n += more;
    }
    Ok(n)
}

// Why standard input was not read whole.
#[derive(Clone, Copy)]
pub enum Unread {
    // There is more than the buffer holds.
    TooLong,
    Failed,
}

impl From<std::io::Error> for Unread {
    ghost from_gives = { λ _ u. u ≡ Failed };

    fn from(_e: std::io::Error) -> Unread {
        Unread::Failed
    }
}

// Reads all of standard input, where it is no longer than the buffer, and answers how many bytes it has.
pub fn read_input(rt: &impl Input, buffer: &mut [u8]) -> Result<usize, Unread>
    ensures { IfOk result (λ n. n ≤ length buffer.new) }
{
    let n = fill(rt, buffer)?;
    let mut next = [0u8; 1];
    if fill(rt, &mut next)? == 0 {
        Ok(n)
    } else {
        Err(Unread::TooLong)
    }
}

// ---- numbers and fields of standard input, for programs that run vectors

// Reads the next 8 bytes, and answers the number that they are. Where the input ends before, the bytes that
// it lacks stay as they were lent.
pub fn read_number(rt: &impl Input, bytes: &mut [u8; 8]) -> usize
    ensures { result ≡ from_be_bytes w64 bytes.new }
{
    let _ = rt.reader().read_exact(bytes);
    usize::from_be_bytes(*bytes)
}

// Reads a field, which is bytes with their number before them, to the front of a buffer, if it holds it,
// and answers the field's length.
pub fn read_field(rt: &impl Input, buffer: &mut [u8]) -> usize
    ensures { result ≤ length buffer.new }
{
    let n = read_number(rt, &mut [0; 8]);
    if buffer.len() < n {
        return 0;
    }
    let _ = rt.reader().read_exact(&mut buffer[..n]);
    n
}
