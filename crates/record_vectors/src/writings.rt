// The kinds of vectors that write. The vector's bytes are what is handed in.
ghost use Rattle.std.specs.Prelude.{◌≡◌, length};

use crate::names::read_identifier;
use crate::readings;
use crate::show::{say_number, say_refusal};
use console::{read_field, read_number};
use refusals::Unwritten;

// Which record is written: a delete of texts, or of an identifier.
#[derive(Clone, Copy)]
pub(crate) enum Writing {
    Block,
    Version,
    Delete,
    PackList,
    DeleteOf,
}

fn write(
    rt: &impl Input,
    writing: Writing,
    out: &mut [u8],
    used: usize,
    s: &[u8],
) -> Result<usize, Unwritten> {
    match writing {
        Writing::Block => writer::write_block(out, used, read_identifier(rt), s),
        Writing::Version => writer::write_version(out, used, s),
        Writing::Delete => writer::write_delete(out, used, s),
        Writing::PackList => writer::write_pack_list(out, used, s),
        Writing::DeleteOf => writer::write_delete_of(out, used, read_identifier(rt), s),
    }
}

// The count, and what the record reads as in the pack of that length; and the hash of the whole buffer.
fn say_written(rt: &impl Print, buffer: &[u8], used: usize, written: Result<usize, Unwritten>) {
    match written {
        Ok(n) => {
            say_number(rt, 'n', n);
            readings::at_place(rt, slices::front(buffer, n), used);
        }
        Err(u) => say_refusal(rt, u8::from(u)),
    }
    let hash = xxh64::xxh64(buffer);
    let _ = print!(rt; " buffer {hash:016x}");
}

// Lends the front of the buffer.
fn write_to(rt: &(impl Input + Print), writing: Writing, buffer: &mut [u8], s: &[u8]) {
    let room = read_number(rt, &mut [0; 8]);
    let used = read_number(rt, &mut [0; 8]);
    if room <= buffer.len() {
        let written = write(rt, writing, &mut buffer[..room], used, s);
        say_written(rt, buffer, used, written);
    }
}

// Longer than a large buffer, for records whose content alone has 65,536 bytes. In a function of its
// own, so that no other proof sees through it.
fn output() -> [u8; 70000]
    ensures { 70000 ≡ length result }
{
    [0xa5; 70000]
}

// Behind the bytes follow the pack so far, how much of the buffer is lent, the count so far, and the
// identifier of the kinds that take one.
pub(crate) fn run(rt: &(impl Input + Print), writing: Writing, s: &[u8]) {
    let mut buffer = output();
    read_field(rt, &mut buffer);
    write_to(rt, writing, &mut buffer, s);
}
