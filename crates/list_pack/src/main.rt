// Lists a pack that it reads from standard input.
#![tactic(auto)]

ghost use Rattle.std.specs.Prelude.{◌≡◌, ◌≤◌, length, take};
ghost use Rattle.refusals.specs.Limit.{pack_limit};
ghost use Rattle.pack.specs.Reading.{reading};
ghost use Rattle.console.specs.Put.{Put};
ghost use Rattle.entry_lines.specs.Text.{lines};
ghost use Rattle.list_pack.specs.Text.{text};
ghost use Rattle.list_pack.specs.Listing.{no_entries};

use console::{Unread, put_refusal};
use entry_lines::{put_count, put_line};
use pack::{Entry, ScanFault};

fn no_entries() -> [Entry; 2048]
    ensures { result ≡ no_entries }
{
    [Entry {
        start: 0,
        tag: 0,
        length: 0,
        hash: 0,
    }; 2048]
}

// A line an entry.
fn put_lines(out: &mut [u8], entries: &[Entry]) -> usize
    requires { (length entries.now ≤ 2048) × (131072 ≤ length out.old) }
    ensures { Put out.old 0 (lines entries.now) out.new result × (result ≤ 131072) }
{
    let mut at = 0;
    for e in entries {
        at = put_line(out, at, *e);
    }
    at
}

// The whole text. A pack of this length has at most 2,048 records, so that the list is never too
// short.
fn put_listing(out: &mut [u8], pack: &[u8]) -> usize
    requires { (length pack.now ≤ 65536) × (133120 ≤ length out.old) }
    ensures { Put out.old 0 (text (reading pack_limit pack.now)) out.new result × (result ≤ 133120) }
{
    let mut entries = no_entries();
    match pack::scan(pack, &mut entries) {
        Ok(n) => {
            let at = put_lines(out, &entries[..n]);
            put_count(out, at, n)
        }
        Err(ScanFault::Pack(f)) => put_refusal(out, u8::from(f), f.place()),
        Err(ScanFault::NoRoom) => 0,
    }
}

// ---- the program

fn show(rt: &impl Print, pack: &[u8])
    requires { length pack.now ≤ 65536 }
{
    let mut out = [0u8; 133120];
    let n = put_listing(&mut out, pack);
    let _ = rt.write_all(&out[..n]);
}

fn show_too_long(rt: &impl Print) {
    let mut out = [0u8; 64];
    let n = put_refusal(&mut out, 1, 0);
    let _ = rt.write_all(&out[..n]);
}

fn show_failure(rt: &impl Eprint) {
    let _ = eprintln!(rt; "list_pack: standard input cannot be read");
}

fn main(rt: HostRuntime) {
    let mut buffer = [0u8; 65536];
    match console::read_input(&rt, &mut buffer) {
        Ok(n) => show(&rt, &buffer[..n]),
        Err(Unread::TooLong) => show_too_long(&rt),
        Err(Unread::Failed) => show_failure(&rt),
    }
}
