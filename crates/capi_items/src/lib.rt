// For C, Rust and Python: the MessagePack item at the front of bytes, with its form.
#![tactic(auto)]

ghost use Rattle.std.specs.Prelude.{◌≡◌, length};
ghost use Rattle.msgpack.specs.Formats.{kind_index};
ghost use Rattle.msgpack_forms.specs.Items.{item_at};
ghost use Rattle.capi_items.specs.Items.{kind_number, item_answer, item_told};

use msgpack::Kind;

// A kind by its number for C.
fn kind_number(kind: Kind) -> u64
    ensures { result ≡ kind_number (kind_index kind) }
{
    match kind {
        Kind::Unused | Kind::Nil => 0,
        Kind::Boolean => 1,
        Kind::Integer => 2,
        Kind::Float => 3,
        Kind::Text => 4,
        Kind::Binary => 5,
        Kind::Array => 6,
        Kind::Map => 7,
        Kind::Extension => 8,
    }
}

// Kind; length in bytes, with all that it holds; argument, by its magnitude; 1 for a negative integer;
// 1 where the item's own form is the short one. 9, 10; 19: fewer than five words.
#[unsafe(no_mangle)]
pub extern "C" fn vof_item(bytes: &[u8], out: &mut [u64]) -> u64
    ensures answer { result ≡ item_answer (item_at bytes.now) (length out.old) }
    ensures out { out.new ≡ item_told (item_at bytes.now) out.old }
{
    match msgpack_forms::read_item(bytes) {
        Ok(i) => {
            let kind = kind_number(i.kind);
            let negative = words::flag(i.negative);
            let short = words::flag(i.short);
            words::tell(out, &[kind, i.size as u64, i.argument, negative, short])
        }
        Err(f) => words::answer(u8::from(f), 0),
    }
}
