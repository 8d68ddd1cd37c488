// The heads that begin MessagePack items, and unsigned integers, written in their shortest form.
#![tactic(auto)]

ghost use Rattle.std.specs.Prelude.{◌≡◌, ◌≤◌, ◌<◌, length};
ghost use Rattle.slices.specs.Overwriting.{written_bytes};
ghost use Rattle.msgpack_heads.specs.Heads.{form_read, form_bytes, sized_form, text_form, unsigned_form, container_form, text_head, binary_head, unsigned_integer, array_head, map_head, next_place};

// A first byte, and the width of the number after it.
#[derive(Clone, Copy)]
struct Form {
    first: u64,
    width: usize,
}

// The shortest of three forms with numbers of 1, 2 and 4 bytes, whose first bytes follow one another.
fn sized_form(first: u64, n: u64) -> Form
    requires { first < 254 }
    ensures { form_read result ≡ sized_form first n }
{
    if n < 256 {
        return Form { first, width: 1 };
    }
    if n < 65536 {
        return Form {
            first: first + 1,
            width: 2,
        };
    }
    Form {
        first: first + 2,
        width: 4,
    }
}

// The shortest form of a text of n bytes; below, of the integer n and of a container of n.
fn text_form(n: u64) -> Form
    ensures { form_read result ≡ text_form n }
{
    if n < 32 {
        return Form {
            first: 0xa0 + n,
            width: 0,
        };
    }
    sized_form(0xd9, n)
}

fn unsigned_form(n: u64) -> Form
    ensures { form_read result ≡ unsigned_form n }
{
    if n < 128 {
        return Form { first: n, width: 0 };
    }
    if n < 4294967296 {
        return sized_form(0xcc, n);
    }
    Form {
        first: 0xcf,
        width: 8,
    }
}

fn container_form(fixed: u64, sized: u64, n: u64) -> Form
    requires { (fixed < 240) × (sized < 255) }
    ensures { form_read result ≡ container_form fixed sized n }
{
    if n < 16 {
        return Form {
            first: fixed + n,
            width: 0,
        };
    }
    if n < 65536 {
        return Form {
            first: sized,
            width: 2,
        };
    }
    Form {
        first: sized + 1,
        width: 4,
    }
}

// Writes the first byte of a form and its number at a place. A write answers the place after what was
// written; none where it does not all lie within the buffer, and nothing was written.
fn put(out: &mut [u8], at: usize, f: Form, n: u64) -> Option<usize>
    requires { (f.first < 256) × (f.width ≤ 8) }
    ensures result_value { result ≡ next_place (length out.old) at (form_bytes (form_read f) n) }
    ensures out_after { out.new ≡ written_bytes out.old at (form_bytes (form_read f) n) }
{
    let first = f.first;
    let width = f.width;
    let size = 1 + width;
    if out.len() < size {
        return None;
    }
    if out.len() - size < at {
        return None;
    }
    let _ = endian::write_big(out, at, 1, first);
    let _ = endian::write_big(out, at + 1, width, n);
    Some(at + size)
}

// The head of a text of n bytes, at a place of out.
pub fn write_text_head(out: &mut [u8], at: usize, n: u32) -> Option<usize>
    ensures result_value { result ≡ next_place (length out.old) at (text_head n) }
    ensures out_after { out.new ≡ written_bytes out.old at (text_head n) }
{
    put(out, at, text_form(n as u64), n as u64)
}

// The head of n bytes.
pub fn write_binary_head(out: &mut [u8], at: usize, n: u32) -> Option<usize>
    ensures result_value { result ≡ next_place (length out.old) at (binary_head n) }
    ensures out_after { out.new ≡ written_bytes out.old at (binary_head n) }
{
    put(out, at, sized_form(0xc4, n as u64), n as u64)
}

// The integer n, in the shortest of the unsigned forms.
pub fn write_unsigned(out: &mut [u8], at: usize, n: u64) -> Option<usize>
    ensures result_value { result ≡ next_place (length out.old) at (unsigned_integer n) }
    ensures out_after { out.new ≡ written_bytes out.old at (unsigned_integer n) }
{
    put(out, at, unsigned_form(n), n)
}

// The head of an array of n items.
pub fn write_array_head(out: &mut [u8], at: usize, n: u32) -> Option<usize>
    ensures result_value { result ≡ next_place (length out.old) at (array_head n) }
    ensures out_after { out.new ≡ written_bytes out.old at (array_head n) }
{
    put(out, at, container_form(0x90, 0xdc, n as u64), n as u64)
}

// The head of a map of n pairs.
pub fn write_map_head(out: &mut [u8], at: usize, n: u32) -> Option<usize>
    ensures result_value { result ≡ next_place (length out.old) at (map_head n) }
    ensures out_after { out.new ≡ written_bytes out.old at (map_head n) }
{
    put(out, at, container_form(0x80, 0xde, n as u64), n as u64)
}
