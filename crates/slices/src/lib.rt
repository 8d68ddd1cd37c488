// Slices: a place, the part of a slice at a place, bytes compared, and bytes and words written at a
// place.
#![tactic(auto)]

ghost use Rattle.std.specs.Prelude.{◌≡◌, ◌+◌, ◌≤◌, leb, length, take, drop};
ghost use Rattle.slices.specs.Bytes.{same_bytes};
ghost use Rattle.slices.specs.Places.{part_at, address_at};
ghost use Rattle.slices.specs.Overwriting.{overwritten, written_bytes};

// Where something stands in a slice.
#[derive(Clone, Copy)]
pub struct Place {
    pub start: usize,
    pub len: usize,
}

// ---- parts

// The elements from a place on; past the end none, where the slice ends.
pub fn from(s: &[u8], at: usize) -> &[u8]
    ensures result_value { result.now ≡ drop at s.now }
    ensures address { result.ref_ptr ≡ address_at s.entry at }
{
    let end = s.len();
    if end <= at {
        return &s[end..end];
    }
    &s[at..]
}

// The first bytes, so many or all there are.
pub fn front(s: &[u8], n: usize) -> &[u8]
    ensures result_value { result.now ≡ take n s.now }
    ensures address { result.ref_ptr ≡ s.entry.ref_ptr }
{
    if s.len() <= n {
        return s;
    }
    &s[..n]
}

// The part at a place; of a place that is not inside, what is there.
pub fn part(s: &[u8], p: Place) -> &[u8]
    ensures result_value { result.now ≡ part_at s.now p }
    ensures address { result.ref_ptr ≡ address_at s.entry p.start }
{
    front(from(s, p.start), p.len)
}

// ---- compared

// Whether two slices have the same bytes.
pub fn same_bytes(a: &[u8], b: &[u8]) -> bool
    ensures { result ≡ same_bytes a.now b.now }
{
    a == b
}

// ---- written

// Whether so many elements, from at on, lie within len. Nothing is added before it is compared.
pub fn lies(len: usize, at: usize, count: usize) -> bool
    ensures { result ≡ leb (at + count) len }
{
    count <= len && at <= len - count
}

// Element by element: `copy_from_slice` would leave a call of memmove in the archive for C.
fn copy<T: Copy>(out: &mut [T], at: usize, text: &[T])
    requires { at + length text.now ≤ length out.old }
    ensures { out.new ≡ overwritten out.old at text.now }
{
    for i in 0..text.len() {
        out[at + i] = text[i];
    }
}

// Answers whether the elements were written; where they were not, nothing was.
pub fn write_bytes<T: Copy>(out: &mut [T], at: usize, text: &[T]) -> bool
    ensures value { result ≡ leb (at + length text.now) (length out.old) }
    ensures out_after { out.new ≡ written_bytes out.old at text.now }
{
    if lies(out.len(), at, text.len()) {
        copy(out, at, text);
        true
    } else {
        false
    }
}
