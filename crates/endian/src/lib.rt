// Numbers as bytes, big- and little-endian, of up to 8 bytes at a place of a slice.
#![tactic(auto)]

ghost use Rattle.std.specs.Prelude.{◌≡◌, ◌+◌, ◌≤◌, ◌<◌, length, get_or, take, drop};
ghost use Rattle.slices.specs.Overwriting.{overwritten};
ghost use Rattle.endian.specs.Numbers.{little, big, big_bytes};
ghost use Rattle.endian.specs.Places.{holds, number_at, written_at};

// Whether a number of width bytes can stand at a place of a slice of len bytes.
fn holds(len: usize, at: usize, width: usize) -> bool
    ensures { result ≡ holds len at width }
{
    width <= 8 && slices::lies(len, at, width)
}

fn byte(s: &[u8], i: usize) -> u64
    requires { i < length s.now }
    ensures { (result ≡ get_or s.now i 0) × (result < 256) }
{
    s[i] as u64
}

// The number of the width bytes from at on, most significant first.
fn big(s: &[u8], at: usize, width: usize) -> u64
    requires { (width ≤ 8) × (at + width ≤ length s.now) }
    ensures { result ≡ big (take width (drop at s.now)) }
{
    let mut n = 0;
    for i in 0..width {
        n = n * 256 + byte(s, at + i);
    }
    n
}

// The same, least significant first. A sum of shifted bytes, since LLVM makes one load of it where
// the width is known.
fn little(s: &[u8], at: usize, width: usize) -> u64
    requires { (width ≤ 8) × (at + width ≤ length s.now) }
    ensures { result ≡ little (take width (drop at s.now)) }
{
    let mut n = 0;
    for i in 0..width {
        n += byte(s, at + i) << (8 * i);
    }
    n
}

// None: no number of that width stands there, since the slice ends before it or the width is above 8.
pub fn read_big(s: &[u8], at: usize, width: usize) -> Option<u64>
    ensures { result ≡ number_at big s.now at width }
{
    if holds(s.len(), at, width) {
        Some(big(s, at, width))
    } else {
        None
    }
}

pub fn read_little(s: &[u8], at: usize, width: usize) -> Option<u64>
    ensures { result ≡ number_at little s.now at width }
{
    if holds(s.len(), at, width) {
        Some(little(s, at, width))
    } else {
        None
    }
}

// The width bytes of n take the place of those from at on, most significant first.
fn place(out: &mut [u8], at: usize, width: usize, n: u64)
    requires { at + width ≤ length out.old }
    ensures { out.new ≡ overwritten out.old at (big_bytes width n) }
{
    let mut rest = n;
    for left in (0..width).rev() {
        out[at + left] = (rest % 256) as u8;
        rest /= 256;
    }
}

// Answers whether the number was written; where it was not, nothing was. Of a number that width
// bytes do not hold, the low ones are written.
pub fn write_big(out: &mut [u8], at: usize, width: usize, n: u64) -> bool
    ensures value { result ≡ holds (length out.old) at width }
    ensures out_after { out.new ≡ written_at out.old at width n }
{
    if holds(out.len(), at, width) {
        place(out, at, width, n);
        true
    } else {
        false
    }
}
