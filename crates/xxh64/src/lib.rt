// XXH64 with seed 0, in the steps and names of the xxHash specification.
#![tactic(auto)]

ghost use Rattle.std.specs.Prelude.{◌≡◌, ◌+◌, ◌*◌, ◌%◌, ◌<◌, ◌≤◌, length, take};
ghost use Rattle.xxh64.specs.Xxh64.{mul, rotl, lane, taken, round, merge_accumulator, converge, consume8, consume4, consume1, consume, avalanche, xxh64};
ghost use Rattle.xxh64.specs.Parts.{fresh, pushed, finish, finished, hashing_of};

const PRIME1: u64 = 0x9E3779B185EBCA87;

const PRIME2: u64 = 0xC2B2AE3D27D4EB4F;

const PRIME3: u64 = 0x165667B19E3779F9;

const PRIME4: u64 = 0x85EBCA77C2B2AE63;

const PRIME5: u64 = 0x27D4EB2F165667C5;

fn rotl(x: u64, n: u32) -> u64
    requires { (0 < n) × (n < 64) }
    ensures { result ≡ rotl x n }
{
    (x << n) + (x >> (64 - n))
}

// The read is of a part that is as long as the lane, so that its test costs nothing.
fn lane(s: &[u8], at: usize, width: usize) -> u64
    requires { (width ≤ 8) × (at + width ≤ length s.now) }
    ensures { result ≡ lane s.now at width }
{
    endian::read_little(&s[at..at + width], 0, width).unwrap()
}

fn round(acc: u64, x: u64) -> u64
    ensures { result ≡ round acc x }
{
    rotl(acc.wrapping_add(x.wrapping_mul(PRIME2)), 31).wrapping_mul(PRIME1)
}

fn merge_accumulator(acc: u64, other: u64) -> u64
    ensures { result ≡ merge_accumulator acc other }
{
    (acc ^ round(0, other))
        .wrapping_mul(PRIME1)
        .wrapping_add(PRIME4)
}

// The state of steps 1 to 3.
#[derive(Clone, Copy)]
struct Accumulators {
    acc1: u64,
    acc2: u64,
    acc3: u64,
    acc4: u64,
}

fn fresh() -> Accumulators
    ensures { (result.acc1 ≡ fresh.acc1) × (result.acc2 ≡ fresh.acc2) × (result.acc3 ≡ fresh.acc3) × (result.acc4 ≡ fresh.acc4) }
{
    Accumulators {
        acc1: 0x60EA27EEADC0B5D6, // PRIME1 + PRIME2
        acc2: PRIME2,
        acc3: 0,
        acc4: 0x61C8864E7A143579, // 0 - PRIME1
    }
}

// The stripe of 32 bytes at a place, a lane to each accumulator.
fn stripe(from: Accumulators, s: &[u8], at: usize) -> Accumulators
    requires { at + 32 ≤ length s.now }
    ensures acc1_value { result.acc1 ≡ round from.acc1 (lane s.now at 8) }
    ensures acc2_value { result.acc2 ≡ round from.acc2 (lane s.now (8 + at) 8) }
    ensures acc3_value { result.acc3 ≡ round from.acc3 (lane s.now (16 + at) 8) }
    ensures acc4_value { result.acc4 ≡ round from.acc4 (lane s.now (24 + at) 8) }
{
    Accumulators {
        acc1: round(from.acc1, lane(s, at, 8)),
        acc2: round(from.acc2, lane(s, 8 + at, 8)),
        acc3: round(from.acc3, lane(s, 16 + at, 8)),
        acc4: round(from.acc4, lane(s, 24 + at, 8)),
    }
}

// The first n stripes of s.
fn stripes(from: Accumulators, s: &[u8], n: usize) -> Accumulators
    requires { 32 * n ≤ length s.now }
    ensures acc1_value { result.acc1 ≡ taken round 8 32 s.now 0 from.acc1 n }
    ensures acc2_value { result.acc2 ≡ taken round 8 32 s.now 8 from.acc2 n }
    ensures acc3_value { result.acc3 ≡ taken round 8 32 s.now 16 from.acc3 n }
    ensures acc4_value { result.acc4 ≡ taken round 8 32 s.now 24 from.acc4 n }
{
    let mut acc = from;
    for k in 0..n {
        acc = stripe(acc, s, 32 * k);
    }
    acc
}

fn converge(acc: Accumulators) -> u64
    ensures { result ≡ converge acc.acc1 acc.acc2 acc.acc3 acc.acc4 }
{
    let half = rotl(acc.acc1, 1).wrapping_add(rotl(acc.acc2, 7));
    let sum = half
        .wrapping_add(rotl(acc.acc3, 12))
        .wrapping_add(rotl(acc.acc4, 18));
    let merged = merge_accumulator(merge_accumulator(sum, acc.acc1), acc.acc2);
    merge_accumulator(merge_accumulator(merged, acc.acc3), acc.acc4)
}

fn consume8(acc: u64, x: u64) -> u64
    ensures { result ≡ consume8 acc x }
{
    rotl(acc ^ round(0, x), 27)
        .wrapping_mul(PRIME1)
        .wrapping_add(PRIME4)
}

fn consume4(acc: u64, x: u64) -> u64
    ensures { result ≡ consume4 acc x }
{
    rotl(acc ^ x.wrapping_mul(PRIME1), 23)
        .wrapping_mul(PRIME2)
        .wrapping_add(PRIME3)
}

fn consume1(acc: u64, x: u64) -> u64
    ensures { result ≡ consume1 acc x }
{
    rotl(acc ^ x.wrapping_mul(PRIME5), 11).wrapping_mul(PRIME1)
}

fn consume(width: usize, acc: u64, x: u64) -> u64
    ensures { result ≡ consume width acc x }
{
    if width == 8 {
        return consume8(acc, x);
    }
    if width == 4 {
        return consume4(acc, x);
    }
    consume1(acc, x)
}

// n lanes of width bytes, from at on, are taken into from.
fn remaining(s: &[u8], at: usize, width: usize, n: usize, from: u64) -> u64
    requires { (width ≤ 8) × (at + width * n ≤ length s.now) }
    ensures { result ≡ taken (consume width) width width s.now at from n }
{
    let mut acc = from;
    for k in 0..n {
        acc = consume(width, acc, lane(s, at + width * k, width));
    }
    acc
}

fn avalanche(acc: u64) -> u64
    ensures { result ≡ avalanche acc }
{
    let a = (acc ^ (acc >> 33)).wrapping_mul(PRIME2);
    let b = (a ^ (a >> 29)).wrapping_mul(PRIME3);
    b ^ (b >> 32)
}

// Steps 4 to 6, with the accumulator of step 3, the length of the whole input and what is left of it.
// That fewer than 32 bytes are left is said again by a remainder, so that LLVM lays the lanes out without a loop.
fn finish(acc: u64, total: u64, rest: &[u8]) -> u64
    requires { length rest.now < 32 }
    ensures { result ≡ finish acc total rest.now }
{
    let n = rest.len();
    let all = &rest[..n];
    let eights = remaining(all, 0, 8, n % 32 / 8, acc.wrapping_add(total));
    let fours = remaining(all, n / 8 * 8, 4, n % 8 / 4, eights);
    avalanche(remaining(all, n / 4 * 4, 1, n % 4, fours))
}

// A slice that is handed on whole goes through memory, in this function and in its caller; a part of it goes in registers.
pub fn xxh64(s: &[u8]) -> u64
    ensures { result ≡ xxh64 s.now }
{
    let n = s.len();
    let all = &s[..n];
    if n < 32 {
        return finish(PRIME5, n as u64, all);
    }
    let k = n / 32;
    let acc = converge(stripes(fresh(), all, k));
    finish(acc, n as u64, &s[32 * k..])
}

// ---- bytes that come in parts

// What is kept between the parts. The first count % 32 bytes of held are those of a stripe that is
// not whole yet; count is how many bytes were taken, modulo 2^64.
#[derive(Clone, Copy)]
pub struct State {
    pub acc1: u64,
    pub acc2: u64,
    pub acc3: u64,
    pub acc4: u64,
    pub held: [u8; 32],
    pub count: u64,
}

impl State {
    pub fn new() -> State
        ensures { hashing_of result ≡ fresh }
    {
        let acc = fresh();
        State {
            acc1: acc.acc1,
            acc2: acc.acc2,
            acc3: acc.acc3,
            acc4: acc.acc4,
            held: [0; 32],
            count: 0,
        }
    }

    fn accumulators(self) -> Accumulators
        ensures { (result.acc1 ≡ self.acc1) × (result.acc2 ≡ self.acc2) × (result.acc3 ≡ self.acc3) × (result.acc4 ≡ self.acc4) }
    {
        Accumulators {
            acc1: self.acc1,
            acc2: self.acc2,
            acc3: self.acc3,
            acc4: self.acc4,
        }
    }

    // Bytes that leave the stripe short.
    fn hold(self, s: &[u8]) -> State
        requires { self.count % 32 + length s.now < 32 }
        ensures { hashing_of result ≡ pushed (hashing_of self) s.now }
    {
        let at = (self.count % 32) as usize;
        let mut held = self.held;
        let _ = slices::write_bytes(&mut held, at, s);
        State {
            held,
            count: self.count.wrapping_add(s.len() as u64),
            ..self
        }
    }

    // Bytes that make it whole.
    fn fill(self, s: &[u8]) -> State
        requires { self.count % 32 + length s.now ≡ 32 }
        ensures { hashing_of result ≡ pushed (hashing_of self) s.now }
    {
        let at = (self.count % 32) as usize;
        let mut held = self.held;
        let _ = slices::write_bytes(&mut held, at, s);
        // Not by `stripe`: LLVM would no longer inline it in the loop of `stripes`.
        let acc = stripes(self.accumulators(), &held, 1);
        State {
            acc1: acc.acc1,
            acc2: acc.acc2,
            acc3: acc.acc3,
            acc4: acc.acc4,
            held,
            count: self.count.wrapping_add(s.len() as u64),
        }
    }

    // The first n stripes of s, where none is begun.
    fn take_stripes(self, s: &[u8], n: usize) -> State
        requires { (self.count % 32 ≡ 0) × (32 * n ≤ length s.now) }
        ensures { hashing_of result ≡ pushed (hashing_of self) (take (32 * n) s.now) }
    {
        let acc = stripes(self.accumulators(), s, n);
        State {
            acc1: acc.acc1,
            acc2: acc.acc2,
            acc3: acc.acc3,
            acc4: acc.acc4,
            count: self.count.wrapping_add((32 * n) as u64),
            ..self
        }
    }

    pub fn update(self, s: &[u8]) -> State
        ensures { hashing_of result ≡ pushed (hashing_of self) s.now }
    {
        let left = 32 - (self.count % 32) as usize;
        if s.len() < left {
            return self.hold(s);
        }
        let whole = self.fill(&s[..left]);
        let rest = &s[left..];
        let n = rest.len() / 32;
        let striped = whole.take_stripes(rest, n);
        striped.hold(&rest[32 * n..])
    }

    pub fn finish(self) -> u64
        ensures { result ≡ finished (hashing_of self) }
    {
        let n = (self.count % 32) as usize;
        let held = self.held;
        if self.count < 32 {
            return finish(PRIME5, self.count, &held[..n]);
        }
        finish(converge(self.accumulators()), self.count, &held[..n])
    }
}
