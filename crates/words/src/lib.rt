// What every function for C answers with: a refusal and what goes with it in one word, and results
// that go to lent words.
#![tactic(auto)]

ghost use Rattle.std.specs.Prelude.{cond, ◌≡◌, ◌+◌, ◌%◌, ◌^◌, ◌≤◌, leb, length};
ghost use Rattle.slices.specs.Overwriting.{written_bytes};
ghost use Rattle.words.specs.Words.{answer, flag};

// A refusal's number, or 0, and with it a place or a count below 2^56; of a greater one the low 56
// bits.
pub fn answer(number: u8, word: usize) -> u64
    ensures { result ≡ answer number word % 2 ^ 64 }
{
    number as u64 + 256 * ((word as u64) % (1 << 56))
}

// A flag as a word.
pub fn flag(set: bool) -> u64
    ensures { result ≡ flag set }
{
    set as u64
}

// The words take the place of those from at on. Answers whether all fit; where they do not, nothing
// is written.
pub fn store(told: &mut [u64], at: usize, words: &[u64]) -> bool
    ensures value { result ≡ leb (at + length words.now) (length told.old) }
    ensures told_after { told.new ≡ written_bytes told.old at words.now }
{
    slices::write_bytes(told, at, words)
}

// The numbers go to the front of the lent words. 19: fewer words are lent, and nothing is written.
pub fn tell(told: &mut [u64], numbers: &[u64]) -> u64
    ensures answer { result ≡ cond (leb (length numbers.now) (length told.old)) (answer 0 0) (answer 19 0) }
    ensures told { told.new ≡ written_bytes told.old 0 numbers.now }
{
    if !store(told, 0, numbers) {
        return answer(19, 0);
    }
    answer(0, 0)
}
