// Identifiers: ULID, bucket and object, as texts in lent slices, as one composite text, and held by
// value. The work is done on slices; the struct is for holding an identifier past its text.
#![tactic(auto)]

ghost use Rattle.std.specs.Prelude.{◌≡◌, ◌==◌, ◌&&◌, leb, length, position};
ghost use Rattle.std.specs.List.{list_all};
ghost use Rattle.identifier.specs.Texts.{before, less};
ghost use Rattle.identifier.specs.Ulid.{is_character, is_ulid};
ghost use Rattle.identifier.specs.Identity.{slash, sized, is_bucket, is_object, identity, is_valid};
ghost use Rattle.identifier.specs.Composite.{slash_in};

fn is_between(x: u8, first: u8, last: u8) -> bool
    ensures { result ≡ (leb first x && leb x last) }
{
    (first..=last).contains(&x)
}

// The digits, and the capitals without I, L, O and U.
fn is_character(x: u8) -> bool
    ensures { result ≡ is_character x }
{
    is_between(x, b'0', b'9')
        | is_between(x, b'A', b'H')
        | is_between(x, b'J', b'K')
        | is_between(x, b'M', b'N')
        | is_between(x, b'P', b'T')
        | is_between(x, b'V', b'Z')
}

fn are_characters(s: &[u8]) -> bool
    ensures { result ≡ list_all is_character s.now }
{
    s.iter().all(|&x| is_character(x))
}

// Characters, of which the first is at most `7`: 26 hold 130 bits, and a ULID has 128.
pub fn is_ulid(s: &[u8]) -> bool
    ensures { result ≡ is_ulid s.now }
{
    s.len() == 26 && are_characters(s) && s[0] <= b'7'
}

fn find_slash(s: &[u8]) -> Option<usize>
    ensures { result ≡ position (λ x. x == slash) s.now }
{
    s.iter().position(|&x| x == b'/')
}

// How many bytes stand before the first slash: all of them where there is none.
pub fn count_before_slash(s: &[u8]) -> usize
    ensures { result ≡ length (before slash s.now) }
{
    find_slash(s).unwrap_or(s.len())
}

// Whether the text has from 1 to so many bytes.
fn is_sized(s: &[u8], most: usize) -> bool
    ensures { result ≡ sized most s.now }
{
    (1 <= s.len()) & (s.len() <= most)
}

pub fn is_bucket(s: &[u8]) -> bool
    ensures { result ≡ is_bucket s.now }
{
    is_sized(s, 63) && !s.contains(&b'/')
}

pub fn is_object(s: &[u8]) -> bool
    ensures { result ≡ is_object s.now }
{
    is_sized(s, 1024)
}

// Whether the three keep the rules.
pub fn is_identifier(ulid: &[u8], bucket: &[u8], object: &[u8]) -> bool
    ensures { result ≡ is_valid (identity ulid.now bucket.now object.now) }
{
    is_ulid(ulid) && is_bucket(bucket) && is_object(object)
}

// Where the slash between bucket and object stands in a composite text: the ULID is its first 26 bytes,
// the bucket stands from byte 27 to the slash, the object after it.
pub fn split_composite(text: &[u8]) -> Option<usize>
    ensures { result ≡ slash_in text.now }
{
    if text.len() < 27 || text[26] != b':' {
        return None;
    }
    let slash = 27 + count_before_slash(&text[27..]);
    if text.len() <= slash {
        return None;
    }
    let from = slash + 1;
    if is_identifier(&text[0..26], &text[27..slash], &text[from..]) {
        Some(slash)
    } else {
        None
    }
}

// Whether the first is less, compared as bytes: the order of ULIDs.
pub fn less_bytes(a: &[u8], b: &[u8]) -> bool
    ensures { result ≡ less a.now b.now }
{
    a < b
}
