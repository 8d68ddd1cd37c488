// Identifiers: ULID, bucket and object, as texts in lent slices, as one composite text, and held by
// value. The work is done on slices; the struct is for holding an identifier past its text.
#![tactic(auto)]

ghost use Rattle.std.specs.Prelude.{Some, ◌≡◌, ◌+◌, ◌≤◌, length};
ghost use Rattle.slices.specs.Overwriting.{overwritten};
ghost use Rattle.identifier.specs.Identity.{slash, identity, identity_of};
ghost use Rattle.identifier.specs.Composite.{composite_text, identity_in};
ghost use Rattle.held_identifier.specs.Held.{named, texts_of, is_admitted, same, has_name, held, zeros, answered};
ghost use Rattle.held_identifier.specs.Writing.{outcome_of, outcome, left};

use refusals::Unwritten;

// The bytes past the two lengths play no part. A length above its array's is out of range: such a
// struct names nothing.
#[derive(Clone, Copy)]
pub struct Identifier {
    pub ulid: [u8; 26],
    pub bucket: [u8; 63],
    pub bucketlen: usize,
    pub object: [u8; 1024],
    pub objectlen: usize,
}

// The three texts of an identifier.
#[derive(Clone, Copy)]
struct Texts<'a> {
    ulid: &'a [u8],
    bucket: &'a [u8],
    object: &'a [u8],
}

impl Identifier {
    // The texts that it holds; none where a length is out of range.
    fn texts(&self) -> Option<Texts>
        ensures { texts_of result ≡ named self.now }
    {
        let n = self.bucketlen;
        let m = self.objectlen;
        if self.bucket.len() < n || self.object.len() < m {
            return None;
        }
        Some(Texts {
            ulid: &self.ulid,
            bucket: &self.bucket[..n],
            object: &self.object[..m],
        })
    }
}

// Copies the text over the bytes from a place on.
fn put(out: &mut [u8], at: usize, s: &[u8])
    requires { at + length s.now ≤ length out.old }
    ensures { out.new ≡ overwritten out.old at s.now }
{
    let _ = slices::write_bytes(out, at, s);
}

// A function of its own, so that no proof above it shows the zeros.
fn zeros() -> Identifier
    ensures { result ≡ zeros }
{
    let ulid = [0u8; 26];
    let bucket = [0u8; 63];
    let object = [0u8; 1024];
    Identifier {
        ulid,
        bucket,
        bucketlen: 0,
        object,
        objectlen: 0,
    }
}

impl<'a> Texts<'a> {
    fn hold(self) -> Identifier
        requires { (length self.ulid.now ≡ 26) × (length self.bucket.now ≤ 63) × (length self.object.now ≤ 1024) }
        ensures { result ≡ held (identity self.entry.ulid.now self.entry.bucket.now self.entry.object.now) }
    {
        let mut id = zeros();
        put(&mut id.ulid, 0, self.ulid);
        put(&mut id.bucket, 0, self.bucket);
        put(&mut id.object, 0, self.object);
        id.bucketlen = self.bucket.len();
        id.objectlen = self.object.len();
        id
    }

    // Puts the composite text over the bytes from a place on.
    fn put_composite(self, out: &mut [u8], at: usize)
        requires { (length self.ulid.now ≡ 26) × (at + (28 + length self.bucket.now + length self.object.now) ≤ length out.old) }
        ensures { out.new ≡ overwritten out.old at
            (composite_text (identity self.entry.ulid.now self.entry.bucket.now self.entry.object.now)) }
    {
        let colon = at + 26;
        let slash = at + 27 + self.bucket.len();
        put(out, at, self.ulid);
        out[colon] = b':';
        put(out, colon + 1, self.bucket);
        out[slash] = b'/';
        put(out, slash + 1, self.object);
    }
}

// The identifier that three texts make.
pub fn from_parts(ulid: &[u8], bucket: &[u8], object: &[u8]) -> Option<Identifier>
    ensures { result ≡ answered (identity_of ulid.now bucket.now object.now) }
{
    if identifier::is_identifier(ulid, bucket, object) {
        let texts = Texts {
            ulid,
            bucket,
            object,
        };
        Some(texts.hold())
    } else {
        None
    }
}

// The identifier that a composite text holds.
pub fn read_composite(text: &[u8]) -> Option<Identifier>
    ensures { result ≡ answered (identity_in text.now) }
{
    match identifier::split_composite(text) {
        Some(slash) => {
            let from = slash + 1;
            let parts = Texts {
                ulid: &text[..26],
                bucket: &text[27..slash],
                object: &text[from..],
            };
            Some(parts.hold())
        }
        None => None,
    }
}

// Whether the two name the same identifier. The arrays are lent and not copied.
pub fn same_identifier(a: Identifier, b: Identifier) -> bool
    ensures { result ≡ same (named a) (named b) }
{
    let Some(s) = a.texts() else {
        return false;
    };
    let Some(t) = b.texts() else {
        return false;
    };
    slices::same_bytes(s.ulid, t.ulid)
        && slices::same_bytes(s.bucket, t.bucket)
        && slices::same_bytes(s.object, t.object)
}

// Whether the identifier has this bucket and this object, whatever its ULID.
pub fn has_name(id: Identifier, bucket: &[u8], object: &[u8]) -> bool
    ensures { result ≡ has_name (named id) bucket.now object.now }
{
    let Some(held) = id.texts() else {
        return false;
    };
    slices::same_bytes(held.bucket, bucket) && slices::same_bytes(held.object, object)
}

// Whether the identifier keeps the rules, the range of its lengths included.
pub fn is_admitted(id: Identifier) -> bool
    ensures { result ≡ is_admitted (named id) }
{
    let Some(t) = id.texts() else {
        return false;
    };
    identifier::is_identifier(t.ulid, t.bucket, t.object)
}

// Writes the composite text of three texts, and answers how many bytes it has. Where it is not written,
// nothing is.
pub fn write_parts(
    out: &mut [u8],
    at: usize,
    ulid: &[u8],
    bucket: &[u8],
    object: &[u8],
) -> Result<usize, Unwritten>
    ensures answer { outcome_of result ≡ outcome (Some (identity ulid.now bucket.now object.now)) out.old at }
    ensures holds { out.new ≡ left (Some (identity ulid.now bucket.now object.now)) out.old at }
{
    if !identifier::is_identifier(ulid, bucket, object) {
        return Err(Unwritten::Inadmissible);
    }
    let n = 28 + bucket.len() + object.len();
    if out.len() < n || out.len() - n < at {
        return Err(Unwritten::NoRoom);
    }
    let texts = Texts {
        ulid,
        bucket,
        object,
    };
    texts.put_composite(out, at);
    Ok(n)
}

// The same of an identifier held by value.
pub fn write_composite(out: &mut [u8], at: usize, id: Identifier) -> Result<usize, Unwritten>
    ensures answer { outcome_of result ≡ outcome (named id) out.old at }
    ensures holds { out.new ≡ left (named id) out.old at }
{
    let Some(t) = id.texts() else {
        return Err(Unwritten::Inadmissible);
    };
    write_parts(out, at, t.ulid, t.bucket, t.object)
}
