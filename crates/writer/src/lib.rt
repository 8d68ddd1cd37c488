// Records written, one a call, each directly after the pack so far at the front of a lent buffer
// (document 01, "Writing"); and a version's primary part alone. The lengths are computed and tested before
// the first byte is written; then comes the value, and then the header, which takes the value's hash in
// place.
#![tactic(auto)]

ghost use Rattle.std.specs.Prelude.{◌≡◌, true, ◌+◌, ◌≤◌, ◌<◌, length, take, drop};
ghost use mathlib.Core.List.{◌++◌, flatten};
ghost use Rattle.slices.specs.Overwriting.{overwritten};
ghost use Rattle.refusals.specs.Limit.{pack_limit};
ghost use Rattle.endian.specs.Numbers.{big_bytes};
ghost use Rattle.tlv.specs.Layout.{head, layout};
ghost use Rattle.msgpack_heads.specs.Heads.{text_head, binary_head, unsigned_integer, map_head};
ghost use Rattle.identifier.specs.Identity.{is_valid};
ghost use Rattle.identifier.specs.Ulid.{is_ulid};
ghost use Rattle.identifier.specs.Composite.{composite_text};
ghost use Rattle.held_identifier.specs.Held.{named};
ghost use Rattle.records.specs.Record.{block_tag, version_delete_tag};
ghost use Rattle.writer.specs.Values.{text_item, pair, primary_header, secondary_header, block_header, part_header, block_part, block_value, part_value, identity_pairs, version_part, delete_part};
ghost use Rattle.writer.specs.Putting.{Puts, told_place, field_bytes};
ghost use Rattle.writer.specs.Identifiers.{identity_by, TextsOf};
ghost use Rattle.writer.specs.Writing.{block, version, version_delete, pack_list, deletion, record_of, of_identity, answer_of, counted, Stores, written, buffer_after, version_part_of, part_written, part_after, StoresPart};

use held_identifier::Identifier;
use refusals::Unwritten;
use tlv::RecordHeader;

// The fixed bytes, in front of what varies: of a block's header, `{s: [{l`; the key `e`; of every other
// header, the map's head; of a block's primary part, `{I`; of a delete marker's, `d: true`.
const SECONDARY: [u8; 7] = [0x82, 0xa1, b's', 0x91, 0x81, 0xa1, b'l'];

const PRIMARY: [u8; 2] = [0xa1, b'e'];

const PART_HEADER: [u8; 1] = [0x81];

const BLOCK_PART: [u8; 3] = [0x81, 0xa1, b'I'];

const MARKER: [u8; 3] = [0xa1, b'd', 0xc3];

// The three texts of an identifier.
#[derive(Clone, Copy)]
struct Texts<'a> {
    ulid: &'a [u8],
    bucket: &'a [u8],
    object: &'a [u8],
}

// Those that an identifier holds, where it is admitted.
fn admitted_texts(id: &Identifier) -> Result<Texts, Unwritten>
    ensures { TextsOf (named id.now) result }
{
    if !held_identifier::is_admitted(*id) {
        return Err(Unwritten::Inadmissible);
    }
    let n = id.bucketlen;
    let m = id.objectlen;
    Ok(Texts {
        ulid: &id.ulid,
        bucket: &id.bucket[..n],
        object: &id.object[..m],
    })
}

// ---- lengths

// Of the head of n bytes; below, of the head of a text of n bytes, and of the integer n.
fn binary_head_size(n: usize) -> usize
    ensures { (result ≡ length (binary_head n)) × (result ≤ 5) }
{
    if n < 256 {
        return 2;
    }
    if n < 65536 {
        return 3;
    }
    5
}

fn text_head_size(n: usize) -> usize
    ensures { (result ≡ length (text_head n)) × (result ≤ 5) }
{
    if n < 32 {
        return 1;
    }
    binary_head_size(n)
}

fn unsigned_size(n: usize) -> usize
    requires { n ≤ pack_limit }
    ensures { (result ≡ length (unsigned_integer n)) × (result ≤ 5) }
{
    if n < 128 {
        return 1;
    }
    binary_head_size(n)
}

// Of a key and a text under it. No key has more than 3 bytes, and no text more than an object.
fn pair_size(key: &[u8], text: &[u8]) -> usize
    requires { (length key.now ≤ 3) × (length text.now ≤ 1024) }
    ensures { (result ≡ length (pair key.now text.now)) × (result ≤ 1037) }
{
    text_head_size(key.len()) + key.len() + (text_head_size(text.len()) + text.len())
}

fn block_part_size(texts: Texts) -> usize
    requires { is_valid (identity_by texts) ≡ true }
    ensures { (result ≡ length (block_part (identity_by texts.entry))) × (result ≤ pack_limit) }
{
    let text = 28 + texts.bucket.len() + texts.object.len();
    3 + (text_head_size(text) + text)
}

// Of the pairs of an identifier.
fn identity_size(texts: Texts) -> usize
    requires { is_valid (identity_by texts) ≡ true }
    ensures { (result ≡ length (flatten (identity_pairs (identity_by texts.entry))))
        × (result ≤ 3111) }
{
    let names = pair_size(&primary::BUCKET, texts.bucket)
        + pair_size(&primary::OBJECT, texts.object);
    names + pair_size(&primary::ULID, texts.ulid)
}

fn version_part_size(texts: Texts, marker: bool) -> usize
    requires { is_valid (identity_by texts) ≡ true }
    ensures { result ≡ length (version_part (identity_by texts.entry) marker) }
{
    let named = 1 + identity_size(texts);
    if marker {
        return named + 3;
    }
    named
}

fn delete_part_size(texts: Texts, deleteid: &[u8]) -> usize
    requires { (is_valid (identity_by texts) ≡ true) × (is_ulid deleteid.now ≡ true) }
    ensures { (result ≡ length (delete_part (identity_by texts.entry) deleteid.now))
        × (result ≤ pack_limit) }
{
    1 + identity_size(texts) + pair_size(&primary::DELETE_ID, deleteid)
}

// Of a block's value, from the lengths of its primary part and its data.
fn block_value_size(part: usize, n: usize) -> usize
    requires { (part ≤ pack_limit) × (n ≤ pack_limit) }
    ensures { result ≡ 7 + length (unsigned_integer n) + 2 + (length (binary_head part) + part) + n }
{
    7 + unsigned_size(n) + 2 + (binary_head_size(part) + part) + n
}

// Of any other value, from the length of its primary part.
fn part_value_size(part: usize) -> usize
    requires { part ≤ pack_limit }
    ensures { result ≡ 3 + (length (binary_head part) + part) }
{
    3 + (binary_head_size(part) + part)
}

// ---- bytes put at a place; each function returns the place after them

// The place that the writing of a head told. It is there, since the head has room.
fn place(next: Option<usize>) -> usize
    ensures { result ≡ told_place next }
{
    next.unwrap_or(0)
}

fn put(out: &mut [u8], at: usize, s: &[u8]) -> usize
    requires { at + length s.now ≤ length out.old }
    ensures { Puts out.old at s.now out.new result }
{
    let _ = slices::write_bytes(out, at, s);
    at + s.len()
}

fn put_text(out: &mut [u8], at: usize, s: &[u8]) -> usize
    requires { (length s.now ≤ pack_limit) × (at + length (text_item s.now) ≤ length out.old) }
    ensures { Puts out.old at (text_item s.now) out.new result }
{
    let start = place(msgpack_heads::write_text_head(out, at, s.len() as u32));
    put(out, start, s)
}

fn put_pair(out: &mut [u8], at: usize, key: &[u8], text: &[u8]) -> usize
    requires { (length key.now ≤ pack_limit) × (length text.now ≤ pack_limit) × (at + length (pair key.now text.now) ≤ length out.old) }
    ensures { Puts out.old at (pair key.now text.now) out.new result }
{
    let start = put_text(out, at, key);
    put_text(out, start, text)
}

fn put_composite(out: &mut [u8], at: usize, texts: Texts) -> usize
    requires { (is_valid (identity_by texts) ≡ true)
        × (at + length (text_item (composite_text (identity_by texts))) ≤ length out.old) }
    ensures { Puts out.old at
        (text_item (composite_text (identity_by texts.entry))) out.new result }
{
    let n = 28 + texts.bucket.len() + texts.object.len();
    let start = place(msgpack_heads::write_text_head(out, at, n as u32));
    let _ = held_identifier::write_parts(out, start, texts.ulid, texts.bucket, texts.object);
    start + n
}

fn put_block_part(out: &mut [u8], at: usize, texts: Texts) -> usize
    requires { (is_valid (identity_by texts) ≡ true)
        × (at + length (block_part (identity_by texts)) ≤ length out.old) }
    ensures { Puts out.old at (block_part (identity_by texts.entry)) out.new result }
{
    let start = put(out, at, &BLOCK_PART);
    put_composite(out, start, texts)
}

// The key `e`, up to a primary part of n bytes.
fn put_primary(out: &mut [u8], at: usize, n: usize) -> usize
    requires { (n ≤ pack_limit) × (at + length (primary_header n) ≤ length out.old) }
    ensures { Puts out.old at (primary_header n) out.new result }
{
    let head = put(out, at, &PRIMARY);
    place(msgpack_heads::write_binary_head(out, head, n as u32))
}

// A block's header, up to what stands under its key `s`.
fn put_secondary(out: &mut [u8], at: usize, l: usize) -> usize
    requires { at + length (map_head 2 ++ secondary_header l) ≤ length out.old }
    ensures { Puts out.old at (map_head 2 ++ secondary_header l) out.new result }
{
    let length = put(out, at, &SECONDARY);
    place(msgpack_heads::write_unsigned(out, length, l as u64))
}

fn put_block_header(out: &mut [u8], at: usize, l: usize, n: usize) -> usize
    requires { (n ≤ pack_limit) × (at + length (block_header l n) ≤ length out.old) }
    ensures { Puts out.old at (block_header l n) out.new result }
{
    let key = put_secondary(out, at, l);
    put_primary(out, key, n)
}

fn put_part_header(out: &mut [u8], at: usize, n: usize) -> usize
    requires { (n ≤ pack_limit) × (at + length (part_header n) ≤ length out.old) }
    ensures { Puts out.old at (part_header n) out.new result }
{
    let key = put(out, at, &PART_HEADER);
    put_primary(out, key, n)
}

// The value of a block whose primary part has so many bytes.
fn put_block_value(out: &mut [u8], at: usize, part: usize, texts: Texts, content: &[u8]) -> usize
    requires { (is_valid (identity_by texts) ≡ true)
        × (part ≡ length (block_part (identity_by texts))) × (part ≤ pack_limit)
        × (at + length (block_value (identity_by texts) content.now) ≤ length out.old) }
    ensures { Puts out.old at
        (block_value (identity_by texts.entry) content.now) out.new result }
{
    let start = put_block_header(out, at, content.len(), part);
    let end = put_block_part(out, start, texts);
    put(out, end, content)
}

fn put_part_value(out: &mut [u8], at: usize, part: &[u8]) -> usize
    requires { (length part.now ≤ pack_limit) × (at + length (part_value part.now) ≤ length out.old) }
    ensures { Puts out.old at (part_value part.now) out.new result }
{
    let start = put_part_header(out, at, part.len());
    put(out, start, part)
}

// The head of a map of so many pairs, and its first three: those of an identifier.
fn put_identity(out: &mut [u8], at: usize, pairs: u32, texts: Texts) -> usize
    requires { (is_valid (identity_by texts) ≡ true)
        × (at + length (map_head pairs ++ flatten (identity_pairs (identity_by texts))) ≤ length out.old) }
    ensures { Puts out.old at
        (map_head pairs ++ flatten (identity_pairs (identity_by texts.entry))) out.new result }
{
    let b = place(msgpack_heads::write_map_head(out, at, pairs));
    let o = put_pair(out, b, &primary::BUCKET, texts.bucket);
    let v = put_pair(out, o, &primary::OBJECT, texts.object);
    put_pair(out, v, &primary::ULID, texts.ulid)
}

fn put_version_part(out: &mut [u8], at: usize, texts: Texts, marker: bool) -> usize
    requires { (is_valid (identity_by texts) ≡ true)
        × (at + length (version_part (identity_by texts) marker) ≤ length out.old) }
    ensures { Puts out.old at
        (version_part (identity_by texts.entry) marker) out.new result }
{
    if !marker {
        return put_identity(out, at, 3, texts);
    }
    let key = put_identity(out, at, 4, texts);
    put(out, key, &MARKER)
}

fn put_delete_part(out: &mut [u8], at: usize, texts: Texts, deleteid: &[u8]) -> usize
    requires { (is_valid (identity_by texts) ≡ true) × (is_ulid deleteid.now ≡ true)
        × (at + length (delete_part (identity_by texts) deleteid.now) ≤ length out.old) }
    ensures { Puts out.old at
        (delete_part (identity_by texts.entry) deleteid.now) out.new result }
{
    let key = put_identity(out, at, 4, texts);
    put_pair(out, key, &primary::DELETE_ID, deleteid)
}

// The value of a made version delete whose primary part has so many bytes.
fn put_delete_value(out: &mut [u8], at: usize, part: usize, texts: Texts, deleteid: &[u8]) -> usize
    requires { (is_valid (identity_by texts) ≡ true) × (is_ulid deleteid.now ≡ true)
        × (part ≡ length (delete_part (identity_by texts) deleteid.now)) × (part ≤ pack_limit)
        × (at + length (part_value (delete_part (identity_by texts) deleteid.now)) ≤ length out.old) }
    ensures { Puts out.old at
        (part_value (delete_part (identity_by texts.entry) deleteid.now)) out.new result }
{
    let start = put_part_header(out, at, part);
    put_delete_part(out, start, texts, deleteid)
}

fn put_number(out: &mut [u8], at: usize, width: usize, n: u64) -> usize
    requires { (width ≤ 8) × (at + width ≤ length out.old) }
    ensures puts { Puts out.old at (big_bytes width n) out.new result }
    ensures value { result ≡ at + width }
{
    let _ = endian::write_big(out, at, width, n);
    at + width
}

// Bytes 0 to 29 of a record.
fn put_fields(out: &mut [u8], at: usize, h: RecordHeader) -> usize
    requires { at + 30 ≤ length out.old }
    ensures puts { Puts out.old at (field_bytes h) out.new result }
    ensures value { result ≡ at + 30 }
{
    let length = put_number(out, at, 8, RecordHeader::MAGIC);
    let hash = put_number(out, length, 8, h.length);
    let version = put_number(out, hash, 8, h.hash);
    let tag = put_number(out, version, 1, 0);
    let hash_type = put_number(out, tag, 2, h.tag as u64);
    let spare = put_number(out, hash_type, 1, 8);
    put_number(out, spare, 2, 0)
}

// The header of a record whose value, of so many bytes, stands already where it belongs.
fn put_header(out: &mut [u8], at: usize, tag: u16, value: usize)
    requires { at + (32 + value) ≤ length out.old }
    ensures { out.new ≡ overwritten out.old at (head (record_of tag (take value (drop (at + 32) out.old)))) }
{
    let start = at + RecordHeader::LENGTH;
    let end = start + value;
    let h = RecordHeader::make(tag, &out[start..end]);
    let hash = put_fields(out, at, h);
    let n = xxh64::xxh64(&out[at..hash]);
    // Two bytes hold the remainder by 65,536.
    let _ = put_number(out, hash, 2, n);
}

// ---- records that are admitted

// What a call answers for a value of so many bytes: how many the pack then has, or that nothing is
// written. Nothing is added before it is compared.
fn room(len: usize, used: usize, value: usize) -> Result<usize, Unwritten>
    ensures { answer_of result ≡ counted pack_limit len used (32 + value) }
{
    if RecordHeader::LIMIT - RecordHeader::LENGTH < value {
        return Err(Unwritten::Inadmissible);
    }
    let n = RecordHeader::LENGTH + value;
    if RecordHeader::LIMIT - n < used {
        return Err(Unwritten::Inadmissible);
    }
    let end = used + n;
    if len < end {
        return Err(Unwritten::NoRoom);
    }
    Ok(end)
}

fn store_block(
    buf: &mut [u8],
    used: usize,
    texts: Texts,
    content: &[u8],
) -> Result<usize, Unwritten>
    requires { is_valid (identity_by texts) ≡ true }
    ensures { Stores used (layout
        (record_of block_tag (block_value (identity_by texts.entry) content.now)))
        buf.old result buf.new }
{
    if RecordHeader::LIMIT < content.len() {
        return Err(Unwritten::Inadmissible);
    }
    let part = block_part_size(texts);
    let value = block_value_size(part, content.len());
    let end = room(buf.len(), used, value)?;
    let start = used + RecordHeader::LENGTH;
    let _ = put_block_value(buf, start, part, texts, content);
    put_header(buf, used, records::BLOCK, value);
    Ok(end)
}

fn store_part(buf: &mut [u8], used: usize, tag: u16, part: &[u8]) -> Result<usize, Unwritten>
    ensures { Stores used (layout (record_of tag (part_value part.now))) buf.old result buf.new }
{
    if RecordHeader::LIMIT < part.len() {
        return Err(Unwritten::Inadmissible);
    }
    let value = part_value_size(part.len());
    let end = room(buf.len(), used, value)?;
    let _ = put_part_value(buf, used + RecordHeader::LENGTH, part);
    put_header(buf, used, tag, value);
    Ok(end)
}

fn store_deletion(
    buf: &mut [u8],
    used: usize,
    texts: Texts,
    deleteid: &[u8],
) -> Result<usize, Unwritten>
    requires { (is_valid (identity_by texts) ≡ true) × (is_ulid deleteid.now ≡ true) }
    ensures { Stores used (layout
        (record_of version_delete_tag (part_value
        (delete_part (identity_by texts.entry) deleteid.now))))
        buf.old result buf.new }
{
    let part = delete_part_size(texts, deleteid);
    let value = part_value_size(part);
    let end = room(buf.len(), used, value)?;
    let start = used + RecordHeader::LENGTH;
    let _ = put_delete_value(buf, start, part, texts, deleteid);
    put_header(buf, used, records::VERSION_DELETE, value);
    Ok(end)
}

// A version's primary part, at the front of a buffer where it fits.
fn store_version_part(out: &mut [u8], texts: Texts, marker: bool) -> Result<usize, Unwritten>
    requires { is_valid (identity_by texts) ≡ true }
    ensures { StoresPart (version_part (identity_by texts.entry) marker)
        out.old result out.new }
{
    let n = version_part_size(texts, marker);
    if out.len() < n {
        return Err(Unwritten::NoRoom);
    }
    let _ = put_version_part(out, 0, texts, marker);
    Ok(n)
}

// ---- one record a call: how many bytes the pack now has, or why nothing was written

// A block.
pub fn write_block(
    buf: &mut [u8],
    used: usize,
    id: Identifier,
    content: &[u8],
) -> Result<usize, Unwritten>
    ensures answer { answer_of result ≡ written pack_limit (length buf.old) used (of_identity (λ i. block i content.now) (named id)) }
    ensures buffer { buf.new ≡ buffer_after pack_limit used (of_identity (λ i. block i content.now) (named id)) buf.old }
{
    let texts = admitted_texts(&id)?;
    store_block(buf, used, texts, content)
}

// A version, from its primary part.
pub fn write_version(buf: &mut [u8], used: usize, part: &[u8]) -> Result<usize, Unwritten>
    ensures answer { answer_of result ≡ written pack_limit (length buf.old) used (Some (version part.now)) }
    ensures buffer { buf.new ≡ buffer_after pack_limit used (Some (version part.now)) buf.old }
{
    primary::read_version(part).map_err(|_| Unwritten::Inadmissible)?;
    store_part(buf, used, records::VERSION, part)
}

// A version delete, from its primary part.
pub fn write_delete(buf: &mut [u8], used: usize, part: &[u8]) -> Result<usize, Unwritten>
    ensures answer { answer_of result ≡ written pack_limit (length buf.old) used (Some (version_delete part.now)) }
    ensures buffer { buf.new ≡ buffer_after pack_limit used (Some (version_delete part.now)) buf.old }
{
    primary::read_delete(part).map_err(|_| Unwritten::Inadmissible)?;
    store_part(buf, used, records::VERSION_DELETE, part)
}

// A pack list, from its primary part.
pub fn write_pack_list(buf: &mut [u8], used: usize, part: &[u8]) -> Result<usize, Unwritten>
    ensures answer { answer_of result ≡ written pack_limit (length buf.old) used (Some (pack_list part.now)) }
    ensures buffer { buf.new ≡ buffer_after pack_limit used (Some (pack_list part.now)) buf.old }
{
    pack_list::read(part).map_err(|_| Unwritten::Inadmissible)?;
    store_part(buf, used, records::PACK_LIST, part)
}

// A version delete, made from the identifier of the version that goes and a delete ULID.
pub fn write_delete_of(
    buf: &mut [u8],
    used: usize,
    id: Identifier,
    deleteid: &[u8],
) -> Result<usize, Unwritten>
    ensures answer { answer_of result ≡ written pack_limit (length buf.old) used
        (of_identity (λ i. deletion i deleteid.now) (named id)) }
    ensures buffer { buf.new ≡ buffer_after pack_limit used
        (of_identity (λ i. deletion i deleteid.now) (named id)) buf.old }
{
    let texts = admitted_texts(&id)?;
    if !identifier::is_ulid(deleteid) {
        return Err(Unwritten::Inadmissible);
    }
    store_deletion(buf, used, texts, deleteid)
}

// ---- a primary part alone, for the call that writes its record: how many bytes it has

// A version's, made from its identifier and whether it is a delete marker, at the front of a buffer.
pub fn write_version_part(out: &mut [u8], id: Identifier, marker: bool) -> Result<usize, Unwritten>
    ensures answer { answer_of result ≡ part_written (length out.old) (version_part_of marker (named id)) }
    ensures buffer { out.new ≡ part_after (version_part_of marker (named id)) out.old }
{
    let texts = admitted_texts(&id)?;
    store_version_part(out, texts, marker)
}
