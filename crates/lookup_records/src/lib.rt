// One record of a pack as a lookup sees it: a version, a deletion of one, neither, or one that cannot be
// read. What is told lies in the pack, and is told as places of it.
#![tactic(auto)]

ghost use Rattle.std.specs.Prelude.{◌≡◌};
ghost use Rattle.refusals.specs.Limit.{pack_limit};
ghost use Rattle.slices.specs.Places.{part_at};
ghost use Rattle.identifier.specs.Identity.{identity, same_identity};
ghost use Rattle.held_identifier.specs.Held.{has_name};
ghost use Rattle.primary.specs.Answers.{texts_in};
ghost use Rattle.records.specs.Answers.{place_of_part};
ghost use Rattle.current_version.specs.Current.{deletes};
ghost use Rattle.lookup_records.specs.Answers.{role_for, role_but, role_in, RoleInside, Visits};

use primary::Texts;
use records::{Kind, Record};
use slices::Place;

// What a record is to a lookup.
#[derive(Clone, Copy)]
pub enum Role {
    // Its primary part, its identifier, and whether it is a delete marker.
    Version(Place, Texts, bool),
    Deletion(Texts),
    // A record that is passed over.
    Other,
    Unreadable(records::Fault),
}

// The role of a record, where its value stands, and the place after it.
#[derive(Clone, Copy)]
pub struct Visited {
    pub role: Role,
    pub value: Place,
    pub next: usize,
}

// What a record that was read is.
fn by_kind(r: Record) -> Role
    ensures { result ≡ role_for (place_of_part r.told.primary) r.identifier r.kind }
{
    let t = r.identifier;
    let primary = Place {
        start: r.told.primary.start,
        len: r.told.primary.len,
    };
    let kind = r.kind;
    match kind {
        Kind::Block => Role::Other,
        Kind::Version(deleted) => Role::Version(primary, t, deleted),
        Kind::VersionDelete(_) => Role::Deletion(t),
        Kind::PackList => Role::Other,
    }
}

// The record with this tag whose value stands at a place. One of the tag skipped is not read.
fn role_between(pack: &[u8], skipped: u16, tag: u16, value: Place) -> Role
    ensures result_value { role_in pack.now result ≡ role_but pack_limit skipped tag (part_at pack.now value) }
    ensures inside { RoleInside pack.now value result }
{
    if (tag == skipped) | !((tag == records::VERSION) | (tag == records::VERSION_DELETE)) {
        return Role::Other;
    }
    match records::read(tag, pack, value) {
        Ok(r) => by_kind(r),
        Err(f) => Role::Unreadable(f),
    }
}

// The record at a place, which is not read if it has the tag skipped. Its value ends where the next
// record starts. Where no record lies inside, the value is empty and the place is not left.
pub fn visit(pack: &[u8], at: usize, skipped: u16) -> Visited
    ensures { Visits skipped pack.now at result }
{
    let passed = tlv::pass_at(pack, at);
    let header = passed.header;
    let len = header.length as usize;
    let value = Place {
        start: passed.next - len,
        len,
    };
    let role = role_between(pack, skipped, header.tag, value);
    Visited {
        role,
        value,
        next: passed.next,
    }
}

// Whether an identifier has this bucket and object.
pub fn has_name(pack: &[u8], t: Texts, bucket: &[u8], object: &[u8]) -> bool
    ensures { result ≡ has_name (Some (texts_in pack.now t)) bucket.now object.now }
{
    if !slices::same_bytes(slices::part(pack, t.bucket), bucket) {
        return false;
    }
    slices::same_bytes(slices::part(pack, t.object), object)
}

// Whether an identifier is this one: the ULID, which tells most apart, is compared first.
pub fn has_identifier(pack: &[u8], t: Texts, ulid: &[u8], bucket: &[u8], object: &[u8]) -> bool
    ensures { result ≡ same_identity (texts_in pack.now t) (identity ulid.now bucket.now object.now) }
{
    if !slices::same_bytes(slices::part(pack, t.ulid), ulid) {
        return false;
    }
    has_name(pack, t, bucket, object)
}

// Whether the record is a version delete that names this version.
pub fn names(pack: &[u8], role: Role, ulid: &[u8], bucket: &[u8], object: &[u8]) -> bool
    ensures { result ≡ deletes (identity ulid.now bucket.now object.now) (role_in pack.now role) }
{
    match role {
        Role::Deletion(t) => has_identifier(pack, t, ulid, bucket, object),
        Role::Version(_, _, _) => false,
        Role::Other => false,
        Role::Unreadable(_) => false,
    }
}
