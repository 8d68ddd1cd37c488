// Why the current version of an object is current: a line for each version record of a name, with its
// start, a reason and a place, as three words. A plain search for each record finds the earliest deletion
// of it, and the earliest version record with its identifier.
#![tactic(auto)]

ghost use Rattle.std.specs.Prelude.{◌≡◌, ◌+◌, ◌*◌, ◌/◌, ◌≤◌, [], length};
ghost use Rattle.slices.specs.Overwriting.{overwritten};
ghost use Rattle.refusals.specs.Limit.{pack_limit};
ghost use Rattle.pack.specs.Scan.{fitted};
ghost use Rattle.identifier.specs.Identity.{identity};
ghost use Rattle.current_version.specs.Current.{version_by, version_of, filtered, lookup};
ghost use Rattle.lookup_records.specs.Answers.{role_in};
ghost use Rattle.lookup_records.specs.Walk.{placed_from, Checked};
ghost use Rattle.lookup.specs.Answers.{placed_in, candidate_in};
ghost use Rattle.explanation.specs.Reasons.{first_deletion, first_version, holds, is_named, versions_of, line_of, lines_of, row_of, rows_of, explained, explain};
ghost use Rattle.explanation.specs.declared.Fault.TheVariants.{Lookup};
ghost use Rattle.explanation.specs.Answers.{version_at, own_line, standing_line, count_of, row_in, words_in, count_in, lines_for, outcome, explained_of, told_after, fitted_lines, UlidTold};

use lookup::Version;
use lookup_records::{Role, Visited};
use slices::Place;

// ---- the reasons, as numbers

pub const CURRENT: u64 = 0;

pub const CURRENT_MARKER: u64 = 1;

pub const OLDER: u64 = 2;

pub const REPEATED: u64 = 3;

pub const REMOVED: u64 = 4;

// ---- the earliest record of its kind

// The earliest deletion of this version.
fn first_deletion(pack: &[u8], ulid: &[u8], bucket: &[u8], object: &[u8]) -> Option<usize>
    requires { Checked pack.now 0 }
    ensures { result
        ≡ first_deletion (placed_from pack_limit pack.now 0) (identity ulid.now bucket.now object.now) }
{
    let mut at = 0;
    while at < pack.len() {
        let v = lookup_records::visit(pack, at, records::VERSION);
        let role = v.role;
        if lookup_records::names(pack, role, ulid, bucket, object) {
            return Some(at);
        }
        at = v.next;
    }
    None
}

// Whether the record is a version with this identifier.
fn holds(pack: &[u8], role: Role, ulid: &[u8], bucket: &[u8], object: &[u8]) -> bool
    ensures { result ≡ holds (identity ulid.now bucket.now object.now) (role_in pack.now role) }
{
    match role {
        Role::Version(_, t, _) => lookup_records::has_identifier(pack, t, ulid, bucket, object),
        Role::Deletion(_) => false,
        Role::Other => false,
        Role::Unreadable(_) => false,
    }
}

// The earliest version record with this identifier.
fn first_version(pack: &[u8], ulid: &[u8], bucket: &[u8], object: &[u8]) -> Option<usize>
    requires { Checked pack.now 0 }
    ensures { result
        ≡ first_version (placed_from pack_limit pack.now 0) (identity ulid.now bucket.now object.now) }
{
    let mut at = 0;
    while at < pack.len() {
        let v = lookup_records::visit(pack, at, records::VERSION_DELETE);
        let role = v.role;
        if holds(pack, role, ulid, bucket, object) {
            return Some(at);
        }
        at = v.next;
    }
    None
}

// ---- the line of one record

#[derive(Clone, Copy)]
struct Row {
    start: usize,
    reason: u64,
    place: usize,
}

// Of the current version itself.
fn own(at: usize, deleted: bool) -> Row
    ensures { row_in result ≡ row_of (own_line at deleted) }
{
    if deleted {
        return Row {
            start: at,
            reason: CURRENT_MARKER,
            place: at,
        };
    }
    Row {
        start: at,
        reason: CURRENT,
        place: at,
    }
}

// Of a version that no deletion names and that repeats none.
fn standing(pack: &[u8], at: usize, deleted: bool, found: Option<Version>) -> Row
    ensures { row_in result ≡ row_of (standing_line at deleted (candidate_in pack.now found)) }
{
    let Some(c) = found else {
        return own(at, deleted);
    };
    if c.start == at {
        return own(at, deleted);
    }
    Row {
        start: at,
        reason: OLDER,
        place: c.start,
    }
}

// Of a version of the name, which starts at a place.
fn row_of(
    pack: &[u8],
    bucket: &[u8],
    object: &[u8],
    at: usize,
    ulid: &[u8],
    deleted: bool,
    found: Option<Version>,
) -> Row
    requires { Checked pack.now 0 }
    ensures { row_in result ≡ row_of (line_of (placed_from pack_limit pack.now 0) (candidate_in pack.now found)
        (version_at at (identity ulid.now bucket.now object.now) deleted)) }
{
    if let Some(place) = first_deletion(pack, ulid, bucket, object) {
        return Row {
            start: at,
            reason: REMOVED,
            place,
        };
    }
    let Some(place) = first_version(pack, ulid, bucket, object) else {
        return standing(pack, at, deleted, found);
    };
    if place == at {
        return standing(pack, at, deleted, found);
    }
    Row {
        start: at,
        reason: REPEATED,
        place,
    }
}

// Of the record at a place: only a version of the name has a line.
fn line_at(
    pack: &[u8],
    bucket: &[u8],
    object: &[u8],
    at: usize,
    v: Visited,
    found: Option<Version>,
) -> Option<Row>
    requires { Checked pack.now 0 }
    ensures { words_in result ≡ rows_of (lines_for (placed_from pack_limit pack.now 0) (candidate_in pack.now found)
        (filtered (is_named bucket.now object.now) (version_of (placed_in pack.now at v)))) }
{
    let role = v.role;
    let Role::Version(_, t, deleted) = role else {
        return None;
    };
    if !lookup_records::has_name(pack, t, bucket, object) {
        return None;
    }
    let ulid = slices::part(pack, t.ulid);
    Some(row_of(pack, bucket, object, at, ulid, deleted, found))
}

// ---- the lines of a name

// How many lines the record has: one if it is a version of the name.
fn counted(pack: &[u8], role: Role, bucket: &[u8], object: &[u8]) -> usize
    ensures { result ≡ count_of (filtered (is_named bucket.now object.now) (version_by 0 [] (role_in pack.now role))) }
{
    let Role::Version(_, t, _) = role else {
        return 0;
    };
    if !lookup_records::has_name(pack, t, bucket, object) {
        return 0;
    }
    1
}

fn count_versions(pack: &[u8], bucket: &[u8], object: &[u8]) -> usize
    requires { Checked pack.now 0 }
    ensures { result ≡ length (versions_of bucket.now object.now (placed_from pack_limit pack.now 0)) }
{
    let mut count = 0;
    let mut at = 0;
    while at < pack.len() {
        let v = lookup_records::visit(pack, at, records::VERSION_DELETE);
        let role = v.role;
        count += counted(pack, role, bucket, object);
        at = v.next;
    }
    count
}

// A line goes behind the first i. Answers how many there then are.
fn put(told: &mut [u64], i: usize, line: Option<Row>) -> usize
    requires { 3 * i + length (words_in line) ≤ length told.old }
    ensures count { result ≡ i + count_in line }
    ensures told { told.new ≡ overwritten told.old (3 * i) (words_in line) }
{
    match line {
        None => i,
        Some(r) => {
            let row = [r.start as u64, r.reason, r.place as u64];
            words::store(told, 3 * i, &row);
            i + 1
        }
    }
}

// All lines go to the front.
fn fill(pack: &[u8], bucket: &[u8], object: &[u8], found: Option<Version>, told: &mut [u64])
    requires { Checked pack.now 0
        × (3 * length (versions_of bucket.now object.now (placed_from pack_limit pack.now 0)) ≤ length told.old) }
    ensures { told.new ≡ overwritten told.old 0
        (rows_of (lines_of (placed_from pack_limit pack.now 0) (candidate_in pack.now found) bucket.now object.now)) }
{
    let mut i = 0;
    let mut at = 0;
    while at < pack.len() {
        let v = lookup_records::visit(pack, at, records::VERSION_DELETE);
        let line = line_at(pack, bucket, object, at, v, found);
        i = put(told, i, line);
        at = v.next;
    }
}

// ---- the explanation of a pack

// How many lines there are, and where the ULID of the current version stands; where none is current, an
// empty place.
#[derive(Clone, Copy)]
pub struct Explanation {
    pub count: usize,
    pub ulid: Place,
}

#[derive(Clone, Copy)]
pub enum Fault {
    Lookup(lookup::Fault),
    // The list is too short: refusal 19.
    NoRoom,
}

impl From<lookup::Fault> for Fault {
    ghost from_gives = { λ f fault. fault ≡ Lookup f };

    fn from(f: lookup::Fault) -> Fault {
        Fault::Lookup(f)
    }
}

// The lines of a name in a pack that can be read, with what the lookup found there.
fn tell(
    pack: &[u8],
    bucket: &[u8],
    object: &[u8],
    found: Option<Version>,
    ulid: Place,
    told: &mut [u64],
) -> Result<Explanation, Fault>
    requires { Checked pack.now 0 }
    ensures answer { result ≡ fitted_lines
        (length (lines_of (placed_from pack_limit pack.now 0) (candidate_in pack.now found) bucket.now object.now))
        (length told.old / 3) ulid }
    ensures told { told.new ≡ told_after
        (explained (lines_of (placed_from pack_limit pack.now 0) (candidate_in pack.now found) bucket.now object.now))
        told.old }
{
    let n = count_versions(pack, bucket, object);
    if told.len() / 3 < n {
        return Err(Fault::NoRoom);
    }
    fill(pack, bucket, object, found, told);
    Ok(Explanation { count: n, ulid })
}

// Start, reason and place of each version record of the name, in pack order: three words for each. The
// place is that of the deletion or of the earlier record; of the current one its own start, and of an
// older one the start of the current one.
pub fn explain(
    pack: &[u8],
    bucket: &[u8],
    object: &[u8],
    told: &mut [u64],
) -> Result<Explanation, Fault>
    ensures answer { explained_of result
        ≡ fitted (outcome (explain pack_limit pack.now bucket.now object.now)) (length told.old / 3) }
    ensures told { told.new
        ≡ told_after (explain pack_limit pack.now bucket.now object.now) told.old }
    ensures ulid { UlidTold pack.now (lookup pack_limit pack.now bucket.now object.now) result }
{
    let found = lookup::lookup(pack, bucket, object)?;
    let ulid = match found {
        Some(v) => v.identifier.ulid,
        None => Place { start: 0, len: 0 },
    };
    tell(pack, bucket, object, found, ulid, told)
}
