// Request 8: the item at the front of a slice with its form, and whether all forms of an item are
// short.
#![tactic(auto)]

ghost use Rattle.std.specs.Prelude.{true, ◌≡◌, ◌≤◌, drop, get_or};
ghost use Rattle.msgpack.specs.Formats.{kind_index, unused_kind, array_kind};
ghost use Rattle.msgpack.specs.Items.{head_read, HeadAt, pass_items, passage_of};
ghost use Rattle.msgpack.specs.Readers.{integer_read, integer_short};
ghost use Rattle.msgpack_forms.specs.Items.{argument_of, integer_form_by, form_read, form_at, short_item, all_short, item_at, item_read};

use msgpack::{Fault, Head, Integer, Kind};

// What an item says, as an integer, by its magnitude; and whether it stands in its short form.
#[derive(Clone, Copy)]
struct Form {
    argument: u64,
    negative: bool,
    short: bool,
}

// The form of an integer that was read, if there is one.
fn integer_form(i: Option<Integer>) -> Form
    ensures { form_read result ≡ integer_form_by (integer_short i) (integer_read i) }
{
    match i {
        Some(Integer::NonNegative(n, short)) => Form {
            argument: n,
            negative: false,
            short,
        },
        Some(Integer::Negative(n, short)) => Form {
            argument: n,
            negative: true,
            short,
        },
        None => Form {
            argument: 0,
            negative: false,
            short: false,
        },
    }
}

// What a head with this first byte says of an item that is no integer.
fn argument_of(kind: Kind, b: u8, count: usize) -> usize
    ensures { result ≡ argument_of (kind_index kind) b count }
{
    match kind {
        Kind::Boolean => usize::from(b == 0xc3),
        Kind::Extension => count.saturating_sub(1),
        Kind::Text | Kind::Binary | Kind::Array | Kind::Map => count,
        Kind::Unused | Kind::Nil | Kind::Integer | Kind::Float => 0,
    }
}

// The form of the item at a place, whose head is h.
fn form_at(s: &[u8], at: usize, h: Head) -> Form
    requires { HeadAt (drop at s.now) (head_read h) × (kind_index h.kind ≡ unused_kind → ⊥) }
    ensures { form_read result ≡ form_at (drop at s.now) }
{
    let kind = h.kind;
    let size = h.size;
    let count = h.count;
    let b = s[at];
    if kind == Kind::Integer {
        return integer_form(msgpack::read_integer(&s[at..]));
    }
    let n = argument_of(kind, b, count);
    let width = size - 1;
    Form {
        argument: n as u64,
        negative: false,
        short: width == msgpack::short_width(kind, n as u64),
    }
}

// Passes over the array or map at a place, whose head h is short, and whose items have to be short.
#[cycle(short_container_short_item_short_items)]
fn short_container(s: &[u8], at: usize, h: Head, allowance: usize) -> Result<usize, Fault>
    requires { HeadAt (drop at s.now) (head_read h) × (array_kind ≤ kind_index h.kind) × ((form_at (drop at s.now)).short ≡ true) }
    ensures { passage_of result ≡ short_item allowance (drop at s.now) }
{
    if allowance == 0 {
        return Err(Fault::TooDeep);
    }
    let size = h.size;
    let items = msgpack::items_of(h.kind, h.count);
    let n = short_items(s, at + size, items, allowance - 1)?;
    Ok(size + n)
}

// Passes over the item at a place, whose head is h; all its forms have to be short.
#[cycle(short_container_short_item_short_items)]
fn short_item(s: &[u8], at: usize, h: Head, allowance: usize) -> Result<usize, Fault>
    requires { HeadAt (drop at s.now) (head_read h) }
    ensures { passage_of result ≡ short_item allowance (drop at s.now) }
{
    let length = h.size + h.count;
    if h.kind == Kind::Unused {
        return Err(Fault::Cut);
    }
    let form = form_at(s, at, h);
    if !form.short {
        return Err(Fault::Cut);
    }
    match h.kind {
        Kind::Array | Kind::Map => short_container(s, at, h, allowance),
        _ if length <= s.len() - at => Ok(length),
        _ => Err(Fault::Cut),
    }
}

// Passes over count items from a place on; stops at the first that is not whole and short.
#[cycle(short_container_short_item_short_items)]
fn short_items(s: &[u8], from: usize, count: usize, allowance: usize) -> Result<usize, Fault>
    ensures { passage_of result ≡ pass_items (short_item allowance) count (drop from s.now) }
{
    let mut at = from;
    for _ in 0..count {
        at += short_item(s, at, msgpack::head_at(s, at), allowance)?;
    }
    Ok(at - from)
}

// Whether a whole item stands at the front of s, and its form and that of each item in it, keys
// included, is the short one.
pub fn all_short(s: &[u8]) -> bool
    ensures { result ≡ all_short s.now }
{
    short_item(s, 0, msgpack::head_at(s, 0), msgpack::ALLOWANCE).is_ok()
}

// An item: its kind; how many bytes it has, with all that it holds; what it says, by its magnitude;
// and whether it stands in its short form.
#[derive(Clone, Copy)]
pub struct Item {
    pub kind: Kind,
    pub size: usize,
    pub argument: u64,
    pub negative: bool,
    pub short: bool,
}

// The item at the front of s.
pub fn read_item(s: &[u8]) -> Result<Item, Fault>
    ensures { item_read result ≡ item_at s.now }
{
    let size = msgpack::pass_over(s)?;
    let h = msgpack::head_at(s, 0);
    let form = form_at(s, 0, h);
    Ok(Item {
        kind: h.kind,
        size,
        argument: form.argument,
        negative: form.negative,
        short: form.short,
    })
}
