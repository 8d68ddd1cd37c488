// Identifiers held by value: made of three texts, and compared.
use crate::show;
use crate::show::{say_number, say_refusal};
use console::{read_field, read_number};
use held_identifier::Identifier;

// ULID, bucket and object, with slashes behind them in the arrays, where they play no part; and the
// lengths told of bucket and object, which may be wrong.
pub(crate) fn read_identifier(rt: &impl Input) -> Identifier {
    let mut ulid = [b'/'; 26];
    let mut bucket = [b'/'; 63];
    let mut object = [b'/'; 1024];
    read_field(rt, &mut ulid);
    read_field(rt, &mut bucket);
    read_field(rt, &mut object);
    Identifier {
        ulid,
        bucket,
        bucketlen: read_number(rt, &mut [0; 8]),
        object,
        objectlen: read_number(rt, &mut [0; 8]),
    }
}

// The identifier of the texts, and whether the other is the same.
fn say_made(rt: &impl Print, made: Option<Identifier>, other: Identifier) {
    match made {
        Some(id) => {
            show::say_identifier(rt, id);
            let same = held_identifier::same_identifier(id, other);
            say_number(rt, '=', same as usize);
        }
        None => say_refusal(rt, 18),
    }
}

// Behind the ULID follow a bucket and an object, which may be a byte too long, and the other identifier;
// at last, whether this has the name.
pub(crate) fn run(rt: &(impl Input + Print), ulid: &[u8]) {
    let mut bucket = [0u8; 64];
    let mut object = [0u8; 1025];
    let b = read_field(rt, &mut bucket);
    let o = read_field(rt, &mut object);
    let other = read_identifier(rt);
    let made = held_identifier::from_parts(ulid, &bucket[..b], &object[..o]);
    say_made(rt, made, other);
    let named = held_identifier::has_name(other, &bucket[..b], &object[..o]);
    say_number(rt, '~', named as usize);
}
