// What is found, printed: numbers behind a letter or a sign. `@` is a place, `l` a length, `n` a count,
// `k` the code of a key, `2` whether it stands twice, `s` whether the form is the short one.
use msgpack::{Content, Fault, Integer, Items, Pair, Pairs};

pub(crate) fn say(rt: &impl Print, text: &str) {
    let _ = print!(rt; "{text}");
}

pub(crate) fn say_number(rt: &impl Print, letter: char, n: usize) {
    let _ = print!(rt; " {letter} {n}");
}

pub(crate) fn say_hash(rt: &impl Print, hash: u64) {
    let _ = print!(rt; " {hash:016x}");
}

fn say_missing(rt: &impl Print) {
    say(rt, " missing");
}

fn say_fault(rt: &impl Print, f: Fault) {
    match f {
        Fault::Cut => say(rt, " cut"),
        Fault::TooDeep => say(rt, " too deep"),
    }
}

pub(crate) fn say_passed(rt: &impl Print, passed: Result<usize, Fault>) {
    match passed {
        Ok(n) => say_number(rt, 'l', n),
        Err(f) => say_fault(rt, f),
    }
}

fn say_signed(rt: &impl Print, sign: char, n: u64, short: bool) {
    say_number(rt, sign, n as usize);
    say_number(rt, 's', short as usize);
}

pub(crate) fn say_integer(rt: &impl Print, i: Option<Integer>) {
    match i {
        Some(Integer::NonNegative(n, short)) => say_signed(rt, '+', n, short),
        Some(Integer::Negative(n, short)) => say_signed(rt, '-', n, short),
        None => say_missing(rt),
    }
}

pub(crate) fn say_content(rt: &impl Print, content: Option<Content>) {
    let Some(c) = content else {
        return say_missing(rt);
    };
    say_number(rt, '@', c.start);
    say_number(rt, 'l', c.len);
    say_number(rt, 's', c.short as usize);
}

pub(crate) fn say_boolean(rt: &impl Print, b: Option<bool>) {
    match b {
        Some(set) => say_number(rt, '=', set as usize),
        None => say_missing(rt),
    }
}

pub(crate) fn say_items(rt: &impl Print, items: Option<Items>) {
    let Some(i) = items else {
        return say_missing(rt);
    };
    say_number(rt, 'n', i.count);
    say_number(rt, '@', i.size);
    say_number(rt, 's', i.short as usize);
}

// Of the first key asked for, where its last value is, and whether it stands more than once.
pub(crate) fn say_found(rt: &impl Print, p: Pairs) {
    if p.map {
        say_number(rt, '@', p.places[0]);
        say_number(rt, '2', p.repeated[0] as usize);
    } else {
        say(rt, " broken");
    }
}

pub(crate) fn say_pair(rt: &impl Print, pair: Result<Pair, Fault>) {
    match pair {
        Ok(p) => {
            say_number(rt, 'k', p.code as usize);
            say_number(rt, '@', p.value);
            say_number(rt, '@', p.next);
        }
        Err(f) => say_fault(rt, f),
    }
}
