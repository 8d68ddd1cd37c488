// Passes over the MessagePack item at the front of standard input, of up to 65,536 bytes, and prints
// `whole` and its length, `cut` or `too deep`.
#![tactic(auto)]

ghost use Rattle.io.specs.Counts.{IsPrefixLen};

use msgpack::Fault;
use std::io::Read as _;

// Reads until the buffer is full, the input ends or a read fails, and answers how many bytes it put at the front.
fn read_full(rt: &impl Input, buffer: &mut [u8]) -> usize
    ensures { IsPrefixLen result buffer.new }
{
    let mut done = 0;
    while done < buffer.len() {
        match rt.reader().read(&mut buffer[done..]) {
            Ok(0) | Err(_) => break,
            Ok(n) => done += n,
        }
    }
    done
}

fn main(rt: HostRuntime) {
    let mut buffer = io::large_buffer();
    let n = read_full(&rt, &mut buffer);
    let mut more = [0u8; 1];
    if read_full(&rt, &mut more) > 0 {
        let _ = eprintln!(rt; "more than 65536 bytes");
        return;
    }
    match msgpack::pass_over(&buffer[..n]) {
        Ok(len) => {
            let _ = println!(rt; "whole {len}");
        }
        Err(Fault::Cut) => {
            let _ = println!(rt; "cut");
        }
        Err(Fault::TooDeep) => {
            let _ = println!(rt; "too deep");
        }
    }
}
