//! Names of every length and byte, and their order.

use crate::tables::{answers_each, prints};
use std::alloc::Global;
use std::process::Abort;
use std::sync::Wait;
use std::test::Fail;
use std::thread::Threads;

const RUNS: &str = "
=== a name of 255 bytes
places 1 1
client 1 create /<255*n>
client 1 lookup /<255*n>
turns 1 1 1 1
--- prints
cfs 1
places 1 1
c 1 1 OK
c 1 2 NODE f64
l 1 0 1 2 create 0 <255*n> = ok 1 f64
l 1 3 3 3 lookup 0 <255*n> = node f64
t 0 / d0 children=1 links=2 time=1
t 0 <255*n> f64 size=0 time=1
s steps=4 calls=2 unfinished=0 busy=0 forgets=0 owed=0 debts=0 marks=0 strays=0
=== names that look like the marks of a line
places 1 1
client 1 create /=
client 1 create /00
client 1 create /-
client 1 create /0
client 1 list /
turns 1 1 1 1 1 1 1 1 1 1 1 1 1
--- prints
cfs 1
places 1 1
c 1 1 OK
c 1 2 OK
c 1 3 OK
c 1 4 OK
c 1 5 LIST 4
l 1 0 1 2 create 0 = = ok 1 f64
l 1 3 4 5 create 0 00 = ok 4 f256
l 1 6 7 8 create 0 - = ok 7 f448
l 1 9 10 11 create 0 0 = ok 10 f640
l 1 12 12 12 list 0 = rows 4
r - f448
r 0 f640
r 00 f256
r = f64
t 0 / d0 children=4 links=2 time=10
t 0 - f448 size=0 time=7
t 0 0 f640 size=0 time=10
t 0 00 f256 size=0 time=4
t 0 = f64 size=0 time=1
s steps=13 calls=5 unfinished=0 busy=0 forgets=0 owed=0 debts=0 marks=0 strays=0
";

#[test]
fn names_long_and_strange(rt: HostRuntime) -> Result<(), Fail> {
    answers_each(&rt, RUNS)
}

const SCRIPT: &str = "places 1 1
client 1 create /%
client 1 lookup /%
turns 1 1 1 1
";

const TEXT: &str = "cfs 1
places 1 1
c 1 1 OK
c 1 2 NODE f64
l 1 0 1 2 create 0 % = ok 1 f64
l 1 3 3 3 lookup 0 % = node f64
t 0 / d0 children=1 links=2 time=1
t 0 % f64 size=0 time=1
s steps=4 calls=2 unfinished=0 busy=0 forgets=0 owed=0 debts=0 marks=0 strays=0
";

// The text with the name in place of each `%`.
fn filled(alloc: Global, text: &str, name: &[u8]) -> Result<Vec<u8>, Fail> {
    let mut bytes = Vec::new(alloc);
    for byte in text.as_bytes() {
        if *byte == b'%' {
            bytes.extend_from_slice(name)?;
        } else {
            bytes.push(*byte)?;
        }
    }
    Ok(bytes)
}

// A create and a look-up of the name that has these bytes but the slash, in their order.
fn serves<R: Threads + Wait + Sync + Abort + AllocGlobal>(
    rt: &R,
    (first, last): (u8, u8),
) -> Result<(), Fail> {
    let mut name = Vec::new(rt.alloc());
    for byte in first..=last {
        if byte != b'/' {
            name.push(byte)?;
        }
    }
    let script = filled(rt.alloc(), SCRIPT, name.as_slice())?;
    let text = filled(rt.alloc(), TEXT, name.as_slice())?;
    prints(rt, "all bytes", script.as_slice(), text.as_slice())
}

#[test]
fn names_of_all_bytes(rt: HostRuntime) -> Result<(), Fail> {
    serves(&rt, (0x21, 0x7E))?;
    serves(&rt, (0x80, 0xFF))
}
