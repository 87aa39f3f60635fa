//! Commands whose paths have several components: each component but the last is a call of its own.

use crate::tables::answers_each;
use std::test::Fail;

const RUNS: &str = "
=== a walk through two directories
places 1 1
client 1 mkdir /a
client 1 mkdir /a/b
client 1 create /a/b/f
client 1 lookup /a/b/f/x
client 1 list /a
turns 1*18
--- prints
cfs 1
places 1 1
c 1 1 OK
c 1 2 OK
c 1 3 OK
c 1 4 ENOTDIR
c 1 5 LIST 1
l 1 0 1 2 mkdir 0 a = ok 1 d64
l 1 3 3 3 lookup 0 a = node d64
l 1 4 5 6 mkdir 64 b = ok 5 d320
l 1 7 7 7 lookup 0 a = node d64
l 1 8 8 8 lookup 64 b = node d320
l 1 9 10 11 create 320 f = ok 10 f640
l 1 12 12 12 lookup 0 a = node d64
l 1 13 13 13 lookup 64 b = node d320
l 1 14 14 14 lookup 320 f = node f640
l 1 15 15 15 lookup 0 a = node d64
l 1 16 16 16 list 64 = rows 1
r b d320
t 0 / d0 children=1 links=3 time=1
t 0 a d64 children=1 links=3 time=5
t 64 b d320 children=1 links=2 time=10
t 320 f f640 size=0 time=10
s steps=18 calls=11 unfinished=0 busy=0 forgets=0 owed=0 debts=0 marks=0 strays=0
=== a directory missing on the way
places 1 1
client 1 create /a/b/c
client 1 list /a
turns 1*3
--- prints
cfs 1
places 1 1
c 1 1 ENOENT
c 1 2 ENOENT
l 1 0 0 0 lookup 0 a = ENOENT
l 1 1 1 1 lookup 0 a = ENOENT
t 0 / d0 children=0 links=2 time=0
s steps=3 calls=2 unfinished=0 busy=0 forgets=0 owed=0 debts=0 marks=0 strays=0
=== a list of a file
places 1 1
client 1 create /f
client 1 list /f
turns 1*4
--- prints
cfs 1
places 1 1
c 1 1 OK
c 1 2 ENOTDIR
l 1 0 1 2 create 0 f = ok 1 f64
l 1 3 3 3 lookup 0 f = node f64
t 0 / d0 children=1 links=2 time=1
t 0 f f64 size=0 time=1
s steps=4 calls=2 unfinished=0 busy=0 forgets=0 owed=0 debts=0 marks=0 strays=0
=== a walk left between two calls: its command has made a step, and no call of it is open
places 1 1
client 1 mkdir /a
client 1 mkdir /a/b
client 1 lookup /a
turns 1*4
--- prints
cfs 1
places 1 1
c 1 1 OK
c 1 2 -
l 1 0 1 2 mkdir 0 a = ok 1 d64
l 1 3 3 3 lookup 0 a = node d64
t 0 / d0 children=1 links=3 time=1
t 0 a d64 children=0 links=2 time=1
s steps=4 calls=2 unfinished=0 busy=0 forgets=0 owed=0 debts=0 marks=0 strays=0
=== a path is resolved call by call: client 2 makes the directory after client 1 has missed it
places 1 1
client 1 create /a/f
client 1 create /a/g
client 2 mkdir /a
turns 1 2*3 1*4
--- prints
cfs 1
places 1 1
c 1 1 ENOENT
c 1 2 OK
c 2 1 OK
l 1 0 0 0 lookup 0 a = ENOENT
l 2 1 2 3 mkdir 0 a = ok 2 d128
l 1 4 4 4 lookup 0 a = node d128
l 1 5 6 7 create 128 g = ok 6 f384
t 0 / d0 children=1 links=3 time=2
t 0 a d128 children=1 links=2 time=6
t 128 g f384 size=0 time=6
s steps=8 calls=4 unfinished=0 busy=0 forgets=0 owed=0 debts=0 marks=0 strays=0
=== directories in two shards: client 1's n-th put goes to shard (1 + n) modulo 2
places 2 1
client 1 mkdir /a
client 1 mkdir /a/b
client 1 mkdir /a/b/c
turns 1*12
--- prints
cfs 1
places 2 1
c 1 1 OK
c 1 2 OK
c 1 3 OK
l 1 0 1 2 mkdir 0 a = ok 1 d65
l 1 3 3 3 lookup 0 a = node d65
l 1 4 5 6 mkdir 65 b = ok 5 d320
l 1 7 7 7 lookup 0 a = node d65
l 1 8 8 8 lookup 65 b = node d320
l 1 9 10 11 mkdir 320 c = ok 10 d641
t 0 / d0 children=1 links=3 time=1
t 0 a d65 children=1 links=3 time=5
t 65 b d320 children=1 links=3 time=10
t 320 c d641 children=0 links=2 time=10
s steps=12 calls=6 unfinished=0 busy=0 forgets=0 owed=0 debts=0 marks=0 strays=0
=== a component of 256 bytes ends its command before any step, also behind a directory that is missing
places 1 1
client 1 create /<256*n>
client 1 list /a/<256*n>
--- prints
cfs 1
places 1 1
c 1 1 ENAMETOOLONG
c 1 2 ENAMETOOLONG
t 0 / d0 children=0 links=2 time=0
s steps=0 calls=0 unfinished=0 busy=0 forgets=0 owed=0 debts=0 marks=0 strays=0
=== a component of 256 bytes behind a call that has not ended: its command has no line
places 1 1
client 1 create /x
client 1 create /<256*n>
turns 1
--- prints
cfs 1
places 1 1
c 1 1 -
l 1 0 - - create 0 x = unfinished - -
t 0 / d0 children=0 links=2 time=0
s steps=1 calls=1 unfinished=1 busy=0 forgets=0 owed=1 debts=0 marks=0 strays=0
";

#[test]
fn paths_of_several_components(rt: HostRuntime) -> Result<(), Fail> {
    answers_each(&rt, RUNS)
}
