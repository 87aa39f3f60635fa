//! Directories in the root, whole and cut off, beside files.

use crate::tables::answers_each;
use std::test::Fail;

const RUNS: &str = "
=== a mkdir that has settled is answered
places 2 1
client 1 mkdir /a
turns 1 1 1
--- prints
cfs 1
places 2 1
c 1 1 OK
l 1 0 1 2 mkdir 0 a = ok 1 d65
t 0 / d0 children=1 links=3 time=1
t 0 a d65 children=0 links=2 time=1
s steps=3 calls=1 unfinished=0 busy=0 forgets=0 owed=0 debts=0 marks=0 strays=0
=== a mkdir left after its insert has moved
places 2 1
client 1 mkdir /a
turns 1 1
--- prints
cfs 1
places 2 1
c 1 1 -
l 1 0 1 - mkdir 0 a = unfinished 1 d65
t 0 / d0 children=1 links=3 time=1
t 0 a d65 children=0 links=2 time=1
s steps=2 calls=1 unfinished=1 busy=0 forgets=0 owed=1 debts=0 marks=0 strays=0
=== a mkdir left after its put has changed nothing
places 2 1
client 1 mkdir /a
turns 1
--- prints
cfs 1
places 2 1
c 1 1 -
l 1 0 - - mkdir 0 a = unfinished - -
t 0 / d0 children=0 links=2 time=0
s steps=1 calls=1 unfinished=1 busy=0 forgets=0 owed=1 debts=0 marks=0 strays=0
=== the mkdir that inserts first wins: client 2 puts in shard 0, where it inserts too
places 2 1
client 1 mkdir /a
client 2 mkdir /a
turns 1 2 2 2 1 1
--- prints
cfs 1
places 2 1
c 1 1 EEXIST
c 2 1 OK
l 2 1 2 3 mkdir 0 a = ok 1 d64
l 1 0 4 5 mkdir 0 a = EEXIST
t 0 / d0 children=1 links=3 time=1
t 0 a d64 children=0 links=2 time=1
s steps=6 calls=2 unfinished=0 busy=0 forgets=0 owed=0 debts=0 marks=0 strays=0
=== a refused mkdir that still owns its directory
places 2 1
client 1 mkdir /a
client 2 mkdir /a
turns 1 2 2 2 1
--- prints
cfs 1
places 2 1
c 1 1 -
c 2 1 OK
l 2 1 2 3 mkdir 0 a = ok 1 d64
l 1 0 - - mkdir 0 a = unfinished - -
t 0 / d0 children=1 links=3 time=1
t 0 a d64 children=0 links=2 time=1
s steps=5 calls=2 unfinished=1 busy=0 forgets=0 owed=1 debts=0 marks=0 strays=0
=== a create that inserts before a mkdir of its name: both put by a step of number 1, at the store and at the shard
places 1 1
client 1 create /x
client 2 mkdir /x
turns 1 2 1 2 1 2
--- prints
cfs 1
places 1 1
c 1 1 OK
c 2 1 EEXIST
l 1 0 2 4 create 0 x = ok 1 f64
l 2 1 3 5 mkdir 0 x = EEXIST
t 0 / d0 children=1 links=2 time=1
t 0 x f64 size=0 time=1
s steps=6 calls=2 unfinished=0 busy=0 forgets=0 owed=0 debts=0 marks=0 strays=0
=== a mkdir that inserts before a create of its name
places 1 1
client 1 create /x
client 2 mkdir /x
turns 1 2 2 2 1 1
--- prints
cfs 1
places 1 1
c 1 1 EEXIST
c 2 1 OK
l 2 1 2 3 mkdir 0 x = ok 1 d64
l 1 0 4 5 create 0 x = EEXIST
t 0 / d0 children=1 links=3 time=1
t 0 x d64 children=0 links=2 time=1
s steps=6 calls=2 unfinished=0 busy=0 forgets=0 owed=0 debts=0 marks=0 strays=0
=== a look up of a directory and a list of both kinds
places 2 1
client 1 mkdir /a
client 1 create /b
client 1 lookup /a
client 1 list /
turns 1 1 1 1 1 1 1 1 1
--- prints
cfs 1
places 2 1
c 1 1 OK
c 1 2 OK
c 1 3 NODE d65
c 1 4 LIST 2
l 1 0 1 2 mkdir 0 a = ok 1 d65
l 1 3 4 5 create 0 b = ok 4 f256
l 1 6 6 6 lookup 0 a = node d65
l 1 7 7 7 list 0 = rows 2
r a d65
r b f256
t 0 / d0 children=2 links=3 time=4
t 0 a d65 children=0 links=2 time=1
t 0 b f256 size=0 time=4
s steps=9 calls=4 unfinished=0 busy=0 forgets=0 owed=0 debts=0 marks=0 strays=0
";

#[test]
fn directories_in_the_root(rt: HostRuntime) -> Result<(), Fail> {
    answers_each(&rt, RUNS)
}
