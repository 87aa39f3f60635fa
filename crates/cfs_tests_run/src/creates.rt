//! Creates, look-ups and lists in the root, whole and cut off.

use crate::tables::answers_each;
use std::test::Fail;

const RUNS: &str = "
=== the empty script prints the root
places 1 1
--- prints
cfs 1
places 1 1
t 0 / d0 children=0 links=2 time=0
s steps=0 calls=0 unfinished=0 busy=0 forgets=0 owed=0 debts=0 marks=0 strays=0
=== a create that has not begun has no line
places 1 1
client 1 create /x
--- prints
cfs 1
places 1 1
t 0 / d0 children=0 links=2 time=0
s steps=0 calls=0 unfinished=0 busy=0 forgets=0 owed=0 debts=0 marks=0 strays=0
=== a create left after its put has changed nothing
places 1 1
client 1 create /x
turns 1
--- prints
cfs 1
places 1 1
c 1 1 -
l 1 0 - - create 0 x = unfinished - -
t 0 / d0 children=0 links=2 time=0
s steps=1 calls=1 unfinished=1 busy=0 forgets=0 owed=1 debts=0 marks=0 strays=0
=== a create left after its insert has moved
places 1 1
client 1 create /x
turns 1 1
--- prints
cfs 1
places 1 1
c 1 1 -
l 1 0 1 - create 0 x = unfinished 1 f64
t 0 / d0 children=1 links=2 time=1
t 0 x f64 size=0 time=1
s steps=2 calls=1 unfinished=1 busy=0 forgets=0 owed=1 debts=0 marks=0 strays=0
=== a create that has settled is answered
places 1 1
client 1 create /x
turns 1 1 1
--- prints
cfs 1
places 1 1
c 1 1 OK
l 1 0 1 2 create 0 x = ok 1 f64
t 0 / d0 children=1 links=2 time=1
t 0 x f64 size=0 time=1
s steps=3 calls=1 unfinished=0 busy=0 forgets=0 owed=0 debts=0 marks=0 strays=0
=== a turn after the end changes nothing
places 1 1
client 1 create /x
turns 1 1 1 1
turns 1 1
--- prints
cfs 1
places 1 1
c 1 1 OK
l 1 0 1 2 create 0 x = ok 1 f64
t 0 / d0 children=1 links=2 time=1
t 0 x f64 size=0 time=1
s steps=4 calls=1 unfinished=0 busy=0 forgets=0 owed=0 debts=0 marks=0 strays=0
=== a refused create that still owns its file: no turn is left to take it back
places 1 1
client 1 create /x
client 2 create /x
turns 1 2 2 2 1
--- prints
cfs 1
places 1 1
c 1 1 -
c 2 1 OK
l 2 1 2 3 create 0 x = ok 2 f128
l 1 0 - - create 0 x = unfinished - -
t 0 / d0 children=1 links=2 time=2
t 0 x f128 size=0 time=2
s steps=5 calls=2 unfinished=1 busy=0 forgets=0 owed=1 debts=0 marks=0 strays=0
=== the older put inserts last
places 1 1
client 1 create /x
client 2 create /y
turns 1 2 2 2 1 1
--- prints
cfs 1
places 1 1
c 1 1 OK
c 2 1 OK
l 2 1 2 3 create 0 y = ok 2 f128
l 1 0 4 5 create 0 x = ok 1 f64
t 0 / d0 children=2 links=2 time=2
t 0 x f64 size=0 time=1
t 0 y f128 size=0 time=2
s steps=6 calls=2 unfinished=0 busy=0 forgets=0 owed=0 debts=0 marks=0 strays=0
=== a create a look up and a list
places 1 1
client 1 create /x
client 1 lookup /x
client 1 list /
turns 1 1 1 1 1 1
--- prints
cfs 1
places 1 1
c 1 1 OK
c 1 2 NODE f64
c 1 3 LIST 1
l 1 0 1 2 create 0 x = ok 1 f64
l 1 3 3 3 lookup 0 x = node f64
l 1 4 4 4 list 0 = rows 1
r x f64
t 0 / d0 children=1 links=2 time=1
t 0 x f64 size=0 time=1
s steps=6 calls=3 unfinished=0 busy=0 forgets=0 owed=0 debts=0 marks=0 strays=0
=== a name that is not there and one that is
places 1 1
client 1 lookup /x
client 1 list /
client 1 create /x
client 1 create /x
turns 1 1 1 1 1 1 1 1 1
--- prints
cfs 1
places 1 1
c 1 1 ENOENT
c 1 2 LIST 0
c 1 3 OK
c 1 4 EEXIST
l 1 0 0 0 lookup 0 x = ENOENT
l 1 1 1 1 list 0 = rows 0
l 1 2 3 4 create 0 x = ok 3 f192
l 1 5 6 7 create 0 x = EEXIST
t 0 / d0 children=1 links=2 time=3
t 0 x f192 size=0 time=3
s steps=9 calls=4 unfinished=0 busy=0 forgets=0 owed=0 debts=0 marks=0 strays=0
=== clients out of order: lines of commands go by client and number, those of the history by their points
places 1 1
client 7 lookup /a
client 2 create /a
client 7 list /
turns 7 2 2 7 7
--- prints
cfs 1
places 1 1
c 2 1 -
c 7 1 ENOENT
c 7 2 LIST 1
l 7 0 0 0 lookup 0 a = ENOENT
l 2 1 2 - create 0 a = unfinished 1 f64
l 7 3 3 3 list 0 = rows 1
r a f64
t 0 / d0 children=1 links=2 time=1
t 0 a f64 size=0 time=1
s steps=5 calls=3 unfinished=1 busy=0 forgets=0 owed=1 debts=0 marks=0 strays=0
";

#[test]
fn creates_look_ups_and_lists_in_the_root(rt: HostRuntime) -> Result<(), Fail> {
    answers_each(&rt, RUNS)
}
