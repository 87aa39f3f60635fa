//! Scripts written freely: comments, empty lines, spaces, turns in a row, and bytes that a name may have.

use crate::tables::answers_each;
use std::test::Fail;

const RUNS: &str = "
=== two creates: the one that inserts first wins
places 1 1
client 1 create /x
client 2 create /x
turns 1 2 2 2 1 1
--- prints
cfs 1
places 1 1
c 1 1 EEXIST
c 2 1 OK
l 2 1 2 3 create 0 x = ok 2 f128
l 1 0 4 5 create 0 x = EEXIST
t 0 / d0 children=1 links=2 time=2
t 0 x f128 size=0 time=2
s steps=6 calls=2 unfinished=0 busy=0 forgets=0 owed=0 debts=0 marks=0 strays=0
=== the same with comments, empty lines, spaces, turns in a row, CR LF, and no end of its last line
# two creates\r
\r
   places  1 1\r
client 1 create /x \x20
#
\r
client   2 create /x
turns 1 2*3\x20
  turns 1*2\
--- prints
cfs 1
places 1 1
c 1 1 EEXIST
c 2 1 OK
l 2 1 2 3 create 0 x = ok 2 f128
l 1 0 4 5 create 0 x = EEXIST
t 0 / d0 children=1 links=2 time=2
t 0 x f128 size=0 time=2
s steps=6 calls=2 unfinished=0 busy=0 forgets=0 owed=0 debts=0 marks=0 strays=0
=== counts of places behind spaces
places   64   2\x20
--- prints
cfs 1
places 64 2
t 0 / d0 children=0 links=2 time=0
s steps=0 calls=0 unfinished=0 busy=0 forgets=0 owed=0 debts=0 marks=0 strays=0
=== the most shards
places 64 63
--- prints
cfs 1
places 64 63
t 0 / d0 children=0 links=2 time=0
s steps=0 calls=0 unfinished=0 busy=0 forgets=0 owed=0 debts=0 marks=0 strays=0
=== the most stores
places 3 64
--- prints
cfs 1
places 3 64
t 0 / d0 children=0 links=2 time=0
s steps=0 calls=0 unfinished=0 busy=0 forgets=0 owed=0 debts=0 marks=0 strays=0
=== lines that say nothing behind a command
places 1 1
client 1 list /

\r
#
# x\0\r\u{e9}\
--- prints
cfs 1
places 1 1
t 0 / d0 children=0 links=2 time=0
s steps=0 calls=0 unfinished=0 busy=0 forgets=0 owed=0 debts=0 marks=0 strays=0
=== names of other bytes, and of more than two dots
places 1 1
client 1 list /
client 1 create /\u{e9}~!
  client  32   lookup  /... \x20\r
turns 1*4 32
--- prints
cfs 1
places 1 1
c 1 1 LIST 0
c 1 2 OK
c 32 1 ENOENT
l 1 0 0 0 list 0 = rows 0
l 1 1 2 3 create 0 \u{e9}~! = ok 2 f128
l 32 4 4 4 lookup 0 ... = ENOENT
t 0 / d0 children=1 links=2 time=2
t 0 \u{e9}~! f128 size=0 time=2
s steps=5 calls=3 unfinished=0 busy=0 forgets=0 owed=0 debts=0 marks=0 strays=0
=== a directory whose name is three dots
places 1 1
client 1 mkdir /...
client 1 mkdir /\u{e9}~!
turns 1*6
--- prints
cfs 1
places 1 1
c 1 1 OK
c 1 2 OK
l 1 0 1 2 mkdir 0 ... = ok 1 d64
l 1 3 4 5 mkdir 0 \u{e9}~! = ok 4 d256
t 0 / d0 children=2 links=4 time=4
t 0 ... d64 children=0 links=2 time=1
t 0 \u{e9}~! d256 children=0 links=2 time=4
s steps=6 calls=2 unfinished=0 busy=0 forgets=0 owed=0 debts=0 marks=0 strays=0
=== commands of a client in several places of the script, and turns behind its last
places 1 1
client 1 list /
client 2 list /a/b
client 1 lookup /a/b/c
client 2 list /
turns 1*3
--- prints
cfs 1
places 1 1
c 1 1 LIST 0
c 1 2 ENOENT
l 1 0 0 0 list 0 = rows 0
l 1 1 1 1 lookup 0 a = ENOENT
t 0 / d0 children=0 links=2 time=0
s steps=3 calls=2 unfinished=0 busy=0 forgets=0 owed=0 debts=0 marks=0 strays=0
=== one turn, one turn by its count, and two of the last client
places 1 1
client 1 list /
client 1 lookup /a
client 32 list /
client 32 lookup /b
turns 1
turns 1*1 32*2
--- prints
cfs 1
places 1 1
c 1 1 LIST 0
c 1 2 ENOENT
c 32 1 LIST 0
c 32 2 ENOENT
l 1 0 0 0 list 0 = rows 0
l 1 1 1 1 lookup 0 a = ENOENT
l 32 2 2 2 list 0 = rows 0
l 32 3 3 3 lookup 0 b = ENOENT
t 0 / d0 children=0 links=2 time=0
s steps=4 calls=4 unfinished=0 busy=0 forgets=0 owed=0 debts=0 marks=0 strays=0
=== a million turns of one line, which no line feed ends: behind its End step a client makes none
places 1 1
client 1 list /
turns  1*1000000\
--- prints
cfs 1
places 1 1
c 1 1 LIST 0
l 1 0 0 0 list 0 = rows 0
t 0 / d0 children=0 links=2 time=0
s steps=2 calls=1 unfinished=0 busy=0 forgets=0 owed=0 debts=0 marks=0 strays=0
=== commands of two clients, each by its number, and turns of both
# one\r

places 3 2
client 7 create /a
client 2 list /
client 7 lookup /b
client 7 mkdir /c
turns 7 2*3
turns 7\
--- prints
cfs 1
places 3 2
c 2 1 LIST 0
c 7 1 -
l 2 1 1 1 list 0 = rows 0
l 7 0 3 - create 0 a = unfinished 1 f65
t 0 / d0 children=1 links=2 time=1
t 0 a f65 size=0 time=1
s steps=4 calls=2 unfinished=1 busy=0 forgets=0 owed=1 debts=0 marks=0 strays=0
";

#[test]
fn scripts_written_freely(rt: HostRuntime) -> Result<(), Fail> {
    answers_each(&rt, RUNS)
}
