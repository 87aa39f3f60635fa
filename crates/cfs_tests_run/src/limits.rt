//! Limits of lines, paths, commands and turns: the last that is taken, and the first that is not.

use crate::tables::answers_each;
use std::test::Fail;

const LINES: &str = "
=== a comment of 4,096 bytes
places 1 1
#<4095*x>
--- prints
cfs 1
places 1 1
t 0 / d0 children=0 links=2 time=0
s steps=0 calls=0 unfinished=0 busy=0 forgets=0 owed=0 debts=0 marks=0 strays=0
=== a comment of 4,097 bytes
places 1 1
#<4096*x>
--- line 2: LineTooLong
=== a comment of 4,097 other bytes
places 1 1
#<4096*->
--- line 2: LineTooLong
=== spaces and a carriage return, 4,096 bytes
places 1 1
<4095* >\r
--- prints
cfs 1
places 1 1
t 0 / d0 children=0 links=2 time=0
s steps=0 calls=0 unfinished=0 busy=0 forgets=0 owed=0 debts=0 marks=0 strays=0
=== spaces and a carriage return, 4,097 bytes
places 1 1
<4096* >\r
--- line 2: LineTooLong
=== 4,096 spaces that no line feed ends
places 1 1

<4096* >\
--- prints
cfs 1
places 1 1
t 0 / d0 children=0 links=2 time=0
s steps=0 calls=0 unfinished=0 busy=0 forgets=0 owed=0 debts=0 marks=0 strays=0
=== 4,097 spaces that no line feed ends
places 1 1

<4097* >\
--- line 3: LineTooLong
=== turns in a line of 4,097 bytes
places 1 1
client 1 list /
client 12 list /
turns 12 12<2043* 1>
--- line 4: LineTooLong
";

#[test]
fn a_line_has_4096_bytes_at_most(rt: HostRuntime) -> Result<(), Fail> {
    answers_each(&rt, LINES)
}

const PATHS: &str = "
=== a component of 255 bytes
places 1 1
client 1 create /<255*a>
--- prints
cfs 1
places 1 1
t 0 / d0 children=0 links=2 time=0
s steps=0 calls=0 unfinished=0 busy=0 forgets=0 owed=0 debts=0 marks=0 strays=0
=== a component of 256 bytes
places 1 1
client 1 create /<256*a>
--- prints
cfs 1
places 1 1
c 1 1 ENAMETOOLONG
t 0 / d0 children=0 links=2 time=0
s steps=0 calls=0 unfinished=0 busy=0 forgets=0 owed=0 debts=0 marks=0 strays=0
=== a path of 1,024 bytes
places 1 1
client 1 create /<1023*a>
client 2 mkdir /<1023*a>
--- prints
cfs 1
places 1 1
c 1 1 ENAMETOOLONG
c 2 1 ENAMETOOLONG
t 0 / d0 children=0 links=2 time=0
s steps=0 calls=0 unfinished=0 busy=0 forgets=0 owed=0 debts=0 marks=0 strays=0
=== a path of 1,025 bytes
places 1 1
client 1 create /<1024*a>
--- line 2: BadPath
=== a path of 1,025 bytes to make a directory at
places 1 1
client 1 mkdir /<1024*a>
--- line 2: BadPath
=== a path that fills a line
places 1 1
client 1 create /<4079*a>
--- line 2: BadPath
=== a path that passes a line
places 1 1
client 1 create /<4080*a>
--- line 2: LineTooLong
=== 64 components
places 1 1
client 1 list <64*/a>
client 2 mkdir <64*/a>
turns 1 2
--- prints
cfs 1
places 1 1
c 1 1 ENOENT
c 2 1 ENOENT
l 1 0 0 0 lookup 0 a = ENOENT
l 2 1 1 1 lookup 0 a = ENOENT
t 0 / d0 children=0 links=2 time=0
s steps=2 calls=2 unfinished=0 busy=0 forgets=0 owed=0 debts=0 marks=0 strays=0
=== 64 components of what is not built
places 1 1
client 1 stat <64*/a>
--- line 2: NotBuilt
=== 65 components of what is not built
places 1 1
client 1 stat <65*/a>
--- line 2: BadPath
=== 65 components
places 1 1
client 1 mkdir <65*/a>
--- line 2: BadPath
";

#[test]
fn a_path_has_64_components_in_1024_bytes_at_most(rt: HostRuntime) -> Result<(), Fail> {
    answers_each(&rt, PATHS)
}

const COUNTS: &str = "
=== 128 lists
places 1 1
<128*client 1 list /
>client 2 lookup /a
--- prints
cfs 1
places 1 1
t 0 / d0 children=0 links=2 time=0
s steps=0 calls=0 unfinished=0 busy=0 forgets=0 owed=0 debts=0 marks=0 strays=0
=== 129 lists of one client
places 1 1
<129*client 1 list /
>--- line 130: TooMany
=== 129 lists of two clients
places 1 1
<128*client 1 list /
>client 2 list /a
--- line 130: TooMany
=== what is not built is no list too many
places 1 1
<128*client 1 list /
>client 2 stat /
--- line 130: NotBuilt
=== 65,537 commands
places 1 1
<65536*client 1 lookup /a
>client 2 create /b
--- line 65538: TooMany
=== 65,537 commands, the last of them not built
places 1 1
<65536*client 1 lookup /a
>client 2 stat /\
--- line 65538: TooMany
=== 1,000,000 turns, of which the first two are steps
places 1 1
client 1 list /
<1000*turns 1*1000
>--- prints
cfs 1
places 1 1
c 1 1 LIST 0
l 1 0 0 0 list 0 = rows 0
t 0 / d0 children=0 links=2 time=0
s steps=2 calls=1 unfinished=0 busy=0 forgets=0 owed=0 debts=0 marks=0 strays=0
=== 1,000,001 turns
places 1 1
client 1 list /
<10*turns 1*100000
>turns 1
--- line 13: TooMany
=== 1,000,001 turns, the last of them not built
places 1 1
client 1 list /
<1000*turns 1*1000
>turns g
--- line 1003: TooMany
=== a turn of nobody behind 1,000,000 others
places 1 1
client 1 list /
<1000*turns 1*1000
>turns 2
--- line 1003: BadNumber
=== 1,000,001 turns in a line, the first of them not built
places 1 1
client 1 list /
turns r 1*1000000
--- line 3: TooMany
=== 1,000,001 turns in a line that no line feed ends
places 1 1
client 1 list /
turns 1*1000000 1\
--- line 3: TooMany
";

#[test]
fn commands_lists_and_turns_are_counted(rt: HostRuntime) -> Result<(), Fail> {
    answers_each(&rt, COUNTS)
}

const MOST_BYTES: &str = "
=== 4,194,304 bytes
places 1 1
<65535*client 1 lookup /0123456789012345678901234567890123456789012345
>client 1 lookup /01234567890123456789012345678901234
--- prints
cfs 1
places 1 1
t 0 / d0 children=0 links=2 time=0
s steps=0 calls=0 unfinished=0 busy=0 forgets=0 owed=0 debts=0 marks=0 strays=0
";

#[test]
fn a_script_may_have_4194304_bytes(rt: HostRuntime) -> Result<(), Fail> {
    answers_each(&rt, MOST_BYTES)
}

const TOO_MANY_BYTES: &str = "
=== 4,194,305 bytes, the last of them an empty line
places 1 1
<65535*client 1 lookup /0123456789012345678901234567890123456789012345
>client 1 lookup /01234567890123456789012345678901234

--- line 65538: TooMany
=== a line that passes 4,194,304 bytes
places 1 1
<65536*client 1 lookup /0123456789012345678901234567890123456789012345
>--- line 65537: TooMany
=== a fault before the bytes are too many
places 1 1
client 33 list /
<65536*client 1 lookup /0123456789012345678901234567890123456789012345
>--- line 2: BadNumber
";

#[test]
fn a_script_has_no_more_bytes(rt: HostRuntime) -> Result<(), Fail> {
    answers_each(&rt, TOO_MANY_BYTES)
}
