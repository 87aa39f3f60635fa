//! Scripts with a fault. The first line that has one is told, with its first fault, and nothing is written.

use crate::tables::{answers_each, refuses_lines};
use std::test::Fail;

const FIRST_LINES: &str = "
BadCommand: places
BadCommand: places 1
BadCommand: places 65
BadCommand: places 1 1 1
BadCommand: place 1 1
BadCommand: Places 1 1
BadCommand: frob
BadCommand: turn 1
BadCommand: Stop 1 3
BadNumber: places 0 1
BadNumber: places 1 0
BadNumber: places 65 1
BadNumber: places 1 65
BadNumber: places 4294967297 1
BadNumber: places 18446744073709551617 1
BadNumber: places 01 1
BadNumber: places +1 1
BadNumber: places 1 +1
BadNumber: places 1 -1
NoPlaces: client 1 list /
NoPlaces: stop 1 3
NoPlaces: turns
";

#[test]
fn a_first_line_that_counts_no_places(rt: HostRuntime) -> Result<(), Fail> {
    refuses_lines(&rt, ("", 1), FIRST_LINES)?;
    refuses_lines(&rt, ("\n  \n# note\n", 4), FIRST_LINES)
}

const WORDS: &str = "
BadCommand: frob
BadCommand:  # note
BadCommand: \0
BadCommand: \r\r
BadCommand: Stop 1 3
BadCommand: turn 1
BadCommand: clients 1 list /
BadCommand: client
BadCommand: client 1
BadCommand: client 1 list
BadCommand: client 1 mkdir
BadCommand: client 1 move /x
BadCommand: client 1 Mkdir /a
BadCommand: client 1 list / /
BadCommand: client\t1 list /
BadCommand: client 0 list
BadCommand: client 0 lists /
BadCommand: client 33 lists /
BadCommand: client 33 mkdirs /a
BadCommand: client 1 rename /a
BadCommand: client 1 rename /a /b /c
BadCommand: client 1 truncate /a
BadCommand: stop 1
BadCommand: stop 1 1 1
BadCommand: turns
BadCommand: turns\x20
LateLine: places 1 1
LateLine: places
LateLine: places 65
";

#[test]
fn a_line_of_other_words(rt: HostRuntime) -> Result<(), Fail> {
    refuses_lines(&rt, ("places 1 1\n", 2), WORDS)?;
    refuses_lines(&rt, ("places 1 1\nclient 1 list /\n", 3), WORDS)
}

const NUMBERS: &str = "
BadNumber: client 0 list /
BadNumber: client 0 list a
BadNumber: client 33 list /
BadNumber: client 33 mkdir //
BadNumber: client 01 list /
BadNumber: client +1 list /
BadNumber: client -1 list a
BadNumber: client 18446744073709551617 list /
BadNumber: client 1 truncate a 01
BadNumber: client 1 truncate a -1
BadNumber: client 1 truncate /a 00
BadNumber: client 1 truncate /a 9223372036854775808
BadNumber: client 1 truncate /a 18446744073709551616
BadNumber: stop 0 0
BadNumber: stop 33 0
BadNumber: stop 2 3
BadNumber: stop 1 00
BadNumber: stop 1 -1
BadNumber: stop 1 1000001
BadNumber: turns 2
BadNumber: turns 33
BadNumber: turns 1 01
BadNumber: turns R
BadNumber: turns rr
BadNumber: turns *
BadNumber: turns 1*
BadNumber: turns *2
BadNumber: turns *3
BadNumber: turns 1**2
BadNumber: turns 1*2*3
BadNumber: turns 1*0
BadNumber: turns 1*01
BadNumber: turns 1*1000001
BadNumber: turns 1*1000000 1 2
BadNumber: turns r 1,1
";

#[test]
fn a_number_out_of_its_range(rt: HostRuntime) -> Result<(), Fail> {
    refuses_lines(&rt, ("places 1 1\nclient 1 list /\n", 3), NUMBERS)
}

const PATHS: &str = "
BadPath: client 1 create /
BadPath: client 1 lookup /
BadPath: client 1 mkdir /
BadPath: client 1 unlink /
BadPath: client 1 rmdir /
BadPath: client 1 truncate / 0
BadPath: client 1 rename / /b
BadPath: client 1 rename /a /
BadPath: client 1 create a
BadPath: client 1 list a
BadPath: client 1 stat a
BadPath: client 1 truncate a 0
BadPath: client 1 rename /a b
BadPath: client 1 create /.
BadPath: client 1 list /.
BadPath: client 1 lookup /..
BadPath: client 1 list /..
BadPath: client 1 create /a/..
BadPath: client 1 list /a/../b
BadPath: client 1 create /a/
BadPath: client 1 list /a/
BadPath: client 1 create /a//b
BadPath: client 1 list /a//b
BadPath: client 1 list //
BadPath: client 1 create /a\0b
BadPath: client 1 create /a\tb
BadPath: client 1 create /a\rb
BadPath: client 1 mkdir /a\t
BadPath: client 1 mkdir /a\u{7f}
BadPath: client 1 create /\u{7f}
BadPath: client 1 create /a\u{7f}
";

#[test]
fn a_path_of_no_components(rt: HostRuntime) -> Result<(), Fail> {
    refuses_lines(&rt, ("places 1 1\n", 2), PATHS)?;
    refuses_lines(&rt, ("places 1 1\nclient 1 list /\n", 3), PATHS)
}

const NOT_BUILT: &str = "
NotBuilt: client 1 stat /
NotBuilt: client 1 stat /a
NotBuilt: client 1 stat /a/b
NotBuilt: client  32   stat   /a/b \x20
NotBuilt: client 1 unlink /a
NotBuilt: client 1 rmdir /a
NotBuilt: client 1 truncate /a 0
NotBuilt: client 1 truncate /a 9223372036854775807
NotBuilt: client 1 rename /a /b
NotBuilt: client 7 rename /a/bc /d
NotBuilt: stop 1 0
NotBuilt: stop 1 1000000
NotBuilt: stop 32 1000000
NotBuilt: turns r
NotBuilt: turns g*5
NotBuilt: turns 1 g*5
";

#[test]
fn what_is_not_built(rt: HostRuntime) -> Result<(), Fail> {
    let head = "places 1 1\nclient 1 list /\nclient 32 list /\n";
    refuses_lines(&rt, (head, 4), NOT_BUILT)
}

const FIRST_FAULTS: &str = "
=== no line
--- line 1: NoPlaces
=== empty lines alone


--- line 3: NoPlaces
=== a comment alone, which no line feed ends
# note\
--- line 2: NoPlaces
=== comments alone
# a
 \x20
# b\
--- line 4: NoPlaces
=== an empty line, and then no places

stop 1 3
--- line 2: NoPlaces
=== a carriage return that no line feed follows is a byte of its word
places 1 1\r\
--- line 1: BadNumber
=== a carriage return that no line feed follows is a byte of its path
places 1 1
client 1 list /
client 1 list /\r\
--- line 3: BadPath
=== a carriage return that no line feed follows is a word
places 1 1
client 1 list /
\r\
--- line 3: BadCommand
=== a word that no line feed ends
places 1 1
client 1 list /
frob\
--- line 3: BadCommand
=== turns of a client that has no command yet
places 1 1
turns 1
client 1 list /
--- line 2: BadNumber
=== lines that end with a carriage return and a line feed are counted as others
#\r
places 64 64\r
\r
turns 1\r
--- line 4: BadNumber
=== turns of what is not built, which no line feed ends
places 1 1
turns r\
--- line 2: NotBuilt
=== a client behind the turns, whatever else is wrong with its number
places 1 1
client 1 list /
turns 1
client 33 x\
--- line 4: LateLine
=== a client behind the turns, whatever else is wrong with its words
places 1 1
client 1 list /
turns 1
#
client 33
--- line 5: LateLine
=== a stop behind the turns
places 1 1
client 1 list /
turns 1
turns 1
stop 1 1
--- line 5: LateLine
=== a word that is not known behind the turns
places 1 1
client 1 list /
turns 1
frob\
--- line 4: BadCommand
=== a word that is not known behind the turns, and a late line
places 1 1
client 1 list /
turns 1
frob
client 1 a
--- line 4: BadCommand
=== the first of two lines
places 1 1
client 33 list /
turns 2
--- line 2: BadNumber
=== the first line of two
places 65 1
client 33 list /
--- line 1: BadNumber
";

#[test]
fn the_first_of_several_faults(rt: HostRuntime) -> Result<(), Fail> {
    answers_each(&rt, FIRST_FAULTS)
}
