//! What is wrong with a line.
ghost use Rattle.std.specs.Prelude.{◌≡◌};
ghost use Rattle.next_grammar.specs.declared.fault.Refusal.TheVariants.{NoMemory as TheNoMemory};

use next_ids::NoMemory;

/// What is wrong with a line of a script.
#[derive(Clone, Copy, Debug, PartialEq, Eq)]
pub enum Fault {
    /// The first line that counts isn't `places`, though its first word is one of the four, or there is none.
    NoPlaces,
    /// A number isn't written in digits without a leading zero, or is out of its range; or the line names a client that
    /// has no command, or one that has a `stop` line already.
    BadNumber,
    /// The first word, or the command, isn't known, or the number of words is wrong.
    BadCommand,
    /// A path isn't 1 to 64 times a slash and a component, in 1,024 bytes at most, nor, for `list` and `stat`, the root.
    BadPath,
    /// A limit on bytes, commands, lists or turns is passed.
    TooMany,
    /// The line has over 4,096 bytes.
    LineTooLong,
    /// A second `places` line, or a `client` or `stop` line behind a `turns` line.
    LateLine,
    /// Nothing else is wrong with the line, and it needs what isn't built.
    NotBuilt,
}

/// Why a line says nothing.
#[derive(Clone, Copy, Debug, PartialEq, Eq)]
pub enum Refusal {
    Fault(Fault),
    /// No memory was left.
    NoMemory,
}

impl From<NoMemory> for Refusal {
    ghost from_gives = { λ _ refusal. refusal ≡ TheNoMemory };

    fn from(_: NoMemory) -> Refusal {
        Refusal::NoMemory
    }
}
