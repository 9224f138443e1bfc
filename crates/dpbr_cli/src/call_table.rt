//! The table of calls: the subcommand of each, what it does, and its arguments. clap's command is
//! made from it, and the values that clap matched are read by its rows.

/// How an argument is given.
#[derive(Clone, Copy, Debug)]
pub enum Place {
    /// By its place among the words. It is required.
    Positional,
    /// By its name, after two dashes. It may be left out.
    Optional,
    /// By its name, after two dashes. It is required.
    Needed,
}

/// What an argument takes.
#[derive(Clone, Copy, Debug)]
pub enum Kind {
    /// A word.
    Word,
    /// A number from a minimum to a maximum.
    Number(u32, u32),
    /// Nothing: the argument is a flag, which is given or not.
    Flag,
}

/// An argument: its name, how it is given, what it takes, the name of its value in the help if that
/// is another one, and its help.
pub type Argument<'a> = (&'a str, Place, Kind, Option<&'a str>, &'a str);

/// A subcommand: its name, what it does, and its arguments, as lists that other subcommands may
/// have, too.
pub type Subcommand<'a> = (&'a str, &'a str, &'a [&'a [Argument<'a>]]);

pub const LISTING: Argument<'static> = (
    "LISTING",
    Place::Positional,
    Kind::Word,
    None,
    "a listing of the ports tree",
);

pub const HELD: Argument<'static> = (
    "HELD",
    Place::Positional,
    Kind::Word,
    None,
    "the package paths that are held, one a line",
);

pub const LIST: Argument<'static> = (
    "LIST",
    Place::Positional,
    Kind::Word,
    None,
    "the packages, in the order in which they were built",
);

pub const TRACE: Argument<'static> = (
    "TRACE",
    Place::Positional,
    Kind::Word,
    None,
    "the events of a run, as JSON",
);

pub const NODE: Argument<'static> = (
    "NODE",
    Place::Positional,
    Kind::Number(0, 255),
    None,
    "the node that is to hold the packages",
);

pub const PATH: Argument<'static> = (
    "PATH",
    Place::Positional,
    Kind::Word,
    None,
    "a path of the packages that the node is to hold",
);

pub const HOST: Argument<'static> = (
    "HOST",
    Place::Positional,
    Kind::Number(0, 65535),
    None,
    "the host that builds them",
);

pub const BUILDS: Argument<'static> = (
    "BUILDS",
    Place::Positional,
    Kind::Word,
    None,
    "files for package paths, as JSON",
);

pub const NUMBER: Argument<'static> = (
    "NUMBER",
    Place::Positional,
    Kind::Number(0, 65535),
    None,
    "the number of the fault",
);

pub const SINGLE: Argument<'static> = (
    "single",
    Place::Optional,
    Kind::Flag,
    None,
    "each path is built by itself",
);

pub const EVENTS: Argument<'static> = (
    "events",
    Place::Optional,
    Kind::Flag,
    None,
    "a line for each event comes first",
);

const STATUS: Subcommand<'static> = (
    "status",
    "Prints the letter of each package path, and how many paths have each letter.",
    &[&[LISTING, HELD, SINGLE]],
);

const AUDIT: Subcommand<'static> = (
    "audit",
    "Says whether builds of a listing can have made the packages of a list, in its order.",
    &[&[LISTING, LIST, SINGLE]],
);

const RUN: Subcommand<'static> = (
    "run",
    "Runs a trace, and prints what each node shows and which packages are agreed.",
    &[&[LISTING, TRACE, SINGLE, EVENTS]],
);

const WAYON: Subcommand<'static> = (
    "wayon",
    "Prints a trace with further events, after which a node holds a build.",
    &[&[LISTING, TRACE, NODE, PATH, HOST, BUILDS, SINGLE]],
);

pub const EXPLAIN: Subcommand<'static> = (
    "explain",
    "Prints what a fault means, and what to do.",
    &[&[NUMBER]],
);

/// The subcommands of `dpbr`.
pub static CALLS: [Subcommand<'static>; 5] = [STATUS, AUDIT, RUN, WAYON, EXPLAIN];
