//! The table of calls: the subcommand of each, what it does, and its arguments. clap's command is
//! made from it, and the values that clap matched are read by its rows.
use dpbr_cli::{Argument, EXPLAIN, Kind, Place, SINGLE, Subcommand};

pub const LISTING: Argument<'static> = (
    "listing",
    Place::Needed,
    Kind::Word,
    Some("FILE"),
    "a listing of the ports tree",
);

pub const BUILDS: Argument<'static> = (
    "builds",
    Place::Needed,
    Kind::Word,
    Some("FILE"),
    "files for package paths, as JSON",
);

pub const WORK: Argument<'static> = (
    "work",
    Place::Needed,
    Kind::Word,
    Some("FOLDER"),
    "the folder for jobs and their results",
);

pub const DIR: Argument<'static> = (
    "dir",
    Place::Needed,
    Kind::Word,
    Some("FOLDER"),
    "the folder of the nodes' logs",
);

pub const MEMBERS: Argument<'static> = (
    "members",
    Place::Needed,
    Kind::Number(1, 9),
    Some("N"),
    "how many members there are, 1 to 9",
);

pub const TURNS: Argument<'static> = (
    "turns",
    Place::Needed,
    Kind::Number(0, 1_000_000),
    Some("T"),
    "how many turns are taken, 0 to 1000000",
);

pub const WEIGHTS: Argument<'static> = (
    "weights",
    Place::Optional,
    Kind::Word,
    Some("W0,W1,.."),
    "what each member weighs, 1 to 100 [default: 1 each]",
);

pub const JOBS: Argument<'static> = (
    "jobs",
    Place::Optional,
    Kind::Number(1, 64),
    Some("J"),
    "how many units are built here at a time, 1 to 64 [default: 1]",
);

pub const TAKEOVER: Argument<'static> = (
    "takeover",
    Place::Optional,
    Kind::Number(1, 1_000_000),
    Some("S"),
    "seconds until a unit of another member is taken over, 1 to 1000000 [default: 600]",
);

pub const TRIES: Argument<'static> = (
    "tries",
    Place::Optional,
    Kind::Number(1, 9),
    Some("N"),
    "at how many members a unit's build may fail before nobody else tries, 1 to 9 [default: 2]",
);

pub const REST: Argument<'static> = (
    "rest",
    Place::Optional,
    Kind::Number(1, 1_000_000),
    Some("S"),
    "seconds without work after which the node ends, 1 to 1000000 [default: never]",
);

pub const PROGRESS_IN_TURNS: Argument<'static> = (
    "progress",
    Place::Optional,
    Kind::Number(1, 1_000_000),
    Some("N"),
    "print the lines every N turns, too [default: only at the end]",
);

pub const PROGRESS_IN_SECONDS: Argument<'static> = (
    "progress",
    Place::Optional,
    Kind::Number(1, 1_000_000),
    Some("S"),
    "print the line every S seconds, too [default: only at the end]",
);

pub const TRACE: Argument<'static> = (
    "trace",
    Place::Optional,
    Kind::Word,
    Some("FILE"),
    "where to write the run's events",
);

pub const ME: Argument<'static> = (
    "me",
    Place::Needed,
    Kind::Number(0, 255),
    Some("K"),
    "the number of this member, from 0 on",
);

pub const BASE: Argument<'static> = (
    "base",
    Place::Optional,
    Kind::Number(1024, 65_526),
    Some("PORT"),
    "member K listens at PORT + K: 1024 to 65526",
);

pub const HOSTS: Argument<'static> = (
    "hosts",
    Place::Optional,
    Kind::Word,
    Some("A0:P0,A1:P1,.."),
    "where each member listens, if --base is not given",
);

pub const PATIENCE: Argument<'static> = (
    "patience",
    Place::Optional,
    Kind::Number(0, 60_000),
    Some("MS"),
    "milliseconds that a turn may wait, 0 to 60000 [default: 20]",
);

pub const KEY: Argument<'static> = (
    "key",
    Place::Optional,
    Kind::Word,
    Some("FILE"),
    "the file of the run's key, as `dpbn key` makes it",
);

pub const UNSEALED: Argument<'static> = (
    "unsealed",
    Place::Optional,
    Kind::Flag,
    None,
    "there is no key: all datagrams are trusted",
);

pub const CONTINUE: Argument<'static> = (
    "continue",
    Place::Optional,
    Kind::Flag,
    None,
    "refuse to start if there is no log",
);

pub const FILE: Argument<'static> = (
    "FILE",
    Place::Positional,
    Kind::Word,
    None,
    "the file of the key, which must not exist",
);

/// The arguments of the subcommands whose nodes take a given number of turns.
pub const SHARED: &[Argument<'static>] = &[
    LISTING,
    BUILDS,
    DIR,
    MEMBERS,
    TURNS,
    WEIGHTS,
    PROGRESS_IN_TURNS,
    SINGLE,
];

/// The arguments about the site of a node whose claims are built.
pub const SITE: &[Argument<'static>] = &[
    LISTING,
    WORK,
    DIR,
    MEMBERS,
    WEIGHTS,
    JOBS,
    TAKEOVER,
    TRIES,
    REST,
    PROGRESS_IN_SECONDS,
    SINGLE,
];

/// The arguments of the subcommands for the node of one member.
pub const ONE_NODE: &[Argument<'static>] = &[ME, BASE, HOSTS, PATIENCE, KEY, UNSEALED, CONTINUE];

const CLUSTER: Subcommand<'static> = (
    "cluster",
    "Runs the nodes of all members in one process, and prints what each shows.",
    &[SHARED, &[TRACE]],
);

const NODE: Subcommand<'static> = (
    "node",
    "Runs the node of one member, and prints what it shows.",
    &[SHARED, ONE_NODE],
);

const BUILD: Subcommand<'static> = (
    "build",
    "Runs the node of one member, and has its claims built here.",
    &[SITE, ONE_NODE],
);

const NEW_KEY: Subcommand<'static> = (
    "key",
    "Makes a file with a new key, for the nodes of one run.",
    &[&[FILE]],
);

/// The subcommands of `dpbn`.
pub static CALLS: [Subcommand<'static>; 5] = [CLUSTER, NODE, BUILD, NEW_KEY, EXPLAIN];
