//! The table of faults: the number of each, what happened, and what to do.

/// The faults by number: what happened, with K for the place that is reported, and what to do. A
/// number has a row for each cause. The causes are the errors of the other crates.
pub static FAULTS: [(u16, &str, &str); 82] = [
    (
        1,
        "out of memory",
        "Free memory or raise the memory limit, then run the program again.",
    ),
    (
        2,
        "a file can't be read or written",
        "Check that the files and folders that were named exist, and who may use them.",
    ),
    (
        2,
        "a file of the work folder can't be read or written",
        "Check the folder of --work: its owner, its mode and the space that is left.",
    ),
    (
        2,
        "the file can't be read or written",
        "Check the key file: dpbn key replaces no file, and --key needs one that exists.",
    ),
    (
        2,
        "the answer can't be written",
        "Check standard output: its disk is full, or the program that read it has ended.",
    ),
    (
        101,
        "the path is empty",
        "Give a package path, such as devel/gmake.",
    ),
    (
        102,
        "the directory has no slash",
        "Write category/port, such as devel/gmake.",
    ),
    (
        103,
        "the path has a byte or a component that isn't allowed",
        "Correct the path; dpbn-formats(5) says how package paths are written.",
    ),
    (
        104,
        "the path has more than one subpackage",
        "Name only one subpackage, as in lang/python/3,-main.",
    ),
    (
        105,
        "the path has more than 255 bytes",
        "Give a path of at most 255 bytes.",
    ),
    (
        106,
        "the path has more than one empty part",
        "Remove the extra commas.",
    ),
    (
        201,
        "the name has no version",
        "Correct the package name. In a listing this is reported as fault 401.",
    ),
    (
        202,
        "the name has a byte that isn't allowed, or an empty flavor",
        "Correct the package name. In a listing this is reported as fault 401.",
    ),
    (
        203,
        "the name has more than 255 bytes",
        "Shorten the package name. In a listing this is reported as fault 401.",
    ),
    (
        301,
        "the spec or an alternative is empty",
        "Correct the dependency. In a listing this is reported as fault 401.",
    ),
    (
        302,
        "a bound is neither a star nor a version, alone or after one operator",
        "Correct the dependency. In a listing this is reported as fault 401.",
    ),
    (
        303,
        "a stem or a flavor has a byte that isn't allowed, or a flavor is empty",
        "Correct the dependency. In a listing this is reported as fault 401.",
    ),
    (
        304,
        "the spec has more than 1024 bytes",
        "Shorten the dependency. In a listing this is reported as fault 401.",
    ),
    (
        401,
        "line K is malformed",
        "Make the listing anew with expand-listing(1), or correct that line.",
    ),
    (
        402,
        "line K contains a malformed package path",
        "Correct the path in that line of the listing.",
    ),
    (
        403,
        "line K sets a variable to another value",
        "Remove that line or the earlier one: a variable of a path has one value.",
    ),
    (
        404,
        "line K exceeds the limit of paths or dependencies",
        "Shorten the listing: at most 16384 paths, and 512 dependencies in one value.",
    ),
    (
        405,
        "the path at line K has no name",
        "Add a line with the FULLPKGNAME of the path that first occurs in that line.",
    ),
    (
        601,
        "no round is left",
        "Programs report this as fault 906.",
    ),
    (
        701,
        "line K is not what a record has at that place",
        "No program reports this. A record that was damaged on its way is fault 1202.",
    ),
    (
        702,
        "the record is cut short",
        "No program reports this. A record that was damaged on its way is fault 1202.",
    ),
    (
        703,
        "bytes follow the record",
        "No program reports this. A record that was damaged on its way is fault 1202.",
    ),
    (
        704,
        "the file of line K has another digest",
        "No program reports this. A record that was damaged on its way is fault 1202.",
    ),
    (
        705,
        "file name K is invalid or a duplicate",
        "Programs report this as fault 907.",
    ),
    (
        706,
        "the record is too large",
        "Programs report this as fault 907.",
    ),
    (
        801,
        "the weights of the members are invalid",
        "Give --weights one number for each member, each from 1 to 100.",
    ),
    (
        901,
        "line K names a path that is not listed",
        "Remove that line of HELD, or use the listing that has the path.",
    ),
    (
        901,
        "the path is not listed",
        "Name a path or a unit of the listing.",
    ),
    (
        902,
        "line K names a path that is ignored",
        "Remove that line of HELD; why-ignored(1) says why the path is ignored.",
    ),
    (
        902,
        "the path is ignored",
        "Choose another path; why-ignored(1) says why this one is ignored.",
    ),
    (
        903,
        "the build waits for dependencies",
        "Correct that event: the node can claim the unit only once it holds what it needs.",
    ),
    (
        904,
        "the packages are already held",
        "Remove that event: the node needs no claim or question for the unit.",
    ),
    (
        905,
        "there is no open claim for this",
        "Correct that event: the node has to claim the unit first and get promises for it.",
    ),
    (
        906,
        "no round is left",
        "Begin a new run; what is published can be handed in to its nodes as builds.",
    ),
    (
        907,
        "the files don't make a build",
        "Check the names and sizes of the files; a build has at most 4194304 bytes.",
    ),
    (
        908,
        "the message is about another tree",
        "Programs report this as fault 1202.",
    ),
    (
        909,
        "the message is not from a member",
        "Programs report this as fault 1202.",
    ),
    (
        909,
        "--me is not below --members",
        "Give --me a number from 0 on that is below --members.",
    ),
    (
        910,
        "the files are for other packages",
        "Give files for each package of the unit, and for no other package.",
    ),
    (
        1001,
        "the device failed",
        "Check the disk of the log and the space that is left, then run the node again.",
    ),
    (
        1001,
        "node K went down",
        "Check the disk of that node's log and the space that is left, then run it again.",
    ),
    (
        1002,
        "the log is full",
        "Begin a new run; what is published can be handed in to its nodes as builds.",
    ),
    (
        1003,
        "the log must be reopened",
        "No program reports this: the node is down until it is run again.",
    ),
    (
        1004,
        "the file is not a log",
        "Check --dir: the file of that name in the folder was not written by dpbn.",
    ),
    (
        1005,
        "the log belongs to another cluster or another member",
        "Use the listing, members, weights and number of the log's run, or another --dir.",
    ),
    (
        1006,
        "line K of the run file shows that the log belongs to another run",
        "Check --dir. Line 2 is the listing, 3 members and weights, 4 the number, 5 the key.",
    ),
    (
        1007,
        "the member's log is lost",
        "Leave this member out, or begin a new run; dpbn(1) says why, and how.",
    ),
    (
        1008,
        "there is no run to continue",
        "Check --dir, or begin the run without --continue.",
    ),
    (
        1101,
        "the bytes end early",
        "Programs report this as fault 1202.",
    ),
    (
        1102,
        "the bytes don't begin like a datagram",
        "Programs report this as fault 1202.",
    ),
    (
        1103,
        "the kind is unknown",
        "Programs report this as fault 1202.",
    ),
    (
        1104,
        "a field is out of its range",
        "Programs report this as fault 1202.",
    ),
    (
        1105,
        "there are extra bytes at the end",
        "Programs report this as fault 1202.",
    ),
    (
        1106,
        "more bytes than a datagram may have",
        "Programs report this as fault 1202.",
    ),
    (
        1201,
        "the node stopped",
        "No program reports this: the node is down until it is run again.",
    ),
    (
        1202,
        "the datagram is foreign",
        "If it repeats, give all members the same listing, and --single to all or to none.",
    ),
    (
        1202,
        "no such datagram was sent",
        "If it repeats, end the program that sends to the ports of this cluster.",
    ),
    (
        1203,
        "the log is not new",
        "Give dpbn cluster an empty folder: it continues no run.",
    ),
    (
        1204,
        "a socket can't be bound",
        "Check the addresses and ports; another process may be using one of them.",
    ),
    (
        1205,
        "the port failed",
        "No program reports this: a datagram that the system refuses counts as lost.",
    ),
    (
        1206,
        "entry K is not an address that a member can have",
        "Correct --hosts: for each member another IPv4 address and port, as 10.0.0.1:5000.",
    ),
    (
        1207,
        "the file doesn't contain a key",
        "Make a key with dpbn key, and copy that file to each host.",
    ),
    (
        1208,
        "others may read or write the key file",
        "Run chmod 600 on the key file.",
    ),
    (
        1209,
        "the work folder has files of another run",
        "Give --work an empty folder, or the one that belongs to the log.",
    ),
    (
        1210,
        "others may write in the folder",
        "Run chmod go-w on the folder, and check what others wrote in it.",
    ),
    (
        1301,
        "there is no such node",
        "Name a node of the trace; the first one is node 0.",
    ),
    (
        1302,
        "no such datagram was sent",
        "Correct that event: it names a datagram by its number among those sent before it.",
    ),
    (
        1303,
        "the node is down",
        "Add an event before that starts the node, or name a node that is up.",
    ),
    (
        1304,
        "the node is up",
        "Remove that event: only a node that is down can start.",
    ),
    (
        1305,
        "the trace is malformed at event K",
        "Correct that event; 0 is the text outside the events. See dpbn-formats(5).",
    ),
    (
        1305,
        "event K of the trace is refused",
        "Correct that event; dpbn-formats(5) says which ones a node can stop inside.",
    ),
    (
        1305,
        "BUILDS is malformed",
        "Write it with make-builds(1), or correct its JSON; see dpbn-formats(5).",
    ),
    (
        1305,
        "the answer to a job is malformed",
        "Hand in answers with build-jobs(1); the unit's file in work/failed says more.",
    ),
    (
        1306,
        "no majority of the members is up",
        "Add events that start more nodes, until those that are up have most of the weight.",
    ),
    (
        1307,
        "the path is not queued",
        "Name a path that the node shows as Q; dpbr run prints how many there are.",
    ),
    (
        1308,
        "line K is not a package path",
        "Correct that line of HELD: it has one package path a line.",
    ),
    (
        1308,
        "line K doesn't belong to a list of packages",
        "Correct that line of LIST; dpbn-formats(5) describes the lines.",
    ),
];
