//! Lines that are commands, each with its places and its budget. Their words stand between bars.

pub(crate) const RUN: [(&str, &str, Option<u64>); 34] = [
    ("run|s", "s", None),
    ("run|s|--budget|33", "s", Some(33)),
    ("run|--budget|33|s", "s", Some(33)),
    ("run|s|--budget=34", "s", Some(34)),
    ("run|--budget=34|s", "s", Some(34)),
    ("run|s|--budget|0", "s", Some(0)),
    ("run|s|--budget|4294967296", "s", Some(4294967296)),
    ("run|s|--budget=4294967296", "s", Some(4294967296)),
    ("run|s|--budget|+5", "s", Some(5)),
    ("run|s|--budget=+5", "s", Some(5)),
    ("run|s|--budget|007", "s", Some(7)),
    ("run|s|--budget=-0", "s", Some(0)),
    ("run|s|--budget=-000", "s", Some(0)),
    (
        "run|s|--budget|000000000000000000000000000000000000000000000000000009",
        "s",
        Some(9),
    ),
    ("run|--|s", "s", None),
    ("run|s|--", "s", None),
    ("run|--|-s", "-s", None),
    ("run|--|--", "--", None),
    ("run|--|--budget", "--budget", None),
    ("run|--|--budget=5", "--budget=5", None),
    ("run|--|--costs", "--costs", None),
    ("run|--|--help", "--help", None),
    ("run|--budget|5|--|s", "s", Some(5)),
    ("run|--budget=5|--|--budget=6", "--budget=6", Some(5)),
    ("run|--budget|5|s|--", "s", Some(5)),
    ("run|run", "run", None),
    ("run|budget", "budget", None),
    ("run|=", "=", None),
    ("run|a b", "a b", None),
    ("run|5|--budget|6", "5", Some(6)),
    ("run|--budget|6|5", "5", Some(6)),
    ("run|s-", "s-", None),
    ("run|+", "+", None),
    ("run|\u{e9}", "\u{e9}", None),
];

pub(crate) const PACK: [(&str, &str, &str, Option<u64>); 13] = [
    ("pack|a|b", "a", "b", None),
    ("pack|a|b|--budget|7", "a", "b", Some(7)),
    ("pack|a|--budget|7|b", "a", "b", Some(7)),
    ("pack|--budget|7|a|b", "a", "b", Some(7)),
    ("pack|a|--budget=7|b", "a", "b", Some(7)),
    ("pack|a|--|b", "a", "b", None),
    ("pack|--|a|b", "a", "b", None),
    ("pack|--|-a|-b", "-a", "-b", None),
    ("pack|a|--|--", "a", "--", None),
    ("pack|a|./a", "a", "./a", None),
    ("pack|a|A", "a", "A", None),
    (
        "pack|--budget=1|--|--budget=1|b",
        "--budget=1",
        "b",
        Some(1),
    ),
    ("pack|--budget|1|--|--budget|1", "--budget", "1", Some(1)),
];

pub(crate) const UNPACK: [(&str, &str, &str); 5] = [
    ("unpack|p|t", "p", "t"),
    ("unpack|--|p|t", "p", "t"),
    ("unpack|p|--|-t", "p", "-t"),
    ("unpack|p|./p", "p", "./p"),
    ("unpack|--|--budget|5", "--budget", "5"),
];

pub(crate) const STATS: [(&str, &str); 4] = [
    ("stats|x.mtx", "x.mtx"),
    ("stats|--|x", "x"),
    ("stats|--|--budget=5", "--budget=5"),
    ("stats|stats", "stats"),
];
