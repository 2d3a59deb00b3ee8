//! A question, and its answer.

/// What some versions say of a path at a time:
/// - the versions, as words `PATH@COMMIT.NUMBER=VALUE` with `-` for a delete;
/// - the path and the time that are asked for;
/// - the value, or `-` where there is none;
/// - the rows of a scan, as words `PATH=VALUE`.
///
/// A path is spelled as its parts between slashes, and a time is in microseconds.
pub type ValueCase = (&'static str, &'static str, u64, &'static str, &'static str);

/// Puts and deletes above and beneath each other, at equal and at different times, in whatever order they are given.
pub const VALUE_CASES: [ValueCase; 23] = [
    // A put over a path with subkeys.
    ("k@10.0=a k/a@20.0=b k@30.0=c", "k", 9, "-", ""),
    ("k@10.0=a k/a@20.0=b k@30.0=c", "k", 10, "a", "k=a"),
    ("k@10.0=a k/a@20.0=b k@30.0=c", "k", 25, "a", "k=a k/a=b"),
    ("k@10.0=a k/a@20.0=b k@30.0=c", "k/a", 25, "b", "k/a=b"),
    ("k@10.0=a k/a@20.0=b k@30.0=c", "k", 30, "c", "k=c"),
    ("k@10.0=a k/a@20.0=b k@30.0=c", "k/a", 30, "-", ""),
    // A delete above and beneath.
    (
        "k@10.0=a k/a@10.1=b k/a/x@10.2=c k/a@20.0=-",
        "k/a/x",
        19,
        "c",
        "k/a/x=c",
    ),
    (
        "k@10.0=a k/a@10.1=b k/a/x@10.2=c k/a@20.0=-",
        "k/a/x",
        20,
        "-",
        "",
    ),
    (
        "k@10.0=a k/a@10.1=b k/a/x@10.2=c k/a@20.0=-",
        "k",
        20,
        "a",
        "k=a",
    ),
    ("k@10.0=a k/a@10.1=b k@20.0=- k/a@30.0=c", "k", 20, "-", ""),
    (
        "k@10.0=a k/a@10.1=b k@20.0=- k/a@30.0=c",
        "k",
        30,
        "-",
        "k/a=c",
    ),
    // Newer in time and lower in number.
    ("k@10.7=a k@20.0=b", "k", 20, "b", "k=b"),
    ("k@20.0=b k@10.7=a", "k", 19, "a", "k=a"),
    // Two writes of one transaction at one path, and at a path and the one above it.
    ("k@10.1=b k@10.0=a", "k", 10, "b", "k=b"),
    ("k@10.1=b k/a@10.0=a", "k", 10, "b", "k=b"),
    ("k@10.0=b k/a@10.1=a", "k", 10, "b", "k=b k/a=a"),
    // A scan with holes, which passes by what only has the same first bytes.
    (
        "k@10.0=a k/a@10.1=b k/b@10.2=c k/c@10.3=d ka@10.4=z k/b@20.0=-",
        "k",
        20,
        "a",
        "k=a k/a=b k/c=d",
    ),
    (
        "k@10.0=a k/a@10.1=b k/b@10.2=c k/c@10.3=d ka@10.4=z k/b@20.0=-",
        "k",
        10,
        "a",
        "k=a k/a=b k/b=c k/c=d",
    ),
    (
        "k/b@10.0=c k/a/y@10.1=b k/a@10.2=a",
        "k",
        10,
        "-",
        "k/a=a k/b=c",
    ),
    ("", "k", 10, "-", ""),
    // The order of commits, whatever the order of the list.
    ("k@20.0=b k@10.0=a", "k", 20, "b", "k=b"),
    ("k@20.0=b k/a@10.0=a", "k/a", 20, "-", ""),
    ("k@20.0=b k/a@20.1=a k@10.0=c", "k/a", 20, "a", "k/a=a"),
];
