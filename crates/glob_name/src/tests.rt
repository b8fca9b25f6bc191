use crate::matches;
use std::process::Abort;

#[derive(Drop)]
struct Row(&'static [u8], &'static [u8], bool);

fn try_rows(rt: &impl Abort, rows: &[Row]) {
    for row in rows {
        assert!(rt; matches(row.0, row.1) == row.2, "{:?} {:?}", row.0, row.1);
    }
}

// The clauses say what a pattern means; these are the meanings that were intended.
#[test]
fn patterns_match_these_names(rt: HostRuntime) {
    let rows = [
        Row(b"ge-*", b"ge-0/0/0", true),
        Row(b"ge-?/0/[0-3]", b"ge-1/0/3", true),
        Row(b"[!a-c]x", b"bx", false),
        Row(b"a[b", b"a[b", true),
        Row(b"*", b"", true),
        Row(b"*a*b?", b"xaxbxabc", true),
        Row(b"[]", b"x", false),
        Row(b"[!]", b"x", true),
        Row(b"[a-]", b"-", true),
        Row(b"[b-a]", b"a", false),
        Row(b"[!", b"[!", true),
    ];
    try_rows(&rt, &rows);
}
