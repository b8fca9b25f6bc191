use crate::{JsonFault, ReadFault, read, write};
use cfg_tree::Tree;
use curly_grammar::parse;
use std::alloc::Global;
use std::process::Abort;

#[derive(Drop)]
struct Row(&'static [u8], &'static [u8]);

fn try_row(rt: &impl Abort, alloc: Global, row: &Row) {
    let marked = parse(alloc, row.0).expect(rt, "a configuration");
    let text = write(alloc, &marked.tree).expect(rt, "memory");
    assert_eq!(rt; text.as_slice(), row.1);
    let tree = read(alloc, text.as_slice()).expect(rt, "what was written");
    assert!(rt; tree.same(&marked.tree));
}

// The clauses say what is written by definitions; these texts, written by hand, show what was intended.
#[test]
fn configurations_are_written_so(rt: HostRuntime) {
    let alloc = rt.alloc();
    let rows = [
        Row(b"", b"{\"configuration\":{}}\n"),
        Row(
            b"system { host-name r1; }",
            b"{\"configuration\":{\"system\":{\"host-name\":\"r1\"}}}\n",
        ),
        Row(
            b"interfaces { inactive: ge-0/0/0 { unit 0; } }",
            b"{\"configuration\":{\"interfaces\":{\"-\":[{\"@\":[\"inactive\"],\"name\":\"ge-0/0/0\",\"unit\":[{\"name\":\"0\"}]}]}}}\n",
        ),
    ];
    for row in &rows {
        try_row(&rt, alloc, row);
    }
}

fn kind_of_fault(fault: &JsonFault) -> &'static [u8] {
    match fault {
        JsonFault::NotJson => b"not json",
        JsonFault::Unknown(_) => b"unknown",
        JsonFault::BadValue(_) => b"bad value",
        JsonFault::Form(_) => b"wrong form",
        JsonFault::TooMany => b"too many",
    }
}

fn kind_of(answer: &Result<Tree, ReadFault>) -> &'static [u8] {
    match answer {
        Ok(_) => b"read",
        Err(ReadFault::Json(fault)) => kind_of_fault(fault),
        Err(ReadFault::NoMemory) => b"out of memory",
    }
}

fn try_text(rt: &impl Abort, alloc: Global, row: &Row) {
    let answer = read(alloc, row.0);
    assert_eq!(rt; kind_of(&answer), row.1);
}

// One text of each kind; which path a fault has is asked by a script of call_scripts.
#[test]
fn texts_have_these_faults(rt: HostRuntime) {
    let alloc = rt.alloc();
    let rows = [
        Row(b"{", b"not json"),
        Row(b"{}", b"wrong form"),
        Row(
            b"{\"configuration\":{\"system\":{\"hostname\":\"r1\"}}}",
            b"unknown",
        ),
        Row(
            b"{\"configuration\":{\"system\":{\"host-name\":5}}}",
            b"wrong form",
        ),
        Row(
            b"{\"configuration\":{\"interfaces\":{\"-\":[{\"name\":\"ge-0/0/0\",\"mtu\":9000}]}}}",
            b"read",
        ),
    ];
    for row in &rows {
        try_text(&rt, alloc, row);
    }
}
