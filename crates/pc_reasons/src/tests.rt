//! Bad lines of scripts and workloads, and their reasons.
use crate::{put_script_faults, put_workload_fault, workload_fault};
use pc_io::Tally;
use pc_jobs::{WorkloadReading, read_workload};
use pc_types::Refusal;
use std::alloc::Global;
use std::test::Fail;

const NAME: &[u8] = b"a b.pcs";

const SCRIPT: &[u8] = b"base a 1
frob
 # x
# x
point 1
begin
begin x
state 0x1
get 1 k\\q
base k \\x4A
base \\s0:k 1
join 1 +2
put 1 k \x01
add 1 k 9223372036854775808
put x - y
get 1 k\r\r
get 1 k\r

put 1 k v w
del 1 k
check
check\r";

const TOLD: &[u8] = b"a\\x20b.pcs:2: the first word names no command
a\\x20b.pcs:3: the first word names no command
a\\x20b.pcs:5: there are too many words
a\\x20b.pcs:6: a word is missing
a\\x20b.pcs:7: the second word is no session number
a\\x20b.pcs:8: the second word is no file number
a\\x20b.pcs:9: the third word is no key
a\\x20b.pcs:10: the third word is no value
a\\x20b.pcs:11: the second word is no key
a\\x20b.pcs:12: the third word is no file number
a\\x20b.pcs:13: the fourth word is no value
a\\x20b.pcs:14: the fourth word is no number to add
a\\x20b.pcs:15: the second word is no session number
a\\x20b.pcs:16: a CR stands at its end
a\\x20b.pcs:19: there are too many words
a\\x20b.pcs:22: a CR stands at its end
";

/// A workload, and the reason for its first bad line.
const WORKLOADS: [(&[u8], &[u8]); 18] = [
    (
        b"points 1001\n",
        b":1: the second word is no number from 0 to 1000\n",
    ),
    (
        b"points 1\n\npoints 1\n",
        b":3: the number of points was given before\n",
    ),
    (
        b"client 1\npoints 1\n",
        b":2: the number of points stands behind a client\n",
    ),
    (
        b"client 1\nclient 01\n",
        b":2: the session has a client already\n",
    ),
    (
        b"client 65\n",
        b":1: the second word is no session number from 1 to 64\n",
    ),
    (b"txn\nend\n", b":1: no client stands before it\n"),
    (b"fill - 1 x\n", b":1: no client stands before it\n"),
    (b"client 1\ntxn\n", b":2: its transaction has no end\n"),
    (b"client 1\nget k\n", b":2: no transaction is open\n"),
    (
        b"client 1\ntxn\nend\nend\n",
        b":4: no transaction is open\n",
    ),
    (
        b"client 1\ntxn\nput - v\nend\n",
        b":3: the second word is no key of 1 to 255 bytes\n",
    ),
    (
        b"client 1\ntxn\nput k \\q\nend\n",
        b":3: the third word is no value of at most 65535 bytes\n",
    ),
    (
        b"client 1\ntxn\nadd k x\nend\n",
        b":3: the third word is no number to add\n",
    ),
    (
        b"client 1\nfill - 0 x\n",
        b":2: the third word is no number from 1 to 1000000\n",
    ),
    (
        b"client 1\nfill \\q 1 x\n",
        b":2: the second word is no prefix of at most 249 bytes\n",
    ),
    (b"# x\n\nfrob\n", b":3: the first word names no command\n"),
    (b"txn x\n", b":1: there are too many words\n"),
    (b"client 1\nend\r", b":2: a CR stands at its end\n"),
];

fn told_of_script(alloc: Global, name: &[u8], script: &[u8]) -> Result<Vec<u8>, Refusal> {
    let mut out = Tally::new(Vec::new(alloc));
    put_script_faults(alloc, name, script, &mut out)?;
    Ok(out.into_inner())
}

fn told_of_workload(alloc: Global, text: &[u8]) -> Result<Vec<u8>, Refusal> {
    let mut out = Tally::new(Vec::new(alloc));
    if let WorkloadReading::BadLine(number) = read_workload(alloc, text)? {
        if let Some(fault) = workload_fault(alloc, text, number)? {
            put_workload_fault(b"", number, fault, &mut out)?;
        }
    }
    Ok(out.into_inner())
}

#[test]
fn faults_of_a_script(rt: HostRuntime) -> Result<(), Fail> {
    let told = told_of_script(rt.alloc(), NAME, SCRIPT)?;
    assert_eq!(rt; told.as_slice(), TOLD);
    Ok(())
}

#[test]
fn twenty_lines_are_told(rt: HostRuntime) -> Result<(), Fail> {
    let mut script = Vec::new(rt.alloc());
    for _ in 0..22 {
        script.extend_from_slice(b"x\n")?;
    }
    let told = told_of_script(rt.alloc(), b"n", &script)?;
    assert!(rt; told.ends_with(b":20: the first word names no command\nn: and 2 more\n"));
    Ok(())
}

#[test]
fn faults_of_workloads(rt: HostRuntime) -> Result<(), Fail> {
    for (text, told) in &WORKLOADS {
        let found = told_of_workload(rt.alloc(), text)?;
        assert_eq!(rt; found.as_slice(), *told);
    }
    Ok(())
}
