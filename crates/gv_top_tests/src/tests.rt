//! Whole runs over files that fail and sinks that fail. What `run` answers to words and texts is in the
//! tables of cases, which the built program is run on.

use gv_base::{Held, List, MemFiles, MemSink, Name, NoMemory, Refusal, SureFiles, SureSink};
use gv_top::{one_package, one_script, one_specification, read_small_script, run};
use std::alloc::Global;
use std::process::Abort;
use std::test::Fail;

const PACKAGE: &[u8] =
    b"package adder\n\ntype Adder struct{}\n\nfunc Recover() *Adder {\n\treturn &Adder{}\n}\n\nfunc (s *Adder) Add(a uint64, b uint64) uint64 {\n\treturn a + b\n}\n";

const SPEC: &[u8] =
    b"spec adder;\ndisks 0;\nop Add(a: Word, b: Word) -> Word { reply a + b; }\ncrash { }\n";

const SCRIPT: &[u8] =
    b"pred Crash() { case () { } }\npred H(p: Ref) { case () { } }\ncrash Crash;\nroot H;\ninit { fold Crash() 1 (); }\nrecover { step as (p); share { }; open; boot; fold H(p) 1 (); close; }\nop Add { open; sim me; close; step; }\nop Add { open; sim me; close; step; }\n";

const ACCEPTED: &[u8] = b"accepted for runs without crash\n";

// The length of the script's first block, which ends it.
const BLOCK: usize = 38;

fn held(alloc: Global, name: &[u8], bytes: &[u8]) -> Result<Held, NoMemory> {
    Ok(Held {
        name: Name::from_slice(alloc, name)?,
        bytes: Name::from_slice(alloc, bytes)?,
    })
}

// The adder's three files under the names p, s and t.
fn adder(alloc: Global) -> Result<List<Held>, NoMemory> {
    let mut all = List::new(alloc);
    all.push(held(alloc, b"p", PACKAGE)?)?;
    all.push(held(alloc, b"s", SPEC)?)?;
    all.push(held(alloc, b"t", &SCRIPT[..SCRIPT.len() - BLOCK])?)?;
    Ok(all)
}

fn words_of(alloc: Global, all: &[&str]) -> Result<Vec<String>, NoMemory> {
    let mut words = Vec::new(alloc);
    for word in all {
        words.push(String::from_str(alloc, *word)?)?;
    }
    Ok(words)
}

#[test]
fn accepts_the_adder(rt: HostRuntime) -> Result<(), Fail> {
    let alloc = rt.alloc();
    let words = words_of(alloc, &["check", "p", "s", "t"])?;
    let mut files = SureFiles::new(adder(alloc)?);
    let mut sink = MemSink::new(alloc, 1000, List::new(alloc))?;
    assert_eq!(rt; run(alloc, &words, &mut files, &mut sink), 0);
    assert_eq!(rt; sink.written().as_slice(), ACCEPTED);
    assert_eq!(rt; run(alloc, &words, &mut files, &mut SureSink::new()), 0);
    Ok(())
}

// A history of one call, with its act, and with none.
#[test]
fn explains_a_call(rt: HostRuntime) -> Result<(), Fail> {
    let alloc = rt.alloc();
    let mut all = List::new(alloc);
    all.push(held(alloc, b"s", SPEC)?)?;
    all.push(held(alloc, b"h", b"boot\ncall 1 Add 2 3\nanswer 1 5\n")?)?;
    all.push(held(alloc, b"m", b"boot\ncall 1 Add 2 3\nact 1\nanswer 1 5\n")?)?;
    let mut files = SureFiles::new(all);
    for (moves, status, line) in [
        ("m", 0, "explained\n"),
        ("h", 1, "not explained at 3 NotActed\n"),
    ] {
        let words = words_of(alloc, &["explain", "s", "h", moves])?;
        let mut sink = MemSink::new(alloc, 1000, List::new(alloc))?;
        assert_eq!(rt; run(alloc, &words, &mut files, &mut sink), status);
        assert_eq!(rt; sink.written().as_slice(), line.as_bytes());
    }
    Ok(())
}

// The script's name, the fetches and puts that are to fail, the room, the status, and what is written.
type Row = (
    &'static str,
    &'static [u64],
    &'static [u64],
    u64,
    u8,
    &'static str,
);

static ROWS: [Row; 11] = [
    ("x", &[], &[], 1000, 3, "cannot read x\n"),
    ("", &[], &[], 1000, 3, "cannot read \n"),
    ("t", &[1], &[], 1000, 3, "cannot read p\n"),
    ("t", &[2], &[], 1000, 3, "cannot read s\n"),
    ("t", &[3], &[], 1000, 3, "cannot read t\n"),
    ("t", &[4], &[], 1000, 0, "accepted for runs without crash\n"),
    ("t", &[], &[1], 1000, 6, ""),
    ("t", &[1], &[1], 1000, 6, ""),
    ("json", &[], &[1], 1000, 6, ""),
    ("t", &[], &[], 8, 6, "accepted"),
    ("t", &[], &[2], 1000, 0, "accepted for runs without crash\n"),
];

fn answers<R: Abort>(rt: &R, alloc: Global, row: &Row) -> Result<(), Fail> {
    answers_in(rt, alloc, row, &[])
}

// The same with words behind those of the command.
fn answers_in<R: Abort>(rt: &R, alloc: Global, row: &Row, behind: &[&str]) -> Result<(), Fail> {
    let (script, fetches, puts, room, status, line) = *row;
    let mut words = words_of(alloc, &["check", "p", "s", script])?;
    for word in behind {
        words.push(String::from_str(alloc, *word)?)?;
    }
    let fetches = List::from_vec(Vec::from_slice(alloc, fetches)?);
    let mut files = MemFiles::new(adder(alloc)?, fetches);
    let puts = List::from_vec(Vec::from_slice(alloc, puts)?);
    let mut sink = MemSink::new(alloc, room, puts)?;
    assert_eq!(rt; run(alloc, &words, &mut files, &mut sink), status);
    assert_eq!(rt; sink.written().as_slice(), line.as_bytes());
    Ok(())
}

// The same in JSON. The digests are those of `sha256sum`.
static ROWS_IN_JSON: [Row; 8] = [
    (
        "t",
        &[],
        &[],
        1000,
        0,
        "{\"digests\":[\"22f05fd13a7329eb3112306561ca2d97e684d0f6bc4cdc20f348c82be070ee1b\",\"af565c7b178d240f8160f42b8edd419299ffb8a8aaa7026cc8f33f9bc39e002c\",\"a9b4a8da98c1b34d9a580dbef08730cccd6a37eec5d5dc8daa60d8880c66ff96\"],\"lines\":[\"accepted for runs without crash\"],\"status\":0}\n",
    ),
    (
        "x",
        &[],
        &[],
        1000,
        3,
        "{\"digests\":[\"22f05fd13a7329eb3112306561ca2d97e684d0f6bc4cdc20f348c82be070ee1b\",\"af565c7b178d240f8160f42b8edd419299ffb8a8aaa7026cc8f33f9bc39e002c\"],\"lines\":[\"cannot read x\"],\"status\":3}\n",
    ),
    (
        "a\nb",
        &[],
        &[],
        1000,
        3,
        "{\"digests\":[\"22f05fd13a7329eb3112306561ca2d97e684d0f6bc4cdc20f348c82be070ee1b\",\"af565c7b178d240f8160f42b8edd419299ffb8a8aaa7026cc8f33f9bc39e002c\"],\"lines\":[\"cannot read a\\nb\"],\"status\":3}\n",
    ),
    (
        "t",
        &[1],
        &[],
        1000,
        3,
        "{\"digests\":[],\"lines\":[\"cannot read p\"],\"status\":3}\n",
    ),
    (
        "t",
        &[2],
        &[],
        1000,
        3,
        "{\"digests\":[\"22f05fd13a7329eb3112306561ca2d97e684d0f6bc4cdc20f348c82be070ee1b\"],\"lines\":[\"cannot read s\"],\"status\":3}\n",
    ),
    ("t", &[], &[1], 1000, 6, ""),
    ("t", &[], &[], 12, 6, "{\"digests\":["),
    (
        "t",
        &[],
        &[2],
        1000,
        0,
        "{\"digests\":[\"22f05fd13a7329eb3112306561ca2d97e684d0f6bc4cdc20f348c82be070ee1b\",\"af565c7b178d240f8160f42b8edd419299ffb8a8aaa7026cc8f33f9bc39e002c\",\"a9b4a8da98c1b34d9a580dbef08730cccd6a37eec5d5dc8daa60d8880c66ff96\"],\"lines\":[\"accepted for runs without crash\"],\"status\":0}\n",
    ),
];

#[test]
fn fails_where_the_outside_fails(rt: HostRuntime) -> Result<(), Fail> {
    for row in &ROWS {
        answers(&rt, rt.alloc(), row)?;
    }
    Ok(())
}

#[test]
fn fails_in_json_where_the_outside_fails(rt: HostRuntime) -> Result<(), Fail> {
    for row in &ROWS_IN_JSON {
        answers_in(&rt, rt.alloc(), row, &["json"])?;
    }
    Ok(())
}

// A run of 100,000 crashes, in 600,004 bytes.
#[test]
fn puts_a_long_report_in_pieces(rt: HostRuntime) -> Result<(), Fail> {
    let alloc = rt.alloc();
    let mut schedule = Vec::new(alloc);
    for _ in 0..100_000_u32 {
        schedule.extend_from_slice(b"crash\n")?;
    }
    let mut all = adder(alloc)?;
    all.push(held(alloc, b"c", schedule.as_slice())?)?;
    let mut files = SureFiles::new(all);
    let words = words_of(alloc, &["replay", "p", "s", "c"])?;
    let mut sink = MemSink::new(alloc, 1_000_000, List::new(alloc))?;
    assert_eq!(rt; run(alloc, &words, &mut files, &mut sink), 0);
    assert_eq!(rt; sink.written().as_slice().len(), 600_004);
    let puts = List::from_vec(Vec::from_slice(alloc, &[2])?);
    let mut sink = MemSink::new(alloc, 1_000_000, puts)?;
    assert_eq!(rt; run(alloc, &words, &mut files, &mut sink), 6);
    assert_eq!(rt; sink.written().as_slice().len(), 65_536);
    Ok(())
}

// A script whose blocks are two of the adder's is of its form.
#[test]
fn reads_a_block_twice(rt: HostRuntime) -> Result<(), Refusal> {
    let script = read_small_script(rt.alloc(), SCRIPT)?;
    assert_eq!(rt; script.ops.as_slice().len(), 2);
    for block in script.ops.as_slice() {
        assert_eq!(rt; block.name.as_slice(), b"Add".as_slice());
    }
    Ok(())
}

#[test]
fn texts_spell_one_value() {
    one_package();
    one_specification();
    one_script();
}
