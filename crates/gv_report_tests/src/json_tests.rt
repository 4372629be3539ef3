//! Reports in their formats, as they are written, and a long one that is cut off.

use gv_base::{Code, List, MemSink, Name, Place, Reason, SureSink};
use gv_report::{Format, Output, Ran, Report, json, report_lines};
use std::alloc::Global;
use std::process::Abort;
use std::test::Fail;

// What is written of the report in JSON with two digests, and the status.
fn tells<R: Abort>(
    rt: &R,
    alloc: Global,
    report: Report,
    status: u8,
    line: &[u8],
) -> Result<(), Fail> {
    let digests = List::from_vec(vec![in alloc;
        Name::from_slice(alloc, b"ab")?,
        Name::from_slice(alloc, b"cd")?,
    ]?);
    assert_eq!(rt; json(alloc, &report, digests.as_slice())?.as_slice(), line);
    let mut sink = MemSink::new(alloc, 1000, List::new(alloc))?;
    let output = Output::new(alloc, report, Format::Json { digests });
    assert_eq!(rt; output.tell(&mut sink), status);
    assert_eq!(rt; sink.written().as_slice(), line);
    assert_eq!(rt; output.tell(&mut SureSink::new()), status);
    Ok(())
}

#[test]
fn tells_reports_in_json(rt: HostRuntime) -> Result<(), Fail> {
    let alloc = rt.alloc();
    let accepted = Report::AcceptedWithoutCrash;
    tells(
        &rt,
        alloc,
        accepted,
        0,
        b"{\"digests\":[\"ab\",\"cd\"],\"lines\":[\"accepted for runs without crash\"],\"status\":0}\n",
    )?;
    let unread = Report::CannotRead {
        name: Name::from_slice(alloc, b"a\"\nb")?,
    };
    tells(
        &rt,
        alloc,
        unread,
        3,
        b"{\"digests\":[\"ab\",\"cd\"],\"lines\":[\"cannot read a\\\"\\nb\"],\"status\":3}\n",
    )?;
    let refused = Report::Refused {
        name: Name::from_slice(alloc, b"\xff")?,
        place: Place { line: 2, column: 3 },
        code: Code::Twice,
    };
    tells(
        &rt,
        alloc,
        refused,
        4,
        b"{\"digests\":[\"ab\",\"cd\"],\"lines\":[\"\"],\"status\":4}\n",
    )
}

#[test]
fn tells_runs_in_json(rt: HostRuntime) -> Result<(), Fail> {
    let alloc = rt.alloc();
    let raced = Ran {
        lines: List::from_vec(vec![in alloc; Name::from_slice(alloc, b"boot")?]?),
        undefined: Some((7, Reason::Race)),
    };
    tells(
        &rt,
        alloc,
        Report::Ran(raced),
        8,
        b"{\"digests\":[\"ab\",\"cd\"],\"lines\":[\"boot\",\"undefined 7 Race\"],\"status\":8}\n",
    )
}

// The usage line and `out of memory` are text whatever was asked for.
#[test]
fn tells_some_as_text(rt: HostRuntime) -> Result<(), Fail> {
    let alloc = rt.alloc();
    tells(&rt, alloc, Report::OutOfMemory, 5, b"out of memory\n")?;
    assert_eq!(rt; report_lines(alloc, &Report::Usage)?.len(), 1);
    let usage = gv_report::text(alloc, &Report::Usage)?;
    tells(&rt, alloc, Report::Usage, 2, usage.as_slice())
}

// The line of an explanation whose format noted two files, and its text whose format noted one.
#[test]
fn notes_files(rt: HostRuntime) -> Result<(), Fail> {
    let alloc = rt.alloc();
    let mut format = Format::Json {
        digests: List::new(alloc),
    };
    format.note(alloc, b"abc")?;
    format.note(alloc, b"")?;
    let mut text = Format::Text;
    text.note(alloc, b"abc")?;
    let line: &[u8] =
        b"{\"digests\":[\"ba7816bf8f01cfea414140de5dae2223b00361a396177a9cb410ff61f20015ad\",\"e3b0c44298fc1c149afbf4c8996fb92427ae41e4649b934ca495991b7852b855\"],\"lines\":[\"explained\"],\"status\":0}\n";
    for (format, line) in [(format, line), (text, b"explained\n")] {
        let mut sink = MemSink::new(alloc, 1000, List::new(alloc))?;
        let output = Output::new(alloc, Report::Explained, format);
        assert_eq!(rt; output.tell(&mut sink), 0);
        assert_eq!(rt; sink.written().as_slice(), line);
    }
    Ok(())
}

// A run of 100,000 crashes.
fn crashes(alloc: Global) -> Result<Report, Fail> {
    let crash = Name::from_slice(alloc, b"crash")?;
    let mut lines = List::new(alloc);
    for _ in 0..100_000u32 {
        lines.push(crash.copy(alloc)?)?;
    }
    let undefined = None;
    Ok(Report::Ran(Ran { lines, undefined }))
}

// How many bytes are written, and the status, where the put under this number fails.
fn told<R: Abort>(
    rt: &R,
    alloc: Global,
    format: Format,
    fails: u64,
    status: u8,
    length: usize,
) -> Result<(), Fail> {
    let fails = List::from_vec(Vec::from_slice(alloc, &[fails])?);
    let mut sink = MemSink::new(alloc, 1_000_000, fails)?;
    let output = Output::new(alloc, crashes(alloc)?, format);
    assert_eq!(rt; output.tell(&mut sink), status);
    assert_eq!(rt; sink.written().len(), length);
    Ok(())
}

// 600,004 bytes as text are ten pieces, and 800,042 in JSON thirteen.
#[test]
fn tells_a_long_run(rt: HostRuntime) -> Result<(), Fail> {
    let alloc = rt.alloc();
    told(&rt, alloc, Format::Text, 11, 0, 600_004)?;
    told(&rt, alloc, Format::Text, 2, 6, 65_536)?;
    let digests = List::new(alloc);
    told(&rt, alloc, Format::Json { digests }, 14, 0, 800_042)?;
    let digests = List::new(alloc);
    told(&rt, alloc, Format::Json { digests }, 2, 6, 65_536)
}
