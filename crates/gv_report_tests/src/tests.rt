//! The line and the status of each report, and a report that is cut off.

use gv_base::{Code, List, MemSink, Name, Place, Reason, SureSink};
use gv_history::WalkCause;
use gv_report::{Cause, Format, Output, Ran, Report, text};
use std::alloc::Global;
use std::process::Abort;
use std::test::Fail;

const PLACE: Place = Place {
    line: 7,
    column: 31,
};

// The report's line, and its status when it is written.
fn tells<R: Abort>(
    rt: &R,
    alloc: Global,
    report: Report,
    status: u8,
    line: &[u8],
) -> Result<(), Fail> {
    assert_eq!(rt; report.status(), status);
    assert_eq!(rt; text(alloc, &report)?.as_slice(), line);
    let mut sink = MemSink::new(alloc, 1000, List::new(alloc))?;
    let answer = Output::new(alloc, report, Format::Text);
    assert_eq!(rt; answer.tell(&mut sink), status);
    assert_eq!(rt; sink.written().as_slice(), line);
    assert_eq!(rt; answer.tell(&mut SureSink::new()), status);
    Ok(())
}

#[test]
fn tells_each_report(rt: HostRuntime) -> Result<(), Fail> {
    let alloc = rt.alloc();
    let name = Name::from_slice(alloc, b"a file")?;
    let accepted = Report::AcceptedWithoutCrash;
    tells(
        &rt,
        alloc,
        accepted,
        0,
        b"accepted for runs without crash\n",
    )?;
    let unjustified = Report::Unjustified {
        place: PLACE,
        cause: Cause::NoAtom,
    };
    tells(&rt, alloc, unjustified, 1, b"unjustified 7:31 NoAtom\n")?;
    let unread = Report::CannotRead {
        name: name.copy(alloc)?,
    };
    tells(&rt, alloc, unread, 3, b"cannot read a file\n")?;
    let refused = Report::Refused {
        name,
        place: PLACE,
        code: Code::TooLong,
    };
    tells(&rt, alloc, refused, 4, b"a file:7:31 TooLong\n")?;
    tells(&rt, alloc, Report::Explained, 0, b"explained\n")?;
    let unexplained = Report::NotExplained {
        at: 12,
        cause: WalkCause::NotActed,
    };
    tells(
        &rt,
        alloc,
        unexplained,
        1,
        b"not explained at 12 NotActed\n",
    )?;
    tells(&rt, alloc, Report::OutOfMemory, 5, b"out of memory\n")?;
    tells(
        &rt,
        alloc,
        Report::Usage,
        2,
        b"usage: goosecheck check PKG SPEC SCRIPT, replay PKG SPEC SCHEDULE, explain SPEC HISTORY MOVES, points PKG, gen NUMBER, judge SPEC HISTORY MOST, each with or without json\n",
    )
}

// A run to its end, one that ends at an undefined event, and one without lines.
#[test]
fn tells_runs(rt: HostRuntime) -> Result<(), Fail> {
    let alloc = rt.alloc();
    let ended = Ran {
        lines: List::from_vec(vec![in alloc;
            Name::from_slice(alloc, b"boot")?,
            Name::from_slice(alloc, b"call 1 Inc")?,
        ]?),
        undefined: None,
    };
    tells(
        &rt,
        alloc,
        Report::Ran(ended),
        0,
        b"boot\ncall 1 Inc\nend\n",
    )?;
    let raced = Ran {
        lines: List::from_vec(vec![in alloc; Name::from_slice(alloc, b"boot")?]?),
        undefined: Some((7, Reason::Race)),
    };
    tells(
        &rt,
        alloc,
        Report::Ran(raced),
        8,
        b"boot\nundefined 7 Race\n",
    )?;
    let nothing = Ran {
        lines: List::new(alloc),
        undefined: None,
    };
    tells(&rt, alloc, Report::Ran(nothing), 0, b"end\n")
}

// Moves that explain a history, moves of none, nothing that explains one, and nodes that are spent.
#[test]
fn tells_judgements(rt: HostRuntime) -> Result<(), Fail> {
    let alloc = rt.alloc();
    let lines = List::from_vec(vec![in alloc;
        Name::from_slice(alloc, b"boot 1")?,
        Name::from_slice(alloc, b"act 7 0 2")?,
    ]?);
    tells(
        &rt,
        alloc,
        Report::Moves { lines },
        0,
        b"boot 1\nact 7 0 2\n",
    )?;
    let lines = List::new(alloc);
    tells(&rt, alloc, Report::Moves { lines }, 0, b"")?;
    tells(&rt, alloc, Report::NoExplanation, 1, b"no explanation\n")?;
    let spent = Report::Spent { most: 10_000_000 };
    tells(&rt, alloc, spent, 7, b"spent 10000000\n")
}

// A sink with room for eight bytes, and one whose first put fails.
#[test]
fn tells_six_where_a_put_fails(rt: HostRuntime) -> Result<(), Fail> {
    let alloc = rt.alloc();
    for (room, fails, written) in [(8, 2, "out of m"), (1000, 1, "")] {
        let fails = List::from_vec(Vec::from_slice(alloc, &[fails])?);
        let mut sink = MemSink::new(alloc, room, fails)?;
        let answer = Output::new(alloc, Report::OutOfMemory, Format::Text);
        assert_eq!(rt; answer.tell(&mut sink), 6);
        assert_eq!(rt; sink.written().as_slice(), written.as_bytes());
    }
    Ok(())
}

// A text of two pieces and one byte more, whose second and third put fail in turn.
#[test]
fn puts_pieces_of_65536_bytes(rt: HostRuntime) -> Result<(), Fail> {
    let alloc = rt.alloc();
    let bytes = vec![in alloc; b'n'; 131_061]?;
    let name = Name::from_vec(alloc, bytes)?;
    let answer = Output::new(alloc, Report::CannotRead { name }, Format::Text);
    for (fails, status, length) in [(2, 6, 65_536), (3, 6, 131_072), (4, 0, 0)] {
        let fails = List::from_vec(Vec::from_slice(alloc, &[fails])?);
        let mut sink = MemSink::new(alloc, 200_000, fails)?;
        if status == 6 {
            assert_eq!(rt; answer.tell(&mut sink), 6);
            assert_eq!(rt; sink.written().len(), length);
        } else {
            assert_eq!(rt; answer.tell(&mut sink), 3);
            assert_eq!(rt; sink.written().len(), 131_074);
        }
    }
    Ok(())
}
