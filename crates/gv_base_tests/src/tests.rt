//! The adapters over a real file and a real stream, and the files and the sinks in memory.

use gv_base::{
    Answer, Code, DiskFiles, FetchFail, Files, Held, Lines, List, MemFiles, MemSink, Name, PutFail,
    Reason, Sink, SliceVal, StdSink, SureFiles, SureSink, Val, place_of,
};
use std::alloc::Global;
use std::io::Write;
use std::test::Fail;
use std::{fs, io};

const FETCHED: &str = "gv_base_fetched";

const WRITTEN: &str = "gv_base_written";

// The file is longer than what one read takes, so the ends of reads lie inside it.
#[test]
fn disk_files_give_the_first_bytes(rt: HostRuntime) -> Result<(), Fail> {
    let whole = vec![in rt.alloc(); b'x'; 5000]?;
    fs::write(&rt, FETCHED, whole.as_slice())?;
    let mut files = DiskFiles::new(&rt);
    for (most, want) in [
        (9000u32, 5000),
        (5000, 5000),
        (4999, 5000),
        (4998, 4999),
        (4096, 4097),
        (4095, 4096),
        (3, 4),
        (0, 1),
    ] {
        let bytes = files.fetch(rt.alloc(), FETCHED, u64::from(most))?;
        assert_eq!(rt; bytes.len(), want, "at most {most}");
    }
    fs::write(&rt, FETCHED, b"a package\n".as_slice())?;
    let bytes = files.fetch(rt.alloc(), FETCHED, 100)?;
    assert_eq!(rt; bytes.as_slice(), b"a package\n".as_slice());
    fs::remove_file(&rt, FETCHED)?;
    Ok(())
}

// The last of these opens, and fails when it is read.
#[test]
fn disk_files_fail_without_a_file(rt: HostRuntime) {
    let mut files = DiskFiles::new(&rt);
    for name in ["gv_base_missing", "gv_base_missing/below", "", "."] {
        let failed = matches!(files.fetch(rt.alloc(), name, 9), Err(FetchFail::Failed));
        assert!(rt; failed, "under {name}");
    }
}

#[test]
fn a_sink_over_a_file_writes_each_piece(rt: HostRuntime) -> Result<(), Fail> {
    let mut sink = StdSink::new(fs::create(&rt, WRITTEN)?);
    for piece in ["a report", "", " in pieces\n"] {
        sink.put(piece.as_bytes())?;
    }
    drop(sink);
    let bytes = fs::read(&rt, WRITTEN)?;
    assert_eq!(rt; bytes.as_slice(), b"a report in pieces\n".as_slice());
    fs::remove_file(&rt, WRITTEN)?;
    StdSink::new(rt.stdout()).put(b"a report\n")?;
    Ok(())
}

// Takes at most `most` bytes a call, and fails at the call with the number `bad`, counted from 1.
#[derive(Drop)]
struct Choppy {
    got: Vec<u8>,
    most: usize,
    bad: u64,
    calls: u64,
}

impl Write for Choppy {
    fn write(&mut self, buf: &[u8]) -> io::Result<usize> {
        self.calls = self.calls.saturating_add(1);
        if self.calls == self.bad {
            return Err(io::Error::from(io::ErrorKind::BrokenPipe));
        }
        let count = buf.len().min(self.most);
        self.got.extend_from_slice(&buf[..count])?;
        Ok(count)
    }

    fn flush(&mut self) -> io::Result<()> {
        Ok(())
    }
}

// Short writes, a stream that takes no byte, and streams that fail at the first call and in the
// middle of a piece. The put after a failed one goes through.
#[test]
fn a_sink_goes_on_after_short_writes_and_tells_failed_ones(rt: HostRuntime) -> Result<(), Fail> {
    for (most, bad, first, second, want) in [
        (100, 0, true, true, "report."),
        (1, 0, true, true, "report."),
        (4, 0, true, true, "report."),
        (0, 0, false, false, ""),
        (4, 1, false, true, "."),
        (4, 2, false, true, "repo."),
        (4, 3, true, false, "report"),
    ] {
        let mut stream = Choppy {
            got: Vec::new(rt.alloc()),
            most,
            bad,
            calls: 0,
        };
        let mut sink = StdSink::new(&mut stream);
        assert_eq!(rt;
            sink.put(b"report").is_ok(),
            first,
            "first put, {most} {bad}"
        );
        assert_eq!(rt; sink.put(b".").is_ok(), second, "second put, {most} {bad}");
        drop(sink);
        assert_eq!(rt;
            stream.got.as_slice(),
            want.as_bytes(),
            "written, {most} {bad}"
        );
    }
    Ok(())
}

fn held(alloc: Global) -> Result<List<Held>, Fail> {
    let mut all = List::new(alloc);
    for (name, bytes) in [("a", "sixty"), ("b", ""), ("a", "other")] {
        all.push(Held {
            name: Name::from_slice(alloc, name.as_bytes())?,
            bytes: Name::from_slice(alloc, bytes.as_bytes())?,
        })?;
    }
    Ok(all)
}

fn numbers(alloc: Global, items: &[u64]) -> Result<List<u64>, Fail> {
    Ok(List::from_vec(Vec::from_slice(alloc, items)?))
}

// The calls 2 and 4 are to fail, and no name `c` is held.
#[test]
fn files_in_memory_fail_where_they_are_to(rt: HostRuntime) -> Result<(), Fail> {
    let mut files = MemFiles::new(held(rt.alloc())?, numbers(rt.alloc(), &[2, 4])?);
    for (name, most, want) in [
        ("a", 5u32, Some("sixty")),
        ("a", 5, None),
        ("b", 0, Some("")),
        ("b", 0, None),
        ("c", 5, None),
        ("a", 4, Some("sixty")),
        ("a", 3, Some("sixt")),
    ] {
        match files.fetch(rt.alloc(), name, u64::from(most)) {
            Ok(bytes) => {
                assert_eq!(rt;
                    Some(bytes.as_slice()),
                    want.map(|text| text.as_bytes()),
                    "{name} {most}"
                )
            }
            Err(why) => {
                assert_eq!(rt; why, FetchFail::Failed);
                assert!(rt; want.is_none(), "{name} {most}");
            }
        }
    }
    Ok(())
}

#[test]
fn a_sink_in_memory_fails_where_it_is_to(rt: HostRuntime) -> Result<(), Fail> {
    let mut sink = MemSink::new(rt.alloc(), 8, numbers(rt.alloc(), &[2])?)?;
    for (piece, want, written) in [
        ("abc", Ok(()), "abc"),
        ("x", Err(PutFail::Failed), "abc"),
        ("de", Ok(()), "abcde"),
        ("fghij", Err(PutFail::Failed), "abcdefgh"),
        ("", Ok(()), "abcdefgh"),
        ("k", Err(PutFail::Failed), "abcdefgh"),
    ] {
        assert_eq!(rt; sink.put(piece.as_bytes()), want, "at {piece}");
        assert_eq!(rt;
            sink.written().as_slice(),
            written.as_bytes(),
            "after {piece}"
        );
    }
    Ok(())
}

#[test]
fn sure_files_and_sinks_answer(rt: HostRuntime) -> Result<(), Fail> {
    let mut files = SureFiles::new(held(rt.alloc())?);
    for (name, most, want) in [
        ("a", 9u32, "sixty"),
        ("a", 0, "s"),
        ("b", 9, ""),
        ("c", 9, ""),
    ] {
        let bytes = files.fetch(rt.alloc(), name, u64::from(most))?;
        assert_eq!(rt; bytes.as_slice(), want.as_bytes(), "{name} {most}");
    }
    SureSink::new().put(b"a report")?;
    Ok(())
}

#[test]
fn names_lists_and_codes(rt: HostRuntime) -> Result<(), Fail> {
    let name = Name::from_slice(rt.alloc(), b"Recover")?;
    assert!(rt; name.copy(rt.alloc())? == name);
    assert_eq!(rt; name.len(), 7);
    let mut list = numbers(rt.alloc(), &[7, 9])?;
    list.push(11)?;
    assert_eq!(rt; list.len(), 3);
    assert_eq!(rt; list.pop(), Some(11));
    assert_eq!(rt; list.get(1).copied(), Some(9));
    assert!(rt; list.get(2).is_none() && !list.is_empty());
    assert_eq!(rt; list, numbers(rt.alloc(), &[7, 9])?);
    let others: [&[u64]; 3] = [&[9, 7], &[7], &[7, 9, 9]];
    for items in others {
        assert!(rt; list != numbers(rt.alloc(), items)?, "{items:?}");
    }
    assert!(rt; held(rt.alloc())? == held(rt.alloc())?);
    assert_eq!(rt; list.into_vec().as_slice(), [7, 9].as_slice());
    for (code, number, text) in [
        (Code::BadUtf8, 1, "BadUtf8"),
        (Code::NotInProfile, 7, "NotInProfile"),
        (Code::TooManyEvents, 24, "TooManyEvents"),
    ] {
        assert_eq!(rt; code.number(), number);
        assert_eq!(rt; code.name(), text);
    }
    Ok(())
}

// Both give the same places: at a line's first byte, at its newline, on an empty line and at the end.
#[test]
fn an_index_of_lines_gives_the_places_of_the_text(rt: HostRuntime) -> Result<(), Fail> {
    let text = b"ab\n\ncd";
    let lines = Lines::new(rt.alloc(), text)?;
    for (at, line, column) in [(0, 1, 1), (2, 1, 3), (3, 2, 1), (4, 3, 1), (6, 3, 3)] {
        let place = lines.place(at);
        assert_eq!(rt; (place.line, place.column), (line, column), "at {at}");
        assert!(rt; place_of(text, at) == place);
    }
    Ok(())
}

#[test]
fn answers_and_values_compare(rt: HostRuntime) {
    let spare = SliceVal {
        object: 1,
        offset: 0,
        length: 2,
        capacity: 3,
    };
    let full = SliceVal {
        capacity: 2,
        ..spare
    };
    assert!(rt; Answer::Next(Val::Slice(spare)) != Answer::Next(Val::Slice(full)));
    assert!(rt; Answer::Next(Val::Word(7)) != Answer::Next(Val::Byte(7)));
    let race: Answer<Val> = Answer::Undefined(Reason::Race);
    assert!(rt; race == Answer::Undefined(Reason::Race) && race != Answer::Blocked);
    assert_eq!(rt; Reason::BadBlockLength.name(), "BadBlockLength");
}
