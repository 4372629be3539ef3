//! One call of each public function.

use gv_base::{Code, Kind, Place, Refusal};
use gv_text::{
    Found, Stop, blank_len, is_blank, is_decimal, is_digit, judged, line_len, mark_len, refusal_at,
    refusal_of, sign_kind, unexpected, utf8_end, value_of, word_of,
};
use std::process::Abort;
use std::test::Fail;

fn shown(refusal: &Refusal) -> Option<(u32, u32, Code)> {
    match refusal {
        Refusal::NoMemory => None,
        Refusal::At { place, code } => Some((place.line, place.column, *code)),
    }
}

#[test]
fn bytes_and_gaps(rt: HostRuntime) {
    assert!(rt; is_blank(b'\r') && !is_blank(0));
    assert!(rt; is_decimal(b'9') && !is_decimal(b'a') && is_digit(b'F', 16));
    assert_eq!(rt; blank_len(b"\n\n"), 1);
    assert_eq!(rt; line_len(b"// c\nd"), 4);
    assert_eq!(rt; mark_len(b"\xEF\xBB\xBFx"), 3);
    assert_eq!(rt; utf8_end(b"a\xFF"), Some(1));
    assert_eq!(rt; sign_kind(b";"), Kind::Semi);
}

#[test]
fn digits_have_values(rt: HostRuntime) {
    assert_eq!(rt; value_of(b"1_000", 10, 1000), Some(1000));
    assert_eq!(rt; value_of(b"1_001", 10, 1000), None);
    assert_eq!(rt; word_of(b"FFFFFFFFFFFFFFFF", 16), Some(u64::MAX));
}

#[test]
fn faults_become_refusals(rt: HostRuntime) {
    let large = Found {
        start: 4,
        is_large: true,
    };
    assert_eq!(rt; unexpected(Some(large), 9), (4, Code::BadNumber));
    assert_eq!(rt; unexpected(None, 9), (9, Code::EndOfText));
    let refused = refusal_at(b"a\nb ", 3, Code::Unexpected);
    assert_eq!(rt; shown(&refused), Some((2, 2, Code::Unexpected)));
    let stopped = refusal_of(b"a\nb ", Stop::At(0, Code::BadChar));
    assert_eq!(rt; shown(&stopped), Some((1, 1, Code::BadChar)));
    assert_eq!(rt; shown(&Refusal::NoMemory), None);
}

#[test]
fn a_text_is_judged(rt: HostRuntime) -> Result<(), Fail> {
    let found = Ok(Vec::new(rt.alloc()));
    assert!(rt; judged(b"", found, None).is_ok());
    let stopped = judged(b"ab", Err(Stop::At(1, Code::BadChar)), None);
    match stopped {
        Ok(_) => return Err("a refusal".into()),
        Err(why) => assert_eq!(rt; shown(&why), Some((1, 2, Code::BadChar))),
    }
    Ok(())
}
