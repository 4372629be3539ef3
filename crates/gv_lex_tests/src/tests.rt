//! One call of each public function. The tables of texts are those of `token_cases`.

use gv_base::{Code, Kind, Place, Refusal};
use gv_lex::{found_in, lex, number_of, unexpected_in};
use std::process::Abort;
use std::test::Fail;

#[test]
fn a_line_has_its_tokens(rt: HostRuntime) -> Result<(), Fail> {
    let text = b"at.2(18446744073709551616) // c".as_slice();
    let read = lex(rt.alloc(), text)?;
    let expected = [
        (0, 4, Kind::Word),
        (4, 5, Kind::Sign),
        (5, 25, Kind::Number),
        (25, 26, Kind::Sign),
    ];
    assert_eq!(rt; read.len(), 4);
    for (token, (start, end, kind)) in read.iter().zip(expected) {
        assert_eq!(rt; (token.start, token.end, token.kind), (start, end, kind));
    }
    let [word, ..] = read.as_slice() else {
        return Err("a word".into());
    };
    assert!(rt; !found_in(text, *word).is_large);
    assert_eq!(rt; unexpected_in(text, &read, 1), (4, Code::Unexpected));
    assert_eq!(rt; unexpected_in(text, &read, 2), (5, Code::BadNumber));
    assert_eq!(rt; unexpected_in(text, &read, 4), (31, Code::EndOfText));
    Ok(())
}

#[test]
fn a_number_has_its_value(rt: HostRuntime) {
    assert_eq!(rt; number_of(b"0xfF"), Some(255));
    assert_eq!(rt; number_of(b"18446744073709551615"), Some(u64::MAX));
    assert_eq!(rt; number_of(b"18446744073709551616"), None);
}

#[test]
fn a_fault_has_its_place(rt: HostRuntime) -> Result<(), Fail> {
    match lex(rt.alloc(), b"x\n ~") {
        Err(Refusal::At { place, code }) => {
            assert_eq!(rt; place, Place { line: 2, column: 2 });
            assert_eq!(rt; code, Code::BadChar);
            Ok(())
        }
        _ => Err("a refusal".into()),
    }
}
