//! The axioms in order. Made by tools/axioms.py from axioms.txt: edit that.

use crate::kind::Kind;
use crate::row::{Premise, Row, Span};
use crate::step::Step;
use gv_terms::{Operator, Sort};

pub(crate) static KINDS: [Kind; 140] = [
    Kind::Of(Sort::Bool),
    Kind::Of(Sort::Bool),
    Kind::Of(Sort::Bool),
    Kind::Of(Sort::Bool),
    Kind::Of(Sort::Bool),
    Kind::Of(Sort::Bool),
    Kind::Of(Sort::Bool),
    Kind::Of(Sort::Bool),
    Kind::Of(Sort::Bool),
    Kind::Of(Sort::Bool),
    Kind::Of(Sort::Bool),
    Kind::Of(Sort::Bool),
    Kind::Of(Sort::Bool),
    Kind::Of(Sort::Bool),
    Kind::Of(Sort::Bool),
    Kind::Of(Sort::Word),
    Kind::Of(Sort::Word),
    Kind::Of(Sort::Word),
    Kind::Of(Sort::Word),
    Kind::Of(Sort::Word),
    Kind::Of(Sort::Word),
    Kind::Of(Sort::Word),
    Kind::Of(Sort::Word),
    Kind::Of(Sort::Bool),
    Kind::Anything,
    Kind::Like(1),
    Kind::Of(Sort::Bool),
    Kind::Anything,
    Kind::Like(1),
    Kind::Of(Sort::Word),
    Kind::Of(Sort::Word),
    Kind::Of(Sort::Word),
    Kind::Of(Sort::Word),
    Kind::Of(Sort::Word),
    Kind::Of(Sort::Word),
    Kind::Of(Sort::Word),
    Kind::Of(Sort::Word),
    Kind::Of(Sort::Word),
    Kind::Of(Sort::Word),
    Kind::Of(Sort::Word),
    Kind::Of(Sort::Word),
    Kind::Of(Sort::Word),
    Kind::Of(Sort::Word),
    Kind::Of(Sort::Word),
    Kind::Of(Sort::Word),
    Kind::Of(Sort::Word),
    Kind::Of(Sort::Word),
    Kind::Of(Sort::Word),
    Kind::Of(Sort::Word),
    Kind::Of(Sort::Word),
    Kind::Of(Sort::Word),
    Kind::Of(Sort::Word),
    Kind::Of(Sort::Word),
    Kind::List,
    Kind::Of(Sort::Word),
    Kind::Held(0),
    Kind::List,
    Kind::Of(Sort::Word),
    Kind::Of(Sort::Word),
    Kind::Held(0),
    Kind::List,
    Kind::Of(Sort::Word),
    Kind::Held(0),
    Kind::Maker,
    Kind::Maker,
    Kind::Of(Sort::Word),
    Kind::List,
    Kind::Of(Sort::Word),
    Kind::ZeroMaker,
    Kind::Of(Sort::Bytes),
    Kind::Of(Sort::Word),
    Kind::List,
    Kind::Of(Sort::Word),
    Kind::List,
    Kind::List,
    Kind::Of(Sort::Word),
    Kind::Of(Sort::Word),
    Kind::List,
    Kind::Of(Sort::Word),
    Kind::Of(Sort::Word),
    Kind::Of(Sort::Word),
    Kind::List,
    Kind::Like(0),
    Kind::List,
    Kind::Like(0),
    Kind::Of(Sort::Word),
    Kind::List,
    Kind::Like(0),
    Kind::Of(Sort::Word),
    Kind::List,
    Kind::Like(0),
    Kind::Of(Sort::Word),
    Kind::Of(Sort::Word),
    Kind::Of(Sort::Bytes),
    Kind::Of(Sort::Word),
    Kind::Of(Sort::Bytes),
    Kind::Of(Sort::Word),
    Kind::Of(Sort::Bytes),
    Kind::Of(Sort::Word),
    Kind::Of(Sort::Word),
    Kind::Of(Sort::Bytes),
    Kind::Map,
    Kind::Of(Sort::Word),
    Kind::Held(0),
    Kind::Map,
    Kind::Of(Sort::Word),
    Kind::Of(Sort::Word),
    Kind::Held(0),
    Kind::Map,
    Kind::Of(Sort::Word),
    Kind::Held(0),
    Kind::Map,
    Kind::Of(Sort::Word),
    Kind::Of(Sort::Word),
    Kind::Held(0),
    Kind::Map,
    Kind::Of(Sort::Word),
    Kind::Map,
    Kind::Of(Sort::Word),
    Kind::Of(Sort::Word),
    Kind::Map,
    Kind::Of(Sort::Word),
    Kind::Of(Sort::Word),
    Kind::Map,
    Kind::Of(Sort::Word),
    Kind::EmptyMap,
    Kind::Of(Sort::Word),
    Kind::Of(Sort::SliceS),
    Kind::Of(Sort::Word),
    Kind::Of(Sort::Word),
    Kind::Of(Sort::SliceS),
    Kind::Of(Sort::Word),
    Kind::Of(Sort::Word),
    Kind::Of(Sort::SliceS),
    Kind::Of(Sort::SliceS),
    Kind::Of(Sort::SliceS),
    Kind::Of(Sort::Word),
    Kind::Of(Sort::Word),
    Kind::Of(Sort::Word),
    Kind::Of(Sort::Word),
];

pub(crate) static STEPS: [Step; 571] = [
    Step::Part(0),
    Step::Part(1),
    Step::Apply(Operator::And, 2), // 1 asks
    Step::Part(0), // 1 gives
    Step::Part(0),
    Step::Part(1),
    Step::Apply(Operator::And, 2), // 2 asks
    Step::Part(1), // 2 gives
    Step::Part(0), // 3 asks
    Step::Part(1), // 3 asks
    Step::Part(0),
    Step::Part(1),
    Step::Apply(Operator::And, 2), // 3 gives
    Step::Part(0), // 4 asks
    Step::Part(0),
    Step::Part(1),
    Step::Apply(Operator::Or, 2), // 4 gives
    Step::Part(1), // 5 asks
    Step::Part(0),
    Step::Part(1),
    Step::Apply(Operator::Or, 2), // 5 gives
    Step::Part(0),
    Step::Part(1),
    Step::Apply(Operator::Or, 2), // 6 asks
    Step::Part(0),
    Step::Apply(Operator::Not, 1), // 6 asks
    Step::Part(1), // 6 gives
    Step::Part(0),
    Step::Part(1),
    Step::Apply(Operator::Imp, 2), // 7 asks
    Step::Part(0), // 7 asks
    Step::Part(1), // 7 gives
    Step::Part(0),
    Step::Apply(Operator::Not, 1),
    Step::Apply(Operator::Not, 1), // 8 asks
    Step::Part(0), // 8 gives
    Step::Part(0),
    Step::Part(1),
    Step::Apply(Operator::Less, 2),
    Step::Apply(Operator::Not, 1), // 9 asks
    Step::Part(1),
    Step::Part(0),
    Step::Apply(Operator::AtMost, 2), // 9 gives
    Step::Part(0),
    Step::Part(1),
    Step::Apply(Operator::AtMost, 2),
    Step::Apply(Operator::Not, 1), // 10 asks
    Step::Part(1),
    Step::Part(0),
    Step::Apply(Operator::Less, 2), // 10 gives
    Step::Part(0),
    Step::Part(1),
    Step::Apply(Operator::AtMost, 2), // 11 asks
    Step::Part(1),
    Step::Part(0),
    Step::Apply(Operator::AtMost, 2), // 11 asks
    Step::Part(0),
    Step::Part(1),
    Step::Apply(Operator::Equal, 2), // 11 gives
    Step::Apply(Operator::Number(0), 0),
    Step::Part(0),
    Step::Apply(Operator::AtMost, 2), // 12 gives
    Step::Part(0),
    Step::Apply(Operator::Number(18446744073709551615), 0),
    Step::Apply(Operator::AtMost, 2), // 13 gives
    Step::Part(0), // 14 asks
    Step::Part(0),
    Step::Part(1),
    Step::Part(2),
    Step::Apply(Operator::If, 3),
    Step::Part(1),
    Step::Apply(Operator::Equal, 2), // 14 gives
    Step::Part(0),
    Step::Apply(Operator::Not, 1), // 15 asks
    Step::Part(0),
    Step::Part(1),
    Step::Part(2),
    Step::Apply(Operator::If, 3),
    Step::Part(2),
    Step::Apply(Operator::Equal, 2), // 15 gives
    Step::Part(0),
    Step::Part(1),
    Step::Apply(Operator::AtMost, 2), // 16 asks
    Step::Part(0),
    Step::Part(1),
    Step::Apply(Operator::Equal, 2),
    Step::Apply(Operator::Not, 1), // 16 asks
    Step::Part(0),
    Step::Part(1),
    Step::Apply(Operator::Less, 2), // 16 gives
    Step::Part(0),
    Step::Part(1),
    Step::Apply(Operator::Less, 2), // 17 asks
    Step::Part(0),
    Step::Part(1),
    Step::Apply(Operator::Equal, 2),
    Step::Apply(Operator::Not, 1), // 17 gives
    Step::Part(0),
    Step::Apply(Operator::Number(18446744073709551615), 0),
    Step::Part(1),
    Step::Apply(Operator::Minus, 2),
    Step::Apply(Operator::AtMost, 2), // 18 asks
    Step::Part(0),
    Step::Part(1),
    Step::Apply(Operator::Fits, 2), // 18 gives
    Step::Apply(Operator::Number(0), 0),
    Step::Part(1),
    Step::Apply(Operator::Less, 2), // 19 asks
    Step::Part(0),
    Step::Part(1),
    Step::Apply(Operator::Remainder, 2),
    Step::Part(1),
    Step::Apply(Operator::Less, 2), // 19 gives
    Step::Part(0),
    Step::Part(1),
    Step::Apply(Operator::Divide, 2),
    Step::Part(0),
    Step::Apply(Operator::AtMost, 2), // 20 gives
    Step::Part(0),
    Step::Part(1),
    Step::Apply(Operator::Remainder, 2),
    Step::Part(0),
    Step::Apply(Operator::AtMost, 2), // 21 gives
    Step::Part(0),
    Step::Part(1),
    Step::Apply(Operator::Plus, 2),
    Step::Part(1),
    Step::Part(0),
    Step::Apply(Operator::Plus, 2),
    Step::Apply(Operator::Equal, 2), // 22 gives
    Step::Part(0),
    Step::Part(1),
    Step::Apply(Operator::Plus, 2),
    Step::Part(2),
    Step::Apply(Operator::Plus, 2),
    Step::Part(0),
    Step::Part(1),
    Step::Part(2),
    Step::Apply(Operator::Plus, 2),
    Step::Apply(Operator::Plus, 2),
    Step::Apply(Operator::Equal, 2), // 23 gives
    Step::Part(0),
    Step::Part(1),
    Step::Apply(Operator::Plus, 2),
    Step::Part(1),
    Step::Apply(Operator::Minus, 2),
    Step::Part(0),
    Step::Apply(Operator::Equal, 2), // 24 gives
    Step::Part(0),
    Step::Part(1),
    Step::Apply(Operator::BitAnd, 2),
    Step::Part(0),
    Step::Apply(Operator::AtMost, 2), // 25 gives
    Step::Part(0),
    Step::Apply(Operator::Number(1), 0),
    Step::Apply(Operator::Times, 2),
    Step::Part(0),
    Step::Apply(Operator::Equal, 2), // 26 gives
    Step::Apply(Operator::Number(0), 0),
    Step::Part(1),
    Step::Apply(Operator::Less, 2), // 27 asks
    Step::Part(0),
    Step::Part(1),
    Step::Apply(Operator::Divide, 2),
    Step::Part(1),
    Step::Apply(Operator::Times, 2),
    Step::Part(0),
    Step::Part(1),
    Step::Apply(Operator::Remainder, 2),
    Step::Apply(Operator::Plus, 2),
    Step::Part(0),
    Step::Apply(Operator::Equal, 2), // 27 gives
    Step::Part(1),
    Step::Part(0),
    Step::Apply(Operator::Len, 1),
    Step::Apply(Operator::Less, 2), // 28 asks
    Step::Part(2),
    Step::Apply(Operator::Number(256), 0),
    Step::Apply(Operator::Less, 2), // 28 asks
    Step::Part(0),
    Step::Part(1),
    Step::Part(2),
    Step::Apply(Operator::Upd, 3),
    Step::Part(1),
    Step::Apply(Operator::At, 2),
    Step::Part(2),
    Step::Apply(Operator::Equal, 2), // 28 gives
    Step::Part(1),
    Step::Part(2),
    Step::Apply(Operator::Equal, 2),
    Step::Apply(Operator::Not, 1), // 29 asks
    Step::Part(0),
    Step::Part(1),
    Step::Part(3),
    Step::Apply(Operator::Upd, 3),
    Step::Part(2),
    Step::Apply(Operator::At, 2),
    Step::Part(0),
    Step::Part(2),
    Step::Apply(Operator::At, 2),
    Step::Apply(Operator::Equal, 2), // 29 gives
    Step::Part(0),
    Step::Part(1),
    Step::Part(2),
    Step::Apply(Operator::Upd, 3),
    Step::Apply(Operator::Len, 1),
    Step::Part(0),
    Step::Apply(Operator::Len, 1),
    Step::Apply(Operator::Equal, 2), // 30 gives
    Step::Part(0),
    Step::Apply(Operator::Len, 1),
    Step::Literal(0),
    Step::Apply(Operator::Equal, 2), // 31 gives
    Step::Part(1),
    Step::Literal(0),
    Step::Apply(Operator::Less, 2), // 32 asks
    Step::Copied(0),
    Step::Apply(Operator::Number(256), 0),
    Step::Apply(Operator::Less, 2), // 32 asks
    Step::Part(0),
    Step::Part(1),
    Step::Apply(Operator::At, 2),
    Step::Copied(0),
    Step::Apply(Operator::Equal, 2), // 32 gives
    Step::Part(0),
    Step::Apply(Operator::IsZero, 1), // 33 asks
    Step::Part(0),
    Step::Part(1),
    Step::Apply(Operator::At, 2),
    Step::Zero(0),
    Step::Apply(Operator::Equal, 2), // 33 gives
    Step::Part(0),
    Step::Apply(Operator::IsZero, 1), // 34 gives
    Step::Part(0),
    Step::Part(1),
    Step::Apply(Operator::At, 2),
    Step::Apply(Operator::Number(256), 0),
    Step::Apply(Operator::Less, 2), // 35 gives
    Step::Part(0),
    Step::Part(1),
    Step::Part(0),
    Step::Part(1),
    Step::Apply(Operator::At, 2),
    Step::Apply(Operator::Upd, 3),
    Step::Part(0),
    Step::Apply(Operator::Equal, 2), // 36 gives
    Step::Part(0),
    Step::Apply(Operator::Len, 1),
    Step::Apply(Operator::Number(9223372036854775808), 0),
    Step::Apply(Operator::Less, 2), // 37 gives
    Step::Part(1),
    Step::Part(2),
    Step::Apply(Operator::AtMost, 2), // 38 asks
    Step::Part(2),
    Step::Part(0),
    Step::Apply(Operator::Len, 1),
    Step::Apply(Operator::AtMost, 2), // 38 asks
    Step::Part(0),
    Step::Part(1),
    Step::Part(2),
    Step::Apply(Operator::Sub, 3),
    Step::Apply(Operator::Len, 1),
    Step::Part(2),
    Step::Part(1),
    Step::Apply(Operator::Minus, 2),
    Step::Apply(Operator::Equal, 2), // 38 gives
    Step::Part(1),
    Step::Part(2),
    Step::Apply(Operator::AtMost, 2), // 39 asks
    Step::Part(2),
    Step::Part(0),
    Step::Apply(Operator::Len, 1),
    Step::Apply(Operator::AtMost, 2), // 39 asks
    Step::Part(3),
    Step::Part(2),
    Step::Part(1),
    Step::Apply(Operator::Minus, 2),
    Step::Apply(Operator::Less, 2), // 39 asks
    Step::Part(0),
    Step::Part(1),
    Step::Part(2),
    Step::Apply(Operator::Sub, 3),
    Step::Part(3),
    Step::Apply(Operator::At, 2),
    Step::Part(0),
    Step::Part(1),
    Step::Part(3),
    Step::Apply(Operator::Plus, 2),
    Step::Apply(Operator::At, 2),
    Step::Apply(Operator::Equal, 2), // 39 gives
    Step::Part(0),
    Step::Apply(Operator::Len, 1),
    Step::Part(1),
    Step::Apply(Operator::Len, 1),
    Step::Apply(Operator::Plus, 2),
    Step::Apply(Operator::Number(9223372036854775808), 0),
    Step::Apply(Operator::Less, 2), // 40 asks
    Step::Part(0),
    Step::Part(1),
    Step::Apply(Operator::Cat, 2),
    Step::Apply(Operator::Len, 1),
    Step::Part(0),
    Step::Apply(Operator::Len, 1),
    Step::Part(1),
    Step::Apply(Operator::Len, 1),
    Step::Apply(Operator::Plus, 2),
    Step::Apply(Operator::Equal, 2), // 40 gives
    Step::Part(0),
    Step::Apply(Operator::Len, 1),
    Step::Part(1),
    Step::Apply(Operator::Len, 1),
    Step::Apply(Operator::Plus, 2),
    Step::Apply(Operator::Number(9223372036854775808), 0),
    Step::Apply(Operator::Less, 2), // 41 asks
    Step::Part(2),
    Step::Part(0),
    Step::Apply(Operator::Len, 1),
    Step::Apply(Operator::Less, 2), // 41 asks
    Step::Part(0),
    Step::Part(1),
    Step::Apply(Operator::Cat, 2),
    Step::Part(2),
    Step::Apply(Operator::At, 2),
    Step::Part(0),
    Step::Part(2),
    Step::Apply(Operator::At, 2),
    Step::Apply(Operator::Equal, 2), // 41 gives
    Step::Part(0),
    Step::Apply(Operator::Len, 1),
    Step::Part(1),
    Step::Apply(Operator::Len, 1),
    Step::Apply(Operator::Plus, 2),
    Step::Apply(Operator::Number(9223372036854775808), 0),
    Step::Apply(Operator::Less, 2), // 42 asks
    Step::Part(2),
    Step::Part(1),
    Step::Apply(Operator::Len, 1),
    Step::Apply(Operator::Less, 2), // 42 asks
    Step::Part(0),
    Step::Part(1),
    Step::Apply(Operator::Cat, 2),
    Step::Part(0),
    Step::Apply(Operator::Len, 1),
    Step::Part(2),
    Step::Apply(Operator::Plus, 2),
    Step::Apply(Operator::At, 2),
    Step::Part(1),
    Step::Part(2),
    Step::Apply(Operator::At, 2),
    Step::Apply(Operator::Equal, 2), // 42 gives
    Step::Part(0),
    Step::Apply(Operator::IsZero, 1), // 43 asks
    Step::Part(1),
    Step::Apply(Operator::IsZero, 1), // 43 asks
    Step::Part(0),
    Step::Apply(Operator::Len, 1),
    Step::Part(1),
    Step::Apply(Operator::Len, 1),
    Step::Apply(Operator::Equal, 2), // 43 asks
    Step::Part(0),
    Step::Part(1),
    Step::Apply(Operator::Equal, 2), // 43 gives
    Step::Part(0),
    Step::Apply(Operator::Le64, 1),
    Step::Apply(Operator::Len, 1),
    Step::Apply(Operator::Number(8), 0),
    Step::Apply(Operator::Equal, 2), // 44 gives
    Step::Part(0),
    Step::Apply(Operator::Le64, 1),
    Step::Apply(Operator::Un64, 1),
    Step::Part(0),
    Step::Apply(Operator::Equal, 2), // 45 gives
    Step::Apply(Operator::Number(8), 0),
    Step::Part(0),
    Step::Apply(Operator::Len, 1),
    Step::Apply(Operator::AtMost, 2), // 46 asks
    Step::Part(0),
    Step::Part(1),
    Step::Apply(Operator::Put64, 2),
    Step::Apply(Operator::Un64, 1),
    Step::Part(1),
    Step::Apply(Operator::Equal, 2), // 46 gives
    Step::Part(0),
    Step::Part(1),
    Step::Apply(Operator::Put64, 2),
    Step::Apply(Operator::Len, 1),
    Step::Part(0),
    Step::Apply(Operator::Len, 1),
    Step::Apply(Operator::Equal, 2), // 47 gives
    Step::Apply(Operator::Number(8), 0),
    Step::Part(2),
    Step::Apply(Operator::AtMost, 2), // 48 asks
    Step::Part(0),
    Step::Part(1),
    Step::Apply(Operator::Put64, 2),
    Step::Part(2),
    Step::Apply(Operator::At, 2),
    Step::Part(0),
    Step::Part(2),
    Step::Apply(Operator::At, 2),
    Step::Apply(Operator::Equal, 2), // 48 gives
    Step::Part(0),
    Step::Apply(Operator::IsZero, 1), // 49 asks
    Step::Part(0),
    Step::Apply(Operator::Un64, 1),
    Step::Apply(Operator::Number(0), 0),
    Step::Apply(Operator::Equal, 2), // 49 gives
    Step::Part(0),
    Step::Part(1),
    Step::Part(2),
    Step::Apply(Operator::Put, 3),
    Step::Part(1),
    Step::Apply(Operator::Get, 2),
    Step::Part(2),
    Step::Apply(Operator::Equal, 2), // 50 gives
    Step::Part(2),
    Step::Part(1),
    Step::Apply(Operator::Equal, 2),
    Step::Apply(Operator::Not, 1), // 51 asks
    Step::Part(0),
    Step::Part(1),
    Step::Part(3),
    Step::Apply(Operator::Put, 3),
    Step::Part(2),
    Step::Apply(Operator::Get, 2),
    Step::Part(0),
    Step::Part(2),
    Step::Apply(Operator::Get, 2),
    Step::Apply(Operator::Equal, 2), // 51 gives
    Step::Part(0),
    Step::Part(1),
    Step::Part(2),
    Step::Apply(Operator::Put, 3),
    Step::Part(1),
    Step::Apply(Operator::Has, 2), // 52 gives
    Step::Part(2),
    Step::Part(1),
    Step::Apply(Operator::Equal, 2),
    Step::Apply(Operator::Not, 1), // 53 asks
    Step::Part(0),
    Step::Part(1),
    Step::Part(3),
    Step::Apply(Operator::Put, 3),
    Step::Part(2),
    Step::Apply(Operator::Has, 2),
    Step::Part(0),
    Step::Part(2),
    Step::Apply(Operator::Has, 2),
    Step::Apply(Operator::Equal, 2), // 53 gives
    Step::Part(0),
    Step::Part(1),
    Step::Apply(Operator::Del, 2),
    Step::Part(1),
    Step::Apply(Operator::Has, 2),
    Step::Apply(Operator::Not, 1), // 54 gives
    Step::Part(2),
    Step::Part(1),
    Step::Apply(Operator::Equal, 2),
    Step::Apply(Operator::Not, 1), // 55 asks
    Step::Part(0),
    Step::Part(1),
    Step::Apply(Operator::Del, 2),
    Step::Part(2),
    Step::Apply(Operator::Has, 2),
    Step::Part(0),
    Step::Part(2),
    Step::Apply(Operator::Has, 2),
    Step::Apply(Operator::Equal, 2), // 55 gives
    Step::Part(2),
    Step::Part(1),
    Step::Apply(Operator::Equal, 2),
    Step::Apply(Operator::Not, 1), // 56 asks
    Step::Part(0),
    Step::Part(1),
    Step::Apply(Operator::Del, 2),
    Step::Part(2),
    Step::Apply(Operator::Get, 2),
    Step::Part(0),
    Step::Part(2),
    Step::Apply(Operator::Get, 2),
    Step::Apply(Operator::Equal, 2), // 56 gives
    Step::Part(0),
    Step::Part(1),
    Step::Apply(Operator::Has, 2),
    Step::Apply(Operator::Not, 1), // 57 asks
    Step::Part(0),
    Step::Part(1),
    Step::Apply(Operator::Get, 2),
    Step::Zero(0),
    Step::Apply(Operator::Equal, 2), // 57 gives
    Step::Part(0),
    Step::Part(1),
    Step::Apply(Operator::Has, 2),
    Step::Apply(Operator::Not, 1), // 58 gives
    Step::Part(1),
    Step::Part(2),
    Step::Apply(Operator::AtMost, 2), // 59 asks
    Step::Part(2),
    Step::Part(0),
    Step::Apply(Operator::SCap, 1),
    Step::Apply(Operator::AtMost, 2), // 59 asks
    Step::Part(0),
    Step::Part(1),
    Step::Part(2),
    Step::Apply(Operator::Sl, 3),
    Step::Apply(Operator::SLen, 1),
    Step::Part(2),
    Step::Part(1),
    Step::Apply(Operator::Minus, 2),
    Step::Apply(Operator::Equal, 2), // 59 gives
    Step::Part(1),
    Step::Part(2),
    Step::Apply(Operator::AtMost, 2), // 60 asks
    Step::Part(2),
    Step::Part(0),
    Step::Apply(Operator::SCap, 1),
    Step::Apply(Operator::AtMost, 2), // 60 asks
    Step::Part(0),
    Step::Part(1),
    Step::Part(2),
    Step::Apply(Operator::Sl, 3),
    Step::Apply(Operator::SCap, 1),
    Step::Part(0),
    Step::Apply(Operator::SCap, 1),
    Step::Part(1),
    Step::Apply(Operator::Minus, 2),
    Step::Apply(Operator::Equal, 2), // 60 gives
    Step::Part(0),
    Step::Apply(Operator::SLen, 1),
    Step::Part(0),
    Step::Apply(Operator::SCap, 1),
    Step::Apply(Operator::AtMost, 2), // 61 gives
    Step::Part(0),
    Step::Apply(Operator::Number(0), 0),
    Step::Part(0),
    Step::Apply(Operator::SLen, 1),
    Step::Apply(Operator::Sl, 3),
    Step::Part(0),
    Step::Apply(Operator::Equal, 2), // 62 gives
    Step::Part(1),
    Step::Part(2),
    Step::Apply(Operator::AtMost, 2), // 63 asks
    Step::Part(2),
    Step::Part(0),
    Step::Apply(Operator::SCap, 1),
    Step::Apply(Operator::AtMost, 2), // 63 asks
    Step::Part(3),
    Step::Part(4),
    Step::Apply(Operator::AtMost, 2), // 63 asks
    Step::Part(4),
    Step::Part(0),
    Step::Apply(Operator::SCap, 1),
    Step::Part(1),
    Step::Apply(Operator::Minus, 2),
    Step::Apply(Operator::AtMost, 2), // 63 asks
    Step::Part(0),
    Step::Part(1),
    Step::Part(2),
    Step::Apply(Operator::Sl, 3),
    Step::Part(3),
    Step::Part(4),
    Step::Apply(Operator::Sl, 3),
    Step::Part(0),
    Step::Part(1),
    Step::Part(3),
    Step::Apply(Operator::Plus, 2),
    Step::Part(1),
    Step::Part(4),
    Step::Apply(Operator::Plus, 2),
    Step::Apply(Operator::Sl, 3),
    Step::Apply(Operator::Equal, 2), // 63 gives
];

pub(crate) static PREMISES: [Premise; 58] = [
    Premise {
        bytes: None,
        steps: Span { from: 0, to: 3 },
    },
    Premise {
        bytes: None,
        steps: Span { from: 4, to: 7 },
    },
    Premise {
        bytes: None,
        steps: Span { from: 8, to: 9 },
    },
    Premise {
        bytes: None,
        steps: Span { from: 9, to: 10 },
    },
    Premise {
        bytes: None,
        steps: Span { from: 13, to: 14 },
    },
    Premise {
        bytes: None,
        steps: Span { from: 17, to: 18 },
    },
    Premise {
        bytes: None,
        steps: Span { from: 21, to: 24 },
    },
    Premise {
        bytes: None,
        steps: Span { from: 24, to: 26 },
    },
    Premise {
        bytes: None,
        steps: Span { from: 27, to: 30 },
    },
    Premise {
        bytes: None,
        steps: Span { from: 30, to: 31 },
    },
    Premise {
        bytes: None,
        steps: Span { from: 32, to: 35 },
    },
    Premise {
        bytes: None,
        steps: Span { from: 36, to: 40 },
    },
    Premise {
        bytes: None,
        steps: Span { from: 43, to: 47 },
    },
    Premise {
        bytes: None,
        steps: Span { from: 50, to: 53 },
    },
    Premise {
        bytes: None,
        steps: Span { from: 53, to: 56 },
    },
    Premise {
        bytes: None,
        steps: Span { from: 65, to: 66 },
    },
    Premise {
        bytes: None,
        steps: Span { from: 72, to: 74 },
    },
    Premise {
        bytes: None,
        steps: Span { from: 80, to: 83 },
    },
    Premise {
        bytes: None,
        steps: Span { from: 83, to: 87 },
    },
    Premise {
        bytes: None,
        steps: Span { from: 90, to: 93 },
    },
    Premise {
        bytes: None,
        steps: Span { from: 97, to: 102 },
    },
    Premise {
        bytes: None,
        steps: Span { from: 105, to: 108 },
    },
    Premise {
        bytes: None,
        steps: Span { from: 158, to: 161 },
    },
    Premise {
        bytes: None,
        steps: Span { from: 172, to: 176 },
    },
    Premise {
        bytes: Some(0),
        steps: Span { from: 176, to: 179 },
    },
    Premise {
        bytes: None,
        steps: Span { from: 187, to: 191 },
    },
    Premise {
        bytes: None,
        steps: Span { from: 213, to: 216 },
    },
    Premise {
        bytes: Some(0),
        steps: Span { from: 216, to: 219 },
    },
    Premise {
        bytes: None,
        steps: Span { from: 224, to: 226 },
    },
    Premise {
        bytes: None,
        steps: Span { from: 250, to: 253 },
    },
    Premise {
        bytes: None,
        steps: Span { from: 253, to: 257 },
    },
    Premise {
        bytes: None,
        steps: Span { from: 266, to: 269 },
    },
    Premise {
        bytes: None,
        steps: Span { from: 269, to: 273 },
    },
    Premise {
        bytes: None,
        steps: Span { from: 273, to: 278 },
    },
    Premise {
        bytes: None,
        steps: Span { from: 290, to: 297 },
    },
    Premise {
        bytes: None,
        steps: Span { from: 307, to: 314 },
    },
    Premise {
        bytes: None,
        steps: Span { from: 314, to: 318 },
    },
    Premise {
        bytes: None,
        steps: Span { from: 327, to: 334 },
    },
    Premise {
        bytes: None,
        steps: Span { from: 334, to: 338 },
    },
    Premise {
        bytes: None,
        steps: Span { from: 350, to: 352 },
    },
    Premise {
        bytes: None,
        steps: Span { from: 352, to: 354 },
    },
    Premise {
        bytes: None,
        steps: Span { from: 354, to: 359 },
    },
    Premise {
        bytes: None,
        steps: Span { from: 372, to: 376 },
    },
    Premise {
        bytes: None,
        steps: Span { from: 389, to: 392 },
    },
    Premise {
        bytes: None,
        steps: Span { from: 401, to: 403 },
    },
    Premise {
        bytes: None,
        steps: Span { from: 415, to: 419 },
    },
    Premise {
        bytes: None,
        steps: Span { from: 435, to: 439 },
    },
    Premise {
        bytes: None,
        steps: Span { from: 455, to: 459 },
    },
    Premise {
        bytes: None,
        steps: Span { from: 468, to: 472 },
    },
    Premise {
        bytes: None,
        steps: Span { from: 481, to: 485 },
    },
    Premise {
        bytes: None,
        steps: Span { from: 494, to: 497 },
    },
    Premise {
        bytes: None,
        steps: Span { from: 497, to: 501 },
    },
    Premise {
        bytes: None,
        steps: Span { from: 510, to: 513 },
    },
    Premise {
        bytes: None,
        steps: Span { from: 513, to: 517 },
    },
    Premise {
        bytes: None,
        steps: Span { from: 539, to: 542 },
    },
    Premise {
        bytes: None,
        steps: Span { from: 542, to: 546 },
    },
    Premise {
        bytes: None,
        steps: Span { from: 546, to: 549 },
    },
    Premise {
        bytes: None,
        steps: Span { from: 549, to: 555 },
    },
];

pub(crate) static ROWS: [Row; 63] = [
    // 1 (p: Bool, q: Bool): p && q => p
    Row {
        kinds: Span { from: 0, to: 2 },
        premises: Span { from: 0, to: 1 },
        conclusion: Span { from: 3, to: 4 },
    },
    // 2 (p: Bool, q: Bool): p && q => q
    Row {
        kinds: Span { from: 2, to: 4 },
        premises: Span { from: 1, to: 2 },
        conclusion: Span { from: 7, to: 8 },
    },
    // 3 (p: Bool, q: Bool): p; q => p && q
    Row {
        kinds: Span { from: 4, to: 6 },
        premises: Span { from: 2, to: 4 },
        conclusion: Span { from: 10, to: 13 },
    },
    // 4 (p: Bool, q: Bool): p => p || q
    Row {
        kinds: Span { from: 6, to: 8 },
        premises: Span { from: 4, to: 5 },
        conclusion: Span { from: 14, to: 17 },
    },
    // 5 (p: Bool, q: Bool): q => p || q
    Row {
        kinds: Span { from: 8, to: 10 },
        premises: Span { from: 5, to: 6 },
        conclusion: Span { from: 18, to: 21 },
    },
    // 6 (p: Bool, q: Bool): p || q; !p => q
    Row {
        kinds: Span { from: 10, to: 12 },
        premises: Span { from: 6, to: 8 },
        conclusion: Span { from: 26, to: 27 },
    },
    // 7 (p: Bool, q: Bool): imp(p, q); p => q
    Row {
        kinds: Span { from: 12, to: 14 },
        premises: Span { from: 8, to: 10 },
        conclusion: Span { from: 31, to: 32 },
    },
    // 8 (p: Bool): !(!p) => p
    Row {
        kinds: Span { from: 14, to: 15 },
        premises: Span { from: 10, to: 11 },
        conclusion: Span { from: 35, to: 36 },
    },
    // 9 (a: Word, b: Word): !(a < b) => b <= a
    Row {
        kinds: Span { from: 15, to: 17 },
        premises: Span { from: 11, to: 12 },
        conclusion: Span { from: 40, to: 43 },
    },
    // 10 (a: Word, b: Word): !(a <= b) => b < a
    Row {
        kinds: Span { from: 17, to: 19 },
        premises: Span { from: 12, to: 13 },
        conclusion: Span { from: 47, to: 50 },
    },
    // 11 (a: Word, b: Word): a <= b; b <= a => a == b
    Row {
        kinds: Span { from: 19, to: 21 },
        premises: Span { from: 13, to: 15 },
        conclusion: Span { from: 56, to: 59 },
    },
    // 12 (a: Word): => 0 <= a
    Row {
        kinds: Span { from: 21, to: 22 },
        premises: Span { from: 15, to: 15 },
        conclusion: Span { from: 59, to: 62 },
    },
    // 13 (a: Word): => a <= 18446744073709551615
    Row {
        kinds: Span { from: 22, to: 23 },
        premises: Span { from: 15, to: 15 },
        conclusion: Span { from: 62, to: 65 },
    },
    // 14 (p: Bool, x: Anything, y: Like x): p => if(p, x, y) == x
    Row {
        kinds: Span { from: 23, to: 26 },
        premises: Span { from: 15, to: 16 },
        conclusion: Span { from: 66, to: 72 },
    },
    // 15 (p: Bool, x: Anything, y: Like x): !p => if(p, x, y) == y
    Row {
        kinds: Span { from: 26, to: 29 },
        premises: Span { from: 16, to: 17 },
        conclusion: Span { from: 74, to: 80 },
    },
    // 16 (a: Word, b: Word): a <= b; !(a == b) => a < b
    Row {
        kinds: Span { from: 29, to: 31 },
        premises: Span { from: 17, to: 19 },
        conclusion: Span { from: 87, to: 90 },
    },
    // 17 (a: Word, b: Word): a < b => !(a == b)
    Row {
        kinds: Span { from: 31, to: 33 },
        premises: Span { from: 19, to: 20 },
        conclusion: Span { from: 93, to: 97 },
    },
    // 18 (a: Word, b: Word): a <= 18446744073709551615 - b => fits(a, b)
    Row {
        kinds: Span { from: 33, to: 35 },
        premises: Span { from: 20, to: 21 },
        conclusion: Span { from: 102, to: 105 },
    },
    // 19 (a: Word, b: Word): 0 < b => a % b < b
    Row {
        kinds: Span { from: 35, to: 37 },
        premises: Span { from: 21, to: 22 },
        conclusion: Span { from: 108, to: 113 },
    },
    // 20 (a: Word, b: Word): => a / b <= a
    Row {
        kinds: Span { from: 37, to: 39 },
        premises: Span { from: 22, to: 22 },
        conclusion: Span { from: 113, to: 118 },
    },
    // 21 (a: Word, b: Word): => a % b <= a
    Row {
        kinds: Span { from: 39, to: 41 },
        premises: Span { from: 22, to: 22 },
        conclusion: Span { from: 118, to: 123 },
    },
    // 22 (a: Word, b: Word): => a + b == b + a
    Row {
        kinds: Span { from: 41, to: 43 },
        premises: Span { from: 22, to: 22 },
        conclusion: Span { from: 123, to: 130 },
    },
    // 23 (a: Word, b: Word, c: Word): => (a + b) + c == a + (b + c)
    Row {
        kinds: Span { from: 43, to: 46 },
        premises: Span { from: 22, to: 22 },
        conclusion: Span { from: 130, to: 141 },
    },
    // 24 (a: Word, b: Word): => (a + b) - b == a
    Row {
        kinds: Span { from: 46, to: 48 },
        premises: Span { from: 22, to: 22 },
        conclusion: Span { from: 141, to: 148 },
    },
    // 25 (a: Word, b: Word): => (a & b) <= a
    Row {
        kinds: Span { from: 48, to: 50 },
        premises: Span { from: 22, to: 22 },
        conclusion: Span { from: 148, to: 153 },
    },
    // 26 (a: Word): => a * 1 == a
    Row {
        kinds: Span { from: 50, to: 51 },
        premises: Span { from: 22, to: 22 },
        conclusion: Span { from: 153, to: 158 },
    },
    // 27 (a: Word, b: Word): 0 < b => (a / b) * b + a % b == a
    Row {
        kinds: Span { from: 51, to: 53 },
        premises: Span { from: 22, to: 23 },
        conclusion: Span { from: 161, to: 172 },
    },
    // 28 (x: List, i: Word, v: Held x): i < len(x); v < 256 where x is Bytes => at(upd(x, i, v), i) == v
    Row {
        kinds: Span { from: 53, to: 56 },
        premises: Span { from: 23, to: 25 },
        conclusion: Span { from: 179, to: 187 },
    },
    // 29 (x: List, i: Word, j: Word, v: Held x): !(i == j) => at(upd(x, i, v), j) == at(x, j)
    Row {
        kinds: Span { from: 56, to: 60 },
        premises: Span { from: 25, to: 26 },
        conclusion: Span { from: 191, to: 201 },
    },
    // 30 (x: List, i: Word, v: Held x): => len(upd(x, i, v)) == len(x)
    Row {
        kinds: Span { from: 60, to: 63 },
        premises: Span { from: 26, to: 26 },
        conclusion: Span { from: 201, to: 209 },
    },
    // 31 (R: Maker): => len(R) == K(R)
    Row {
        kinds: Span { from: 63, to: 64 },
        premises: Span { from: 26, to: 26 },
        conclusion: Span { from: 209, to: 213 },
    },
    // 32 (R: Maker, i: Word): i < K(R); V(R) < 256 where R is Bytes => at(R, i) == V(R)
    Row {
        kinds: Span { from: 64, to: 66 },
        premises: Span { from: 26, to: 28 },
        conclusion: Span { from: 219, to: 224 },
    },
    // 33 (x: List, i: Word): iszero(x) => at(x, i) == Z(x)
    Row {
        kinds: Span { from: 66, to: 68 },
        premises: Span { from: 28, to: 29 },
        conclusion: Span { from: 226, to: 231 },
    },
    // 34 (R: ZeroMaker): => iszero(R)
    Row {
        kinds: Span { from: 68, to: 69 },
        premises: Span { from: 29, to: 29 },
        conclusion: Span { from: 231, to: 233 },
    },
    // 35 (x: Bytes, i: Word): => at(x, i) < 256
    Row {
        kinds: Span { from: 69, to: 71 },
        premises: Span { from: 29, to: 29 },
        conclusion: Span { from: 233, to: 238 },
    },
    // 36 (x: List, i: Word): => upd(x, i, at(x, i)) == x
    Row {
        kinds: Span { from: 71, to: 73 },
        premises: Span { from: 29, to: 29 },
        conclusion: Span { from: 238, to: 246 },
    },
    // 37 (x: List): => len(x) < 9223372036854775808
    Row {
        kinds: Span { from: 73, to: 74 },
        premises: Span { from: 29, to: 29 },
        conclusion: Span { from: 246, to: 250 },
    },
    // 38 (x: List, a: Word, b: Word): a <= b; b <= len(x) => len(sub(x, a, b)) == b - a
    Row {
        kinds: Span { from: 74, to: 77 },
        premises: Span { from: 29, to: 31 },
        conclusion: Span { from: 257, to: 266 },
    },
    // 39 (x: List, a: Word, b: Word, i: Word): a <= b; b <= len(x); i < b - a => at(sub(x, a, b), i) == at(x, a + i)
    Row {
        kinds: Span { from: 77, to: 81 },
        premises: Span { from: 31, to: 34 },
        conclusion: Span { from: 278, to: 290 },
    },
    // 40 (x: List, y: Like x): len(x) + len(y) < 9223372036854775808 => len(cat(x, y)) == len(x) + len(y)
    Row {
        kinds: Span { from: 81, to: 83 },
        premises: Span { from: 34, to: 35 },
        conclusion: Span { from: 297, to: 307 },
    },
    // 41 (x: List, y: Like x, i: Word): len(x) + len(y) < 9223372036854775808; i < len(x) => at(cat(x, y), i) == at(x, i)
    Row {
        kinds: Span { from: 83, to: 86 },
        premises: Span { from: 35, to: 37 },
        conclusion: Span { from: 318, to: 327 },
    },
    // 42 (x: List, y: Like x, i: Word): len(x) + len(y) < 9223372036854775808; i < len(y) => at(cat(x, y), len(x) + i) == at(y, i)
    Row {
        kinds: Span { from: 86, to: 89 },
        premises: Span { from: 37, to: 39 },
        conclusion: Span { from: 338, to: 350 },
    },
    // 43 (x: List, y: Like x): iszero(x); iszero(y); len(x) == len(y) => x == y
    Row {
        kinds: Span { from: 89, to: 91 },
        premises: Span { from: 39, to: 42 },
        conclusion: Span { from: 359, to: 362 },
    },
    // 44 (a: Word): => len(le64(a)) == 8
    Row {
        kinds: Span { from: 91, to: 92 },
        premises: Span { from: 42, to: 42 },
        conclusion: Span { from: 362, to: 367 },
    },
    // 45 (a: Word): => un64(le64(a)) == a
    Row {
        kinds: Span { from: 92, to: 93 },
        premises: Span { from: 42, to: 42 },
        conclusion: Span { from: 367, to: 372 },
    },
    // 46 (x: Bytes, a: Word): 8 <= len(x) => un64(put64(x, a)) == a
    Row {
        kinds: Span { from: 93, to: 95 },
        premises: Span { from: 42, to: 43 },
        conclusion: Span { from: 376, to: 382 },
    },
    // 47 (x: Bytes, a: Word): => len(put64(x, a)) == len(x)
    Row {
        kinds: Span { from: 95, to: 97 },
        premises: Span { from: 43, to: 43 },
        conclusion: Span { from: 382, to: 389 },
    },
    // 48 (x: Bytes, a: Word, i: Word): 8 <= i => at(put64(x, a), i) == at(x, i)
    Row {
        kinds: Span { from: 97, to: 100 },
        premises: Span { from: 43, to: 44 },
        conclusion: Span { from: 392, to: 401 },
    },
    // 49 (x: Bytes): iszero(x) => un64(x) == 0
    Row {
        kinds: Span { from: 100, to: 101 },
        premises: Span { from: 44, to: 45 },
        conclusion: Span { from: 403, to: 407 },
    },
    // 50 (m: Map, k: Word, v: Held m): => get(put(m, k, v), k) == v
    Row {
        kinds: Span { from: 101, to: 104 },
        premises: Span { from: 45, to: 45 },
        conclusion: Span { from: 407, to: 415 },
    },
    // 51 (m: Map, k: Word, j: Word, v: Held m): !(j == k) => get(put(m, k, v), j) == get(m, j)
    Row {
        kinds: Span { from: 104, to: 108 },
        premises: Span { from: 45, to: 46 },
        conclusion: Span { from: 419, to: 429 },
    },
    // 52 (m: Map, k: Word, v: Held m): => has(put(m, k, v), k)
    Row {
        kinds: Span { from: 108, to: 111 },
        premises: Span { from: 46, to: 46 },
        conclusion: Span { from: 429, to: 435 },
    },
    // 53 (m: Map, k: Word, j: Word, v: Held m): !(j == k) => has(put(m, k, v), j) == has(m, j)
    Row {
        kinds: Span { from: 111, to: 115 },
        premises: Span { from: 46, to: 47 },
        conclusion: Span { from: 439, to: 449 },
    },
    // 54 (m: Map, k: Word): => !has(del(m, k), k)
    Row {
        kinds: Span { from: 115, to: 117 },
        premises: Span { from: 47, to: 47 },
        conclusion: Span { from: 449, to: 455 },
    },
    // 55 (m: Map, k: Word, j: Word): !(j == k) => has(del(m, k), j) == has(m, j)
    Row {
        kinds: Span { from: 117, to: 120 },
        premises: Span { from: 47, to: 48 },
        conclusion: Span { from: 459, to: 468 },
    },
    // 56 (m: Map, k: Word, j: Word): !(j == k) => get(del(m, k), j) == get(m, j)
    Row {
        kinds: Span { from: 120, to: 123 },
        premises: Span { from: 48, to: 49 },
        conclusion: Span { from: 472, to: 481 },
    },
    // 57 (m: Map, k: Word): !has(m, k) => get(m, k) == Z(m)
    Row {
        kinds: Span { from: 123, to: 125 },
        premises: Span { from: 49, to: 50 },
        conclusion: Span { from: 485, to: 490 },
    },
    // 58 (m: EmptyMap, k: Word): => !has(m, k)
    Row {
        kinds: Span { from: 125, to: 127 },
        premises: Span { from: 50, to: 50 },
        conclusion: Span { from: 490, to: 494 },
    },
    // 59 (s: SliceS, a: Word, b: Word): a <= b; b <= scap(s) => slen(sl(s, a, b)) == b - a
    Row {
        kinds: Span { from: 127, to: 130 },
        premises: Span { from: 50, to: 52 },
        conclusion: Span { from: 501, to: 510 },
    },
    // 60 (s: SliceS, a: Word, b: Word): a <= b; b <= scap(s) => scap(sl(s, a, b)) == scap(s) - a
    Row {
        kinds: Span { from: 130, to: 133 },
        premises: Span { from: 52, to: 54 },
        conclusion: Span { from: 517, to: 527 },
    },
    // 61 (s: SliceS): => slen(s) <= scap(s)
    Row {
        kinds: Span { from: 133, to: 134 },
        premises: Span { from: 54, to: 54 },
        conclusion: Span { from: 527, to: 532 },
    },
    // 62 (s: SliceS): => sl(s, 0, slen(s)) == s
    Row {
        kinds: Span { from: 134, to: 135 },
        premises: Span { from: 54, to: 54 },
        conclusion: Span { from: 532, to: 539 },
    },
    // 63 (s: SliceS, a: Word, b: Word, i: Word, j: Word): a <= b; b <= scap(s); i <= j; j <= scap(s) - a => sl(sl(s, a, b), i, j) == sl(s, a + i, a + j)
    Row {
        kinds: Span { from: 135, to: 140 },
        premises: Span { from: 54, to: 58 },
        conclusion: Span { from: 555, to: 571 },
    },
];
