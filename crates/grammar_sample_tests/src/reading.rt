//! Tests of what no clause of `grammar_sample` says: blocks and expressions that are read, and where none goes on.

use grammar_sample::generated::sample_table::{
    CLASS_ASSIGN, CLASS_BANG, CLASS_COMMA, CLASS_DEFINE, CLASS_DOT, CLASS_ELSE, CLASS_FUNC,
    CLASS_IDENT, CLASS_IF, CLASS_L_BRACE, CLASS_L_PAREN, CLASS_MINUS, CLASS_NUMBER, CLASS_PLUS,
    CLASS_R_BRACE, CLASS_R_PAREN, CLASS_SEMI, CLASS_STAR, NAME_BLOCK, sample_grammar,
};
use grammar_sample::{Token, read, read_front, read_sum};
use gv_grammar::{Fault, ReadFault, derive, first_deep, longest};
use std::alloc::{AllocError, Global};
use std::test::Fail;

fn token_of(word: &str) -> Token {
    let class = match word {
        "7" => CLASS_NUMBER,
        "func" => CLASS_FUNC,
        "(" => CLASS_L_PAREN,
        ")" => CLASS_R_PAREN,
        "," => CLASS_COMMA,
        ";" => CLASS_SEMI,
        "=" => CLASS_ASSIGN,
        ":=" => CLASS_DEFINE,
        "!" => CLASS_BANG,
        "+" => CLASS_PLUS,
        "-" => CLASS_MINUS,
        "*" => CLASS_STAR,
        "{" => CLASS_L_BRACE,
        "}" => CLASS_R_BRACE,
        "." => CLASS_DOT,
        "if" => CLASS_IF,
        "else" => CLASS_ELSE,
        _ => CLASS_IDENT,
    };
    Token { class, value: 7 }
}

fn push_words(tokens: &mut Vec<Token>, words: &str) -> Result<(), AllocError> {
    for word in words.split_whitespace() {
        tokens.push(token_of(word))?;
    }
    Ok(())
}

/// The tokens of a text whose middle comes so many times.
fn tokens_of(
    alloc: Global,
    front: &str,
    middle: &str,
    times: usize,
    back: &str,
) -> Result<Vec<Token>, AllocError> {
    let mut tokens = Vec::new(alloc);
    push_words(&mut tokens, front)?;
    for _ in 0..times {
        push_words(&mut tokens, middle)?;
    }
    push_words(&mut tokens, back)?;
    Ok(tokens)
}

/// How many statements the block has, or why it isn't read.
fn outcome(alloc: Global, tokens: &[Token]) -> Result<usize, ReadFault> {
    match read(alloc, tokens) {
        Ok(block) => Ok(block.len()),
        Err(fault) => Err(fault),
    }
}

#[test]
fn reads_a_block_or_says_where_none_goes_on(rt: HostRuntime) -> Result<(), Fail> {
    let table = [
        ("{ }", Ok(0)),
        (
            "{ a = b . c ( x , 7 ) ; a . b := ! x * ( y + 7 ) - z ; f ( ) ; { ; } }",
            Err(ReadFault::Refused { at: 32 }),
        ),
        (
            "{ a = b . c ( x , 7 ) ; a . b := ! x * ( y + 7 ) - z ; f ( ) ; { } ; }",
            Ok(4),
        ),
        ("{ func ( a ) . b ( ) ; ( a ) . b = func ( ) }", Ok(2)),
        (
            "{ if a { } else if b . c { x = 7 } else { } ; if a { } }",
            Ok(2),
        ),
        // the right side is no call of an operand, and a statement is no sum
        ("{ a = ! b ( x ) }", Err(ReadFault::Refused { at: 5 })),
        ("{ a + b }", Err(ReadFault::Refused { at: 2 })),
        ("{ if a { } else a }", Err(ReadFault::Refused { at: 6 })),
        ("{ } }", Err(ReadFault::Refused { at: 2 })),
        ("{ a .", Err(ReadFault::End)),
        ("", Err(ReadFault::End)),
    ];
    for (text, wanted) in table {
        let tokens = tokens_of(rt.alloc(), text, "", 0, "")?;
        assert_eq!(rt; outcome(rt.alloc(), &tokens), wanted, "{text}");
    }
    Ok(())
}

#[test]
fn refuses_level_201_at_the_token_that_opens_it(rt: HostRuntime) -> Result<(), Fail> {
    let deep = |at: usize| Err(ReadFault::TooDeep { at });
    let table = [
        // the block opens level 1, and each operator one more
        ("{ a =", "!", 199, "b }", Ok(1)),
        ("{ a =", "!", 200, "b }", deep(202)),
        ("{", "{", 199, "", Err(ReadFault::End)),
        ("{", "{", 200, "", deep(200)),
        // a fault behind it comes later, one before it first
        ("{ a =", "!", 200, "*", deep(202)),
        ("{ a = *", "!", 200, "*", Err(ReadFault::Refused { at: 3 })),
        // `func` opens nothing, the `(` that it wants opens level 201
        ("{ a =", "!", 199, "func ( ) }", deep(203)),
        (
            "{ a =",
            "!",
            199,
            "func )",
            Err(ReadFault::Refused { at: 203 }),
        ),
        // a statement's levels end with it
        ("{", "a = ! ! b ;", 150, "}", Ok(150)),
        // each `else if` opens a level for the rest of its statement
        ("{ if a { }", "else if a { }", 198, "}", Ok(1)),
        ("{ if a { }", "else if a { }", 199, "}", deep(998)),
        (
            "{ if a { }",
            "else if a { }",
            198,
            "else { } ; a = ! b }",
            Ok(2),
        ),
    ];
    for (front, middle, times, back, wanted) in table {
        let tokens = tokens_of(rt.alloc(), front, middle, times, back)?;
        assert_eq!(rt;
            outcome(rt.alloc(), &tokens),
            wanted,
            "{front} {middle}*{times} {back}"
        );
    }
    Ok(())
}

#[test]
fn reads_the_block_at_the_front(rt: HostRuntime) -> Result<(), Fail> {
    let table = [
        ("{ a = b } x", 0, Ok((1, 5))),
        ("{ } }", 199, Ok((0, 2))),
        ("{ } }", 200, Err(ReadFault::TooDeep { at: 0 })),
        ("{ { } x", 199, Err(ReadFault::TooDeep { at: 1 })),
        ("{ a x", 0, Err(ReadFault::Refused { at: 2 })),
        ("{ a", 0, Err(ReadFault::End)),
        ("a", 0, Err(ReadFault::Refused { at: 0 })),
    ];
    for (text, level, wanted) in table {
        let tokens = tokens_of(rt.alloc(), text, "", 0, "")?;
        let found = match read_front(rt.alloc(), &tokens, level) {
            Ok(front) => Ok((front.block.len(), front.len)),
            Err(fault) => Err(fault),
        };
        assert_eq!(rt; found, wanted, "{text} from level {level}");
    }
    Ok(())
}

#[test]
fn reads_an_expression_from_another_name_of_the_table(rt: HostRuntime) -> Result<(), Fail> {
    let table = [
        ("! a * ( y + 7 ) - z", Ok(())),
        ("a = b", Err(ReadFault::Refused { at: 1 })),
        ("a )", Err(ReadFault::Refused { at: 1 })),
        ("a +", Err(ReadFault::End)),
        ("{ }", Err(ReadFault::Refused { at: 0 })),
    ];
    for (text, wanted) in table {
        let tokens = tokens_of(rt.alloc(), text, "", 0, "")?;
        let found = match read_sum(rt.alloc(), &tokens) {
            Ok(_) => Ok(()),
            Err(fault) => Err(fault),
        };
        assert_eq!(rt; found, wanted, "{text}");
    }
    Ok(())
}

#[test]
fn derives_classes(rt: HostRuntime) -> Result<(), Fail> {
    let grammar = sample_grammar();
    let block = [CLASS_L_BRACE, CLASS_R_BRACE, CLASS_R_BRACE];
    let run = longest(rt.alloc(), &grammar, NAME_BLOCK, &block)?;
    assert_eq!(rt; run.len, 2);
    assert!(rt; matches!(&run.steps, Some(steps) if steps.len() == 7));
    let steps = run.steps.ok_or("a block is derived")?;
    assert_eq!(rt; first_deep(rt.alloc(), &steps, 0, 1)?, None);
    assert_eq!(rt; first_deep(rt.alloc(), &steps, 0, 0)?, Some(0));
    let refused = derive(rt.alloc(), &grammar, NAME_BLOCK, &block);
    assert!(rt; matches!(refused, Err(Fault::Refused { at: 2 })));
    let ended = derive(rt.alloc(), &grammar, NAME_BLOCK, &block[..1]);
    assert!(rt; matches!(ended, Err(Fault::End)));
    Ok(())
}
