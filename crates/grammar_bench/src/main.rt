//! Reads a long block of the sample language, for bench/grammar to time: grammar_bench tokens|derive|read COUNT.
#![tactic(auto)]

use grammar_sample::generated::sample_table::{
    CLASS_ASSIGN, CLASS_BANG, CLASS_DOT, CLASS_IDENT, CLASS_L_BRACE, CLASS_L_PAREN, CLASS_NUMBER,
    CLASS_PLUS, CLASS_R_BRACE, CLASS_R_PAREN, CLASS_SEMI, CLASS_STAR, NAME_BLOCK, sample_grammar,
};
use grammar_sample::{Token, read};
use gv_grammar::derive;
use std::alloc::{AllocError, Global};
use std::{env, io};

/// The classes of `a . b = ! x * ( y + 7 ) ;`.
static STATEMENT: [u8; 13] = [
    CLASS_IDENT,
    CLASS_DOT,
    CLASS_IDENT,
    CLASS_ASSIGN,
    CLASS_BANG,
    CLASS_IDENT,
    CLASS_STAR,
    CLASS_L_PAREN,
    CLASS_IDENT,
    CLASS_PLUS,
    CLASS_NUMBER,
    CLASS_R_PAREN,
    CLASS_SEMI,
];

fn token(class: u8) -> Token {
    Token { class, value: 7 }
}

/// A block of as many statements as fit into `count` tokens.
fn block_of(alloc: Global, count: usize) -> Result<Vec<Token>, AllocError> {
    let mut tokens = Vec::new(alloc);
    tokens.push(token(CLASS_L_BRACE))?;
    for _ in 0..count / STATEMENT.len() {
        for class in &STATEMENT {
            tokens.push(token(*class))?;
        }
    }
    tokens.push(token(CLASS_R_BRACE))?;
    Ok(tokens)
}

fn run(rt: &impl Print, alloc: Global, what: &str, count: usize) -> io::Result<()> {
    let tokens = block_of(alloc, count)?;
    match what {
        "derive" => {
            let mut classes = Vec::new(alloc);
            for token in &tokens {
                classes.push(token.class)?;
            }
            match derive(alloc, &sample_grammar(), NAME_BLOCK, &classes) {
                Ok(steps) => println!(rt; "{} tokens, {} steps", tokens.len(), steps.len()),
                Err(fault) => println!(rt; "{} tokens, {fault:?}", tokens.len()),
            }
        }
        "read" => match read(alloc, &tokens) {
            Ok(block) => println!(rt; "{} tokens, {} statements", tokens.len(), block.len()),
            Err(fault) => println!(rt; "{} tokens, {fault:?}", tokens.len()),
        },
        _ => println!(rt; "{} tokens", tokens.len()),
    }
}

fn main(rt: HostRuntime) -> io::Result<()> {
    let mut words = env::args(&rt)?.skip(1);
    let what = words.next();
    let count = words.next();
    match (what, count) {
        (Some(what), Some(count)) => {
            let count = count.as_str().parse::<usize>().unwrap_or(0);
            run(&rt, rt.alloc(), what.as_str(), count)
        }
        _ => println!(rt; "grammar_bench tokens|derive|read COUNT"),
    }
}
