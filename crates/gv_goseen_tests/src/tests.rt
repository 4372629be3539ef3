//! Scopes that shadow one another, and declarations of one name.

use gv_base::Code;
use gv_gonames::{Locals, NameTable, Span, StructTable};
use gv_goseen::{declare_field, declare_import, declare_method, declare_name, number_of};
use gv_gosyntax::Lexeme;
use gv_gotyped::Fault;
use gv_gotypes::{Entity, Found, Library};
use gv_operands::{GoType, Value};
use std::test::Fail;

const TEXT: &[u8] = b"\"a/disk\" T S f f disk T";

fn token(start: u32, end: u32) -> Lexeme {
    Lexeme {
        class: 0,
        start,
        end,
    }
}

#[test]
fn an_inner_name_ends_with_its_scope(rt: HostRuntime) -> Result<(), Fail> {
    let alloc = rt.alloc();
    let outer = Entity::Variable(1, Some(GoType::Word));
    let inner = Entity::Variable(9, Some(GoType::Boolean));
    let mut locals = Locals::new(alloc);
    locals.open()?;
    locals.declare(alloc, b"x".as_slice(), outer)?;
    locals.open_literal(alloc)?;
    locals.open()?;
    locals.declare(alloc, b"x".as_slice(), inner)?;
    let seen = locals.found(b"x".as_slice(), None);
    assert!(rt;
        seen == Some(Found {
            entity: inner,
            is_outer: false
        })
    );
    locals.close();
    let seen = locals.found(b"x".as_slice(), None);
    assert!(rt;
        seen == Some(Found {
            entity: outer,
            is_outer: true
        })
    );
    assert!(rt; !locals.is_here(b"x".as_slice()));
    locals.close();
    let seen = locals.found(b"x".as_slice(), None);
    assert!(rt;
        seen == Some(Found {
            entity: outer,
            is_outer: false
        })
    );
    locals.close();
    assert!(rt; locals.found(b"x".as_slice(), None).is_none());
    Ok(())
}

#[test]
fn an_import_is_known_by_its_last_element(rt: HostRuntime) -> Result<(), Fail> {
    let alloc = rt.alloc();
    let text = b"\"a/disk\"".as_slice();
    let mut names = NameTable::new(alloc, text);
    let path = Lexeme {
        class: 0,
        start: 0,
        end: 8,
    };
    let first = declare_import(alloc, text, &mut names, path)?;
    assert!(rt; first.is_none());
    let disk = names.entity(b"disk".as_slice());
    assert!(rt; disk == Some(Entity::Imported(Library::Disk)));
    Ok(())
}

#[test]
fn the_later_of_two_names_is_twice(rt: HostRuntime) -> Result<(), Fail> {
    let alloc = rt.alloc();
    let mut names = NameTable::new(alloc, TEXT);
    let first = declare_name(alloc, TEXT, &mut names, token(9, 10), Entity::StructOf(0))?;
    assert!(rt; first.is_none());
    let again = declare_name(alloc, TEXT, &mut names, token(22, 23), Entity::StructOf(1))?;
    assert!(rt;
        again
            == Some(Fault {
                start: 22,
                code: Code::Twice
            })
    );
    assert!(rt; names.entity(b"T".as_slice()) == Some(Entity::StructOf(0)));
    Ok(())
}

#[test]
fn a_method_named_as_a_field_is_twice(rt: HostRuntime) -> Result<(), Fail> {
    let alloc = rt.alloc();
    let mut table = StructTable::new(alloc, TEXT, Span { start: 9, end: 10 });
    let first = declare_field(alloc, TEXT, &mut table, token(13, 14), Some(GoType::Word))?;
    assert!(rt; first.is_none());
    let again = declare_method(alloc, TEXT, &mut table, token(15, 16), 0)?;
    assert!(rt;
        again
            == Some(Fault {
                start: 15,
                code: Code::Twice
            })
    );
    assert!(rt; number_of(b"0x1_0".as_slice()) == Some(Value::Count(16)));
    assert!(rt; number_of(b"18446744073709551616".as_slice()).is_none());
    Ok(())
}
