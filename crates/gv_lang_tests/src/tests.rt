//! A small program, called through what this crate offers.

use gv_base::{List, Name, NoMemory, Place};
use gv_lang::{Cmd, Local, LocalKind, Outline, Proc, Program, Pure, Struct, well_shaped};
use std::alloc::Global;
use std::test::Fail;

const NOWHERE: Place = Place { line: 0, column: 0 };

fn local(alloc: Global, name: &str, kind: LocalKind) -> Result<Local, NoMemory> {
    let name = Name::from_slice(alloc, name.as_bytes())?;
    Ok(Local { name, kind })
}

// Makes a struct without fields and returns it; one local is a reference.
fn recover(alloc: Global) -> Result<Proc, NoMemory> {
    let mut body = List::new(alloc);
    body.push(Cmd::New {
        x: 0,
        of: 0,
        vs: List::new(alloc),
        place: NOWHERE,
    })?;
    let mut es = List::new(alloc);
    es.push(Pure::Local(0))?;
    body.push(Cmd::Return { es, place: NOWHERE })?;
    let mut locals = List::new(alloc);
    locals.push(local(alloc, "t.1", LocalKind::Ref)?)?;
    let mut results = List::new(alloc);
    results.push(LocalKind::Ref)?;
    Ok(Proc {
        name: Name::from_slice(alloc, b"Recover")?,
        params: 0,
        locals,
        results,
        body,
    })
}

fn program(alloc: Global, recover_at: u32) -> Result<Program, NoMemory> {
    let mut structs = List::new(alloc);
    structs.push(Struct {
        name: Name::from_slice(alloc, b"T")?,
        fields: List::new(alloc),
    })?;
    let mut procs = List::new(alloc);
    procs.push(recover(alloc)?)?;
    Ok(Program {
        structs,
        procs,
        recover: recover_at,
        ops: List::new(alloc),
    })
}

#[test]
fn a_program_of_recovery_alone_is_well_shaped(rt: HostRuntime) -> Result<(), Fail> {
    assert!(rt; well_shaped(&program(rt.alloc(), 0)?));
    assert!(rt; !well_shaped(&program(rt.alloc(), 1)?));
    Ok(())
}

#[test]
fn a_return_is_outlined(rt: HostRuntime) -> Result<(), Fail> {
    let c = Cmd::Return {
        es: List::new(rt.alloc()),
        place: NOWHERE,
    };
    assert!(rt; matches!(c.outline(), Outline::Return));
    Ok(())
}
