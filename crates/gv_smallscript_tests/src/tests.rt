//! A script of two blocks, and a text that ends too soon.

use gv_smallscript::{SmallFault, one_small_script, small_script};
use std::process::Abort;

const SCRIPT: &[u8] =
    b"pred Crash() { case () { } }\npred H(p: Ref) { case () { } }\ncrash Crash;\nroot H;\ninit { fold Crash() 1 (); }\nrecover { step as (p); share { }; open; boot; fold H(p) 1 (); close; } // so\nop Add { open; sim me; close; step; }\nop Sub { open; sim me; close; step; }\n";

// Each block with the place of its `step`; a comment is no token.
#[test]
fn gives_blocks_in_order(rt: HostRuntime) -> Result<(), SmallFault> {
    let script = small_script(rt.alloc(), SCRIPT)?;
    assert_eq!(rt; script.ops.as_slice().len(), 2);
    let mut line = 7;
    for block in script.ops.as_slice() {
        assert_eq!(rt; block.step.line, line);
        assert_eq!(rt; block.step.column, 31);
        line = 8;
    }
    Ok(())
}

#[test]
fn a_block_without_its_brace_is_of_another_form(rt: HostRuntime) -> Result<(), SmallFault> {
    assert_eq!(rt;
        small_script(rt.alloc(), &SCRIPT[..SCRIPT.len() - 3]).is_err(),
        true
    );
    one_small_script();
    Ok(())
}
