//! Laws of the definitions in this crate. Each function does nothing: its contract is the law.

ghost use Rattle.gv_scoping.specs.Laws.{RulesKeep};

/// The rules about copies, the crash invariant, locals, cells and locks keep what a path speaks of.
pub fn rules_keep_scope()
    ensures { RulesKeep }
{}
