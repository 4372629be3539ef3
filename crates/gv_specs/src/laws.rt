//! What is so of every specification that a text spells.

ghost use Rattle.gv_specs.specs.Alike.{SpellsOne};

/// A text spells one specification at most, its store aside. This law is only proved, and does nothing.
pub fn texts_spell_one_specification()
    ensures { SpellsOne }
{}
