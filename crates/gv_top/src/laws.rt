//! Laws of the texts that a promise speaks of: each spells at most one value.

ghost use Rattle.gv_gotree.specs.SmallPackage.{IsSmallPackage};
ghost use Rattle.gv_top.specs.Laws.{SpellsOne};
ghost use Rattle.gv_top.specs.SmallScript.{IsSmallScript};
ghost use Rattle.gv_top.specs.Specifications.{IsSpecOf};

/// A text spells at most one package of the small form.
pub fn one_package()
    ensures { SpellsOne IsSmallPackage }
{}

/// A text spells at most one specification of the small form.
pub fn one_specification()
    ensures { SpellsOne IsSpecOf }
{}

/// A text spells at most one script of the small form.
pub fn one_script()
    ensures { SpellsOne IsSmallScript }
{}
