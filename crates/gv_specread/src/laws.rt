//! What the grammar of specifications says of every list of tokens.

ghost use Rattle.std.specs.Prelude.{◌≡◌, ℕ, List as Seq};
ghost use Rattle.gv_grammar.specs.Text.{Spells};
ghost use Rattle.gv_termread.specs.declared.token.SeenToken.{SeenToken};
ghost use Rattle.gv_specread.specs.Language.{IsSpec};
ghost use Rattle.gv_specread.specs.declared.tree.SpecTree.{SpecTree};

/// Tokens spell one specification at most. This law is only proved, and does nothing.
pub fn tokens_spell_one_specification()
    ensures { (text : Seq ℕ) (level : ℕ) (tokens : Seq SeenToken) (a b : SpecTree) → Spells (IsSpec text level) a tokens
        → Spells (IsSpec text level) b tokens → a ≡ b }
{}
