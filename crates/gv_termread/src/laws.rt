//! What the grammar of terms says of every list of tokens.

ghost use Rattle.std.specs.Prelude.{◌≡◌, ℕ, List as Seq};
ghost use Rattle.gv_grammar.specs.Text.{Spells};
ghost use Rattle.gv_termread.specs.Language.{IsTerm};
ghost use Rattle.gv_termread.specs.Reading.{alone};
ghost use Rattle.gv_termread.specs.declared.placed.PlacedTerm.{PlacedTerm};
ghost use Rattle.gv_termread.specs.declared.token.SeenToken.{SeenToken};

/// Tokens spell one term at most. This law is only proved, and does nothing.
pub fn tokens_spell_one_term()
    ensures { (text : Seq ℕ) (level : ℕ) (tokens : Seq SeenToken) (a b : PlacedTerm) → Spells (IsTerm (alone text) level) a tokens
        → Spells (IsTerm (alone text) level) b tokens → a ≡ b }
{}
