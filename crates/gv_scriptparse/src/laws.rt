//! What the grammar of scripts says of every list of tokens.

ghost use Rattle.std.specs.Prelude.{◌≡◌, ℕ, List as Seq};
ghost use Rattle.gv_grammar.specs.Text.{Spells};
ghost use Rattle.gv_termread.specs.declared.token.SeenToken.{SeenToken};
ghost use Rattle.gv_scriptsyntax.specs.declared.tree.Script.{Script};
ghost use Rattle.gv_scriptsyntax.specs.Language.{IsScript};

/// Tokens spell one script at most. This law is only proved, and does nothing.
pub fn tokens_spell_one_script()
    ensures { (text : Seq ℕ) (level : ℕ) (tokens : Seq SeenToken) (a b : Script) → Spells (IsScript text level) a tokens
        → Spells (IsScript text level) b tokens → a ≡ b }
{}
