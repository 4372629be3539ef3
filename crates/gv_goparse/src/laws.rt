//! What the grammar of packages says of every list of tokens.

ghost use Rattle.std.specs.Prelude.{◌≡◌, ℕ, List as Seq};
ghost use Rattle.gv_grammar.specs.Text.{Spells};
ghost use Rattle.gv_gosyntax.specs.declared.lexeme.Lexeme.{Lexeme};
ghost use Rattle.gv_gosyntax.specs.declared.tree.File.{File};
ghost use Rattle.gv_goparse.specs.Language.{IsFile};

/// Tokens spell one package at most. This law is only proved, and does nothing.
pub fn tokens_spell_one_package()
    ensures { (level : ℕ) (tokens : Seq Lexeme) (a b : File) → Spells (IsFile level) a tokens → Spells (IsFile level) b tokens → a ≡ b }
{}
