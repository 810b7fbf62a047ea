// What holds of the texts of statements.
ghost use Rattle.std.specs.Prelude.{◌≡◌, ◌∷◌, List, ℕ, Ok};
ghost use Rattle.std.specs.List.{All};
ghost use Rattle.flume_tokens.specs.declared.token.TokenKind.{TokenKind as Kind};
ghost use Rattle.flume_tokens.specs.declared.token.TokenList.{TokenList as Cut};
ghost use Rattle.flume_tokens.specs.Tokens.{tokens_of};
ghost use Rattle.token_spelling.specs.Spellable.{IsSpellable};
ghost use Rattle.statement_texts.specs.Texts as spec;

use token_spelling::spelling_law;

/// The text of a statement is told by its tokens alone, and tells them.
pub fn text_law()
    // Scripts with the same tokens, whatever blanks, comments and line ends stand between them,
    // have the same texts;
    ensures same { (bytes more : List ℕ) (list other : Cut) → tokens_of bytes ≡ Ok list →
        tokens_of more ≡ Ok other → spec.kinds_of list.items ≡ spec.kinds_of other.items →
        spec.texts_of list.items ≡ spec.texts_of other.items }
    // and tokens that a script may have are the same where their texts are.
    ensures apart { (k j : Kind) (ks js : List Kind) → All IsSpellable (k ∷ ks) →
        All IsSpellable (j ∷ js) → spec.spaced_tokens (k ∷ ks) ≡ spec.spaced_tokens (j ∷ js) →
        k ∷ ks ≡ j ∷ js }
{
    spelling_law();
}
