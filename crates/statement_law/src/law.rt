// That texts of statements tell their trees.
ghost use Rattle.std.specs.Prelude.{◌≡◌, ℕ, List, Ok, Some, length, map, slice_get};
ghost use Rattle.flume_grammar.specs.Grammar.{IsScript};
ghost use Rattle.flume_grammar.specs.Limits.{the_limits};
ghost use Rattle.flume_grammar.specs.declared.tree.Statement.{Statement};
ghost use Rattle.flume_tokens.specs.Tokens.{tokens_of};
ghost use Rattle.flume_tokens.specs.declared.token.Token.{Token};
ghost use Rattle.flume_tokens.specs.declared.token.TokenList.{TokenList as Cut};
ghost use Rattle.statement_law.specs.Lineless.{statement_lineless};
ghost use Rattle.statement_law.specs.Outlined.{outlines_of};
ghost use Rattle.statement_texts.specs.Texts.{kinds_of, texts_of};

use flume_grammar::script_law;
use statement_texts::text_law;
use token_spelling::spelling_law;

/// Statements are told, but for their lines, by their texts, and by what their tokens are.
pub fn statement_law()
    // The texts of a script are those of its statements, one for each.
    ensures texts { (bytes : List ℕ) (list : Cut) (statements : List Statement) →
        tokens_of bytes ≡ Ok list → IsScript the_limits list.items statements →
        length (texts_of list.items) ≡ length statements }
    // Statements with one text are one but for their lines, in whatever scripts they stand;
    ensures same { (bytes more : List ℕ) (list other : Cut) (ss rs : List Statement)
        (j k : ℕ) (s r : Statement) (text : List ℕ) →
        tokens_of bytes ≡ Ok list → IsScript the_limits list.items ss →
        tokens_of more ≡ Ok other → IsScript the_limits other.items rs →
        slice_get (texts_of list.items) j ≡ Some text → slice_get ss j ≡ Some s →
        slice_get (texts_of other.items) k ≡ Some text → slice_get rs k ≡ Some r →
        statement_lineless s ≡ statement_lineless r }
    // and so are those of scripts with the same tokens, whatever stands between them.
    ensures blanks { (ts us : List Token) (ss rs : List Statement) →
        IsScript the_limits ts ss → IsScript the_limits us rs → kinds_of ts ≡ kinds_of us →
        map statement_lineless ss ≡ map statement_lineless rs }
    // Lines, in turn, have no part in keys.
    ensures keys { (ss rs : List Statement) →
        map statement_lineless ss ≡ map statement_lineless rs → outlines_of ss ≡ outlines_of rs }
{
    script_law();
    text_law();
    spelling_law();
}
