// What holds of the grammar: each script has one tree or one first fault.
ghost use Rattle.std.specs.Prelude.{◌≡◌, ◌⊎◌, ℕ, List};
ghost use Rattle.std.specs.List.{All};
ghost use Rattle.flume_tokens.specs.declared.token.Token.{Token};
ghost use Rattle.flume_tokens.specs.declared.token.TokenList.{TokenList as Cut};
ghost use Rattle.flume_grammar.specs.declared.fault.ScriptKind.{ScriptKind as Kind};
ghost use Rattle.flume_grammar.specs.declared.tree.Statement.{Statement};
ghost use Rattle.flume_grammar.specs.declared.tree.Ast.{Ast};
ghost use Rattle.flume_grammar.specs.Answer.{Accepts, Refuses};
ghost use Rattle.flume_grammar.specs.Utf8.{IsUtf8Named};
ghost use Rattle.flume_grammar.specs.Limits.{the_limits};
ghost use Rattle.flume_grammar.specs.Grammar.{IsScript};
ghost use Rattle.flume_grammar.specs.Fault.{IsWholeScript, IsFault};

/// Tokens spell one script at most, and where they spell none they have one first fault.
pub fn script_law()
    ensures one_tree { (ts : List Token) (ss rs : List Statement)
        → IsScript the_limits ts ss → IsScript the_limits ts rs → ss ≡ rs }
    ensures either { (list : Cut) → IsWholeScript the_limits list.items
        ⊎ ((line : ℕ) × (kind : Kind) × IsFault the_limits list line kind) }
    ensures not_both { (list : Cut) (line : ℕ) (kind : Kind)
        → IsWholeScript the_limits list.items → IsFault the_limits list line kind → ⊥ }
    ensures one_fault { (list : Cut) (n m : ℕ) (j k : Kind)
        → IsFault the_limits list n j → IsFault the_limits list m k → (n ≡ m) × (j ≡ k) }
{}

/// Bytes are accepted with one tree, or refused with one fault.
pub fn answer_law()
    ensures one_tree { (bytes : List ℕ) (a b : Ast) → Accepts bytes a → Accepts bytes b → a ≡ b }
    ensures either { (bytes : List ℕ) → ((ast : Ast) × Accepts bytes ast)
        ⊎ ((line : ℕ) × (kind : Kind) × Refuses bytes line kind) }
    ensures not_both { (bytes : List ℕ) (ast : Ast) (line : ℕ) (kind : Kind)
        → Accepts bytes ast → Refuses bytes line kind → ⊥ }
    ensures one_fault { (bytes : List ℕ) (n m : ℕ) (j k : Kind)
        → Refuses bytes n j → Refuses bytes m k → (n ≡ m) × (j ≡ k) }
{}

/// The file that a statement of an accepted script names is named in UTF-8.
pub fn file_law()
    ensures { (bytes : List ℕ) (ast : Ast) → Accepts bytes ast
        → All (λ statement. IsUtf8Named statement.form) ast.statements }
{}
