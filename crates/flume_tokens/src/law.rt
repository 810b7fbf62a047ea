// What holds of the texts of every script.
ghost use Rattle.std.specs.Prelude.{◌≡◌, ℕ, List, Ok};
ghost use Rattle.std.specs.List.{All};
ghost use Rattle.flume_tokens.specs.declared.token.TokenList.{TokenList as Cut};
ghost use Rattle.flume_tokens.specs.Tokens.{tokens_of};
ghost use Rattle.flume_tokens.specs.Utf8.{IsUtf8Text};

/// Each text of a script is UTF-8, since the script is.
pub fn text_law()
    ensures { (bytes : List ℕ) (list : Cut) → tokens_of bytes ≡ Ok list
        → All (λ token. IsUtf8Text token.kind) list.items }
{}
