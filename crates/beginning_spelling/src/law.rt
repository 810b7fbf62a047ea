// The law that a beginning of a script in tokens is one that bytes have.
ghost use Rattle.std.specs.Prelude.{◌≡◌, ◌++◌, ℕ, List, Ok};
ghost use Rattle.flume_tokens.specs.declared.token.Token.{Token};
ghost use Rattle.flume_tokens.specs.declared.token.TokenList.{TokenList as Cut};
ghost use Rattle.flume_tokens.specs.Tokens.{tokens_of};
ghost use Rattle.flume_grammar.specs.Limits.{Limits};
ghost use Rattle.flume_grammar.specs.Fault.{IsBeginning};
ghost use Rattle.token_spelling.specs.Spellable.{AreSpellable};
ghost use Rattle.beginning_spelling.specs.Beginning.{HaveTokens, IsWrittenBeginning};

use token_spelling::spelling_law;

/// Tokens that can be spelled and are a beginning of a script are one that bytes have.
pub fn beginning_law()
    // Tokens that can be spelled are those of some bytes,
    ensures bytes { (ts : List Token) → AreSpellable ts → (bytes : List ℕ) × HaveTokens bytes ts }
    // and where a script begins with them, some bytes are such a script.
    ensures written { (limits : Limits) (ts : List Token) → AreSpellable ts
        → IsBeginning limits ts → IsWrittenBeginning limits ts }
    // So it is with all tokens with which those of a script begin:
    ensures front { (limits : Limits) (bytes : List ℕ) (list : Cut) (front back : List Token)
        → tokens_of bytes ≡ Ok list → list.items ≡ front ++ back
        → IsBeginning limits front → IsWrittenBeginning limits front }
    // they are a beginning where bytes have them as one, and only there.
    ensures only { (limits : Limits) (ts : List Token)
        → IsWrittenBeginning limits ts → IsBeginning limits ts }
{
    spelling_law();
}
