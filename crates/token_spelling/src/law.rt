// The law that cutting the spelling of tokens gives them back.
ghost use Rattle.std.specs.Prelude.{◌≡◌, ◌≤◌, ℕ, List, length, IsUtf8, Ok};
ghost use Rattle.flume_tokens.specs.declared.token.Token.{Token};
ghost use Rattle.flume_tokens.specs.declared.token.TokenList.{TokenList as Cut};
ghost use Rattle.flume_tokens.specs.Tokens.{tokens_of, tokens_from};
ghost use Rattle.token_spelling.specs.Spellable.{AreSpellable};
ghost use Rattle.token_spelling.specs.Spelled.{spelled, last_line};

use flume_tokens::keyword_law;

/// Tokens that can be spelled are those of the bytes that they are spelled as, and the tokens of
/// any script can be spelled.
pub fn spelling_law()
    // However many they are, cutting gives them back,
    ensures cut { (ts : List Token) → AreSpellable ts → tokens_from 0 1 (spelled ts) ≡ Ok ts }
    // from what is UTF-8.
    ensures text { (ts : List Token) → AreSpellable ts → IsUtf8 (spelled ts) }
    // So they are a script's, where it is no longer than a script may be.
    ensures script { (ts : List Token) → AreSpellable ts → length (spelled ts) ≤ 65536
        → tokens_of (spelled ts) ≡ Ok (record { items = ts; last_line = last_line ts }) }
    ensures all { (bytes : List ℕ) (list : Cut) → tokens_of bytes ≡ Ok list
        → AreSpellable list.items }
{
    keyword_law();
}
