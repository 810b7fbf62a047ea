// The number behind a keyword, read from tokens.
ghost use Rattle.flume_grammar.specs.inner.Reads.{PassesSuch, all};
ghost use Rattle.flume_grammar.specs.inner.Reading as spec;

use flume_grammar::Stop;
use flume_reading::Cursor;
use flume_reading::reading::{keyword, number};
use flume_tokens::Keyword;
use flume_value::Str;

/// The digits behind this keyword, where that stands next.
pub fn numbered(tokens: &mut Cursor, word: Keyword) -> Result<Option<Str>, Stop>
    ensures { PassesSuch all (spec.numbered word) tokens.old tokens.new result }
{
    if tokens.is_at_keyword(word) {
        keyword(tokens, word)?;
        Ok(Some(number(tokens)?))
    } else {
        Ok(None)
    }
}
