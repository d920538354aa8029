//! The words that a brief line is made of.

#![tactic(auto, using(wirebase::proofs::Sinks::puts, wirebase::proofs::Sinks::put_none), // texts in turn, or none
unfolding(crate::specs::Words::word, crate::specs::Words::keyed))]

ghost use Rattle.std.specs.Prelude.{decimal};
ghost use Rattle.wirebase.specs.Sink.{PutsText};
ghost use Rattle.message_brief.specs.Words.{ending_text, keyed, more_text, word};

use packet_fields::value::Text;
use wirebase::text::{Sink, put_number};

/// A number in decimal digits.
#[derive(Clone, Copy)]
pub(crate) struct Number(pub(crate) u64);

impl Text for Number {
    ghost text_of = { λ number. decimal number.0 };

    fn put_into<O, S: Sink<O>>(self, output: &mut O) -> Result<(), S::Error> {
        put_number::<O, S>(output, self.0)
    }
}

/// Puts a text as a word.
pub(crate) fn put_word<O, S: Sink<O>, T: Text>(output: &mut O, text: T) -> Result<(), S::Error>
    ensures { PutsText S.took output.old (word (T.text_of text)) result output.new }
{
    S::put_str(output, " ")?;
    text.put_into::<O, S>(output)
}

/// Puts a text as a word with its key before it.
pub(crate) fn put_keyed<O, S: Sink<O>, T: Text>(
    output: &mut O,
    key: &str,
    text: T,
) -> Result<(), S::Error>
    ensures { PutsText S.took output.old (keyed key.now (T.text_of text)) result output.new }
{
    S::put_str(output, " ")?;
    S::put_str(output, key)?;
    S::put_str(output, "=")?;
    text.put_into::<O, S>(output)
}

/// Puts how many more there are, where there are any.
pub(crate) fn put_more<O, S: Sink<O>>(output: &mut O, count: u64) -> Result<(), S::Error>
    ensures { PutsText S.took output.old (more_text count) result output.new }
{
    if count == 0 {
        return Ok(());
    }
    S::put_str(output, ", +")?;
    put_number::<O, S>(output, count)
}

/// Puts what tells that something of the message is missing or does not read, where it is so.
pub(crate) fn put_ending<O, S: Sink<O>>(output: &mut O, is_whole: bool) -> Result<(), S::Error>
    ensures { PutsText S.took output.old (ending_text is_whole) result output.new }
{
    if is_whole {
        return Ok(());
    }
    S::put_str(output, " ...")
}
