// Putting a line into a buffer.
ghost use Rattle.std.specs.Prelude.{◌≡◌};
ghost use Rattle.audit_words.specs.Buffers.{put};
ghost use Rattle.audit_text.specs.Lines.{line};

use audit_values::Spell;
use audit_words::LineBuffer;

/// Puts the line of a value, which begins with this word.
#[tactic(auto, using(audit_words::proofs::Putting::put_rules))]
pub fn put_line<T: Spell>(buffer: &mut LineBuffer, word: &[u8], value: &T)
    ensures line { buffer.new ≡ put buffer.old ((line word.now T.codec).spell value.now) }
{
    buffer.put(word);
    value.put_words(buffer);
    buffer.put(b"\n");
}
