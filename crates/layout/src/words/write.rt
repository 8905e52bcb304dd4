// The bytes of a raw record's content.
ghost use Rattle.std.specs.Prelude.{◌≡◌, ℕ, ◌≤◌, length};
ghost use Rattle.std.specs.List.{flat_map};
ghost use Rattle.layout.specs.Event.{word, content_bytes};
ghost use Rattle.layout.specs.Contents.{words_content};
ghost use Rattle.layout.specs.Writing.{over, Written};

use super::Words;
use crate::bytes::write_word;
use terms::Refusal;

impl Words {
    // How many bytes they take, two for each.
    pub(crate) fn length(&self) -> usize
        ensures { result ≡ length (content_bytes (words_content self.now)) }
    {
        2 * self.list.len()
    }

    // Writes them to the front of a buffer, low byte first: is it long enough? 11, naming the length.
    pub(crate) fn write(&self, out: &mut [u8]) -> Result<usize, Refusal>
        ensures { Written (content_bytes (words_content self.now)) out.old out.new result }
    {
        let length = self.length();
        if out.len() < length {
            return Err(Refusal::BufferTooShort(length));
        }
        self.write_all(out);
        Ok(length)
    }

    // Writes one after the other, by index: of what chunks_exact_mut lends, a proof knows only the length afterwards.
    fn write_all(&self, out: &mut [u8])
        requires { length (flat_map word self.now.list) ≤ length out.old }
        ensures { out.new ≡ over out.old 0 (flat_map word self.now.list) }
    {
        for (i, number) in self.list.iter().enumerate() {
            write_word(out, 2 * i, *number);
        }
    }
}
