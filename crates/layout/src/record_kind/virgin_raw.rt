// E6: the samples as they came. Each kind is a type of its own with its code, so it repeats what F2 writes of its words.
ghost use Rattle.layout.specs.declared.kind.Kind.TheVariants as kinds;
ghost use Rattle.layout.specs.Contents.{words_content};
ghost use Rattle.layout.specs.ContentsLemmas.{virgin_ok};

use super::RecordKind;
use crate::words::Words;
use terms::Refusal;

#[derive(Clone, Copy)]
pub struct VirginRaw;

impl RecordKind for VirginRaw {
    const CODE: u8 = 0xE6;

    type Content = Words;

    ghost kind = { kinds.VirginRaw };

    ghost meaning = { words_content };

    ghost sound = { virgin_ok };

    fn packet_code() -> u8 {
        Self::CODE
    }

    fn content_length(content: &Words) -> usize {
        content.length()
    }

    fn write_content(content: &Words, out: &mut [u8]) -> Result<usize, Refusal> {
        content.write(out)
    }
}
