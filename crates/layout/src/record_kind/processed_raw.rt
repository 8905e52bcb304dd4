// F2: the flat values of all strips.
ghost use Rattle.layout.specs.declared.kind.Kind.TheVariants as kinds;
ghost use Rattle.layout.specs.Contents.{words_content};
ghost use Rattle.layout.specs.ContentsLemmas.{processed_ok};

use super::RecordKind;
use crate::words::Words;
use terms::Refusal;

#[derive(Clone, Copy)]
pub struct ProcessedRaw;

impl RecordKind for ProcessedRaw {
    const CODE: u8 = 0xF2;

    type Content = Words;

    ghost kind = { kinds.ProcessedRaw };

    ghost meaning = { words_content };

    ghost sound = { processed_ok };

    fn packet_code() -> u8 {
        Self::CODE
    }

    fn content_length(content: &Words) -> usize {
        content.length()
    }

    fn write_content(content: &Words, out: &mut [u8]) -> Result<usize, Refusal> {
        content.write(out)
    }
}
