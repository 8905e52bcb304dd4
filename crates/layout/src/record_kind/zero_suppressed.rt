// EA: common modes and clusters.
ghost use Rattle.layout.specs.declared.kind.Kind.TheVariants as kinds;
ghost use Rattle.layout.specs.Contents.{suppressed_content};
ghost use Rattle.layout.specs.ContentsLemmas.{suppressed_ok};

use super::RecordKind;
use crate::suppressed::Suppressed;
use terms::Refusal;

#[derive(Clone, Copy)]
pub struct ZeroSuppressed;

impl RecordKind for ZeroSuppressed {
    const CODE: u8 = 0xEA;

    type Content = Suppressed;

    ghost kind = { kinds.ZeroSuppressed };

    ghost meaning = { suppressed_content };

    ghost sound = { suppressed_ok };

    fn packet_code() -> u8 {
        Self::CODE
    }

    fn content_length(content: &Suppressed) -> usize {
        content.length()
    }

    fn write_content(content: &Suppressed, out: &mut [u8]) -> Result<usize, Refusal> {
        content.write(out)
    }
}
