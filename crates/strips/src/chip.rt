// The strips of a fibre's two chips, and which of them count.
ghost use Rattle.std.specs.Prelude.{◌≡◌, ◌*◌, ◌<◌};
ghost use Rattle.terms.specs.Terms.{side_number};
ghost use Rattle.strips.specs.Fibre.{side_of, counts};

use settings::FibreSettings;
use terms::{CHIP_STRIPS, Side};

// Where the strips of a chip begin.
pub(crate) fn first_strip(side: Side) -> usize
    ensures { result ≡ 128 * side_number side }
{
    match side {
        Side::Left => 0,
        Side::Right => CHIP_STRIPS,
    }
}

// The chip that a strip is on.
pub(crate) fn side_of(strip: usize) -> Side
    ensures { result ≡ side_of strip }
{
    if strip < CHIP_STRIPS {
        Side::Left
    } else {
        Side::Right
    }
}

// Whether a strip counts: it is valid and its chip enabled.
pub(crate) fn counts(settings: &FibreSettings, strip: usize) -> bool
    requires { strip < 256 }
    ensures { result ≡ counts settings.now strip }
{
    settings.enable.has(side_of(strip)) && settings.strips[strip].valid
}
