// A capture that runs.
ghost use Rattle.std.specs.Prelude.{◌≤◌};

#[derive(Clone, Copy)]
pub(crate) struct Capture {
    // The position of the coming Clock, 6 to 279.
    pub(crate) position: usize,
    // Which fibres pulsed as it began.
    pub(crate) in_step: [bool; 12],
    ghost inside: { position ≤ 279 },
}
