// The settings of one strip.
#[derive(Clone, Copy)]
pub struct StripSettings {
    // Whether it is valid.
    pub valid: bool,
    pub pedestal: u16,
    // The lower threshold.
    pub thresh1: u8,
    // The upper threshold.
    pub thresh2: u8,
}
