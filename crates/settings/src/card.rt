// The settings of a card: its mode, and those of its twelve fibres.
use crate::fibre::FibreSettings;
use crate::mode::Mode;

#[derive(Clone, Copy)]
pub struct CardSettings {
    pub mode: Mode,
    pub fibres: [FibreSettings; 12],
}
