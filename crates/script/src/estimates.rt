// A rule by itself.
use crate::answers::Answers;
use crate::failure::Failure;
use rules::Rule;
use std::io::Write;

// Asks a rule, and prints what it answered. Chip, setting and values are fields of one command,
// which is taken apart at the one call.
pub(crate) fn print_estimate<O: Write, R: Rule>(
    answers: &mut Answers<'_, O>,
    rule: &R,
    chip: usize,
    setting: u8,
    values: &[u16],
) -> Result<(), Failure> {
    match rule.estimate(chip, setting, values) {
        Ok(number) => answers.print(format_args!("estimate {number}")),
        Err(refusal) => answers.refuse(refusal),
    }
}
