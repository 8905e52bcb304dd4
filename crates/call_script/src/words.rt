// The words of a line, separated by spaces and tabs.
ghost use Rattle.std.specs.Prelude.{◌≡◌, ℕ, ◌<◌, ◌≤◌, not, length, MatchOption, slice_index};
ghost use Rattle.call_script.specs.Words.{separates, NoWord, FirstWord};

fn is_separator(byte: u8) -> bool
    ensures { result ≡ separates byte }
{
    byte == b' ' || byte == b'\t'
}

// The first word of a line and what lies behind it; none where the line holds separators alone.
pub fn first_word<'a>(line: &'a [u8]) -> Option<(&'a [u8], &'a [u8])>
    ensures { MatchOption result (NoWord line.now) (λ p. FirstWord line.now p.0.now p.1.now) }
{
    let gap = line.iter().position(|byte| !is_separator(*byte))?;
    let (_, behind) = line.split_at(gap);
    let size = behind
        .iter()
        .position(|byte| is_separator(*byte))
        .unwrap_or(behind.len());
    Some(behind.split_at(size))
}
