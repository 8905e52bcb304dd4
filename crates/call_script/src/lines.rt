// The lines of a script.
ghost use Rattle.std.specs.Prelude.{◌≡◌, ℕ, ◌<◌, ◌≤◌, length, IfSome, MatchOption, ◌≢◌, slice_index};
ghost use Rattle.std.specs.Iterator.{at_most};
ghost use Rattle.std.specs.Option.{option_map};
ghost use Rattle.call_script.specs.Lines.{without_return, FirstLine, NextLine};

// A line without a carriage return at its end.
fn without_return<'a>(line: &'a [u8]) -> &'a [u8]
    ensures { result.now ≡ without_return line.now }
{
    match line {
        [front @ .., b'\r'] => front,
        _ => line,
    }
}

// The first line of a script without its end, and what lies behind it; none where nothing is left.
pub fn first_line<'a>(script: &'a [u8]) -> Option<(&'a [u8], &'a [u8])>
    ensures parts { MatchOption result (length script.now ≡ 0) (λ p. FirstLine script.now p.0.now p.1.now) }
    ensures shorter { IfSome result (λ p. length p.1.now < length script.now) }
{
    if script.is_empty() {
        return None;
    }
    match script.iter().position(|byte| *byte == b'\n') {
        Some(end) => Some((without_return(&script[..end]), &script[end + 1..])),
        None => Some((script, &[])),
    }
}

// The lines of a script, one after the other: each is the first of what is left.
#[derive(Drop)]
pub struct Lines<'a> {
    left: &'a [u8],
}

impl<'a> Lines<'a> {
    pub fn of(script: &'a [u8]) -> Lines<'a>
        ensures { result.left.now ≡ script.now }
    {
        Lines { left: script }
    }
}

impl<'a> Iterator for Lines<'a> {
    type Item = &'a [u8];

    ghost next_gives = { λ s r t. NextLine s.left.now (option_map (λ l. l.now) r) t.left.now };

    ghost remaining = { λ lines. at_most (length lines.left.now) };

    fn next(&mut self) -> Option<&'a [u8]> {
        let (line, rest) = first_line(self.left)?;
        self.left = rest;
        Some(line)
    }
}
