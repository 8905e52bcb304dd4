// Numbers in two bytes.
ghost use Rattle.std.specs.Prelude.{◌≡◌, ℕ, ◌+◌, ◌≤◌, length};
ghost use Rattle.layout.specs.Event.{word};
ghost use Rattle.layout.specs.Writing.{over};

// Writes a number into the two bytes from a place on, low byte first.
pub(crate) fn write_word(out: &mut [u8], at: usize, number: u16)
    requires { at + 2 ≤ length out.old }
    ensures { out.new ≡ over out.old at (word number) }
{
    out[at..at + 2].copy_from_slice(&number.to_le_bytes());
}
