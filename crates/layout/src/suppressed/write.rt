// The bytes of a zero-suppressed record's content.
ghost use Rattle.std.specs.Prelude.{◌≡◌, ℕ, ◌+◌, ◌≤◌, List, ◌++◌, map, length};
ghost use Rattle.std.specs.List.{flat_map, sum_by};
ghost use Rattle.layout.specs.Event.{word, cluster_bytes, modes_bytes, content_bytes};
ghost use Rattle.layout.specs.Contents.{listed, cluster_on, clusters, suppressed_content};
ghost use Rattle.layout.specs.Writing.{over, Written};

use super::Suppressed;
use crate::bytes::write_word;
use crate::run::Run;
use terms::{Pair, Refusal, STRIPS};

impl Suppressed {
    // How many bytes it takes: four for the common modes, and for each cluster two and one a strip.
    pub(crate) fn length(&self) -> usize
        ensures { result ≡ length (content_bytes (suppressed_content self.now)) }
    {
        4 + run_bytes(self.runs.as_slice())
    }

    // Writes it to the front of a buffer: is it long enough? 11, naming the length.
    pub(crate) fn write(&self, out: &mut [u8]) -> Result<usize, Refusal>
        ensures { Written (content_bytes (suppressed_content self.now)) out.old out.new result }
    {
        let length = self.length();
        if out.len() < length {
            return Err(Refusal::BufferTooShort(length));
        }
        write_modes(out, self.modes);
        self.write_clusters(out);
        Ok(length)
    }

    // Writes the clusters one after the other, behind the common modes: where one ends, the next begins.
    fn write_clusters(&self, out: &mut [u8])
        requires { 4 + length (flat_map cluster_bytes (clusters self.now)) ≤ length out.old }
        ensures { out.new ≡ over out.old 4 (flat_map cluster_bytes (clusters self.now)) }
    {
        let runs = self.runs.as_slice();
        let mut at = 4;
        for run in runs {
            at = write_cluster(out, at, *run, &self.values);
        }
    }
}

// How many bytes clusters on these runs take: two each, and one a strip.
fn run_bytes(runs: &[Run]) -> usize
    requires { length runs.now ≤ 86 }
    ensures { result ≡ sum_by (λ run. 2 + run.strips) runs.now }
{
    runs.iter().map(|run| 2 + usize::from(run.strips)).sum()
}

// Writes both common modes, the left chip's first.
fn write_modes(out: &mut [u8], modes: Pair<u16>)
    requires { 4 ≤ length out.old }
    ensures { out.new ≡ over (over out.old 0 (word modes.left)) 2 (word modes.right) }
{
    write_word(out, 0, modes.left);
    write_word(out, 2, modes.right);
}

// Writes one cluster from a place on, out of the values of all strips; the place behind it.
fn write_cluster(out: &mut [u8], at: usize, run: Run, values: &[u8; STRIPS]) -> usize
    requires on_fibre { run.address + run.strips ≤ 256 }
    requires room { at + 2 + run.strips ≤ length out.old }
    ensures behind { result ≡ at + 2 + run.strips }
    ensures written { out.new ≡ over out.old at (cluster_bytes (cluster_on values.now run)) }
{
    let first = usize::from(run.address);
    let behind = first + usize::from(run.strips);
    let start = at + 2;
    let end = start + usize::from(run.strips);
    out[at] = run.address;
    out[at + 1] = run.strips;
    out[start..end].copy_from_slice(&values[first..behind]);
    end
}
