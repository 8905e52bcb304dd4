// Reads the clusters of a zero-suppressed record.
ghost use Rattle.std.specs.Prelude.{◌≡◌, ℕ, ◌<◌, List, length, None, IfOk, IfErr};
ghost use Rattle.reader.specs.Questions.{ok_map, verdict, read_cluster, read_clusters};
ghost use Rattle.reader.specs.Walks.{ClusterPassed, ClusterStopped};
ghost use Rattle.std.specs.Iterator.{YieldsFirstBy, item_count};
ghost use Rattle.layout.specs.Event.{run_of};
ghost use Rattle.reader.specs.Items.{clusters_in};
ghost use Rattle.reader.specs.Parts.{cluster_value, clusters_left};

use crate::part::Part;
use faults::ClusterFault;
use layout::Run;

// One cluster, as a part of the input: its first strip, and the reduced values of its strips.
#[derive(Clone, Copy, Debug)]
pub struct Cluster<'a> {
    pub address: u8,
    pub values: &'a [u8],
}

impl Cluster<'_> {
    // The strips that it covers.
    fn run(&self) -> Run
        requires { length self.now.values.now < 256 }
        ensures { result ≡ run_of (cluster_value self.now) }
    {
        Run {
            address: self.address,
            strips: self.values.len() as u8,
        }
    }
}

// Reads the cluster at the front of what is left of a record.
fn read_cluster<'a>(left: Part<'a>, before: Option<Run>) -> Result<Cluster<'a>, ClusterFault>
    ensures { ok_map cluster_value result ≡ read_cluster before left.entry.at left.entry.bytes.now }
{
    let [address, strips, data @ ..] = left.bytes else {
        return Err(ClusterFault::NoHeader(left.at));
    };
    let run = Run {
        address: *address,
        strips: *strips,
    };
    if !run.lies_in_chip() {
        return Err(ClusterFault::BadLength(left.at));
    }
    let strips = usize::from(run.strips);
    if data.len() < strips {
        return Err(ClusterFault::DataOutside(left.at));
    }
    if before.is_some_and(|before| !run.lies_behind(before)) {
        return Err(ClusterFault::OutOfOrder(left.at));
    }
    Ok(Cluster {
        address: run.address,
        values: &data[0..strips],
    })
}

// Reads the clusters of a record one after the other: what is left of it, and the cluster before.
#[derive(Drop)]
struct ClusterReader<'a> {
    left: Part<'a>,
    before: Option<Run>,
}

impl ClusterReader<'_> {
    // Reads the next cluster.
    fn read_next(&mut self) -> Result<(), ClusterFault>
        ensures passed { IfOk result (λ _. ClusterPassed self.old self.new) }
        ensures stopped { IfErr result (ClusterStopped self.old) }
    {
        let cluster = read_cluster(self.left, self.before)?;
        self.left = self.left.behind(2 + cluster.values.len());
        self.before = Some(cluster.run());
        Ok(())
    }
}

// Reads all the clusters that fill a part of a record.
pub(crate) fn read_clusters(body: Part) -> Result<(), ClusterFault>
    ensures { result ≡ verdict (read_clusters 0 None body.entry.at body.entry.bytes.now) }
{
    let mut clusters = ClusterReader {
        left: body,
        before: None,
    };
    // A `while`: an iterator of results would have to remember that it has met a fault.
    while !clusters.left.bytes.is_empty() {
        clusters.read_next()?;
    }
    Ok(())
}

// The clusters in some bytes, one after the other.
#[derive(Drop)]
pub struct Clusters<'a> {
    left: &'a [u8],
}

impl<'a> Clusters<'a> {
    pub(crate) fn new(bytes: &'a [u8]) -> Clusters<'a>
        ensures { clusters_left result ≡ clusters_in bytes.now }
    {
        Clusters { left: bytes }
    }
}

impl<'a> Iterator for Clusters<'a> {
    type Item = Cluster<'a>;

    ghost next_gives = { YieldsFirstBy cluster_value clusters_left };

    ghost remaining = { item_count clusters_left };

    fn next(&mut self) -> Option<Cluster<'a>> {
        let [address, strips, data @ ..] = self.left else {
            return None;
        };
        let strips = usize::from(*strips);
        if data.len() < strips {
            return None;
        }
        let (values, rest) = data.split_at(strips);
        let address = *address;
        self.left = rest;
        Some(Cluster { address, values })
    }
}
