// What a record holds.
ghost use Rattle.std.specs.Prelude.{◌≡◌, ℕ, ◌+◌, length};
ghost use Rattle.std.specs.Option.{option_map};
ghost use Rattle.layout.specs.Event.{record_bytes};
ghost use Rattle.reader.specs.Asked.{modes_of, clusters_of, count_of, cluster_of, words_of, word_of};
ghost use Rattle.reader.specs.Parts.{content_of, cluster_value, clusters_left, words_left};
ghost use Rattle.reader.specs.Questions.{ok_map};

use crate::cluster::{Cluster, Clusters};
use crate::record::Record;
use crate::words::{Words, number_in};
use layout::Kind;
use terms::{Pair, Refusal};

impl<'a> Record<'a> {
    pub fn kind(&self) -> Kind
        ensures { result ≡ self.now.kind }
    {
        self.kind
    }

    // The length of the whole record, its three header bytes included.
    pub fn size(&self) -> usize
        ensures { result ≡ length (record_bytes self.now.kind (content_of self.now)) }
    {
        3 + self.content.len()
    }

    // The common modes of the two chips; none in a raw record.
    pub fn common_modes(&self) -> Option<Pair<u16>>
        ensures { result ≡ modes_of (content_of self.now) }
    {
        match (self.kind, self.content) {
            (Kind::ZeroSuppressed, [left_lo, left_hi, right_lo, right_hi, ..]) => Some(Pair {
                left: number_in(*left_lo, *left_hi),
                right: number_in(*right_lo, *right_hi),
            }),
            _ => None,
        }
    }

    // The clusters, in their order; none in a raw record.
    pub fn clusters(&self) -> Option<Clusters<'a>>
        ensures { option_map clusters_left result ≡ clusters_of (content_of self.now) }
    {
        match (self.kind, self.content) {
            (Kind::ZeroSuppressed, [_, _, _, _, clusters @ ..]) => Some(Clusters::new(clusters)),
            _ => None,
        }
    }

    // The number of clusters; none in a raw record.
    pub fn cluster_count(&self) -> Option<usize>
        ensures { result ≡ count_of (content_of self.now) }
    {
        // No `map`: tried, and the proof did not close: what `count` says stays in the closure.
        let clusters = self.clusters()?;
        Some(clusters.count())
    }

    // The cluster of an index, counted from 0. Refused with 33 in a raw record, and with 32 past the last.
    pub fn cluster(&self, index: usize) -> Result<Cluster<'a>, Refusal>
        ensures { ok_map cluster_value result ≡ cluster_of (content_of self.now) index }
    {
        let mut clusters = self.clusters().ok_or(Refusal::NotZeroSuppressed)?;
        clusters.nth(index).ok_or(Refusal::NoSuchCluster)
    }

    // The words of a raw record, in their order; none in a zero-suppressed one.
    pub fn words(&self) -> Option<Words<'a>>
        ensures { option_map words_left result ≡ words_of (content_of self.now) }
    {
        match self.kind {
            Kind::ProcessedRaw | Kind::VirginRaw => Some(Words::new(self.content)),
            _ => None,
        }
    }

    // The word of an index of a raw record.
    pub fn word(&self, index: usize) -> Option<u16>
        ensures { result ≡ word_of (content_of self.now) index }
    {
        self.words()?.get(index)
    }
}
