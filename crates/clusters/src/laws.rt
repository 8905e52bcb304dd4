// What is known of clusters beyond how they are found.
ghost use Rattle.clusters.specs.Laws.{Laws};

// A strip belongs where it is a hit or lies between two hits. Clusters are just the longest runs of strips
// that belong, lie two strips apart, and take at most 130 bytes a chip.
pub fn clusters_stand()
    ensures { Laws }
{}
