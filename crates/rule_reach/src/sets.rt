//! What packets do in base chains, as sets of packets.
ghost use Rattle.std.specs.Prelude.{◌≡◌, length};

use chain_sets::{ChainEnd, Visits};
use fact_sets::Case;
use packet_sets::{Diagrams, PacketSet};
use rule_meaning::ChainNo;

/// What packets do in one base chain, as sets.
#[derive(Drop)]
pub struct BaseSets {
    pub chain: ChainNo,
    /// The packets that come to it.
    pub coming: PacketSet,
    /// Those that come to each rule of its table, and those that meet its last statement.
    pub rules: Visits,
    /// How their ways through it end.
    pub ends: Vec<Case<ChainEnd>>,
}

/// What packets do in the base chains of a ruleset to which packets come, in text order, as sets that
/// share diagrams.
#[derive(Drop)]
pub struct ReachSets {
    pub(crate) diagrams: Diagrams,
    pub(crate) bases: Vec<BaseSets>,
}

impl ReachSets {
    /// The diagrams of all sets.
    pub fn diagrams(&self) -> &Diagrams
        ensures { result.now ≡ self.now.diagrams }
    {
        &self.diagrams
    }

    /// The base chains, in text order.
    pub fn bases(&self) -> &[BaseSets]
        ensures { result.now ≡ self.now.bases.items }
    {
        &self.bases
    }

    /// How many nodes were made for the sets, about 40 bytes each.
    pub fn count(&self) -> usize
        ensures { result ≡ length self.now.diagrams.nodes }
    {
        self.diagrams.count()
    }
}
