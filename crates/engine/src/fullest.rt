//! The most connections that lived at once.

/// The most connections that lived behind a record, and the first record behind which so many did; 0
/// and 0 where none ever began. Linux counts them as nf_conntrack_count.
#[derive(Clone, Copy)]
pub struct Fullest {
    pub connections: usize,
    /// The record's number, from 1.
    pub number: u64,
}

impl Fullest {
    ghost use Rattle.std.specs.Prelude.{◌≡◌, [], ◌∷◌, List, length};
    ghost use Rattle.history.specs.History.{Entry, live_in};
    ghost use Rattle.history.specs.Setup.{Setup};
    ghost use Rattle.engine.specs.Fullest.{IsFullest};

    /// Before the first record.
    pub(crate) fn new() -> Fullest
        ensures { (setup : Setup) → IsFullest setup [] result }
    {
        Fullest {
            connections: 0,
            number: 0,
        }
    }

    /// Notes how many connections live behind one more record.
    pub(crate) fn note(&mut self, connections: usize, number: u64)
        ensures { (setup : Setup) (e : Entry) (history : List Entry) → IsFullest setup history self.old
            → connections ≡ length (live_in setup (e ∷ history)) → number ≡ length (e ∷ history)
            → IsFullest setup (e ∷ history) self.new }
    {
        if connections > self.connections {
            self.connections = connections;
            self.number = number;
        }
    }
}
