//! Laws of NAT, each the contract of a function that does nothing.
ghost use Rattle.std.specs.Prelude.{◌≡◌, List, map};
ghost use Rattle.conntrack.specs.declared.connection.ConntrackEntry.{ConntrackEntry};
ghost use Rattle.conntrack.specs.ConntrackEntry.{without_id};
ghost use Rattle.translation.specs.LiveMappings.{mappings_in};

/// The mappings of connections don't depend on their ids.
pub fn independent_of_ids()
    ensures { (held others : List ConntrackEntry) → map without_id held ≡ map without_id others
        → mappings_in held ≡ mappings_in others }
{}
