//! Laws about connections, each as the contract of a function that does nothing.
ghost use Rattle.std.specs.Prelude.{◌≡◌, ◌≤◌, ℕ, IsTrue, List, [], ◌∷◌, length, map, false};
ghost use Rattle.ip_headers.specs.declared.tuple.Tuple.{Tuple};
ghost use Rattle.conntrack.specs.declared.connection.ConnId.{ConnId};
ghost use Rattle.conntrack.specs.declared.connection.Flags.{Flags};
ghost use Rattle.conntrack.specs.declared.connection.ConntrackEntry.{ConntrackEntry};
ghost use Rattle.box_file.specs.declared.limits.Limits.{Limits};
ghost use Rattle.conntrack.specs.declared.belonging.Belonging.{Belonging};
ghost use Rattle.conntrack.specs.declared.belonging.Belonging.TheVariants.{Ends, Found, NotFound};
ghost use Rattle.conntrack.specs.declared.belonging.ConnectionRef.{ConnectionRef};
ghost use Rattle.conntrack.specs.ConntrackEntry.{belongs_in, connection_of};
ghost use Rattle.conntrack.specs.TableEntries.{IsNoneLater, have_disjoint_tuples};
ghost use Rattle.conntrack.specs.ConntrackEntry.{is_taken};
ghost use Rattle.conntrack.specs.TableEntries.{has_distinct_ids, has_id, live_at, SameExceptIds};
ghost use Rattle.conntrack.specs.ConntrackEntry.{without};
ghost use Rattle.conntrack.specs.TableEntries.{belonging_without_id};
ghost use Rattle.conntrack.specs.Histories.{TrackedPacket, RepresentsAt, belongs, live_list};
ghost use Rattle.conntrack.specs.Updates.{Arrival, Confirmation, DoesNotClash, after_end, after_packet, entry_at, tracked_packet};

/// An empty table represents the empty history.
pub fn empty_at_first()
    ensures { (limits : Limits) (now : ℕ) → RepresentsAt limits [] [] now }
{}

/// A table that represents a history at a moment does so later too, and only its live entries
/// matter.
pub fn still_represents()
    ensures later { (limits : Limits) (held : List ConntrackEntry) (history : List TrackedPacket)
        (now later : ℕ) → now ≤ later → RepresentsAt limits held history now
        → RepresentsAt limits held history later }
    ensures live { (limits : Limits) (held others : List ConntrackEntry)
        (history : List TrackedPacket) (now : ℕ)
        → live_at limits now held ≡ live_at limits now others → RepresentsAt limits held history now
        → RepresentsAt limits others history now }
{}

/// After the calls for one packet the table represents the history with that packet's record,
/// whatever id a new entry gets. Without such a packet nothing changes.
pub fn one_more_record()
    ensures packet { (limits : Limits) (held : List ConntrackEntry) (history : List TrackedPacket)
        (id : ConnId) (p : Arrival) (confirmation : Confirmation) → IsTrue (has_distinct_ids held)
        → RepresentsAt limits held history p.moment
        → RepresentsAt limits
        (after_packet (belongs_in (live_at limits p.moment held) p.tuple p.flags) id p confirmation held)
        (tracked_packet (belongs limits history p.moment p.tuple p.flags) p confirmation ∷ history)
        p.moment }
    ensures none { (limits : Limits) (held : List ConntrackEntry) (history : List TrackedPacket)
        (now : ℕ) → RepresentsAt limits held history now
        → RepresentsAt limits held (entry_at now ∷ history) now }
{}

/// The connections of a history with one more record, and those of a history at a later moment.
#[tactic(auto, using(crate::proofs::Packets::record_rules))]
pub fn one_more_entry()
    ensures packet { (limits : Limits) (history : List TrackedPacket) (p : Arrival)
        (confirmation : Confirmation)
        → live_list limits
        (tracked_packet (belongs limits history p.moment p.tuple p.flags) p confirmation ∷ history) p.moment
        ≡ after_packet (belongs limits history p.moment p.tuple p.flags)
        (record { 0 = length history }) p confirmation (live_list limits history p.moment) }
    ensures none { (limits : Limits) (history : List TrackedPacket) (now : ℕ)
        → live_list limits (entry_at now ∷ history) now ≡ live_list limits history now }
    ensures later { (limits : Limits) (history : List TrackedPacket) (now later : ℕ) → now ≤ later
        → live_list limits history later ≡ live_at limits later (live_list limits history now) }
    ensures distinct { (limits : Limits) (history : List TrackedPacket) (now : ℕ)
        → IsTrue (has_distinct_ids (live_list limits history now)) }
{}

/// Lists that are equal except for ids have the same lookups, and stay so.
#[tactic(auto, using(crate::proofs::Packets::alike_rules))]
pub fn independent_of_ids()
    ensures packet { (held others : List ConntrackEntry) (i j : ConnId) (p : Arrival)
        (confirmation : Confirmation) → SameExceptIds held others
        → IsTrue (has_distinct_ids held) → IsTrue (has_distinct_ids others)
        → SameExceptIds (after_packet (belongs_in held p.tuple p.flags) i p confirmation held)
        (after_packet (belongs_in others p.tuple p.flags) j p confirmation others) }
    ensures ended { (held others : List ConntrackEntry) (tuple : Tuple) (flags : Flags)
        → SameExceptIds held others → IsTrue (has_distinct_ids held)
        → IsTrue (has_distinct_ids others)
        → SameExceptIds (after_end (belongs_in held tuple flags) held)
        (after_end (belongs_in others tuple flags) others) }
    ensures belonging { (held others : List ConntrackEntry) (tuple : Tuple) (flags : Flags)
        → SameExceptIds held others
        → belonging_without_id (belongs_in held tuple flags)
        ≡ belonging_without_id (belongs_in others tuple flags) }
    ensures taken { (held others : List ConntrackEntry) (tuple : Tuple)
        → SameExceptIds held others → is_taken tuple held ≡ is_taken tuple others }
    ensures number { (held others : List ConntrackEntry) → SameExceptIds held others
        → length held ≡ length others }
    ensures live { (limits : Limits) (held others : List ConntrackEntry) (now : ℕ)
        → SameExceptIds held others
        → SameExceptIds (live_at limits now held) (live_at limits now others) }
    ensures listed { (held others : List ConntrackEntry) → SameExceptIds held others
        → map connection_of held ≡ map connection_of others }
{}

/// An entry that a lookup found is in the list, and a tuple without an entry is free.
#[tactic(auto, using(crate::proofs::Lookups::looked_up_rules))]
pub fn looked_up()
    ensures found { (held : List ConntrackEntry) (tuple : Tuple) (flags : Flags)
        (found : ConnectionRef) → belongs_in held tuple flags ≡ Found found
        → IsTrue (has_id found.id held) }
    ensures ended { (held : List ConntrackEntry) (tuple : Tuple) (flags : Flags) (id : ConnId)
        → belongs_in held tuple flags ≡ Ends id → IsTrue (has_id id held) }
    ensures free { (held : List ConntrackEntry) (tuple : Tuple) (flags : Flags)
        → belongs_in held tuple flags ≡ NotFound → is_taken tuple held ≡ false }
    ensures freed { (held : List ConntrackEntry) (tuple : Tuple) (flags : Flags) (id : ConnId)
        → IsTrue (has_distinct_ids held) → IsTrue (have_disjoint_tuples held)
        → belongs_in held tuple flags ≡ Ends id → is_taken tuple (without id held) ≡ false }
{}

/// No two entries get an incoming tuple in common, except by a creation that clashes.
#[tactic(auto, using(crate::proofs::Packets::apart_rules))]
pub fn tuples_stay_disjoint()
    ensures packet { (held : List ConntrackEntry) (id : ConnId) (p : Arrival)
        (confirmation : Confirmation) → IsTrue (has_distinct_ids held)
        → IsTrue (have_disjoint_tuples held)
        → DoesNotClash (belongs_in held p.tuple p.flags) confirmation held
        → IsTrue (have_disjoint_tuples
        (after_packet (belongs_in held p.tuple p.flags) id p confirmation held)) }
    ensures live { (limits : Limits) (held : List ConntrackEntry) (now : ℕ)
        → IsTrue (have_disjoint_tuples held)
        → IsTrue (have_disjoint_tuples (live_at limits now held)) }
{}

/// No entry gets a moment after that of the latest packet.
#[tactic(auto, using(crate::proofs::Packets::moment_rules))]
pub fn none_later()
    ensures packet { (held : List ConntrackEntry) (belonging : Belonging) (id : ConnId)
        (p : Arrival) (confirmation : Confirmation) → IsNoneLater p.moment held
        → IsNoneLater p.moment (after_packet belonging id p confirmation held) }
    ensures ended { (held : List ConntrackEntry) (id : ConnId) (now : ℕ) → IsNoneLater now held
        → IsNoneLater now (without id held) }
    ensures later { (held : List ConntrackEntry) (now later : ℕ) → now ≤ later
        → IsNoneLater now held → IsNoneLater later held }
{}
