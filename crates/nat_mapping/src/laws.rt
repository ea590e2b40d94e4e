//! Laws about lists of mappings, each as the contract of a function that does nothing.
ghost use Rattle.std.specs.Prelude.{◌≡◌, ℕ, List, ◌∷◌, Contains, Some};
ghost use Rattle.std.specs.declared.option.Option.{Option};
ghost use Rattle.ip_headers.specs.declared.tuple.Endpoint.{Endpoint};
ghost use Rattle.ip_headers.specs.declared.tuple.Kind.{Kind};
ghost use Rattle.ip_headers.specs.declared.tuple.Mapping.{Mapping};
ghost use Rattle.port_pool.specs.declared.range.CandidateRange.{CandidateRange};
ghost use Rattle.nat_mapping.specs.Mappings.{inbound_of, port_of, source_of};
ghost use Rattle.nat_mapping.specs.HeldMappings.{HoldsSame, IsOneToOne};

/// What keeps a list one to one: adding the mapping to the port that `source` gives, and removing
/// mappings.
#[tactic(auto, using(crate::proofs::Lookups::one_to_one_rules))]
pub fn stays_one_to_one()
    ensures source { (held : List Mapping) (kind : Kind) (internal : Endpoint) (address : ℕ)
        (range : Option CandidateRange) (port : ℕ)
        → IsOneToOne held → source_of kind internal address range held ≡ Some port
        → IsOneToOne (record {
          kind = kind;
          internal = internal;
          external = record { address = address; port = port };
        } ∷ held) }
    ensures within { (some all : List Mapping) → ((m : Mapping) → Contains some m → Contains all m)
        → IsOneToOne all → IsOneToOne some }
{}

/// The internal endpoint found behind an external one has a mapping to it.
pub fn inbound_is_held()
    ensures { (held : List Mapping) (kind : Kind) (internal external : Endpoint)
        → inbound_of kind external held ≡ Some internal
        → Contains held (record { kind = kind; internal = internal; external = external }) }
{}

/// Lists with the same mappings and holders have the same elements, and the same lookups where they
/// are one to one: their order doesn't matter.
#[tactic(auto, using(crate::proofs::Lookups::alike_rules))]
pub fn same_answers()
    ensures more { (one other : List Mapping) (m : Mapping) → HoldsSame one other
        → HoldsSame (m ∷ one) (m ∷ other) }
    ensures members { (one other : List Mapping) (m : Mapping) → HoldsSame one other
        → Contains one m → Contains other m }
    ensures one_to_one { (one other : List Mapping) → HoldsSame one other → IsOneToOne other
        → IsOneToOne one }
    ensures inbound { (one other : List Mapping) → HoldsSame one other → IsOneToOne other
        → (kind : Kind) (external : Endpoint)
        → inbound_of kind external one ≡ inbound_of kind external other }
    ensures port { (one other : List Mapping) → HoldsSame one other → IsOneToOne other
        → (kind : Kind) (internal : Endpoint) (address : ℕ)
        → port_of kind internal address one ≡ port_of kind internal address other }
    ensures source { (one other : List Mapping) → HoldsSame one other → IsOneToOne other
        → (kind : Kind) (internal : Endpoint) (address : ℕ) (range : Option CandidateRange)
        → source_of kind internal address range one ≡ source_of kind internal address range other }
{}
