//! What rules read of connections, by examples, each a law.
ghost use Rattle.std.specs.Prelude.{◌≡◌, ◌∷◌, [], false, true};
ghost use Rattle.ip_headers.specs.Tuple.{inverse};
ghost use Rattle.ip_headers.specs.declared.tuple.Kind.TheVariants as kinds;
ghost use Rattle.conntrack.specs.Phases.{no_flags, seconds};
ghost use Rattle.conntrack.specs.Examples.{begins, dns_query, from_a, opened, queried, refused, syn};
ghost use Rattle.conntrack.specs.Examples.{syn_ack, web};
ghost use Rattle.ip_headers.specs.declared.tuple.Direction.TheVariants as directions;
ghost use Rattle.rule_meaning.specs.declared.facts.CtFacts.TheVariants as ct_facts;
ghost use Rattle.rule_meaning.specs.declared.facts.CtState.TheVariants as states;
ghost use Rattle.translation.specs.Examples.{facts_read, facts_untranslated};

/// A packet is ESTABLISHED if it is a reply, or one was seen before it, else NEW; so is one that
/// begins a connection, but for an unsolicited echo reply, which is INVALID (nft(8), CONNTRACK
/// EXPRESSIONS).
pub fn states_after_look_up()
    ensures answer { facts_read queried (seconds 1) (inverse dns_query) no_flags
        ≡ facts_untranslated states.Established directions.Reply true }
    ensures again { facts_read queried (seconds 1) dns_query no_flags
        ≡ facts_untranslated states.New directions.Original false }
    ensures anew { facts_read refused (seconds 2) web syn
        ≡ facts_untranslated states.New directions.Original false }
    ensures not_lone { facts_read refused (seconds 2) web syn_ack
        ≡ facts_untranslated states.Established directions.Original true }
    ensures back { facts_read refused (seconds 2) (inverse web) syn
        ≡ facts_untranslated states.Established directions.Reply true }
    ensures open { facts_read opened (seconds 4) web syn
        ≡ facts_untranslated states.Established directions.Original true }
    ensures echo_reply { facts_read (begins (from_a kinds.EchoRequest 7 0) 0 no_flags ∷ []) 0
        (inverse (from_a kinds.EchoRequest 7 0)) no_flags
        ≡ facts_untranslated states.Established directions.Reply true }
    ensures unsolicited_reply { facts_read (begins (from_a kinds.EchoRequest 7 0) 0 no_flags ∷ []) 0
        (inverse (from_a kinds.EchoRequest 8 0)) no_flags ≡ ct_facts.Invalid }
{}
