//! Small histories with their results: examples of the definitions, each a law.
ghost use Rattle.std.specs.Prelude.{◌≡◌, ◌-◌, ◌∷◌, [], Some, false, true};
ghost use Rattle.ip_headers.specs.Tuple.{inverse};
ghost use Rattle.ip_headers.specs.declared.tuple.Kind.TheVariants as kinds;
ghost use Rattle.conntrack.specs.declared.belonging.Belonging.TheVariants as belongings;
ghost use Rattle.ip_headers.specs.declared.tuple.Direction.TheVariants as directions;
ghost use Rattle.conntrack.specs.declared.connection.Phase.TheVariants as phases;
ghost use Rattle.conntrack.specs.Phases.{no_flags, seconds};
ghost use Rattle.box_file.specs.Idle.{usual_limits};
ghost use Rattle.conntrack.specs.ConntrackEntry.{may_begin};
ghost use Rattle.conntrack.specs.Histories.{belongs, phase};
ghost use Rattle.conntrack.specs.Examples.{alive_at, alive_by, queried, begins, begins_anew, begins_as_hairpin};
ghost use Rattle.conntrack.specs.Examples.{crossed, fin_ack, found_as, from_a, is_dropped, opened, opening, plain_ack};
ghost use Rattle.conntrack.specs.Examples.{dns_query, refused, sends, short_limits, syn, syn_ack, web};

/// Both ends send SYN at once (RFC 9293, section 3.5): the connection is established once both have
/// sent ACK too, and then its timeout is 7440 seconds; until then it is 240.
pub fn simultaneous_open()
    ensures opening { alive_at (seconds 240 - 1) opening ≡ 0 ∷ [] }
    ensures opening_at_limit { alive_at (seconds 240) opening ≡ [] }
    ensures crossed { phase 0 crossed ≡ phases.Opening }
    ensures half { phase 0 (sends directions.Original (seconds 2) syn_ack ∷ crossed)
        ≡ phases.Opening }
    ensures answered { phase 0 opened ≡ phases.Established }
    ensures within { alive_at (seconds 7443 - 1) opened ≡ 0 ∷ [] }
    ensures at_limit { alive_at (seconds 7443) opened ≡ [] }
{}

/// A UDP connection is live for 300 seconds after its last packet that wasn't dropped.
pub fn answer_at_the_limit()
    ensures within { found_as
        (belongs usual_limits queried (seconds 300 - 1000) (inverse dns_query) no_flags)
        ≡ Some (directions.Reply, false) }
    ensures at_limit { belongs usual_limits queried (seconds 300) (inverse dns_query) no_flags
        ≡ belongings.NotFound }
    ensures again { found_as (belongs usual_limits queried (seconds 300 - 1) dns_query no_flags)
        ≡ Some (directions.Original, false) }
    ensures prolonged { alive_at (seconds 400 - 1)
        (sends directions.Original (seconds 100) no_flags ∷ queried) ≡ 0 ∷ [] }
    ensures dropped { alive_at (seconds 300) (is_dropped (seconds 100) no_flags ∷ queried) ≡ [] }
{}

/// A connection that was reset is closing: a SYN in direction original removes and recreates it. A
/// SYN in direction reply doesn't, nor does one on a connection that isn't closing.
pub fn reset_then_syn()
    ensures closing { phase 0 refused ≡ phases.Closing }
    ensures ends { belongs usual_limits refused (seconds 2) web syn
        ≡ belongings.Ends (record { 0 = 0 }) }
    ensures anew { alive_at (seconds 2) (begins_anew web (seconds 2) ∷ refused) ≡ 2 ∷ [] }
    ensures not_lone { found_as (belongs usual_limits refused (seconds 2) web syn_ack)
        ≡ Some (directions.Original, true) }
    ensures back { found_as (belongs usual_limits refused (seconds 2) (inverse web) syn)
        ≡ Some (directions.Reply, true) }
    ensures open { found_as (belongs usual_limits opened (seconds 4) web syn)
        ≡ Some (directions.Original, true) }
{}

/// After one FIN a connection is still established; after FIN from both ends it is closing, with a
/// timeout of 240 seconds.
pub fn fin_from_both()
    ensures one { phase 0 (sends directions.Original (seconds 10) fin_ack ∷ opened)
        ≡ phases.Established }
    ensures both { phase 0 (sends directions.Reply (seconds 11) fin_ack
        ∷ sends directions.Original (seconds 10) fin_ack ∷ opened) ≡ phases.Closing }
    ensures within { alive_at (seconds 251 - 1)
        (sends directions.Reply (seconds 11) fin_ack
        ∷ sends directions.Original (seconds 10) fin_ack ∷ opened) ≡ 0 ∷ [] }
    ensures at_limit { alive_at (seconds 251)
        (sends directions.Reply (seconds 11) fin_ack
        ∷ sends directions.Original (seconds 10) fin_ack ∷ opened) ≡ [] }
{}

/// Other kinds have timeouts of their own, and an unsolicited echo reply begins no connection.
pub fn other_kinds()
    ensures echo { alive_at (seconds 60 - 1) (begins (from_a kinds.EchoRequest 7 0) 0 no_flags ∷ [])
        ≡ 0 ∷ [] }
    ensures echo_at_limit { alive_at (seconds 60)
        (begins (from_a kinds.EchoRequest 7 0) 0 no_flags ∷ []) ≡ [] }
    ensures echo_reply { found_as
        (belongs usual_limits (begins (from_a kinds.EchoRequest 7 0) 0 no_flags ∷ []) 0
        (inverse (from_a kinds.EchoRequest 7 0)) no_flags) ≡ Some (directions.Reply, false) }
    ensures unsolicited_reply { belongs usual_limits
        (begins (from_a kinds.EchoRequest 7 0) 0 no_flags ∷ []) 0
        (inverse (from_a kinds.EchoRequest 8 0)) no_flags ≡ belongings.NotFound }
    ensures no_beginning { may_begin kinds.EchoReply ≡ false }
    ensures other { alive_at (seconds 600 - 1)
        (begins (from_a (kinds.Other 47) 0 0) 0 no_flags ∷ []) ≡ 0 ∷ [] }
    ensures other_at_limit { alive_at (seconds 600)
        (begins (from_a (kinds.Other 47) 0 0) 0 no_flags ∷ []) ≡ [] }
{}

/// Each kind and phase has its own timeout, here of 5, 4, 3, 2 and 1 seconds; opening and closing
/// share one.
pub fn limits_as_set()
    ensures established { alive_by short_limits (seconds 8 - 1) opened ≡ 0 ∷ [] }
    ensures established_over { alive_by short_limits (seconds 8) opened ≡ [] }
    ensures opening { alive_by short_limits (seconds 4 - 1) opening ≡ 0 ∷ [] }
    ensures opening_over { alive_by short_limits (seconds 4) opening ≡ [] }
    ensures closing { alive_by short_limits (seconds 5 - 1) refused ≡ 0 ∷ [] }
    ensures closing_over { alive_by short_limits (seconds 5) refused ≡ [] }
    ensures udp { alive_by short_limits (seconds 3 - 1) queried ≡ 0 ∷ [] }
    ensures udp_over { alive_by short_limits (seconds 3) queried ≡ [] }
    ensures echo { alive_by short_limits (seconds 2 - 1)
        (begins (from_a kinds.EchoRequest 7 0) 0 no_flags ∷ []) ≡ 0 ∷ [] }
    ensures echo_over { alive_by short_limits (seconds 2)
        (begins (from_a kinds.EchoRequest 7 0) 0 no_flags ∷ []) ≡ [] }
    ensures other { alive_by short_limits (seconds 1 - 1)
        (begins (from_a (kinds.Other 47) 0 0) 0 no_flags ∷ []) ≡ 0 ∷ [] }
    ensures other_over { alive_by short_limits (seconds 1)
        (begins (from_a (kinds.Other 47) 0 0) 0 no_flags ∷ []) ≡ [] }
{}

/// A port of UDP isn't one of TCP, and a packet of a connection whose two tuples are equal has
/// direction original.
pub fn kinds_and_ports_are_distinct()
    ensures kinds { belongs usual_limits queried 0 (from_a kinds.Tcp 5000 53) plain_ack
        ≡ belongings.NotFound }
    ensures ports { belongs usual_limits queried 0 (from_a kinds.Udp 5001 53) no_flags
        ≡ belongings.NotFound }
    ensures one { found_as (belongs usual_limits
        (begins_as_hairpin dns_query ∷ []) 0 dns_query no_flags)
        ≡ Some (directions.Original, false) }
{}
