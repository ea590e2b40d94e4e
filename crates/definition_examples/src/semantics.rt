//! Rulesets with the results for packets, each as the contract of a function that does nothing. By
//! default the packet is UDP from 192.168.1.10:5000 (input lan) to 198.51.100.7:53 (output wan).
ghost use Rattle.std.specs.Prelude.{◌∷◌, [], Some, None, true, codes};
ghost use Rattle.nft_tree.specs.declared.chain.ChainKind.TheVariants as kinds;
ghost use Rattle.nft_tree.specs.declared.chain.Hook.TheVariants as hooks;
ghost use Rattle.nft_tree.specs.declared.chain.OffsetSign.TheVariants as signs;
ghost use Rattle.nft_tree.specs.declared.chain.Policy.TheVariants as policies;
ghost use Rattle.nft_tree.specs.declared.chain.Priority.TheVariants as priorities;
ghost use Rattle.nft_tree.specs.declared.chain.PriorityName.TheVariants as names;
ghost use Rattle.nft_tree.specs.declared.nat.PortRange.TheVariants as ports;
ghost use Rattle.nft_tree.specs.declared.selector.Selector.TheVariants as selectors;
ghost use Rattle.nft_tree.specs.declared.statement.BitField.TheVariants as bit_fields;
ghost use Rattle.nft_tree.specs.declared.statement.BitTest.TheVariants as bit_tests;
ghost use Rattle.nft_tree.specs.declared.statement.MarkField.TheVariants as marks;
ghost use Rattle.nft_tree.specs.declared.statement.Operator.TheVariants as operators;
ghost use Rattle.nft_tree.specs.Tree as tree;
ghost use Rattle.rule_meaning.specs.declared.event.RuleVerdict.TheVariants as rule_verdicts;
ghost use Rattle.rule_meaning.specs.declared.event.Event.TheVariants as events;
ghost use Rattle.rule_meaning.specs.declared.event.NatAction.TheVariants as nat_actions;
ghost use Rattle.rule_meaning.specs.declared.facts.CtState.TheVariants as states;
ghost use Rattle.ip_headers.specs.declared.tuple.Direction.TheVariants as directions;
ghost use Rattle.rule_meaning.specs.declared.facts.CtFacts.TheVariants as ct;
ghost use Rattle.rule_meaning.specs.declared.stage.HookStage.TheVariants as stages;
ghost use Rattle.rule_meaning.specs.Hooks.{Stage};
ghost use Rattle.definition_examples.specs.Fixtures.{accept, address, addresses_set, arriving, at, base};
ghost use Rattle.definition_examples.specs.Fixtures.{new_connection, below_zero, box, counter, drop, forwards, from};
ghost use Rattle.definition_examples.specs.Fixtures.{icmp, in_state, ip, known, marked, number, numbers, one_table};
ghost use Rattle.definition_examples.specs.Fixtures.{plain, tcp, tracked, word};
ghost use Rattle.definition_examples.specs.Expected.{accepted, counted, dropped, statement_position, took};
ghost use Rattle.definition_examples.specs.Expected.{took_policy, translated, Drops, DropsBeside, ForwardAccepts};
ghost use Rattle.definition_examples.specs.Expected.{ForwardDrops, Passes, PassesBeside};
ghost use Rattle.definition_examples.specs.SemanticsExamples as examples;

/// At the end of a chain that was jumped to (also after a goto within it) the next rule runs; at
/// the end of one that the base chain went to by goto, the policy applies.
pub fn jump_and_goto()
    ensures jump { ForwardAccepts (examples.two_chains (tree.jump (codes "a"))) plain
        (took 2 1 (rule_verdicts.Jump 0) ∷ counted 0 1 1 ∷ took 0 1 (rule_verdicts.Goto 1)
        ∷ counted 1 1 1 ∷ counted 2 2 1 ∷ took 2 2 rule_verdicts.Accept ∷ []) }
    ensures goto { ForwardDrops (examples.two_chains (tree.goto (codes "a"))) plain
        (took 2 1 (rule_verdicts.Goto 0) ∷ counted 0 1 1 ∷ took 0 1 (rule_verdicts.Goto 1)
        ∷ counted 1 1 1 ∷ took_policy 2 policies.Drop ∷ []) }
{}

/// `return` goes back to the rule after the jump, in a base chain to the policy; `continue` goes to
/// the next rule; `accept` ends the base chain, also in a chain that was jumped to.
pub fn return_and_continue()
    ensures back { ForwardAccepts (examples.called tree.return) plain
        (took 1 1 (rule_verdicts.Jump 0) ∷ took 0 1 rule_verdicts.Return
        ∷ took 1 2 rule_verdicts.Continue ∷ took 1 3 rule_verdicts.Accept ∷ []) }
    ensures on { ForwardDrops (examples.called tree.continue) plain
        (took 1 1 (rule_verdicts.Jump 0) ∷ took 0 1 rule_verdicts.Continue
        ∷ took 0 2 rule_verdicts.Drop ∷ []) }
    ensures over { ForwardAccepts (examples.called tree.accept) plain
        (took 1 1 (rule_verdicts.Jump 0) ∷ took 0 1 rule_verdicts.Accept ∷ []) }
    ensures to_policy { ForwardDrops (one_table
        (forwards policies.Drop ((tree.verdict tree.return ∷ []) ∷ []) ∷ [])) plain
        (took 0 1 rule_verdicts.Return ∷ took_policy 0 policies.Drop ∷ []) }
{}

/// Base chains run in order of priority, at equal priority in text order; `accept` ends one of
/// them, `drop` all.
pub fn two_base_chains()
    ensures rising { ForwardDrops (examples.accept_and_drop (at 0) (at 10)) plain
        (took 0 1 rule_verdicts.Accept ∷ took 1 1 rule_verdicts.Drop ∷ []) }
    ensures falling { ForwardDrops (examples.accept_and_drop (at 10) (at 0)) plain
        (took 1 1 rule_verdicts.Drop ∷ []) }
    ensures equal { ForwardDrops (examples.accept_and_drop (at 0) (at 0)) plain
        (took 0 1 rule_verdicts.Accept ∷ took 1 1 rule_verdicts.Drop ∷ []) }
    ensures below_zero { ForwardDrops (examples.accept_and_drop (priorities.Named names.Filter)
        (priorities.Offset names.Filter signs.Minus 5)) plain (took 1 1 rule_verdicts.Drop ∷ []) }
    ensures tables { ForwardDrops examples.two_tables plain
        (took 0 1 rule_verdicts.Accept ∷ events.TookVerdict
        (record { table = 1; chain = 0; rule = 1 }) rule_verdicts.Drop ∷ []) }
{}

/// At the end of a base chain its policy applies, which is accept by default.
pub fn policy_at_end()
    ensures drop { ForwardDrops (one_table (forwards policies.Drop [] ∷ [])) plain
        (took_policy 0 policies.Drop ∷ []) }
    ensures not_given { ForwardAccepts
        (one_table (base (codes "fwd") kinds.Filter hooks.Forward (at 0) None [] ∷ [])) plain
        (took_policy 0 policies.Accept ∷ []) }
    ensures no_chain { ForwardAccepts (one_table []) plain [] }
{}

/// `counter ip saddr 10.0.0.1 drop` counts every packet, `ip saddr 10.0.0.1 counter drop` only
/// those that match.
pub fn counter_before_match()
    ensures before { ForwardAccepts (one_table
        (forwards policies.Accept ((counter
        ∷ tree.matching (examples.is selectors.IpSource (address (ip 10 0 0 1))) ∷ drop ∷ []) ∷ [])
        ∷ [])) plain (counted 0 1 1 ∷ took_policy 0 policies.Accept ∷ []) }
    ensures behind { ForwardAccepts (one_table
        (forwards policies.Accept
        ((tree.matching (examples.is selectors.IpSource (address (ip 10 0 0 1))) ∷ counter ∷ drop
        ∷ []) ∷ []) ∷ [])) plain (took_policy 0 policies.Accept ∷ []) }
{}

/// `log prefix "x" accept`.
pub fn logged()
    ensures { ForwardAccepts (one_table
        (forwards policies.Drop ((tree.log (Some (codes "x")) ∷ accept ∷ []) ∷ []) ∷ [])) plain
        (events.Logged (statement_position 0 1 1) ∷ took 0 1 rule_verdicts.Accept ∷ []) }
{}

/// `tcp dport != 22 drop` needs a TCP port.
pub fn unequal_needs_a_value()
    ensures udp { Passes (tree.compare selectors.TcpDestination operators.Unequal
        (number 22)) plain }
    ensures web { Drops (tree.compare selectors.TcpDestination operators.Unequal (number 22))
        (tcp 80 2) }
    ensures shell { Passes (tree.compare selectors.TcpDestination operators.Unequal (number 22))
        (tcp 22 2) }
{}

/// `udp dport < 54` and the other orders, on both sides of the boundary.
pub fn orders()
    ensures below { Drops (examples.port operators.Below (number 54)) plain
        × Passes (examples.port operators.Below (number 53)) plain }
    ensures above { Drops (examples.port operators.Above (number 52)) plain
        × Passes (examples.port operators.Above (number 53)) plain }
    ensures at_most { Drops (examples.port operators.AtMost (number 53)) plain
        × Passes (examples.port operators.AtMost (number 52)) plain }
    ensures at_least { Drops (examples.port operators.AtLeast (number 53)) plain
        × Passes (examples.port operators.AtLeast (number 54)) plain }
{}

/// `udp dport 50-53`, `!= 50-53`, a symbolic constant, and a prefix, whose host bits are ignored.
pub fn ranges()
    ensures equal { Drops (examples.port operators.Equal (numbers 50 53)) plain
        × Passes (examples.port operators.Equal (numbers 54 60)) plain }
    ensures unequal { Passes (examples.port operators.Unequal (numbers 50 53)) plain
        × Drops (examples.port operators.Unequal (numbers 54 60)) plain }
    ensures word { Drops (examples.port operators.Equal (word (codes "domain"))) plain
        × Passes (examples.port operators.Equal (word (codes "ntp"))) plain }
    ensures prefix { Drops (examples.is selectors.IpSource (tree.prefix (ip 192 168 1 77) 24)) plain
        × Passes (examples.is selectors.IpSource (tree.prefix (ip 192 168 2 0) 24)) plain }
{}

/// Interfaces by name, by the beginning of a name, and by index; while it isn't known where a
/// packet leaves, nothing is read of that.
pub fn interfaces()
    ensures name { Drops (tree.compare selectors.InputName operators.Equal
        (word (codes "lan"))) plain × Passes
        (tree.compare selectors.InputName operators.Equal (word (codes "la"))) plain }
    ensures star { Drops (tree.compare selectors.InputName operators.Equal
        (word (codes "la*"))) plain × Passes
        (tree.compare selectors.InputName operators.Equal (word (codes "wa*"))) plain }
    ensures index { Drops (tree.compare selectors.OutputIndex operators.Equal
        (word (codes "wan"))) plain × Drops (examples.is selectors.InputIndex (number 2)) plain
        × Passes (tree.compare selectors.InputIndex operators.Equal (word (codes "wan"))) plain }
    ensures unknown { Drops (tree.compare selectors.OutputName operators.Unequal
        (word (codes "lan"))) plain × Passes
        (tree.compare selectors.OutputName operators.Unequal (word (codes "lan"))) arriving
        × Passes (tree.compare selectors.OutputIndex operators.Unequal
        (word (codes "lan"))) arriving }
{}

/// What the other selectors read.
pub fn fields()
    ensures header { Drops (examples.is selectors.IpDestination (address (ip 198 51 100 7))) plain
        × Drops (examples.is selectors.IpProtocol (number 17)) plain
        × Drops (examples.is selectors.MetaProtocol (word (codes "udp"))) plain
        × Drops (examples.is selectors.IpTtl (number 63)) plain
        × Drops (examples.is selectors.IpLength (number 28)) plain
        × Drops (examples.is selectors.MetaLength (number 28)) plain
        × Drops (examples.is selectors.MetaFamily (word (codes "ipv4"))) plain }
    ensures udp { Drops (examples.is selectors.UdpSource (number 5000)) plain
        × Drops (examples.is selectors.TransportSource (number 5000)) plain
        × Drops (examples.is selectors.TransportDestination (number 53)) plain
        × Passes (tree.compare selectors.TcpSource operators.Unequal (number 1)) plain }
    ensures tcp { Drops (examples.is selectors.TcpSource (number 40000)) (tcp 80 2)
        × Drops (examples.is selectors.TcpDestination (number 80)) (tcp 80 2)
        × Drops (examples.is selectors.TransportDestination (number 80)) (tcp 80 2)
        × Passes (tree.compare selectors.UdpSource operators.Unequal (number 1)) (tcp 80 2) }
    ensures icmp { Drops (examples.is selectors.IcmpType (word (codes "echo-request"))) (icmp 8)
        × Passes (examples.is selectors.IcmpType (word (codes "echo-request"))) plain
        × Passes (tree.compare selectors.TransportDestination operators.Unequal (number 1))
        (icmp 8) }
    ensures mark { Drops (examples.is selectors.MetaMark (number 7)) (marked 7)
        × Passes (examples.is selectors.MetaMark (number 7)) plain }
{}

/// A set of a prefix and a range, one with a name, and none of a set: that needs a value.
pub fn sets()
    ensures among { Drops examples.among plain × Drops examples.among (from (ip 10 200 0 1))
        × Passes examples.among (from (ip 192 168 1 11)) }
    ensures not_among { Passes examples.not_among plain
        × Drops examples.not_among (from (ip 192 168 1 11)) }
    ensures without_value { Passes examples.other_port plain × Drops examples.other_port (tcp 80 2)
        × Passes examples.other_port (tcp 22 2) }
    ensures with_name { DropsBeside (addresses_set (codes "s")
        (tree.prefix (ip 192 168 0 0) 16 ∷ []) ∷ [])
        (tree.is_in (selectors.IpSource ∷ []) (tree.named_set (codes "s"))) plain
        × PassesBeside (addresses_set (codes "s") (tree.prefix (ip 192 168 0 0) 16 ∷ []) ∷ [])
        (tree.is_in (selectors.IpSource ∷ []) (tree.named_set (codes "s"))) (from (ip 10 0 0 1)) }
{}

/// `ip daddr . udp dport { 198.51.100.7 . 53 }`: each part needs a value, for `!=` too.
pub fn joined()
    ensures among { Drops (tree.is_in examples.server (examples.name_server 53)) plain
        × Passes (tree.is_in examples.server (examples.name_server 54)) plain }
    ensures not_among { Drops (tree.not_in examples.server (examples.name_server 54)) plain
        × Passes (tree.not_in examples.server (examples.name_server 53)) plain
        × Passes (tree.not_in examples.server (examples.name_server 54)) (tcp 53 2) }
{}

/// `ct state established,related`, `== established,related` and `!= new`.
pub fn states()
    ensures any { Drops (examples.state bit_tests.Any (codes "established" ∷ codes "related" ∷ []))
        (in_state states.Established) × Drops
        (examples.state bit_tests.Any (codes "established" ∷ codes "related" ∷ []))
        (in_state states.Related) × Passes
        (examples.state bit_tests.Any (codes "established" ∷ codes "related" ∷ []))
        (in_state states.New) × Passes (examples.state bit_tests.Any
        (codes "established" ∷ codes "related" ∷ [])) (tracked ct.Invalid) }
    ensures invalid { Drops (examples.state bit_tests.Any (codes "invalid" ∷ []))
        (tracked ct.Invalid) × Passes (examples.state bit_tests.Any (codes "invalid" ∷ []))
        (in_state states.New) × Passes (examples.state bit_tests.Any (codes "invalid" ∷ []))
        (tracked ct.NotLookedUp) }
    ensures exactly { Drops (examples.state bit_tests.Exactly (codes "established" ∷ []))
        (in_state states.Established) × Passes
        (examples.state bit_tests.Exactly (codes "established" ∷ codes "related" ∷ []))
        (in_state states.Established) }
    ensures related { Drops (examples.state bit_tests.Any (codes "related" ∷ []))
        (in_state states.Related) × Passes (examples.state bit_tests.Any (codes "related" ∷ []))
        (in_state states.Established) }
    ensures none_of_two { Drops (examples.state bit_tests.None
        (codes "established" ∷ codes "new" ∷ [])) (in_state states.Related)
        × Passes (examples.state bit_tests.None (codes "established" ∷ codes "new" ∷ []))
        (in_state states.Established) }
    ensures none { Drops (examples.state bit_tests.None (codes "new" ∷ []))
        (in_state states.Established) × Drops (examples.state bit_tests.None (codes "new" ∷ []))
        (tracked ct.Invalid) × Passes (examples.state bit_tests.None (codes "new" ∷ []))
        (in_state states.New) × Passes (examples.state bit_tests.None (codes "new" ∷ []))
        (tracked ct.NotLookedUp) }
{}

/// `ct status`, `ct direction` and `ct mark` need a connection: for an invalid packet they have no
/// value.
pub fn connections()
    ensures status { Drops (examples.status (codes "snat" ∷ []))
        (known (record new_connection { source_translated = true }))
        × Drops (examples.status (codes "seen-reply" ∷ codes "dnat" ∷ []))
        (known (record new_connection { destination_translated = true }))
        × Passes (examples.status (codes "snat" ∷ codes "seen-reply" ∷ [])) plain
        × Passes (tree.bits bit_fields.Status bit_tests.None (codes "snat" ∷ []))
        (tracked ct.Invalid) }
    ensures direction { Drops (examples.is selectors.CtDirection (word (codes "reply")))
        (known (record new_connection { direction = directions.Reply }))
        × Passes (examples.is selectors.CtDirection (word (codes "reply"))) plain }
    ensures mark { Drops (examples.is selectors.CtMark (number 7))
        (known (record new_connection { mark = 7 }))
        × Passes (tree.compare selectors.CtMark operators.Unequal (number 7)) (tracked ct.Invalid) }
{}

/// `tcp flags syn,ack`, `== syn`, `& (syn | ack) == syn` and `!= syn`; UDP has no flags.
pub fn tcp_flags()
    ensures any { Drops (tree.any_flag examples.syn_ack) (tcp 80 2)
        × Drops (tree.any_flag examples.syn_ack) (tcp 80 16)
        × Passes (tree.any_flag examples.syn_ack) (tcp 80 1)
        × Passes (tree.any_flag examples.syn_ack) plain }
    ensures exact { Drops (tree.exact_flags examples.syn) (tcp 80 2)
        × Passes (tree.exact_flags examples.syn) (tcp 80 18)
        × Drops (tree.exact_flags examples.syn_ack) (tcp 80 18)
        × Passes (tree.exact_flags examples.syn) plain }
    ensures masked { Drops (tree.masked_flags examples.syn examples.syn_ack) (tcp 80 3)
        × Passes (tree.masked_flags examples.syn examples.syn_ack) (tcp 80 18)
        × Passes (tree.masked_flags examples.syn examples.syn_ack) plain }
    ensures masked_unequal { Passes (tree.masked_flags_unequal examples.syn examples.syn_ack)
        (tcp 80 3) × Drops (tree.masked_flags_unequal examples.syn examples.syn_ack) (tcp 80 18)
        × Passes (tree.masked_flags_unequal examples.syn examples.syn_ack) plain }
    ensures number { Drops (tree.exact_flags (tree.flag_number 2 ∷ tree.flag_number 16 ∷ []))
        (tcp 80 18) × Passes (tree.exact_flags (tree.flag_number 2 ∷ tree.flag_number 16 ∷ []))
        (tcp 80 2) }
{}

/// `udp dport vmap { 53 : VERDICT }`; without an element or a value, the next rule runs.
pub fn verdict_maps()
    ensures found { ForwardAccepts (examples.chosen (examples.by_port 53 tree.accept)) plain
        (took 0 1 rule_verdicts.Accept ∷ []) }
    ensures missing { ForwardDrops (examples.chosen (examples.by_port 54 tree.accept)) plain
        (took 0 2 rule_verdicts.Drop ∷ []) }
    ensures without_value { ForwardDrops (examples.chosen (examples.by_port 53 tree.accept))
        (tcp 53 2) (took 0 2 rule_verdicts.Drop ∷ []) }
    ensures jump { ForwardAccepts (examples.chosen
        (examples.by_port 53 (tree.jump (codes "b")))) plain
        (took 0 1 (rule_verdicts.Jump 1) ∷ took 1 1 rule_verdicts.Accept ∷ []) }
    ensures goto { ForwardAccepts (examples.chosen
        (examples.by_port 53 (tree.goto (codes "b")))) plain
        (took 0 1 (rule_verdicts.Goto 1) ∷ took 1 1 rule_verdicts.Accept ∷ []) }
    ensures with_name { ForwardAccepts examples.chosen_by_name plain
        (took 0 1 (rule_verdicts.Jump 1) ∷ took 1 1 rule_verdicts.Accept ∷ []) }
{}

/// `meta mark set` to a number, a connection's mark, or a map's data; without an operand the
/// statement fails. The next rule reads the new mark.
pub fn marks_written()
    ensures number { Stage stages.Forward box (examples.marking marks.Meta (tree.constant 7)) plain []
        (dropped (marked 7) (events.Marked marks.Meta 7 ∷ counted 0 1 2
        ∷ took 0 2 rule_verdicts.Drop ∷ [])) }
    ensures found { Stage stages.Forward box (examples.marking marks.Meta (examples.seven_at 53)) plain []
        (dropped (marked 7) (events.Marked marks.Meta 7 ∷ counted 0 1 2
        ∷ took 0 2 rule_verdicts.Drop ∷ [])) }
    ensures missing { ForwardAccepts (examples.marking marks.Meta (examples.seven_at 54)) plain
        (took_policy 0 policies.Accept ∷ []) }
    ensures of_connection { Stage stages.Forward box (examples.marking marks.Meta (tree.mark_of marks.Ct))
        (known (record new_connection { mark = 7 })) []
        (dropped (record (known (record new_connection { mark = 7 })) { mark = 7 })
        (events.Marked marks.Meta 7 ∷ counted 0 1 2 ∷ took 0 2 rule_verdicts.Drop ∷ [])) }
    ensures of_none { ForwardAccepts (examples.marking marks.Meta (tree.mark_of marks.Ct))
        (tracked ct.Invalid) (took_policy 0 policies.Accept ∷ []) }
{}

/// `ct mark set` writes the connection's mark; without a connection it does nothing, without an
/// operand it fails.
pub fn connections_marked()
    ensures known { Stage stages.Forward box (examples.marking marks.Ct (tree.constant 7)) plain []
        (accepted (known (record new_connection { mark = 7 }))
        (events.Marked marks.Ct 7 ∷ counted 0 1 2 ∷ took_policy 0 policies.Accept ∷ [])) }
    ensures none { ForwardAccepts (examples.marking marks.Ct (tree.constant 7)) (tracked ct.Invalid)
        (counted 0 1 2 ∷ took_policy 0 policies.Accept ∷ []) }
    ensures without_operand { ForwardAccepts (examples.marking marks.Ct (examples.seven_at 54))
        (tracked ct.Invalid) (took_policy 0 policies.Accept ∷ []) }
{}

/// `notrack counter`, and `notrack` again: before the conntrack lookup the first takes effect,
/// after it neither. `ct state untracked` has a value only after the lookup.
pub fn notrack_packets()
    ensures unknown { Stage stages.Forward box examples.untracking (tracked ct.NotLookedUp) []
        (accepted (tracked ct.Notrack) (events.Untracked ∷ counted 0 1 2
        ∷ took_policy 0 policies.Accept ∷ [])) }
    ensures known { ForwardAccepts examples.untracking plain
        (counted 0 1 2 ∷ took_policy 0 policies.Accept ∷ []) }
    ensures invalid { ForwardAccepts examples.untracking (tracked ct.Invalid)
        (counted 0 1 2 ∷ took_policy 0 policies.Accept ∷ []) }
    ensures read { Drops (examples.state bit_tests.Any (codes "untracked" ∷ []))
        (tracked ct.Untracked) × Drops (examples.state bit_tests.None (codes "new" ∷ []))
        (tracked ct.Untracked) × Passes (examples.state bit_tests.Exactly
        (codes "untracked" ∷ codes "new" ∷ [])) (tracked ct.Untracked) }
    ensures not_read { Passes (examples.state bit_tests.Any (codes "untracked" ∷ []))
        (tracked ct.Notrack) × Passes (examples.state bit_tests.None (codes "untracked" ∷ []))
        (tracked ct.Notrack) × Passes (tree.compare selectors.CtMark operators.Unequal (number 7))
        (tracked ct.Untracked) }
{}

/// The requests of NAT statements; a map without an element for the key makes the statement fail.
pub fn nat_actions()
    ensures masquerade { Stage stages.PostroutingNat box
        (examples.translating hooks.Postrouting (tree.masquerade None)) plain []
        (translated (nat_actions.Masquerade None) plain
        (counted 0 1 1 ∷ took 0 1 (rule_verdicts.Translate (nat_actions.Masquerade None)) ∷ [])) }
    ensures snat { Stage stages.PostroutingNat box
        (examples.translating hooks.Postrouting
        (tree.source (tree.source_address (ip 203 0 113 1)
        (Some (ports.Between 1024 2048))))) plain []
        (translated (nat_actions.Source (ip 203 0 113 1)
        (Some (record { low = 1024; high = 2048 }))) plain
        (counted 0 1 1 ∷ took 0 1 (rule_verdicts.Translate
        (nat_actions.Source (ip 203 0 113 1) (Some (record { low = 1024; high = 2048 })))) ∷ [])) }
    ensures dnat { Stage stages.PreroutingNat box
        (examples.translating hooks.Prerouting
        (tree.destination (tree.destination_address (ip 192 168 1 11) (Some 5353)))) plain []
        (translated (nat_actions.Destination (ip 192 168 1 11) (Some 5353)) plain
        (counted 0 1 1 ∷ took 0 1 (rule_verdicts.Translate
        (nat_actions.Destination (ip 192 168 1 11) (Some 5353))) ∷ [])) }
    ensures redirect { Stage stages.PreroutingNat box
        (examples.translating hooks.Prerouting (tree.redirect (Some 8053))) plain []
        (translated (nat_actions.Redirect (Some 8053)) plain
        (counted 0 1 1 ∷ took 0 1 (rule_verdicts.Translate (nat_actions.Redirect (Some 8053)))
        ∷ [])) }
    ensures found { Stage stages.PreroutingNat box
        (examples.translating hooks.Prerouting
        (tree.destination (tree.destination_lookup (examples.neighbour_at 53)))) plain []
        (translated (nat_actions.Destination (ip 192 168 1 11) None) plain
        (counted 0 1 1 ∷ took 0 1 (rule_verdicts.Translate
        (nat_actions.Destination (ip 192 168 1 11) None)) ∷ []))
        × Stage stages.PostroutingNat box
        (examples.translating hooks.Postrouting
        (tree.source (tree.source_lookup (examples.neighbour_at 53)))) plain []
        (translated (nat_actions.Source (ip 192 168 1 11) None) plain
        (counted 0 1 1 ∷ took 0 1 (rule_verdicts.Translate
        (nat_actions.Source (ip 192 168 1 11) None)) ∷ [])) }
    ensures missing { Stage stages.PreroutingNat box
        (examples.translating hooks.Prerouting
        (tree.destination (tree.destination_lookup (examples.neighbour_at 54)))) plain []
        (accepted plain (counted 0 1 1 ∷ took_policy 0 policies.Accept ∷ [])) }
{}

/// Chains of type nat run in order until one translates or drops; after an accept the next one
/// runs.
pub fn chains_of_type_nat()
    ensures accepted { Stage stages.PostroutingNat box
        (examples.translating_behind hooks.Postrouting accept (tree.masquerade None)) plain []
        (translated (nat_actions.Masquerade None) plain
        (took 1 1 rule_verdicts.Accept ∷ took 0 1
        (rule_verdicts.Translate (nat_actions.Masquerade None)) ∷ [])) }
    ensures dropped { Stage stages.PostroutingNat box
        (examples.translating_behind hooks.Postrouting drop (tree.masquerade None)) plain []
        (dropped plain (took 1 1 rule_verdicts.Drop ∷ [])) }
    ensures translated { Stage stages.PostroutingNat box
        (examples.translating_behind hooks.Postrouting
        (tree.nat (tree.masquerade (Some (ports.One 4000)))) (tree.masquerade None)) plain []
        (translated (nat_actions.Masquerade (Some (record { low = 4000; high = 4000 }))) plain
        (took 1 1 (rule_verdicts.Translate
        (nat_actions.Masquerade (Some (record { low = 4000; high = 4000 })))) ∷ [])) }
    ensures filters_apart { Stage stages.PostroutingNat box
        (examples.dropping hooks.Postrouting (at 100)) plain [] (accepted plain [])
        × Stage stages.PostroutingBeforeNat box
        (examples.translating hooks.Postrouting (tree.masquerade None)) plain [] (accepted plain [])
        × Stage stages.PostroutingAfterNat box
        (examples.translating hooks.Postrouting (tree.masquerade None)) plain []
        (accepted plain []) }
    ensures elsewhere { Stage stages.PreroutingNat box
        (examples.translating hooks.Postrouting (tree.masquerade None)) plain []
        (accepted plain []) }
{}

/// Filter chains on prerouting with priority -100 or above run after destination NAT, those on
/// postrouting with 100 or above after source NAT; lower ones run before it. None runs twice.
pub fn filter_chains_around_nat()
    ensures prerouting_after { Stage stages.PreroutingBeforeNat box
        (examples.dropping hooks.Prerouting (below_zero 100)) plain [] (accepted plain [])
        × Stage stages.PreroutingAfterNat box
        (examples.dropping hooks.Prerouting (below_zero 100)) plain []
        (dropped plain (took 0 1 rule_verdicts.Drop ∷ [])) }
    ensures prerouting_before { Stage stages.PreroutingBeforeNat box
        (examples.dropping hooks.Prerouting (below_zero 101)) plain []
        (dropped plain (took 0 1 rule_verdicts.Drop ∷ []))
        × Stage stages.PreroutingAfterNat box
        (examples.dropping hooks.Prerouting (below_zero 101)) plain [] (accepted plain []) }
    ensures postrouting_after { Stage stages.PostroutingBeforeNat box
        (examples.dropping hooks.Postrouting (at 100)) plain [] (accepted plain [])
        × Stage stages.PostroutingAfterNat box
        (examples.dropping hooks.Postrouting (at 100)) plain []
        (dropped plain (took 0 1 rule_verdicts.Drop ∷ [])) }
    ensures postrouting_before { Stage stages.PostroutingBeforeNat box
        (examples.dropping hooks.Postrouting (at 99)) plain []
        (dropped plain (took 0 1 rule_verdicts.Drop ∷ []))
        × Stage stages.PostroutingAfterNat box
        (examples.dropping hooks.Postrouting (at 99)) plain [] (accepted plain []) }
{}

/// Filter chains on prerouting with priority -200 or below run before the conntrack lookup, and not
/// again after it.
pub fn prerouting_raw_chains()
    ensures at { Stage stages.PreroutingRaw box
        (examples.dropping hooks.Prerouting (below_zero 200)) plain []
        (dropped plain (took 0 1 rule_verdicts.Drop ∷ []))
        × Stage stages.PreroutingBeforeNat box
        (examples.dropping hooks.Prerouting (below_zero 200)) plain [] (accepted plain [])
        × Stage stages.PreroutingAfterNat box
        (examples.dropping hooks.Prerouting (below_zero 200)) plain [] (accepted plain []) }
    ensures above { Stage stages.PreroutingRaw box
        (examples.dropping hooks.Prerouting (below_zero 199)) plain [] (accepted plain [])
        × Stage stages.PreroutingBeforeNat box
        (examples.dropping hooks.Prerouting (below_zero 199)) plain []
        (dropped plain (took 0 1 rule_verdicts.Drop ∷ [])) }
{}

/// Filter chains on input run for packets to the box, those on forward for forwarded ones.
pub fn input_and_forward()
    ensures input { Stage stages.Input box (examples.dropping hooks.Input (at 0)) plain []
        (dropped plain (took 0 1 rule_verdicts.Drop ∷ []))
        × ForwardAccepts (examples.dropping hooks.Input (at 0)) plain [] }
    ensures forward { ForwardDrops (examples.dropping hooks.Forward (at 0)) plain
        (took 0 1 rule_verdicts.Drop ∷ [])
        × Stage stages.Input box (examples.dropping hooks.Forward (at 0)) plain [] (accepted plain []) }
{}
