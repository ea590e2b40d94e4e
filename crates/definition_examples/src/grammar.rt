//! Texts with their trees, each the contract of a function that does nothing.
ghost use Rattle.std.specs.Prelude.{◌∷◌, [], List, codes, IsTrue, IsFalse};
ghost use Rattle.nft_lexer.specs.declared.token.Punctuator.TheVariants.{CloseBrace};
ghost use Rattle.nft_lexer.specs.Terminal.{Terminal, punctuator, word};
ghost use Rattle.nft_tree.specs.declared.selector.Selector.TheVariants as selectors;
ghost use Rattle.nft_tree.specs.declared.statement.Operator.{Operator};
ghost use Rattle.nft_tree.specs.Tree as tree;
ghost use Rattle.nft_tree.specs.Tree.{RangeTree, TableTree, VerdictTree};
ghost use Rattle.nft_expressions.specs.Elements.{SpellsElements, map_data, verdict};
ghost use Rattle.nft_rules.specs.Matches.{matching};
ghost use Rattle.nft_rules.specs.Rules.{SpellsRule};
ghost use Rattle.nft_rulesets.specs.Chains.{chain};
ghost use Rattle.nft_rulesets.specs.Sets.{named_set, named_map};
ghost use Rattle.nft_rulesets.specs.UnsupportedWords.{has_unsupported};
ghost use Rattle.nft_rulesets.specs.Rulesets.{SpellsRuleset};
ghost use Rattle.definition_examples.specs.GrammarExamples as examples;

/// Rules of matches and a verdict.
pub fn rules_of_matches()
    // `tcp dport 22 accept`: without an operator it is equality.
    ensures port_is_22 { (rest : List Terminal)
        → SpellsRule examples.port_is_22 (examples.port_is_22_tokens rest) rest }
    // `tcp dport != 22 drop`: an operator before the value.
    ensures port_is_not_22 { (rest : List Terminal)
        → SpellsRule examples.port_is_not_22 (examples.port_is_not_22_tokens rest) rest }
    // `meta l4proto { icmp, ipv6-icmp } accept`: words in an anonymous set.
    ensures either_icmp { (rest : List Terminal)
        → SpellsRule examples.either_icmp (examples.either_icmp_tokens rest) rest }
    // `iifname "lo" accept`: an interface's name as a string.
    ensures from_loopback { (rest : List Terminal)
        → SpellsRule examples.from_loopback (examples.from_loopback_tokens rest) rest }
    // `iifname accept accept`: any word may be an interface's name.
    ensures from_accept { (rest : List Terminal)
        → SpellsRule examples.from_accept (examples.from_accept_tokens rest) rest }
    // `ct state established,related accept`: any of these states.
    ensures known_connection { (rest : List Terminal)
        → SpellsRule examples.known_connection (examples.known_connection_tokens rest) rest }
    // `tcp flags & (syn | ack) == syn drop` and `tcp flags syn / syn,ack drop`: the same tree.
    ensures opening_by_mask { (rest : List Terminal)
        → SpellsRule examples.opening (examples.opening_by_mask_tokens rest) rest }
    ensures opening_by_slash { (rest : List Terminal)
        → SpellsRule examples.opening (examples.opening_by_slash_tokens rest) rest }
    // `ip daddr . udp dport { 198.51.100.7 . 53 } accept`: a concatenation of selectors, and one of
    // values.
    ensures to_name_server { (rest : List Terminal)
        → SpellsRule examples.to_name_server (examples.to_name_server_tokens rest) rest }
    // `tcp flags & (fin | syn) != 0 continue`: a number as flags.
    ensures some_flag { (rest : List Terminal)
        → SpellsRule examples.some_flag (examples.some_flag_tokens rest) rest }
    // `tcp flags == syn,ack ct status != dnat drop`: exactly these flags, and none of these bits.
    ensures syn_ack { (rest : List Terminal)
        → SpellsRule examples.syn_ack (examples.syn_ack_tokens rest) rest }
{}

/// Rules of other statements.
pub fn other_rules()
    // `goto b`: a verdict with a chain.
    ensures goto_b { (rest : List Terminal)
        → SpellsRule examples.goto_b (examples.goto_b_tokens rest) rest }
    // `ip saddr vmap @m`: a named verdict map.
    ensures verdict_by_source { (rest : List Terminal)
        → SpellsRule examples.verdict_by_source (examples.verdict_by_source_tokens rest) rest }
    // `ip saddr @lan4 tcp dport { 22, 80-443 } counter packets 12 bytes 840 accept comment "in"`:
    // matches, a counter with its initial value, a verdict and a comment.
    ensures web_from_lan { (rest : List Terminal)
        → SpellsRule examples.web_from_lan (examples.web_from_lan_tokens rest) rest }
    // `ct state vmap { invalid : drop, established : accept, related : accept }`: an anonymous
    // verdict map.
    ensures verdict_by_state { (rest : List Terminal)
        → SpellsRule examples.verdict_by_state (examples.verdict_by_state_tokens rest) rest }
    // `oifname "wan" masquerade`: without ports.
    ensures masqueraded { (rest : List Terminal)
        → SpellsRule examples.masqueraded (examples.masqueraded_tokens rest) rest }
    // `snat to 203.0.113.1:1024-1025`: an address and a range of ports.
    ensures translated_source { (rest : List Terminal)
        → SpellsRule examples.translated_source (examples.translated_source_tokens rest) rest }
    // `meta mark set ct mark`: a mark from the other one.
    ensures mark_from_connection { (rest : List Terminal)
        → SpellsRule examples.mark_from_connection (examples.mark_from_connection_tokens rest) rest }
    // `ct mark set 7`: a mark from a number.
    ensures connection_marked { (rest : List Terminal)
        → SpellsRule examples.connection_marked (examples.connection_marked_tokens rest) rest }
    // `meta mark set ip saddr map { 10.0.0.1 - 10.0.0.9 : 16 } counter`: a mark from a map lookup.
    ensures mark_by_source { (rest : List Terminal)
        → SpellsRule examples.mark_by_source (examples.mark_by_source_tokens rest) rest }
    // `udp dport 53 notrack`: a statement of one word.
    ensures names_untracked { (rest : List Terminal)
        → SpellsRule examples.names_untracked (examples.names_untracked_tokens rest) rest }
    // `ip saddr != 10.0.0.0/8 tcp sport >= 1024 log prefix "high" redirect to :8080`: a prefix, an
    // order, a log prefix and a port.
    ensures outside_logged { (rest : List Terminal)
        → SpellsRule examples.outside_logged (examples.outside_logged_tokens rest) rest }
{}

/// Lists, sets, maps and chains.
pub fn sets_and_chains()
    // A list of elements over several lines, with a comma at its end.
    ensures private_networks { (rest : List Terminal)
        → SpellsElements examples.private_networks (examples.private_networks_tokens rest)
        (punctuator CloseBrace ∷ rest) }
    // A set with each field on its line.
    ensures local_network { (rest : List Terminal)
        → named_set.spells examples.local_network (examples.local_network_tokens rest) rest }
    // A set on one line: `typeof`, two flags, a size, a comment, and a semicolon after its last
    // field.
    ensures guests { (rest : List Terminal)
        → named_set.spells examples.guests (examples.guests_tokens rest) rest }
    // A verdict map with its fields in another order.
    ensures by_interface { (rest : List Terminal)
        → named_map.spells examples.by_interface (examples.by_interface_tokens rest) rest }
    // A chain on one line: a negative priority, no policy, and a semicolon after its last rule.
    ensures watch { (rest : List Terminal)
        → chain.spells examples.watch (examples.watch_tokens rest) rest }
{}

/// Whole texts.
pub fn texts()
    // A table with a base chain of one rule.
    ensures loopback_only { SpellsRuleset examples.loopback_only examples.loopback_only_tokens }
    // A table without a family has family ip, even if its name is a family's.
    ensures table_t { SpellsRuleset examples.table_t examples.table_t_tokens }
    ensures table_ip { SpellsRuleset examples.table_ip examples.table_ip_tokens }
    // A listing of a set and a base chain.
    ensures filter_listing { SpellsRuleset examples.filter_listing examples.filter_listing_tokens }
    // `flush ruleset`, a map, and a chain with comments before and after its hook specification.
    ensures translation { SpellsRuleset examples.translation examples.translation_tokens }
    // `fwd` is unsupported, wherever it is; no word of `tcp dport` is.
    ensures unsupported { IsTrue (has_unsupported (examples.unsupported_tokens [])) }
    ensures none_unsupported { IsFalse (has_unsupported (examples.none_unsupported_tokens [])) }
{}

/// Texts that spell nothing.
pub fn invalid_texts()
    // `flush ruleset` without an end after it is no ruleset.
    ensures no_unended_flush { (tables : List TableTree)
        → SpellsRuleset tables (word (codes "flush") ∷ word (codes "ruleset") ∷ []) → ⊥ }
    // `reject` is no verdict.
    ensures no_reject { (v : VerdictTree) (rest to : List Terminal)
        → verdict.spells v (word (codes "reject") ∷ rest) to → ⊥ }
    // `tcp flags` isn't compared with one value: it has matches of its own.
    ensures no_plain_flags { (op : Operator) (r : RangeTree) (from to : List Terminal)
        → matching.spells (tree.compare selectors.TcpFlags op r) from to → ⊥ }
    // A port isn't compared with a word that is no symbolic constant, as `telnet`.
    ensures no_unlisted_word { (op : Operator) (from to : List Terminal)
        → matching.spells (tree.compare selectors.TcpDestination op
        (tree.one (tree.word (codes "telnet")))) from to → ⊥ }
    // A word that starts a verdict is no value of a map's data.
    ensures no_verdict_as_value { (from to : List Terminal)
        → map_data.spells (tree.to_value (tree.word (codes "accept"))) from to → ⊥ }
    // A list in braces has at least one element.
    ensures no_empty_list { (from to : List Terminal) → SpellsElements [] from to → ⊥ }
{}
