//! What nft(8) refuses of rules, or means otherwise by them.
use crate::chains::is_early;
use crate::findings::{Findings, Warning};
use crate::ports::{is_of_ports, ports_start, selectors_of};
use crate::protocols::Protocols;
use crate::tokens::Tokens;
use nft_expressions::anysel;
use nft_tree::{
    BitField, BitTest, Chain, DestinationTarget, Hook, Key, MapRef, Match, Nat, Operand, Operator,
    Rule, Selector, SetRef, SourceTarget, Stmt, Table, ValueRange,
};
use node_spans::{TokenRange, statements};
use std::alloc::AllocError;

const WHOLE_STATUS: Warning =
    "Linux sets more bits of the status (confirmed, assured) than are compared here: write `ct status WORD`";

/// A rule that is read from left to right, beside its tokens.
#[derive(Drop)]
struct Walk<'f, 'a> {
    findings: &'f mut Findings<'a>,
    tokens: Tokens<'a>,
    /// The tokens of the statement that is read.
    range: TokenRange,
    /// The token up to which it is read.
    at: usize,
    protocols: Protocols,
    /// Whether it has named TCP or UDP, so that all packets have ports.
    is_ported: bool,
    is_early: bool,
    /// Whether its packets have an output interface: on prerouting and input Linux reads an empty
    /// name there and the index 0, which no interface has, so that `!=` holds; here no match does.
    has_exit: bool,
}

impl Findings<'_> {
    /// Adds the warnings about a rule of a chain.
    pub(crate) fn judge_rule(
        &mut self,
        table: &Table,
        chain: &Chain,
        rule: &Rule,
        range: TokenRange,
    ) -> Result<(), AllocError> {
        let alloc = self.alloc;
        let places = statements(alloc, self.tokens.all, range)?.unwrap_or(Vec::new(alloc));
        let (is_early, hook) = match &chain.head {
            Some(head) => (is_early(head), Some(head.hook)),
            None => (false, None),
        };
        let ports_start = ports_start(table, &rule.statements);
        self.rules.push(self.tokens.offset(range.first))?;
        let mut walk = Walk {
            tokens: self.tokens,
            findings: self,
            range,
            at: range.first,
            protocols: Protocols::new(table.family),
            is_ported: false,
            is_early,
            has_exit: !matches!(hook, Some(Hook::Prerouting | Hook::Input)),
        };
        for (number, (statement, place)) in rule.statements.iter().zip(&places).enumerate() {
            walk.range = *place;
            walk.at = place.first;
            walk.is_ported = walk.is_ported || ports_start <= number;
            walk.judge_statement(statement)?;
        }
        Ok(())
    }
}

impl Walk<'_, '_> {
    fn judge_statement(&mut self, statement: &Stmt) -> Result<(), AllocError> {
        match statement {
            Stmt::Match(test) => self.judge_match(test),
            Stmt::VerdictMap(selector, map) => self.judge_map(*selector, map),
            Stmt::SetMark(_, Operand::MapLookup(lookup)) => {
                // Behind `meta mark set` or `ct mark set`.
                self.at = self.at.saturating_add(3);
                self.judge_map(lookup.selector, &lookup.map)
            }
            Stmt::Nat(nat) => self.judge_nat(nat),
            _ => Ok(()),
        }
    }

    /// Reads a selector, and the dot before it.
    fn read(&mut self, selector: Selector) {
        if self.tokens.is(self.at, b".") {
            self.at = self.at.saturating_add(1);
        }
        let place = self.at;
        if let Some((_, end)) = anysel(self.tokens.all, place) {
            self.at = end;
        }
        if let Some(warning) = self.protocols.read(selector) {
            self.findings.add(place, warning);
        }
        match selector {
            Selector::TransportSource | Selector::TransportDestination if !self.is_ported => {
                let warning =
                    "Linux reads the bytes of any protocol as ports; nftrun those of TCP and UDP";
                self.findings.add(place, warning);
            }
            Selector::CtState if self.is_early => self.findings.add(
                place,
                "here `ct` reads nothing in an early chain, on Linux `ct state` reads invalid or untracked",
            ),
            _ => self.is_ported = self.is_ported || is_of_ports(selector),
        }
    }

    fn judge_map(&mut self, selector: Selector, map: &MapRef) -> Result<(), AllocError> {
        self.read(selector);
        if matches!(selector, Selector::CtStatus) {
            self.findings.add(self.at, WHOLE_STATUS);
        }
        let MapRef::Anonymous(pairs) = map else {
            return Ok(());
        };
        let kind = selector.kind();
        self.findings.judge_anonymous(pairs, kind, true, self.range)
    }

    fn judge_match(&mut self, test: &Match) -> Result<(), AllocError> {
        self.read_all(test);
        match test {
            Match::Compare(selector, operator, ValueRange::One(value)) => {
                let place = self.range.end.saturating_sub(1);
                let kind = selector.kind();
                self.findings.judge_literal(value, kind, place, false);
                if matches!(operator, Operator::Equal) {
                    self.protocols.learn(*selector, value);
                }
            }
            Match::In(selectors, set) => self.judge_set(selectors, set, true)?,
            Match::NotIn(selectors, set) => self.judge_set(selectors, set, false)?,
            Match::Bits(BitField::State, BitTest::None, words) if words.len() > 1 => {
                let warning =
                    "on Linux this always holds, since no state is all of these at once: write `!= { .. }`";
                self.findings.add(self.range.first, warning);
            }
            Match::Bits(BitField::Status, BitTest::None | BitTest::Exactly, _) => {
                self.findings.add(self.range.first, WHOLE_STATUS);
            }
            Match::MaskedFlags(_) | Match::MaskedFlagsUnequal(_) => self.judge_mask(),
            _ => {}
        }
        Ok(())
    }

    /// Reads the selectors of a match. Of those that ask that the output interface be another one
    /// than those named the first is told.
    fn read_all(&mut self, test: &Match) {
        let mut excludes = !self.has_exit
            && matches!(
                test,
                Match::Compare(_, Operator::Unequal, _) | Match::NotIn(_, _)
            );
        for selector in selectors_of(test) {
            self.read(*selector);
            if excludes && matches!(selector, Selector::OutputName | Selector::OutputIndex) {
                let warning =
                    "on prerouting and input Linux reads an empty name, so this holds; here it doesn't";
                self.findings.add(self.at.saturating_sub(1), warning);
                excludes = false;
            }
        }
    }

    /// Judges a selector that is in a set, or isn't; joined ones have no bits and no names.
    fn judge_set(
        &mut self,
        selectors: &[Selector],
        set: &SetRef,
        is_in: bool,
    ) -> Result<(), AllocError> {
        let [selector] = selectors else {
            return Ok(());
        };
        let has_operator = matches!(self.tokens.bytes(self.at), b"==" | b"!=");
        match (selector, set) {
            (Selector::CtStatus | Selector::TcpFlags, SetRef::Anonymous(elements))
                if elements.len() == 1 && !has_operator => {
                let warning =
                    "nft takes a set of one element for a test of its bit; here the whole value is compared";
                self.findings.add(self.range.first, warning);
            }
            (Selector::CtStatus, _) => self.findings.add(self.range.first, WHOLE_STATUS),
            _ => {}
        }
        let SetRef::Anonymous(elements) = set else {
            return Ok(());
        };
        for element in elements {
            if let Key::Single(ValueRange::One(value)) = &element.key
                && is_in
            {
                self.protocols.learn(*selector, value);
            }
        }
        let kind = selector.kind();
        self.findings
            .judge_anonymous(elements, kind, false, self.range)
    }

    /// Judges how a mask of TCP flags is written: behind `/`, or as `& MASK == FLAGS`.
    fn judge_mask(&mut self) {
        let mut is_mask = self.tokens.is(self.at, b"&");
        let mut is_open = false;
        for index in self.at..self.range.end {
            match self.tokens.bytes(index) {
                b"/" => return self.judge_slash(index),
                b"(" => is_open = true,
                b")" => is_open = false,
                b"==" | b"!=" => is_mask = false,
                b"," if is_open || is_mask => {
                    let warning = "nft refuses a comma here: write `|`";
                    return self.findings.add(index, warning);
                }
                b"|" if is_mask && !is_open => return self.findings.add(
                    self.at,
                    "nft takes the first flag alone for the mask: write parentheses round all of them",
                ),
                _ => {}
            }
        }
    }

    /// Judges the mask behind a slash.
    fn judge_slash(&mut self, slash: usize) {
        let mask = self.tokens.bytes(slash.saturating_add(1));
        let warning = match (mask, self.tokens.bytes(slash.saturating_add(2))) {
            (_, b",") => return,
            // The flags have 8 bits.
            ([b'0'..=b'8'], next) if !matches!(next, b"|") => {
                "nft takes the number behind `/` for the length of a prefix: write `tcp flags & MASK == FLAGS`"
            }
            _ => {
                "nft wants two flags or more behind `/`, with commas: write `tcp flags & MASK == FLAGS`"
            }
        };
        self.findings.add(slash, warning);
    }

    fn judge_nat(&mut self, nat: &Nat) -> Result<(), AllocError> {
        let place = self.at;
        let named = self.tokens.is(place.saturating_add(1), b"ip");
        if matches!(nat, Nat::Source(_) | Nat::Destination(_))
            && let Some(warning) = self.protocols.judge_nat(named)
        {
            self.findings.add(place, warning);
        }
        let has_ports = matches!(
            nat,
            Nat::Source(SourceTarget::Address(_, Some(_)))
                | Nat::Destination(DestinationTarget::Address(_, Some(_)))
                | Nat::Masquerade(Some(_))
                | Nat::Redirect(Some(_))
        );
        if has_ports && !self.protocols.has_transport() {
            let warning =
                "nft wants a match of the protocol before ports, as `meta l4proto { tcp, udp }`";
            self.findings.add(place, warning);
        }
        match nat {
            Nat::Source(SourceTarget::MapLookup(lookup))
            | Nat::Destination(DestinationTarget::MapLookup(lookup)) => {
                // Behind `to` or `ip to`.
                self.at = place.saturating_add(if named { 3 } else { 2 });
                self.judge_map(lookup.selector, &lookup.map)
            }
            _ => Ok(()),
        }
    }
}
