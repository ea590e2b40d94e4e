//! The tables, chains, sets and maps of a ruleset, each beside its tokens.
use crate::findings::{Findings, Warning};
use nft_tree::{Chain, Item, Ruleset, Table};
use node_spans::{TokenRange, items, rules, tables};
use std::alloc::AllocError;

const SECOND_COMMENT: Warning = "nft takes one comment here, and refuses a second";

impl Findings<'_> {
    /// Adds the warnings of the ruleset that all of the tokens spell.
    pub(crate) fn judge(&mut self, ruleset: &Ruleset) -> Result<(), AllocError> {
        self.judge_tokens();
        let places = tables(self.alloc, self.tokens.all)?.unwrap_or(Vec::new(self.alloc));
        for (table, place) in ruleset.tables.iter().zip(&places) {
            self.judge_table(table, *place)?;
        }
        self.judge_order()
    }

    fn judge_table(&mut self, table: &Table, range: TokenRange) -> Result<(), AllocError> {
        let places = items(self.alloc, self.tokens.all, range)?.unwrap_or(Vec::new(self.alloc));
        let mut has_comment = false;
        for (item, place) in table.items.iter().zip(&places) {
            match item {
                Item::Comment(_) if has_comment => self.add(place.first, SECOND_COMMENT),
                Item::Comment(_) => has_comment = true,
                Item::Chain(chain) => self.judge_chain(table, chain, *place)?,
                Item::Set(set) => self.judge_set(set, *place)?,
                Item::Map(map) => self.judge_map(map, *place)?,
            }
        }
        self.judge_braces(range, false);
        Ok(())
    }

    fn judge_chain(
        &mut self,
        table: &Table,
        chain: &Chain,
        range: TokenRange,
    ) -> Result<(), AllocError> {
        self.judge_head(chain, range)?;
        let places = rules(self.alloc, self.tokens.all, range)?.unwrap_or(Vec::new(self.alloc));
        let rules_start = match places.first() {
            Some(rule) => rule.first,
            None => range.end,
        };
        self.judge_notes(range, rules_start);
        for (rule, place) in chain.rules.iter().zip(&places) {
            self.judge_rule(table, chain, rule, *place)?;
        }
        self.judge_braces(range, true);
        Ok(())
    }

    /// Adds the warnings about comments of a chain that has one already. They stand before its
    /// rules.
    fn judge_notes(&mut self, chain: TokenRange, rules_start: usize) {
        let mut has_comment = false;
        for index in self.tokens.inside(chain).start..rules_start {
            let is_comment = self.tokens.is(index, b"comment");
            if is_comment && has_comment {
                self.add(index, SECOND_COMMENT);
            }
            has_comment = has_comment || is_comment;
        }
    }
}
