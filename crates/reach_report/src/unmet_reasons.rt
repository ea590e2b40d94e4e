//! Says in sentences why rules can't be met, and where they are.
use crate::told::ToldRule;
use fault_places::{Position, position_at};
use nft_differences::rule_offsets;
use nft_tree::{Chain, Ruleset};
use rule_reach::Unmet;
use std::alloc::{AllocError, Global};

/// The most rules of which it is said.
const MOST: usize = 100;

/// How many of the rules that take a rule's packets are named.
const MOST_TAKERS: usize = 8;

/// Why a rule can't be met, and where it is, where that is found.
#[derive(Drop)]
pub(crate) struct UnmetReason {
    place: Option<Position>,
    sentence: String,
}

/// Why rules can't be met: of the first hundred, and how many more there are.
#[derive(Drop)]
pub struct UnmetReasons {
    first: Vec<UnmetReason>,
    more: usize,
}

impl UnmetReasons {
    /// The reasons of the rules of a ruleset, which its text spells.
    ///
    /// # Errors
    /// `AllocError` for want of memory.
    pub(crate) fn of(
        alloc: Global,
        text: &[u8],
        rules: &Ruleset,
        told: &[ToldRule<'_>],
    ) -> Result<UnmetReasons, AllocError> {
        let mut reasons = UnmetReasons {
            first: Vec::new(alloc),
            more: 0,
        };
        let offsets = rule_offsets(alloc, text)?;
        for (index, rule) in told.iter().enumerate() {
            if let Some(unmet) = rule.unmet {
                let place = place_of(text, &offsets, index);
                reasons.add(place, sentence(alloc, rules, unmet, rule.comes)?)?;
            }
        }
        Ok(reasons)
    }

    fn add(&mut self, place: Option<Position>, sentence: String) -> Result<(), AllocError> {
        if self.first.len() == MOST {
            self.more = self.more.saturating_add(1);
            return Ok(());
        }
        self.first.push(UnmetReason { place, sentence })?;
        Ok(())
    }

    /// The lines that say it, with the path of the ruleset.
    ///
    /// # Errors
    /// `AllocError` for want of memory.
    pub fn lines(&self, alloc: Global, path: &str) -> Result<String, AllocError> {
        let mut lines = String::new(alloc);
        for reason in &self.first {
            lines.push_str(path)?;
            if let Some(place) = reason.place {
                write!(lines, ":{}:{}", place.line, place.column)?;
            }
            writeln!(lines, ": {}", reason.sentence.as_str())?;
        }
        if self.more > 0 {
            writeln!(lines, "{path}: {} more rules can't be met", self.more)?;
        }
        Ok(lines)
    }
}

/// Where the rule of an index is, in the order of the text.
fn place_of(text: &[u8], offsets: &[usize], index: usize) -> Option<Position> {
    let offset = *offsets.get(index)?;
    if offset <= text.len() {
        Some(position_at(text, offset))
    } else {
        None
    }
}

/// Why a rule can't be met.
fn sentence(
    alloc: Global,
    rules: &Ruleset,
    unmet: &Unmet,
    comes: bool,
) -> Result<String, AllocError> {
    let mut line = String::new(alloc);
    let name = match rules.chain(unmet.rule) {
        Some(chain) => name_of(chain),
        None => "",
    };
    write!(line, "rule {} of chain {name}: ", unmet.rule.rule)?;
    put_reason(&mut line, unmet, comes)?;
    Ok(line)
}

fn name_of(chain: &Chain) -> &str {
    str::from_utf8(&chain.name).unwrap_or("")
}

fn put_reason(line: &mut String, unmet: &Unmet, comes: bool) -> Result<(), AllocError> {
    match (unmet.takers.len(), unmet.matches_some) {
        (0, true) => line.push_str("earlier rules change the packets that it would match"),
        (0, false) if !comes => line.push_str("no packet comes to its chain"),
        (0, false) => line.push_str("no packet that comes to its chain fits its matches"),
        (1, _) => {
            line.push_str("rule ")?;
            put_numbers(line, &unmet.takers)?;
            line.push_str(" takes all packets that it would match")
        }
        _ => {
            line.push_str("rules ")?;
            put_numbers(line, &unmet.takers)?;
            line.push_str(" take all packets that it would match")
        }
    }
}

/// Writes numbers, with `and` before the last; of more than eight the first, and that there are
/// others.
fn put_numbers(line: &mut String, numbers: &[u32]) -> Result<(), AllocError> {
    for (index, number) in numbers.iter().enumerate() {
        if index == MOST_TAKERS {
            return line.push_str(" and others");
        }
        let behind = numbers.len() - index;
        let joint = match (index, behind) {
            (0, _) => "",
            (_, 1) => " and ",
            _ => ", ",
        };
        write!(line, "{joint}{number}")?;
    }
    Ok(())
}
