//! Explains a fault: what its code means, where it is, and what to do.
use crate::shape_advice::{brace_advice, run_around};
use crate::stop::Stop;
use crate::token_advice::token_advice;
use crate::word_advice::put_syntax_advice;
use advice::put_known;
use box_file::BoxFault;
use fault_location::{
    CheckPlace, Fault, Sources, SyntaxPlace, check_place, faulty_line, lexical_place, syntax_place,
};
use fault_places::{heads_around, show, tokens_of};
use nft_lexer::LexFault;
use nft_parser::TextFault;
use rules_advice::{Source, put_advice_on_box, put_advice_on_rules};
use std::alloc::{AllocError, Global};

/// The lines that explain a fault: what its code means, and, if it is one of the ruleset or of the
/// box file and it can be located, where it is and what to do.
///
/// The location is a heuristic, and so is the advice: no contract says which one is reported.
///
/// # Errors
/// `AllocError` for want of memory.
pub fn explained(alloc: Global, fault: Fault, sources: Sources<'_>) -> Result<String, AllocError> {
    let mut lines = String::new(alloc);
    if let Some(found) = explanations::explain(fault.code(alloc)?.as_str()) {
        writeln!(lines, "{}", found.sentence)?;
    }
    Explaining { alloc, sources }.put_place(fault, &mut lines)?;
    Ok(lines)
}

/// What was read.
#[derive(Clone, Copy)]
struct Explaining<'a> {
    alloc: Global,
    sources: Sources<'a>,
}

impl<'a> Explaining<'a> {
    /// Writes where a fault is, and what to do.
    fn put_place(self, fault: Fault, lines: &mut String) -> Result<(), AllocError> {
        match fault {
            Fault::Text(TextFault::Lexical(fault)) => self.put_place_of_token(fault, lines),
            Fault::Text(fault) => self.put_place_in_text(fault, lines),
            Fault::Check(_) => self.put_place_in_rules(lines),
            Fault::Box(fault) => self.put_place_in_box(fault, lines),
            Fault::Capture(_) => Ok(()),
        }
    }

    /// Writes the place at an offset of the ruleset.
    fn show(self, offset: usize, lines: &mut String) -> Result<(), AllocError> {
        let (paths, text) = (self.sources.paths, self.sources.rules);
        show(lines, paths.rules, text, offset)
    }

    /// Writes where what is no token begins, and what to do.
    fn put_place_of_token(self, fault: LexFault, lines: &mut String) -> Result<(), AllocError> {
        let text = self.sources.rules;
        let Some(offset) = lexical_place(text, fault) else {
            return Ok(());
        };
        self.show(offset, lines)?;
        put_known(self.alloc, token_advice(text, fault, offset), lines)?;
        Ok(())
    }

    /// Writes where the grammar doesn't allow a ruleset, and what to do.
    fn put_place_in_text(self, fault: TextFault, lines: &mut String) -> Result<(), AllocError> {
        let (alloc, text) = (self.alloc, self.sources.rules);
        let tokens = tokens_of(alloc, text)?;
        let Some(place) = syntax_place(alloc, &tokens, fault)? else {
            return Ok(());
        };
        let offset = place.offset(&tokens);
        self.show(offset, lines)?;
        match place {
            SyntaxPlace::Brace(brace) => {
                put_known(alloc, brace_advice(text, &tokens, brace), lines)?;
            }
            SyntaxPlace::Part { at, part } => {
                let run = run_around(text, offset);
                put_syntax_advice(&Stop::new(alloc, run, &tokens, part, at)?, lines)?;
            }
        }
        Ok(())
    }

    /// Writes where a fault of a ruleset as a whole is, what is around it, and what to do.
    fn put_place_in_rules(self, lines: &mut String) -> Result<(), AllocError> {
        let (alloc, text, network) = (self.alloc, self.sources.rules, self.sources.network);
        let Some(CheckPlace { span, word }) = check_place(alloc, text, network)? else {
            return Ok(());
        };
        self.show(word.start, lines)?;
        let around = heads_around(alloc, &span.tokens, word.start)?;
        if !around.is_empty() {
            writeln!(lines, "{}", around.as_str())?;
        }
        let source = Source {
            text,
            tokens: &span.tokens,
            tree: &span.tree,
        };
        put_advice_on_rules(alloc, source, network, span.found, word.start, lines)
    }

    /// Writes where a fault of a box file is, and what to do.
    fn put_place_in_box(self, fault: BoxFault, lines: &mut String) -> Result<(), AllocError> {
        let (alloc, text) = (self.alloc, self.sources.network);
        let Some(line) = faulty_line(alloc, text, fault)? else {
            return Ok(());
        };
        show(lines, self.sources.paths.network, text, line.start)?;
        put_advice_on_box(alloc, text, fault, line, lines)
    }
}
