//! The matches of a line, one after the other.

use crate::lists::{begin_choice, end_choice, put_between, put_joined};
use crate::numbers::{meet, others, put_ranges};
use crate::protocols::{Header, header_of, protocols};
use crate::words::{FLAGS, Form, Notation, STATES};
use box_file::{IfIndex, Plant};
use fact_sets::FactField;
use set_lines::{Line, Numbers};
use std::alloc::{AllocError, Global};

/// How many protocols there are.
const PROTOCOL_COUNT: usize = 256;

/// The matches of a line that are written so far.
#[derive(Drop)]
pub(crate) struct Writer<'a> {
    alloc: Global,
    line: &'a Line,
    network: &'a Plant,
    header: Header,
    protocols: Vec<Numbers>,
    pub(crate) text: Vec<u8>,
}

/// The numbers of a field, `None` where it may have any.
fn numbers_of(line: &Line, field: FactField) -> Option<&[Numbers]> {
    let place = field.place();
    for numbers in &line.fields {
        if numbers.field.first == place.first {
            return Some(&numbers.ranges);
        }
    }
    None
}

impl<'a> Writer<'a> {
    /// Nothing of the line yet.
    pub(crate) fn new(
        alloc: Global,
        line: &'a Line,
        network: &'a Plant,
    ) -> Result<Writer<'a>, AllocError> {
        let protocols = match numbers_of(line, FactField::Protocol) {
            Some(numbers) => protocols(alloc, numbers)?,
            None => Vec::new(alloc),
        };
        Ok(Writer {
            alloc,
            line,
            network,
            header: header_of(&protocols),
            protocols,
            text: Vec::new(alloc),
        })
    }

    /// Writes a field's match, if the line has the field.
    pub(crate) fn put(&mut self, field: FactField, form: Form) -> Result<(), AllocError> {
        let Some(numbers) = numbers_of(self.line, field) else {
            return Ok(());
        };
        match form {
            Form::Interfaces(selector, first) => self.put_interfaces(selector, first, numbers),
            Form::State => self.put_states(numbers),
            Form::Either(zero, one) => self.put_either(zero, one, numbers),
            Form::Port(port) => self.put_ports(port, numbers),
            Form::Protocol => self.put_protocols(),
            Form::Numbers(selector, notation, least, greatest) => {
                self.put_numbers(selector, notation, least, greatest, numbers)
            }
        }
    }

    /// Begins a match: a blank behind the one before, and these words.
    fn begin(&mut self, words: &[u8]) -> Result<(), AllocError> {
        if !self.text.is_empty() {
            self.text.push(b' ')?;
        }
        self.text.extend_from_slice(words)
    }

    /// Writes ranges, or those from the least to the greatest number that aren't among them where these
    /// are fewer; nothing where they are all of these.
    fn put_numbers(
        &mut self,
        selector: &[u8],
        notation: Notation,
        least: u32,
        greatest: u32,
        numbers: &[Numbers],
    ) -> Result<(), AllocError> {
        let others = others(self.alloc, numbers, least, greatest)?;
        if others.is_empty() {
            return Ok(());
        }
        self.begin(selector)?;
        if others.len() < numbers.len() {
            self.text.extend_from_slice(b" !=")?;
            return put_ranges(&mut self.text, notation, &others);
        }
        put_ranges(&mut self.text, notation, numbers)
    }

    /// Writes the names of interfaces, of which the first has this number; nothing where all of the
    /// box are among them or none.
    fn put_interfaces(
        &mut self,
        selector: &[u8],
        first: u32,
        numbers: &[Numbers],
    ) -> Result<(), AllocError> {
        let indexes = self.network.indexes(self.alloc)?;
        let shown = shown_of(self.alloc, &indexes, first, numbers)?;
        if shown.is_empty() || shows_all(&indexes, first, numbers) {
            return Ok(());
        }
        self.begin(selector)?;
        self.put_names(&shown)
    }

    /// Writes the names of interfaces, one as it is, more of them in braces.
    fn put_names(&mut self, indexes: &[IfIndex]) -> Result<(), AllocError> {
        begin_choice(&mut self.text, indexes.len())?;
        for (place, index) in indexes.iter().enumerate() {
            put_between(&mut self.text, place, b", ")?;
            self.text.push(b'"')?;
            self.text
                .extend_from_slice(self.network.name(*index).unwrap_or(b""))?;
            self.text.push(b'"')?;
        }
        end_choice(&mut self.text, indexes.len())
    }

    /// Writes the states of connection tracking; nothing where all are among them or none.
    fn put_states(&mut self, numbers: &[Numbers]) -> Result<(), AllocError> {
        let words = states_of(self.alloc, numbers)?;
        if words.is_empty() || words.len() == STATES.len() {
            return Ok(());
        }
        self.begin(b"ct state ")?;
        put_joined(&mut self.text, &words, b",")
    }

    /// Writes what stands for the bit; nothing where it may be either.
    fn put_either(
        &mut self,
        zero: &[u8],
        one: &[u8],
        numbers: &[Numbers],
    ) -> Result<(), AllocError> {
        match (meet(numbers, 0, 0), meet(numbers, 1, 1)) {
            (true, false) => self.begin(zero),
            (false, true) => self.begin(one),
            _ => Ok(()),
        }
    }

    /// Whether the field is written.
    fn has(&self, field: FactField) -> bool {
        numbers_of(self.line, field).is_some()
    }

    fn has_ports(&self) -> bool {
        self.has(FactField::SourcePort) || self.has(FactField::DestinationPort)
    }

    fn has_flags(&self) -> bool {
        for (flag, _) in &FLAGS {
            if self.has(*flag) {
                return true;
            }
        }
        false
    }

    /// Whether a later match says the protocols.
    fn says_protocols(&self) -> bool {
        match self.header {
            Header::Tcp => self.has_ports() || self.has_flags(),
            Header::Udp => self.has_ports(),
            Header::Icmp => self.has(FactField::IcmpType),
            Header::Ports | Header::Any => false,
        }
    }

    /// Writes the protocols, where no later match says them, or those that aren't among them where
    /// these are fewer.
    fn put_protocols(&mut self) -> Result<(), AllocError> {
        let listed = self.protocols.len();
        if listed == PROTOCOL_COUNT || self.says_protocols() {
            return Ok(());
        }
        self.begin(if self.has_ports() {
            b"meta l4proto"
        } else {
            b"ip protocol"
        })?;
        if listed <= PROTOCOL_COUNT / 2 {
            return put_ranges(&mut self.text, Notation::Protocol, &self.protocols);
        }
        self.text.extend_from_slice(b" !=")?;
        let others = others(self.alloc, &self.protocols, 0, 255)?;
        put_ranges(&mut self.text, Notation::Protocol, &others)
    }

    /// Writes ports, with the header that has them.
    fn put_ports(&mut self, port: &[u8], numbers: &[Numbers]) -> Result<(), AllocError> {
        let header: &[u8] = match self.header {
            Header::Tcp => b"tcp ",
            Header::Udp => b"udp ",
            Header::Ports | Header::Icmp | Header::Any => b"th ",
        };
        let selector = [header, port].concat(self.alloc)?;
        self.put_numbers(&selector, Notation::Number, 0, 65_535, numbers)
    }

    /// Writes the flags of TCP that the line has: among these, those that are set.
    pub(crate) fn put_flags(&mut self) -> Result<(), AllocError> {
        let among = flags_of(self.alloc, self.line, false)?;
        if among.is_empty() {
            return Ok(());
        }
        self.begin(b"tcp flags & ")?;
        put_flag_group(&mut self.text, &among)?;
        self.text.extend_from_slice(b" == ")?;
        let set = flags_of(self.alloc, self.line, true)?;
        put_flag_group(&mut self.text, &set)
    }
}

/// The interfaces of these indexes whose numbers, counted from the first one on, are listed, each
/// once.
fn shown_of(
    alloc: Global,
    indexes: &[IfIndex],
    first: u32,
    numbers: &[Numbers],
) -> Result<Vec<IfIndex>, AllocError> {
    let mut shown = Vec::new(alloc);
    let mut number = first;
    for index in indexes {
        if meet(numbers, number, number) && !shown.contains(index) {
            shown.push(*index)?;
        }
        number = number.saturating_add(1);
    }
    Ok(shown)
}

/// Whether all are.
fn shows_all(indexes: &[IfIndex], first: u32, numbers: &[Numbers]) -> bool {
    let mut number = first;
    for _ in indexes {
        if !meet(numbers, number, number) {
            return false;
        }
        number = number.saturating_add(1);
    }
    true
}

/// The words of the states that are among these numbers.
fn states_of(alloc: Global, numbers: &[Numbers]) -> Result<Vec<&'static [u8]>, AllocError> {
    let mut words = Vec::new(alloc);
    for state in &STATES {
        if meet(numbers, state.from, state.to) {
            words.push(state.word)?;
        }
    }
    Ok(words)
}

/// The words of the flags of TCP that a line has, or of those of them that are set.
fn flags_of(alloc: Global, line: &Line, only_set: bool) -> Result<Vec<&'static [u8]>, AllocError> {
    let mut words = Vec::new(alloc);
    for (flag, word) in &FLAGS {
        if let Some(numbers) = numbers_of(line, *flag) {
            if !only_set || meet(numbers, 1, 1) {
                words.push(*word)?;
            }
        }
    }
    Ok(words)
}

/// Appends flags: 0 where there are none, more than one in parentheses.
fn put_flag_group(text: &mut Vec<u8>, words: &[&[u8]]) -> Result<(), AllocError> {
    match words {
        [] => text.push(b'0')?,
        [word] => text.extend_from_slice(word)?,
        _ => {
            text.push(b'(')?;
            put_joined(text, words, b" | ")?;
            text.push(b')')?;
        }
    }
    Ok(())
}
