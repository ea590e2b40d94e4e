//! The packets of sets, line by line.
ghost use Rattle.std.specs.Prelude.{All, OnOk};
ghost use Rattle.packet_sets.specs.Sets.{IsSet};
ghost use Rattle.set_texts.specs.Indented.{AreIndented};

use crate::line::{line_fields, put_line};
use box_file::Plant;
use itoa::Buffer;
use packet_sets::{Diagrams, Field, PacketSet};
use set_lines::{Line, lines};
use std::alloc::{AllocError, Global};

/// What it takes to tell the packets of sets on a box.
#[derive(Drop)]
pub struct SetWords<'a> {
    network: &'a Plant,
    fields: Vec<Field>,
}

impl<'a> SetWords<'a> {
    /// For the sets of a box.
    ///
    /// # Errors
    /// `AllocError` for want of memory.
    pub fn new(alloc: Global, network: &'a Plant) -> Result<SetWords<'a>, AllocError> {
        Ok(SetWords {
            network,
            fields: line_fields(alloc)?,
        })
    }
}

impl SetWords<'_> {
    /// Appends the packets of these sets, in at most so many lines, each behind two blanks and this
    /// lead; what takes more lines is told as `at least N more`.
    ///
    /// # Errors
    /// `AllocError` for want of memory.
    pub fn put_sets(
        &self,
        alloc: Global,
        text: &mut Vec<u8>,
        diagrams: &Diagrams,
        lead: &[u8],
        sets: &[PacketSet],
        most: usize,
    ) -> Result<(), AllocError>
        requires sets { All (IsSet diagrams.now) sets.now }
        requires before { AreIndented text.old.items }
        ensures { OnOk result (AreIndented text.new.items) }
    {
        let mut left = most;
        let mut more = 0u64;
        for set in sets {
            let found = lines(alloc, diagrams, *set, &self.fields, left)?;
            left = left.saturating_sub(found.lines.len());
            more = more.saturating_add(found.more);
            self.put_lines(alloc, text, lead, &found.lines)?;
        }
        if more > 0 {
            put_below(text, lead, &more_words(alloc, more)?)?;
        }
        Ok(())
    }

    fn put_lines(
        &self,
        alloc: Global,
        text: &mut Vec<u8>,
        lead: &[u8],
        lines: &[Line],
    ) -> Result<(), AllocError>
        requires { AreIndented text.old.items }
        ensures { OnOk result (AreIndented text.new.items) }
    {
        for line in lines {
            let mut words = Vec::new(alloc);
            put_line(&mut words, alloc, line, self.network)?;
            put_below(text, lead, &words)?;
        }
        Ok(())
    }
}

/// `at least N more`.
fn more_words(alloc: Global, more: u64) -> Result<Vec<u8>, AllocError> {
    let mut words = b"at least ".to_vec(alloc)?;
    words.extend_from_slice(Buffer::new().format(more).as_bytes())?;
    words.extend_from_slice(b" more")?;
    Ok(words)
}

/// Appends a line of a set below another line.
fn put_below(text: &mut Vec<u8>, lead: &[u8], words: &[u8]) -> Result<(), AllocError>
    requires { AreIndented text.old.items }
    ensures { OnOk result (AreIndented text.new.items) }
{
    text.extend_from_slice(b"  ")?;
    text.extend_from_slice(lead)?;
    text.extend_from_slice(words)?;
    text.push(b'\n')?;
    Ok(())
}
