//! A line as matches.

use crate::words::{FIRST, LAST};
use crate::writer::Writer;
use box_file::Plant;
use fact_sets::FactField;
use packet_sets::Field;
use set_lines::Line;
use std::alloc::{AllocError, Global};

/// The fields by which a line tells packets, in the order of their bits.
///
/// # Errors
///
/// If an allocation fails.
pub fn line_fields(alloc: Global) -> Result<Vec<Field>, AllocError> {
    let mut fields = Vec::new(alloc);
    for field in &FactField::ALL {
        fields.push(field.place())?;
    }
    Ok(fields)
}

/// Appends the matches of a line by those fields, on this box, as they stand in a rule: of the
/// packets that can come to a chain they are to take those of the line. It is `any packet` where the
/// line has none.
///
/// # Errors
///
/// If an allocation fails.
pub fn put_line(
    text: &mut Vec<u8>,
    alloc: Global,
    line: &Line,
    network: &Plant,
) -> Result<(), AllocError> {
    let mut matches = Writer::new(alloc, line, network)?;
    put_matches(&mut matches)?;
    text.extend_from_slice(if matches.text.is_empty() {
        b"any packet"
    } else {
        &matches.text
    })
}

/// Writes the matches of a line.
fn put_matches(matches: &mut Writer<'_>) -> Result<(), AllocError> {
    for (field, form) in &FIRST {
        matches.put(*field, *form)?;
    }
    matches.put_flags()?;
    for (field, form) in &LAST {
        matches.put(*field, *form)?;
    }
    Ok(())
}
