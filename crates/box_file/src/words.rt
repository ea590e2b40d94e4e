//! Splits a text into lines, and a line into words.
ghost use Rattle.std.specs.Prelude.{◌≡◌};
ghost use Rattle.std.specs.List.{position_or_len};
ghost use Rattle.std.specs.Option.{option_map};
ghost use Rattle.box_file.specs.Text.{words_of};
ghost use Rattle.box_file.specs.Box.{same_text};
ghost use Rattle.box_file.specs.steps.Reading.{cut, first_line, begins_word, ends_word, uncons};

/// The bytes before the first such byte, and those after it.
pub fn cut(bytes: &[u8], at: u8) -> Option<(&[u8], &[u8])>
    ensures { option_map (λ x. (x.0.now, x.1.now)) result ≡ cut at bytes.now }
{
    let index = bytes.iter().position(|byte| *byte == at)?;
    Some((&bytes[..index], &bytes[index + 1..]))
}

/// The first line of a text, and the text after it.
pub fn first_line(text: &[u8]) -> (&[u8], &[u8])
    ensures { (result.0.now, result.1.now) ≡ first_line text.now }
{
    match cut(text, b'\n') {
        Some(parts) => parts,
        None => (text, &[]),
    }
}

fn begins_word(byte: u8) -> bool
    ensures { result ≡ begins_word byte }
{
    byte != b' ' && byte != b'\t'
}

fn ends_word(byte: u8) -> bool
    ensures { result ≡ ends_word byte }
{
    byte == b' ' || byte == b'\t' || byte == b'#'
}

/// How many blanks the line begins with.
fn blanks(line: &[u8]) -> usize
    ensures { result ≡ position_or_len begins_word line.now }
{
    line.iter()
        .position(|byte| begins_word(*byte))
        .unwrap_or(line.len())
}

/// The length of the word that the line begins with.
fn word_length(line: &[u8]) -> usize
    ensures { result ≡ position_or_len ends_word line.now }
{
    line.iter()
        .position(|byte| ends_word(*byte))
        .unwrap_or(line.len())
}

/// The first word of a line, and the rest of the line.
#[tactic(auto, using(crate::proofs::WordLaws::place_within))]
pub fn word(line: &[u8]) -> Option<(&[u8], &[u8])>
    ensures { option_map (λ x. (x.0.now, words_of x.1.now)) result ≡ uncons (words_of line.now) }
{
    let line = &line[blanks(line)..];
    let length = word_length(line);
    if length == 0 {
        return None;
    }
    Some(line.split_at(length))
}

/// Whether the two are the same bytes.
#[tactic(auto, using(crate::proofs::NumberLaws::text_tests))]
pub fn same_text(text: &[u8], other: &[u8]) -> bool
    ensures { result ≡ same_text text.now other.now }
{
    text == other
}
