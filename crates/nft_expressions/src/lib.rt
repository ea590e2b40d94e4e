//! The parts of rules: selectors, values and ranges, elements of sets and maps, references to both,
//! and verdicts (nft(8), "Expressions", "Sets", "Maps", "Verdict statement").
#![tactic(auto)]

mod any_selector;
mod between_braces;
mod elements;
mod lists;
mod maps;
mod references;
mod selector_words;
mod type_words;
mod values;
mod verdicts;

pub use any_selector::{anysel, selectors};
pub use between_braces::enclosed;
pub use elements::SetElement;
pub use lists::{elems, pairs};
pub use maps::MapPair;
pub use references::{map_ref, set_ref};
pub use selector_words::{Header, Keywords, without_header};
pub use type_words::type_has_word;
pub use values::{comment, range};
pub use verdicts::verdict;
