//! The format of scripts and of what a run of one writes: the grammar, the devices that give and
//! take bytes, the reader, the maker, and the text of the answers.
//!
//! Proved: what is read is as a script spells it, and there is one script for a text. A fault is
//! the first one, with its line, and `read failed` comes exactly where the source failed. A made
//! script is the one that its numbers determine.
#![tactic(auto)]

mod answer;
mod body;
mod format_laws;
mod given;
mod line;
mod made;
mod reader;
mod script;
mod script_key;
mod sink;
mod source;
mod stage;
mod text;
mod tokens;
mod written_key;

pub use answer::{Answer, Pairs};
pub use format_laws::law_of_scripts;
pub use made::make_script;
pub use reader::read_script;
pub use script::{Command, Keys, Script, ScriptFault, Setting, Version, What, Work};
pub use sink::{IntoWrite, Sink, write_all};
pub use source::{Failed, FromRead, Source};
pub use text::text_of;
pub use tokens::number_of;
pub use written_key::WrittenKey;
