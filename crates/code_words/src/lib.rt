//! The codes that the program prints, with what each says and what to do about it. The words of
//! `--words`, `help codes` and docs/CODES.md come from this one table. And the words that stand
//! around them: what is wrong with a line of a schedule or of a members file, what was wanted, and
//! what was found; and what the lines of `site` and `send` say, for their `--words`, with the names
//! of the files, the port and the folder that they are about.
//!
//! ```
//! match meaning_of_line(rt.alloc(), line)? {
//!     Some(meaning) => meaning.push(text),
//!     None => Ok(()),
//! }
//! ```
#![tactic(auto)]

mod asked;
mod asked_speaker;
mod bag_codes;
mod cell_codes;
mod cell_reason;
mod code_of_line;
mod deposited;
mod federation_line;
mod file_kind;
mod file_reason;
mod file_start;
mod form;
mod key_line;
mod key_reason;
mod kind;
mod line_kind;
mod line_name;
mod line_reason;
mod line_speaker;
mod meaning;
mod members_line;
mod members_reason;
mod name;
mod of_line;
mod other_codes;
mod path_reason;
mod place_pair;
mod place_word;
mod refusal_codes;
mod row;
mod schedule_codes;
mod schedule_command;
mod schedule_line;
mod spoken_lines;
mod table;
mod text_lines;
mod utf16;
mod word_text;

pub use asked::Asked;
pub use asked_speaker::AskedSpeaker;
pub use bag_codes::{INVALID, UNREAD, invalid, unread};
pub use cell_codes::{OPEN, STOPPED};
pub use cell_reason::NO_CELL;
pub use deposited::push_deposited;
pub use file_kind::{FileKind, kind_at, kind_of};
pub use file_reason::push_error;
pub use file_start::{CELL_START, MARK, SYNCED, first_bytes};
pub use line_name::{is_key_line, push_line_name};
pub use line_speaker::{LineSpeaker, say_text};
pub use meaning::Meaning;
pub use name::{push_name, push_path, push_quoted};
pub use of_line::meaning_of_line;
pub use other_codes::OTHERS;
pub use path_reason::{is_link, path_fault};
pub use place_pair::push_pair_words;
pub use place_word::push_place_words;
pub use refusal_codes::REFUSED;
pub use schedule_codes::SKIPPED;
pub use schedule_line::push_schedule_words;
pub use spoken_lines::SpokenLines;
pub use table::push_table;
pub use word_text::push_found;
