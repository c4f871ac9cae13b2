//! The command `audit`: what the cells of several sites show together.
//!
//! ```
//! Task::Audit(task) => hinted(rt, task.words, print_audit(rt, &task)),
//! ```
#![tactic(auto)]

mod arguments;
mod audit_speaker;
mod cell_defect;
mod cell_files;
mod cell_reading;
mod cell_state;
mod cell_words;
mod cells_audit;
mod command;
mod conflict_cells;
mod counts;
mod disk_cells;
mod evidence;
mod finding_lines;
mod foreign_cell;
mod gathered;
mod in_use_line;
mod last_records;
mod law;
mod mark;
mod standing;
mod sync_rule;
mod version;

pub use arguments::{AuditTask, audit_command, audit_task};
pub use cell_files::CellFiles;
pub use cells_audit::audit_on;
pub use command::{audit_task_on, print_audit};
pub use law::{conflicts_are_said, counted_records_outlive_a_crash};
