//! What a live session reads and writes: keys and reports, and its status.
//!
//! Reports stand among the keys that a session reads: the byte 255, one line of JSON, and a newline.
//! A front tells by them what others made, what was pasted or replaced, and the size of its screen.
//! `Reader` takes bytes one after another, and says which of them are keys, and when a report is
//! whole. `read_report` says what its line means. `status_line` writes what a front needs to know of
//! a session after each block of keys: an object whose members stand in rising order, with no
//! blanks, and a newline. There is no editor in sight. The crate stands on rga_ops and rga_lines for
//! operations, on mg_plain for characters, on mg_screen for positions, and on serde_json and json
//! for values and their spelling.
//!
//! The layer above may rest on two functions of `specs/` for reports: `report_at` says what each
//! line means or is at fault by, and `step` what each byte leads to and leaves. It may rest on the
//! laws, too: what is written as keys and reports is read as these, in any order, and a line of a
//! log says the same as a report. Of a status it may rest on the bytes, which `status_text` of
//! `specs/StatusText.antt` names, and on the line being read as that object. What a status says is
//! gathered by the session above.
#![tactic(auto)]

mod arrays;
pub mod laws;
mod lines;
mod members;
mod reader;
mod reading;
mod report;
mod status;
mod status_values;
mod values;

pub use lines::status_line;
pub use reader::{Event, REPORT, Reader};
pub use reading::read_report;
pub use report::{Places, Report};
pub use rga_lines::{LineFault, MAX_LINE};
pub use status::{
    Asking, BufferStatus, PlaceStatus, PointStatus, PromptStatus, RefusedReport, Saved, Status,
    WindowStatus,
};
