#![tactic(auto)]

mod faults;
mod file;
mod file_checks;
mod header;
mod laws;
mod network_checks;
mod numbered;
mod parts;
mod record_checks;
mod records;

pub use faults::{FileFault, Layer, NetworkFault, RecordFault};
pub use file::NetworkFile;
pub use laws::meaning_laws;
pub use numbered::{HasNumber, Numbered, find, first_not_rising};
