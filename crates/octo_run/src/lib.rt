//! A run of octo: from words and the bytes of a capture to a report and a journal, or to a report of
//! source networks or of epochs, or from a journal and a capture to whether it is lawful, or to one
//! line that says why there is none.
#![tactic(auto)]

mod audit;
mod epochs;
mod faults;
mod frame;
mod laws;
mod lines;
mod prefix;
mod results;
mod rounds;
mod run;
mod task;
mod threads;

pub use audit::octo_audit;
pub use capture_load::{Capture, GenSource, LoadStop, Refusal, load_capture};
pub use epochs::{octo_epochs_rounds, octo_epochs_threads};
pub use faults::Fault;
pub use laws::{one_audit, one_epochs_text, one_prefix_text, one_report, one_text};
pub use lines::tell;
pub use prefix::octo_prefix;
pub use rounds::octo_rounds;
pub use run::octo;
pub use thread_engine::{Gate, OpenGate};
pub use threads::octo_threads;
pub use words::{Command, WordStop, read_words};
