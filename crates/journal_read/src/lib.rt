//! How the text of a journal is read: what a journal is, line by line, and a reader for each kind of
//! line. A reader takes what a line seems to say, writes that again, and compares.
#![tactic(auto)]

mod answers;
mod choices;
mod keys;
mod lawful;
mod numbers;
mod options;
mod single;
mod workers;

pub use answers::read_answer;
pub use keys::read_key;
pub use options::read_options;
pub use single::{is_end, is_head, read_missed};
pub use workers::{RunLine, WorkerLine, read_run, read_worker};
