//! States that one thread folds messages into, and a published pair, by which others read them.
#![tactic(auto)]

mod copies;
mod history;
mod pair;
mod published;
mod rule;
mod settling;
mod told;
mod view;
mod writer;

pub use live_state::{Layout, State, state_shows_its_messages};
pub use pair::{Views, make_views};
pub use settling::settle;
pub use told::Told;
pub use view::View;
pub use writer::ViewWriter;
