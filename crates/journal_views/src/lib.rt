//! What journals look like: pictures of them, the state of the queues after their entries as text
//! or as JSON, and pages for a browser, each in one file.
#![tactic(auto)]

mod facts;
mod followed;
mod form;
mod found;
mod label;
mod page;
mod parts;
mod picture;
mod places;
mod prefix;
mod shapes;
mod state;
mod template;
mod view;

pub use form::Form;
pub use page::page_of_text;
pub use picture::{MOST_ENTRIES, picture_of};
pub use prefix::first_entries;
pub use state::state_of;
pub use template::{FRONT, HEAD, TAIL};
pub use view::{Unviewed, Viewed, is_beyond, view_journal};
