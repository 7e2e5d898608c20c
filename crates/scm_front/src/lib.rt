//! A layer over a live session, which hears the terminal first: its keys lead to events of the
//! session beneath.
//!
//! A [`Front`] is a [`LiveSession`](scm_record::LiveSession) with state of its own. Whatever is
//! typed, the session beneath goes through calls of a live session ([`laws::fronts_are_runs`]).
#![tactic(auto)]

mod accepted;
mod actions;
mod asking;
mod begun;
mod clicking;
mod deeds;
mod driving;
mod kept;
pub mod laws;
pub mod layer;
mod logging;
mod marking;
mod passing;
mod presses;
mod recording;
mod scrolling;
mod starting;
mod typed;

pub use accepted::AcceptedState;
pub use actions::{Action, Mode, OwnKey, action_of};
pub use asking::{Query, Typing};
pub use kept::{Kept, Notice};
pub use layer::{Front, FrontEditing, FrontTurn};
pub use logging::{CallLog, LoggedCall, Logging};
pub use scm_front_items::{Place, Way, item_around, item_towards};
pub use starting::Folds;
