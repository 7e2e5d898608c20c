//! What the parts of the selector's screen share: the ids of components, checkboxes and buttons, and drawing
//! that skips what is off the screen.
#![tactic(auto)]

pub use button::Button;
pub use ids::{ComponentId, QuitDialogButtonId};
pub use tristate_box::{TristateBox, TristateIconStyle};

pub mod button;
pub mod clipped_drawing;
pub mod ids;
pub mod joined_width;
pub mod mask_extent;
pub mod overlay_rects;
pub mod placed_button;
pub mod tristate_box;
