//! A receiver of DVB subtitles: from transport packets to the pictures that are shown.
#![tactic(auto)]

mod asked;
mod last_picture;
mod picture;
mod receiver;
mod screen;
mod view;

pub use asked::AskedReceiver;
pub use receiver::Receiver;
pub use set_receiver::Arrival;
pub use view::View;
