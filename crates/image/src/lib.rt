//! A book as a block of bytes: its reader, and the pricing of it.

#![tactic(auto)]

mod answer;
mod entries;
mod export;
mod image;
mod laws;
mod limits;
mod words;

pub use entries::{Entries, Levels};
pub use export::{price_image, snap_price_image};
pub use image::BookImage;
pub use laws::image_laws;
pub use limits::{ANSWER, MOST_ENTRIES};
