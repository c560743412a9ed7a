//! Images: a configuration with its input and output pins, and their bytes.
//!
//! An image has one spelling: what is read is the spelling of the image that is given, and of no other (`found`); bytes are
//! refused at the first faulty field, and are then the spelling of no image (`refused`). `touches_none` is true exactly where the
//! closed crosspoints, the switched-on tables and the pins are free. An image on free parts alone reads the same rows under any
//! two fault sets that the list covers (`free_images_run_alike`).
#![tactic(auto)]

mod check;
mod field;
mod image;
mod kind;
mod laws;
mod read;
mod touch;
mod write;

pub use image::Image;
pub use kind::{ImageFault, ImageKind};
pub use laws::free_images_run_alike;
pub use read::read_image;
pub use touch::touches_none;
pub use write::write_image;
