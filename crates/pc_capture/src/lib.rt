//! Parts on the shelf (the list of checkpoint files), shared by reference count; one is made of the entries captured
//! for a point.
#![tactic(auto)]

mod shared_part;

pub use shared_part::SharedPart;
