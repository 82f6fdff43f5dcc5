//! Fields of a message at a place among bytes, read and written.
//!
//! A take reads the field that begins at a place, without a copy and without memory, and answers `Short`, with the number of the bytes
//! as its place, where the field doesn't end inside the bytes. A put appends the field. Numbers stand high byte first. What a field at a
//! place is stands in `specs/Fields`, and `fields_law` says that a take gives back what a put wrote. [`CodeFault`] also has the faults
//! that a reader of whole messages answers.
#![tactic(auto)]

mod faults;
mod laws;
mod puts;
mod takes;

pub use faults::CodeFault;
pub use laws::fields_law;
pub use puts::{put_run, put_u8, put_u16, put_u32, put_u64};
pub use std::alloc::AllocError as NoMemory;
pub use takes::{take_run, take_u8, take_u16, take_u32, take_u64};
