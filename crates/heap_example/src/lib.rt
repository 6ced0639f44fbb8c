//! How a program embeds layers of the heap: `CALLING.md` beside this folder tells what each wants.
#![tactic(auto)]

mod buffers;
mod small;
#[cfg(test)]
mod tests;

pub use buffers::{buffer, give_back};
pub use small::{drop_small, small_block};
