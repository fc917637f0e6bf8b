//! The best layout of a core: which choices to take, at what cost.
#![tactic(auto)]

mod answering;
mod faults;
mod filling;
mod joining;
mod keys;
mod knowing;
mod resolving;
mod settings;
mod walking;
mod walks;

pub use faults::ResolveError;
pub use resolving::{Resolution, resolve};
