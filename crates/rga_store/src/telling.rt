//! Stores that tell their operations one by one, so that who looks at each of them needs no list.
mod listener;
mod teller;

pub use listener::Listener;
pub use teller::Teller;
