//! States by number, made from the closures that are expected of them.
mod kernels;
pub(super) mod listed;
mod transitions;
