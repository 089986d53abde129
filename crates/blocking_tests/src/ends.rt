//! The ends of pipes, on real threads where it says so.
mod again;
mod bytes;
mod items;
mod numbers;
mod steps;
