//! What of `blk`'s commands its stored runs can't show: writers and readers that fail, copies, and how scripts and words are read.
mod copying;
mod doubles;
mod failing;
mod reading;
mod words;
