//! Engines over readers and writers that give and take little at a time, are interrupted, or fail; their
//! exit numbers; and the laws of listings.

mod input;
mod listings;
mod statuses;
mod streams;
mod words;
