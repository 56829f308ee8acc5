//! The processor: its rows with their arithmetic, its steps against a plain processor, and its devices.

mod devices;
mod plain;
mod rows;
mod step;
