//! A kernel that serves connections. In one test the guests are of different channels, in one the worker is
//! held between two slices until the requests of four connections are answered, in one connections break off
//! at each of their bytes, and in one hooks keep posts back.

mod broken;
mod gates;
mod guests;
mod kept_back;
mod signals;
mod streams;
mod turns;
mod visits;
