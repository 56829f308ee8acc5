// The tests of the processor, of the assembly language and of the engines of `lab80`: what no clause of their
// crates says. They stand above the crates that they test, so that each of those is proved once: a crate is
// proved again with each test that stands in it. Everything is tested through public functions. Whole inputs
// with what the programs print of them are tables of the clients' tests.
#![tactic(auto)]

#[cfg(test)]
mod checks;
#[cfg(test)]
mod engines;
#[cfg(test)]
mod language;
#[cfg(test)]
mod processor;
