// The tests of the board: its parts by themselves (live frames, origins of loads, breakpoints, views); what
// events and a debugger's requests are answered; changes by hand, slices that end at marks, and moments to
// which a run is put back; many events; and runs in slices, and chance runs, against plain ones. They stand
// above the crates that they test, since a crate is proved once more with each test that stands in it.
#![tactic(auto)]

#[cfg(test)]
mod aliases;
#[cfg(test)]
mod board;
#[cfg(test)]
mod bursts;
#[cfg(test)]
mod call;
#[cfg(test)]
mod changes;
#[cfg(test)]
mod checks;
#[cfg(test)]
mod debug;
#[cfg(test)]
mod digits;
#[cfg(test)]
mod frames;
#[cfg(test)]
mod loads;
#[cfg(test)]
mod marks;
#[cfg(test)]
mod moments;
#[cfg(test)]
mod plain;
#[cfg(test)]
mod pokes;
#[cfg(test)]
mod size;
#[cfg(test)]
mod told;
#[cfg(test)]
mod views;
