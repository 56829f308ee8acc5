// What no clause of Jupyter's wires (base_text, base_streams, zmtp_wire, jup_wire) and of the client in the
// terminal (lab_term) says: that calls succeed if there is memory; what readers and writers do that move
// little at a time, are interrupted, or fail; that a stream gives its messages however it is cut; handshakes
// and heartbeats that fail at any call; signatures by RFC 4231; which connection files are read; the bytes
// of a request, and what the messages of a scripted kernel print. Nothing is here but tests.
#![tactic(auto)]

#[cfg(test)]
mod cells;
#[cfg(test)]
mod checks;
#[cfg(test)]
mod connection_files;
#[cfg(test)]
mod framing;
#[cfg(test)]
mod interruptions;
#[cfg(test)]
mod messages;
#[cfg(test)]
mod peers;
#[cfg(test)]
mod streams;
#[cfg(test)]
mod values;
