//! What a side writes: its greeting, its READY, messages.
ghost use Rattle.std.specs.Prelude.{◌≡◌, ◌<◌, ◌++◌, length, IfOk, OnOk};
ghost use Rattle.zmtp_wire.specs.Greeting.{IsGreeting};
ghost use Rattle.zmtp_wire.specs.Framing.{flag_of};
ghost use Rattle.zmtp_wire.specs.Writing.{written_greeting, IsReadyOf, frame_bytes, message_bytes};
ghost use Rattle.zmtp_wire.specs.Writing.{position_before, IsReadAs};
ghost use Rattle.zmtp_wire.specs.declared.head.Kind.TheVariants.{Message};

use crate::head::Position;
use crate::role::Role;
use base_text::sequence::Bytes;
use std::alloc::{AllocError, Global};

/// The greeting: 64 bytes, version 3.0, mechanism NULL (RFC 23, "Greeting").
pub fn greeting() -> &'static [u8]
    ensures bytes { result.now ≡ written_greeting }
    ensures accepted { IsGreeting result.now }
{
    b"\xff\0\0\0\0\0\0\0\0\x7f\x03\0NULL\0\0\0\0\0\0\0\0\0\0\0\0\0\0\0\0\
      \0\0\0\0\0\0\0\0\0\0\0\0\0\0\0\0\0\0\0\0\0\0\0\0\0\0\0\0\0\0\0\0"
}

/// READY with this side's socket type (RFC 23, "The NULL Security Mechanism").
pub fn ready(role: Role) -> &'static [u8]
    ensures { IsReadyOf result.now role }
{
    match role {
        Role::Router => b"\x04\x1c\x05READY\x0bSocket-Type\0\0\0\x06ROUTER",
        Role::Pub => b"\x04\x19\x05READY\x0bSocket-Type\0\0\0\x03PUB",
        Role::Rep => b"\x04\x19\x05READY\x0bSocket-Type\0\0\0\x03REP",
        Role::Dealer => b"\x04\x1c\x05READY\x0bSocket-Type\0\0\0\x06DEALER",
        Role::Sub => b"\x04\x19\x05READY\x0bSocket-Type\0\0\0\x03SUB",
    }
}

// The flag byte of a message's frame.
fn flag_of(position: Position, long: bool) -> u8
    ensures { result ≡ flag_of (Message position) long }
{
    match (position, long) {
        (Position::Last, false) => 0,
        (Position::More, false) => 1,
        (Position::Last, true) => 2,
        (Position::More, true) => 3,
    }
}

// Where a frame stands that these follow.
fn position_before(others: &[Bytes]) -> Position
    ensures { result ≡ position_before others.now }
{
    match others {
        [] => Position::Last,
        _ => Position::More,
    }
}

// Writes a frame after the bytes. On an error some of the frame may have been written.
fn put_frame(out: &mut Vec<u8>, position: Position, body: &[u8]) -> Result<(), AllocError>
    ensures { OnOk result (out.new.items ≡ out.old.items ++ frame_bytes position body.now) }
{
    if body.len() <= 255 {
        out.extend_from_slice(&[flag_of(position, false), body.len() as u8])?;
    } else {
        out.push(flag_of(position, true))?;
        out.extend_from_slice(&(body.len() as u64).to_be_bytes())?;
    }
    out.extend_from_slice(body)?;
    Ok(())
}

/// The bytes of a message of these frames (RFC 23, "Framing"), each in the shortest form.
pub fn put_message(alloc: Global, frames: &[Bytes]) -> Result<Bytes, AllocError>
    requires { 0 < length frames.now }
    ensures bytes { IfOk result (λ b. b ≡ message_bytes frames.now) }
    ensures read { IfOk result (λ b. IsReadAs b frames.now) }
{
    let mut out = Vec::new(alloc);
    let mut rest = frames;
    while let Some((frame, others)) = rest.split_first() {
        put_frame(&mut out, position_before(others), frame.as_slice())?;
        rest = others;
    }
    Ok(Bytes::from(out))
}
