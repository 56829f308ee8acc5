//! The contents of commands: names, properties, READY.
ghost use Rattle.std.specs.Prelude.{◌≡◌, List, [], ◌∷◌, length, option_copied, IfSome, IfNone, IfOk, IfErr};
ghost use Rattle.std.specs.Bool.{OnTrue, OnFalse};
ghost use Rattle.zmtp_wire.specs.Wire.{Bytes};
ghost use Rattle.zmtp_wire.specs.Framing.{number_from};
ghost use Rattle.zmtp_wire.specs.Commands.{IsNamed, IsProperty, IsProperties, Property, property};
ghost use Rattle.zmtp_wire.specs.Commands.{value_of, first_value, Finds, IsAccepted, IsSkipped, IsRefused};
ghost use Rattle.zmtp_wire.specs.declared.head.Stage.TheVariants.{Handshake};

use crate::fault::StreamFault;
use crate::role::Role;

/// A name, and the bytes after it.
#[derive(Drop)]
pub struct Named<'a> {
    pub name: &'a [u8],
    pub others: &'a [u8],
}

/// Splits off a name: its length, which is one byte and not 0, and then the name.
pub fn split_name(bytes: &[u8]) -> Option<Named<'_>>
    ensures found { IfSome result (λ n. IsNamed bytes.now n.name.now n.others.now) }
    ensures none { IfNone result ((name others : Bytes) → IsNamed bytes.now name others → ⊥) }
{
    let (length, others) = bytes.split_first()?;
    let length = usize::from(*length);
    if length == 0 || length > others.len() {
        return None;
    }
    let (name, others) = others.split_at(length);
    Some(Named { name, others })
}

// The number whose four bytes these are, most significant first.
fn number_of(bytes: &[u8]) -> usize
    requires { length bytes.now ≡ 4 }
    ensures { result ≡ number_from 0 bytes.now }
{
    match bytes {
        [a, b, c, d] => {
            let high = usize::from(*a) * 256 + usize::from(*b);
            (high * 256 + usize::from(*c)) * 256 + usize::from(*d)
        }
        _ => unreachable!(),
    }
}

/// A property, and the bytes after it.
#[derive(Drop)]
struct SplitProperty<'a> {
    name: &'a [u8],
    value: &'a [u8],
    others: &'a [u8],
}

// Splits off a property.
fn split_property(bytes: &[u8]) -> Option<SplitProperty<'_>>
    ensures found { IfSome result (λ p. IsProperty bytes.now p.name.now p.value.now p.others.now) }
    ensures none { IfNone result
        ((name value others : Bytes) → IsProperty bytes.now name value others → ⊥) }
{
    let Named { name, others } = split_name(bytes)?;
    if others.len() < 4 {
        return None;
    }
    let (digits, others) = others.split_at(4);
    let size = number_of(digits);
    if size > others.len() {
        return None;
    }
    let (value, others) = others.split_at(size);
    Some(SplitProperty {
        name,
        value,
        others,
    })
}

/// The values of the two properties of READY that are used, if it has them.
#[derive(Drop)]
struct KnownProperties<'a> {
    socket_type: Option<&'a [u8]>,
    identity: Option<&'a [u8]>,
}

// The value, if the property has this name and none of that name was found before.
fn first_of<'a>(
    found: Option<&'a [u8]>,
    wanted: &[u8],
    name: &[u8],
    value: &'a [u8],
) -> Option<&'a [u8]>
    ensures { option_copied result ≡ first_value (option_copied found.entry)
        (value_of wanted.now (property name.now value.now ∷ [])) }
{
    if found.is_none() && name.eq_ignore_ascii_case(wanted) {
        Some(value)
    } else {
        found
    }
}

// Reads properties up to the end of the bytes.
fn read_properties(bytes: &[u8]) -> Option<KnownProperties<'_>>
    ensures found { IfSome result
        (λ known. Finds bytes.now (option_copied known.socket_type) (option_copied known.identity)) }
    ensures none { IfNone result ((properties : List Property) → IsProperties bytes.now properties → ⊥) }
{
    let mut socket_type = None;
    let mut identity = None;
    let mut rest = bytes;
    while !rest.is_empty() {
        let SplitProperty {
            name,
            value,
            others,
        } = split_property(rest)?;
        socket_type = first_of(socket_type, b"Socket-Type", name, value);
        identity = first_of(identity, b"Identity", name, value);
        rest = others;
    }
    Some(KnownProperties {
        socket_type,
        identity,
    })
}

/// The identity in a peer's READY, if it has one. Fails if the command is no READY, or if its socket type is
/// missing or doesn't fit the role.
pub fn read_ready(role: Role, body: &[u8]) -> Result<Option<&[u8]>, StreamFault>
    ensures ok { IfOk result (λ identity. IsAccepted role body.now (option_copied identity)) }
    ensures err { IfErr result (λ cause. IsRefused role Handshake body.now cause) }
{
    let Some(Named { name, others }) = split_name(body) else {
        return Err(StreamFault::Command);
    };
    if name != b"READY".as_slice() {
        return Err(StreamFault::Command);
    }
    let Some(known) = read_properties(others) else {
        return Err(StreamFault::Command);
    };
    match known.socket_type {
        Some(socket_type) if role.accepts(socket_type) => Ok(known.identity),
        _ => Err(StreamFault::SocketType),
    }
}

/// Whether a command after READY is skipped.
pub fn is_skipped(body: &[u8]) -> bool
    ensures yes { OnTrue result (IsSkipped body.now) }
    ensures no { OnFalse result (IsSkipped body.now → ⊥) }
{
    match split_name(body) {
        Some(named) => named.name != b"ERROR".as_slice(),
        None => false,
    }
}
