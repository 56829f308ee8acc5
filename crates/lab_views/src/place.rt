//! The places that can be changed by hand.
ghost use Rattle.std.specs.Prelude.{◌≡◌};
ghost use Rattle.lab_views.specs.Places.{place_named, register_named, byte_named};

use crate::poke_fault::PokeFault;
use base_text::hexadecimal::read_word;
use lab_shown::place::Place;
use lab_shown::scope::Scope;

fn register_of(name: &str) -> Option<Place>
    ensures { result ≡ register_named name.now }
{
    match name.as_bytes() {
        b"A" => Some(Place::A),
        b"B" => Some(Place::B),
        b"C" => Some(Place::C),
        b"D" => Some(Place::D),
        b"E" => Some(Place::E),
        b"H" => Some(Place::H),
        b"L" => Some(Place::L),
        b"SP" => Some(Place::Sp),
        b"PC" => Some(Place::Pc),
        _ => None,
    }
}

fn byte_of(name: &str) -> Option<Place>
    ensures { result ≡ byte_named name.now }
{
    match read_word(name.as_bytes()) {
        Some(address) => Some(Place::Memory(address)),
        None => None,
    }
}

/// The place of a name in a scope, which is given by its reference, as in the view of its variables. A
/// register has the name under which it is shown; a byte of memory has its address as four hexadecimal
/// digits, in either case.
///
/// Fails with `BadReference` for any other scope, and with `UnknownName` for any other name in these two.
pub fn place_of(reference: u32, name: &str) -> Result<Place, PokeFault>
    ensures { result ≡ place_named reference name.now }
{
    let place = match Scope::with_reference(reference) {
        Some(Scope::Registers) => register_of(name),
        Some(Scope::Memory) => byte_of(name),
        _ => return Err(PokeFault::BadReference),
    };
    place.ok_or(PokeFault::UnknownName)
}
