//! What can be watched.
ghost use Rattle.std.specs.Prelude.{◌≡◌, ◌++◌, ◌≤◌, ◌+◌, IfOk, IfSome, OnOk, map, string_bytes};
ghost use Rattle.std.specs.Prelude.{decimal};
ghost use Rattle.std.specs.List.{range_with_len};
ghost use Rattle.lab_shown.specs.declared.place.Place.TheVariants.{Memory};
ghost use Rattle.lab_views.specs.Places.{shown_name};
ghost use Rattle.dap_breakpoints.specs.Places.{id_of, register_named, count_named, bytes_within, bytes_named};
ghost use Rattle.dap_breakpoints.specs.Places.{data_named, places_of, IsInMemory};

use base_text::hexadecimal::{push_word, read_word};
use base_text::sequence::Sequence;
use base_text::text::Text;
use lab_shown::place::Place;
use std::alloc::{AllocError, Global};

/// What a breakpoint watches.
#[derive(Clone, Copy)]
pub enum DataPlace {
    Register(Place),
    /// The higher and the lower register.
    Pair(Place, Place),
    /// 1 to 16 bytes from an address on.
    Bytes { address: u16, count: u16 },
}

/// The register or the pair with this name.
pub(crate) fn register_named(name: &str) -> Option<DataPlace>
    ensures { result ≡ register_named name.now }
{
    match name.as_bytes() {
        b"A" => Some(DataPlace::Register(Place::A)),
        b"B" => Some(DataPlace::Register(Place::B)),
        b"C" => Some(DataPlace::Register(Place::C)),
        b"D" => Some(DataPlace::Register(Place::D)),
        b"E" => Some(DataPlace::Register(Place::E)),
        b"H" => Some(DataPlace::Register(Place::H)),
        b"L" => Some(DataPlace::Register(Place::L)),
        b"SP" => Some(DataPlace::Register(Place::Sp)),
        b"BC" => Some(DataPlace::Pair(Place::B, Place::C)),
        b"DE" => Some(DataPlace::Pair(Place::D, Place::E)),
        b"HL" => Some(DataPlace::Pair(Place::H, Place::L)),
        _ => None,
    }
}

// A number of bytes in decimal.
#[tactic(auto, using(crate::proofs::PlaceLemmas::count_written))]
fn count_text(count: u16) -> &'static str
    requires { (1 ≤ count) × (count ≤ 16) }
    ensures { result.now ≡ decimal count }
{
    match count {
        1 => "1",
        2 => "2",
        3 => "3",
        4 => "4",
        5 => "5",
        6 => "6",
        7 => "7",
        8 => "8",
        9 => "9",
        10 => "10",
        11 => "11",
        12 => "12",
        13 => "13",
        14 => "14",
        15 => "15",
        _ => "16",
    }
}

#[tactic(auto, using(crate::proofs::PlaceLemmas::find_here, crate::proofs::PlaceLemmas::find_next))]
fn count_named(digits: &[u8]) -> Option<u16>
    ensures { result ≡ count_named digits.now }
{
    for count in 1..17 {
        if digits == count_text(count).as_bytes() {
            return Some(count);
        }
    }
    None
}

/// The bytes from an address on, if all of them are in memory.
pub(crate) fn bytes_within(address: u16, count: u16) -> Option<DataPlace>
    ensures value { result ≡ bytes_within address count }
    ensures within { IfSome result IsInMemory }
{
    if u32::from(address) + u32::from(count) <= 65536 {
        Some(DataPlace::Bytes { address, count })
    } else {
        None
    }
}

fn bytes_named(id: &[u8]) -> Option<DataPlace>
    ensures value { result ≡ bytes_named id.now }
    ensures within { IfSome result IsInMemory }
{
    let [a, b, c, d, b':', digits @ ..] = id else {
        return None;
    };
    let address = read_word(&[*a, *b, *c, *d])?;
    let count = count_named(digits)?;
    bytes_within(address, count)
}

/// Appends the name under which a place is shown.
pub(crate) fn push_name(text: &mut String, place: Place) -> Result<(), AllocError>
    ensures { OnOk result (string_bytes text.new ≡ string_bytes text.old ++ shown_name place) }
{
    match place {
        Place::A => text.push_str("A")?,
        Place::B => text.push_str("B")?,
        Place::C => text.push_str("C")?,
        Place::D => text.push_str("D")?,
        Place::E => text.push_str("E")?,
        Place::H => text.push_str("H")?,
        Place::L => text.push_str("L")?,
        Place::Sp => text.push_str("SP")?,
        Place::Pc => text.push_str("PC")?,
        Place::Memory(address) => push_word(text, address)?,
    }
    Ok(())
}

fn byte_places(alloc: Global, address: u16, count: u16) -> Result<Sequence<Place>, AllocError>
    requires { address + count ≤ 65536 }
    ensures { IfOk result (λ places. places ≡ map (λ at. Memory at) (range_with_len address count)) }
{
    let mut places = Sequence::new(alloc);
    for index in 0..count {
        places.push(Place::Memory(address + index))?;
    }
    Ok(places)
}

impl DataPlace {
    /// What is set by this text.
    pub fn from_id(id: &str) -> Option<DataPlace>
        ensures value { result ≡ data_named id.now }
        ensures within { IfSome result IsInMemory }
    {
        match register_named(id) {
            None => bytes_named(id.as_bytes()),
            Some(place) => Some(place),
        }
    }

    /// The text by which it is set.
    pub fn id(self, alloc: Global) -> Result<Text, AllocError>
        ensures { IfOk result (λ id. id ≡ id_of self) }
    {
        let mut id = String::new(alloc);
        match self {
            DataPlace::Register(register) => push_name(&mut id, register)?,
            DataPlace::Pair(high, low) => {
                push_name(&mut id, high)?;
                push_name(&mut id, low)?;
            }
            DataPlace::Bytes { address, count } => {
                push_word(&mut id, address)?;
                write!(id, ":{count}")?;
            }
        }
        Ok(Text::from(id))
    }

    /// The registers or bytes that are watched, in order.
    pub fn places(self, alloc: Global) -> Result<Sequence<Place>, AllocError>
        requires { IsInMemory self }
        ensures { IfOk result (λ places. places ≡ places_of self) }
    {
        let (first, second) = match self {
            DataPlace::Register(register) => (register, None),
            DataPlace::Pair(high, low) => (high, Some(low)),
            DataPlace::Bytes { address, count } => return byte_places(alloc, address, count),
        };
        let mut places = Sequence::new(alloc);
        places.push(first)?;
        if let Some(second) = second {
            places.push(second)?;
        }
        Ok(places)
    }
}
