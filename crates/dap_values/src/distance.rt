//! Addresses at a distance, and bytes that fit behind one.
ghost use Rattle.std.specs.Prelude.{◌≡◌, ◌≤◌, ◌+◌, ◌-◌, length, take};
ghost use Rattle.dap_values.specs.Distances.{address_at, far_address, wrapped_at};

use dap_requests::offset::SignedOffset;

/// The number of addresses.
const ADDRESSES: usize = 65_536;

/// The address at this distance from another, if there is one.
pub fn address_at(address: u16, offset: SignedOffset) -> Option<u16>
    ensures { result ≡ address_at address offset }
{
    match offset {
        SignedOffset::Forward(n) => {
            let far = u64::from(address) + u64::from(n);
            if far <= 65535 { Some(far as u16) } else { None }
        }
        SignedOffset::Back(n) => {
            if n <= u32::from(address) {
                Some((u32::from(address) - n) as u16)
            } else {
                None
            }
        }
    }
}

/// Where the address at this distance from another is, even if there is no such address.
pub fn far_address(address: u16, offset: SignedOffset) -> i64
    ensures { result ≡ far_address address offset }
{
    match offset {
        SignedOffset::Forward(n) => i64::from(address) + i64::from(n),
        SignedOffset::Back(n) => i64::from(address) - i64::from(n),
    }
}

/// The address at this distance from another. Addresses wrap.
pub fn wrapped_at(address: u16, offset: SignedOffset) -> u16
    ensures { result ≡ wrapped_at address offset }
{
    let far = match offset {
        SignedOffset::Forward(n) => u64::from(address) + u64::from(n),
        SignedOffset::Back(n) => u64::from(address) + (65_536 - u64::from(n % 65_536)),
    };
    (far % 65_536) as u16
}

/// The first of these bytes: as many as there are addresses from this one on.
pub fn writable(start: u16, bytes: &[u8]) -> &[u8]
    ensures all { result.now ≡ take (65536 - start) bytes.now }
    ensures fits { start + length result.now ≤ 65536 }
{
    let room = ADDRESSES - usize::from(start);
    if bytes.len() <= room {
        return bytes;
    }
    let (all, _) = bytes.split_at(room);
    all
}
