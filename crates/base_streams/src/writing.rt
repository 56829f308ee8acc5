//! Writing all bytes.
ghost use Rattle.std.specs.Prelude.{◌≡◌, true, OnOk, OnErr};
ghost use Rattle.base_streams.specs.Told.{Took, TookPrefix};

use crate::ports::{IoFault, Outlet};

/// Writes all the bytes, in as many writes as it takes; or writes a prefix of them and fails.
pub fn write_all<W: Outlet>(to: &mut W, bytes: &[u8]) -> Result<(), IoFault>
    ensures front { TookPrefix (W.state to.old) (W.state to.new) bytes.now }
    ensures ok { OnOk result (Took (W.state to.old) (W.state to.new) bytes.now) }
    ensures good { OnOk result ((W.state to.new).failed ≡ (W.state to.old).failed) }
    ensures err { OnErr result ((W.state to.new).failed ≡ true) }
{
    let mut place = 0usize;
    while place < bytes.len() {
        place += to.write(&bytes[place..])?;
    }
    Ok(())
}
