//! Connection files.
ghost use Rattle.std.specs.Prelude.{◌≡◌, ◌↔◌, Some, None, IsTrue, IfOk, IfErr, IfSome, IfNone, option_map};
ghost use Rattle.std.specs.declared.net.ipv4_addr.Ipv4Addr.{Ipv4Addr};
ghost use Rattle.serde_json.specs.View.{view};
ghost use Rattle.jup_wire.specs.ConnectionFiles.{HasValue, HasNoValue, text_at, port_at, a_port};
ghost use Rattle.jup_wire.specs.ConnectionFiles.{HasAddress, IsConnectionFile, ReadsAsFile, IsNoFile};
ghost use Rattle.jup_wire.specs.ConnectionFiles.{IsRefused, FieldFault, JsonFault};

use base_text::text::Text;
use serde_json::Value;
use std::alloc::Global;
use std::net::Ipv4Addr;
use std::str::FromStr;
use thiserror::Error;

/// Where a kernel listens, and the key that signs its messages.
#[derive(Drop)]
pub struct ConnectionFile {
    pub ip: Ipv4Addr,
    /// The key of HMAC-SHA256. If it is empty, signatures aren't checked.
    pub key: Text,
    /// Ports are from 1 to 65,535.
    pub shell_port: u16,
    pub iopub_port: u16,
    pub stdin_port: u16,
    pub control_port: u16,
    pub hb_port: u16,
}

/// Why bytes aren't a connection file.
#[derive(Clone, Copy, PartialEq, Eq, Debug, Error)]
pub enum FileFault {
    #[error("out of memory")]
    OutOfMemory,
    #[error("the file is no JSON")]
    Json,
    /// The value isn't an object, or a member is missing or invalid.
    #[error("a member of the connection file is missing or wrong")]
    Field,
}

fn read_value(alloc: Global, bytes: &[u8]) -> Result<Value, FileFault>
    ensures value { IfOk result (λ v. HasValue bytes.now (view v)) }
    ensures fault { IfErr result (λ e. JsonFault e (HasNoValue bytes.now)) }
{
    match Value::from_slice(alloc, bytes) {
        Ok(value) => Ok(value),
        Err(e) if e.is_memory() => Err(FileFault::OutOfMemory),
        Err(_) => Err(FileFault::Json),
    }
}

fn text_at<'a>(value: &'a Value, key: &str) -> Option<&'a str>
    ensures { option_map (λ t. t.now) result ≡ text_at key.now (view value.now) }
{
    value.get(key)?.as_str()
}

fn has_text(value: &Value, key: &str, text: &str) -> bool
    ensures { IsTrue result ↔ (text_at key.now (view value.now) ≡ Some text.now) }
{
    match text_at(value, key) {
        Some(found) => found == text,
        None => false,
    }
}

fn a_port(n: u64) -> Option<u16>
    ensures { result ≡ a_port n }
{
    if n < 1 || n > 65535 {
        return None;
    }
    Some(n as u16)
}

fn port_at(value: &Value, key: &str) -> Option<u16>
    ensures { result ≡ port_at key.now (view value.now) }
{
    a_port(value.get(key)?.as_u64()?)
}

#[tactic(auto, using(crate::proofs::AddressLemmas::not_elsewhere, crate::proofs::AddressLemmas::nowhere))]
fn address(value: &Value) -> Option<Ipv4Addr>
    ensures some { IfSome result (HasAddress (view value.now)) }
    ensures none { IfNone result ((ip : Ipv4Addr) → ¬ HasAddress (view value.now) ip) }
{
    let text = text_at(value, "ip")?;
    match Ipv4Addr::from_str(text) {
        Ok(ip) => Some(ip),
        Err(_) => None,
    }
}

#[tactic(auto, using(crate::proofs::AddressLemmas::no_file))]
fn fields(alloc: Global, value: &Value) -> Result<ConnectionFile, FileFault>
    ensures file { IfOk result (IsConnectionFile (view value.now)) }
    ensures fault { IfErr result (λ e. FieldFault e (IsNoFile (view value.now))) }
{
    if !has_text(value, "transport", "tcp") {
        return Err(FileFault::Field);
    }
    if !has_text(value, "signature_scheme", "hmac-sha256") {
        return Err(FileFault::Field);
    }
    let Some(ip) = address(value) else {
        return Err(FileFault::Field);
    };
    let key = text_at(value, "key").ok_or(FileFault::Field)?;
    let shell_port = port_at(value, "shell_port").ok_or(FileFault::Field)?;
    let iopub_port = port_at(value, "iopub_port").ok_or(FileFault::Field)?;
    let stdin_port = port_at(value, "stdin_port").ok_or(FileFault::Field)?;
    let control_port = port_at(value, "control_port").ok_or(FileFault::Field)?;
    let hb_port = port_at(value, "hb_port").ok_or(FileFault::Field)?;
    let Ok(key) = Text::copy_of(alloc, key) else {
        return Err(FileFault::OutOfMemory);
    };
    Ok(ConnectionFile {
        ip,
        key,
        shell_port,
        iopub_port,
        stdin_port,
        control_port,
        hb_port,
    })
}

impl ConnectionFile {
    ghost use Rattle.jup_wire.specs.declared.connection_file.ConnectionFile.{ConnectionFile};

    /// Reads a connection file: a JSON object with texts `ip` (four decimals without leading zeros),
    /// `transport` (`tcp`), `key` and `signature_scheme` (`hmac-sha256`), and with whole numbers from 1
    /// to 65,535 at `shell_port`, `iopub_port`, `stdin_port`, `control_port` and `hb_port`. Other members
    /// are ignored. If memory runs out, `OutOfMemory` may be returned in place of `Json` or `Field`.
    pub fn read(alloc: Global, bytes: &[u8]) -> Result<ConnectionFile, FileFault>
        ensures file { IfOk result (ReadsAsFile bytes.now) }
        ensures refused { IfErr result (IsRefused bytes.now) }
    {
        let value = read_value(alloc, bytes)?;
        fields(alloc, &value)
    }
}
