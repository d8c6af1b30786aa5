//! The lines of `hear`. Each ends with a line feed.
ghost use Rattle.std.specs.Prelude.{◌≡◌, ◌++◌, IfOk, codes, decimal};
ghost use Rattle.mud_cli.specs.Hear.Lines as spec;
ghost use Rattle.dhcp_lldp.specs.declared.heard.Heard.TheVariants.{Url, Lease, Nothing};

use dhcp_lldp::{HearFault, Heard};
use mud_base::{Addr, Bytes, Mac, Memory};
use mud_url::MudUrl;
use std::alloc::Global;
use text_values::{
    append_addr, append_decimal, append_mac, append_offset, append_url, append_url_part,
};

/// `url MAC URL`.
#[tactic(auto, unfolding(crate::specs::Hear::Lines::heard_line))]
fn url_line(alloc: Global, mac: Mac, url: &MudUrl) -> Result<Bytes, Memory>
    ensures { IfOk result (λ line. line ≡ spec.heard_line (Url mac url.now)) }
{
    let mut line = Bytes::new(alloc, b"url ")?;
    append_mac(alloc, &mut line, mac)?;
    line.append(b" ")?;
    append_url(&mut line, url)?;
    line.append(b"\n")?;
    Ok(line)
}

/// `lease MAC ADDRESS SECONDS`.
#[tactic(auto, unfolding(crate::specs::Hear::Lines::heard_line))]
fn lease_line(alloc: Global, mac: Mac, addr: Addr, seconds: u32) -> Result<Bytes, Memory>
    ensures { IfOk result (λ line. line ≡ spec.heard_line (Lease mac addr seconds)) }
{
    let mut line = Bytes::new(alloc, b"lease ")?;
    append_mac(alloc, &mut line, mac)?;
    line.append(b" ")?;
    append_addr(alloc, &mut line, addr)?;
    line.append(b" ")?;
    append_decimal(&mut line, u64::from(seconds))?;
    line.append(b"\n")?;
    Ok(line)
}

/// `nothing`.
#[tactic(auto, unfolding(crate::specs::Hear::Lines::heard_line))]
fn nothing_line(alloc: Global) -> Result<Bytes, Memory>
    ensures { IfOk result (λ line. line ≡ spec.heard_line Nothing) }
{
    Bytes::new(alloc, b"nothing\n")
}

/// The line of what a message says.
#[tactic(auto, unfolding(crate::specs::Hear::Lines::heard_line))]
pub(crate) fn heard_line(alloc: Global, heard: &Heard) -> Result<Bytes, Memory>
    ensures { IfOk result (λ line. line ≡ spec.heard_line heard.now) }
{
    match heard {
        Heard::Url(mac, url) => url_line(alloc, *mac, url),
        Heard::Lease(mac, addr, seconds) => lease_line(alloc, *mac, *addr, *seconds),
        Heard::Nothing => nothing_line(alloc),
    }
}

/// The line of a refused message: `fault`, the rule's name, and its offset where it has one.
#[tactic(auto, unfolding(crate::specs::Hear::Lines::fault_line))]
pub(crate) fn fault_line(alloc: Global, fault: &HearFault) -> Result<Bytes, Memory>
    ensures { IfOk result (λ line. line ≡ spec.fault_line fault.now) }
{
    let mut line = Bytes::new(alloc, b"fault ")?;
    line.append(fault.name().as_bytes())?;
    append_offset(&mut line, fault.offset().map(|offset| offset as u64))?;
    append_url_part(&mut line, fault.url())?;
    line.append(b"\n")?;
    Ok(line)
}

/// `fault Long`, for a message of more octets than a message has.
#[tactic(auto)]
pub(crate) fn too_long_line(alloc: Global) -> Result<Bytes, Memory>
    ensures { IfOk result (λ line. line ≡ codes "fault Long\n") }
{
    Bytes::new(alloc, b"fault Long\n")
}
