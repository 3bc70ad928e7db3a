//! Domains.
ghost use Rattle.std.specs.Prelude.{◌≡◌, ◌++◌, IfOk, OnOk};
ghost use Rattle.pp_domain.specs.Sets.{set_of};
ghost use Rattle.pp_language.specs.Printing.{interval_text, domain_text, ranged_text};

use crate::numbers::{write_integer, write_variable};
use pp_domain::Domain;
use std::alloc::{AllocError, Global};

/// Appends an interval: its ends, or the integer that is both.
fn write_interval(out: &mut Vec<u8>, interval: &(i64, i64)) -> Result<(), AllocError>
    ensures { OnOk result (out.new.items ≡ out.old.items ++ interval_text interval.now) }
{
    let (low, high) = *interval;
    write_integer(out, low)?;
    if low != high {
        out.extend_from_slice(b"..")?;
        write_integer(out, high)?;
    }
    Ok(())
}

/// Appends a domain: its intervals, ascending.
fn write_domain(out: &mut Vec<u8>, domain: &Domain) -> Result<(), AllocError>
    ensures { OnOk result (out.new.items ≡ out.old.items ++ domain_text (set_of domain.now)) }
{
    out.push(b'[')?;
    let mut separator = b"".as_slice();
    for interval in domain.intervals() {
        out.extend_from_slice(separator)?;
        write_interval(out, interval)?;
        separator = b", ".as_slice();
    }
    out.push(b']')?;
    Ok(())
}

/// Appends a variable and its domain.
pub(crate) fn write_ranged(
    out: &mut Vec<u8>,
    variable: u64,
    domain: &Domain,
) -> Result<(), AllocError>
    ensures { OnOk result (out.new.items ≡ out.old.items ++ ranged_text variable (set_of domain.now)) }
{
    write_variable(out, variable)?;
    out.extend_from_slice(b" :: ")?;
    write_domain(out, domain)
}

/// A domain as text.
pub fn domain_text(alloc: Global, domain: &Domain) -> Result<Vec<u8>, AllocError>
    ensures { IfOk result (λ t. t.items ≡ domain_text (set_of domain.now)) }
{
    let mut out = Vec::new(alloc);
    write_domain(&mut out, domain)?;
    Ok(out)
}
