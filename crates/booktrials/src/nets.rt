//! The networks of the trials, as network files.

ghost use Rattle.std.specs.Prelude.{◌≤◌};

use std::alloc::{AllocError, Global};

fn put(file: &mut Vec<u8>, number: u16) -> Result<(), AllocError> {
    file.extend_from_slice(&number.to_le_bytes())
}

fn put_header(file: &mut Vec<u8>, sites: u16, lines: u16) -> Result<(), AllocError> {
    file.extend_from_slice(b"LNET\x01\x02")?;
    let site_part = sites.wrapping_mul(8);
    put(file, 14)?;
    put(file, site_part)?;
    put(file, site_part.wrapping_add(14))?;
    put(file, lines.wrapping_mul(6))
}

fn put_site(file: &mut Vec<u8>, number: u16) -> Result<(), AllocError> {
    put(file, number)?;
    file.extend_from_slice(b"SITE  ")
}

// The line of a position: its ends lie one site apart and more, and with two sites it goes to and fro.
fn put_line(file: &mut Vec<u8>, sites: u16, position: u16) -> Result<(), AllocError>
    requires { 2 ≤ sites }
{
    let first = position % sites;
    let apart = position.wrapping_mul(7) % (sites - 1);
    let second = first.wrapping_add(apart).wrapping_add(1) % sites;
    put(file, position.wrapping_add(1))?;
    put(file, first.wrapping_add(101))?;
    put(file, second.wrapping_add(101))
}

/// A network file with so many sites, numbered from 101, and so many lines, numbered from 1. The line at position i
/// joins the place i % sites and the place that lies 1 + 7i % (sites - 1) further on, round the end.
pub fn made_network(heap: Global, sites: u16, lines: u16) -> Result<Vec<u8>, AllocError>
    requires { 2 ≤ sites }
{
    let mut file = Vec::new(heap);
    put_header(&mut file, sites, lines)?;
    for place in 0..sites {
        put_site(&mut file, place.wrapping_add(101))?;
    }
    for position in 0..lines {
        put_line(&mut file, sites, position)?;
    }
    Ok(file)
}
