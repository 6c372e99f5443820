// What is said of a transform behind its number: that it would do, or why it does not.
use crate::names;
use policy_cause::Cause;
use std::io;
use std::io::Write;

pub(crate) fn cause(out: &mut impl Write, exchange: u8, cause: Cause) -> io::Result<()> {
    match cause {
        Cause::Id { found, wanted } => write!(out, ": ID {found}, wanted {wanted}"),
        Cause::Missing(attributetype) => missing(out, exchange, attributetype),
        Cause::Value {
            attributetype,
            found,
            wanted,
        } => value(out, exchange, attributetype, found, wanted),
        Cause::Surplus {
            attributetype,
            found,
        } => surplus(out, exchange, attributetype, found),
        Cause::Seconds { found, longest } => seconds(out, found, longest),
        Cause::Kilobytes => write!(out, ": lifetime of 0 kilobytes, at least 1"),
    }
}

// A set that fails though one of its transforms would do is of AH with ESP, and fails by the other protocol.
pub(crate) fn would_do(out: &mut impl Write, protocol: u8) -> io::Result<()> {
    let other = names::protocol(if protocol == 2 { 3 } else { 2 });
    write!(out, " would do, but none of {other} does")
}

fn is_life_type(exchange: u8, attributetype: u16) -> bool {
    if exchange == 2 {
        attributetype == 11
    } else {
        attributetype == 1
    }
}

fn attribute(out: &mut impl Write, exchange: u8, attributetype: u16) -> io::Result<()> {
    let name = if exchange == 2 {
        names::main_attribute(attributetype)
    } else {
        names::quick_attribute(attributetype)
    };
    write!(out, ": attribute {attributetype} ({name})")
}

fn missing(out: &mut impl Write, exchange: u8, attributetype: u16) -> io::Result<()> {
    if is_life_type(exchange, attributetype) {
        return write!(out, ": no lifetime in seconds");
    }
    attribute(out, exchange, attributetype)?;
    write!(out, " is missing")
}

fn value(
    out: &mut impl Write,
    exchange: u8,
    attributetype: u16,
    found: u32,
    wanted: u32,
) -> io::Result<()> {
    attribute(out, exchange, attributetype)?;
    write!(out, " is {found}")?;
    mode_behind(out, attributetype, found)?;
    write!(out, ", wanted {wanted}")?;
    mode_behind(out, attributetype, wanted)
}

// Behind the value of attribute 4, which only quick mode wants, the mode's name where it has one.
fn mode_behind(out: &mut impl Write, attributetype: u16, value: u32) -> io::Result<()> {
    if (attributetype == 4) & (1 <= value) & (value <= 4) {
        write!(out, " ({})", names::mode(value))
    } else {
        Ok(())
    }
}

fn surplus(out: &mut impl Write, exchange: u8, attributetype: u16, found: u32) -> io::Result<()> {
    attribute(out, exchange, attributetype)?;
    if is_life_type(exchange, attributetype) {
        write!(out, " of {found}")?;
    }
    write!(out, " is not wanted")
}

fn seconds(out: &mut impl Write, found: u32, longest: u32) -> io::Result<()> {
    if found == 0 {
        write!(out, ": lifetime of {found} seconds, at least 1")
    } else {
        write!(out, ": lifetime of {found} seconds, at most {longest}")
    }
}
