//! What is told, and over which kernel.

use ft_base::{Memory, Name, Text};
use ft_kernel::Kernel;
use ft_nucleus::{boundary_type, new_meta};
use std::alloc::Global;

/// Whether the text is there, and is this one.
pub fn is(found: Result<Text, Memory>, wanted: &str) -> bool {
    match found {
        Ok(text) => text.bytes() == wanted.as_bytes(),
        Err(_) => false,
    }
}

/// The text as a name.
pub fn name(alloc: Global, text: &str) -> Result<Name, Memory> {
    match Name::new(alloc, text)? {
        Some(name) => Ok(name),
        None => Err(Memory),
    }
}

/// A kernel with the metavariable `M` for types, number 0, and nothing else.
pub fn declared(alloc: Global) -> Result<Kernel, Memory> {
    let mut k = Kernel::new(alloc);
    let m = name(alloc, "M")?;
    match boundary_type(alloc, &mut k) {
        Ok(types) => match new_meta(&mut k, &m, types) {
            Ok(_) => Ok(k),
            Err(_) => Err(Memory),
        },
        Err(_) => Err(Memory),
    }
}
