//! Fields of lists, and frames.

use std::alloc::{AllocError, Global};

/// The fields of a list, one behind the other.
#[derive(Drop)]
pub struct Fields {
    octets: Vec<u8>,
    count: u32,
}

impl Fields {
    /// No fields.
    pub fn new(alloc: Global) -> Fields {
        Fields {
            octets: Vec::new(alloc),
            count: 0,
        }
    }

    /// A field of these octets, well-formed or not.
    pub fn put(&mut self, octets: &[u8]) -> Result<(), AllocError> {
        self.octets.extend_from_slice(octets)?;
        self.count = self.count.wrapping_add(1);
        Ok(())
    }

    /// Fields that are absent.
    pub fn skip(&mut self, count: u32) -> Result<(), AllocError> {
        for _ in 0..count {
            self.put(&[0x40])?;
        }
        Ok(())
    }

    /// A uint.
    pub fn number(&mut self, number: u32) -> Result<(), AllocError> {
        let [a, b, c, d] = number.to_be_bytes();
        self.put(&[0x70, a, b, c, d])
    }

    /// A uint, or nothing.
    pub fn maybe(&mut self, number: Option<u32>) -> Result<(), AllocError> {
        match number {
            Some(number) => self.number(number),
            None => self.skip(1),
        }
    }

    /// A boolean.
    pub fn flag(&mut self, holds: bool) -> Result<(), AllocError> {
        self.put(&[0x56, u8::from(holds)])
    }

    /// A boolean, where it holds.
    pub fn mark(&mut self, holds: bool) -> Result<(), AllocError> {
        if holds { self.flag(true) } else { self.skip(1) }
    }

    /// A ubyte, or nothing.
    pub fn octet(&mut self, octet: Option<u8>) -> Result<(), AllocError> {
        match octet {
            Some(octet) => self.put(&[0x50, octet]),
            None => self.skip(1),
        }
    }

    /// Octets behind a code and their number: a string (0xB1), a binary (0xB0) or a symbol (0xB3).
    pub fn sized(&mut self, code: u8, octets: &[u8]) -> Result<(), AllocError> {
        self.octets.extend_from_slice(&[code])?;
        self.octets.extend_from_slice(&counted(octets.len()))?;
        self.put(octets)
    }

    /// These fields as a list that a code describes.
    pub fn described(&self, code: u8) -> Result<Vec<u8>, AllocError> {
        let mut octets = Vec::new(*self.octets.allocator());
        octets.extend_from_slice(&[0x00, 0x53, code, 0xD0])?;
        octets.extend_from_slice(&counted(self.octets.len().saturating_add(4)))?;
        octets.extend_from_slice(&self.count.to_be_bytes())?;
        octets.extend_from_slice(self.octets.as_slice())?;
        Ok(octets)
    }
}

/// A number of octets, in four.
fn counted(count: usize) -> [u8; 4] {
    u32::try_from(count).unwrap_or(u32::MAX).to_be_bytes()
}

/// A frame on a channel.
pub fn framed(alloc: Global, channel: u16, body: &[u8]) -> Result<Vec<u8>, AllocError> {
    let mut octets = Vec::new(alloc);
    octets.extend_from_slice(&counted(body.len().saturating_add(8)))?;
    octets.extend_from_slice(&[2, 0])?;
    octets.extend_from_slice(&channel.to_be_bytes())?;
    octets.extend_from_slice(body)?;
    Ok(octets)
}
