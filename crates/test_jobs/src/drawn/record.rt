use std::alloc::{AllocError, Global};

/// A job as it is written, with the place of each of its records.
#[derive(Drop)]
pub(crate) struct Written {
    pub(crate) bytes: Vec<u8>,
    pub(crate) places: Vec<usize>,
}

impl Written {
    pub(crate) fn new(alloc: Global) -> Written {
        Written {
            bytes: Vec::new(alloc),
            places: Vec::new(alloc),
        }
    }

    /// Writes a record behind the others.
    pub(crate) fn record(&mut self, mark: &[u8; 2], bytes: &[u8]) -> Result<(), AllocError> {
        self.places.push(self.bytes.len())?;
        write(&mut self.bytes, mark, bytes)
    }
}

/// Writes a record. Of a length above 65,535 only the two low bytes are written.
pub(crate) fn write(job: &mut Vec<u8>, mark: &[u8; 2], bytes: &[u8]) -> Result<(), AllocError> {
    let [low, high] = ((bytes.len() & 0xffff) as u16).to_le_bytes();
    job.extend_from_slice(mark)?;
    job.extend_from_slice(&[low, high])?;
    job.extend_from_slice(bytes)
}
