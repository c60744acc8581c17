use std::alloc::{AllocError, Global};

/// For each index of a heap the last use that was noted there. Only the time depends on it: whoever asks for a use tests
/// whether it fits. It has four bytes for each index up to the greatest one.
#[derive(Drop)]
pub struct LastUses {
    by_index: Vec<u32>,
}

impl LastUses {
    /// No use yet. The call does not allocate.
    pub fn new(alloc: Global) -> LastUses {
        LastUses {
            by_index: Vec::new(alloc),
        }
    }

    /// The last use that was noted at an index, and some other number if none was.
    pub fn get(&self, index: u32) -> Option<usize> {
        let last = *self.by_index.get(index as usize)?;
        Some(last as usize)
    }

    /// Notes a use at an index.
    pub fn note(&mut self, index: u32, noted: usize) -> Result<(), AllocError> {
        let index = index as usize;
        if index >= self.by_index.len() {
            self.by_index.resize(index + 1, 0)?;
        }
        if let Some(slot) = self.by_index.get_mut(index) {
            *slot = u32::try_from(noted).unwrap_or(0);
        }
        Ok(())
    }
}
