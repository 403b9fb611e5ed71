// An image whose layout is refused, with what is known of it.
use crate::extents::{Extents, PoolExtent, extents_of};
use dsr_ir::{NoMemory, Spec};
use dsr_schema::pool_at;
use std::alloc::Global;

/// A specification and an image, and the numbers that it has there.
#[derive(Drop)]
pub struct Scene<'a> {
    pub spec: &'a Spec,
    pub bytes: &'a [u8],
    pub numbers: Extents,
}

impl<'a> Scene<'a> {
    /// The numbers of the specification on these bytes, as far as they are known.
    pub fn new(alloc: Global, spec: &'a Spec, bytes: &'a [u8]) -> Result<Scene<'a>, NoMemory> {
        let numbers = extents_of(alloc, spec, bytes)?;
        Ok(Scene {
            spec,
            bytes,
            numbers,
        })
    }

    /// The numbers of a pool, which counts from 1.
    pub fn pool(&self, pool: u32) -> Option<PoolExtent> {
        Some(self.numbers.pool(pool_at(&self.spec.base, pool)?))
    }

    /// The bytes of the head.
    pub fn head_bytes(&self) -> Option<u64> {
        self.numbers.bytes_of(self.spec.base.head)
    }

    /// The name of a structure.
    pub fn structure_name(&self, structure: u32) -> &[u8] {
        match self.spec.base.structures.items().get(structure as usize) {
            Some(structure) => structure.name.bytes(),
            None => b"?",
        }
    }
}
