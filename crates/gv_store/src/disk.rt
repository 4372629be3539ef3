//! One disk.

ghost use Rattle.std.specs.Prelude.{◌≡◌, ◌<◌, Some, true, length, IfOk};
ghost use Rattle.gv_world.specs.Cells.{bytes_in};
ghost use Rattle.gv_world.specs.Disks as disks;
ghost use Rattle.gv_world.specs.Store as world;

use gv_base::NoMemory;
use gv_cells::bytes_into;
use gv_world::Cell;
use std::alloc::Global;
use std::marker::Model;

/// How many bytes a block has. This project's own.
pub const BLOCK_BYTES: usize = 4096;

/// A disk, which contracts see as the definition's: its blocks and whether it has failed. Its bytes stand
/// once, in one piece of memory. This project's own.
#[derive(Debug, Drop)]
pub struct Disk {
    blocks: Vec<[u8; BLOCK_BYTES]>,
    failed: bool,
}

impl Model for Disk {
    ghost use Rattle.gv_world.specs.Store as world;

    ghost Value = { world.Disk };

    ghost view = { λ d. record { blocks = d.blocks.items; failed = d.failed } };
}

impl Disk {
    /// A disk of so many blocks, all bytes zero.
    pub fn zero(alloc: Global, blocks: u32) -> Result<Disk, NoMemory>
        ensures { IfOk result (λ disk. disk ≡ world.zero_disk blocks) }
    {
        let mut zeros = Vec::with_capacity(alloc, blocks as usize)?;
        for _i in 0..blocks {
            zeros.push([0; BLOCK_BYTES])?;
        }
        Ok(Disk {
            blocks: zeros,
            failed: false,
        })
    }

    /// How many blocks it has.
    pub fn len(&self) -> usize
        ensures { result ≡ length self.now.blocks }
    {
        self.blocks.len()
    }

    /// Whether it has failed.
    pub fn has_failed(&self) -> bool
        ensures { result ≡ self.now.failed }
    {
        self.failed
    }

    /// The bytes of a block.
    pub fn block(&self, at: usize) -> &[u8]
        requires { at < length self.now.blocks }
        ensures { disks.block_of self.now at ≡ Some result.now }
    {
        &self.blocks[at]
    }

    /// Writes the bytes of so many cells as a block has; a disk that has failed stays as it is.
    pub fn write(&mut self, at: usize, cells: &[Cell])
        requires within { at < length self.old.blocks }
        requires whole { length cells.now ≡ 4096 }
        ensures { self.new ≡ disks.with_block self.old at (bytes_in cells.now) }
    {
        if !self.failed {
            bytes_into(cells, &mut self.blocks[at]);
        }
    }

    /// Fails.
    pub fn fail(&mut self)
        ensures { self.new ≡ record self.old { failed = true } }
    {
        self.failed = true;
    }
}
