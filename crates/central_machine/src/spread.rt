//! Numbers at many places, most of which stay 0.

ghost use Rattle.std.specs.Prelude.{◌≡◌, ◌<◌, ℕ, ◌==◌, length, slice_index_or, slice_get, IfOk, OnOk, if◌then◌else◌, true, false};
ghost use Rattle.central_machine.specs.Spread.{is_of, number_at, has_place, IsPutIn, IsPutAt};

use std::alloc::{AllocError, Global};

/// So many places lie in a block, side by side.
const BLOCK: usize = 16;

/// The numbers of some places side by side, and which block of places these are.
#[derive(Clone, Copy)]
pub struct Block {
    pub owner: usize,
    pub numbers: [u64; 16],
}

/// Numbers at so many places. A block of places gets its numbers when one of them is put first, behind
/// those of the blocks before; till then they are 0. The spot of a block tells where they may lie: a
/// block that has none yet has a spot at those of another, or at none.
///
/// Source: Briggs and Torczon 1993 for sets that need not be cleared, this project for the blocks.
#[derive(Drop)]
pub struct Spread {
    pub spots: Vec<usize>,
    pub blocks: Vec<Block>,
}

impl Block {
    /// A block whose numbers are 0, but for one.
    fn made(owner: usize, offset: usize, n: u64) -> Block
        requires inside { offset < 16 }
        ensures owner { result.owner ≡ owner }
        ensures numbers { (p : ℕ) → slice_index_or result.numbers p 0
            ≡ (if offset == p then n else 0) }
    {
        let mut numbers = [0; 16];
        numbers[offset] = n;
        Block { owner, numbers }
    }

    /// Puts a number.
    fn put(&mut self, offset: usize, n: u64)
        requires inside { offset < 16 }
        ensures owner { self.new.owner ≡ self.old.owner }
        ensures numbers { (p : ℕ) → slice_index_or self.new.numbers p 0
            ≡ (if offset == p then n else slice_index_or self.old.numbers p 0) }
    {
        self.numbers[offset] = n;
    }
}

impl Spread {
    /// So many places with 0. Takes memory for a number for each 16 of them.
    pub fn zeros(alloc: Global, n: usize) -> Result<Spread, AllocError>
        ensures { IfOk result (λ made. (g : ℕ) → g < n →
            (has_place made g ≡ true) × (number_at made g ≡ 0)) }
    {
        Ok(Spread {
            spots: Vec::from_elem(alloc, 0usize, n / BLOCK + 1)?,
            blocks: Vec::new(alloc),
        })
    }

    /// The spot of a block.
    #[inline(always)]
    fn spot(&self, block: usize) -> usize
        ensures { result ≡ slice_index_or self.now.spots.items block 0 }
    {
        match self.spots.get(block) {
            Some(spot) => *spot,
            None => 0,
        }
    }

    /// The number at a place, 0 where there is none.
    #[inline(always)]
    pub fn at(&self, place: usize) -> u64
        ensures { result ≡ number_at self.now place }
    {
        let number = place / BLOCK;
        match self.blocks.get(self.spot(number)) {
            Some(block) => {
                if block.owner == number {
                    block.numbers[place % BLOCK]
                } else {
                    0
                }
            }
            None => 0,
        }
    }

    /// Whether the numbers of a block lie at a spot.
    #[inline(always)]
    fn lies_at(&self, spot: usize, block: usize) -> bool
        ensures { result ≡ is_of block (slice_get self.now.blocks.items spot) }
    {
        match self.blocks.get(spot) {
            Some(found) => found.owner == block,
            None => false,
        }
    }

    /// Puts a number into a block that has its numbers at its spot.
    #[inline(always)]
    fn overwrite(&mut self, spot: usize, block: usize, offset: usize, n: u64)
        requires inside { offset < 16 }
        requires spot { spot ≡ slice_index_or self.now.spots.items block 0 }
        requires there { is_of block (slice_get self.now.blocks.items spot) ≡ true }
        ensures { IsPutIn self.old self.new block offset n }
    {
        if let Some(found) = self.blocks.get_mut(spot) {
            found.put(offset, n);
        }
    }

    /// Puts a number into a block that has no numbers yet, which it gets behind those of the others.
    fn make(&mut self, block: usize, offset: usize, n: u64) -> Result<(), AllocError>
        requires inside { offset < 16 }
        requires spot { block < length self.now.spots.items }
        requires missing { is_of block (slice_get self.now.blocks.items
            (slice_index_or self.now.spots.items block 0)) ≡ false }
        ensures { OnOk result (IsPutIn self.old self.new block offset n) }
    {
        let spot = self.blocks.len();
        self.blocks.push(Block::made(block, offset, n))?;
        self.spots[block] = spot;
        Ok(())
    }

    /// Puts a number at a place, and does nothing where there is none. The first put into a block
    /// takes memory for the numbers of its 16 places; the error is want of it.
    #[inline(always)]
    pub fn put(&mut self, place: usize, n: u64) -> Result<(), AllocError>
        ensures { OnOk result (IsPutAt self.old self.new place n) }
    {
        let block = place / BLOCK;
        let offset = place % BLOCK;
        if block >= self.spots.len() {
            return Ok(());
        }
        let spot = self.spot(block);
        if self.lies_at(spot, block) {
            self.overwrite(spot, block, offset, n);
            return Ok(());
        }
        self.make(block, offset, n)
    }
}
