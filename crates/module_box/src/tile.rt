//! The table of which box has each block of a rectangle.

ghost use Rattle.std.specs.Prelude.{◌≡◌, ◌<◌, ◌≤◌, ◌+◌, ◌↔◌, ◌*◌, IsTrue, MatchResult, Some, slice_get, length};
ghost use Rattle.bbm_rule.specs.declared.block.Box2.{Box2};
ghost use Rattle.module_box.specs.declared.tile.TileFault.TheVariants.{Memory};
ghost use Rattle.module_box.specs.Tiling.{IsTilingOwnerTable, AreFirstBoxesInside, MayHaveOwnerTable, IsTileFault, IsInside, block_corner_x, block_corner_y};
ghost use Rattle.lemmas.specs.Bounds.{max_blocks_in_row};

use crate::owners::Owners;
use crate::taking::{fill_box_until_taken, first_free_place};
use bbm_rule::{Box2, Cell};
use std::alloc::{AllocError, Global};

/// The reason why [`owner_table`] makes no table.
#[derive(Clone, Copy, Debug, PartialEq, Eq)]
pub enum TileFault {
    /// The box of this number is the first that has a cell outside the rectangle.
    Outside(usize),
    /// The block with this upper left corner lies in two boxes. All boxes are inside the rectangle, and each block
    /// before it, by y, then x, lies in exactly one.
    Overlap(Cell),
    /// The block with this upper left corner lies in no box. All boxes are inside the rectangle, and each block before
    /// it, by y, then x, lies in exactly one.
    Gap(Cell),
    /// There is no memory.
    Memory,
}

impl From<AllocError> for TileFault {
    ghost from_gives = { λ e r. r ≡ Memory };

    fn from(_e: AllocError) -> Self {
        TileFault::Memory
    }
}

// whether the box has no cell outside the rectangle from (0, 0) on
fn is_inside(width: u32, height: u32, area: Box2) -> bool
    ensures { IsTrue result ↔ IsInside width height area }
{
    let right = area.x as u64 + area.w as u64 <= width as u64;
    let bottom = area.y as u64 + area.h as u64 <= height as u64;
    right & bottom
}

// the number of the first box that is not inside, or how many there are.
fn first_box_outside(width: u32, height: u32, boxes: &[Box2]) -> usize
    ensures bound { result ≤ length boxes.now }
    ensures earlier_boxes_inside { AreFirstBoxesInside width height result boxes.now }
    ensures outside { result < length boxes.now →
        (b : Box2) × (slice_get boxes.now result ≡ Some b) × ¬ IsInside width height b }
{
    for number in 0..boxes.len() {
        let area = boxes[number];
        if !is_inside(width, height, area) {
            return number;
        }
    }
    boxes.len()
}

// the upper left cell of the block at a place.
fn block_corner(columns: usize, place: usize) -> Cell
    requires columns { (0 < columns) × (columns ≤ max_blocks_in_row) }
    requires place { place < max_blocks_in_row * columns }
    ensures { (result.x ≡ block_corner_x columns place)
        × (result.y ≡ block_corner_y columns place) }
{
    Cell {
        x: (2 * (place % columns)) as i32,
        y: (2 * (place / columns)) as i32,
    }
}

/// Returns which box has each cell of a rectangle, whose upper left corner is the cell (0, 0).
///
/// Width and height are even, from 2 to 4096 cells. Corners and sides of the boxes are even, and the sides are at least
/// 2. Boxes are numbered from 0 in the order given. It takes some steps for each block and for each box, whether there
///    is a fault or not.
///
/// # Errors
///
/// The first fault, if the boxes do not tile the rectangle. They tile it if each of its cells lies in exactly one box
/// and no box has a cell outside. The order is
///
/// - a box that is not inside, by number;
/// - a block of two by two cells that lies in two boxes or in none, by y, then x;
/// - out of memory, which may also come before a block's fault is seen.
///
/// By the law [`tile_fault_means_no_tiling`](crate::laws::tile_fault_means_no_tiling) every fault but out of memory
/// means that the boxes do not tile.
pub fn owner_table(
    alloc: Global,
    width: u32,
    height: u32,
    boxes: &[Box2],
) -> Result<Owners, TileFault>
    requires { MayHaveOwnerTable width height boxes.now }
    ensures { MatchResult result
        (λ owners. (owners.width ≡ width) × (owners.height ≡ height)
        × IsTilingOwnerTable owners boxes.now) (λ fault. IsTileFault width height boxes.now fault) }
{
    let outside = first_box_outside(width, height, boxes);
    if outside < boxes.len() {
        return Err(TileFault::Outside(outside));
    }
    let columns = width as usize / 2;
    let blocks = height as usize / 2 * columns;
    // No box has this number.
    let free = boxes.len();
    let mut numbers = vec![in alloc; free; blocks]?;
    for number in 0..boxes.len() {
        // Where a block lies in two boxes, no later one can be the first fault.
        let kept = fill_box_until_taken(&mut numbers, columns, boxes[number], free, number);
        numbers.truncate(kept);
    }
    let gap = first_free_place(&numbers, free);
    if gap < numbers.len() {
        return Err(TileFault::Gap(block_corner(columns, gap)));
    }
    if numbers.len() < blocks {
        return Err(TileFault::Overlap(block_corner(columns, numbers.len())));
    }
    Ok(Owners {
        width,
        height,
        numbers,
    })
}
