//! The blocks of both partitions, by the numbers of their cells in four planes.

ghost use Rattle.lanes.specs.Blocks.{block_at};
ghost use Rattle.std.specs.Prelude.{◌≡◌, ◌+◌, ◌^◌, ◌<◌};

/// A partition of the cells into blocks.
#[derive(Clone, Copy)]
pub enum Partition {
    /// The blocks whose upper left corner is odd. They fill box and halo.
    Odd,
    /// The blocks whose upper left corner is even. They fill the box.
    Even,
}

/// A diagonal of a block, which has one cell in each plane.
#[derive(Clone, Copy)]
pub enum Diagonal {
    /// The cells in the planes `odd` and `even`.
    Main,
    /// The cells in the planes `right` and `down`.
    Anti,
}

/// The place of each cell of a block in its plane.
///
/// The cells in the planes `odd` and `even` are on one diagonal of the block, its main one. In a block of the odd
/// partition the first of them is the upper left one, in a block of the even partition the lower right one. The rule is
/// the same after half a turn, so no step asks which.
#[derive(Clone, Copy)]
pub struct BlockPlaces {
    /// The place in the plane `odd`.
    pub odd: usize,
    /// The place in the plane `right`.
    pub right: usize,
    /// The place in the plane `down`.
    pub down: usize,
    /// The place in the plane `even`.
    pub even: usize,
}

impl Partition {
    /// Returns the cells of block u, in planes whose rows have `stride` cells.
    #[inline(always)]
    pub fn block_places(self, u: usize, stride: usize) -> BlockPlaces
        requires { u + stride + 1 < 2 ^ 32 }
        ensures { result ≡ block_at self stride u }
    {
        match self {
            Partition::Odd => BlockPlaces {
                odd: u,
                right: u,
                down: u,
                even: u,
            },
            Partition::Even => BlockPlaces {
                odd: u + stride + 1,
                right: u + stride,
                down: u + 1,
                even: u,
            },
        }
    }
}
