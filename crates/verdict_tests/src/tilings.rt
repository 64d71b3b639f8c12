//! Which boxes tile a rectangle.
ghost use Rattle.std.specs.Prelude.{◌≡◌, ◌%◌};

use bbm_rule::Cell;
use module_box::{Box2, TileFault, owner_table};
use std::alloc::Global;

const QUARTERS: [Box2; 4] = [
    Box2 {
        x: 0,
        y: 0,
        w: 4,
        h: 4,
    },
    Box2 {
        x: 4,
        y: 0,
        w: 4,
        h: 4,
    },
    Box2 {
        x: 0,
        y: 4,
        w: 4,
        h: 4,
    },
    Box2 {
        x: 4,
        y: 4,
        w: 4,
        h: 4,
    },
];

fn owner_among_quarters(alloc: Global, cell: Cell) -> Option<usize> {
    let whole = Box2 {
        x: 0,
        y: 0,
        w: 8,
        h: 8,
    };
    match owner_table(alloc, 8, 8, &QUARTERS) {
        Ok(owners) if whole.holds(cell) => Some(owners.owner(cell)),
        _ => None,
    }
}

#[test]
fn quarters_tile(rt: HostRuntime) {
    for y in 0..8usize {
        for x in 0..8usize {
            let cell = Cell {
                x: x as i32,
                y: y as i32,
            };
            let owner = owner_among_quarters(rt.alloc(), cell);
            assert!(rt; owner == Some(2 * (y / 4) + x / 4), "{x} {y}");
        }
    }
}

// what is wrong with the first three quarters and one more box of their size
fn tile_fault_with_fourth_box(alloc: Global, x: u32, y: u32) -> Option<TileFault>
    requires { (x % 2 ≡ 0) × (y % 2 ≡ 0) }
{
    let mut boxes = QUARTERS;
    boxes[3] = Box2 { x, y, w: 4, h: 4 };
    owner_table(alloc, 8, 8, &boxes).err()
}

#[test]
fn tile_faults_are_found(rt: HostRuntime) {
    let gap = owner_table(rt.alloc(), 8, 8, &[]).err();
    assert!(rt; gap == Some(TileFault::Gap(Cell { x: 0, y: 0 })));
    let gap = owner_table(rt.alloc(), 8, 8, &QUARTERS[..3]).err();
    assert!(rt; gap == Some(TileFault::Gap(Cell { x: 4, y: 4 })));
    let overlap = tile_fault_with_fourth_box(rt.alloc(), 2, 4);
    assert!(rt; overlap == Some(TileFault::Overlap(Cell { x: 2, y: 4 })));
    let outside = tile_fault_with_fourth_box(rt.alloc(), 6, 4);
    assert!(rt; outside == Some(TileFault::Outside(3)));
}
