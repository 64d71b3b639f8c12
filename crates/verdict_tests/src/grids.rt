//! A grid that a ball leaves, and the largest grid.

use bbm_rule::{Cell, Grid, Left};
use pattern::LayoutHeader;

fn is_live(grid: &Grid, x: i32, y: i32) -> bool {
    let cell = Cell { x, y };
    grid.holds(cell) && grid.get(cell)
}

fn put(grid: &mut Grid, cells: &[(i32, i32)]) {
    for (x, y) in cells {
        let cell = Cell { x: *x, y: *y };
        if grid.holds(cell) {
            grid.set(cell, true);
        }
    }
}

// whether these cells are live, and no other with coordinates from -1 to 9
fn shows(grid: &Grid, cells: &[(i32, i32)]) -> bool {
    for y in -1..10 {
        for x in -1..10 {
            if is_live(grid, x, y) != cells.contains(&(x, y)) {
                return false;
            }
        }
    }
    true
}

// each corner of the grid is alone in its block of an odd step, and no even step moves it out
#[test]
fn corner_ball_leaves_grid(rt: HostRuntime) {
    for (x, y) in [(0, 0), (5, 0), (0, 3), (5, 3)] {
        let mut grid = Grid::new(rt.alloc(), 6, 4).expect(&rt, "a grid");
        put(&mut grid, &[(x, y), (3, 1), (3, 2)]);
        assert!(rt; grid.step(1) == Err(Left), "{x} {y}");
        assert!(rt; shows(&grid, &[(x, y), (3, 1), (3, 2)]), "{x} {y}");
        assert!(rt; grid.step(2) == Ok(()), "{x} {y}");
    }
}

#[test]
fn the_largest_grid_steps(rt: HostRuntime) {
    let mut grid = Grid::new(rt.alloc(), 1024, 1024).expect(&rt, "a grid");
    put(&mut grid, &[(1023, 1023), (512, 512)]);
    assert!(rt; grid.step(1) == Err(Left));
    for (time, corner) in [(0, 1022), (1, 1021)] {
        assert!(rt; grid.step(time) == Ok(()));
        assert!(rt; is_live(&grid, corner, corner) && !is_live(&grid, corner + 1, corner + 1));
    }
}

// a grid, and a layout of its size
#[test]
fn grid_and_layout_hold_own_cells(rt: HostRuntime) {
    let grid = Grid::new(rt.alloc(), 6, 4).expect(&rt, "a grid");
    let size = LayoutHeader {
        w: 6,
        h: 4,
        steps: 7,
    };
    for (x, y, inside) in [
        (0, 0, true),
        (5, 3, true),
        (6, 3, false),
        (5, 4, false),
        (-1, 0, false),
        (0, -1, false),
    ] {
        let cell = Cell { x, y };
        assert!(rt;
            grid.holds(cell) == inside && size.holds(cell) == inside,
            "{x} {y}"
        );
    }
}
