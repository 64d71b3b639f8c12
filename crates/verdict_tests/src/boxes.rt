//! Boxes, their rings and halos.

use bbm_rule::Cell;
use module_box::Box2;

// `#` for a cell of the ring, `.` for another cell of the box, `o` for a cell of the halo, and a space for any other
fn ring_halo_sign_of_cell(area: Box2, cell: Cell) -> u8 {
    if area.in_ring(cell) {
        b'#'
    } else if area.in_halo(cell) {
        b'o'
    } else if area.holds(cell) {
        b'.'
    } else {
        b' '
    }
}

// A box, and the cells from three before the plane's quarter on. All cells of the least box are in its ring, and its
// halo goes round the corner of the quarter.
const PICTURES: [(Box2, [&[u8; 11]; 12]); 2] = [
    (
        Box2 {
            x: 2,
            y: 4,
            w: 4,
            h: 4,
        },
        [
            b"           ",
            b"           ",
            b"           ",
            b"           ",
            b"           ",
            b"           ",
            b"    oooooo ",
            b"    o####o ",
            b"    o#..#o ",
            b"    o#..#o ",
            b"    o####o ",
            b"    oooooo ",
        ],
    ),
    (
        Box2 {
            x: 0,
            y: 0,
            w: 2,
            h: 2,
        },
        [
            b"           ",
            b"           ",
            b"  oooo     ",
            b"  o##o     ",
            b"  o##o     ",
            b"  oooo     ",
            b"           ",
            b"           ",
            b"           ",
            b"           ",
            b"           ",
            b"           ",
        ],
    ),
];

#[test]
fn ring_and_halo_of_a_box(rt: HostRuntime) {
    for (area, picture) in PICTURES {
        for y in 0..12usize {
            for x in 0..11usize {
                let cell = Cell {
                    x: x as i32 - 3,
                    y: y as i32 - 3,
                };
                assert!(rt;
                    ring_halo_sign_of_cell(area, cell) == picture[y][x],
                    "{cell:?}"
                );
            }
        }
    }
}
