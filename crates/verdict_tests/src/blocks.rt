//! The rule of a block, and many blocks at a time.
ghost use Rattle.std.specs.Prelude.{◌≤◌};

use bbm_rule::{turn, turn_lanes, turn_words};

// what each block becomes, from block 0 on
const TURNED: [u8; 16] = [0, 8, 4, 3, 2, 5, 9, 7, 1, 6, 10, 11, 12, 13, 14, 15];

// bit k of these words is bit 0, 1, 2 and 3 of block k, and of what block k becomes
const BLOCKS: [u64; 4] = [0xAAAA, 0xCCCC, 0xF0F0, 0xFF00];

const TURNED_BLOCKS: [u64; 4] = [0xA9E8, 0xCE98, 0xF2A4, 0xFC42];

#[test]
fn turns_each_block(rt: HostRuntime) {
    for (bits, turned) in TURNED.iter().enumerate() {
        assert!(rt; bits < 16);
        assert!(rt; turn(bits as u8) == *turned, "at {bits}");
    }
    let [a, b, c, d] = BLOCKS;
    let (a, b, c, d) = turn_words(a, b, c, d);
    assert!(rt; [a, b, c, d] == TURNED_BLOCKS);
}

// the word, then the word turned left by one bit, and so on
fn rotations(word: u64) -> [u64; 17] {
    let mut lanes = [0; 17];
    let mut lane = word;
    for place in &mut lanes {
        *place = lane;
        lane = lane.rotate_left(1);
    }
    lanes
}

// whether the first `count` of these are the first rotations of the word
fn are_rotations_of_word(found: &[u64; 17], word: u64, count: usize) -> bool {
    rotations(word)
        .iter()
        .take(count)
        .eq(found.iter().take(count))
}

// whether the first `count` lanes of the four corners are turned
fn are_rotated_blocks_turned(count: usize) -> bool
    requires { count ≤ 17 }
{
    let [mut a, mut b, mut c, mut d] = BLOCKS.map(rotations);
    turn_lanes(
        &mut a[..count],
        &mut b[..count],
        &mut c[..count],
        &mut d[..count],
    );
    let [one, two, three, four] = TURNED_BLOCKS;
    are_rotations_of_word(&a, one, count)
        & are_rotations_of_word(&b, two, count)
        & are_rotations_of_word(&c, three, count)
        & are_rotations_of_word(&d, four, count)
}

// from no lane to four vectors of lanes and one more
#[test]
fn turn_lanes_at_each_length(rt: HostRuntime) {
    for count in 0..18usize {
        assert!(rt; are_rotated_blocks_turned(count), "{count}");
    }
}
