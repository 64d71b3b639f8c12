//! The wires of a module and their values. The expected results follow from the gates' tables.

ghost use Rattle.std.specs.Prelude.{◌<◌, ◌≤◌};

use certificate::Job;
use module_box::{LocalValuesError, Wiring};
use std::alloc::{AllocError, Global};
use std::process::Abort;
use std::sync::Arc;
use test_support::work_of;

// a gate of each kind, the first four over the inputs
const GATES: &str = "circuit
input a
input b
input c
input d
input e
input f
input g
input h
input i
input j
fredkin a b c -> k l m
cswap d e f -> n o p
interact g h -> q r s t
switch i j -> u v w
source 1 -> x
delay 7 x -> y
output k
spill l
spill m
spill n
spill o
spill p
spill q
spill r
spill s
spill t
spill u
spill v
spill w
spill y
end
layout 64 2 0
in a 0 0
in b 1 0
in c 2 0
in d 3 0
in e 4 0
in f 5 0
in g 6 0
in h 7 0
in i 8 0
in j 9 0
out k 0 1
end
certificate 1
module 0 0 64 2
cut a
cut b
cut c
cut d
cut e
cut f
cut g
cut h
cut i
cut j
use 0
use 1
use 2
use 3
use 4
use 5
end
";

// bits for the cuts, and the values of the wires a to y: the cuts have the bits, the others follow
const TABLE: [(u32, &str); 9] = [
    (0, "0000000000000000000000011"),
    (329, "1001001010100100001010011"),
    (658, "0100100101001010010000111"),
    (987, "1101101111110101100111011"),
    (36, "0010010000010001000000011"),
    (365, "1011011010101110001010011"),
    (694, "0110110101011011010000111"),
    (1023, "1111111111111111100111011"),
    // higher bits are of no cut
    (1023 + 5 * 1024, "1111111111111111100111011"),
];

// three gates and no cut
const NO_CUTS: &str =
    "circuit\nsource 1 -> a\ndelay 3 a -> b\nsource 0 -> c\noutput b\noutput c\nend\nlayout 2 2 0\nout b 0 0\nout c 1 0\nend\ncertificate 1\nmodule 0 0 2 2\nuse 0\nuse 1\nuse 2\nend\n";

const OTHER_DELAY: &str =
    "circuit\nsource 1 -> a\ndelay 4 a -> b\nsource 0 -> c\noutput b\noutput c\nend\nlayout 2 2 0\nout b 0 0\nout c 1 0\nend\ncertificate 1\nmodule 0 0 2 2\nuse 0\nuse 1\nuse 2\nend\n";

const NO_CUTS_TABLE: [(u32, &str); 3] = [(0, "110"), (1, "110"), (63, "110")];

fn are_values(values: &[bool], digits: &str) -> bool {
    for (value, digit) in values.iter().zip(digits.as_bytes()) {
        if *value != (*digit == b'1') {
            return false;
        }
    }
    values.len() == digits.len()
}

// whether the rows, of `words` words each, have these values under an assignment
fn have_values(rows: &[u64], words: usize, bits: u32, digits: &str) -> bool
    requires { 0 < words }
{
    for (row, digit) in rows.chunks(words).zip(digits.as_bytes()) {
        let word = row.get(bits as usize / 64).copied().unwrap_or(0);
        if (word >> (bits % 64)) % 2 != u64::from(*digit == b'1') {
            return false;
        }
    }
    rows.len() / words == digits.len()
}

// whether a module's wires have the values of a table, under one assignment at a time and under many at once
fn has_values_of_table(
    alloc: Global,
    wiring: &Wiring,
    words: usize,
    table: &[(u32, &str)],
) -> Result<bool, AllocError>
    requires { (0 < words) × (words ≤ 16) }
{
    let rows = wiring.value_rows(alloc, words)?;
    for (bits, digits) in table {
        let alone = match wiring.local_values(alloc, *bits) {
            Ok(values) => are_values(&values, digits),
            Err(LocalValuesError::NoRow(_)) => false,
            Err(LocalValuesError::Memory) => return Err(AllocError),
        };
        if !alone || !(*bits > 1023 || have_values(&rows.values, words, *bits, digits)) {
            return Ok(false);
        }
    }
    Ok(true)
}

// the job of a bundle's only module
fn only_job(rt: &impl Abort, alloc: Global, text: &str) -> Arc<Job> {
    let mut jobs = work_of(alloc, text).expect(rt, "work").jobs;
    jobs.pop().expect(rt, "a job")
}

#[test]
fn wires_have_values_of_table(rt: HostRuntime) {
    let job = only_job(&rt, rt.alloc(), GATES);
    let wiring = job.wiring();
    assert!(rt;
        has_values_of_table(rt.alloc(), wiring, 16, &TABLE) == Ok(true) && wiring.wires() == 25
    );
    for wire in 0..25 {
        assert!(rt; job.wire(wire).number() == wire, "{wire}");
    }
}

#[test]
fn values_without_cuts(rt: HostRuntime) {
    let job = only_job(&rt, rt.alloc(), NO_CUTS);
    assert!(rt; has_values_of_table(rt.alloc(), job.wiring(), 1, &NO_CUTS_TABLE) == Ok(true));
    let same = only_job(&rt, rt.alloc(), NO_CUTS);
    let other = only_job(&rt, rt.alloc(), OTHER_DELAY);
    assert!(rt; job.wiring() == same.wiring() && job.wiring() != other.wiring());
}

// a gate that turns a switch back and is fed from elsewhere, and behind it one that turns an interaction back
const INVERSE_TEXT: &str =
    "circuit\ninput c\ninput y\ninput z\ninput e\nunswitch c y z -> d x\nsource 0 -> s\nuninteract d x e s -> p q\noutput p\noutput q\nend\nlayout 2 2 0\nin c 0 0\nin y 1 0\nin z 0 1\nin e 1 1\nout p 0 0\nout q 1 0\nend\ncertificate 1\nmodule 0 0 2 2\ncut c\ncut y\ncut z\ncut e\nuse 0\nuse 1\nuse 2\nkeep 2\nend\n";

// The wires are c, y, z, e, d, x, s, p and q. The first gate has no row where c and z, or y without c; the other where
// d, and where x and e.
const INVERSE_TABLE: [(u32, &str); 4] = [
    (0, "000000000"),
    (4, "001001001"),
    (8, "000100010"),
    (8 + 16, "000100010"),
];

#[test]
fn assignments_without_row(rt: HostRuntime) {
    let job = only_job(&rt, rt.alloc(), INVERSE_TEXT);
    let wiring = job.wiring();
    assert!(rt;
        has_values_of_table(rt.alloc(), wiring, 1, &INVERSE_TABLE) == Ok(true)
            && wiring.gates() == 3
    );
    for (bits, place) in [
        (2, 0),
        (5, 0),
        (6, 0),
        (7, 0),
        (10, 0),
        (1, 2),
        (3, 2),
        (9, 2),
        (11, 2),
        (12, 2),
    ] {
        let fault = wiring.local_values(rt.alloc(), bits).err();
        assert!(rt; fault == Some(LocalValuesError::NoRow(place)), "{bits}");
    }
    let rows = wiring.value_rows(rt.alloc(), 1).expect(&rt, "rows");
    assert!(rt;
        rows.undefined.as_slice() == [0xE4E4_E4E4_E4E4_E4E4, 0, 0x1A0A_1A0A_1A0A_1A0A].as_slice()
    );
    assert!(rt; rows.defined.as_slice() == [0x0111_0111_0111_0111].as_slice());
    assert!(rt;
        !job.keeps_gate(0)
            && !job.keeps_gate(1)
            && job.keeps_gate(2)
            && job.circuit_gate_number(2) == 2
    );
}

#[test]
fn wiring_in_numbers(rt: HostRuntime) {
    let job = only_job(&rt, rt.alloc(), NO_CUTS);
    let numbers = job.wiring().numbers(rt.alloc()).expect(&rt, "numbers");
    // no cut and three gates: a source of 1 that defines wire 0, a delay of 3 from there to wire 1, a source of 0 that
    // defines wire 2
    let wanted = [0, 3, 0, 1, 0, 1, 0, 5, 3, 1, 0, 1, 1, 0, 0, 0, 1, 2];
    assert!(rt; numbers.as_slice() == wanted.as_slice());
}
