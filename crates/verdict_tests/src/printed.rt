//! Bundles that print their text again.

use certificate::{print_certificate, read_certificate};
use circuit::print_circuit;
use pattern::print_layout;
use test_support::{GOOD_BUNDLE, closed_feed, read_circuit_and_layout};

#[test]
fn four_modules_print_as_read(rt: HostRuntime) {
    let mut feed = closed_feed(rt.alloc(), GOOD_BUNDLE.as_bytes()).expect(&rt, "a text");
    let (circuit, layout) = read_circuit_and_layout(rt.alloc(), &mut feed).expect(
        &rt,
        "two sections",
    );
    let certificate = read_certificate(rt.alloc(), &mut feed, &circuit, &layout);
    let certificate = certificate.expect(&rt, "a certificate");
    let mut text = print_circuit(rt.alloc(), &circuit).expect(&rt, "the circuit's lines");
    let layout_lines = print_layout(rt.alloc(), &layout).expect(&rt, "the layout's lines");
    let lines = print_certificate(rt.alloc(), &certificate).expect(&rt, "the certificate's lines");
    text.extend_from_slice(&layout_lines)
        .expect(&rt, "room for the layout");
    text.extend_from_slice(&lines)
        .expect(&rt, "room for the certificate");
    assert!(rt; text.as_slice() == GOOD_BUNDLE.as_bytes());
}
