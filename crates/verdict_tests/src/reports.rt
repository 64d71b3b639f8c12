//! A report with a line of each kind; the digest of its certificate was made with `sha256sum`.

use bbm_rule::Cell;
use border_match::BorderFault;
use certificate::read_certificate;
use core_book::{ReportLine, Verdict};
use local_run::{Fault, Kind};
use report::report_text;
use std::alloc::{AllocError, Global};
use test_support::{closed_feed, read_circuit_and_layout};

/// A ball that is to stay where it is, in no time.
const BUNDLE: &str =
    "circuit\ninput a\noutput a\nend\nlayout 2 2 0\nin a 0 0\nout a 0 0\nend\ncertificate 1\nmodule 0 0 2 2\ncut a\nend\n";

const REPORT: &str =
    "bbmcheck 1\ncertificate bda66fd5bf4b575cd620b6e9721d08146e60dca7040b28ffbd2f36423bce61f6\nmodules 1\nverdict no\nlocal 0 edge 5 0 1 1023\nlocal 0 stop 12 3 4 0\nborder 1023 4095 511 7\nlocal 0 end 4096 64 2 2\n";

fn local(kind: Kind, time: u32, x: i32, y: i32, assignment: u32) -> ReportLine {
    ReportLine::Local {
        module: 0,
        fault: Fault {
            time,
            kind,
            cell: Cell { x, y },
            assignment,
        },
    }
}

/// Returns a no with these lines, which no bundle has.
fn verdict(alloc: Global) -> Result<Verdict, AllocError> {
    let border = ReportLine::Border {
        module: 1023,
        fault: BorderFault {
            time: 4095,
            cell: Cell { x: 511, y: 7 },
        },
    };
    let lines = vec![in alloc;
        local(Kind::Edge, 5, 0, 1, 1023),
        local(Kind::Stop, 12, 3, 4, 0),
        border,
        local(Kind::End, 4096, 64, 2, 2),
    ]?;
    Ok(Verdict::No(lines))
}

#[test]
fn report_text_of_a_no(rt: HostRuntime) {
    let mut feed = closed_feed(rt.alloc(), BUNDLE.as_bytes()).expect(&rt, "a text");
    let (circuit, layout) = read_circuit_and_layout(rt.alloc(), &mut feed).expect(
        &rt,
        "two sections",
    );
    let certificate = read_certificate(rt.alloc(), &mut feed, &circuit, &layout);
    let certificate = certificate.expect(&rt, "a certificate");
    let verdict = verdict(rt.alloc()).expect(&rt, "a verdict");
    let text = report_text(rt.alloc(), &certificate, &verdict).expect(&rt, "a report");
    assert!(rt; text.as_slice() == REPORT.as_bytes());
}
