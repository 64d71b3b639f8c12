//! The cases of a file of cases.
use case_text::{CaseFault, read_cases};

#[test]
fn read_cases_reads_each_part(rt: HostRuntime) {
    let file =
        b"# nothing\n\ncase one\nwords check --workers 2\ninput\n| a  b\n|\n2 times | c\n3 times \\ de\noutput\n| yes\nerrors\nstatus 3\ncase two\nwords\n";
    let cases = read_cases(rt.alloc(), file).expect(&rt, "cases");
    assert!(rt; cases.len() == 2);
    let one = &cases[0];
    assert!(rt; one.name == "one" && one.status == 3);
    assert!(rt; one.words.as_slice() == ["check", "--workers", "2"].as_slice());
    assert!(rt; one.input.as_slice() == b"a  b\n\nc\nc\ndedede".as_slice());
    assert!(rt; one.output.as_deref() == Some(b"yes\n".as_slice()));
    assert!(rt; one.errors.as_deref() == Some([].as_slice()));
    let two = &cases[1];
    assert!(rt; two.words.is_empty() && two.input.is_empty() && two.status == 0);
    assert!(rt; two.output.is_none() && two.errors.is_none());
}

#[test]
fn read_cases_refuses_other_lines(rt: HostRuntime) {
    let files: [&[u8]; 8] = [
        b"case a\nword run\n",
        b"case a\ninput | a\n",
        b"case a\n|no space\n",
        b"case a\n\\\n",
        b"case a\nstatus 256\n",
        b"case a\nx times | a\n",
        b"case a\n2 times a\n",
        b"# no case\nwords run\n",
    ];
    for file in files {
        let fault = read_cases(rt.alloc(), file).err();
        assert!(rt; matches!(fault, Some(CaseFault::Line(1))));
    }
}
