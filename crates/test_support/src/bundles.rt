//! A bundle of four modules, worked out by hand.

/// A bundle of two balls that meet in the middle of four modules: it is accepted.
pub const GOOD_BUNDLE: &str =
    "circuit\ninput p\ninput q\ninteract p q -> a b c d\noutput a\noutput b\noutput c\noutput d\nend\nlayout 8 8 3\nin p 2 2\nin q 5 5\nout a 5 2\nout b 2 2\nout c 5 5\nout d 2 5\nend\ncertificate 1\nmodule 0 0 4 4\ncut p\ncut q\nuse 0\nedge 1 3 3 p\nhalo 1 4 4 q\nmodule 4 0 4 4\ncut p\ncut q\nuse 0\nhalo 1 3 3 p\nhalo 1 4 4 q\nmodule 0 4 4 4\ncut p\ncut q\nuse 0\nhalo 1 3 3 p\nhalo 1 4 4 q\nmodule 4 4 4 4\ncut p\ncut q\nuse 0\nedge 1 4 4 q\nhalo 1 3 3 p\nend\n";

/// The same bundle, but the first module does not say that q is at (4, 4) at time 1.
pub const BAD_BUNDLE: &str =
    "circuit\ninput p\ninput q\ninteract p q -> a b c d\noutput a\noutput b\noutput c\noutput d\nend\nlayout 8 8 3\nin p 2 2\nin q 5 5\nout a 5 2\nout b 2 2\nout c 5 5\nout d 2 5\nend\ncertificate 1\nmodule 0 0 4 4\ncut p\ncut q\nuse 0\nedge 1 3 3 p\nmodule 4 0 4 4\ncut p\ncut q\nuse 0\nhalo 1 3 3 p\nhalo 1 4 4 q\nmodule 0 4 4 4\ncut p\ncut q\nuse 0\nhalo 1 3 3 p\nhalo 1 4 4 q\nmodule 4 4 4 4\ncut p\ncut q\nuse 0\nedge 1 4 4 q\nhalo 1 3 3 p\nend\n";
