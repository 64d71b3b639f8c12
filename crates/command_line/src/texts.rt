//! The texts of help and of the version. The man page and the completions are made of what is printed of them.

/// The help of a command.
#[derive(Clone, Copy)]
pub struct Help {
    /// The purpose of the command, for the list of commands.
    pub about: &'static str,
    /// The words of a call.
    pub usage: &'static str,
    /// All that `--help` prints.
    pub text: &'static str,
}

// The help of a command, from what it does, its usage, what it reads and writes, its own statuses beside those that
// each command has, the list of its commands, its options and an example.
macro_rules! help {
    (
        $about:literal,
        $usage:literal,
        $reads:literal,
        $writes:literal,
        [$($status:literal),+],
        [$($command:literal),*],
        [$($option:literal),+],
        $example:literal
    ) => {
        Help {
            about: $about,
            usage: $usage,
            text: concat!(
                $about,
                "\n\nReads: ",
                $reads,
                "\nWrites: ",
                $writes,
                "\n\nExit statuses:\n",
                $("  ", $status, "\n",)+
                "  2  the arguments are wrong\n",
                "  3  the text was refused, with the line `refused LINE CODE`\n",
                "  4  a read or a write failed, or the text is longer than its limit\n",
                "  5  memory ran out\n",
                "\nUsage: ",
                $usage,
                $($command,)*
                "\n\nOptions:\n",
                $($option, "\n",)+
                "\nExample:\n  ",
                $example,
            ),
        }
    };
}

/// The text that `--version` prints after the program's name.
///
/// It has the program's number, the sections that it reads by their headers, the line of larger limits, and the kit
/// that proved it, as `rt version` prints it.
pub const VERSION: &str = concat!(
    "1.1.10\n",
    "reads circuit, layout, assign, certificate 1, certificate 2, limits 2\n",
    "proved by rattle-kit-13b logic dac8208d650f15bf",
);

/// The message on numbers of workers that are not accepted.
pub const WORKERS: &str =
    "'--workers <N>' takes a whole number from 1 to 64, for example '--workers 4'";

/// The help of the program.
pub const PROGRAM: Help = help!(
    "Checks that a layout of the billiard ball automaton computes a circuit",
    "bbmcheck <COMMAND> < TEXT",
    "one text, of at most 16 MiB, from standard input; 256 MiB if it begins with\n  the line `limits 2`",
    "the answer to standard output; messages about wrong arguments, and one\n  line for status 4 or 5, to standard error",
    [
        "0  the verdict is yes, another command is done, or help or the version was asked for",
        "1  the verdict is no, a ball left the rectangle, or a gate has no row for its inputs"
    ],
    [
        "\n\nCommands:\n",
        "  check    Checks a layout against its circuit by a certificate\n",
        "  run      Runs a layout under an assignment\n",
        "  value    Evaluates a circuit under an assignment\n",
        "  modules  Lists the modules of a certificate\n",
        "  migrate  Writes a bundle in certificate version 2\n",
        "  help     Print this message or the help of the given subcommand(s)"
    ],
    [
        "  -h, --help     Print help",
        "  -V, --version  Print version"
    ],
    "bbmcheck check < bundle.txt"
);

/// The help of `check`.
pub const CHECK: Help = help!(
    "Checks a layout against its circuit by a certificate",
    "bbmcheck check [--workers N] < BUNDLE",
    "a bundle, which is a circuit, a layout for it and a certificate for both",
    "a report, with the digest of the certificate, the verdict and its reasons",
    ["0  the verdict is yes", "1  the verdict is no"],
    [],
    [
        "      --workers <N>  How many workers share the modules, 1 to 64 [default: 1]",
        "  -h, --help         Print help"
    ],
    "bbmcheck check < bundle.txt"
);

/// The help of `run`.
pub const RUN: Help = help!(
    "Runs a layout under an assignment",
    "bbmcheck run < LAYOUT_AND_ASSIGN",
    "a layout and an assign section, which names the inputs that are on",
    "the cells that are live at the end, or the step at which a ball left",
    ["0  all steps were made", "1  a ball left the rectangle"],
    [],
    ["  -h, --help  Print help"],
    "bbmcheck run < layout_and_assign.txt"
);

/// The help of `value`.
pub const VALUE: Help = help!(
    "Evaluates a circuit under an assignment",
    "bbmcheck value < CIRCUIT_AND_ASSIGN",
    "a circuit and an assign section, which names the inputs that are on",
    "the value of each wire, up to a gate that has no row for its inputs",
    [
        "0  each wire has its value",
        "1  a gate has no row for its inputs"
    ],
    [],
    ["  -h, --help  Print help"],
    "bbmcheck value < circuit_and_assign.txt"
);

/// The help of `modules`.
pub const MODULES: Help = help!(
    "Lists the modules of a certificate",
    "bbmcheck modules < BUNDLE",
    "a bundle, which is a circuit, a layout for it and a certificate for both",
    "a line for each module, with its box and how many lines of each kind it has",
    ["0  the modules are listed"],
    [],
    ["  -h, --help  Print help"],
    "bbmcheck modules < bundle.txt"
);

/// The help of `migrate`.
pub const MIGRATE: Help = help!(
    "Writes a bundle in certificate version 2",
    "bbmcheck migrate < BUNDLE > BUNDLE_OF_VERSION_2",
    "a bundle, which is a circuit, a layout for it and a certificate for both",
    "the bundle with a certificate of version 2, which has no halo lines",
    ["0  the bundle is written"],
    [],
    ["  -h, --help  Print help"],
    "bbmcheck migrate < bundle.txt > bundle_of_version_2.txt"
);
