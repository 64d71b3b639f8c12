//! The codes of refusals.
ghost use Rattle.std.specs.Prelude.{◌≡◌};
ghost use Rattle.section_text.specs.Codes.{code_number};

/// The reason why a line is refused: the first test that it fails.
#[derive(Clone, Copy, Debug, PartialEq, Eq)]
pub enum RefusalCode {
    /// The line has none of the forms of its section.
    NoForm,
    /// A number or a count is outside its limit.
    PastLimit,
    /// Nothing has the name, or no gate has the number.
    UnknownName,
    /// The name is defined, on, or local already.
    DefinedTwice,
    /// The wire is consumed already.
    ConsumedTwice,
    /// The kind of line is out of its place, or the list does not rise.
    OutOfOrder,
    /// The cell is taken, or outside the layout.
    TakenCell,
    /// The box has an odd corner, or is outside the layout or over an earlier box.
    MisplacedBox,
    /// The wire is not local in the module, or the gate is not used there.
    NotLocal,
    /// No signal or stop may be at this time and cell.
    NoPlace,
    /// Something is missing where a section or a module ends.
    SomethingMissing,
    /// The text ends early, or goes on after its end.
    TextCut,
}

impl RefusalCode {
    /// Returns the number that a refusal gives, from 1 to 12.
    pub fn number(self) -> u8
        ensures { result ≡ code_number self }
    {
        match self {
            RefusalCode::NoForm => 1,
            RefusalCode::PastLimit => 2,
            RefusalCode::UnknownName => 3,
            RefusalCode::DefinedTwice => 4,
            RefusalCode::ConsumedTwice => 5,
            RefusalCode::OutOfOrder => 6,
            RefusalCode::TakenCell => 7,
            RefusalCode::MisplacedBox => 8,
            RefusalCode::NotLocal => 9,
            RefusalCode::NoPlace => 10,
            RefusalCode::SomethingMissing => 11,
            RefusalCode::TextCut => 12,
        }
    }
}
