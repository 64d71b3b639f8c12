//! Laws of the definitions, each the contract of a function without a body.
ghost use Rattle.answers.specs.CheckText.{IsReportOf};
ghost use Rattle.headline.specs.Fronts.{FrontLineKeepsReports, WideTextIsAccepted, WideTextIsRefused};
ghost use Rattle.headline.specs.Laws.{BeginsWithOneDesign, SaysYesMeansFourthLine, FourthLineShowsOutcome, HasAnAnswerToEachText, HasAtMostOneAnswerToEachText, PrintedDesignIsRead, TextBeginsWithReadDesign, UnrefusedDesignIsGood, RightSaysCorrectDesign, SaysOneCertificate, SaysOneDesign, YesHasOneValuation, YesMeansRight, YesMeansRightInFull, YesMeansRightStops};
ghost use Rattle.headline.specs.PlainLaws.{UnrefusedKeepsDesignRules, EachSmallDesignHasPlainText, EachSmallDesignIsDecided, PlainTextIsDecided, PlainLinesTextIsDecided, PlainNoMeansWrongOrRimLive, RefusedIsNoSmallDesign, SmallDesignIsDecided, ThereAndBackTextIsPlain, ThereAndBackTextIsSmall, YesKeepsOffRim, LinesOfNoHaveMeaning};
ghost use Rattle.headline.specs.Witnesses.{PlainNoTextIsRefuted, PlainYesTextIsAccepted, SmallDesignIsAccepted, SmallDesignIsRefuted, ThereAndBackTextIsAccepted, TimedModulesTextIsAccepted};
ghost use Rattle.headline.specs.MovedDesigns.{EachMovedCorrectDesignGetsYes, SomeDesignNeedsMove};
ghost use Rattle.headline.specs.Migration.{MigrationCopiesVersionTwo, MigrationIsIdempotent, MigrationKeepsYes, MigrationKeepsAllButHalos};
ghost use Rattle.answers.specs.MigrateText.{IsMigrationOf};
ghost use Rattle.answers.specs.ModulesText.{IsModulesAnswerOf};
ghost use Rattle.answers.specs.RunText.{IsRunAnswerOf};
ghost use Rattle.answers.specs.ValueText.{IsValueAnswerOf};

/// States that what `check` writes for a text, and its outcome, is a function of the text.
pub fn check_has_one_answer()
    ensures one { HasAtMostOneAnswerToEachText IsReportOf }
    ensures some { HasAnAnswerToEachText IsReportOf }
{}

/// States that what `run` writes for a text, and its outcome, is a function of the text.
pub fn run_has_one_answer()
    ensures one { HasAtMostOneAnswerToEachText IsRunAnswerOf }
    ensures some { HasAnAnswerToEachText IsRunAnswerOf }
{}

/// States that what `value` writes for a text, and its outcome, is a function of the text.
pub fn value_has_one_answer()
    ensures one { HasAtMostOneAnswerToEachText IsValueAnswerOf }
    ensures some { HasAnAnswerToEachText IsValueAnswerOf }
{}

/// States that what `modules` writes for a text, and its outcome, is a function of the text.
pub fn modules_has_one_answer()
    ensures one { HasAtMostOneAnswerToEachText IsModulesAnswerOf }
    ensures some { HasAnAnswerToEachText IsModulesAnswerOf }
{}

/// States that what `migrate` writes for a text, and its outcome, is a function of the text.
pub fn migrate_has_one_answer()
    ensures one { HasAtMostOneAnswerToEachText IsMigrationOf }
    ensures some { HasAnAnswerToEachText IsMigrationOf }
{}

/// States that `migrate` keeps what is said and what is accepted.
///
/// - The text that it writes says the same circuit and layout, and in version 2 the same lines of the certificate other
///   than its halo lines.
/// - A text of version 2 is written as it is, byte for byte. So a text that it wrote, and that is not a refusal, is
///   migrated to itself.
/// - A text that is reported with a yes is reported so too after it is migrated.
pub fn migration_keeps_what_is_accepted()
    ensures unchanged { MigrationCopiesVersionTwo }
    ensures says_the_same { MigrationKeepsAllButHalos }
    ensures migration_idempotent { MigrationIsIdempotent }
    ensures accepted { MigrationKeepsYes }
{}

/// States what a yes means.
///
/// A text for which the report says yes begins with a circuit and a layout that computes it, and goes on with a
/// certificate whose stops hold. The circuit has exactly one valuation for each choice of values of its inputs. The
/// record `IsRightInFull` has these facts, and more, of one circuit and one layout. The fourth line of a report is
/// `verdict yes` exactly if the verdict is yes.
pub fn yes_means_right()
    ensures right { YesMeansRight }
    ensures as_read { RightSaysCorrectDesign }
    ensures stops { YesMeansRightStops }
    ensures in_full { YesMeansRightInFull }
    ensures one_valuation { YesHasOneValuation }
    ensures fourth_line_shown { FourthLineShowsOutcome }
    ensures line { SaysYesMeansFourthLine }
{}

/// States what a no means for a text whose certificate is one plain module, the whole rectangle.
///
/// The text is wrong: the layout does not compute the circuit, or the stops are not right, or the layout touches its
/// rim. No text with a yes touches its rim. So `check` decides plain texts that are not refused.
pub fn plain_no_means_wrong_or_rim_live()
    ensures plain_no_is_wrong { PlainNoMeansWrongOrRimLive }
    ensures off_rim { YesKeepsOffRim }
    ensures decided { PlainTextIsDecided }
    ensures lines { PlainLinesTextIsDecided }
{}

/// States that `check` decides small designs.
///
/// A text that says a design of at most 64 by 64 cells, 12 inputs and 64 gates, and then `plain_lines`, is not refused.
/// `check` says yes to it exactly if the layout computes the circuit, the stops are right, and the layout keeps off its
/// rim. Each such design that keeps the rules of both sections has a text, `design_text`. So `check` says yes to this
/// text exactly if the layout computes the circuit and keeps off its rim, and the circuit has no delay. Each text that
/// is not refused says a design that keeps these rules.
pub fn small_designs_are_decided()
    ensures decided { SmallDesignIsDecided }
    ensures refused { RefusedIsNoSmallDesign }
    ensures text { EachSmallDesignHasPlainText }
    ensures each { EachSmallDesignIsDecided }
    ensures read { UnrefusedKeepsDesignRules }
{}

/// States that each small design that computes its circuit gets a yes, after its layout is moved away from the rim.
///
/// Take a design of at most 60 by 60 cells, 12 inputs and 64 gates that keeps the rules, computes its circuit, and has
/// no delay. Move its layout by two columns and two rows, into a rectangle that is 4 cells wider and 4 higher. The
/// moved layout keeps the rules, computes the circuit and keeps off its rim. So each report on its plain text is a yes.
///
/// Some design needs this move, since it touches its rim: its own plain text is reported with a no.
pub fn each_moved_correct_design_gets_yes()
    ensures each { EachMovedCorrectDesignGetsYes }
    ensures some { SomeDesignNeedsMove }
{}

/// States what the lines of a no mean.
///
/// If the earliest line of a no is a `local` line, its fault is one of the whole plane. It is so for each valuation
/// that gives the module the assignment of the line. If no valuation of the circuit does, the law does not say what the
/// line means.
///
/// If the certificate is plain, each line of a no has a meaning:
///
/// - `edge`: the layout touches its rim;
/// - `stop`: a stop is wrong;
/// - `end` and `keep`: the layout does not compute the circuit, for the inputs in the line;
/// - `delay` and `meet`: the line is right about the times of its own gate, and they are wrong if the line says so.
pub fn lines_of_no_have_meaning()
    ensures { LinesOfNoHaveMeaning }
{}

/// States that a text begins with one circuit, one layout and one certificate at most.
///
/// If it is not refused, each line of the circuit and of the layout is good after those before it, by names, limits and
/// cells. Each has its one spelling.
///
/// A text that begins with the printing of a circuit and a layout says them, and begins with no others. A text that is
/// not refused begins with the printing of the circuit and the layout that it says.
pub fn says_one_design()
    ensures one { SaysOneDesign }
    ensures certificate { SaysOneCertificate }
    ensures unrefused_is_good { UnrefusedDesignIsGood }
    ensures printed { PrintedDesignIsRead }
    ensures read { TextBeginsWithReadDesign }
    ensures begins { BeginsWithOneDesign }
{}

/// States that three texts are reported with a yes, so the theorems are not vacuous.
///
/// - One is of four modules with a gate, a delay and stops.
/// - One is of a switch and its inverse gate, and its certificate is plain.
/// - One is plain and has three steps, in which two balls meet. The same design has a plain text without stops, which
///   is reported with a yes too.
pub fn something_is_accepted()
    ensures timed { TimedModulesTextIsAccepted }
    ensures inverse { ThereAndBackTextIsAccepted }
    ensures plain { ThereAndBackTextIsPlain }
    ensures small { ThereAndBackTextIsSmall }
    ensures meeting { PlainYesTextIsAccepted }
    ensures design { SmallDesignIsAccepted }
{}

/// States that a plain text of three steps, in which two balls meet, is reported with a no.
///
/// Two outputs have changed places in its layout. The report has a `local` line, and its fault is one of the plane. A
/// small design of three steps gets a no too.
pub fn something_is_refuted()
    ensures meeting { PlainNoTextIsRefuted }
    ensures design { SmallDesignIsRefuted }
{}

/// States that the line `limits 2` changes no report of a text that is not refused without it, and that it is of use: a
/// text with a layout that is wider than 512 cells is refused without the line, and reported with a yes behind it.
pub fn front_line_keeps_reports()
    ensures kept { FrontLineKeepsReports }
    ensures refused { WideTextIsRefused }
    ensures accepted { WideTextIsAccepted }
{}
