//! The forms that a line has, a line each, in operational and in configuration mode.

ghost use Rattle.std.specs.Prelude.{◌≡◌};
ghost use Rattle.shell_words.specs.Form.{forms_of, parts_of};

use crate::keyword::Keyword;
use commands::{Form, LoadWay, Mode, Mover, Verb};

/// Which tokens may stand at a place of a line.
#[derive(Clone, Copy, Debug, PartialEq, Eq)]
pub(crate) enum Symbol {
    /// This word, bare or in quotes.
    Keyword(Keyword),
    /// This word where it is bare.
    Mark(Keyword),
    /// Any word.
    Word,
    /// Any word but these two where they are bare.
    Neither(Keyword, Keyword),
    /// A word of 1 to 10 digits, of a number between these two or one of them.
    Number(u32, u32),
    /// A word that says a time.
    Time,
    OpenBracket,
    CloseBracket,
}

/// How many tokens of a kind stand at a place of a line.
#[derive(Clone, Copy, Debug, PartialEq, Eq)]
pub(crate) enum Part {
    /// None: what is left of a form's row.
    Nothing,
    One(Symbol),
    /// None, one or more.
    Many(Symbol),
}

/// Which time a commit has for its confirmation.
#[derive(Clone, Copy, Debug, PartialEq, Eq)]
pub(crate) enum Confirmed {
    /// It needs none.
    No,
    /// Ten minutes.
    InTen,
    /// As many minutes as the line's first word says.
    InMinutes,
}

/// What a line of a form asks.
#[derive(Clone, Copy, Debug, PartialEq, Eq)]
pub(crate) enum Makes {
    Configure(Mode),
    ShowActive(Form),
    /// A show of the whole active configuration as JSON.
    ShowJson,
    ShowCommits,
    ClearCommit,
    Logout,
    Change(Verb),
    /// A change of two statements.
    Move(Mover),
    Edit,
    Up,
    Top,
    Exit,
    ExitAll,
    Show(Form),
    /// A load of the text that follows the line.
    Load(LoadWay),
    /// A load of the JSON text that follows the line.
    LoadJson(LoadWay),
    Rollback,
    CheckOnly,
    /// A commit, whose comment is the line's last word where it has one.
    Commit {
        confirmed: Confirmed,
        comment: bool,
        quit: bool,
    },
    /// The same, of a commit that is synchronized.
    Synchronize {
        confirmed: Confirmed,
        comment: bool,
        quit: bool,
    },
    /// A commit at the time of the line's first word, whose comment is the last one where it has one.
    CommitAt {
        comment: bool,
    },
    Update,
    Status,
}

/// One form of a line.
#[derive(Clone, Copy, Debug, PartialEq, Eq)]
pub(crate) struct CommandForm {
    pub first: Part,
    pub second: Part,
    pub third: Part,
    pub fourth: Part,
    pub fifth: Part,
    pub sixth: Part,
    pub seventh: Part,
    pub makes: Makes,
}

impl CommandForm {
    /// The parts of a line of this form, in order.
    pub(crate) fn parts(&self) -> [Part; 7]
        ensures { result ≡ parts_of self.now }
    {
        [
            self.first,
            self.second,
            self.third,
            self.fourth,
            self.fifth,
            self.sixth,
            self.seventh,
        ]
    }
}

/// Which tokens: `Word`, `Time`, `OpenBracket`, `CloseBracket`, `mark Pipe`, `until Pipe`, `mark of Rename` (the one between its
/// two statements), `until mark of Rename`, `until mark of InsertBefore or InsertAfter`, `number 1 to 9`.
macro_rules! symbol {
    (mark $mark:ident) => { Symbol::Mark(Keyword::$mark) };
    (mark of $mover:ident) => { Symbol::Mark(Keyword::Mark(Mover::$mover)) };
    (until $mark:ident) => { Symbol::Neither(Keyword::$mark, Keyword::$mark) };
    (until mark of $mover:ident) => { symbol!(until mark of $mover or $mover) };
    (until mark of $one:ident or $other:ident) => {
        Symbol::Neither(Keyword::Mark(Mover::$one), Keyword::Mark(Mover::$other))
    };
    (number $low:literal to $high:literal) => { Symbol::Number($low, $high) };
    ($symbol:ident) => { Symbol::$symbol };
}

/// A part of a form: a keyword, that of a `verb` or of a `mover`, `one` token or `many`.
macro_rules! part {
    (nothing) => { Part::Nothing };
    (one $($symbol:tt)+) => { Part::One(symbol!($($symbol)+)) };
    (many $($symbol:tt)+) => { Part::Many(symbol!($($symbol)+)) };
    (verb $verb:ident) => { Part::One(Symbol::Keyword(Keyword::Change(Verb::$verb))) };
    (mover $mover:ident) => { Part::One(Symbol::Keyword(Keyword::Move(Mover::$mover))) };
    ($keyword:ident) => { Part::One(Symbol::Keyword(Keyword::$keyword)) };
}

/// A form: what it makes, and its parts in brackets.
macro_rules! form {
    ($makes:expr; [$($a:tt)+] [$($b:tt)+] [$($c:tt)+] [$($d:tt)+] [$($e:tt)+] [$($f:tt)+] [$($g:tt)+]) => {
        CommandForm {
            first: part!($($a)+),
            second: part!($($b)+),
            third: part!($($c)+),
            fourth: part!($($d)+),
            fifth: part!($($e)+),
            sixth: part!($($f)+),
            seventh: part!($($g)+),
            makes: $makes,
        }
    };
    ($makes:expr; $($parts:tt)+) => { form!($makes; $($parts)+ [nothing]) };
}

static OPERATIONAL: [CommandForm; 11] = [
    form!(Makes::Configure(Mode::Shared); [Configure]),
    form!(Makes::Configure(Mode::Private); [Configure] [Private]),
    form!(Makes::Configure(Mode::Exclusive); [Configure] [Exclusive]),
    form!(Makes::ShowActive(Form::Curly); [Show] [Configuration] [many until Pipe]),
    form!(Makes::ShowActive(Form::SetLines); [Show] [Configuration] [many until Pipe]
        [one mark Pipe] [Display] [verb Set]),
    form!(Makes::ShowActive(Form::Inherited); [Show] [Configuration] [many until Pipe]
        [one mark Pipe] [Display] [Inheritance]),
    form!(Makes::ShowJson; [Show] [Configuration] [one mark Pipe] [Display] [Json]),
    form!(Makes::ShowCommits; [Show] [System] [Commit]),
    form!(Makes::ClearCommit; [Clear] [System] [Commit]),
    form!(Makes::Logout; [Exit]),
    form!(Makes::Logout; [Quit]),
];

static CONFIGURING: [CommandForm; 59] = [
    form!(Makes::Change(Verb::Set); [verb Set] [one Word] [many Word]),
    form!(Makes::Change(Verb::Set); [verb Set] [many Word] [one OpenBracket] [one Word] [many Word] [one CloseBracket]),
    form!(Makes::Change(Verb::Delete); [verb Delete] [one Word] [many Word]),
    form!(Makes::Change(Verb::Delete); [verb Delete] [many Word] [one OpenBracket] [one Word] [many Word] [one CloseBracket]),
    form!(Makes::Change(Verb::Activate); [verb Activate] [one Word] [many Word]),
    form!(Makes::Change(Verb::Deactivate); [verb Deactivate] [one Word] [many Word]),
    form!(Makes::Change(Verb::Protect); [verb Protect] [one Word] [many Word]),
    form!(Makes::Change(Verb::Unprotect); [verb Unprotect] [one Word] [many Word]),
    form!(Makes::Edit; [Edit] [one Word] [many Word]),
    form!(Makes::Up; [Up]),
    form!(Makes::Up; [Up] [one number 1 to 4294967295]),
    form!(Makes::Top; [Top]),
    form!(Makes::Exit; [Exit]),
    form!(Makes::Exit; [Quit]),
    form!(Makes::ExitAll; [Exit] [ConfigurationMode]),
    form!(Makes::Show(Form::Curly); [Show] [many until Pipe]),
    form!(Makes::Show(Form::SetLines); [Show] [many until Pipe] [one mark Pipe] [Display] [verb Set]),
    form!(Makes::Show(Form::Inherited); [Show] [many until Pipe] [one mark Pipe] [Display] [Inheritance]),
    form!(Makes::CheckOnly; [Commit] [Check]),
    form!(Makes::Commit { confirmed: Confirmed::No, comment: false, quit: false }; [Commit]),
    form!(Makes::Commit { confirmed: Confirmed::No, comment: false, quit: true }; [Commit] [AndQuit]),
    form!(Makes::Commit { confirmed: Confirmed::No, comment: true, quit: false }; [Commit] [Comment] [one Word]),
    form!(Makes::Commit { confirmed: Confirmed::No, comment: true, quit: true };
        [Commit] [Comment] [one Word] [AndQuit]),
    form!(Makes::Commit { confirmed: Confirmed::InTen, comment: false, quit: false }; [Commit] [Confirmed]),
    form!(Makes::Commit { confirmed: Confirmed::InTen, comment: false, quit: true }; [Commit] [Confirmed] [AndQuit]),
    form!(Makes::Commit { confirmed: Confirmed::InTen, comment: true, quit: false };
        [Commit] [Confirmed] [Comment] [one Word]),
    form!(Makes::Commit { confirmed: Confirmed::InTen, comment: true, quit: true };
        [Commit] [Confirmed] [Comment] [one Word] [AndQuit]),
    form!(Makes::Commit { confirmed: Confirmed::InMinutes, comment: false, quit: false };
        [Commit] [Confirmed] [one number 1 to 65535]),
    form!(Makes::Commit { confirmed: Confirmed::InMinutes, comment: false, quit: true };
        [Commit] [Confirmed] [one number 1 to 65535] [AndQuit]),
    form!(Makes::Commit { confirmed: Confirmed::InMinutes, comment: true, quit: false };
        [Commit] [Confirmed] [one number 1 to 65535] [Comment] [one Word]),
    form!(Makes::Commit { confirmed: Confirmed::InMinutes, comment: true, quit: true };
        [Commit] [Confirmed] [one number 1 to 65535] [Comment] [one Word] [AndQuit]),
    form!(Makes::Synchronize { confirmed: Confirmed::No, comment: false, quit: false }; [Commit] [Synchronize]),
    form!(Makes::Synchronize { confirmed: Confirmed::No, comment: false, quit: true }; [Commit] [Synchronize] [AndQuit]),
    form!(Makes::Synchronize { confirmed: Confirmed::No, comment: true, quit: false }; [Commit] [Synchronize] [Comment] [one Word]),
    form!(Makes::Synchronize { confirmed: Confirmed::No, comment: true, quit: true };
        [Commit] [Synchronize] [Comment] [one Word] [AndQuit]),
    form!(Makes::Synchronize { confirmed: Confirmed::InTen, comment: false, quit: false }; [Commit] [Synchronize] [Confirmed]),
    form!(Makes::Synchronize { confirmed: Confirmed::InTen, comment: false, quit: true }; [Commit] [Synchronize] [Confirmed] [AndQuit]),
    form!(Makes::Synchronize { confirmed: Confirmed::InTen, comment: true, quit: false };
        [Commit] [Synchronize] [Confirmed] [Comment] [one Word]),
    form!(Makes::Synchronize { confirmed: Confirmed::InTen, comment: true, quit: true };
        [Commit] [Synchronize] [Confirmed] [Comment] [one Word] [AndQuit]),
    form!(Makes::Synchronize { confirmed: Confirmed::InMinutes, comment: false, quit: false };
        [Commit] [Synchronize] [Confirmed] [one number 1 to 65535]),
    form!(Makes::Synchronize { confirmed: Confirmed::InMinutes, comment: false, quit: true };
        [Commit] [Synchronize] [Confirmed] [one number 1 to 65535] [AndQuit]),
    form!(Makes::Synchronize { confirmed: Confirmed::InMinutes, comment: true, quit: false };
        [Commit] [Synchronize] [Confirmed] [one number 1 to 65535] [Comment] [one Word]),
    form!(Makes::Synchronize { confirmed: Confirmed::InMinutes, comment: true, quit: true };
        [Commit] [Synchronize] [Confirmed] [one number 1 to 65535] [Comment] [one Word] [AndQuit]),
    form!(Makes::CommitAt { comment: false }; [Commit] [At] [one Time]),
    form!(Makes::CommitAt { comment: true }; [Commit] [At] [one Time] [Comment] [one Word]),
    form!(Makes::Move(Mover::Rename); [mover Rename] [one until mark of Rename] [many until mark of Rename]
        [one mark of Rename] [one Word] [many Word]),
    form!(Makes::Move(Mover::Copy); [mover Copy] [one until mark of Copy] [many until mark of Copy]
        [one mark of Copy] [one Word] [many Word]),
    form!(Makes::Move(Mover::InsertBefore); [mover InsertBefore] [one until mark of InsertBefore or InsertAfter]
        [many until mark of InsertBefore or InsertAfter] [one mark of InsertBefore] [one Word] [many Word]),
    form!(Makes::Move(Mover::InsertAfter); [mover InsertAfter] [one until mark of InsertBefore or InsertAfter]
        [many until mark of InsertBefore or InsertAfter] [one mark of InsertAfter] [one Word] [many Word]),
    form!(Makes::Load(LoadWay::Merge); [Load] [Merge] [Terminal]),
    form!(Makes::Load(LoadWay::Override); [Load] [Override] [Terminal]),
    form!(Makes::Load(LoadWay::Replace); [Load] [Replace] [Terminal]),
    form!(Makes::Load(LoadWay::SetLines); [Load] [verb Set] [Terminal]),
    form!(Makes::LoadJson(LoadWay::Merge); [Load] [Json] [Merge] [Terminal]),
    form!(Makes::LoadJson(LoadWay::Override); [Load] [Json] [Override] [Terminal]),
    form!(Makes::Rollback; [Rollback]),
    form!(Makes::Rollback; [Rollback] [one number 0 to 4294967295]),
    form!(Makes::Update; [Update]),
    form!(Makes::Status; [Status]),
];

/// The forms that a line has in configuration mode or in operational mode.
#[tactic(auto, unfolding(crate::specs::Form::forms_of))]
pub(crate) fn forms_of(configuring: bool) -> &'static [CommandForm]
    ensures { result.now ≡ forms_of configuring }
{
    if configuring {
        &CONFIGURING
    } else {
        &OPERATIONAL
    }
}
