//! The rights that a command needs, and which of them is missing.

ghost use Rattle.std.specs.Prelude.{◌≡◌, ◌≢◌, true, false, [], ◌∷◌, ◌++◌, option_map};
ghost use Rattle.access_rules.specs.Needs.{alter_needs, changed_words, first_missing, form_needs, needs_of, see_needs, top_word};
ghost use Rattle.access_rules.specs.declared.right.Right.TheVariants.{Configure};

use crate::right::Right;
use crate::rights::Rights;
use crate::section::{Section, section_of};
use cfg_base::{Path, Words};
use commands::{Command, Form, Op};

/// The first word of the statement at the top that words are of.
fn first_word(words: &Words) -> Option<&[u8]>
    ensures { option_map (λ word. word.now) result ≡ top_word [] words.now }
{
    match words.as_slice() {
        [word, ..] => Some(word.as_bytes()),
        [] => None,
    }
}

/// The first word of the statement at the top that words from a level on are of.
fn top_word<'a>(level: &'a Path, words: &'a Words) -> Option<&'a [u8]>
    ensures { option_map (λ word. word.now) result ≡ top_word level.now words.now }
{
    match level.steps() {
        [step, ..] => Some(step.head.as_bytes()),
        [] => first_word(words),
    }
}

/// The words that name what is changed.
fn changed_words(op: &Op) -> &Words
    ensures { result.now ≡ changed_words op.now }
{
    match op {
        Op::Set(words)
        | Op::Delete(words)
        | Op::Activate(words)
        | Op::Deactivate(words)
        | Op::Protect(words)
        | Op::Unprotect(words) => words,
        Op::Rename { from, .. } | Op::Copy { from, .. } => from,
        Op::Insert { moved, .. } => moved,
    }
}

impl Rights {
    /// The first of these rights that isn't among them.
    fn first_missing(&self, needs: &[Right]) -> Option<Right>
        ensures { result ≡ first_missing self.now needs.now }
    {
        needs.iter().copied().find(|&right| !self.has(right))
    }

    /// What is missing to see statements at the top that a word begins; without a word all.
    fn missing_to_see(&self, word: Option<&[u8]>) -> Option<Right>
        ensures { result ≡ first_missing self.now (see_needs (option_map (λ word. word.now) word.entry)) }
    {
        match word {
            None => self.first_missing(&[
                Right::See(Section::System),
                Right::See(Section::Interface),
                Right::See(Section::Routing),
                Right::See(Section::Firewall),
            ]),
            Some(word) => match section_of(word) {
                Some(section) => self.first_missing(&[Right::See(section)]),
                None => None,
            },
        }
    }

    /// What is missing for a show.
    fn missing_to_show(&self, word: Option<&[u8]>, form: Form) -> Option<Right>
        ensures { result ≡ first_missing self.now (form_needs form ++ see_needs (option_map (λ word. word.now) word.entry)) }
    {
        match form {
            Form::Curly | Form::SetLines => self.missing_to_see(word),
            Form::Inherited => {
                if !self.has(Right::See(Section::System)) {
                    return Some(Right::See(Section::System));
                }
                self.missing_to_see(word)
            }
        }
    }

    /// What is missing for a change of statements at the top that a word begins.
    fn missing_to_change(&self, word: Option<&[u8]>) -> Option<Right>
        ensures { result ≡ first_missing self.now (Configure ∷ alter_needs (option_map (λ word. word.now) word.entry)) }
    {
        if !self.has(Right::Configure) {
            return Some(Right::Configure);
        }
        match word {
            None => None,
            Some(word) => match section_of(word) {
                Some(section) => self.first_missing(&[Right::Alter(section)]),
                None => None,
            },
        }
    }

    /// The first of the rights that a command needs at a level and that isn't among these; none where the command is allowed.
    pub fn missing(&self, level: &Path, command: &Command) -> Option<Right>
        ensures { result ≡ first_missing self.now (needs_of level.now command.now) }
    {
        match command {
            Command::ShowCommits | Command::Status => self.first_missing(&[Right::View]),
            Command::ClearCommit => self.first_missing(&[Right::Clear]),
            Command::ShowActive { words, form } => {
                self.missing_to_show(first_word(words), *form)
            }
            Command::Show { words, form } => self.missing_to_show(top_word(level, words), *form),
            Command::Configure(_)
            | Command::Edit(_)
            | Command::Up(_)
            | Command::Top
            | Command::CheckOnly
            | Command::Commit { .. }
            | Command::CommitAt { .. }
            | Command::Update => self.first_missing(&[Right::Configure]),
            Command::Change(op) => self.missing_to_change(top_word(level, changed_words(op))),
            Command::Load { .. } | Command::Rollback(_) => self.first_missing(&[
                Right::Configure,
                Right::Alter(Section::System),
                Right::Alter(Section::Interface),
                Right::Alter(Section::Routing),
                Right::Alter(Section::Firewall),
            ]),
            Command::Exit | Command::ExitAll | Command::Logout => None,
        }
    }
}

/// Whether a show of statements at the top that a word begins needs no right.
fn shows_for_nothing(word: Option<&[u8]>, form: Form) -> bool
    ensures none { result ≡ true → form_needs form ++ see_needs (option_map (λ word. word.now) word.entry) ≡ [] }
    ensures some { result ≡ false → form_needs form ++ see_needs (option_map (λ word. word.now) word.entry) ≢ [] }
{
    match form {
        Form::Curly | Form::SetLines => match word {
            None => false,
            Some(word) => section_of(word).is_none(),
        },
        Form::Inherited => false,
    }
}

/// Whether a command needs no right at a level: so each user may ask it.
pub fn needs_no_right(level: &Path, command: &Command) -> bool
    ensures none { result ≡ true → needs_of level.now command.now ≡ [] }
    ensures some { result ≡ false → needs_of level.now command.now ≢ [] }
{
    match command {
        Command::ShowActive { words, form } => { shows_for_nothing(first_word(words), *form) }
        Command::Show { words, form } => shows_for_nothing(top_word(level, words), *form),
        Command::Exit | Command::ExitAll | Command::Logout => true,
        Command::ShowCommits
        | Command::Status
        | Command::ClearCommit
        | Command::Configure(_)
        | Command::Edit(_)
        | Command::Up(_)
        | Command::Top
        | Command::CheckOnly
        | Command::Commit { .. }
        | Command::CommitAt { .. }
        | Command::Update
        | Command::Change(_)
        | Command::Load { .. }
        | Command::Rollback(_) => false,
    }
}
