//! The forms of lines.

ghost use Rattle.std.specs.Prelude.{◌≡◌, find};
ghost use Rattle.cfg_base.specs.Words.{same_word};
ghost use Rattle.set_text.specs.Form.{form_of, keyword_of};

use commands::{Mover, Verb};

/// A form: its keyword, and what stands after it.
#[derive(Clone, Copy, Debug, PartialEq, Eq)]
pub(crate) enum Form {
    /// Words; brackets may stand round the last of them, or may not.
    OneList { verb: Verb, brackets: bool },
    /// Words, the mark of one of these two kinds, and words. Both have one keyword.
    TwoLists { one: Mover, other: Mover },
}

impl Form {
    /// The word that a line of the form begins with.
    fn keyword(self) -> &'static [u8]
        ensures { result.now ≡ keyword_of self }
    {
        match self {
            Form::OneList { verb, .. } => verb.keyword(),
            Form::TwoLists { one, .. } => one.keyword(),
        }
    }
}

/// The forms, each with its own keyword.
static FORMS: [Form; 9] = [
    Form::OneList {
        verb: Verb::Set,
        brackets: true,
    },
    Form::OneList {
        verb: Verb::Delete,
        brackets: true,
    },
    Form::OneList {
        verb: Verb::Activate,
        brackets: false,
    },
    Form::OneList {
        verb: Verb::Deactivate,
        brackets: false,
    },
    Form::OneList {
        verb: Verb::Protect,
        brackets: false,
    },
    Form::OneList {
        verb: Verb::Unprotect,
        brackets: false,
    },
    Form::TwoLists {
        one: Mover::Rename,
        other: Mover::Rename,
    },
    Form::TwoLists {
        one: Mover::Copy,
        other: Mover::Copy,
    },
    Form::TwoLists {
        one: Mover::InsertBefore,
        other: Mover::InsertAfter,
    },
];

fn forms() -> &'static [Form]
    ensures { result.now ≡ FORMS }
{
    &FORMS
}

fn form_in(forms: &[Form], word: &[u8]) -> Option<Form>
    ensures { result ≡ find (λ form. same_word (keyword_of form) word.now) forms.now }
{
    for form in forms {
        if form.keyword() == word {
            return Some(*form);
        }
    }
    None
}

/// The form that a keyword begins.
pub(crate) fn form_of(word: &[u8]) -> Option<Form>
    ensures { result ≡ form_of word.now }
{
    form_in(forms(), word)
}
