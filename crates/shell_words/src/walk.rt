//! How far a form goes along a line.

ghost use Rattle.std.specs.Prelude.{◌≡◌, ◌≤◌, ◌++◌, length, take, drop, OnOk};
ghost use Rattle.shell_words.specs.Form.{given_by, is_of, names};
ghost use Rattle.shell_words.specs.Walk.{fits, furthest, given, reach, run_len, form_for};

use crate::form::{CommandForm, Part, Symbol};
use crate::item::Item;
use cfg_base::{NoMemory, Words};
use std::alloc::Global;

impl Symbol {
    /// Whether the token is one of these.
    fn is_of(self, item: &Item<'_>) -> bool
        ensures { result ≡ is_of self item.now }
    {
        match self {
            Symbol::Keyword(keyword) => item.is_keyword(keyword),
            Symbol::Mark(keyword) => item.is_mark(keyword),
            Symbol::Word => item.is_word(),
            Symbol::Neither(one, other) => {
                item.is_word() && !(item.is_mark(one) || item.is_mark(other))
            }
            Symbol::Number(low, high) => item.is_number(low, high),
            Symbol::Time => item.is_time(),
            Symbol::OpenBracket => item.is_open_bracket(),
            Symbol::CloseBracket => item.is_close_bracket(),
        }
    }

    /// Whether such a token names something.
    fn names(self) -> bool
        ensures { result ≡ names self }
    {
        match self {
            Symbol::Word | Symbol::Neither(_, _) | Symbol::Number(_, _) | Symbol::Time => true,
            Symbol::Keyword(_) | Symbol::Mark(_) | Symbol::OpenBracket | Symbol::CloseBracket => {
                false
            }
        }
    }

    /// How many tokens at the front are of this symbol.
    fn run_len(self, items: &[Item<'_>]) -> usize
        ensures length { result ≡ run_len self items.now }
        ensures within { result ≤ length items.now }
    {
        items.iter().take_while(|item| self.is_of(item)).count()
    }
}

/// How many of the tokens the parts go on with.
pub(crate) fn reach(parts: &[Part], items: &[Item<'_>]) -> usize
    ensures length { result ≡ reach parts.now items.now }
    ensures within { result ≤ length items.now }
{
    match parts {
        [] => 0,
        [Part::Nothing, rest @ ..] => reach(rest, items),
        [Part::One(symbol), rest @ ..] => match items {
            [item, behind @ ..] if symbol.is_of(item) => 1 + reach(rest, behind),
            _ => 0,
        },
        [Part::Many(symbol), rest @ ..] => {
            let count = symbol.run_len(items);
            count + reach(rest, &items[count..])
        }
    }
}

/// Whether the tokens are the parts.
pub(crate) fn fits(parts: &[Part], items: &[Item<'_>]) -> bool
    ensures { result ≡ fits parts.now items.now }
{
    match parts {
        [] => items.is_empty(),
        [Part::Nothing, rest @ ..] => fits(rest, items),
        [Part::One(symbol), rest @ ..] => match items {
            [item, behind @ ..] => symbol.is_of(item) && fits(rest, behind),
            [] => false,
        },
        [Part::Many(symbol), rest @ ..] => fits(rest, &items[symbol.run_len(items)..]),
    }
}

/// Puts the words that the tokens of a symbol give at the end of the words.
pub(crate) fn give_run(
    alloc: Global,
    words: &mut Words,
    symbol: Symbol,
    items: &[Item<'_>],
) -> Result<(), NoMemory>
    ensures { OnOk result (words.new ≡ words.old ++ given_by (names symbol) items.now) }
{
    if !symbol.names() {
        return Ok(());
    }
    for item in items {
        item.give(alloc, words)?;
    }
    Ok(())
}

/// Puts the words that the tokens give the parts at the end of the words.
pub(crate) fn give(
    alloc: Global,
    words: &mut Words,
    parts: &[Part],
    items: &[Item<'_>],
) -> Result<(), NoMemory>
    ensures { OnOk result (words.new ≡ words.old ++ given parts.now items.now) }
{
    match parts {
        [] => Ok(()),
        [Part::Nothing, rest @ ..] => give(alloc, words, rest, items),
        [Part::One(symbol), rest @ ..] => match items {
            [] => Ok(()),
            [_, behind @ ..] => {
                give_run(alloc, words, *symbol, &items[..1])?;
                give(alloc, words, rest, behind)
            }
        },
        [Part::Many(symbol), rest @ ..] => {
            let count = symbol.run_len(items);
            give_run(alloc, words, *symbol, &items[..count])?;
            give(alloc, words, rest, &items[count..])
        }
    }
}

/// How many of the tokens the forms go on with.
pub(crate) fn furthest(forms: &[CommandForm], items: &[Item<'_>]) -> usize
    ensures length { result ≡ furthest forms.now items.now }
    ensures within { result ≤ length items.now }
{
    match forms {
        [] => 0,
        [form, rest @ ..] => reach(&form.parts(), items).max(furthest(rest, items)),
    }
}

/// The first form that the tokens are in.
pub(crate) fn form_for(forms: &[CommandForm], items: &[Item<'_>]) -> Option<CommandForm>
    ensures { result ≡ form_for forms.now items.now }
{
    match forms {
        [] => None,
        [form, rest @ ..] => {
            if fits(&form.parts(), items) {
                Some(*form)
            } else {
                form_for(rest, items)
            }
        }
    }
}
