//! How long the whole printed text is, computed without memory.

ghost use Rattle.std.specs.Prelude.{◌≡◌, ◌≤◌, ◌+◌, [], ◌∷◌, length, min, nat_lt, Bool, true, false, IfSome, MatchOption};
ghost use Rattle.cfg_tree.specs.OwnWords.{own_words, word_if_any};
ghost use Rattle.cfg_tree.specs.Statements.{last_of};
ghost use Rattle.cfg_lex.specs.Printed.{printed_word};
ghost use Rattle.curly_print.specs.Length.{capped, indent_of, own_len};
ghost use Rattle.curly_print.specs.Printed.{marks_of, printed, value_text, words_line};
ghost use Rattle.curly_print.specs.Printing.{blank_words};

use cfg_base::{Path, Step, Value, WordList};
use cfg_lex::printed_len;
use cfg_tree::Tree;

fn len_if_any(word: &[u8]) -> usize
    requires { length word.now ≤ 255 }
    ensures length { result ≡ length (words_line (word_if_any word.now)) }
    ensures short { result ≤ 512 }
{
    if word.is_empty() {
        0
    } else {
        printed_len(word)
    }
}

fn len_behind(word: &[u8]) -> usize
    requires { length word.now ≤ 255 }
    ensures length { result ≡ length (blank_words (word_if_any word.now)) }
    ensures short { result ≤ 513 }
{
    if word.is_empty() {
        0
    } else {
        1 + printed_len(word)
    }
}

fn step_len(step: &Step) -> usize
    ensures length { result ≡ length (words_line (own_words (step.now ∷ []))) }
    ensures short { result ≤ 1025 }
{
    let head = step.head.as_bytes();
    let name = step.name.as_bytes();
    if head.is_empty() {
        return len_if_any(name);
    }
    printed_len(head) + len_behind(name)
}

fn last_len(steps: &[Step]) -> usize
    ensures length { result ≡ length (words_line (own_words (last_of steps.now ∷ []))) }
    ensures short { result ≤ 1025 }
{
    match steps.last() {
        Some(step) => step_len(step),
        None => 0,
    }
}

fn blank_words_len(words: &WordList) -> u64
    ensures { result ≡ capped (length (blank_words words.now)) }
{
    let mut left = words.iter();
    let mut total: u64 = 0;
    while let Some(word) = left.next() {
        total = total.saturating_add(1 + printed_len(word.as_bytes()) as u64);
    }
    total
}

fn value_len(words: &WordList) -> u64
    ensures { result ≡ capped (length (value_text words.now)) }
{
    let blank = blank_words_len(words);
    if words.len() < 2 {
        blank
    } else {
        blank.saturating_add(4)
    }
}

fn marks_len(value: &Value) -> usize
    ensures length { result ≡ length (marks_of value.now) }
    ensures short { result ≤ 19 }
{
    let inactive = if value.inactive { 10 } else { 0 };
    let protected = if value.protected { 9 } else { 0 };
    inactive + protected
}

fn indent_len(steps: &[Step]) -> usize
    requires { length steps.now ≤ 16 }
    ensures length { result ≡ indent_of steps.now }
    ensures short { result ≤ 60 }
{
    if steps.is_empty() {
        0
    } else {
        4 * (steps.len() - 1)
    }
}

fn own_len(steps: &[Step], value: &Value, holds: bool) -> u64
    requires { length steps.now ≤ 16 }
    ensures { result ≡ capped (own_len holds steps.now value.now) }
{
    let indent = indent_len(steps);
    let end = if holds { indent + 5 } else { 2 };
    let all = indent + marks_len(value) + last_len(steps) + end;
    value_len(&value.words).saturating_add(all as u64)
}

/// Whether the next statement, where there is one, has more steps than a path. Then it stands below.
fn is_followed_below(path: &Path, next: Option<(&Path, &Value)>) -> bool
    ensures { MatchOption next.entry (result ≡ false) (λ found. result ≡ nat_lt (length path.now) (length found.0.now)) }
{
    match next {
        Some((next, _)) => path.steps().len() < next.steps().len(),
        None => false,
    }
}

/// How many bytes `print` gives of the whole tree, or the most that 64 bits count.
pub fn text_len(tree: &Tree) -> u64
    ensures { result ≡ min (length (printed tree.now [])) 18446744073709551615 }
{
    if tree.count() == 0 {
        return 0;
    }
    let mut left = tree.walk();
    let mut last = left.next();
    let mut total: u64 = 0;
    while let Some((path, value)) = last {
        let next = left.next();
        let holds = is_followed_below(path, next);
        total = total.saturating_add(own_len(path.steps(), value, holds));
        last = next;
    }
    total
}

/// No fewer bytes than a word is printed in: in quotes each of its bytes takes two at most.
fn most_of(word: &[u8]) -> u64
    requires { length word.now ≤ 255 }
    ensures enough { length (printed_word word.now) ≤ result }
    ensures short { result ≤ 512 }
{
    2 * word.len() as u64 + 2
}

fn most_of_step(step: &Step) -> u64
    ensures enough { length (words_line (own_words (step.now ∷ []))) ≤ result }
    ensures short { result ≤ 1025 }
{
    most_of(step.head.as_bytes()) + 1 + most_of(step.name.as_bytes())
}

fn most_of_last(steps: &[Step]) -> u64
    ensures enough { length (words_line (own_words (last_of steps.now ∷ []))) ≤ result }
    ensures short { result ≤ 1025 }
{
    match steps.last() {
        Some(step) => most_of_step(step),
        None => 0,
    }
}

/// What is left of so many bytes behind words with a blank before each, if they surely have room.
fn room_behind_blanks(words: &WordList, room: u64) -> Option<u64>
    ensures { IfSome result (λ left. left + length (blank_words words.now) ≤ room) }
{
    let mut left = words.iter();
    let mut free = room;
    while let Some(word) = left.next() {
        free = free.checked_sub(1 + most_of(word.as_bytes()))?;
    }
    Some(free)
}

fn room_behind_value(words: &WordList, room: u64) -> Option<u64>
    ensures { IfSome result (λ left. left + length (value_text words.now) ≤ room) }
{
    let free = room_behind_blanks(words, room)?;
    if words.len() < 2 {
        Some(free)
    } else {
        free.checked_sub(4)
    }
}

/// What is left of so many bytes behind a statement, if it surely has room.
fn room_behind(steps: &[Step], value: &Value, room: u64) -> Option<u64>
    requires { length steps.now ≤ 16 }
    ensures { IfSome result (λ left. (holds : Bool) → left + own_len holds steps.now value.now ≤ room) }
{
    let around = 2 * indent_len(steps) + marks_len(value) + 5;
    let free = room.checked_sub(around as u64 + most_of_last(steps))?;
    room_behind_value(&value.words, free)
}

/// Whether `print` gives at most so many bytes of the whole tree, where that is told by how long the words are. It is told
/// sooner than `text_len`, and not of each tree.
pub fn is_surely_within(tree: &Tree, most: u64) -> bool
    ensures { result ≡ true → length (printed tree.now []) ≤ most }
{
    let _count = tree.count();
    let mut left = tree.walk();
    let mut free = most;
    while let Some((path, value)) = left.next() {
        match room_behind(path.steps(), value, free) {
            Some(rest) => free = rest,
            None => return false,
        }
    }
    true
}
