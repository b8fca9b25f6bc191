//! Words of a command line, read as what they ask.

ghost use Rattle.std.specs.Prelude.{◌≡◌, ◌≤◌, ◌⊎◌, [], ◌∷◌, length, map, codes, IfOk, IfSome, IfNone, MatchOption, IsErrOf, ℕ};
ghost use Rattle.std.specs.List.{All};
ghost use Rattle.std.specs.Str.{IsUtf8};
ghost use Rattle.cfg_base.specs.declared.kind.Kind.TheVariants.{Number};
ghost use Rattle.cfg_values.specs.Spelling.{IsSpelling};
ghost use Rattle.command_line.specs.Asked.{AreSessions, Asks, IsAsked, IsLimit, file_in, name_of, users_of};
ghost use Rattle.command_line.specs.declared.asked.Asked.{Asked};
ghost use Rattle.command_line.specs.declared.asked.RunMode.{RunMode};
ghost use Rattle.command_line.specs.declared.usage.Usage.TheVariants.{Refused};

use crate::asked::{Asked, RunMode};
use crate::command::matches_of;
use crate::given::Given;
use crate::sessions::{Sessions, sessions_of, user_named};
use crate::usage::Usage;
use cfg_base::{Kind, Limits, UserName, Users, Word, Words};
use cfg_values::{ValueFault, read_value};
use std::alloc::Global;

/// The greatest limit that may be asked for.
const MAX_LIMIT: u64 = 4_294_967_295;

/// The least limit of a session's input, in bytes.
const LEAST_INPUT: u64 = 1;

/// The least limit of a journal file's used part, in bytes.
const LEAST_JOURNAL: u64 = 4096;

/// The numbers of interfaces that mode `gen` makes.
const INTERFACES: Kind = Kind::Number { from: 1, to: 3000 };

/// The mode of that name.
fn mode_named(name: &str) -> Option<RunMode>
    ensures { MatchOption result ((mode : RunMode) → name.now ≡ name_of mode → ⊥) (λ mode. name.now ≡ name_of mode) }
{
    match name {
        "init" => Some(RunMode::Init),
        "serve" => Some(RunMode::Serve),
        "check" => Some(RunMode::Check),
        "gen" => Some(RunMode::Gen),
        _ => None,
    }
}

/// The limit that a text writes.
fn limit_of(text: &str, least: u64) -> Option<u64>
    ensures some { IfSome result (IsLimit least text.now) }
    ensures none { IfNone result ((number : ℕ) → IsLimit least text.now number → ⊥) }
{
    let number = text.parse::<u64>().ok()?;
    if least <= number && number <= MAX_LIMIT {
        Some(number)
    } else {
        None
    }
}

/// The place of a mode, which is a number of interfaces in mode `gen`.
fn place_of(alloc: Global, mode: &str, place: &str) -> Result<Word, Usage>
    ensures ok { IfOk result (λ word. (word ≡ place.now) × (length place.now ≤ 255)
        × (mode.now ≡ codes "gen" → IsSpelling (Number 1 3000) place.now)) }
    ensures refused { IsErrOf result Refused → length place.now ≤ 255
        → (mode.now ≡ codes "gen" → IsSpelling (Number 1 3000) place.now) → ⊥ }
{
    if mode == "gen" {
        match read_value(alloc, INTERFACES, place.as_bytes()) {
            Ok(_) => {}
            Err(ValueFault::NotOfKind(_)) => return Err(Usage::Refused),
            Err(ValueFault::NoMemory) => return Err(Usage::NoMemory),
        }
    }
    Ok(Word::of(alloc, place.as_bytes())?)
}

/// The limits of a run.
fn limits_of(given: &Given<'_, '_>) -> Option<Limits>
    ensures some { IfSome result (λ limits. IsLimit 1 given.now.input limits.input × IsLimit 4096 given.now.journal limits.journal) }
    ensures none { IfNone result ((input journal : ℕ) → IsLimit 1 given.now.input input → IsLimit 4096 given.now.journal journal → ⊥) }
{
    Some(Limits {
        input: limit_of(given.input, LEAST_INPUT)?,
        journal: limit_of(given.journal, LEAST_JOURNAL)?,
    })
}

/// The one session of a user, without a file.
fn alone(alloc: Global, user: UserName) -> Result<Sessions, Usage>
    ensures users { IfOk result (λ sessions. sessions.users ≡ user ∷ []) }
    ensures files { IfOk result (λ sessions. sessions.files ≡ []) }
    ensures never { IsErrOf result Refused → ⊥ }
{
    let mut users = Users::new(alloc);
    users.push(user)?;
    Ok(Sessions {
        users,
        files: Words::new(alloc),
    })
}

/// The sessions that are asked for.
fn asked_sessions(
    alloc: Global,
    user: UserName,
    mode: &str,
    words: &[&str],
) -> Result<Sessions, Usage>
    ensures sound { IfOk result (λ _. AreSessions (map (λ s. s.now) words.now) × ((map (λ s. s.now) words.now ≡ []) ⊎ (mode.now ≡ codes "serve"))) }
    ensures users { IfOk result (λ sessions. sessions.users ≡ users_of user (map (λ s. s.now) words.now)) }
    ensures files { IfOk result (λ sessions. sessions.files ≡ map file_in (map (λ s. s.now) words.now)) }
    ensures refused { IsErrOf result Refused → AreSessions (map (λ s. s.now) words.now)
        → ((map (λ s. s.now) words.now ≡ []) ⊎ (mode.now ≡ codes "serve")) → ⊥ }
{
    if words.is_empty() {
        return alone(alloc, user);
    }
    if mode != "serve" {
        return Err(Usage::Refused);
    }
    sessions_of(alloc, words)
}

/// What is given, read as what it asks.
fn asked_of(alloc: Global, given: &Given<'_, '_>) -> Result<Asked, Usage>
    ensures ok { IfOk result (IsAsked given.now) }
    ensures refused { IsErrOf result Refused → (asked : Asked) → IsAsked given.now asked → ⊥ }
{
    let mode = mode_named(given.mode).ok_or(Usage::Refused)?;
    let place = place_of(alloc, given.mode, given.place)?;
    let user = user_named(alloc, given.user)?;
    if given.access && given.mode != "serve" {
        return Err(Usage::Refused);
    }
    let limits = limits_of(given).ok_or(Usage::Refused)?;
    let words = given.sessions.unwrap_or(&[]);
    let Sessions { users, files } = asked_sessions(alloc, user, given.mode, words)?;
    Ok(Asked {
        mode,
        place,
        users,
        files,
        limits,
        access: given.access,
    })
}

/// The words as text.
fn texts_of<'a>(alloc: Global, words: &'a Words) -> Result<Vec<&'a str>, Usage>
    ensures ok { IfOk result (λ texts. All IsUtf8 words.entry.now × (map (λ s. s.now) texts.items ≡ words.entry.now)) }
    ensures refused { IsErrOf result Refused → All IsUtf8 words.entry.now → ⊥ }
{
    let mut texts = Vec::new(alloc);
    for word in words.as_slice() {
        match str::from_utf8(word.as_bytes()) {
            Ok(text) => texts.push(text)?,
            Err(_) => return Err(Usage::Refused),
        }
    }
    Ok(texts)
}

/// What the words of a command line ask, the program's own name left out.
pub fn read_words(alloc: Global, words: &Words) -> Result<Asked, Usage>
    ensures ok { IfOk result (Asks words.now) }
    ensures refused { IsErrOf result Refused → (asked : Asked) → Asks words.now asked → ⊥ }
{
    let texts = texts_of(alloc, words)?;
    let matches = matches_of(alloc, &texts)?;
    asked_of(alloc, &Given::of(&matches))
}
