//! Session words: a user, a colon, and the file of that user's session.

ghost use Rattle.std.specs.Prelude.{◌≡◌, map, IfOk, IsErrOf};
ghost use Rattle.std.specs.List.{IsDistinct};
ghost use Rattle.cfg_base.specs.Kind.{IsName};
ghost use Rattle.command_line.specs.Asked.{AreSessions, IsSessionWord, file_in, user_in};
ghost use Rattle.command_line.specs.declared.usage.Usage.TheVariants.{Refused};

use crate::usage::Usage;
use cfg_base::{UserName, Users, Word, Words, learn};
use std::alloc::Global;
use std::collections::BTreeSet;

/// The most sessions that a command line names.
pub const MAX_SESSIONS: usize = 64;

/// A user, and the file of that user's session.
struct Session {
    user: UserName,
    file: Word,
}

/// The users and the files of sessions, each in their order.
pub(crate) struct Sessions {
    pub users: Users,
    pub files: Words,
}

/// The user of that name.
pub(crate) fn user_named(alloc: Global, name: &str) -> Result<UserName, Usage>
    ensures ok { IfOk result (λ user. IsName name.now × (user ≡ name.now)) }
    ensures refused { IsErrOf result Refused → IsName name.now → ⊥ }
{
    let word = Word::of(alloc, name.as_bytes())?;
    UserName::of(word).ok_or(Usage::Refused)
}

/// The session of a session word.
fn read_session(alloc: Global, word: &str) -> Result<Session, Usage>
    ensures ok { IfOk result (λ session. IsSessionWord word.now × (session.user ≡ user_in word.now) × (session.file ≡ file_in word.now)) }
    ensures refused { IsErrOf result Refused → IsSessionWord word.now → ⊥ }
{
    let (user, file) = word.split_once(':').ok_or(Usage::Refused)?;
    if file.is_empty() {
        return Err(Usage::Refused);
    }
    Ok(Session {
        user: user_named(alloc, user)?,
        file: Word::of(alloc, file.as_bytes())?,
    })
}

/// The sessions of session words.
pub(crate) fn sessions_of(alloc: Global, words: &[&str]) -> Result<Sessions, Usage>
    ensures ok { IfOk result (λ sessions. AreSessions (map (λ s. s.now) words.now)
        × (sessions.users ≡ map user_in (map (λ s. s.now) words.now))
        × (sessions.files ≡ map file_in (map (λ s. s.now) words.now))) }
    ensures refused { IsErrOf result Refused → AreSessions (map (λ s. s.now) words.now) → ⊥ }
{
    if words.len() > MAX_SESSIONS {
        return Err(Usage::Refused);
    }
    let mut users = Users::new(alloc);
    let mut files = Words::new(alloc);
    let mut known = BTreeSet::new(alloc);
    for word in words {
        let Session { user, file } = read_session(alloc, word)?;
        if !learn(&mut known, &file)? {
            return Err(Usage::Refused);
        }
        users.push(user)?;
        files.push(file)?;
    }
    Ok(Sessions { users, files })
}
