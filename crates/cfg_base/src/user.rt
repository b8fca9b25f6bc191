ghost use Rattle.std.specs.Prelude.{◌≡◌, ◌↔◌, ◌∷◌, ◌++◌, [], codes, IsSome, IfOk, IfSome, OnOk, OnErr, IsTrue};
ghost use Rattle.std.specs.List.{list_all};
ghost use Rattle.cfg_base.specs.Kind.{IsName, is_name_byte};

use crate::fault::NoMemory;
use crate::word::Word;
use std::alloc::{AllocError, Global};
use std::marker::Model;

/// The most bytes that a name has.
const MAX_NAME: usize = 64;

/// Who makes a change: a word of 1 to 64 letters, digits or `.` `_` `-` `:` `/` `+` `@`.
#[derive(Debug, Drop)]
pub struct UserName {
    name: Word,
}

impl Model for UserName {
    ghost use Rattle.std.specs.Prelude.{List, ℕ};
    ghost use Rattle.cfg_base.specs.Kind.{IsName};

    ghost Value = { List ℕ };

    ghost view = { λ u. u.name };

    ghost invariant = { λ u. IsName u.name };
}

fn is_name_byte(byte: u8) -> bool
    ensures { result ≡ is_name_byte byte }
{
    matches!(byte, b'A'..=b'Z' | b'a'..=b'z' | b'0'..=b'9' | b'.' | b'_' | b'-' | b':' | b'/' | b'+' | b'@')
}

fn all_name_bytes(bytes: &[u8]) -> bool
    ensures { result ≡ list_all is_name_byte bytes.now }
{
    bytes.iter().all(|&byte| is_name_byte(byte))
}

/// Whether the bytes are the name of a user, a group or a policy.
pub fn is_name(bytes: &[u8]) -> bool
    ensures { IsTrue result ↔ IsName bytes.now }
{
    !bytes.is_empty() && bytes.len() <= MAX_NAME && all_name_bytes(bytes)
}

impl UserName {
    /// The user `root`.
    pub fn root(alloc: Global) -> Result<UserName, NoMemory>
        ensures { IfOk result (λ user. user ≡ codes "root") }
    {
        Ok(UserName {
            name: Word::short(alloc, b"root")?,
        })
    }

    /// The user of that name, where it is one.
    pub fn of(name: Word) -> Option<UserName>
        ensures some { IsSome result ↔ IsName name }
        ensures same { IfSome result (λ user. user ≡ name) }
    {
        if is_name(name.as_bytes()) {
            Some(UserName { name })
        } else {
            None
        }
    }

    /// The name.
    pub fn as_word(&self) -> &Word
        ensures same { result.now ≡ self.now }
        ensures name { IsName self.now }
    {
        &self.name
    }
}

impl Clone for UserName {
    ghost is_clone = { λ source copy. copy ≡ source };

    fn clone(&self) -> Result<UserName, AllocError> {
        Ok(UserName {
            name: self.name.clone()?,
        })
    }
}

/// The users of a run, one for each session, in the order of the sessions.
#[derive(Debug, Drop)]
pub struct Users {
    users: Vec<UserName>,
}

impl Model for Users {
    ghost use Rattle.std.specs.Prelude.{List, ℕ};

    ghost Value = { List (List ℕ) };

    ghost view = { λ u. u.users.items };
}

impl Users {
    /// No users.
    pub fn new(alloc: Global) -> Users
        ensures { result ≡ [] }
    {
        Users {
            users: Vec::new(alloc),
        }
    }

    /// Puts a user at the end.
    pub fn push(&mut self, user: UserName) -> Result<(), NoMemory>
        ensures ok { OnOk result (self.new ≡ self.old ++ user ∷ []) }
        ensures unchanged { OnErr result (self.new ≡ self.old) }
    {
        self.users.push(user)?;
        Ok(())
    }

    /// The users, in order.
    pub fn as_slice(&self) -> &[UserName]
        ensures { result.now ≡ self.now }
    {
        &self.users
    }
}

impl Clone for Users {
    ghost is_clone = { λ source copy. copy ≡ source };

    fn clone(&self) -> Result<Users, AllocError> {
        Ok(Users {
            users: self.users.clone()?,
        })
    }
}
