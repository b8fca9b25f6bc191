//! What stands in the words of a command line.

ghost use Rattle.std.specs.Prelude.{◌≡◌};
ghost use Rattle.clap.specs.Words.{found_of, rows_of};
ghost use Rattle.command_line.specs.Given.{given_in, has_flag, text_of};

use clap::ArgMatches;
use std::marker::Model;

/// The texts of a command line, each under its argument, and its flag.
#[derive(Debug, Drop)]
pub(crate) struct Given<'m, 'a> {
    pub mode: &'a str,
    pub place: &'a str,
    /// The session words, where there are some.
    pub sessions: Option<&'m [&'a str]>,
    pub user: &'a str,
    pub input: &'a str,
    pub journal: &'a str,
    pub access: bool,
}

impl<'m, 'a> Model for Given<'m, 'a> {
    ghost use Rattle.std.specs.Prelude.{[], map, option_map, unwrap_or};
    ghost use Rattle.command_line.specs.Given.{Given};

    ghost Value = { Given };

    ghost view = { λ g. record {
      mode = g.mode.now;
      place = g.place.now;
      sessions = unwrap_or (option_map (λ s. map (λ v. v.now) s.now) g.sessions) [];
      user = g.user.now;
      input = g.input.now;
      journal = g.journal.now;
      access = g.access;
    } };
}

/// The value of an argument.
fn text<'a>(matches: &ArgMatches<'a>, id: &str) -> &'a str
    ensures { result.now ≡ text_of id.now (rows_of (found_of matches.now)) }
{
    matches.get_str(id).unwrap_or("")
}

/// Whether a flag is there.
fn flag(matches: &ArgMatches<'_>, id: &str) -> bool
    ensures { result ≡ has_flag id.now (rows_of (found_of matches.now)) }
{
    text(matches, id) == "true"
}

impl<'m, 'a> Given<'m, 'a> {
    /// What stands in words that clap takes.
    pub(crate) fn of(matches: &'m ArgMatches<'a>) -> Given<'m, 'a>
        ensures { result ≡ given_in (rows_of (found_of matches.entry.now)) }
    {
        Given {
            mode: text(matches, "mode"),
            place: text(matches, "place"),
            sessions: matches.get_strs("session"),
            user: text(matches, "user"),
            input: text(matches, "input"),
            journal: text(matches, "journal-limit"),
            access: flag(matches, "access"),
        }
    }
}
