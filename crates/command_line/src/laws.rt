//! What holds of all command lines.

ghost use Rattle.std.specs.Prelude.{◌≡◌, ◌∷◌, [], List, ℕ, codes, true, false};
ghost use Rattle.command_line.specs.Asked.{Asks};
ghost use Rattle.command_line.specs.declared.asked.Asked.{Asked};
ghost use Rattle.command_line.specs.declared.asked.RunMode.TheVariants.{Serve};
ghost use Rattle.command_line.specs.declared.sessions.TheConstants.{MAX_SESSIONS};

/// Words ask at most one thing.
pub fn words_ask_one_thing()
    ensures { (words : List (List ℕ)) (one other : Asked) → Asks words one → Asks words other → one ≡ other }
{}

/// `serve d` asks for one session of root over the journal at `d`, with the usual limits of 16 MiB of input and 64 MiB of
/// journal.
pub fn a_place_is_served_for_root()
    ensures { Asks (codes "serve" ∷ codes "d" ∷ []) (record {
      mode = Serve;
      place = codes "d";
      users = codes "root" ∷ [];
      files = [];
      limits = record { input = 16777216; journal = 67108864 };
      access = false;
    }) }
{}

/// `serve d --access` asks for the same, and that each command be allowed by its user's rights.
pub fn a_flag_asks_for_rights()
    ensures { Asks (codes "serve" ∷ codes "d" ∷ codes "--access" ∷ []) (record {
      mode = Serve;
      place = codes "d";
      users = codes "root" ∷ [];
      files = [];
      limits = record { input = 16777216; journal = 67108864 };
      access = true;
    }) }
{}

/// The limits that the definitions of this crate cite, by their numbers.
pub fn limits_are_stated()
    ensures { MAX_SESSIONS ≡ 64 }
{}
