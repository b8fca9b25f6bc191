ghost use Rattle.std.specs.Prelude.{◌≡◌, IfSome};
ghost use Rattle.std.specs.Option.{option_map};
ghost use Rattle.config_core.specs.declared.effect.Effect.TheVariants.{Stay};
ghost use Rattle.config_core.specs.declared.reply.Reply.TheVariants.{Refused};
ghost use Rattle.config_core.specs.Plan.{ExpandsMade, made_in};

use crate::effect::Effect;
use crate::reply::{Refusal, Reply};
use cfg_base::Moment;
use cfg_tree::Full;
use commit_ledger::Entry;
use kept_expansion::Expanded;
use std::marker::Model;

/// A step that has all its memory and isn't carried out yet.
#[derive(Debug, Drop)]
pub struct Prepared {
    pub(crate) caller: u32,
    pub(crate) moment: Moment,
    pub(crate) effect: Effect,
    pub(crate) reply: Reply,
    /// The expansion of the configuration that it commits, which the check of that has made.
    pub(crate) full: Option<Full>,
    /// The configuration that was checked, with its expansion, for the next check.
    pub(crate) checked: Option<Expanded>,
}

impl Model for Prepared {
    ghost use Rattle.std.specs.Prelude.{IfSome};
    ghost use Rattle.std.specs.Coded.{codes};
    ghost use Rattle.cfg_tree.specs.Statements.{statements_code};
    ghost use Rattle.config_core.specs.Plan.{ExpandsMade, PreparedView};

    ghost Value = { PreparedView };

    ghost coded = { Prim.hlevel (codes, statements_code) };

    ghost view = { λ p. record { caller = p.caller; moment = p.moment; effect = p.effect; reply = p.reply } };

    ghost invariant = { λ p. IfSome p.full (ExpandsMade p.effect) };
}

impl Prepared {
    /// The entry that the event makes, whatever its outcome.
    pub fn entry(&self) -> Option<&Entry>
        ensures { option_map (λ entry. entry.now) result ≡ option_map (λ made. made.entry) (made_in self.now.effect) }
    {
        match &self.effect {
            Effect::Append(appending) => Some(appending.ready.entry()),
            Effect::Stay
            | Effect::Leave(_)
            | Effect::Enter { .. }
            | Effect::Move(_)
            | Effect::Edit(_)
            | Effect::Settle(_) => None,
        }
    }

    /// Hands out the expansion of the configuration that it commits, where its check has made it.
    pub fn take_expansion(&mut self) -> Option<Full>
        ensures same { self.new ≡ self.old }
        ensures expansion { IfSome result (ExpandsMade self.old.effect) }
    {
        self.full.take()
    }

    // The same step, with the expansion of the configuration that it commits.
    pub(crate) fn with_expansion(self, full: Full) -> Prepared
        requires { ExpandsMade self.effect full }
        ensures { result ≡ self }
    {
        let Prepared {
            caller,
            moment,
            effect,
            reply,
            full: _,
            checked,
        } = self;
        Prepared {
            caller,
            moment,
            effect,
            reply,
            full: Some(full),
            checked,
        }
    }

    // The same step, with the configuration that was checked.
    pub(crate) fn with_checked(self, expanded: Expanded) -> Prepared
        ensures { result ≡ self }
    {
        let Prepared {
            caller,
            moment,
            effect,
            reply,
            full,
            checked: _,
        } = self;
        Prepared {
            caller,
            moment,
            effect,
            reply,
            full,
            checked: Some(expanded),
        }
    }
}

// A step with this effect and this reply.
pub(crate) fn step(caller: u32, moment: Moment, effect: Effect, reply: Reply) -> Prepared
    ensures { result ≡ record { caller = caller; moment = moment; effect = effect; reply = reply } }
{
    Prepared {
        caller,
        moment,
        effect,
        reply,
        full: None,
        checked: None,
    }
}

// The state keeps all but its moment.
pub(crate) fn refused(caller: u32, moment: Moment, refusal: Refusal) -> Prepared
    ensures { result ≡ record { caller = caller; moment = moment; effect = Stay; reply = Refused refusal } }
{
    step(caller, moment, Effect::Stay, Reply::Refused(refusal))
}
