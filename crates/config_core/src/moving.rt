//! Entering and leaving configuration mode, and moves through levels.

ghost use Rattle.std.specs.Prelude.{◌≡◌, ℕ, List, Err, IfOk};
ghost use Rattle.cfg_base.specs.declared.path.Step.{Step};
ghost use Rattle.cfg_resolve.specs.Resolve.{ResolvesTo};
ghost use Rattle.cfg_tree.specs.Typed.{IsTypedPath};
ghost use Rattle.commands.specs.declared.command.Command.{Command};
ghost use Rattle.config_core.specs.declared.reply.Reply.TheVariants.{Left};
ghost use Rattle.config_core.specs.Callers.{IsCaller, without_mode};
ghost use Rattle.config_core.specs.Serving.{Does, answered, edited, IsLost};
ghost use Rattle.config_core.specs.Machine.{later};
ghost use Rattle.config_core.specs.Prepared.{Prepares, fresh_for};

use crate::core_state::Core;
use crate::effect::Effect;
use crate::position::Position;
use crate::prepared::{Prepared, refused, step};
use crate::refusing::{is_level_at, refusal_of};
use crate::reply::{Refusal, Reply};
use candidate::Candidate;
use cfg_base::{Moment, NoMemory, Path, Words};
use cfg_resolve::{WordsFault, resolve};
use commands::Mode;
use edit_ops::EditFault;

impl Core {
    pub(crate) fn prepare_configure(
        &self,
        caller: u32,
        moment: Moment,
        mode: Mode,
    ) -> Result<Prepared, NoMemory>
        requires { IsCaller self.now caller }
        ensures { IfOk result (Prepares self.now moment (Does (later self.now moment) caller (Command.Configure mode))) }
    {
        let own = self.own_for(mode)?;
        let effect = Effect::Enter { mode, own };
        Ok(step(caller, moment, effect, Reply::Entered(mode)))
    }

    // The shared candidate after the caller's leaving, where what it changed is discarded.
    pub(crate) fn fresh_for(&self, caller: u32) -> Result<Option<Candidate>, NoMemory>
        ensures { IfOk result (λ fresh. fresh ≡ fresh_for self.now caller) }
    {
        if self.holds(caller) {
            Ok(Some(self.fresh()?))
        } else {
            Ok(None)
        }
    }

    pub(crate) fn prepare_logout(&self, caller: u32, moment: Moment) -> Result<Prepared, NoMemory>
        requires { IsCaller self.now caller }
        ensures { IfOk result (Prepares self.now moment (Does (later self.now moment) caller Command.Logout)) }
    {
        let fresh = self.fresh_for(caller)?;
        Ok(step(caller, moment, Effect::Leave(fresh), Reply::LoggedOut))
    }

    // The refusal of words that name no statement.
    fn lost(&self, caller: u32, moment: Moment, why: WordsFault) -> Result<Prepared, NoMemory>
        requires { IsCaller self.now caller }
        ensures { IfOk result (Prepares self.now moment (λ turned. (level : List Step) (asked : List (List ℕ)) → ResolvesTo level asked (Err why)
            → IsLost (later self.now moment) level asked turned)) }
    {
        let refusal = refusal_of(EditFault::from(why)).ok_or(NoMemory)?;
        Ok(refused(caller, moment, refusal))
    }

    // What `edit` makes of the level that its words name.
    fn edited(&self, caller: u32, moment: Moment, path: Path) -> Result<Prepared, NoMemory>
        requires caller { IsCaller self.now caller }
        requires typed { IsTypedPath path }
        ensures { IfOk result (Prepares self.now moment (λ turned. turned ≡ edited (later self.now moment) caller path)) }
    {
        if !is_level_at(&path) {
            return Ok(refused(caller, moment, Refusal::NotALevel(path)));
        }
        let position = self.session(caller).position.moved_to(self.alloc, path)?;
        Ok(step(caller, moment, Effect::Move(position), Reply::Done))
    }

    pub(crate) fn prepare_edit(
        &self,
        caller: u32,
        moment: Moment,
        words: &Words,
    ) -> Result<Prepared, NoMemory>
        requires { IsCaller self.now caller }
        ensures { IfOk result (Prepares self.now moment (Does (later self.now moment) caller (Command.Edit words.now))) }
    {
        match resolve(self.alloc, self.session(caller).position.level(), words) {
            Ok(target) => self.edited(caller, moment, target.path),
            Err(why) => self.lost(caller, moment, why),
        }
    }

    pub(crate) fn prepare_up(
        &self,
        caller: u32,
        moment: Moment,
        count: u32,
    ) -> Result<Prepared, NoMemory>
        requires { IsCaller self.now caller }
        ensures { IfOk result (Prepares self.now moment (Does (later self.now moment) caller (Command.Up count))) }
    {
        let position = self.session(caller).position.moved_up(self.alloc, count)?;
        Ok(step(caller, moment, Effect::Move(position), Reply::Done))
    }

    pub(crate) fn prepare_top(&self, caller: u32, moment: Moment) -> Prepared
        requires { IsCaller self.now caller }
        ensures { Prepares self.now moment (Does (later self.now moment) caller Command.Top) result }
    {
        step(
            caller,
            moment,
            Effect::Move(Position::top(self.alloc)),
            Reply::Done,
        )
    }

    // The caller leaves the mode.
    fn left(&self, caller: u32, moment: Moment) -> Result<Prepared, NoMemory>
        requires { IsCaller self.now caller }
        ensures { IfOk result (Prepares self.now moment (λ turned. turned ≡ answered (without_mode (later self.now moment) caller) Left)) }
    {
        let fresh = self.fresh_for(caller)?;
        Ok(step(caller, moment, Effect::Leave(fresh), Reply::Left))
    }

    pub(crate) fn prepare_exit(&self, caller: u32, moment: Moment) -> Result<Prepared, NoMemory>
        requires { IsCaller self.now caller }
        ensures { IfOk result (Prepares self.now moment (Does (later self.now moment) caller Command.Exit)) }
    {
        match self.session(caller).position.moved_back(self.alloc)? {
            Some(position) => Ok(step(caller, moment, Effect::Move(position), Reply::Done)),
            None => self.left(caller, moment),
        }
    }

    pub(crate) fn prepare_exit_all(&self, caller: u32, moment: Moment) -> Result<Prepared, NoMemory>
        requires { IsCaller self.now caller }
        ensures { IfOk result (Prepares self.now moment (Does (later self.now moment) caller Command.ExitAll)) }
    {
        self.left(caller, moment)
    }
}
