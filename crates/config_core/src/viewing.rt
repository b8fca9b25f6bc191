//! Shows of configurations and of the list of commits, as steps.

ghost use Rattle.std.specs.Prelude.{◌≡◌, IfOk};
ghost use Rattle.cfg_tree.specs.Typed.{IsLevelPath};
ghost use Rattle.commands.specs.declared.command.Command.{Command};
ghost use Rattle.config_core.specs.Callers.{IsCaller};
ghost use Rattle.config_core.specs.Serving.{Does, Shows};
ghost use Rattle.config_core.specs.Machine.{later};
ghost use Rattle.config_core.specs.Prepared.{Prepares};

use crate::core_state::Core;
use crate::effect::Effect;
use crate::position::Position;
use crate::prepared::{Prepared, step};
use crate::reply::Reply;
use crate::showing::show;
use cfg_base::{Moment, NoMemory, Path, Words};
use cfg_tree::Tree;
use commands::Form;

impl Core {
    // A show of statements from a level on.
    fn shows(
        &self,
        caller: u32,
        moment: Moment,
        tree: &Tree,
        level: &Path,
        words: &Words,
        form: Form,
    ) -> Result<Prepared, NoMemory>
        requires caller { IsCaller self.now caller }
        requires level { IsLevelPath level.now }
        ensures { IfOk result (Prepares self.now moment (Shows (later self.now moment) tree.now level.now words.now form)) }
    {
        let reply = show(self.alloc, tree, level, words, form)?;
        Ok(step(caller, moment, Effect::Stay, reply))
    }

    pub(crate) fn prepare_show_active(
        &self,
        caller: u32,
        moment: Moment,
        words: &Words,
        form: Form,
    ) -> Result<Prepared, NoMemory>
        requires { IsCaller self.now caller }
        ensures { IfOk result (Prepares self.now moment (Does (later self.now moment) caller (Command.ShowActive words.now form))) }
    {
        let top = Position::top(self.alloc);
        let active = &self.ledger.last().tree;
        self.shows(caller, moment, active, top.level(), words, form)
    }

    pub(crate) fn prepare_show(
        &self,
        caller: u32,
        moment: Moment,
        words: &Words,
        form: Form,
    ) -> Result<Prepared, NoMemory>
        requires { IsCaller self.now caller }
        ensures { IfOk result (Prepares self.now moment (Does (later self.now moment) caller (Command.Show words.now form))) }
    {
        let level = self.session(caller).position.level();
        let tree = self.candidate(caller).tree();
        self.shows(caller, moment, tree, level, words, form)
    }

    pub(crate) fn prepare_show_commits(
        &self,
        caller: u32,
        moment: Moment,
    ) -> Result<Prepared, NoMemory>
        requires { IsCaller self.now caller }
        ensures { IfOk result (Prepares self.now moment (Does (later self.now moment) caller Command.ShowCommits)) }
    {
        let lines = self.ledger.history_lines(self.alloc)?;
        Ok(step(caller, moment, Effect::Stay, Reply::Text(lines)))
    }
}
